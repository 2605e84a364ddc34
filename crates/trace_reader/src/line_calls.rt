//! The calls of lines, in little memory.
ghost use Rattle.std.specs.Prelude.{◌≡◌, ◌+◌, ◌≤◌, [], ◌++◌, length, take, drop, All, None, IfOk, IsOk};
ghost use Rattle.egl_calls.specs.Ranges.{IsNumber, AreArguments};
ghost use Rattle.trace_reader.specs.Arguments.{padded};
ghost use Rattle.trace_reader.specs.Payloads.{payload_bytes};

use egl_calls::{Call, Kind, NoMemory, Numbers, Payload};
use std::alloc::Global;
use std::marker::Model;

/// How many numbers a call may have that takes no memory beside its line.
const MOST_FEW: usize = 4;

/// Most calls have at most four numbers, no list and no bytes. Of another the numbers that it has stand in front of the items of its list.
#[derive(Drop)]
enum Packed {
    Few(Kind, i64, i64, i64, i64),
    More(Kind, u8, Numbers),
    Given(Kind, u8, Numbers, Payload),
}

/// The call of a line. Its memory is that of the numbers that it has.
#[derive(Drop)]
pub struct LineCall {
    packed: Packed,
}

impl Model for LineCall {
    ghost use Rattle.egl_calls.specs.Calls.{CallValue};
    ghost use Rattle.trace_reader.specs.LineCalls.{IsPacked, unpacked};

    ghost Value = { CallValue };

    ghost view = { λ c. unpacked c.packed };

    ghost invariant = { λ c. IsPacked c.packed };
}

/// The first numbers, and the items behind them, in one list of this size.
fn joined(alloc: Global, front: &[i64], list: &[i64]) -> Result<Numbers, NoMemory>
    requires { length front.now ≤ 8 }
    ensures { IfOk result (λ n. n ≡ front.now ++ list.now) }
{
    if list.is_empty() {
        return copied(alloc, front);
    }
    let Some(size) = list.len().checked_add(front.len()) else {
        return Err(NoMemory);
    };
    let Ok(mut numbers) = Vec::with_capacity(alloc, size) else {
        return Err(NoMemory);
    };
    if numbers.extend_from_slice(front).is_err() || numbers.extend_from_slice(list).is_err() {
        return Err(NoMemory);
    }
    Ok(Numbers::from_vec(numbers))
}

/// An equal list. An empty one takes no memory.
fn copied(alloc: Global, items: &[i64]) -> Result<Numbers, NoMemory>
    ensures value { IfOk result (λ n. n ≡ items.now) }
    ensures empty { items.now ≡ [] → IsOk result }
{
    if items.is_empty() {
        return Ok(Numbers::new(alloc));
    }
    match Vec::from_slice(alloc, items) {
        Ok(items) => Ok(Numbers::from_vec(items)),
        Err(_) => Err(NoMemory),
    }
}

/// The first so many.
fn front_of(count: u8, numbers: &Numbers) -> &[i64]
    requires { count ≤ length numbers.now }
    ensures { result.now ≡ take count numbers.now }
{
    let (front, _) = numbers.as_slice().split_at(count as usize);
    front
}

/// Those behind the first so many.
fn behind(count: u8, numbers: &Numbers) -> &[i64]
    requires { count ≤ length numbers.now }
    ensures { result.now ≡ drop count numbers.now }
{
    let (_, list) = numbers.as_slice().split_at(count as usize);
    list
}

/// Eight numbers, of which these are the first and the others are 0.
fn padded(front: &[i64]) -> [i64; 8]
    requires { length front.now ≤ 8 }
    ensures { result ≡ padded front.now }
{
    let mut args = [0i64; 8];
    for k in 0..front.len() {
        args[k] = front[k];
    }
    args
}

impl LineCall {
    /// The call of a kind with the first so many of eight numbers, a list and bytes.
    pub(crate) fn new(
        alloc: Global,
        kind: Kind,
        args: &[i64; 8],
        count: usize,
        list: &[i64],
        bytes: Option<Payload>,
    ) -> Result<LineCall, NoMemory>
        requires few { count ≤ 8 }
        requires zeros { args.now ≡ padded (take count args.now) }
        requires ranges { AreArguments kind 0 args.now }
        requires numbers { All IsNumber list.now }
        ensures { IfOk result (λ c. c ≡ record { kind = kind; args = args.now; list = list.now; bytes = bytes }) }
    {
        if count <= MOST_FEW && list.is_empty() && bytes.is_none() {
            let packed = Packed::Few(kind, args[0], args[1], args[2], args[3]);
            return Ok(LineCall { packed });
        }
        let (front, _) = args.split_at(count);
        let numbers = joined(alloc, front, list)?;
        let packed = match bytes {
            None => Packed::More(kind, count as u8, numbers),
            Some(payload) => Packed::Given(kind, count as u8, numbers, payload),
        };
        Ok(LineCall { packed })
    }

    pub fn kind(&self) -> Kind
        ensures { result ≡ self.now.kind }
    {
        match &self.packed {
            Packed::Few(kind, _, _, _, _) => *kind,
            Packed::More(kind, _, _) => *kind,
            Packed::Given(kind, _, _, _) => *kind,
        }
    }

    /// The eight numbers.
    pub fn args(&self) -> [i64; 8]
        ensures value { result ≡ self.now.args }
        ensures ranges { AreArguments self.now.kind 0 self.now.args }
    {
        match &self.packed {
            Packed::Few(_, first, second, third, fourth) => {
                [*first, *second, *third, *fourth, 0, 0, 0, 0]
            }
            Packed::More(_, count, numbers) => padded(front_of(*count, numbers)),
            Packed::Given(_, count, numbers, _) => padded(front_of(*count, numbers)),
        }
    }

    pub fn list(&self) -> &[i64]
        ensures list { result.now ≡ self.now.list }
        ensures numbers { All IsNumber self.now.list }
    {
        match &self.packed {
            Packed::Few(_, _, _, _, _) => &[],
            Packed::More(_, count, numbers) => behind(*count, numbers),
            Packed::Given(_, count, numbers, _) => behind(*count, numbers),
        }
    }

    /// The bytes, which are shared.
    fn bytes(&self) -> Result<Option<Payload>, NoMemory>
        ensures value { IfOk result (λ b. b ≡ self.now.bytes) }
        ensures none { self.now.bytes ≡ None → IsOk result }
    {
        match &self.packed {
            Packed::Few(_, _, _, _, _) => Ok(None),
            Packed::More(_, _, _) => Ok(None),
            Packed::Given(_, _, _, payload) => Ok(Some(payload.share()?)),
        }
    }

    /// How many bytes it gives.
    pub fn payload_bytes(&self) -> u64
        ensures { result ≡ payload_bytes self.now }
    {
        match &self.packed {
            Packed::Few(_, _, _, _, _) => 0,
            Packed::More(_, _, _) => 0,
            Packed::Given(_, _, _, payload) => payload.bytes().len(),
        }
    }

    /// The call by itself, with the same bytes. It takes no memory where there is neither a list nor bytes.
    pub fn to_call(&self, alloc: Global) -> Result<Call, NoMemory>
        ensures value { IfOk result (λ c. c ≡ self.now) }
        ensures plain { self.now.list ≡ [] → self.now.bytes ≡ None → IsOk result }
    {
        let list = copied(alloc, self.list())?;
        let bytes = self.bytes()?;
        Ok(Call {
            kind: self.kind(),
            args: self.args(),
            list,
            bytes,
        })
    }
}
