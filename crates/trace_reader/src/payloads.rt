//! Payloads: bytes in hexadecimal digits, or the null pointer.
ghost use Rattle.std.specs.Prelude.{◌≡◌, ◌+◌, ◌*◌, ◌/◌, ◌%◌, ◌<◌, ◌≤◌, ◌++◌, [], length, position, slice_index, Some, true, IfOk, IfSome, OnOk};
ghost use Rattle.std.specs.Option.{option_map};
ghost use Rattle.trace_reader.specs.Hexadecimals.{hex_digit};
ghost use Rattle.trace_reader.specs.Payloads.{are_byte_digits, counted, hex_bytes, is_colon, most_line_payload, most_repeats, payload, payload_size, repeated, repeats};

use crate::hexadecimals::{are_hex_digits, hex_digit};
use crate::numerals::numeral;
use crate::word_cuts::begins_with;
use egl_calls::{Bytes, NoMemory, Payload};
use std::alloc::Global;
use std::marker::Model;

/// How many times a payload may give its bytes.
const MOST_REPEATS: u64 = 4_294_967_295;

/// How many bytes are doubled up to before they are copied: beside so many, a copy's call costs little.
const BLOCK: usize = 4_096;

/// A payload as a word says it: the null pointer, or the digits of bytes and how many times they stand. Its value are the bytes, which aren't in memory yet.
#[derive(Drop)]
pub struct PayloadWord<'a> {
    count: u64,
    digits: Option<&'a [u8]>,
}

impl<'a> Model for PayloadWord<'a> {
    ghost use Rattle.std.specs.Prelude.{◌≡◌, ◌<◌, ◌≤◌, ◌^◌, ℕ, List, Option, IfSome, length, true};
    ghost use Rattle.std.specs.Option.{option_map};
    ghost use Rattle.trace_reader.specs.Payloads.{are_byte_digits, hex_bytes, most_repeats, repeated};

    ghost Value = { Option (List ℕ) };

    ghost view = { λ p. option_map (λ d. repeated p.count (hex_bytes d.now)) p.digits };

    ghost invariant = { λ p. (p.count ≤ most_repeats) × IfSome p.digits (λ d. (are_byte_digits d.now ≡ true) × (length d.now < 2 ^ 64)) };
}

pub fn are_byte_digits(digits: &[u8]) -> bool
    ensures { result ≡ are_byte_digits digits.now }
{
    digits.len() % 2 == 0 && are_hex_digits(digits)
}

/// The bytes of digits, so many times.
fn counted(count: u64, digits: &[u8]) -> Option<PayloadWord<'_>>
    requires { count ≤ most_repeats }
    ensures { result ≡ option_map Some (counted (Some count) digits.now) }
{
    if are_byte_digits(digits) {
        Some(PayloadWord {
            count,
            digits: Some(digits),
        })
    } else {
        None
    }
}

fn colon_in(text: &[u8]) -> Option<usize>
    ensures place { result ≡ position is_colon text.now }
    ensures within { IfSome result (λ n. n < length text.now) }
{
    text.iter().position(|b| *b == b':')
}

/// The bytes of `COUNT:HEX`.
#[tactic(auto, unfolding(crate::specs::Payloads::repeats))]
fn repeats(text: &[u8]) -> Option<PayloadWord<'_>>
    ensures { result ≡ option_map Some (repeats text.now) }
{
    match colon_in(text) {
        Some(colon) => {
            let (count, _) = text.split_at(colon);
            let (_, digits) = text.split_at(colon + 1);
            match numeral(MOST_REPEATS, count) {
                Some(count) => counted(count, digits),
                None => None,
            }
        }
        None => None,
    }
}

/// The payload that a word says: `-` is the null pointer, `#HEX` gives bytes once and `*COUNT:HEX` so many times.
#[tactic(auto, unfolding(crate::specs::Payloads::payload))]
pub fn payload_word(word: &[u8]) -> Option<PayloadWord<'_>>
    ensures { result ≡ payload word.now }
{
    if word == b"-".as_slice() {
        return Some(PayloadWord::null());
    }
    if begins_with(word, b'#') {
        return counted(1, &word[1..]);
    }
    if begins_with(word, b'*') {
        return repeats(&word[1..]);
    }
    None
}

/// The byte of two digits, of which the first counts sixteen. Bytes that are no digits have one too, so that a loop tests none.
fn byte_of(pair: &[u8; 2]) -> u8
    ensures { result ≡ (16 * hex_digit (slice_index pair.now 0) + hex_digit (slice_index pair.now 1)) % 256 }
{
    hex_digit(pair[0])
        .wrapping_mul(16)
        .wrapping_add(hex_digit(pair[1]))
}

/// The bytes of digits.
pub fn decoded(alloc: Global, digits: &[u8]) -> Result<Vec<u8>, NoMemory>
    requires { are_byte_digits digits.now ≡ true }
    ensures { IfOk result (λ v. v.items ≡ hex_bytes digits.now) }
{
    let (pairs, _) = digits.as_chunks::<2>();
    match pairs.iter().map(byte_of).collect(alloc) {
        Ok(bytes) => Ok(bytes),
        Err(_) => Err(NoMemory),
    }
}

/// Doubles bytes while a block has room for them and they are wanted so often. Answers how often they stand there.
#[tactic(auto, using(crate::proofs::PayloadLaws::repeated_once))]
fn double_to_block(bytes: &mut Vec<u8>, count: u64) -> Result<u64, NoMemory>
    requires { 0 < count }
    ensures bytes { IfOk result (λ n. bytes.new.items ≡ repeated n bytes.old.items) }
    ensures some { IfOk result (λ n. 0 < n) }
    ensures few { IfOk result (λ n. n ≤ count) }
{
    let mut times = 1u64;
    'doublings: while bytes.len() <= BLOCK / 2 && times <= count / 2 {
        let Ok(()) = bytes.extend_from_within(..) else {
            return Err(NoMemory);
        };
        times *= 2;
    }
    Ok(times)
}

/// Adds bytes so many times.
fn push_copies(to: &mut Bytes, count: u64, bytes: &[u8]) -> Result<(), NoMemory>
    ensures { OnOk result (to.new ≡ to.old ++ repeated count bytes.now) }
{
    'copies: for _ in 0..count {
        to.extend(bytes)?;
    }
    Ok(())
}

/// No bytes, with room for so many.
fn no_bytes(alloc: Global, room: usize) -> Result<Bytes, NoMemory>
    ensures { IfOk result (λ b. b ≡ []) }
{
    match Vec::with_capacity(alloc, room) {
        Ok(items) => Ok(Bytes::from_vec(items)),
        Err(_) => Err(NoMemory),
    }
}

/// The bytes of digits, so many times. They are decoded once and doubled up to a block, which is copied to where room for all of them is taken.
#[tactic(auto, using(crate::proofs::PayloadLaws::repeated_nothing))]
fn repeated(alloc: Global, count: u64, digits: &[u8]) -> Result<Bytes, NoMemory>
    requires digits { are_byte_digits digits.now ≡ true }
    requires few { count * (length digits.now / 2) ≤ most_line_payload }
    ensures { IfOk result (λ b. b ≡ repeated count (hex_bytes digits.now)) }
{
    if count == 0 || digits.is_empty() {
        return Ok(Bytes::new(alloc));
    }
    let mut block = decoded(alloc, digits)?;
    let times = double_to_block(&mut block, count)?;
    if times == count {
        return Ok(Bytes::from_vec(block));
    }
    let size = digits.len() / 2;
    let mut bytes = no_bytes(alloc, count as usize * size)?;
    push_copies(&mut bytes, count / times, &block)?;
    let (rest, _) = block.split_at((count % times) as usize * size);
    bytes.extend(rest)?;
    Ok(bytes)
}

impl<'a> PayloadWord<'a> {
    pub fn null() -> PayloadWord<'a>
        ensures { result ≡ None }
    {
        PayloadWord {
            count: 0,
            digits: None,
        }
    }

    /// How many bytes it has.
    pub fn size(&self) -> u128
        ensures { result ≡ payload_size self.now }
    {
        match self.digits {
            Some(digits) => self.count as u128 * (digits.len() / 2) as u128,
            None => 0,
        }
    }

    /// The same in memory.
    pub fn into_payload(self, alloc: Global) -> Result<Option<Payload>, NoMemory>
        requires { payload_size self ≤ most_line_payload }
        ensures { IfOk result (λ p. p ≡ self.entry) }
    {
        match self.digits {
            Some(digits) => {
                let bytes = repeated(alloc, self.count, digits)?;
                Ok(Some(Payload::new(alloc, bytes)?))
            }
            None => Ok(None),
        }
    }
}
