//! The handles of one display, by their numbers.
ghost use Rattle.std.specs.Prelude.{◌≡◌, ℕ, ◌+◌, ◌≤◌, ◌==◌, if◌then◌else◌, IsSome, IsTrue, IfErr, IfSome, IfNone, OnOk, OnErr, None, Some};
ghost use Rattle.indexmap.specs.IndexMap.{keys};
ghost use Rattle.display_table.specs.Handles.{RiseFrom};
ghost use Rattle.display_table.specs.Tables.{at_number, handles_in, handle_named, ArePlaces, IsLast, NumbersRise};

use crate::HANDLES_END;
use crate::errors::HandleError;
use crate::handles::{Handle, HandleKind, place_of};
use indexmap::IndexMap;
use keyed_hash::KeyedState;

/// A table that no handle is left in keeps room for as many, and gives back more.
const KEPT_PLACES: usize = 64;

/// The places of handles by their numbers, in the order of making. A destroyed handle leaves its place empty. At least half
/// of the places have handles whenever a new one takes memory.
pub(crate) type Table = IndexMap<u32, Option<Handle>, KeyedState>;

fn handle_at(table: &Table, number: u64) -> Option<Handle>
    requires { NumbersRise 3 (keys table.now) HANDLES_END }
    ensures { result ≡ at_number table.now.entries number }
{
    let Ok(number) = u32::try_from(number) else {
        return None;
    };
    table.get(&number).copied().flatten()
}

pub(crate) fn handle_in(table: &Table, number: u64, kind: HandleKind) -> Option<Handle>
    requires { NumbersRise 3 (keys table.now) HANDLES_END }
    ensures { result ≡ handle_named kind (at_number table.now.entries number) }
{
    match handle_at(table, number) {
        Some(handle) => {
            if place_of(handle.kind) == place_of(kind) {
                Some(handle)
            } else {
                None
            }
        }
        None => None,
    }
}

/// Adds a handle whose number is above those of all that were added.
pub(crate) fn add(table: &mut Table, handle: Handle) -> Result<(), HandleError>
    requires { NumbersRise 3 (keys table.old) handle.number }
    ensures added { OnOk result ((n : ℕ) → at_number table.new.entries n ≡ (if n == handle.number then Some handle else at_number table.old.entries n)) }
    ensures same { OnErr result ((n : ℕ) → at_number table.new.entries n ≡ at_number table.old.entries n) }
    ensures cause { IfErr result (λ e. e ≡ HandleError.NoMemory) }
    ensures rise { OnOk result (NumbersRise 3 (keys table.new) (handle.number + 1)) }
    ensures same_rise { OnErr result (NumbersRise 3 (keys table.new) handle.number) }
{
    make_room(table);
    match table.insert(handle.number, Some(handle)) {
        Ok(_) => Ok(()),
        Err(_) => Err(HandleError::NoMemory),
    }
}

// Where there is no room and at most half of the places have handles, the empty ones go. So at least as many handles are
// made before the next time as it passes places.
fn make_room(table: &mut Table)
    ensures same { (n : ℕ) → at_number table.new.entries n ≡ at_number table.old.entries n }
    ensures rise { (end : ℕ) → NumbersRise 3 (keys table.old) end → NumbersRise 3 (keys table.new) end }
{
    if table.len() < table.capacity() {
        return;
    }
    let handles = table.values().filter(|place| place.is_some()).count();
    if handles <= table.len() / 2 {
        table.retain(|_number, place| place.is_some());
    }
}

/// Whether there was a valid handle of this number, which then is no longer valid.
pub(crate) fn take(table: &mut Table, number: u64) -> bool
    requires { NumbersRise 3 (keys table.old) HANDLES_END }
    ensures found { IsTrue result → IsSome (at_number table.old.entries number) }
    ensures removed { (n : ℕ) → at_number table.new.entries n ≡ (if n == number then None else at_number table.old.entries n) }
    ensures rise { (end : ℕ) → NumbersRise 3 (keys table.old) end → NumbersRise 3 (keys table.new) end }
{
    let Ok(number) = u32::try_from(number) else {
        return false;
    };
    let was_valid = vacate(table, number);
    drop_end(table);
    was_valid
}

// Empties the place of a number, and answers whether it had a handle.
fn vacate(table: &mut Table, number: u32) -> bool
    ensures found { IsTrue result → IsSome (at_number table.old.entries number) }
    ensures removed { (n : ℕ) → at_number table.new.entries n ≡ (if n == number then None else at_number table.old.entries n) }
    ensures keys { keys table.new ≡ keys table.old }
{
    match table.get_mut(&number) {
        Some(place) => place.take().is_some(),
        None => false,
    }
}

// The empty places behind the last handle go. Each was filled once, so they cost no more than their making did.
fn drop_end(table: &mut Table)
    ensures same { (n : ℕ) → at_number table.new.entries n ≡ at_number table.old.entries n }
    ensures rise { (end : ℕ) → NumbersRise 3 (keys table.old) end → NumbersRise 3 (keys table.new) end }
{
    'places: while let Some((_number, place)) = table.last() {
        if place.is_some() {
            break;
        }
        let _ = table.pop();
    }
    release(table);
}

// An empty table gives back what memory it has beyond a little. Clearing it makes its capacity that of its memory: what was
// taken out may still count until then.
fn release(table: &mut Table)
    ensures { table.new.entries ≡ table.old.entries }
{
    if !table.is_empty() {
        return;
    }
    table.clear();
    if table.capacity() > KEPT_PLACES {
        let alloc = *table.allocator();
        let state = *table.hasher();
        *table = IndexMap::with_hasher(alloc, state);
    }
}

/// Takes the handle that was made last.
pub(crate) fn take_last(table: &mut Table) -> Option<Handle>
    requires { NumbersRise 3 (keys table.old) HANDLES_END }
    ensures last { IfSome result (IsLast (at_number table.old.entries) (at_number table.new.entries)) }
    ensures none { IfNone result ((n : ℕ) → (at_number table.old.entries n ≡ None) × (at_number table.new.entries n ≡ None)) }
    ensures rise { (end : ℕ) → NumbersRise 3 (keys table.old) end → NumbersRise 3 (keys table.new) end }
{
    'places: while let Some((_number, place)) = table.pop() {
        if let Some(handle) = place {
            return Some(handle);
        }
    }
    release(table);
    None
}

// Handles rise in the order of their making. There is nothing to run.
pub(crate) fn rising_in(_first: &Table, _second: &Table, _next: u32)
    requires { ArePlaces _first.now.entries _second.now.entries _next }
    ensures rise { RiseFrom 3 (handles_in (at_number _first.now.entries) (at_number _second.now.entries) _next) _next }
    ensures end { _next ≤ HANDLES_END }
{}
