//! What events touch, found by the thing: which of the events behind one may race with it.
ghost use Rattle.std.specs.Prelude.{◌≡◌, ◌<◌, ◌++◌, map, length, IfOk, OnOk};
ghost use Rattle.std.specs.Int.RustNames.{unsigned_abs};
ghost use Rattle.std.specs.List.{filter};
ghost use Rattle.std.specs.List.Sorted.{IsPermutation, IsNonDecreasing};
ghost use Rattle.race_report.specs.Accesses.{access, writes_from, touches_from, AreByKeys, AreAccesses, has_key, places_behind, users, AreSeconds};

use crate::events::Event;
use egl_calls::{List, NoMemory};
use std::alloc::Global;

/// A use of a thing by the event at a place. The key finds the thing: one thing has one key, though an object and what a window shows may share one.
#[derive(Clone, Copy, Drop)]
pub struct Access {
    pub key: u64,
    pub place: u64,
}

/// All accesses of a run and its writes, each list by rising keys.
#[derive(Drop)]
pub struct Accesses {
    pub touches: List<Access>,
    pub writes: List<Access>,
}

/// Adds the accesses of an event to things.
fn add_things(accesses: &mut List<Access>, place: u64, things: &[i64]) -> Result<(), NoMemory>
    ensures { OnOk result (accesses.new ≡ accesses.old ++ map (access place) things.now) }
{
    'each: for thing in things {
        accesses.push(Access {
            key: thing.unsigned_abs(),
            place,
        })?;
    }
    Ok(())
}

/// The writes of all events.
#[tactic(auto, unfolding(crate::specs::Accesses::writes_from))]
fn writes_of(alloc: Global, events: &[Event]) -> Result<List<Access>, NoMemory>
    ensures { IfOk result (λ l. l ≡ writes_from 0 events.now) }
{
    let mut accesses = List::new(alloc);
    let mut place: u64 = 0;
    'each: for event in events {
        add_things(&mut accesses, place, event.writes.as_slice())?;
        place += 1;
    }
    Ok(accesses)
}

/// The reads and the writes of all events.
#[tactic(auto, unfolding(crate::specs::Accesses::touches_from))]
fn touches_of(alloc: Global, events: &[Event]) -> Result<List<Access>, NoMemory>
    ensures { IfOk result (λ l. l ≡ touches_from 0 events.now) }
{
    let mut accesses = List::new(alloc);
    let mut place: u64 = 0;
    'each: for event in events {
        add_things(&mut accesses, place, event.reads.as_slice())?;
        add_things(&mut accesses, place, event.writes.as_slice())?;
        place += 1;
    }
    Ok(accesses)
}

/// The same accesses by rising keys.
fn by_keys(accesses: List<Access>) -> Result<List<Access>, NoMemory>
    ensures same { IfOk result (λ l. IsPermutation accesses l) }
    ensures rising { IfOk result (λ l. AreByKeys l) }
{
    let mut sorted = accesses.into_vec();
    match sorted.sort_by_key(|access| access.key) {
        Ok(()) => Ok(List::from_vec(sorted)),
        Err(_) => Err(NoMemory),
    }
}

/// What the events of a run touch.
pub fn accesses_of(alloc: Global, events: &[Event]) -> Result<Accesses, NoMemory>
    ensures { IfOk result (λ index. AreAccesses events.now index) }
{
    Ok(Accesses {
        touches: by_keys(touches_of(alloc, events)?)?,
        writes: by_keys(writes_of(alloc, events)?)?,
    })
}

/// The accesses with a key.
fn with_key(accesses: &[Access], key: u64) -> &[Access]
    requires { AreByKeys accesses.now }
    ensures { result.now ≡ filter (has_key key) accesses.now }
{
    let from = accesses.partition_point(|access| access.key < key);
    let (_, rest) = accesses.split_at(from);
    let to = rest.partition_point(|access| access.key <= key);
    let (found, _) = rest.split_at(to);
    found
}

/// Adds the places behind a first one at which accesses are.
#[tactic(auto, unfolding(crate::specs::Accesses::places_behind))]
fn add_places(seconds: &mut List<u64>, first: u64, accesses: &[Access]) -> Result<(), NoMemory>
    ensures { OnOk result (seconds.new ≡ seconds.old ++ places_behind first accesses.now) }
{
    'each: for access in accesses {
        if first < access.place {
            seconds.push(access.place)?;
        }
    }
    Ok(())
}

/// Adds those of the accesses that have the keys of things.
#[tactic(auto, unfolding(crate::specs::Accesses::users))]
fn add_users(
    seconds: &mut List<u64>,
    first: u64,
    accesses: &[Access],
    things: &[i64],
) -> Result<(), NoMemory>
    requires { AreByKeys accesses.now }
    ensures { OnOk result (seconds.new ≡ seconds.old ++ users first accesses.now things.now) }
{
    'each: for thing in things {
        add_places(seconds, first, with_key(accesses, thing.unsigned_abs()))?;
    }
    Ok(())
}

fn sorted(places: List<u64>) -> List<u64>
    ensures same { IsPermutation places result }
    ensures rising { IsNonDecreasing result }
{
    let mut sorted = places.into_vec();
    sorted.sort_unstable();
    List::from_vec(sorted)
}

/// The places behind a first one at which events touch what its event touches, one of them by a write. A place may stand there more than once, and so may one whose event touches another thing with the same key.
pub fn seconds_of(
    alloc: Global,
    events: &[Event],
    index: &Accesses,
    first: usize,
) -> Result<List<u64>, NoMemory>
    requires within { first < length events.now }
    requires index { AreAccesses events.now index.now }
    ensures { IfOk result (λ l. AreSeconds events.now first l) }
{
    let event = &events[first];
    let place = first as u64;
    let mut seconds = List::new(alloc);
    add_users(
        &mut seconds,
        place,
        index.touches.as_slice(),
        event.writes.as_slice(),
    )?;
    add_users(
        &mut seconds,
        place,
        index.writes.as_slice(),
        event.reads.as_slice(),
    )?;
    Ok(sorted(seconds))
}
