//! The calls of a run that touch one thing though nothing orders them.
ghost use Rattle.std.specs.Prelude.{◌≡◌, ◌<◌, All, OnOk};

use crate::object_words::{Inventory, put_object};
use crate::pages::{Ink, Page};
use crate::source_lines::{put_bar, put_line};
use crate::telling::Teller;
use driver_core::{Driver, Run, Touches};
use egl_calls::{Entry, NoMemory};
use race_report::{Pair, report};
use std::alloc::Global;
use trace_reader::Trace;
use trace_session::driver_of;

/// Of traces with more body lines no races are told.
const MOST_LINES: usize = 2_000;

/// How many races are told, at most. The others are counted.
const MOST_TOLD: usize = 20;

/// Plays an entry again, and notes what it touches.
fn push_touched(
    alloc: Global,
    touched: &mut Vec<Touches>,
    driver: &mut Driver,
    entry: &Entry,
) -> Result<(), NoMemory>
    requires { entry.now.thread < driver.old.made }
    ensures { OnOk result (driver.new.made ≡ driver.old.made) }
{
    let touches = driver.touches(alloc, entry.thread, &entry.call)?;
    driver.play(alloc, entry.thread, &entry.call)?;
    match touched.push(touches) {
        Ok(()) => Ok(()),
        Err(_) => Err(NoMemory),
    }
}

/// What each of some entries touches, which a driver plays again.
fn touched_by(
    alloc: Global,
    driver: &mut Driver,
    entries: &[Entry],
) -> Result<Vec<Touches>, NoMemory>
    requires { All (λ e. e.thread < driver.old.made) entries.now }
{
    let mut touched = Vec::new(alloc);
    'each: for entry in entries {
        push_touched(alloc, &mut touched, driver, entry)?;
    }
    Ok(touched)
}

/// Whether an entry writes a thing.
#[derive(Clone, Copy, Debug, PartialEq, Eq, Drop)]
pub enum Access {
    Reads,
    Writes,
}

/// A thing that two entries touch, and what each does to it.
#[derive(Clone, Copy, Debug, PartialEq, Eq, Drop)]
pub struct SharedThing {
    pub thing: i64,
    pub first: Access,
    pub second: Access,
}

/// Two entries that race, and what both touch.
#[derive(Clone, Copy, Drop)]
pub struct Race<'a> {
    pub first: &'a Entry,
    pub second: &'a Entry,
    pub shared: Option<SharedThing>,
}

/// The first number that two lists share.
fn common(some: &[i64], others: &[i64]) -> Option<i64> {
    'each: for number in some {
        if others.contains(number) {
            return Some(*number);
        }
    }
    None
}

/// What two entries touch, one of them by a write.
fn shared(first: &Touches, second: &Touches) -> Option<SharedThing> {
    let writes = first.writes.as_slice();
    let others = second.writes.as_slice();
    if let Some(thing) = common(writes, others) {
        return Some(SharedThing {
            thing,
            first: Access::Writes,
            second: Access::Writes,
        });
    }
    if let Some(thing) = common(writes, second.reads.as_slice()) {
        return Some(SharedThing {
            thing,
            first: Access::Writes,
            second: Access::Reads,
        });
    }
    let thing = common(first.reads.as_slice(), others)?;
    Some(SharedThing {
        thing,
        first: Access::Reads,
        second: Access::Writes,
    })
}

/// What both entries do.
fn shared_words(found: SharedThing) -> &'static str {
    match (found.first, found.second) {
        (Access::Writes, Access::Writes) => "both write ",
        (Access::Writes, Access::Reads) => "the first writes and the second reads ",
        (Access::Reads, _) => "the first reads and the second writes ",
    }
}

/// An object, also one that is gone, or the front of a window.
fn put_thing(page: &mut Page, inventory: &Inventory, thing: i64) {
    if thing < 0 {
        page.put("the front of window ");
        return page.put_decimal(thing.unsigned_abs());
    }
    let number = thing as u64;
    page.put("the ");
    if inventory.driver.object(number).is_some() {
        return put_object(page, inventory, number);
    }
    page.put("object");
    if let Some(birth) = inventory.births.get(number as usize) {
        page.put(" of line ");
        page.put_decimal(birth.line);
    }
}

/// What two entries touch, and what would order them.
fn put_shared(
    page: &mut Page,
    inventory: &Inventory,
    first: &Entry,
    second: &Entry,
    found: SharedThing,
) {
    put_bar(page);
    page.put("  ");
    page.put(shared_words(found));
    put_thing(page, inventory, found.thing);
    page.end_line();
    put_bar(page);
    page.put("  nothing orders them: thread ");
    page.put_decimal(u64::from(second.thread));
    page.put(" would have to await a post behind line ");
    page.put_decimal(first.mark);
    page.put(", or wait for a sync made there");
    page.end_line();
}

/// How many races there are.
pub fn put_race_count(page: &mut Page, count: u64) {
    page.put_in(Ink::Fault, "races: ");
    page.put_decimal(count);
    page.end_line();
}

/// The lines of a race, and what both touch.
pub fn put_race(page: &mut Page, inventory: &Inventory, race: &Race<'_>) {
    put_line(page, inventory.lines, race.first.mark);
    put_line(page, inventory.lines, race.second.mark);
    if let Some(found) = race.shared {
        put_shared(page, inventory, race.first, race.second, found);
    }
}

/// The race of two entries.
fn race_of<'a>(entries: &'a [Entry], touched: &[Touches], pair: Pair) -> Option<Race<'a>> {
    let (at, behind) = (pair.first as usize, pair.second as usize);
    let found = shared(touched.get(at)?, touched.get(behind)?);
    Some(Race {
        first: entries.get(at)?,
        second: entries.get(behind)?,
        shared: found,
    })
}

/// So many races, and those of them that are told.
fn put_pairs<T: Teller>(
    teller: &mut T,
    inventory: &Inventory,
    entries: &[Entry],
    touched: &[Touches],
    pairs: &[Pair],
) {
    teller.race_count(pairs.len() as u64);
    'each: for (k, pair) in pairs.iter().enumerate() {
        if k >= MOST_TOLD {
            return teller.more_races();
        }
        if let Some(race) = race_of(entries, touched, *pair) {
            teller.race(inventory, &race);
        }
    }
}

/// The races of a run, where it has any: the lines, what both touch, and what would order them.
pub fn put_races<T: Teller>(
    alloc: Global,
    teller: &mut T,
    inventory: &Inventory,
    trace: &Trace,
    run: &Run,
) -> Result<(), NoMemory>
    requires { All (λ e. e.thread < trace.now.threads) run.now.journal.entries }
{
    if trace.threads() < 2 || trace.lines().len() > MOST_LINES {
        return Ok(());
    }
    let pairs = report(alloc, trace, run)?;
    let pairs = pairs.as_slice();
    if pairs.is_empty() {
        return Ok(());
    }
    let entries = run.journal.as_slice();
    let mut driver = driver_of(alloc, trace)?;
    let touched = touched_by(alloc, &mut driver, entries)?;
    put_pairs(teller, inventory, entries, &touched, pairs);
    Ok(())
}
