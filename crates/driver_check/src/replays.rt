//! A journal, played again by a driver of one thread.
ghost use Rattle.std.specs.Prelude.{◌≤◌};

use driver_core::Driver;
use egl_calls::{Entry, Journal, Reply};
use std::alloc::Global;
use std::process::Abort;

/// Whether two replies are equal.
pub fn is_same(one: &Reply, other: &Reply) -> bool {
    one.outcome == other.outcome
        && one.value == other.value
        && one.list.as_slice() == other.list.as_slice()
        && one.bytes.as_slice() == other.bytes.as_slice()
}

// Whether a driver answers a call as an entry says.
fn is_answered<R: Abort>(rt: &R, alloc: Global, driver: &mut Driver, entry: &Entry) -> bool {
    if entry.thread >= driver.threads() {
        return false;
    }
    match driver.play(alloc, entry.thread, &entry.call) {
        Ok(reply) => is_same(&reply, &entry.reply),
        Err(_) => panic!(rt; "memory"),
    }
}

// Whether a driver answers each call of a journal as the journal says.
fn answers_all<R: Abort>(rt: &R, alloc: Global, driver: &mut Driver, journal: &Journal) -> bool {
    'playing: for entry in journal.as_slice() {
        if !is_answered(rt, alloc, driver, entry) {
            return false;
        }
    }
    true
}

/// Whether a fresh driver of so many threads answers each call of a journal as the journal says.
pub fn is_replayed<R: Abort>(
    rt: &R,
    alloc: Global,
    journal: &Journal,
    threads: u32,
    video: u64,
) -> bool
    requires { video ≤ 1073741824 }
{
    let Ok(mut driver) = Driver::new(alloc, &[], video) else {
        panic!(rt; "memory");
    };
    'adding: for _ in 1..threads {
        if driver.threads() == 65536 || driver.add_thread().is_err() {
            panic!(rt; "memory");
        }
    }
    answers_all(rt, alloc, &mut driver, journal)
}
