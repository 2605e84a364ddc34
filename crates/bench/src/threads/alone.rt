//! Calls of one driver that nobody shares.
ghost use Rattle.std.specs.Prelude.{◌≡◌, ◌<◌};

use crate::calls::{PIXEL_BYTES, lines_of};
use crate::threads::sorts::{Sort, before};
use anyhow::{Result, bail};
use driver_core::Driver;
use egl_calls::NoMemory;
use std::alloc::Global;
use std::rt::Clock;
use std::time::{Duration, Instant};
use trace_reader::Trace;

// A call of a trace, made anew.
fn play(alloc: Global, driver: &mut Driver, lines: &Trace, place: u64) -> Result<(), NoMemory>
    requires { 0 < driver.old.made }
    ensures { driver.new.made ≡ driver.old.made }
{
    if let Some(line) = lines.line(place) {
        driver.play(alloc, 0, &line.call.to_call(alloc)?)?;
    }
    Ok(())
}

// So many calls, the lines of a trace by turns; answers whether there was memory.
fn play_all(alloc: Global, driver: &mut Driver, lines: &Trace, count: u64) -> bool
    requires { 0 < driver.old.made }
    ensures { driver.new.made ≡ driver.old.made }
{
    let of = (lines.lines().len() as u64).max(1);
    'calls: for place in 0..count {
        if play(alloc, driver, lines, place % of).is_err() {
            return false;
        }
    }
    true
}

// How long so many calls of a driver take.
fn time<R: Clock + AllocGlobal>(
    rt: &R,
    driver: &mut Driver,
    steps: u64,
    before: &Trace,
    calls: &Trace,
    count: u32,
) -> Result<Duration>
    requires { 0 < driver.old.made }
{
    let prepared = play_all(rt.alloc(), driver, before, steps);
    let start = Instant::now(rt)?;
    let played = play_all(rt.alloc(), driver, calls, u64::from(count));
    let took = start.elapsed(rt)?;
    if !prepared || !played {
        bail!("no memory for a call");
    }
    Ok(took)
}

/// How long so many calls take.
pub fn run<R: Clock + AllocGlobal>(rt: &R, sort: &Sort, count: u32) -> Result<Duration> {
    let before = before(rt.alloc(), sort, 0)?;
    let calls = lines_of(rt.alloc(), sort.calls)?;
    match Driver::new(rt.alloc(), &[], PIXEL_BYTES) {
        Ok(mut driver) => time(rt, &mut driver, sort.before, &before, &calls, count),
        Err(_) => bail!("no memory for a driver"),
    }
}
