//! Makes calls by threads that share a driver, one, two, four and sixteen with a token each, and by one driver that nobody shares.
//! Draws are made from one texture to surfaces of the threads' own, once the turns are over. Uploads go to textures of their own.
//! Clears and colours are then made by the threads' own parts, where they take no turn.

mod alone;
mod sorts;
mod together;

use crate::extents::Extent;
use anyhow::Result;
use sorts::{SORTS, Sort, Way};
use std::rt::Clock;
use std::sync::Wait;
use std::thread::Threads;
use std::time::Duration;
pub use together::closed;

/// How many threads share a driver; 0 is a driver that nobody shares.
const TOKENS: [u16; 5] = [0, 1, 2, 4, 16];

/// And how many where their own parts answer.
const APART: [u16; 3] = [1, 2, 4];

/// How many calls are timed where their own parts answer.
const TIMED_APART: u32 = 1_600_000;

// How long the fastest of so many runs takes, of so many calls by each thread.
fn fastest<R: Clock + AllocGlobal + Threads + Wait + Sync>(
    rt: &R,
    sort: &Sort,
    way: Way,
    threads: u16,
    count: u32,
    runs: u32,
) -> Result<Duration> {
    let mut least = Duration::MAX;
    'runs: for _ in 0..runs {
        let took = if threads == 0 {
            alone::run(rt, sort, count)
        } else {
            together::run(rt, threads, sort, way, count)
        };
        least = least.min(took?);
    }
    Ok(least)
}

fn report<R: Clock + Print + AllocGlobal + Threads + Wait + Sync>(
    rt: &R,
    extent: Extent,
    sort: &Sort,
    way: Way,
    threads: u16,
) -> Result<()> {
    let (by, calls) = match way {
        Way::Turn => ("", sort.timed),
        Way::Part => (" by their own parts", TIMED_APART),
    };
    let name = sort.name;
    if extent == Extent::Little {
        fastest(rt, sort, way, threads, 100, 1)?;
        println!(rt; "{name}, {threads} tokens{by}: done")?;
        return Ok(());
    }
    let count = calls / u32::from(threads.max(1));
    let nanoseconds = fastest(rt, sort, way, threads, count, 3)?.as_nanos();
    let a_second = u128::from(calls) * 1_000_000_000 / nanoseconds.max(1);
    println!(rt; "{name}, {threads} tokens{by}: {a_second} calls a second")?;
    Ok(())
}

/// Makes 100 calls by each thread, and prints what was done. Or makes 100,000 in all, 16,000 of 256 by 256 pixels, or 1,600,000
/// by their own parts, and prints how many a second in the fastest of three runs.
pub fn run<R: Clock + Print + AllocGlobal + Threads + Wait + Sync>(
    rt: &R,
    extent: Extent,
) -> Result<()> {
    'sorts: for sort in &SORTS {
        'threads: for threads in TOKENS {
            report(rt, extent, sort, Way::Turn, threads)?;
        }
    }
    'own: for sort in &SORTS {
        if sort.is_local {
            'apart: for threads in APART {
                report(rt, extent, sort, Way::Part, threads)?;
            }
        }
    }
    Ok(())
}
