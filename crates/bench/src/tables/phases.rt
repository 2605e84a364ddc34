//! What is done to tables, and what the clock is kept on.
ghost use Rattle.std.specs.Prelude.{◌<◌};

use anyhow::{Result, ensure};
use std::alloc::Global;
use std::rt::Clock;
use std::time::{Duration, Instant};

#[derive(Clone, Copy, Drop)]
pub enum Phase {
    Generate,
    LookUp,
    LowestAgain,
    Edges,
    Free,
    Make,
    Find,
    RemoveInOrder,
    RemoveBackwards,
    Take,
    Create,
    Flush,
}

/// A table to which something is done with so many names, handles or fences.
pub trait Table: Sized {
    fn empty(alloc: Global) -> Self;

    /// Does what goes before, and answers whether that was done.
    fn prepare(&mut self, phase: Phase, n: u32) -> bool;

    /// Does what is measured, and answers whether that was done.
    fn work(&mut self, phase: Phase, n: u32) -> bool;
}

/// What takes memory makes so many at each size, in tables of that size that are all kept until the clock stops: so each
/// size writes to as much memory for the first time, which takes about as long as making the handles in it. To take a handle
/// costs little more than to read it, so that each size reads as many of as much memory too.
const IN_ALL: u32 = 100_000;

/// How many tables of a size are worked on.
fn tables_of(phase: Phase, n: u32) -> u32
    ensures { 0 < result }
{
    match phase {
        Phase::Generate | Phase::Make | Phase::Take | Phase::Create => {
            (IN_ALL / n.max(1)).max(1)
        }
        _ => 1,
    }
}

// What the work on one of some tables takes, where it is done on each.
fn time_each<R: Clock, T: Table>(
    rt: &R,
    tables: &mut Vec<T>,
    phase: Phase,
    n: u32,
) -> Result<Duration> {
    let mut done = true;
    let start = Instant::now(rt)?;
    'tables: for table in tables.iter_mut() {
        done = table.work(phase, n) && done;
    }
    let took = start.elapsed(rt)?;
    ensure!(done, "something wasn't done");
    Ok(took / tables_of(phase, n))
}

/// What the work on a table takes.
pub fn time<R: Clock + AllocGlobal, T: Table + Drop>(
    rt: &R,
    phase: Phase,
    n: u32,
) -> Result<Duration> {
    let mut tables: Vec<T> = Vec::new(rt.alloc());
    'tables: for _ in 0..tables_of(phase, n) {
        let mut table = T::empty(rt.alloc());
        ensure!(table.prepare(phase, n), "no memory for a table");
        tables.push(table)?;
    }
    time_each(rt, &mut tables, phase, n)
}
