//! Makes, finds and frees names, handles and fences, and says how long each took.

mod fences;
mod handles;
mod names;
mod phases;

use anyhow::{Context, Result, ensure};
use display_table::Displays;
use fence_sync::Fences;
use phases::Phase;
use share_group::Group;
use std::rt::Clock;
use std::time::Duration;

/// What is done, its name, and how often. What takes memory runs once, as later runs would find some that was written to before.
static PHASES: [(Phase, &str, u32); 12] = [
    (Phase::Generate, "names generated", 1),
    (Phase::LookUp, "names looked up", 5),
    (
        Phase::LowestAgain,
        "lowest names freed and generated again",
        5,
    ),
    (Phase::Edges, "objects read by rising names", 5),
    (Phase::Free, "names freed", 5),
    (Phase::Make, "handles made", 1),
    (Phase::Find, "handles found", 5),
    (
        Phase::RemoveInOrder,
        "handles removed in the order of making",
        5,
    ),
    (
        Phase::RemoveBackwards,
        "handles removed in the other order",
        5,
    ),
    (Phase::Take, "handles of one display taken", 5),
    (Phase::Create, "fences made", 1),
    (Phase::Flush, "contexts with a fence each flushed", 5),
];

fn time<R: Clock + AllocGlobal>(rt: &R, phase: Phase, n: u32) -> Result<Duration> {
    match phase {
        Phase::Generate | Phase::LookUp | Phase::LowestAgain | Phase::Edges | Phase::Free => {
            phases::time::<R, Group>(rt, phase, n)
        }
        Phase::Create | Phase::Flush => phases::time::<R, Fences>(rt, phase, n),
        _ => phases::time::<R, Displays>(rt, phase, n),
    }
}

/// Does each thing with 1,000 and prints what was done.
pub fn run<R: Clock + Print + AllocGlobal>(rt: &R) -> Result<()> {
    for (phase, name, _) in &PHASES {
        time(rt, *phase, 1_000)?;
        println!(rt; "{name} 1000: done")?;
    }
    Ok(())
}

/// Does one thing, whose name is what `run` prints of it up to the number, at a size, and prints the nanoseconds that so
/// many took.
pub fn time_one<R: Clock + Print + AllocGlobal>(rt: &R, name: &str, size: &str) -> Result<()> {
    let n = size.parse::<u32>().context("a size is a number")?;
    let (phase, _, runs) = PHASES
        .iter()
        .find(|row| row.1 == name)
        .context(format_args!("nothing is called {name}"))?;
    let mut least = u128::MAX;
    'runs: for _ in 0..*runs {
        least = least.min(time(rt, *phase, n)?.as_nanos());
    }
    println!(rt; "{least}")?;
    Ok(())
}

/// Makes and removes 10,000,000 handles one after another, of which never more than one is there.
pub fn pass<R: AllocGlobal>(rt: &R) -> Result<()> {
    let mut displays = Displays::new(rt.alloc());
    let done = handles::one_at_a_time(&mut displays, 10_000_000);
    ensure!(done, "no handle was made");
    Ok(())
}
