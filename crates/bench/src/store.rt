//! Frees nodes of a counted store by one release, and makes nodes one after another.

ghost use Rattle.std.specs.Prelude.{◌≡◌, ◌<◌};
ghost use Rattle.ref_store.specs.Kept.{AllIn};

mod branches;
mod shapes;

use crate::extents::Extent;
use crate::memory::{RESIDENT, kilobytes};
use anyhow::{Result, bail};
use branches::Branch;
use ref_store::{Steps, Store};
use shapes::{CHAINS, FAN, Shape, add, build};
use std::alloc::Global;
use std::marker::Brand;
use std::rt::{Clock, Files};
use std::sync::ledger::{Blank, Ledger};
use std::time::{Duration, Instant};

/// How many nodes are made one after another.
const PASSING: u32 = 10_000_000;

// Builds nodes in an empty store, frees them, and answers how long the freeing took.
fn free_in<R: Clock + AllocGlobal, L: Ledger>(
    rt: &R,
    store: &mut Store<Branch>,
    steps: &mut Steps<L>,
    shape: Shape,
    nodes: u32,
) -> Result<Took>
    requires { AllIn store.old.nodes }
{
    let root = build(rt.alloc(), store, shape, nodes)?;
    if store.outside(root) == 0 {
        bail!("nothing holds the root");
    }
    let start = Instant::now(rt)?;
    store.release(root, steps);
    Ok(Took {
        time: start.elapsed(rt)?,
        first: 0,
        last: 0,
    })
}

// Makes a node and lets it go.
fn pass<L: Ledger>(
    alloc: Global,
    store: &mut Store<Branch>,
    steps: &mut Steps<L>,
    next: &mut u64,
) -> Result<()>
    requires { AllIn store.old.nodes }
    ensures { AllIn store.new.nodes }
{
    let id = add(store, next, 0, Vec::new(alloc))?;
    if store.get(id).is_none() || store.outside(id) != 0 {
        bail!("the node isn't stored");
    }
    store.hold(id);
    if store.outside(id) == 0 {
        bail!("nothing holds the node");
    }
    store.release(id, steps);
    Ok(())
}

/// What is done in an empty store.
#[derive(Clone, Copy, Drop)]
enum Job {
    /// So many nodes of a shape are freed.
    Free(Shape, u32),
    /// Nodes are made one after another.
    Pass,
}

/// How long a job took, and where nodes pass the memory after the first thousand and at the end.
#[derive(Clone, Copy, Drop)]
struct Took {
    time: Duration,
    first: u64,
    last: u64,
}

fn make_and_drop<R: Clock + Files + AllocGlobal, L: Ledger>(
    rt: &R,
    store: &mut Store<Branch>,
    steps: &mut Steps<L>,
) -> Result<Took>
    requires { AllIn store.old.nodes }
{
    let mut next = 0;
    let mut first = 0;
    let start = Instant::now(rt)?;
    'nodes: for turn in 0..PASSING {
        if turn == 1_000 {
            first = kilobytes(rt, RESIDENT)?;
        }
        pass(rt.alloc(), store, steps, &mut next)?;
    }
    let time = start.elapsed(rt)?;
    let last = kilobytes(rt, RESIDENT)?;
    Ok(Took { time, first, last })
}

fn done_by<R: Clock + Files + AllocGlobal, L: Ledger>(
    rt: &R,
    job: Job,
    blank: Blank,
) -> Result<Took>
    requires name { blank.name ≡ L.name }
    requires parts { blank.parts ≡ L.parts }
    requires some { 0 < blank.parts }
{
    let mut steps: Steps<L> = Steps::open(blank);
    let mut store = Store::new(rt.alloc());
    match job {
        Job::Free(shape, nodes) => free_in(rt, &mut store, &mut steps, shape, nodes),
        Job::Pass => make_and_drop(rt, &mut store, &mut steps),
    }
}

fn done<R: Clock + Files + AllocGlobal>(rt: &R, job: Job) -> Result<Took> {
    done_by::<_, Brand>(rt, job, Blank::new(1))
}

// The nanoseconds a node in the fastest of five runs.
fn least<R: Clock + Files + AllocGlobal>(rt: &R, shape: Shape, nodes: u32) -> Result<u128> {
    let mut least = u128::MAX;
    'runs: for _ in 0..5 {
        let took = done(rt, Job::Free(shape, nodes))?;
        least = least.min(took.time.as_nanos());
    }
    Ok(least / u128::from(nodes.max(1)))
}

fn free_little<R: Clock + Files + Print + AllocGlobal>(rt: &R, shape: Shape) -> Result<()> {
    done(rt, Job::Free(shape, 1_000))?;
    println!(rt; "{} 1000: freed", shape.name)?;
    Ok(())
}

fn free_all<R: Clock + Files + Print + AllocGlobal>(rt: &R, shape: Shape) -> Result<()> {
    for nodes in [1_000, 10_000, 100_000] {
        let each = least(rt, shape, nodes)?;
        println!(rt; "{} {nodes}: {each} ns a node", shape.name)?;
    }
    Ok(())
}

fn tell_passing<R: Clock + Files + Print + AllocGlobal>(rt: &R) -> Result<()> {
    let Took { time, first, last } = done(rt, Job::Pass)?;
    let each = time.as_nanos() / u128::from(PASSING);
    println!(rt;
        "10,000,000 one after another: {each} ns a node\nmemory: {first} kB after the first thousand, {last} kB at the end"
    )?;
    Ok(())
}

/// Frees 1,000 nodes of each shape and says so. Or frees 1,000, 10,000 and 100,000, and prints the nanoseconds a node in the
/// fastest of five runs; then it makes ten million nodes and lets each go before the next, and prints how long each took,
/// and the memory after the first thousand and at the end.
pub fn run<R: Clock + Files + Print + AllocGlobal>(rt: &R, extent: Extent) -> Result<()> {
    for shape in [CHAINS, FAN] {
        match extent {
            Extent::Little => free_little(rt, shape)?,
            Extent::Full => free_all(rt, shape)?,
        }
    }
    match extent {
        Extent::Little => Ok(()),
        Extent::Full => tell_passing(rt),
    }
}
