//! The workers of a run, each with a token.
ghost use Rattle.std.specs.Prelude.{◌≡◌, ◌<◌, ◌+◌, ◌-◌, [], true, false, All, vec_len, vec_capacity};
ghost use Rattle.egl_model.specs.State.{opening};
ghost use Rattle.trace_session.specs.Chains.{AreChains};
ghost use Rattle.shared_driver.specs.Tokens.{IsOf, mine, most_of, opening_of, token_of};
ghost use Rattle.play_threads.specs.Plays.{IsReady, IsThrough, OwnersPlay};

use crate::gates::Gate;
use crate::starts::Start;
use crate::thread_work::work;
use shared_driver::{Shared, Thread};
use std::alloc::Global;
use std::sync::Wait;
use std::thread;
use std::thread::Threads;
use trace_reader::Trace;
use trace_session::Chains;

/// A token for a thread of the trace, and whether memory ran out in its work.
pub(crate) struct Worker {
    pub(crate) thread: Thread,
    pub(crate) ran_out: bool,
}

/// The token into which all others were joined, and whether memory ran out in the work of one.
pub(crate) struct Gathered {
    pub(crate) thread: Thread,
    pub(crate) ran_out: bool,
}

// Makes workers for all threads but the first, in the room that there is. False exactly where one can't be made.
fn hire<R: Wait>(
    rt: &R,
    shared: &Shared,
    first: &mut Thread,
    workers: &mut Vec<Worker>,
    trace: &Trace,
) -> bool
    requires owns { IsOf shared.now first.old }
    requires most { most_of shared.now ≡ trace.now.threads }
    requires mine { mine (token_of first.old) ≡ [] }
    requires ended { (token_of first.old).ended ≡ [] }
    requires tail { (token_of first.old).tail ≡ [] }
    requires workers { All (IsReady trace.now shared.now) workers.old.items }
    requires room { vec_len workers.old + trace.now.threads < vec_capacity workers.old }
    ensures owns { IsOf shared.now first.new }
    ensures number { (token_of first.new).number ≡ (token_of first.old).number }
    ensures mine { mine (token_of first.new) ≡ [] }
    ensures ended { (token_of first.new).ended ≡ [] }
    ensures tail { (token_of first.new).tail ≡ [] }
    ensures workers { All (IsReady trace.now shared.now) workers.new.items }
    ensures room { vec_len workers.new < vec_capacity workers.new }
    ensures all { result ≡ true → vec_len workers.new ≡ vec_len workers.old + (trace.now.threads - 1) }
    ensures some { result ≡ false → vec_len workers.new < vec_len workers.old + (trace.now.threads - 1) }
{
    'attaching: for _thread in 1..trace.threads() {
        let Ok(thread) = shared.attach(first, rt) else {
            return false;
        };
        workers.push_reserved(Worker {
            thread,
            ran_out: false,
        });
    }
    true
}

// The work of one worker, once all have begun.
fn run<R: Wait, G: Gate>(
    rt: &R,
    alloc: Global,
    trace: &Trace,
    chains: &Chains,
    gate: &G,
    shared: &Shared,
    start: &Start,
    workers: u64,
    worker: &mut Worker,
)
    requires ready { IsReady trace.now shared.now worker.old }
    requires chains { AreChains trace.now chains.now }
    requires opening { opening_of shared.now ≡ opening trace.now.windows trace.now.video }
    ensures { IsThrough trace.now shared.now worker.new }
{
    if start.count_in(rt, workers) && !worker.ran_out {
        let worked = work(shared, &mut worker.thread, rt, alloc, trace, chains, gate);
        worker.ran_out = worked.is_err();
    }
}

// All workers at once, in a thread each. Where one of them is missing, none begins.
fn run_all<R: Threads + Wait + Sync, G: Gate + Sync>(
    rt: &R,
    alloc: Global,
    trace: &Trace,
    chains: &Chains,
    gate: &G,
    shared: &Shared,
    workers: &mut Vec<Worker>,
    hired: bool,
)
    requires ready { All (IsReady trace.now shared.now) workers.old.items }
    requires chains { AreChains trace.now chains.now }
    requires opening { opening_of shared.now ≡ opening trace.now.windows trace.now.video }
    ensures through { All (IsThrough trace.now shared.now) workers.new.items }
    ensures long { vec_len workers.new ≡ vec_len workers.old }
{
    let count = workers.len();
    if !hired || count == 0 {
        return;
    }
    let start = Start::new();
    thread::for_each_mut(
        rt,
        workers.as_mut_slice(),
        count,
        &|_, w: &mut Worker|
            requires { IsReady trace.now shared.now w.now × AreChains trace.now chains.now × (opening_of shared.now ≡ opening trace.now.windows trace.now.video) }
            ensures { IsThrough trace.entry.now shared.entry.now w.exit.now }
        {
            run(
                rt,
                alloc,
                trace,
                chains,
                gate,
                shared,
                &start,
                count as u64,
                w,
            )
        },
    );
}

// Joins all tokens into the last.
fn gather<R: Wait>(
    rt: &R,
    shared: &Shared,
    last: Worker,
    mut workers: Vec<Worker>,
    trace: &Trace,
) -> Gathered
    requires last { IsThrough trace.now shared.now last }
    requires through { All (IsThrough trace.now shared.now) workers.items }
    ensures owns { IsOf shared.now result.thread }
    ensures play { result.ran_out ≡ false → OwnersPlay trace.now (token_of result.thread) }
{
    let Worker {
        mut thread,
        mut ran_out,
    } = last;
    'joining: while let Some(worker) = workers.pop() {
        let Worker {
            thread: other,
            ran_out: other_ran_out,
        } = worker;
        shared.join(&mut thread, rt, other);
        ran_out = ran_out || other_ran_out;
    }
    workers.destroy_empty();
    Gathered { thread, ran_out }
}

/// Plays a trace with a token for each of its threads, all at once, and joins them into one.
pub(crate) fn play_together<R: Threads + Wait + Sync, G: Gate + Sync>(
    rt: &R,
    alloc: Global,
    trace: &Trace,
    chains: &Chains,
    gate: &G,
    shared: &Shared,
    mut first: Thread,
) -> Gathered
    requires owns { IsOf shared.now first }
    requires chains { AreChains trace.now chains.now }
    requires opening { opening_of shared.now ≡ opening trace.now.windows trace.now.video }
    requires most { most_of shared.now ≡ trace.now.threads }
    requires number { (token_of first).number < trace.now.threads }
    requires mine { mine (token_of first) ≡ [] }
    requires ended { (token_of first).ended ≡ [] }
    requires tail { (token_of first).tail ≡ [] }
    ensures owns { IsOf shared.now result.thread }
    ensures play { result.ran_out ≡ false → OwnersPlay trace.now (token_of result.thread) }
{
    let Ok(mut workers) = Vec::with_capacity(alloc, trace.threads() as usize + 1) else {
        return Gathered {
            thread: first,
            ran_out: true,
        };
    };
    let hired = hire(rt, shared, &mut first, &mut workers, trace);
    workers.push_reserved(Worker {
        thread: first,
        ran_out: !hired,
    });
    run_all(rt, alloc, trace, chains, gate, shared, &mut workers, hired);
    match workers.pop() {
        Some(last) => gather(rt, shared, last, workers, trace),
        None => unreachable!(),
    }
}
