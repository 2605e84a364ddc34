//! The run of all threads of a trace at once.
ghost use Rattle.std.specs.Prelude.{◌≡◌, ◌<◌, IfOk, IfErr};
ghost use Rattle.egl_model.specs.History.{IsLegalFrom, replay_from};
ghost use Rattle.trace_reader.specs.Traces.{TraceValue};
ghost use Rattle.trace_model.specs.Follows.{Follows};
ghost use Rattle.trace_model.specs.Stalled.{IsComplete};
ghost use Rattle.trace_session.specs.Chains.{AreChains};
ghost use Rattle.shared_driver.specs.Tokens.{IsOf, opening_of, token_of};
ghost use Rattle.play_threads.specs.Plays.{IsRunOf, IsStalledRunOf, OwnersPlay, reached_by};

use crate::gates::Gate;
use crate::pickers::has_stalled;
use crate::workers::{Gathered, play_together};
use driver_core::Run;
use egl_calls::NoMemory;
use shared_driver::{Closed, Opened, Shared, Thread};
use std::alloc::Global;
use std::sync::Wait;
use std::thread::Threads;
use trace_reader::Trace;
use trace_session::{Chains, RunError, Session, run_serial};

/// How far a run came.
#[derive(Drop)]
enum Reached {
    /// All threads are at their end.
    End,
    /// The threads wait for one another.
    Stall,
    /// Neither: a thread can go on, or has no token.
    Neither,
}

// Ends the driver, once its other tokens are joined.
fn close<R: Wait>(rt: &R, shared: Shared, mut thread: Thread) -> Closed
    requires owns { IsOf shared thread }
    ensures legal { IsLegalFrom (opening_of shared) result.journal.entries }
    ensures driver { result.driver.state ≡ replay_from (opening_of shared) result.journal.entries }
    ensures follows { (t : TraceValue) → OwnersPlay t (token_of thread) → Follows t result.journal.entries }
{
    'waiting: for _ in rt.forever() {
        if shared.live(&mut thread, rt) == 1 {
            return shared.close(thread);
        }
    }
    unreachable!()
}

// Plays a trace by workers, as far as they come. The driver is for as many tokens as the trace has threads.
fn run<R: Threads + Wait + Sync, G: Gate + Sync>(
    rt: &R,
    alloc: Global,
    trace: &Trace,
    chains: &Chains,
    gate: &G,
) -> Result<Run, NoMemory>
    requires { AreChains trace.now chains.now }
    ensures { IfOk result (IsRunOf trace.now) }
{
    trace.in_order();
    let Opened { shared, thread } = Shared::open_for(
        alloc,
        trace.key(),
        trace.windows(),
        trace.video(),
        trace.threads(),
    )?;
    let Gathered { thread, ran_out } = play_together(
        rt, alloc, trace, chains, gate, &shared, thread,
    );
    let Closed { driver, journal } = close(rt, shared, thread);
    if ran_out {
        return Err(NoMemory);
    }
    Ok(Run { journal, driver })
}

// How far a run came.
fn how_far(alloc: Global, trace: &Trace, chains: &Chains, run: &Run) -> Result<Reached, NoMemory>
    requires { AreChains trace.now chains.now }
    ensures { IfOk result (λ r. r ≡ reached_by trace.now run.now) }
{
    let session = Session::behind(alloc, trace, chains, &run.journal)?;
    if session.is_complete() {
        return Ok(Reached::End);
    }
    if has_stalled(&session, &run.driver) {
        return Ok(Reached::Stall);
    }
    Ok(Reached::Neither)
}

/// Plays a trace by as many threads at once as it has, and answers the run: its journal is one legal history in which each thread plays its lines, and its driver stands behind it. Which of the legal histories it is, differs from run to run.
///
/// Where not all threads can run at once, it is the run by turns of `run_serial`.
#[tactic(auto, using(crate::proofs::PlayLaws::end_reached, crate::proofs::PlayLaws::stall_reached))]
pub fn play<R: Threads + Wait + Sync, G: Gate + Sync>(
    rt: &R,
    alloc: Global,
    trace: &Trace,
    gate: &G,
) -> Result<Run, RunError>
    ensures complete { IfOk result (λ r. IsRunOf trace.now r × IsComplete trace.now r.journal.entries) }
    ensures stalled { IfErr result (IsStalledRunOf trace.now) }
{
    trace.in_order();
    let Ok(chains) = Chains::shared(alloc, trace) else {
        return Err(RunError::NoMemory);
    };
    let Ok(run) = run(rt, alloc, trace, &chains, gate) else {
        return Err(RunError::NoMemory);
    };
    match how_far(alloc, trace, &chains, &run) {
        Ok(Reached::End) => Ok(run),
        Ok(Reached::Stall) => Err(RunError::Stalled(run)),
        Ok(Reached::Neither) => run_serial(alloc, trace),
        Err(_) => Err(RunError::NoMemory),
    }
}
