//! The work of one thread of a trace.
ghost use Rattle.std.specs.Prelude.{◌≡◌, ◌<◌, [], false, OnOk, OnErr};
ghost use Rattle.egl_model.specs.State.{opening};
ghost use Rattle.trace_model.specs.Follows.{PlaysAs};
ghost use Rattle.trace_model.specs.Serial.{state_behind};
ghost use Rattle.trace_session.specs.Chains.{AreChains};
ghost use Rattle.shared_driver.specs.Tokens.{IsOf, IsSame, has_given_up, mine, opening_of, token_of};
ghost use Rattle.play_threads.specs.Picks.{IsOver};
ghost use Rattle.play_threads.specs.Work.{GaveUp, PlayLone};

use crate::gates::{Gate, announce};
use crate::lone_lines::play_lone;
use crate::pickers::LinePicker;
use egl_calls::NoMemory;
use shared_driver::{
    Picked, Shared, Thread, a_token_keeps_its_own_calls, what_a_token_has_seen_is_legal,
};
use std::alloc::Global;
use std::sync::Wait;
use trace_reader::Trace;
use trace_session::Chains;

// Plays the lines of a thread until nothing is left, or memory runs out.
fn play_lines<R: Wait, G: Gate>(
    shared: &Shared,
    thread: &mut Thread,
    rt: &R,
    alloc: Global,
    trace: &Trace,
    chains: &Chains,
    gate: &G,
) -> Result<(), NoMemory>
    requires owns { IsOf shared.now thread.old }
    requires chains { AreChains trace.now chains.now }
    requires opening { opening_of shared.now ≡ opening trace.now.windows trace.now.video }
    requires number { (token_of thread.old).number < trace.now.threads }
    requires mine { mine (token_of thread.old) ≡ [] }
    ensures owns { IsOf shared.now thread.new }
    ensures same { IsSame (token_of thread.old) (token_of thread.new) }
    ensures tail { OnOk result ((token_of thread.new).tail ≡ []) }
    ensures plays { PlaysAs trace.now (token_of thread.old).number (token_of thread.new).seen }
    ensures lone { PlayLone trace.now (token_of thread.old).number (token_of thread.new).seen (token_of thread.new).tail }
    ensures calm { has_given_up (token_of thread.new) ≡ false }
    ensures over { OnOk result (IsOver trace.now (token_of thread.new).seen (state_behind trace.now (token_of thread.new).seen) (token_of thread.old).number) }
{
    trace.in_order();
    a_token_keeps_its_own_calls(thread);
    let number = thread.number();
    let mut picker = LinePicker::new(alloc, trace, chains, number, gate.is_open())?;
    let mut told = None;
    'turns: for _ in rt.forever() {
        play_lone(thread, alloc, gate, &mut picker, &mut told)?;
        announce(gate, number, picker.coming(), &mut told);
        let heard = shared.heard(thread);
        let outcome = shared.call_run(thread, rt, alloc, &mut picker);
        what_a_token_has_seen_is_legal(shared, thread);
        let picked = outcome?;
        match picked {
            Picked::Replied(reply) => picker.learn_own(reply)?,
            Picked::Waited => shared.sleep(rt, heard),
            Picked::Stopped => return Ok(()),
        }
    }
    unreachable!()
}

/// Plays the lines of one thread of a trace with a token: the trace's thread is that of the token's number. All threads of a trace may share its chains. A line that the thread's private part answers, and that waits for nobody, takes no turn. Each other one is played in a turn once what it waits for is there, and with it the lines behind it that wait for nobody, up to the bound of a turn; through a gate that holds threads back each has a turn of its own. Where nothing can be played it sleeps between turns, and may never return.
///
/// It ends where the thread is at its end, or the run has stalled, or another thread gave up. Where memory runs out, it gives up.
pub fn work<R: Wait, G: Gate>(
    shared: &Shared,
    thread: &mut Thread,
    rt: &R,
    alloc: Global,
    trace: &Trace,
    chains: &Chains,
    gate: &G,
) -> Result<(), NoMemory>
    requires owns { IsOf shared.now thread.old }
    requires chains { AreChains trace.now chains.now }
    requires opening { opening_of shared.now ≡ opening trace.now.windows trace.now.video }
    requires number { (token_of thread.old).number < trace.now.threads }
    requires mine { mine (token_of thread.old) ≡ [] }
    ensures owns { IsOf shared.now thread.new }
    ensures same { IsSame (token_of thread.old) (token_of thread.new) }
    ensures tail { (token_of thread.new).tail ≡ [] }
    ensures plays { OnOk result (PlaysAs trace.now (token_of thread.old).number (token_of thread.new).seen) }
    ensures over { OnOk result (IsOver trace.now (token_of thread.new).seen (state_behind trace.now (token_of thread.new).seen) (token_of thread.old).number) }
    ensures gave_up { OnErr result (GaveUp trace.now (token_of thread.old).number (token_of thread.new).seen) }
{
    trace.in_order();
    match play_lines(shared, thread, rt, alloc, trace, chains, gate) {
        Ok(()) => Ok(()),
        Err(error) => {
            shared.halt(thread, rt, alloc);
            what_a_token_has_seen_is_legal(shared, thread);
            Err(error)
        }
    }
}
