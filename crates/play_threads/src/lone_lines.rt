//! Lines that a thread's private part answers, with no turn.
ghost use Rattle.std.specs.Prelude.{◌≡◌, ◌<◌, ◌+◌, true, false, List, is_some, IfOk, IfSome, OnOk};
ghost use Rattle.egl_calls.specs.Journals.{are_halted};
ghost use Rattle.egl_calls.specs.declared.entries.Entry.{Entry as AnEntry};
ghost use Rattle.trace_session.specs.Answers.{IsLone};
ghost use Rattle.trace_session.specs.Facts.{HasFacts};
ghost use Rattle.trace_session.specs.Sessions.{Knows};
ghost use Rattle.shared_driver.specs.declared.tokens.Shared.{Shared as TheShared};
ghost use Rattle.shared_driver.specs.Tokens.{IsOf, IsSame, may_be_local, mine, token_of};
ghost use Rattle.play_threads.specs.Picks.{HasLearnt};
ghost use Rattle.play_threads.specs.Work.{NoLoneLeft, PlayLone, is_local_line};

use crate::gates::{Gate, announce};
use crate::pickers::LinePicker;
use egl_calls::{Call, NoMemory};
use shared_driver::Thread;
use std::alloc::Global;
use trace_reader::Line;

// The call of a line, where a thread's private part answers it. No call with a list is one of these, so no list is made in vain.
fn local_call(thread: &Thread, alloc: Global, line: &Line) -> Result<Option<Call>, NoMemory>
    ensures call { IfOk result (λ o. IfSome o (λ c. c ≡ line.now.call)) }
    ensures local { IfOk result (λ o. IfSome o (λ c. may_be_local (token_of thread.now) c ≡ true)) }
    ensures there { IfOk result (λ o. is_some o ≡ is_local_line (token_of thread.now) line.now) }
{
    if !line.call.list().is_empty() {
        return Ok(None);
    }
    let call = line.call.to_call(alloc)?;
    if thread.is_local(&call) {
        Ok(Some(call))
    } else {
        Ok(None)
    }
}

// Plays a thread's next line by its call, which its private part answers.
fn play_line(
    thread: &mut Thread,
    alloc: Global,
    picker: &mut LinePicker,
    line: &Line,
    call: Call,
) -> Result<(), NoMemory>
    requires number { (token_of thread.old).number ≡ picker.old.thread }
    requires below { picker.old.thread < picker.old.session.trace.threads }
    requires facts { HasFacts picker.old.session.trace }
    requires lone { (es : List AnEntry) → Knows es picker.old.session → IsLone picker.old.session.trace es picker.old.thread line.now }
    requires learnt { HasLearnt picker.old (mine (token_of thread.old)) (token_of thread.old).seen }
    requires call { call ≡ line.now.call }
    requires local { may_be_local (token_of thread.old) call ≡ true }
    ensures owns { (s : TheShared) → IsOf s thread.old → IsOf s thread.new }
    ensures same { IsSame (token_of thread.old) (token_of thread.new) × ((token_of thread.new).seen ≡ (token_of thread.old).seen) }
    ensures picker { (picker.new.thread ≡ picker.old.thread) × (picker.new.session.trace ≡ picker.old.session.trace) }
    ensures told { picker.new.answered ≡ picker.old.answered }
    ensures lone { PlayLone picker.old.session.trace picker.old.thread (token_of thread.old).seen (token_of thread.old).tail → PlayLone picker.old.session.trace picker.old.thread (token_of thread.new).seen (token_of thread.new).tail }
    ensures calm { are_halted (mine (token_of thread.old)) ≡ false → are_halted (mine (token_of thread.new)) ≡ false }
    ensures learnt { OnOk result (HasLearnt picker.new (mine (token_of thread.new)) (token_of thread.new).seen) }
    ensures places { OnOk result ((token_of thread.new).places + 1 ≡ (token_of thread.old).places) }
{
    let reply = thread.local(alloc, line.number, call)?;
    picker.learn_own(reply)
}

/// Plays the next lines of a thread that its private part answers and that wait for nobody, as far as they go and its token has places. They take no turn.
pub(crate) fn play_lone<G: Gate>(
    thread: &mut Thread,
    alloc: Global,
    gate: &G,
    picker: &mut LinePicker,
    told: &mut Option<u64>,
) -> Result<(), NoMemory>
    requires number { (token_of thread.old).number ≡ picker.old.thread }
    requires below { picker.old.thread < picker.old.session.trace.threads }
    requires learnt { HasLearnt picker.old (mine (token_of thread.old)) (token_of thread.old).seen }
    ensures owns { (s : TheShared) → IsOf s thread.old → IsOf s thread.new }
    ensures same { IsSame (token_of thread.old) (token_of thread.new) × ((token_of thread.new).seen ≡ (token_of thread.old).seen) }
    ensures picker { (picker.new.thread ≡ picker.old.thread) × (picker.new.session.trace ≡ picker.old.session.trace) }
    ensures told { picker.new.answered ≡ picker.old.answered }
    ensures lone { PlayLone picker.old.session.trace picker.old.thread (token_of thread.old).seen (token_of thread.old).tail → PlayLone picker.old.session.trace picker.old.thread (token_of thread.new).seen (token_of thread.new).tail }
    ensures calm { are_halted (mine (token_of thread.old)) ≡ false → are_halted (mine (token_of thread.new)) ≡ false }
    ensures learnt { OnOk result (HasLearnt picker.new (mine (token_of thread.new)) (token_of thread.new).seen) }
    ensures all { OnOk result (NoLoneLeft picker.new (token_of thread.new)) }
{
    'lines: while let Some(line) = picker.lone_line() {
        let Some(call) = local_call(thread, alloc, line)? else {
            return Ok(());
        };
        announce(gate, thread.number(), Some(line.number), told);
        play_line(thread, alloc, picker, line, call)?;
    }
    Ok(())
}
