//! What a program answers to all that its source has.
ghost use Rattle.std.specs.Prelude.{ℕ, ◌≤◌, List, length, IfOk};
ghost use Rattle.egl_flow.specs.Flow.{HasRisen};
ghost use Rattle.egl_flow.specs.Inputs.{most_input};
ghost use Rattle.egl_flow.specs.Responses.{Responds, WroteAnswer, WroteCause};

use crate::inputs::{MOST_INPUT, READ_FAULT_TEXT, TOO_LONG_TEXT};
use crate::reading::{ReadError, Source, read_all};
use crate::statuses::Status;
use crate::telling::finish;
use crate::writing::Sink;
use egl_calls::{Bytes, NoMemory};
use std::alloc::Global;

/// A text, and the status that a program ends with when it is written.
#[derive(Drop)]
pub struct Answer {
    pub text: Bytes,
    pub status: Status,
}

/// What answers an input.
pub trait Responder {
    ghost use Rattle.egl_flow.specs.declared.responding.Answer.{Answer};

    /// What it asks of itself.
    ghost asks: { Self → Type 0 };
    /// Which answers to bytes are right.
    ghost answers: { Self → List ℕ → Answer → Type 0 };

    /// Answers bytes.
    fn answer(&self, alloc: Global, bytes: &Bytes) -> Result<Answer, NoMemory>
        requires asked { asks self.now }
        requires within { length bytes.now ≤ most_input }
        ensures { IfOk result (answers self.now bytes.now) };
}

/// Writes the answer to bytes.
fn tell<A: Responder, K: Sink>(alloc: Global, responder: &A, bytes: &Bytes, sink: &mut K) -> Status
    requires asked { A.asks responder.now }
    requires within { length bytes.now ≤ most_input }
    ensures { WroteAnswer (A.answers responder.now bytes.now) (K.taken sink.old) (K.taken sink.new) (HasRisen (K.faults sink.old) (K.faults sink.new)) result }
{
    match responder.answer(alloc, bytes) {
        Ok(answer) => finish(sink, answer.status, answer.text.as_slice()),
        Err(_) => Status::NoMemory,
    }
}

/// Writes why there is nothing to answer. It takes no memory.
#[tactic(auto, unfolding(crate::specs::Inputs::read_fault_text, crate::specs::Inputs::too_long_text))]
fn refuse<K: Sink>(sink: &mut K, error: &ReadError) -> Status
    ensures { WroteCause error.now (K.taken sink.old) (K.taken sink.new) (HasRisen (K.faults sink.old) (K.faults sink.new)) result }
{
    match error {
        ReadError::ReadFault => finish(sink, Status::ReadFault, READ_FAULT_TEXT),
        ReadError::TooLong { taken: _ } => finish(sink, Status::TooLong, TOO_LONG_TEXT),
        ReadError::NoMemory => Status::NoMemory,
    }
}

/// Reads a source to its end, and writes what a responder answers to its bytes, or why they couldn't be read.
///
/// All output is made before the first write. A write that fails gives `WriteFault` in place of every other status.
pub fn respond<A: Responder, S: Source, K: Sink>(
    alloc: Global,
    responder: &A,
    source: &mut S,
    sink: &mut K,
) -> Status
    requires { A.asks responder.now }
    ensures { Responds (A.answers responder.now) (S.left source.old) (S.left source.new) (S.faults source.old) (S.faults source.new) (K.taken sink.old) (K.taken sink.new) (HasRisen (K.faults sink.old) (K.faults sink.new)) result }
{
    match read_all(alloc, source, MOST_INPUT) {
        Ok(bytes) => tell(alloc, responder, &bytes, sink),
        Err(error) => refuse(sink, &error),
    }
}
