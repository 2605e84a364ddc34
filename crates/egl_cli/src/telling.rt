//! Why there is nothing to answer, told to the sink.
ghost use Rattle.egl_flow.specs.Flow.{HasRisen};
ghost use Rattle.egl_cli.specs.Says.{WroteRefusal};

use crate::answers::malformed_text;
use crate::inputs::InputError;
use egl_flow::{READ_FAULT_TEXT, Sink, Status, TOO_LONG_TEXT, finish};

/// Writes why there is nothing to answer. It takes no memory.
#[tactic(auto, unfolding(egl_flow::specs::Inputs::read_fault_text, egl_flow::specs::Inputs::too_long_text))]
pub fn refuse<K: Sink>(sink: &mut K, error: &InputError) -> Status
    ensures wrote { WroteRefusal error.now (K.taken sink.old) (K.taken sink.new) (HasRisen (K.faults sink.old) (K.faults sink.new)) result }
{
    match error {
        InputError::ReadFault => finish(sink, Status::ReadFault, READ_FAULT_TEXT),
        InputError::TooLong => finish(sink, Status::TooLong, TOO_LONG_TEXT),
        InputError::Malformed { line, reason } => finish(
            sink,
            Status::Malformed,
            malformed_text(*line, *reason).as_str().as_bytes(),
        ),
        InputError::NoMemory => Status::NoMemory,
    }
}
