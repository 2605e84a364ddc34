//! What a program writes to its sink, and the status that it ends with.
ghost use Rattle.egl_flow.specs.Flow.{HasRisen};
ghost use Rattle.egl_flow.specs.Statuses.{Wrote};

use crate::statuses::Status;
use crate::writing::{Sink, write_slice};

/// Writes a text, and answers its status, or that the writing failed. It takes no memory.
pub fn finish<K: Sink>(sink: &mut K, status: Status, text: &[u8]) -> Status
    ensures wrote { Wrote (K.taken sink.old) text.now (K.taken sink.new) (HasRisen (K.faults sink.old) (K.faults sink.new)) status result }
{
    match write_slice(sink, text) {
        Ok(()) => status,
        Err(_) => Status::WriteFault,
    }
}
