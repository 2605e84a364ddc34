//! The top call: words and a source in, a status and a sink's bytes out.
ghost use Rattle.egl_flow.specs.Flow.{HasRisen};
ghost use Rattle.egl_judge.specs.Requests.{request_of};
ghost use Rattle.egl_judge.specs.Says.{Says};

use crate::requests::request_of;
use egl_calls::Text;
use egl_flow::{Sink, Source, Status, finish, respond};
use std::alloc::Global;

/// What is said to words that ask for nothing.
const USAGE: &[u8] = b"usage: egl_judge [DELTA] [explain] < LOG\n";

/// Judges the log that the source gives, by what the words ask for, and writes what is found to the sink.
///
/// All output is made before the first write. A write that fails gives `WriteFault` in place of every other status.
#[tactic(auto, unfolding(crate::specs::Says::usage_text))]
pub fn top<S: Source, K: Sink>(
    alloc: Global,
    words: &[Text],
    source: &mut S,
    sink: &mut K,
) -> Status
    ensures { Says (request_of words.now) (S.left source.old) (S.left source.new) (S.faults source.old) (S.faults source.new) (K.taken sink.old) (K.taken sink.new) (HasRisen (K.faults sink.old) (K.faults sink.new)) result }
{
    match request_of(words) {
        Some(request) => respond(alloc, &request, source, sink),
        None => finish(sink, Status::Usage, USAGE),
    }
}
