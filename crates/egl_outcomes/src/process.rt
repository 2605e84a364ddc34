//! The program's edge: standard input and standard output.
ghost use Rattle.egl_flow.specs.Flow.{HasRisen};
ghost use Rattle.egl_flow.specs.Responses.{Responds};
ghost use Rattle.egl_outcomes.specs.Runs.{IsAnswer, IsRunStatus, IsSomeAnswer};

use crate::answering::answer_bytes;
use egl_calls::{Bytes, NoMemory};
use egl_flow::{
    Answer, Responder, Sink, Source, Status, StdSink, StdSource, Waiting, finish, respond,
};
use std::alloc::Global;
use std::env;
use std::io::ErrorKind;
use std::rt::{Env, Stdin, Stdout};
use std::time::Clock;

/// What is said to words, of which the program takes none.
const USAGE: &[u8] = b"usage: egl_outcomes < TRACE\n";

/// Whether no word stands behind the program's own name. One that isn't UTF-8 is a word.
fn has_no_words<R: Env + AllocGlobal>(rt: &R) -> Result<bool, NoMemory> {
    match env::args(rt) {
        Ok(args) => Ok(args.skip(1).count() == 0),
        Err(error) => match error.kind() {
            ErrorKind::OutOfMemory => Err(NoMemory),
            _ => Ok(false),
        },
    }
}

/// Answers an input by `answer_bytes`.
#[derive(Clone, Copy, Drop)]
struct Outcomes;

impl Responder for Outcomes {
    ghost use Rattle.egl_outcomes.specs.Runs.{IsAnswer};

    ghost asks = { λ _. Unit {0} };

    ghost answers = { λ _. IsAnswer };

    fn answer(&self, alloc: Global, bytes: &Bytes) -> Result<Answer, NoMemory> {
        answer_bytes(alloc, bytes.as_slice())
    }
}

/// Tells on a sink of all that a source has. The status is 0; or 4 where the bytes are no trace within the limits and no recording behind one, 8 where the trace has too many histories, 9 where the recording has none of its outcomes; or it says that they couldn't be read or written, or that there was no memory.
pub fn answer<S: Source, K: Sink>(alloc: Global, source: &mut S, sink: &mut K) -> Status
    ensures { Responds IsAnswer (S.left source.old) (S.left source.new) (S.faults source.old) (S.faults source.new) (K.taken sink.old) (K.taken sink.new) (HasRisen (K.faults sink.old) (K.faults sink.new)) result }
{
    respond(alloc, &Outcomes, source, sink)
}

/// Tells of standard input on standard output. Input that isn't there yet is waited for.
fn run_here<C: Clock + AllocGlobal>(clock: &C, input: Stdin, sink: &mut StdSink<Stdout>) -> Status
    ensures { IsSomeAnswer result }
{
    let mut source = Waiting::new(StdSource::new(input), clock);
    answer(clock.alloc(), &mut source, sink)
}

/// Tells of the input on standard output. To words it answers how it is used.
#[tactic(auto, using(crate::proofs::RunLaws::used))]
pub fn run<R: Env + Clock + AllocGlobal>(rt: &R, input: Stdin, output: Stdout) -> Status
    ensures { IsRunStatus result }
{
    let mut sink = StdSink::new(output);
    match has_no_words(rt) {
        Ok(true) => run_here(rt, input, &mut sink),
        Ok(false) => finish(&mut sink, Status::Usage, USAGE),
        Err(_) => Status::NoMemory,
    }
}
