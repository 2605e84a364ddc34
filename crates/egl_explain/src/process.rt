//! The program's edge: its words, standard input and standard output.
ghost use Rattle.egl_flow.specs.Flow.{HasRisen};
ghost use Rattle.egl_flow.specs.Responses.{Responds};
ghost use Rattle.egl_explain.specs.Answers.{IsRunStatus, IsSomeAnswer, IsTold};

use crate::explaining::explain;
use crate::pages::{Format, Look};
use egl_calls::{Bytes, NoMemory};
use egl_flow::{
    Answer, Responder, Sink, Source, Status, StdSink, StdSource, Waiting, finish, respond,
};
use std::alloc::Global;
use std::env;
use std::env::{Args, VarError};
use std::io::{ErrorKind, IsTerminal};
use std::rt::{Env, Stdin, Stdout};
use std::time::Clock;

/// What is said to words that ask for nothing.
const USAGE: &[u8] = b"usage: egl_explain [json] < TRACE\n";

/// What the words ask for.
#[derive(Clone, Copy, Debug, PartialEq, Eq, Drop)]
enum Asked {
    /// A text for people.
    Text,
    /// Lines for programs.
    Json,
    /// Nothing that there is.
    Other,
}

/// What the words behind the program's own name ask for.
fn asked_in(args: Args) -> Asked {
    let mut left = args;
    let _name = left.next();
    let Some(word) = left.next() else {
        return Asked::Text;
    };
    if left.next().is_none() && word.as_bytes() == b"json".as_slice() {
        Asked::Json
    } else {
        Asked::Other
    }
}

/// What the words of the process ask for. One that isn't UTF-8 asks for nothing.
fn form_asked<R: Env + AllocGlobal>(rt: &R) -> Result<Asked, NoMemory> {
    match env::args(rt) {
        Ok(args) => Ok(asked_in(args)),
        Err(error) => match error.kind() {
            ErrorKind::OutOfMemory => Err(NoMemory),
            _ => Ok(Asked::Other),
        },
    }
}

/// Whether the variable NO_COLOR has a value.
fn is_colourless<R: Env + AllocGlobal>(rt: &R) -> bool {
    match env::var(rt, "NO_COLOR") {
        Ok(value) => !value.is_empty(),
        Err(error) => !matches!(error, VarError::NotPresent),
    }
}

impl Responder for Format {
    ghost use Rattle.egl_explain.specs.Answers.{IsTold};

    ghost asks = { λ _. Unit {0} };

    ghost answers = { IsTold };

    #[tactic(auto, using(crate::proofs::StatusLaws::is_told))]
    fn answer(&self, alloc: Global, bytes: &Bytes) -> Result<Answer, NoMemory> {
        explain(alloc, bytes.as_slice(), *self)
    }
}

/// Tells on a sink of all that a source has. The status is that of the bytes: 4 where they are no trace and no recording behind one, 6 where the run stalls, 9 where the recording isn't the trace's, else 0; or it says that they couldn't be read or written, or that there was no memory.
pub fn answer<S: Source, K: Sink>(
    alloc: Global,
    format: Format,
    source: &mut S,
    sink: &mut K,
) -> Status
    ensures { Responds (IsTold format) (S.left source.old) (S.left source.new) (S.faults source.old) (S.faults source.new) (K.taken sink.old) (K.taken sink.new) (HasRisen (K.faults sink.old) (K.faults sink.new)) result }
{
    respond(alloc, &format, source, sink)
}

/// Tells of standard input on standard output. Input that isn't there yet is waited for.
fn run_here<C: Clock + AllocGlobal>(
    clock: &C,
    input: Stdin,
    sink: &mut StdSink<Stdout>,
    format: Format,
) -> Status
    ensures { IsSomeAnswer result }
{
    let mut source = Waiting::new(StdSource::new(input), clock);
    answer(clock.alloc(), format, &mut source, sink)
}

/// Tells of the input on standard output, in the form that the words ask for. To others it answers how it is used.
#[tactic(auto, using(crate::proofs::StatusLaws::used))]
pub fn run<R: Env + Clock + AllocGlobal>(rt: &R, input: Stdin, output: Stdout) -> Status
    ensures { IsRunStatus result }
{
    let terminal = output.is_terminal();
    let mut sink = StdSink::new(output);
    let look = Look {
        coloured: terminal && !is_colourless(rt),
        cut: terminal,
    };
    match form_asked(rt) {
        Ok(Asked::Text) => run_here(rt, input, &mut sink, Format::Text(look)),
        Ok(Asked::Json) => run_here(rt, input, &mut sink, Format::Json),
        Ok(Asked::Other) => finish(&mut sink, Status::Usage, USAGE),
        Err(_) => Status::NoMemory,
    }
}
