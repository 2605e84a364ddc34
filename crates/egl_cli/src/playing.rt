//! The command `play`, and the top call of a program that may start threads.
ghost use Rattle.std.specs.Prelude.{◌≡◌, Some, IfOk};
ghost use Rattle.egl_flow.specs.Flow.{HasRisen};
ghost use Rattle.trace_reader.specs.Order.{IsTrace};
ghost use Rattle.egl_cli.specs.Answers.{IsPlayAnswer};
ghost use Rattle.egl_cli.specs.Says.{Says, WrotePlay, WantsMemory, IsUnread, IsHeadline, IsStalledHeadline, IsWhole};
ghost use Rattle.egl_cli.specs.Commands.{command_of};

use crate::answers::{Answer, journal_answer};
use crate::commands::{Command, command_of};
use crate::inputs::read_trace;
use crate::respond::plain;
use crate::telling::refuse;
use egl_calls::{NoMemory, Text};
use egl_flow::{Sink, Source, Status, finish};
use play_threads::{Gate, play};
use std::alloc::Global;
use std::sync::Wait;
use std::thread::Threads;
use trace_reader::Trace;
use trace_session::RunError;

/// What is said to a trace that is played by its threads at once.
fn play_answer<R: Threads + Wait + Sync, G: Gate + Sync>(
    rt: &R,
    alloc: Global,
    summary: bool,
    trace: &Trace,
    gate: &G,
) -> Result<Answer, NoMemory>
    ensures { IfOk result (IsPlayAnswer summary trace.now) }
{
    match play(rt, alloc, trace, gate) {
        Ok(run) => journal_answer(alloc, summary, trace, &run, false),
        Err(RunError::Stalled(run)) => journal_answer(alloc, summary, trace, &run, true),
        Err(RunError::NoMemory) => Err(NoMemory),
    }
}

/// Plays a trace by its threads at once, and writes what is said to it.
fn tell_play<R: Threads + Wait + Sync, K: Sink, G: Gate + Sync>(
    rt: &R,
    alloc: Global,
    summary: bool,
    sink: &mut K,
    trace: &Trace,
    gate: &G,
) -> Status
    ensures trace { IsTrace trace.now }
    ensures wrote { WrotePlay summary trace.now (K.taken sink.old) (K.taken sink.new) (HasRisen (K.faults sink.old) (K.faults sink.new)) result }
{
    trace.in_order();
    match play_answer(rt, alloc, summary, trace, gate) {
        Ok(answer) => finish(sink, answer.status, answer.text.as_slice()),
        Err(_) => Status::NoMemory,
    }
}

/// Reads a trace from the source, plays it by as many threads at once as it has, and writes the recording of one legal history of its calls to the sink, or its summary, and where that stalls, the lines at which threads wait. Which of the legal histories it is, differs from run to run.
///
/// All output is made before the first write. A write that fails gives `WriteFault` in place of every other status. Memory is wanted only to read an input within the limit and to play it. It may never return, as `play` may not.
pub fn play_words<R: Threads + Wait + Sync, S: Source, K: Sink, G: Gate + Sync>(
    rt: &R,
    alloc: Global,
    summary: bool,
    source: &mut S,
    sink: &mut K,
    gate: &G,
) -> Status
    ensures says { Says (Some (Command.Play summary)) (S.left source.old) (S.left source.new) (HasRisen (S.faults source.old) (S.faults source.new)) (K.taken sink.old) (K.taken sink.new) (HasRisen (K.faults sink.old) (K.faults sink.new)) result }
    ensures memory { result ≡ Status.NoMemory → WantsMemory (Some (Command.Play summary)) (S.left source.old) (S.left source.new) (S.faults source.old) (S.faults source.new) }
    ensures headline { result ≡ Status.Ok → IsHeadline (Some (Command.Play summary)) (S.left source.old) (S.left source.new) (K.taken sink.old) (K.taken sink.new) }
    ensures stalled { result ≡ Status.Stalled → IsStalledHeadline (Some (Command.Play summary)) (S.left source.old) (S.left source.new) (K.taken sink.old) (K.taken sink.new) }
    ensures whole { IsWhole (Some (Command.Play summary)) (S.left source.old) (HasRisen (S.faults source.old) (S.faults source.new)) (HasRisen (K.faults sink.old) (K.faults sink.new)) result }
{
    match read_trace(alloc, source) {
        Ok(trace) => tell_play(rt, alloc, summary, sink, &trace, gate),
        Err(error) => refuse(sink, &error),
    }
}

/// Does the command that the words name: `play` by `play_words`, and every other by `plain`. It may never return where the words are `play`.
pub fn top<R: Threads + Wait + Sync, S: Source, K: Sink, G: Gate + Sync>(
    rt: &R,
    alloc: Global,
    words: &[Text],
    source: &mut S,
    sink: &mut K,
    gate: &G,
) -> Status
    ensures says { Says (command_of words.now) (S.left source.old) (S.left source.new) (HasRisen (S.faults source.old) (S.faults source.new)) (K.taken sink.old) (K.taken sink.new) (HasRisen (K.faults sink.old) (K.faults sink.new)) result }
    ensures memory { result ≡ Status.NoMemory → WantsMemory (command_of words.now) (S.left source.old) (S.left source.new) (S.faults source.old) (S.faults source.new) }
    ensures unread { IsUnread (command_of words.now) (S.left source.old) (S.left source.new) (S.faults source.old) (S.faults source.new) }
    ensures headline { result ≡ Status.Ok → IsHeadline (command_of words.now) (S.left source.old) (S.left source.new) (K.taken sink.old) (K.taken sink.new) }
    ensures stalled { result ≡ Status.Stalled → IsStalledHeadline (command_of words.now) (S.left source.old) (S.left source.new) (K.taken sink.old) (K.taken sink.new) }
    ensures whole { IsWhole (command_of words.now) (S.left source.old) (HasRisen (S.faults source.old) (S.faults source.new)) (HasRisen (K.faults sink.old) (K.faults sink.new)) result }
{
    match command_of(words) {
        Some(Command::Play { summary }) => play_words(rt, alloc, summary, source, sink, gate),
        Some(
            Command::Serial
            | Command::Check
            | Command::Configs
            | Command::Generate { .. }
            | Command::Compose { .. }
            | Command::Scene
            | Command::Races,
        )
        | None => plain(alloc, words, source, sink),
    }
}
