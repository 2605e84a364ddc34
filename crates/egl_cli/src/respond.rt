//! The top call without threads: words and a source in, a status and a sink's bytes out.
ghost use Rattle.std.specs.Prelude.{◌≡◌, ◌<◌, ◌≤◌, Some, Ok as Spelt};
ghost use Rattle.egl_flow.specs.Flow.{HasRisen};
ghost use Rattle.trace_gen.specs.Generated.{generated};
ghost use Rattle.trace_reader.specs.Grammar.{trace};
ghost use Rattle.trace_reader.specs.Order.{IsTrace};
ghost use Rattle.sprite_scene.specs.Calls.{calls_of};
ghost use Rattle.sprite_scene.specs.Runs.{Draws};
ghost use Rattle.scene_trace.specs.Lines as lines;
ghost use Rattle.egl_cli.specs.Answers.{run_answer, run_frames, claim_answer};
ghost use Rattle.egl_cli.specs.Says.{Says, WroteIfMade, WroteRaces, WantsMemory, IsUnread, IsHeadline, IsStalledHeadline, IsWhole};
ghost use Rattle.egl_cli.specs.Commands.{plain_command_of};
ghost use Rattle.egl_cli.specs.ConfigLines.{configs_text};

use crate::answers::{run_answer, run_frames};
use crate::commands::{Command, command_of};
use crate::config_lines::configs_text;
use crate::inputs::{Claim, read_claim, read_scene, read_short_trace, read_trace};
use crate::races::run_races;
use crate::telling::refuse;
use crate::verdict_lines::claim_answer;
use egl_calls::Text;
use egl_flow::{Sink, Source, Status, finish};
use scene_reader::Scene;
use scene_trace::{scene_text, text_is_read};
use sprite_scene::calls_draw;
use std::alloc::Global;
use trace_gen::generate;
use trace_reader::Trace;

const USAGE: &[u8] =
    b"usage: egl_cli serial | play [summary] | check | configs | gen N THREADS SEED | compose W H | scene | races\n";

/// Writes the text of the configs.
fn tell_configs<K: Sink>(alloc: Global, sink: &mut K) -> Status
    ensures wrote { WroteIfMade (K.taken sink.old) configs_text (K.taken sink.new) (HasRisen (K.faults sink.old) (K.faults sink.new)) Status.Ok result }
{
    match configs_text(alloc) {
        Ok(text) => finish(sink, Status::Ok, text.as_slice()),
        Err(_) => Status::NoMemory,
    }
}

/// Writes the trace that a number of lines, a number of threads and a seed generate.
fn tell_generated<K: Sink>(
    alloc: Global,
    sink: &mut K,
    lines: u64,
    threads: u32,
    seed: u64,
) -> Status
    requires lines { lines ≤ 90000 }
    requires some { 0 < threads }
    requires few { threads ≤ 16 }
    ensures wrote { WroteIfMade (K.taken sink.old) (generated lines threads seed) (K.taken sink.new) (HasRisen (K.faults sink.old) (K.faults sink.new)) Status.Ok result }
{
    match generate(alloc, lines, threads, seed) {
        Ok(text) => finish(sink, Status::Ok, text.as_slice()),
        Err(_) => Status::NoMemory,
    }
}

/// Plays a trace by turns, and writes what is said to it.
fn tell_run<K: Sink>(alloc: Global, sink: &mut K, trace: &Trace) -> Status
    ensures trace { IsTrace trace.now }
    ensures wrote { WroteIfMade (K.taken sink.old) (run_answer trace.now).text (K.taken sink.new) (HasRisen (K.faults sink.old) (K.faults sink.new)) (run_answer trace.now).status result }
{
    trace.in_order();
    match run_answer(alloc, trace) {
        Ok(answer) => finish(sink, answer.status, answer.text.as_slice()),
        Err(_) => Status::NoMemory,
    }
}

/// Reads a source and answers it.
fn respond<S: Source, K: Sink>(alloc: Global, source: &mut S, sink: &mut K) -> Status
    ensures says { Says (Some Command.Serial) (S.left source.old) (S.left source.new) (HasRisen (S.faults source.old) (S.faults source.new)) (K.taken sink.old) (K.taken sink.new) (HasRisen (K.faults sink.old) (K.faults sink.new)) result }
    ensures memory { result ≡ Status.NoMemory → WantsMemory (Some Command.Serial) (S.left source.old) (S.left source.new) (S.faults source.old) (S.faults source.new) }
    ensures headline { result ≡ Status.Ok → IsHeadline (Some Command.Serial) (S.left source.old) (S.left source.new) (K.taken sink.old) (K.taken sink.new) }
    ensures stalled { result ≡ Status.Stalled → IsStalledHeadline (Some Command.Serial) (S.left source.old) (S.left source.new) (K.taken sink.old) (K.taken sink.new) }
{
    match read_trace(alloc, source) {
        Ok(trace) => tell_run(alloc, sink, &trace),
        Err(error) => refuse(sink, &error),
    }
}

/// Plays a trace by turns, and writes its frames on a screen of these sides.
fn tell_frames<K: Sink>(
    alloc: Global,
    sink: &mut K,
    width: u32,
    height: u32,
    trace: &Trace,
) -> Status
    requires wide { (0 < width) × (width ≤ 2048) }
    requires high { (0 < height) × (height ≤ 2048) }
    ensures trace { IsTrace trace.now }
    ensures wrote { WroteIfMade (K.taken sink.old) (run_frames width height trace.now).text (K.taken sink.new) (HasRisen (K.faults sink.old) (K.faults sink.new)) (run_frames width height trace.now).status result }
{
    trace.in_order();
    match run_frames(alloc, width, height, trace) {
        Ok(answer) => finish(sink, answer.status, answer.text.as_slice()),
        Err(_) => Status::NoMemory,
    }
}

/// Reads a source, and answers the frames of its trace.
fn respond_frames<S: Source, K: Sink>(
    alloc: Global,
    source: &mut S,
    sink: &mut K,
    width: u32,
    height: u32,
) -> Status
    requires wide { (0 < width) × (width ≤ 2048) }
    requires high { (0 < height) × (height ≤ 2048) }
    ensures says { Says (Some (Command.Compose width height)) (S.left source.old) (S.left source.new) (HasRisen (S.faults source.old) (S.faults source.new)) (K.taken sink.old) (K.taken sink.new) (HasRisen (K.faults sink.old) (K.faults sink.new)) result }
    ensures memory { result ≡ Status.NoMemory → WantsMemory (Some (Command.Compose width height)) (S.left source.old) (S.left source.new) (S.faults source.old) (S.faults source.new) }
    ensures headline { result ≡ Status.Ok → IsHeadline (Some (Command.Compose width height)) (S.left source.old) (S.left source.new) (K.taken sink.old) (K.taken sink.new) }
    ensures stalled { result ≡ Status.Stalled → IsStalledHeadline (Some (Command.Compose width height)) (S.left source.old) (S.left source.new) (K.taken sink.old) (K.taken sink.new) }
{
    match read_trace(alloc, source) {
        Ok(trace) => tell_frames(alloc, sink, width, height, &trace),
        Err(error) => refuse(sink, &error),
    }
}

/// Plays a trace by turns, and writes its races.
fn tell_races<K: Sink>(alloc: Global, sink: &mut K, trace: &Trace) -> Status
    ensures trace { IsTrace trace.now }
    ensures wrote { WroteRaces trace.now (K.taken sink.old) (K.taken sink.new) (HasRisen (K.faults sink.old) (K.faults sink.new)) result }
{
    trace.in_order();
    match run_races(alloc, trace) {
        Ok(answer) => finish(sink, answer.status, answer.text.as_slice()),
        Err(_) => Status::NoMemory,
    }
}

/// Reads a source, and answers the races of its trace.
fn respond_races<S: Source, K: Sink>(alloc: Global, source: &mut S, sink: &mut K) -> Status
    ensures says { Says (Some Command.Races) (S.left source.old) (S.left source.new) (HasRisen (S.faults source.old) (S.faults source.new)) (K.taken sink.old) (K.taken sink.new) (HasRisen (K.faults sink.old) (K.faults sink.new)) result }
    ensures memory { result ≡ Status.NoMemory → WantsMemory (Some Command.Races) (S.left source.old) (S.left source.new) (S.faults source.old) (S.faults source.new) }
    ensures headline { result ≡ Status.Ok → IsHeadline (Some Command.Races) (S.left source.old) (S.left source.new) (K.taken sink.old) (K.taken sink.new) }
    ensures stalled { result ≡ Status.Stalled → IsStalledHeadline (Some Command.Races) (S.left source.old) (S.left source.new) (K.taken sink.old) (K.taken sink.new) }
{
    match read_short_trace(alloc, source) {
        Ok(trace) => tell_races(alloc, sink, &trace),
        Err(error) => refuse(sink, &error),
    }
}

/// Holds a recording against its trace, and writes what is said to it.
fn tell_claim<K: Sink>(alloc: Global, sink: &mut K, claim: &Claim) -> Status
    ensures trace { IsTrace claim.now.trace }
    ensures wrote { WroteIfMade (K.taken sink.old) (claim_answer claim.now).text (K.taken sink.new) (HasRisen (K.faults sink.old) (K.faults sink.new)) (claim_answer claim.now).status result }
{
    claim.trace.in_order();
    match claim_answer(alloc, claim) {
        Ok(answer) => finish(sink, answer.status, answer.text.as_slice()),
        Err(_) => Status::NoMemory,
    }
}

/// Reads a source, and answers the recording that stands there behind its trace.
fn respond_claim<S: Source, K: Sink>(alloc: Global, source: &mut S, sink: &mut K) -> Status
    ensures says { Says (Some Command.Check) (S.left source.old) (S.left source.new) (HasRisen (S.faults source.old) (S.faults source.new)) (K.taken sink.old) (K.taken sink.new) (HasRisen (K.faults sink.old) (K.faults sink.new)) result }
    ensures memory { result ≡ Status.NoMemory → WantsMemory (Some Command.Check) (S.left source.old) (S.left source.new) (S.faults source.old) (S.faults source.new) }
    ensures headline { result ≡ Status.Ok → IsHeadline (Some Command.Check) (S.left source.old) (S.left source.new) (K.taken sink.old) (K.taken sink.new) }
{
    match read_claim(alloc, source) {
        Ok(claim) => tell_claim(alloc, sink, &claim),
        Err(error) => refuse(sink, &error),
    }
}

/// Writes the trace that draws a scene.
fn tell_scene<K: Sink>(alloc: Global, sink: &mut K, scene: &Scene) -> Status
    ensures trace { trace (lines.scene_text scene.now) ≡ Spelt (lines.trace_of (calls_of scene.now)) }
    ensures picture { Draws scene.now (calls_of scene.now) }
    ensures wrote { WroteIfMade (K.taken sink.old) (lines.scene_text scene.now) (K.taken sink.new) (HasRisen (K.faults sink.old) (K.faults sink.new)) Status.Ok result }
{
    // What the text spells, and what its calls leave, is true of each scene, and the headline builds on it.
    calls_draw(scene);
    text_is_read(scene);
    match scene_text(alloc, scene) {
        Ok(text) => finish(sink, Status::Ok, text.as_slice()),
        Err(_) => Status::NoMemory,
    }
}

/// Reads a source, and answers the trace that draws its scene.
fn respond_scene<S: Source, K: Sink>(alloc: Global, source: &mut S, sink: &mut K) -> Status
    ensures says { Says (Some Command.Scene) (S.left source.old) (S.left source.new) (HasRisen (S.faults source.old) (S.faults source.new)) (K.taken sink.old) (K.taken sink.new) (HasRisen (K.faults sink.old) (K.faults sink.new)) result }
    ensures memory { result ≡ Status.NoMemory → WantsMemory (Some Command.Scene) (S.left source.old) (S.left source.new) (S.faults source.old) (S.faults source.new) }
    ensures headline { result ≡ Status.Ok → IsHeadline (Some Command.Scene) (S.left source.old) (S.left source.new) (K.taken sink.old) (K.taken sink.new) }
{
    match read_scene(alloc, source) {
        Ok(scene) => tell_scene(alloc, sink, &scene),
        Err(error) => refuse(sink, &error),
    }
}

/// Does the command that the words name. Where a run by turns stalls, `serial`, `compose` and `races` write the lines at which threads wait.
///
/// - `serial` reads a trace from the source, and writes the recording of its run by turns to the sink.
/// - `check` reads a trace and a recording behind it, and writes whether that is the recording of one of the trace's runs to its end, or where it first differs.
/// - `compose` reads a trace, and writes a line for each frame of a screen of its sides, on which the trace's windows are stacked.
/// - `races` reads a trace of at most 2,000 body lines, and writes which of its calls touch one thing though nothing orders them.
/// - `scene` reads a scene, and writes the trace whose calls draw it.
/// - `configs` reads nothing, and writes the eight configs, a line for each; `gen` too, and writes the trace that its numbers generate.
///
/// `play` is no command here, since it starts threads: `top` knows it.
///
/// All output is made before the first write. A write that fails gives `WriteFault` in place of every other status. Memory is wanted only to read an input within the limit and to play it, and for the texts of commands that read nothing.
pub fn plain<S: Source, K: Sink>(
    alloc: Global,
    words: &[Text],
    source: &mut S,
    sink: &mut K,
) -> Status
    ensures says { Says (plain_command_of words.now) (S.left source.old) (S.left source.new) (HasRisen (S.faults source.old) (S.faults source.new)) (K.taken sink.old) (K.taken sink.new) (HasRisen (K.faults sink.old) (K.faults sink.new)) result }
    ensures memory { result ≡ Status.NoMemory → WantsMemory (plain_command_of words.now) (S.left source.old) (S.left source.new) (S.faults source.old) (S.faults source.new) }
    ensures unread { IsUnread (plain_command_of words.now) (S.left source.old) (S.left source.new) (S.faults source.old) (S.faults source.new) }
    ensures headline { result ≡ Status.Ok → IsHeadline (plain_command_of words.now) (S.left source.old) (S.left source.new) (K.taken sink.old) (K.taken sink.new) }
    ensures stalled { result ≡ Status.Stalled → IsStalledHeadline (plain_command_of words.now) (S.left source.old) (S.left source.new) (K.taken sink.old) (K.taken sink.new) }
    ensures whole { IsWhole (plain_command_of words.now) (S.left source.old) (HasRisen (S.faults source.old) (S.faults source.new)) (HasRisen (K.faults sink.old) (K.faults sink.new)) result }
{
    match command_of(words) {
        Some(Command::Serial) => respond(alloc, source, sink),
        Some(Command::Check) => respond_claim(alloc, source, sink),
        Some(Command::Configs) => tell_configs(alloc, sink),
        Some(
            Command::Generate {
                lines,
                threads,
                seed,
            },
        ) => tell_generated(alloc, sink, lines, threads, seed),
        Some(Command::Compose { width, height }) => {
            respond_frames(alloc, source, sink, width, height)
        }
        Some(Command::Scene) => respond_scene(alloc, source, sink),
        Some(Command::Races) => respond_races(alloc, source, sink),
        Some(Command::Play { .. }) | None => finish(sink, Status::Usage, USAGE),
    }
}
