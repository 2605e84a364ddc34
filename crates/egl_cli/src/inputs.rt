//! What the program reads: a trace, a trace and a recording behind it, or a scene, or why there is none.
ghost use Rattle.std.specs.Prelude.{◌≤◌, length, IfOk, IfErr};
ghost use Rattle.egl_flow.specs.Inputs.{most_input};
ghost use Rattle.trace_reader.specs.Grammar.{trace};
ghost use Rattle.trace_reader.specs.Reading.{Gives};
ghost use Rattle.scene_reader.specs.Grammar.{scene};
ghost use Rattle.egl_cli.specs.Answers.{claimed};
ghost use Rattle.egl_cli.specs.BodyLines.{short_trace};
ghost use Rattle.egl_cli.specs.Inputs.{GivesBytes, GivesNoBytes, GivesSpelled, GivesNone};

use crate::body_lines::short_trace;
use egl_calls::Bytes;
use egl_flow::{MOST_INPUT, ReadError, Source, read_all};
use journal_text::{Recording, cut_recording, line_behind, read_slice};
use scene_reader::Scene;
use std::alloc::Global;
use trace_reader::{Reason, Trace, TraceError};

/// Why there is nothing to answer.
#[derive(Drop)]
pub enum InputError {
    /// The source failed.
    ReadFault,
    /// There are more bytes than an input may have.
    TooLong,
    /// The first line that isn't in its form, and what is wrong with it first.
    Malformed { line: u64, reason: Reason },
    NoMemory,
}

impl From<TraceError> for InputError {
    ghost use Rattle.std.specs.Prelude.{◌≡◌};
    ghost use Rattle.egl_cli.specs.Inputs.{input_error};

    ghost from_gives = { λ error e. e ≡ input_error error };

    fn from(error: TraceError) -> InputError {
        match error {
            TraceError::Malformed { line, reason } => InputError::Malformed { line, reason },
            TraceError::NoMemory => InputError::NoMemory,
        }
    }
}

/// A trace, and a recording that is said to be of one of its runs.
#[derive(Drop)]
pub struct Claim {
    pub trace: Trace,
    pub recording: Recording,
}

/// Reads a source to its end. Memory is asked for only for an input within the limit.
fn read_input<S: Source>(alloc: Global, source: &mut S) -> Result<Bytes, InputError>
    ensures bytes { IfOk result (GivesBytes (S.left source.old) (S.left source.new) (S.faults source.old) (S.faults source.new)) }
    ensures cause { IfErr result (GivesNoBytes (S.left source.old) (S.left source.new) (S.faults source.old) (S.faults source.new)) }
{
    match read_all(alloc, source, MOST_INPUT) {
        Ok(bytes) => Ok(bytes),
        Err(ReadError::ReadFault) => Err(InputError::ReadFault),
        Err(ReadError::TooLong { taken: _ }) => Err(InputError::TooLong),
        Err(ReadError::NoMemory) => Err(InputError::NoMemory),
    }
}

/// Reads a source to its end, and then the trace that its bytes spell.
#[tactic(auto, using(crate::proofs::InputLaws::no_bytes, crate::proofs::InputLaws::spells_none))]
pub fn read_trace<S: Source>(alloc: Global, source: &mut S) -> Result<Trace, InputError>
    ensures trace { IfOk result (GivesSpelled trace (S.left source.old) (S.left source.new) (S.faults source.old) (S.faults source.new)) }
    ensures cause { IfErr result (GivesNone trace (S.left source.old) (S.left source.new) (S.faults source.old) (S.faults source.new)) }
{
    let bytes = read_input(alloc, source)?;
    Ok(Trace::read(alloc, &bytes)?)
}

/// Reads a source to its end, and then the trace that its bytes spell, of at most 2,000 body lines.
#[tactic(auto, using(crate::proofs::InputLaws::no_bytes, crate::proofs::InputLaws::spells_none))]
pub fn read_short_trace<S: Source>(alloc: Global, source: &mut S) -> Result<Trace, InputError>
    ensures trace { IfOk result (GivesSpelled short_trace (S.left source.old) (S.left source.new) (S.faults source.old) (S.faults source.new)) }
    ensures cause { IfErr result (GivesNone short_trace (S.left source.old) (S.left source.new) (S.faults source.old) (S.faults source.new)) }
{
    let bytes = read_input(alloc, source)?;
    Ok(short_trace(alloc, bytes.as_slice())?)
}

/// Reads a source to its end, and then the scene that its bytes spell.
#[tactic(auto, using(crate::proofs::InputLaws::no_bytes, crate::proofs::InputLaws::spells_none))]
pub fn read_scene<S: Source>(alloc: Global, source: &mut S) -> Result<Scene, InputError>
    ensures scene { IfOk result (GivesSpelled scene (S.left source.old) (S.left source.new) (S.faults source.old) (S.faults source.new)) }
    ensures cause { IfErr result (GivesNone scene (S.left source.old) (S.left source.new) (S.faults source.old) (S.faults source.new)) }
{
    let bytes = read_input(alloc, source)?;
    Ok(Scene::read(alloc, &bytes)?)
}

/// The trace that bytes spell, and the recording behind it that begins on a line with this number.
#[tactic(auto, unfolding(crate::specs::Answers::claimed))]
fn claim_of(alloc: Global, bytes: &[u8]) -> Result<Claim, TraceError>
    requires { length bytes.now ≤ most_input }
    ensures { Gives (λ c. c) result (claimed bytes.now) }
{
    let Some(cut) = cut_recording(bytes) else {
        Trace::read_slice(alloc, bytes)?;
        return Err(TraceError::Malformed {
            line: line_behind(bytes),
            reason: Reason::Entry,
        });
    };
    let (front, rest) = bytes.split_at(cut.front as usize);
    let trace = Trace::read_slice(alloc, front)?;
    let recording = read_slice(alloc, rest, cut.line)?;
    Ok(Claim { trace, recording })
}

/// Reads a source to its end, and then the trace that its bytes spell, and the recording behind it.
#[tactic(auto, using(crate::proofs::InputLaws::no_bytes, crate::proofs::InputLaws::spells_none))]
pub fn read_claim<S: Source>(alloc: Global, source: &mut S) -> Result<Claim, InputError>
    ensures claim { IfOk result (GivesSpelled claimed (S.left source.old) (S.left source.new) (S.faults source.old) (S.faults source.new)) }
    ensures cause { IfErr result (GivesNone claimed (S.left source.old) (S.left source.new) (S.faults source.old) (S.faults source.new)) }
{
    let bytes = read_input(alloc, source)?;
    Ok(claim_of(alloc, bytes.as_slice())?)
}
