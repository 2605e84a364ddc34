//! What is said to an input.
ghost use Rattle.std.specs.Prelude.{◌≡◌, ◌≤◌, ◌<◌, ◌++◌, length, None, Some, IfOk, OnOk};
ghost use Rattle.egl_flow.specs.Inputs.{most_input};
ghost use Rattle.journal_text.specs.Readings.{recorded};
ghost use Rattle.trace_outcomes.specs.Listings.{AreListed};
ghost use Rattle.egl_outcomes.specs.Answers.{defect_answer, many_answer, listed_text, listed_answer, none_text, place_head, place_text, recorded_text, recorded_status, recorded_answer, recording_answer, past_limit, trace_answer, claim_answer, cut_answer, answer};

use crate::texts::outcomes_text;
use egl_calls::{Bytes, NoMemory};
use egl_flow::{Answer, Status};
use journal_text::texts::{put_decimal, put_text};
use journal_text::{Cut, Recording, cut_recording, read_slice};
use std::alloc::Global;
use trace_outcomes::{Listing, list_outcomes, recorded_place};
use trace_reader::{Reason, Trace, TraceError};

/// How many threads and body lines a trace may have.
pub const MOST_THREADS: u32 = 8;

pub const MOST_LINES: u64 = 64;

/// A text of its own.
fn text_of(alloc: Global, text: &str) -> Result<Bytes, NoMemory>
    ensures { IfOk result (λ b. b ≡ text.now) }
{
    let mut out = Bytes::new(alloc);
    put_text(&mut out, text)?;
    Ok(out)
}

#[tactic(auto, unfolding(crate::specs::Answers::defect_answer))]
fn defect_answer(alloc: Global, line: u64, reason: Reason) -> Result<Answer, NoMemory>
    ensures { IfOk result (λ a. a ≡ defect_answer line reason) }
{
    let mut text = Bytes::new(alloc);
    put_text(&mut text, "malformed ")?;
    put_decimal(&mut text, line)?;
    put_text(&mut text, " ")?;
    put_text(&mut text, reason.name())?;
    put_text(&mut text, "\n")?;
    Ok(Answer {
        text,
        status: Status::Malformed,
    })
}

/// There are more histories than are played.
fn many_answer(alloc: Global) -> Result<Answer, NoMemory>
    ensures { IfOk result (λ a. a ≡ many_answer) }
{
    Ok(Answer {
        text: text_of(alloc, "too many histories\n")?,
        status: Status::TooLong,
    })
}

/// The outcomes that are listed of a trace.
fn listed_text(alloc: Global, trace: &Trace, listing: &Listing) -> Result<Bytes, NoMemory>
    requires { AreListed trace.now listing.now }
    ensures { IfOk result (λ b. b ≡ listed_text trace.now) }
{
    let text = outcomes_text(
        alloc,
        trace.lines(),
        listing.outcomes.as_slice(),
        listing.histories,
    )?;
    Ok(text)
}

fn text_answer(alloc: Global, trace: &Trace, listing: &Listing) -> Result<Answer, NoMemory>
    requires { AreListed trace.now listing.now }
    ensures { IfOk result (λ a. a ≡ listed_answer trace.now) }
{
    let text = listed_text(alloc, trace, listing)?;
    Ok(Answer {
        text,
        status: Status::Ok,
    })
}

/// All outcomes of a trace, where there aren't too many histories.
fn listed_answer(alloc: Global, trace: &Trace) -> Result<Answer, NoMemory>
    ensures { IfOk result (λ a. a ≡ listed_answer trace.now) }
{
    match list_outcomes(alloc, trace)? {
        Some(listing) => text_answer(alloc, trace, &listing),
        None => {
            let answer = many_answer(alloc)?;
            Ok(answer)
        }
    }
}

/// The recording has none of the outcomes.
#[tactic(auto, unfolding(crate::specs::Answers::none_text))]
fn put_none(out: &mut Bytes) -> Result<(), NoMemory>
    ensures { OnOk result (out.new ≡ out.old ++ none_text) }
{
    put_text(out, "\nthe recording has none of them\n")
}

// A function of its own: beside other texts it's too long for the search.
#[tactic(auto, unfolding(crate::specs::Answers::place_head))]
fn put_place_head(out: &mut Bytes) -> Result<(), NoMemory>
    ensures { OnOk result (out.new ≡ out.old ++ place_head) }
{
    put_text(out, "\nthe recording has outcome ")
}

/// It has the one at this place.
#[tactic(auto, unfolding(crate::specs::Answers::place_text))]
fn put_place(out: &mut Bytes, place: u64) -> Result<(), NoMemory>
    ensures { OnOk result (out.new ≡ out.old ++ place_text place) }
{
    put_place_head(out)?;
    put_decimal(out, place)?;
    put_text(out, "\n")
}

/// Which outcome a recording has.
fn put_recorded(out: &mut Bytes, place: Option<u64>) -> Result<(), NoMemory>
    ensures { OnOk result (out.new ≡ out.old ++ recorded_text place) }
{
    match place {
        Some(place) => put_place(out, place),
        None => put_none(out),
    }
}

fn recorded_status(place: Option<u64>) -> Status
    ensures { result ≡ recorded_status place }
{
    match place {
        Some(_) => Status::Ok,
        None => Status::Differs,
    }
}

/// The outcomes that are listed of a trace, and which of them a recording has.
fn placed_answer(
    alloc: Global,
    trace: &Trace,
    listing: &Listing,
    recording: &Recording,
) -> Result<Answer, NoMemory>
    requires { AreListed trace.now listing.now }
    ensures { IfOk result (λ a. a ≡ recorded_answer trace.now recording.now) }
{
    let place = recorded_place(alloc, trace, listing.outcomes.as_slice(), recording)?;
    let mut text = listed_text(alloc, trace, listing)?;
    put_recorded(&mut text, place)?;
    Ok(Answer {
        text,
        status: recorded_status(place),
    })
}

fn recorded_answer(alloc: Global, trace: &Trace, recording: &Recording) -> Result<Answer, NoMemory>
    ensures { IfOk result (λ a. a ≡ recorded_answer trace.now recording.now) }
{
    match list_outcomes(alloc, trace)? {
        Some(listing) => placed_answer(alloc, trace, &listing, recording),
        None => {
            let answer = many_answer(alloc)?;
            Ok(answer)
        }
    }
}

/// The first line past a limit.
#[tactic(auto, unfolding(crate::specs::Answers::past_limit))]
fn past_limit(trace: &Trace) -> Option<u64>
    ensures { result ≡ past_limit trace.now }
{
    if trace.threads() > MOST_THREADS {
        return Some(1);
    }
    match trace.line(MOST_LINES) {
        Some(line) => Some(line.number),
        None => None,
    }
}

fn trace_answer(alloc: Global, trace: &Trace) -> Result<Answer, NoMemory>
    ensures { IfOk result (λ a. a ≡ trace_answer trace.now) }
{
    match past_limit(trace) {
        Some(line) => defect_answer(alloc, line, Reason::Limit),
        None => listed_answer(alloc, trace),
    }
}

/// What is said to a recording behind its trace.
fn recording_answer(
    alloc: Global,
    trace: &Trace,
    bytes: &[u8],
    first_line: u64,
) -> Result<Answer, NoMemory>
    requires { first_line < 4294967296 }
    ensures { IfOk result (λ a. a ≡ recording_answer trace.now (recorded first_line bytes.now)) }
{
    match read_slice(alloc, bytes, first_line) {
        Ok(recording) => recorded_answer(alloc, trace, &recording),
        Err(TraceError::Malformed { line, reason }) => defect_answer(alloc, line, reason),
        Err(TraceError::NoMemory) => Err(NoMemory),
    }
}

/// The same, where the trace is within the limits.
fn claim_answer(
    alloc: Global,
    trace: &Trace,
    bytes: &[u8],
    first_line: u64,
) -> Result<Answer, NoMemory>
    requires { first_line < 4294967296 }
    ensures { IfOk result (λ a. a ≡ claim_answer trace.now (recorded first_line bytes.now)) }
{
    match past_limit(trace) {
        Some(line) => defect_answer(alloc, line, Reason::Limit),
        None => recording_answer(alloc, trace, bytes, first_line),
    }
}

/// What is said to a trace and the recording behind it.
fn split_answer(alloc: Global, bytes: &[u8], cut: Cut) -> Result<Answer, NoMemory>
    requires within { cut.front ≤ length bytes.now }
    requires line { cut.line < 4294967296 }
    ensures { IfOk result (λ a. a ≡ cut_answer bytes.now (Some cut)) }
{
    let (front, rest) = bytes.split_at(cut.front as usize);
    match Trace::read_slice(alloc, front) {
        Ok(trace) => claim_answer(alloc, &trace, rest, cut.line),
        Err(TraceError::Malformed { line, reason }) => defect_answer(alloc, line, reason),
        Err(TraceError::NoMemory) => Err(NoMemory),
    }
}

/// What is said to a trace alone.
fn whole_answer(alloc: Global, bytes: &[u8]) -> Result<Answer, NoMemory>
    ensures { IfOk result (λ a. a ≡ cut_answer bytes.now None) }
{
    match Trace::read_slice(alloc, bytes) {
        Ok(trace) => trace_answer(alloc, &trace),
        Err(TraceError::Malformed { line, reason }) => defect_answer(alloc, line, reason),
        Err(TraceError::NoMemory) => Err(NoMemory),
    }
}

/// What is said to bytes: every outcome of the trace that they spell, and which of them the recording behind it has, where there is one; or what is wrong with them.
#[tactic(auto, unfolding(crate::specs::Answers::answer))]
pub fn answer_bytes(alloc: Global, bytes: &[u8]) -> Result<Answer, NoMemory>
    requires { length bytes.now ≤ most_input }
    ensures { IfOk result (λ a. a ≡ answer bytes.now) }
{
    match cut_recording(bytes) {
        Some(cut) => split_answer(alloc, bytes, cut),
        None => whole_answer(alloc, bytes),
    }
}
