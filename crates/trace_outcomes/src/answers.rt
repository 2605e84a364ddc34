//! What a history answers.
ghost use Rattle.std.specs.Prelude.{◌≡◌, ◌++◌, map, option_copied, IfOk, OnOk};
ghost use Rattle.trace_model.specs.Resolve.{answer_of, answers};
ghost use Rattle.trace_model.specs.Recording.{outcome_text, bytes_text};
ghost use Rattle.trace_session.specs.Runs.{StandBehind};
ghost use Rattle.trace_outcomes.specs.Outcomes.{makes_handle, answers_handle, is_value, made_here, maker, handle_text, value_text, reply_text, answer_text, outcome_of};

use crate::outcomes::Outcome;
use call_table::{AnswerSort, egl_answers};
use driver_core::Driver;
use egl_calls::{
    Bytes, Entry, Journal, Kind, List, NoMemory, Outcome as Answered, Reply, Text, is_done,
    is_waiting,
};
use journal_text::texts::{put_byte, put_decimal, put_number, put_text};
use journal_text::{put_hex, put_list, rest};
use std::alloc::Global;
use trace_reader::{Line, Trace};
use trace_session::Session;

pub fn makes_handle(kind: Kind) -> bool
    ensures { result ≡ makes_handle kind }
{
    match kind {
        Kind::Egl(kind) => matches!(egl_answers(kind), AnswerSort::Makes(_)),
        _ => false,
    }
}

pub fn answers_handle(kind: Kind) -> bool
    ensures { result ≡ answers_handle kind }
{
    match kind {
        Kind::Egl(kind) => matches!(
            egl_answers(kind),
            AnswerSort::Makes(_) | AnswerSort::Currents(_)
        ),
        _ => false,
    }
}

/// Whether an entry answers the line of a thread with this number.
fn is_answer(entry: &Entry, thread: u32, number: u64) -> bool
    ensures { result ≡ answers thread number entry.now }
{
    entry.thread == thread && entry.mark == number && !is_waiting(entry.reply.outcome)
}

/// The reply of the last entry that answers it.
fn answer_of<'a>(entries: &'a [Entry], thread: u32, number: u64) -> Option<&'a Reply>
    ensures { option_copied result ≡ answer_of entries.now thread number }
{
    let mut found = None;
    'each: for entry in entries {
        if is_answer(entry, thread, number) {
            found = Some(&entry.reply);
        }
    }
    found
}

/// Whether a call was carried out, with this value.
fn is_value(handle: i64, answer: Option<&Reply>) -> bool
    ensures { result ≡ is_value handle (option_copied answer.entry) }
{
    match answer {
        Some(reply) => is_done(reply.outcome) && reply.value == handle,
        None => false,
    }
}

fn made_here(entries: &[Entry], handle: i64, line: &Line) -> bool
    ensures { result ≡ made_here entries.now handle line.now }
{
    makes_handle(line.call.kind()) && is_value(handle, answer_of(entries, line.thread, line.number))
}

/// The line that made a handle.
fn maker<'a>(lines: &'a [Line], entries: &[Entry], handle: i64) -> Option<&'a Line>
    ensures { option_copied result ≡ maker lines.now entries.now handle }
{
    'each: for line in lines {
        if made_here(entries, handle, line) {
            return Some(line);
        }
    }
    None
}

fn put_handle(out: &mut Bytes, handle: i64, maker: Option<&Line>) -> Result<(), NoMemory>
    ensures { OnOk result (out.new ≡ out.old ++ handle_text handle (option_copied maker.entry)) }
{
    match maker {
        Some(line) => {
            put_byte(out, b'@')?;
            put_decimal(out, line.number)
        }
        None => put_number(out, handle),
    }
}

#[tactic(auto, unfolding(crate::specs::Outcomes::value_text))]
fn put_value(
    out: &mut Bytes,
    lines: &[Line],
    entries: &[Entry],
    kind: Kind,
    reply: &Reply,
) -> Result<(), NoMemory>
    ensures { OnOk result (out.new ≡ out.old ++ value_text lines.now entries.now kind reply.now) }
{
    if answers_handle(kind) && is_done(reply.outcome) {
        put_handle(out, reply.value, maker(lines, entries, reply.value))
    } else {
        put_number(out, reply.value)
    }
}

#[tactic(auto, unfolding(trace_model::specs::Recording::outcome_text))]
fn put_outcome(out: &mut Bytes, outcome: Answered) -> Result<(), NoMemory>
    ensures { OnOk result (out.new ≡ out.old ++ outcome_text outcome) }
{
    match outcome {
        Answered::Done => put_text(out, "ok"),
        Answered::Egl(error) => put_number(out, i64::from(error.code())),
        Answered::Gl(error) => put_number(out, i64::from(error.code())),
        Answered::Waiting => put_text(out, "waiting"),
        Answered::InWait | Answered::NoWait => Ok(()),
    }
}

#[tactic(auto, unfolding(trace_model::specs::Recording::bytes_text))]
fn put_bytes(out: &mut Bytes, bytes: &[u8]) -> Result<(), NoMemory>
    ensures { OnOk result (out.new ≡ out.old ++ bytes_text bytes.now) }
{
    match bytes {
        [] => put_byte(out, b'-'),
        [_, ..] => put_hex(out, bytes),
    }
}

#[tactic(auto, unfolding(crate::specs::Outcomes::reply_text))]
fn put_reply(
    out: &mut Bytes,
    lines: &[Line],
    entries: &[Entry],
    kind: Kind,
    reply: &Reply,
) -> Result<(), NoMemory>
    ensures { OnOk result (out.new ≡ out.old ++ reply_text lines.now entries.now kind reply.now) }
{
    put_outcome(out, reply.outcome)?;
    put_byte(out, b' ')?;
    put_value(out, lines, entries, kind, reply)?;
    put_byte(out, b' ')?;
    put_list(out, reply.list.as_slice())?;
    put_byte(out, b' ')?;
    put_bytes(out, reply.bytes.as_slice())
}

/// What a line answers.
#[tactic(auto, unfolding(crate::specs::Outcomes::answer_text))]
fn answer_text(
    alloc: Global,
    lines: &[Line],
    entries: &[Entry],
    line: &Line,
) -> Result<Text, NoMemory>
    ensures { IfOk result (λ x. x ≡ answer_text lines.now entries.now line.now) }
{
    let mut text = Text::new(alloc);
    match answer_of(entries, line.thread, line.number) {
        Some(reply) => put_reply(&mut text, lines, entries, line.call.kind(), reply)?,
        None => put_text(&mut text, "none")?,
    }
    Ok(text)
}

/// What each line answers.
fn answers(alloc: Global, lines: &[Line], entries: &[Entry]) -> Result<Vec<Text>, NoMemory>
    ensures { IfOk result (λ v. v.items ≡ map (answer_text lines.now entries.now) lines.now) }
{
    let mut texts = Vec::new(alloc);
    'each: for line in lines {
        let Ok(()) = texts.push(answer_text(alloc, lines, entries, line)?) else {
            return Err(NoMemory);
        };
    }
    Ok(texts)
}

/// The numbers of the lines in the order of the entries.
fn order(alloc: Global, entries: &[Entry]) -> Result<List<u64>, NoMemory>
    ensures { IfOk result (λ l. l ≡ map (λ e. e.mark) entries.now) }
{
    let mut numbers = List::new(alloc);
    'each: for entry in entries {
        numbers.push(entry.mark)?;
    }
    Ok(numbers)
}

/// The outcome of a history.
#[tactic(auto, unfolding(crate::specs::Outcomes::outcome_of))]
pub fn outcome_of(
    alloc: Global,
    trace: &Trace,
    driver: &Driver,
    session: &Session,
    journal: &Journal,
) -> Result<Outcome, NoMemory>
    requires trace { session.now.trace ≡ trace.now }
    requires behind { StandBehind journal.now.entries driver.now.state session.now }
    ensures { IfOk result (λ o. o ≡ outcome_of trace.now journal.now.entries) }
{
    let lines = trace.lines();
    let entries = journal.as_slice();
    Ok(Outcome::new(
        answers(alloc, lines, entries)?,
        rest(alloc, driver)?,
        order(alloc, entries)?,
        session.is_complete(),
    ))
}
