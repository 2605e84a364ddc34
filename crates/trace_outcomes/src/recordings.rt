//! The outcome of a recording.
ghost use Rattle.std.specs.Prelude.{◌≡◌, ◌≤◌, ◌<◌, ◌+◌, ◌^◌, ◌∷◌, [], List, length, map, Some, None, if◌then◌else◌, IfOk, IfSome, MatchOption, OnOk};
ghost use Rattle.egl_calls.specs.declared.entries.Entry.{Entry as AnEntry};
ghost use Rattle.trace_session.specs.Runs.{StandBehind};
ghost use Rattle.journal_text.specs.Written.{line_of_entry};
ghost use Rattle.trace_check.specs.Verdicts.{behind_entries};
ghost use Rattle.trace_outcomes.specs.Outcomes.{outcomes};
ghost use Rattle.trace_outcomes.specs.Recordings.{entry_count, told_lines, walked, are_same, is_holding, is_recorded, recorded_outcome, place_among, recorded_place};

use crate::answers::outcome_of;
use crate::histories::go_on;
use crate::outcomes::Outcome;
use crate::told_entries::told_lines;
use driver_core::Driver;
use egl_calls::{Entry, Journal, NoMemory, Text};
use journal_text::{RecordedLine, Recording, entry_line};
use std::alloc::Global;
use trace_check::{Verdict, behind_entries};
use trace_reader::{Line, Trace};
use trace_session::{Chains, Session, driver_of};

/// How many lines of entries stand in front.
fn entry_count(lines: &[RecordedLine]) -> usize
    ensures count { result ≡ entry_count lines.now }
    ensures within { result ≤ length lines.now }
{
    let mut count = 0;
    'each: for line in lines {
        if line.thread.is_none() {
            return count;
        }
        count += 1;
    }
    count
}

/// The lines of a journal's entries.
fn lines_of(alloc: Global, entries: &[Entry]) -> Result<Vec<RecordedLine>, NoMemory>
    ensures { IfOk result (λ v. v.items ≡ map line_of_entry entries.now) }
{
    let mut lines = Vec::new(alloc);
    'each: for entry in entries {
        let line = RecordedLine {
            text: entry_line(alloc, entry)?,
            thread: Some(entry.thread),
        };
        let Ok(()) = lines.push(line) else {
            return Err(NoMemory);
        };
    }
    Ok(lines)
}

fn are_same(texts: &[Text], others: &[Text]) -> bool
    ensures { result ≡ are_same texts.now others.now }
{
    let mut left = texts;
    let mut right = others;
    'each: while let [text, texts_behind @ ..] = left {
        match right {
            [other, others_behind @ ..] => {
                if text.as_slice() != other.as_slice() {
                    return false;
                }
                left = texts_behind;
                right = others_behind;
            }
            [] => return false,
        }
    }
    right.is_empty()
}

/// The first line, and those behind it.
fn cut_line(lines: &[RecordedLine]) -> Option<(&RecordedLine, &[RecordedLine])>
    ensures first { MatchOption result (lines.now ≡ []) (λ cut. lines.now ≡ cut.0.now ∷ cut.1.now) }
    ensures shorter { IfSome result (λ cut. length cut.1.now < length lines.now) }
{
    match lines {
        [first, more @ ..] => Some((first, more)),
        [] => None,
    }
}

/// Plays the turns of the threads of entries, and tells whether each of them could go on.
#[tactic(auto, using(crate::proofs::RecordedLaws::walk_stops, crate::proofs::RecordedLaws::no_walk))]
fn walk(
    alloc: Global,
    driver: &mut Driver,
    session: &mut Session,
    journal: &mut Journal,
    entries: &[RecordedLine],
) -> Result<bool, NoMemory>
    requires made { session.old.trace.threads ≤ driver.old.made }
    requires behind { StandBehind journal.old.entries driver.old.state session.old }
    ensures journal { IfOk result (λ goes. walked session.old.trace journal.old.entries entries.now ≡ (if goes then Some journal.new.entries else None)) }
    ensures behind { OnOk result (StandBehind journal.new.entries driver.new.state session.new) }
    ensures trace { OnOk result (session.new.trace ≡ session.old.trace) }
{
    let mut rest = entries;
    'each: while let Some((entry, more)) = cut_line(rest) {
        let Some(thread) = entry.thread else {
            return Ok(false);
        };
        let could = go_on(alloc, driver, session, journal, thread)?;
        if !could {
            return Ok(false);
        }
        rest = more;
    }
    Ok(true)
}

/// Whether entries are a journal's but for the numbers of handles.
fn are_told(
    alloc: Global,
    lines: &[Line],
    entries: &[RecordedLine],
    journal: &[Entry],
) -> Result<bool, NoMemory>
    ensures { IfOk result (λ b. b ≡ are_same (told_lines lines.now entries.now) (told_lines lines.now (map line_of_entry journal.now))) }
{
    let wanted = lines_of(alloc, journal)?;
    let told = told_lines(alloc, lines, entries)?;
    let wanted = told_lines(alloc, lines, wanted.as_slice())?;
    Ok(are_same(told.as_slice(), wanted.as_slice()))
}

/// Whether the lines behind the entries are those behind a journal.
fn rest_holds(
    alloc: Global,
    driver: &Driver,
    session: &Session,
    place: u64,
    rest: &[RecordedLine],
) -> Result<bool, NoMemory>
    requires { place + length rest.now < 2 ^ 64 }
    ensures { (journal : List AnEntry) → StandBehind journal driver.now.state session.now → IfOk result (λ b. b ≡ is_holding (behind_entries session.now.trace journal place rest.now)) }
{
    match behind_entries(alloc, driver, session, place, rest)? {
        Verdict::Holds => Ok(true),
        Verdict::Differs { .. } | Verdict::Incomplete { .. } => Ok(false),
    }
}

/// Whether a recording is that of a journal but for the numbers of handles.
#[tactic(auto, unfolding(crate::specs::Recordings::is_recorded))]
fn is_recorded(
    alloc: Global,
    trace: &Trace,
    driver: &Driver,
    session: &Session,
    journal: &Journal,
    lines: &[RecordedLine],
) -> Result<bool, NoMemory>
    requires trace { session.now.trace ≡ trace.now }
    requires behind { StandBehind journal.now.entries driver.now.state session.now }
    ensures { IfOk result (λ b. b ≡ is_recorded trace.now lines.now journal.now.entries) }
{
    let count = entry_count(lines);
    let (entries, rest) = lines.split_at(count);
    let told = are_told(alloc, trace.lines(), entries, journal.as_slice())?;
    let holds = rest_holds(alloc, driver, session, 1 + count as u64, rest)?;
    Ok(told && holds)
}

/// The outcome of a recording: that of the journal that plays the trace in the order of its entries, where the recording is that journal's but for the numbers of handles.
#[tactic(auto, unfolding(crate::specs::Recordings::recorded_outcome))]
pub fn recorded_outcome(
    alloc: Global,
    trace: &Trace,
    recording: &Recording,
) -> Result<Option<Outcome>, NoMemory>
    ensures { IfOk result (λ o. o ≡ recorded_outcome trace.now recording.now) }
{
    let mut driver = driver_of(alloc, trace)?;
    let chains = Chains::new(alloc, trace)?;
    let mut session = Session::new(alloc, trace, &chains)?;
    let mut journal = Journal::new(alloc);
    let (entries, _) = recording.lines().split_at(entry_count(recording.lines()));
    if !walk(alloc, &mut driver, &mut session, &mut journal, entries)? {
        return Ok(None);
    }
    if !is_recorded(alloc, trace, &driver, &session, &journal, recording.lines())? {
        return Ok(None);
    }
    let outcome = outcome_of(alloc, trace, &driver, &session, &journal)?;
    Ok(Some(outcome))
}

/// The place of an outcome among others, counted from 1, by the key that it has.
#[tactic(auto, unfolding(crate::specs::Recordings::place_among))]
fn place_among(alloc: Global, found: &[Outcome], outcome: &Outcome) -> Result<u64, NoMemory>
    ensures { IfOk result (λ n. n ≡ place_among found.now outcome.now) }
{
    let key = outcome.key(alloc)?;
    let mut place = 1u64;
    'each: for other in found {
        if other.key(alloc)?.as_slice() == key.as_slice() {
            return Ok(place);
        }
        place += 1;
    }
    Ok(place)
}

/// Which of a trace's outcomes a recording has: its place among them, counted from 1.
#[tactic(auto, unfolding(crate::specs::Recordings::recorded_place))]
pub fn recorded_place(
    alloc: Global,
    trace: &Trace,
    found: &[Outcome],
    recording: &Recording,
) -> Result<Option<u64>, NoMemory>
    requires { found.now ≡ outcomes trace.now }
    ensures { IfOk result (λ p. p ≡ recorded_place trace.now recording.now) }
{
    match recorded_outcome(alloc, trace, recording)? {
        Some(outcome) => {
            let place = place_among(alloc, found, &outcome)?;
            Ok(Some(place))
        }
        None => Ok(None),
    }
}
