//! The text that is made of an input.
ghost use Rattle.std.specs.Prelude.{◌≡◌, ◌≤◌, ◌<◌, length, take, drop, All, IfOk, OnOk};
ghost use Rattle.egl_flow.specs.Inputs.{most_input};
ghost use Rattle.trace_reader.specs.Grammar.{trace};
ghost use Rattle.trace_model.specs.Serial.{serial};
ghost use Rattle.trace_model.specs.Stalled.{IsComplete, IsStalled};
ghost use Rattle.journal_text.specs.Readings.{recorded};
ghost use Rattle.egl_model.specs.History.{replay_from};
ghost use Rattle.egl_model.specs.Step.{step};
ghost use Rattle.egl_explain.specs.Formats.{IsOf};
ghost use Rattle.json_lines.specs.Lines.{AreLines};
ghost use Rattle.egl_explain.specs.Statuses.{recorded_status, run_status, status_of, status_or_defect};

use crate::differences::put_judgement;
use crate::entry_lines::shows_census;
use crate::json_objects::status_object;
use crate::judging::play_told;
use crate::object_words::Inventory;
use crate::objects::{Birth, note_births, put_objects};
use crate::pages::{Format, Look, Page};
use crate::races::put_races;
use crate::source_lines::{is_returned, line_at, lines_of, says_nothing};
use crate::telling::{Defective, Teller};
use crate::waits::put_waits;
use driver_core::{Driver, Run};
use egl_calls::{Entry, NoMemory};
use egl_flow::{Answer, Status};
use journal_text::{Cut, cut_recording, read_slice};
use json_lines::JsonLines;
use std::alloc::Global;
use trace_reader::{Trace, TraceError};
use trace_session::{Chains, RunError, Session, driver_of, run_serial};

/// How many references are looked at, about, for the objects that are told of behind calls.
const MOST_LOOKS: u64 = 100_000_000;

/// The lines behind those that were shown and in front of one that say nothing, or stand before the first call.
fn put_between<T: Teller>(teller: &mut T, lines: &[&[u8]], first: u64, shown: u64, number: u64) {
    'each: for k in shown..number {
        if k > shown && (k < first || says_nothing(line_at(lines, k))) {
            teller.comment(lines, k);
        }
    }
}

/// What there is in a driver: the census, and where few enough references were looked at before, the objects. It answers how many more may be looked at.
fn put_inventory<T: Teller>(
    alloc: Global,
    teller: &mut T,
    lines: &[&[u8]],
    driver: &Driver,
    births: &[Birth],
    left: u64,
) -> Result<u64, NoMemory> {
    teller.census(&driver.census());
    if left == 0 {
        teller.objects_later();
        return Ok(0);
    }
    let inventory = Inventory {
        driver,
        births,
        lines,
    };
    Ok(left.saturating_sub(put_objects(alloc, teller, &inventory)?))
}

/// An entry that a driver plays again: its line, and what came of it.
fn put_entry<T: Teller>(
    alloc: Global,
    teller: &mut T,
    lines: &[&[u8]],
    driver: &mut Driver,
    entry: &Entry,
) -> Result<(), NoMemory>
    requires { entry.now.thread < driver.old.made }
    ensures { OnOk result (driver.new ≡ record driver.old { state = (step driver.old.state entry.now.thread entry.now.call).state }) }
{
    let told = play_told(alloc, driver, entry.thread, &entry.call)?;
    teller.entry(lines, entry, &told.reply, &told.refusals);
    Ok(())
}

/// Each entry of a run behind its line, with the lines that say nothing where the run first passes them. A driver plays the entries again, and behind an entry tells what there is then.
fn put_entries<T: Teller>(
    alloc: Global,
    teller: &mut T,
    lines: &[&[u8]],
    first: u64,
    driver: &mut Driver,
    births: &mut Vec<Birth>,
    entries: &[Entry],
) -> Result<(), NoMemory>
    requires { All (λ e. e.thread < driver.old.made) entries.now }
    ensures { OnOk result (driver.new.state ≡ replay_from driver.old.state entries.now) }
{
    let mut shown = 0u64;
    let mut left = MOST_LOOKS;
    'each: for entry in entries {
        put_between(teller, lines, first, shown, entry.mark);
        shown = shown.max(entry.mark);
        put_entry(alloc, teller, lines, driver, entry)?;
        note_births(births, entry, driver.object_count())?;
        if shows_census(entry.call.kind) {
            left = put_inventory(alloc, teller, lines, driver, births, left)?;
        }
    }
    Ok(())
}

/// The number of the first line of a trace with a call.
fn first_call(trace: &Trace) -> u64 {
    match trace.line(0) {
        Some(line) => line.number,
        None => u64::MAX,
    }
}

/// The line at which each thread of a run waits that isn't at its end, and why.
fn put_waiting<T: Teller>(
    alloc: Global,
    teller: &mut T,
    lines: &[&[u8]],
    trace: &Trace,
    run: &Run,
    births: &[Birth],
) -> Result<(), NoMemory> {
    let chains = Chains::new(alloc, trace)?;
    let session = Session::behind(alloc, trace, &chains, &run.journal)?;
    let inventory = Inventory {
        driver: &run.driver,
        births,
        lines,
    };
    put_waits(teller, &inventory, trace, &session);
    Ok(())
}

/// The text of a run: its entries, what there is behind them, and its races. It answers where the objects come from.
fn put_run<T: Teller>(
    alloc: Global,
    teller: &mut T,
    lines: &[&[u8]],
    trace: &Trace,
    run: &Run,
) -> Result<Vec<Birth>, NoMemory>
    requires { All (λ e. e.thread < trace.now.threads) run.now.journal.entries }
{
    let mut driver = driver_of(alloc, trace)?;
    let mut births = Vec::new(alloc);
    put_entries(
        alloc,
        teller,
        lines,
        first_call(trace),
        &mut driver,
        &mut births,
        run.journal.as_slice(),
    )?;
    teller.end();
    put_inventory(alloc, teller, lines, &driver, &births, MOST_LOOKS)?;
    let inventory = Inventory {
        driver: &run.driver,
        births: births.as_slice(),
        lines,
    };
    put_races(alloc, teller, &inventory, trace, run)?;
    Ok(births)
}

/// The text of a run that came to its end.
#[tactic(auto, using(crate::proofs::StatusLaws::ended_status))]
fn put_ended<T: Teller>(
    alloc: Global,
    teller: &mut T,
    lines: &[&[u8]],
    trace: &Trace,
    run: &Run,
) -> Result<Status, NoMemory>
    requires threads { All (λ e. e.thread < trace.now.threads) run.now.journal.entries }
    requires complete { IsComplete trace.now (serial trace.now) }
    ensures { IfOk result (λ s. s ≡ run_status trace.now) }
{
    put_run(alloc, teller, lines, trace, run)?;
    Ok(Status::Ok)
}

/// The text of a run that stalled: the lines at which its threads wait stand behind it.
#[tactic(auto, using(crate::proofs::StatusLaws::stalled_run_status))]
fn put_stalled<T: Teller>(
    alloc: Global,
    teller: &mut T,
    lines: &[&[u8]],
    trace: &Trace,
    run: &Run,
) -> Result<Status, NoMemory>
    requires threads { All (λ e. e.thread < trace.now.threads) run.now.journal.entries }
    requires stalled { IsStalled trace.now (serial trace.now) }
    ensures { IfOk result (λ s. s ≡ run_status trace.now) }
{
    let births = put_run(alloc, teller, lines, trace, run)?;
    put_waiting(alloc, teller, lines, trace, run, &births)?;
    Ok(Status::Stalled)
}

/// The text of a trace that is played by turns.
fn put_trace<T: Teller>(
    alloc: Global,
    teller: &mut T,
    lines: &[&[u8]],
    trace: &Trace,
) -> Result<Status, NoMemory>
    ensures { IfOk result (λ s. s ≡ run_status trace.now) }
{
    // Each entry's thread is one of the trace.
    trace.in_order();
    match run_serial(alloc, trace) {
        Ok(run) => put_ended(alloc, teller, lines, trace, &run),
        Err(RunError::Stalled(run)) => put_stalled(alloc, teller, lines, trace, &run),
        Err(RunError::NoMemory) => Err(NoMemory),
    }
}

/// The text of the first line that isn't in its form, and whether a carriage return stands behind it.
fn put_malformed<T: Teller>(
    alloc: Global,
    teller: &mut T,
    lines: &[&[u8]],
    defective: Defective,
) -> Result<Status, NoMemory>
    ensures { IfOk result (λ s. s ≡ Status.Malformed) }
{
    teller.defect(alloc, lines, defective)?;
    Ok(Status::Malformed)
}

/// The text of bytes that spell a trace, or don't.
fn put_plain<T: Teller>(
    alloc: Global,
    teller: &mut T,
    lines: &[&[u8]],
    bytes: &[u8],
) -> Result<Status, NoMemory>
    ensures { IfOk result (λ s. s ≡ status_or_defect run_status (trace bytes.now)) }
{
    match Trace::read_slice(alloc, bytes) {
        Ok(trace) => put_trace(alloc, teller, lines, &trace),
        Err(TraceError::Malformed { line, reason }) => {
            put_malformed(
                alloc,
                teller,
                lines,
                Defective {
                    number: line,
                    reason,
                    returned: false,
                },
            )
        }
        Err(TraceError::NoMemory) => Err(NoMemory),
    }
}

/// The text of a recording behind its trace.
fn put_recorded<T: Teller>(
    alloc: Global,
    teller: &mut T,
    lines: &[&[u8]],
    trace: &Trace,
    bytes: &[u8],
    first_line: u64,
) -> Result<Status, NoMemory>
    requires { first_line < 4294967296 }
    ensures { IfOk result (λ s. s ≡ recorded_status trace.now (recorded first_line bytes.now)) }
{
    match read_slice(alloc, bytes, first_line) {
        Ok(recording) => put_judgement(alloc, teller, lines, trace, &recording),
        Err(TraceError::Malformed { line, reason }) => {
            let returned = is_returned(bytes, line.saturating_sub(first_line));
            put_malformed(
                alloc,
                teller,
                lines,
                Defective {
                    number: line,
                    reason,
                    returned,
                },
            )
        }
        Err(TraceError::NoMemory) => Err(NoMemory),
    }
}

/// The text of a trace and the recording behind it.
fn put_claim<T: Teller>(
    alloc: Global,
    teller: &mut T,
    lines: &[&[u8]],
    bytes: &[u8],
    cut: Cut,
) -> Result<Status, NoMemory>
    requires within { cut.front ≤ length bytes.now }
    requires line { cut.line < 4294967296 }
    ensures { IfOk result (λ s. s ≡ status_or_defect (λ t. recorded_status t (recorded cut.line (drop cut.front bytes.now))) (trace (take cut.front bytes.now))) }
{
    let (front, rest) = bytes.split_at(cut.front as usize);
    match Trace::read_slice(alloc, front) {
        Ok(trace) => put_recorded(alloc, teller, lines, &trace, rest, cut.line),
        Err(TraceError::Malformed { line, reason }) => {
            put_malformed(
                alloc,
                teller,
                lines,
                Defective {
                    number: line,
                    reason,
                    returned: false,
                },
            )
        }
        Err(TraceError::NoMemory) => Err(NoMemory),
    }
}

/// The text of an input.
#[tactic(auto, unfolding(crate::specs::Statuses::status_of))]
fn put_input<T: Teller>(
    alloc: Global,
    teller: &mut T,
    lines: &[&[u8]],
    bytes: &[u8],
) -> Result<Status, NoMemory>
    requires { length bytes.now ≤ most_input }
    ensures { IfOk result (λ s. s ≡ status_of bytes.now) }
{
    match cut_recording(bytes) {
        Some(cut) => put_claim(alloc, teller, lines, bytes, cut),
        None => put_plain(alloc, teller, lines, bytes),
    }
}

/// The text for people.
fn page_of(alloc: Global, bytes: &[u8], look: Look) -> Result<Answer, NoMemory>
    requires { length bytes.now ≤ most_input }
    ensures { IfOk result (λ a. a.status ≡ status_of bytes.now) }
{
    let lines = lines_of(alloc, bytes)?;
    let mut page = Page::new(alloc, look);
    let status = put_input(alloc, &mut page, &lines, bytes)?;
    Ok(Answer {
        text: page.into_text()?,
        status,
    })
}

/// The lines for programs.
fn lines_for_programs(alloc: Global, bytes: &[u8]) -> Result<Answer, NoMemory>
    requires { length bytes.now ≤ most_input }
    ensures status { IfOk result (λ a. a.status ≡ status_of bytes.now) }
    ensures lines { IfOk result (λ a. AreLines a.text) }
{
    let lines = lines_of(alloc, bytes)?;
    let mut told = JsonLines::new(alloc);
    let status = put_input(alloc, &mut told, &lines, bytes)?;
    told.put(status_object(alloc, status));
    Ok(Answer {
        text: told.into_text()?,
        status,
    })
}

/// Tells of an input: of a trace what came of each of its lines when it is played by turns, and why a call was refused; what is wrong with the first line that isn't in its form; or, of a trace with a recording behind it, where that differs, and why. The status is `Malformed` where the bytes aren't that, `Stalled` where the run stalls, `Differs` where the recording isn't the trace's, and else `Ok`. What is said to programs are lines of JSON, an object for each thing that is told.
pub fn explain(alloc: Global, bytes: &[u8], format: Format) -> Result<Answer, NoMemory>
    requires { length bytes.now ≤ most_input }
    ensures status { IfOk result (λ a. a.status ≡ status_of bytes.now) }
    ensures format { IfOk result (λ a. IsOf format a.text) }
{
    match format {
        Format::Text(look) => page_of(alloc, bytes, look),
        Format::Json => lines_for_programs(alloc, bytes),
    }
}
