//! The races of a run: which of its calls touch one thing though nothing orders them.
ghost use Rattle.std.specs.Prelude.{◌≡◌, ◌<◌, ◌++◌, All, slice_get, IfOk, OnOk};
ghost use Rattle.egl_cli.specs.Answers.{IsJournalRaces, IsRacesAnswer};
ghost use Rattle.egl_cli.specs.RaceLines.{entry_place, race_line, races_text};

use crate::answers::{Answer, with_stalled};
use crate::places::put_place;
use driver_core::Run;
use egl_calls::{Bytes, Entry, NoMemory};
use journal_text::texts::{put_decimal, put_text};
use race_report::{Pair, report};
use std::alloc::Global;
use trace_reader::Trace;
use trace_session::{RunError, run_serial};

/// The thread and the line of the entry at a place.
fn put_entry_place(out: &mut Bytes, entries: &[Entry], place: u64) -> Result<(), NoMemory>
    ensures { OnOk result (out.new ≡ out.old ++ entry_place (slice_get entries.now place)) }
{
    let Some(entry) = entries.get(place as usize) else {
        return Ok(());
    };
    put_place(out, entry.thread, entry.mark)
}

/// The line of a pair.
#[tactic(auto, unfolding(crate::specs::RaceLines::race_line))]
fn put_race(out: &mut Bytes, entries: &[Entry], pair: Pair) -> Result<(), NoMemory>
    ensures { OnOk result (out.new ≡ out.old ++ race_line entries.now pair) }
{
    put_text(out, "race ")?;
    put_entry_place(out, entries, pair.first)?;
    put_text(out, " ")?;
    put_entry_place(out, entries, pair.second)?;
    put_text(out, "\n")
}

/// The races of a journal: how many there are, and a line for each.
#[tactic(auto, unfolding(crate::specs::RaceLines::races_text))]
fn races_text(alloc: Global, entries: &[Entry], pairs: &[Pair]) -> Result<Bytes, NoMemory>
    ensures { IfOk result (λ b. b ≡ races_text entries.now pairs.now) }
{
    let mut out = Bytes::new(alloc);
    put_text(&mut out, "races ")?;
    put_decimal(&mut out, pairs.len() as u64)?;
    put_text(&mut out, "\n")?;
    'each: for pair in pairs {
        put_race(&mut out, entries, *pair)?;
    }
    put_text(&mut out, "end\n")?;
    Ok(out)
}

/// The races of a run that came to its end, or stalled.
fn journal_races(alloc: Global, trace: &Trace, run: &Run, stalled: bool) -> Result<Answer, NoMemory>
    requires { All (λ e. e.thread < trace.now.threads) run.now.journal.entries }
    ensures { IfOk result (IsJournalRaces trace.now run.now.journal.entries stalled) }
{
    let pairs = report(alloc, trace, run)?;
    let text = races_text(alloc, run.journal.as_slice(), pairs.as_slice())?;
    with_stalled(alloc, text, trace, &run.journal, stalled)
}

/// The races of a trace that is played by turns.
pub fn run_races(alloc: Global, trace: &Trace) -> Result<Answer, NoMemory>
    ensures { IfOk result (IsRacesAnswer trace.now) }
{
    // Each entry's thread is one of the trace.
    trace.in_order();
    match run_serial(alloc, trace) {
        Ok(run) => journal_races(alloc, trace, &run, false),
        Err(RunError::Stalled(run)) => journal_races(alloc, trace, &run, true),
        Err(RunError::NoMemory) => Err(NoMemory),
    }
}
