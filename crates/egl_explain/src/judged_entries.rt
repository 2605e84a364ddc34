//! Entries that are due beside the lines of a recording, and why they come out so.
ghost use Rattle.std.specs.Prelude.{◌≡◌, ◌≤◌, List, IfOk};
ghost use Rattle.egl_calls.specs.declared.entries.Entry.{Entry as AnEntry};
ghost use Rattle.trace_session.specs.Runs.{StandBehind};
ghost use Rattle.trace_check.specs.Verdicts.{entry_due};
ghost use Rattle.egl_explain.specs.Judged.{HasItsRows, entry_in};

use driver_core::{Driver, Refusals};
use egl_calls::{Entry, NoMemory};
use journal_text::RecordedLine;
use std::alloc::Global;
use trace_session::{Session, play_turn};

/// An entry, and which rows of its call's table held before it.
#[derive(Drop)]
pub struct JudgedEntry {
    pub entry: Entry,
    pub refusals: Refusals,
}

/// Plays the entry that a thread has next, where it has one.
fn play_next(
    alloc: Global,
    driver: &mut Driver,
    session: &mut Session,
    thread: u32,
) -> Result<(), NoMemory>
    requires made { session.old.trace.threads ≤ driver.old.made }
    ensures trace { session.new.trace ≡ session.old.trace }
    ensures made { driver.new.made ≡ driver.old.made }
{
    if let Some(mark) = session.due(driver, thread) {
        play_turn(alloc, driver, session, thread, mark)?;
    }
    Ok(())
}

/// Plays the entries of some lines.
pub fn play_lines(
    alloc: Global,
    driver: &mut Driver,
    session: &mut Session,
    lines: &[RecordedLine],
) -> Result<(), NoMemory>
    requires { session.old.trace.threads ≤ driver.old.made }
    ensures { session.new.trace.threads ≤ driver.new.made }
{
    'each: for line in lines {
        if let Some(thread) = line.thread {
            play_next(alloc, driver, session, thread)?;
        }
    }
    Ok(())
}

/// Plays the entry that a thread has next, and gives it with exactly the rows of its call's table that held before it.
pub fn judge_next(
    alloc: Global,
    driver: &mut Driver,
    session: &mut Session,
    thread: u32,
) -> Result<Option<JudgedEntry>, NoMemory>
    requires { session.old.trace.threads ≤ driver.old.made }
    ensures due { (journal : List AnEntry) → StandBehind journal driver.old.state session.old → IfOk result (λ o. entry_in o ≡ entry_due session.old.trace journal thread) }
    ensures rows { (journal : List AnEntry) → StandBehind journal driver.old.state session.old → IfOk result (λ o. HasItsRows driver.old.state o) }
    ensures trace { session.new.trace ≡ session.old.trace }
    ensures made { driver.new.made ≡ driver.old.made }
{
    let Some(mark) = session.due(driver, thread) else {
        return Ok(None);
    };
    let call = session.call(alloc, thread)?;
    let rows = driver.refusals(thread, &call);
    let entry = play_turn(alloc, driver, session, thread, mark)?;
    Ok(Some(JudgedEntry {
        entry,
        refusals: rows,
    }))
}
