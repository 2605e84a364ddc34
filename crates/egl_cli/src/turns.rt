//! The turns of a trace, each written when it is played: a run by turns keeps its text and no journal.
ghost use Rattle.std.specs.Prelude.{◌≡◌, ◌≤◌, ◌++◌, [], OnOk};
ghost use Rattle.trace_model.specs.Serial.{serial};
ghost use Rattle.trace_model.specs.Recording.{entry_lines, recording};
ghost use Rattle.trace_session.specs.Runs.{StandBehind};

use driver_core::Driver;
use egl_calls::{Bytes, NoMemory};
use journal_text::texts::put_text;
use journal_text::{put_entry_line, put_rest};
use std::alloc::Global;
use trace_reader::Trace;
use trace_session::{Session, next_turn};

/// A line has at most two turns: one for its call, and where that begins a wait, one that ends it.
const TURNS_OF_A_LINE: usize = 2;

/// Plays a trace by turns, as long as a thread can go on, and writes the line of each entry.
fn put_turns(
    alloc: Global,
    out: &mut Bytes,
    trace: &Trace,
    driver: &mut Driver,
    session: &mut Session,
) -> Result<(), NoMemory>
    requires trace { session.old.trace ≡ trace.now }
    requires made { session.old.trace.threads ≤ driver.old.made }
    requires behind { StandBehind [] driver.old.state session.old }
    ensures out { OnOk result (out.new ≡ out.old ++ entry_lines (serial trace.now)) }
    ensures behind { OnOk result (StandBehind (serial trace.now) driver.new.state session.new) }
    ensures trace { OnOk result (session.new.trace ≡ trace.now) }
    ensures made { OnOk result (session.new.trace.threads ≤ driver.new.made) }
{
    let most_turns = TURNS_OF_A_LINE * trace.lines().len();
    'each: for _turn in 0..most_turns {
        let Some(entry) = next_turn(alloc, driver, session)? else {
            return Ok(());
        };
        put_entry_line(out, &entry)?;
    }
    Ok(())
}

/// Plays a trace by turns, and writes its recording.
pub fn put_run(
    alloc: Global,
    out: &mut Bytes,
    trace: &Trace,
    driver: &mut Driver,
    session: &mut Session,
) -> Result<(), NoMemory>
    requires trace { session.old.trace ≡ trace.now }
    requires made { session.old.trace.threads ≤ driver.old.made }
    requires behind { StandBehind [] driver.old.state session.old }
    ensures out { OnOk result (out.new ≡ out.old ++ recording trace.now (serial trace.now)) }
    ensures behind { OnOk result (StandBehind (serial trace.now) driver.new.state session.new) }
    ensures trace { OnOk result (session.new.trace ≡ trace.now) }
    ensures made { OnOk result (session.new.trace.threads ≤ driver.new.made) }
{
    put_text(out, "recording\n")?;
    put_turns(alloc, out, trace, driver, session)?;
    put_rest(alloc, out, driver)?;
    put_text(out, "\n")?;
    Ok(())
}
