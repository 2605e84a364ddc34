//! The lines at which the threads of a stalled run wait.
ghost use Rattle.std.specs.Prelude.{◌≡◌, ◌++◌, List, OnOk};
ghost use Rattle.egl_calls.specs.declared.entries.Entry.{Entry as AnEntry};
ghost use Rattle.trace_session.specs.Sessions.{Knows};
ghost use Rattle.egl_cli.specs.StalledLines.{stalled_line, stalled_lines};

use crate::places::put_place;
use egl_calls::{Bytes, Journal, NoMemory};
use journal_text::texts::put_text;
use std::alloc::Global;
use trace_reader::Trace;
use trace_session::{Chains, Session};

/// The line of a thread whose next line has this number.
fn put_stalled_line(out: &mut Bytes, thread: u32, number: Option<u64>) -> Result<(), NoMemory>
    ensures { OnOk result (out.new ≡ out.old ++ stalled_line thread number) }
{
    let Some(number) = number else {
        return Ok(());
    };
    put_text(out, "stalled ")?;
    put_place(out, thread, number)?;
    put_text(out, "\n")
}

/// The lines of the threads of a session that aren't at their end.
#[tactic(auto, unfolding(crate::specs::StalledLines::stalled_lines))]
pub fn put_waiting(out: &mut Bytes, session: &Session) -> Result<(), NoMemory>
    ensures { (journal : List AnEntry) → Knows journal session.now → OnOk result (out.new ≡ out.old ++ stalled_lines session.now.trace journal) }
{
    let threads = session.threads();
    'each: for thread in 0..threads {
        put_stalled_line(out, thread, session.next(thread))?;
    }
    Ok(())
}

/// The lines of the threads that aren't at their end behind a journal.
pub fn put_stalled(
    alloc: Global,
    out: &mut Bytes,
    trace: &Trace,
    journal: &Journal,
) -> Result<(), NoMemory>
    ensures { OnOk result (out.new ≡ out.old ++ stalled_lines trace.now journal.now.entries) }
{
    let chains = Chains::new(alloc, trace)?;
    let session = Session::behind(alloc, trace, &chains, journal)?;
    put_waiting(out, &session)
}
