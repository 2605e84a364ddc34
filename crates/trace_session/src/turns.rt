//! One turn of a thread after another. The journal stands in the contracts alone: who wants the run keeps the entries.
ghost use Rattle.std.specs.Prelude.{◌≡◌, ◌≤◌, ◌<◌, ◌∷◌, ◌++◌, [], List, Some, IsSome, IfOk};
ghost use Rattle.std.specs.Option.{option_map};
ghost use Rattle.egl_calls.specs.declared.entries.Entry.{Entry as AnEntry};
ghost use Rattle.trace_model.specs.Serial.{next_entry};
ghost use Rattle.trace_model.specs.Turns.{next_line};
ghost use Rattle.trace_session.specs.Sessions.{Knows, line_at};
ghost use Rattle.trace_session.specs.Runs.{IsTurn, StandBehind, with_entry};

use crate::sessions::Session;
use driver_core::Driver;
use egl_calls::{Entry, NoMemory};
use std::alloc::Global;

/// Takes the next turn of a thread, at the line with this number, and answers its entry.
pub fn play_turn(
    alloc: Global,
    driver: &mut Driver,
    session: &mut Session,
    thread: u32,
    mark: u64,
) -> Result<Entry, NoMemory>
    requires thread { thread < session.old.trace.threads }
    requires made { session.old.trace.threads ≤ driver.old.made }
    requires line { IsSome (line_at session.old thread) }
    ensures turn { (journal : List AnEntry) → Knows journal session.old → option_map (λ l. l.number) (next_line session.old.trace.lines journal thread) ≡ Some mark → IfOk result (λ e. IsTurn session.old.trace journal thread driver.old.state e driver.new.state) }
    ensures knows { (journal : List AnEntry) → Knows journal session.old → IfOk result (λ e. Knows (journal ++ e ∷ []) session.new) }
    ensures trace { session.new.trace ≡ session.old.trace }
    ensures made { driver.new.made ≡ driver.old.made }
{
    let call = session.call(alloc, thread)?;
    let reply = driver.play(alloc, thread, &call)?;
    let entry = Entry {
        thread,
        mark,
        call,
        reply,
    };
    session.learn(alloc, &entry)?;
    Ok(entry)
}

/// Takes the next turn of a run by turns: that of the thread with the lowest number that is neither at its end nor blocked. There is none where no thread can go on.
pub fn next_turn(
    alloc: Global,
    driver: &mut Driver,
    session: &mut Session,
) -> Result<Option<Entry>, NoMemory>
    requires made { session.old.trace.threads ≤ driver.old.made }
    ensures entry { (journal : List AnEntry) → StandBehind journal driver.old.state session.old → IfOk result (λ o. o ≡ next_entry session.old.trace journal) }
    ensures behind { (journal : List AnEntry) → StandBehind journal driver.old.state session.old → IfOk result (λ o. StandBehind (with_entry journal o) driver.new.state session.new) }
    ensures trace { session.new.trace ≡ session.old.trace }
    ensures made { driver.new.made ≡ driver.old.made }
{
    let Some(thread) = session.next_thread(driver) else {
        return Ok(None);
    };
    let Some(mark) = session.next(thread) else {
        return Ok(None);
    };
    Ok(Some(play_turn(alloc, driver, session, thread, mark)?))
}
