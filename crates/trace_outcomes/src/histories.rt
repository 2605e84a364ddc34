//! Histories, played one after another. Each begins with a driver of its own, since there is no copy of a driver.
ghost use Rattle.std.specs.Prelude.{◌≡◌, ◌≤◌, ◌<◌, ◌∷◌, ◌++◌, [], List, is_some, IfOk, OnOk};
ghost use Rattle.egl_calls.specs.declared.entries.Entry.{Entry as AnEntry};
ghost use Rattle.trace_reader.specs.Order.{IsTrace};
ghost use Rattle.trace_check.proofs.HoldsLaws.{Plays};
ghost use Rattle.trace_check.specs.Verdicts.{entry_due};
ghost use Rattle.trace_session.specs.Chains.{AreChains};
ghost use Rattle.trace_session.specs.Runs.{StandBehind};
ghost use Rattle.trace_outcomes.specs.Histories.{after, histories_behind};
ghost use Rattle.trace_outcomes.specs.Schedules.{IsFirst, follow, histories_by, histories_by_all, left};

use crate::answers::outcome_of;
use crate::outcomes::Outcome;
use driver_core::Driver;
use egl_calls::{Journal, List, NoMemory};
use std::alloc::Global;
use trace_check::play_due;
use trace_reader::Trace;
use trace_session::{Chains, Session, driver_of};

/// The threads of a history in the order of its entries.
pub type Schedule = List<u32>;

/// Puts a schedule on top of others.
pub fn push_schedule(pending: &mut Vec<Schedule>, schedule: Schedule) -> Result<(), NoMemory>
    ensures { OnOk result (pending.new.items ≡ pending.old.items ++ schedule ∷ []) }
{
    match pending.push(schedule) {
        Ok(()) => Ok(()),
        Err(_) => Err(NoMemory),
    }
}

/// Plays the entry that a thread has next, where the thread can go on, and keeps it. It tells whether the thread could.
pub fn go_on(
    alloc: Global,
    driver: &mut Driver,
    session: &mut Session,
    journal: &mut Journal,
    thread: u32,
) -> Result<bool, NoMemory>
    requires made { session.old.trace.threads ≤ driver.old.made }
    requires behind { StandBehind journal.old.entries driver.old.state session.old }
    ensures journal { OnOk result (journal.new.entries ≡ after session.old.trace journal.old.entries thread) }
    ensures behind { OnOk result (StandBehind journal.new.entries driver.new.state session.new) }
    ensures could { IfOk result (λ could. could ≡ is_some (entry_due session.old.trace journal.old.entries thread)) }
    ensures trace { session.new.trace ≡ session.old.trace }
    ensures made { driver.new.made ≡ driver.old.made }
{
    let due = play_due(alloc, driver, session, thread)?;
    let Some(entry) = due else {
        return Ok(false);
    };
    journal.reserve(1)?;
    journal.push(entry);
    Ok(true)
}

/// Plays the turns of a schedule.
fn replay(
    alloc: Global,
    driver: &mut Driver,
    session: &mut Session,
    journal: &mut Journal,
    schedule: &[u32],
) -> Result<(), NoMemory>
    requires made { session.old.trace.threads ≤ driver.old.made }
    requires behind { StandBehind journal.old.entries driver.old.state session.old }
    ensures journal { OnOk result (journal.new.entries ≡ follow session.old.trace journal.old.entries schedule.now) }
    ensures behind { OnOk result (StandBehind journal.new.entries driver.new.state session.new) }
    ensures trace { OnOk result (session.new.trace ≡ session.old.trace) }
    ensures made { OnOk result (driver.new.made ≡ driver.old.made) }
{
    'each: for thread in schedule {
        go_on(alloc, driver, session, journal, *thread)?;
    }
    Ok(())
}

/// A schedule that goes on by one thread more.
fn longer(alloc: Global, schedule: &Schedule, thread: u32) -> Result<Schedule, NoMemory>
    ensures { IfOk result (λ s. s ≡ schedule.now ++ thread ∷ []) }
{
    let mut more = schedule.copy(alloc)?;
    more.push(thread)?;
    Ok(more)
}

/// Keeps a schedule for a thread, where it can go on.
fn push_other(
    alloc: Global,
    driver: &Driver,
    session: &Session,
    thread: u32,
    schedule: &Schedule,
    pending: &mut Vec<Schedule>,
) -> Result<(), NoMemory>
    requires made { session.now.trace.threads ≤ driver.now.made }
    requires thread { thread < session.now.trace.threads }
    ensures { (journal : List AnEntry) → StandBehind journal driver.now.state session.now → journal ≡ follow session.now.trace [] schedule.now → OnOk result (left session.now.trace pending.new.items ≡ histories_by session.now.trace journal thread ++ left session.now.trace pending.old.items) }
{
    match session.due(driver, thread) {
        Some(_) => {
            let more = longer(alloc, schedule, thread)?;
            push_schedule(pending, more)?;
            Ok(())
        }
        None => Ok(()),
    }
}

/// Keeps a schedule for each thread from this number on that can go on, that of the lowest on top.
fn push_others(
    alloc: Global,
    driver: &Driver,
    session: &Session,
    first: u32,
    schedule: &Schedule,
    pending: &mut Vec<Schedule>,
) -> Result<(), NoMemory>
    requires made { session.now.trace.threads ≤ driver.now.made }
    requires first { first ≤ session.now.trace.threads }
    ensures { (journal : List AnEntry) → StandBehind journal driver.now.state session.now → journal ≡ follow session.now.trace [] schedule.now → OnOk result (left session.now.trace pending.new.items ≡ histories_by_all session.now.trace journal first ++ left session.now.trace pending.old.items) }
{
    let mut at = session.threads();
    'each: while at > first {
        at -= 1;
        push_other(alloc, driver, session, at, schedule, pending)?;
    }
    Ok(())
}

/// Goes on until no thread can, each time by the lowest that can, and keeps a schedule for each other that could have gone on.
fn descend(
    alloc: Global,
    driver: &mut Driver,
    session: &mut Session,
    journal: &mut Journal,
    schedule: &mut Schedule,
    pending: &mut Vec<Schedule>,
) -> Result<(), NoMemory>
    requires made { session.old.trace.threads ≤ driver.old.made }
    requires behind { StandBehind journal.old.entries driver.old.state session.old }
    requires is_trace { IsTrace session.old.trace }
    requires plays { Plays session.old.trace journal.old.entries }
    requires schedule { journal.old.entries ≡ follow session.old.trace [] schedule.old }
    ensures histories { OnOk result (journal.new.entries ∷ left session.old.trace pending.new.items ≡ histories_behind session.old.trace journal.old.entries ++ left session.old.trace pending.old.items) }
    ensures behind { OnOk result (StandBehind journal.new.entries driver.new.state session.new) }
    ensures trace { OnOk result (session.new.trace ≡ session.old.trace) }
{
    'each: while let Some(thread) = session.next_thread(driver) {
        push_others(alloc, driver, session, thread + 1, schedule, pending)?;
        go_on(alloc, driver, session, journal, thread)?;
        schedule.push(thread)?;
    }
    Ok(())
}

/// Plays the first history that goes on from a schedule, and puts schedules for the others on top of those that wait.
pub fn play_first(
    alloc: Global,
    trace: &Trace,
    chains: &Chains,
    schedule: Schedule,
    pending: &mut Vec<Schedule>,
) -> Result<Outcome, NoMemory>
    requires { AreChains trace.now chains.now }
    ensures { IfOk result (λ o. IsFirst trace.now (histories_behind trace.now (follow trace.now [] schedule) ++ left trace.now pending.old.items) o (left trace.now pending.new.items)) }
{
    // Each schedule leads to a journal that plays a trace.
    trace.in_order();
    let mut driver = driver_of(alloc, trace)?;
    let mut session = Session::new(alloc, trace, chains)?;
    let mut journal = Journal::new(alloc);
    let mut schedule = schedule;
    replay(
        alloc,
        &mut driver,
        &mut session,
        &mut journal,
        schedule.as_slice(),
    )?;
    descend(
        alloc,
        &mut driver,
        &mut session,
        &mut journal,
        &mut schedule,
        pending,
    )?;
    let outcome = outcome_of(alloc, trace, &driver, &session, &journal)?;
    Ok(outcome)
}
