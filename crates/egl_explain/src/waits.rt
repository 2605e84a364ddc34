//! Why the threads of a run that stalled wait.
use crate::object_words::{Inventory, put_object};
use crate::pages::{Ink, Page};
use crate::source_lines::{assigned_in, line_at, put_bar, put_line};
use crate::telling::Teller;
use driver_objects::Object;
use trace_reader::{Line, Trace};
use trace_session::{Session, awaited, is_await, is_post};

/// The line that posts a number.
fn posting(trace: &Trace, number: u64) -> Option<&Line> {
    'each: for line in trace.lines() {
        if is_post(line.call.kind()) && awaited(&line.call) == number {
            return Some(line);
        }
    }
    None
}

/// The line that assigns a variable.
fn assigning(trace: &Trace, variable: u32) -> Option<&Line> {
    'each: for line in trace.lines() {
        if line.assigns == Some(variable) {
            return Some(line);
        }
    }
    None
}

/// Whether a thread isn't behind a line of its own.
fn is_left(session: &Session, line: &Line) -> bool {
    if line.thread >= session.threads() {
        return false;
    }
    match session.next(line.thread) {
        Some(number) => number <= line.number,
        None => false,
    }
}

/// The first line of which a line needs the answer that isn't played.
fn needed<'a>(trace: &'a Trace, session: &Session, line: &Line) -> Option<&'a Line> {
    'each: for reference in line.uses.as_slice() {
        if let Some(other) = assigning(trace, reference.variable) {
            if is_left(session, other) {
                return Some(other);
            }
        }
    }
    None
}

/// Where the thread of a line is instead.
fn put_where(page: &mut Page, line: &Line) {
    page.put(" in line ");
    page.put_decimal(line.number);
    page.put(": thread ");
    page.put_decimal(u64::from(line.thread));
    page.put(" isn't past it");
    page.end_line();
}

/// That a number isn't posted.
fn put_unposted(page: &mut Page, line: Option<&Line>, number: u64) {
    put_bar(page);
    match line {
        Some(line) => {
            page.put("  for the post of ");
            page.put_decimal(number);
            put_where(page, line)
        }
        None => {
            page.put("  no line posts ");
            page.put_decimal(number);
            page.end_line()
        }
    }
}

/// That a variable has no answer.
fn put_unanswered(page: &mut Page, lines: &[&[u8]], line: &Line) {
    put_bar(page);
    page.put("  for the answer of ");
    page.put_bytes(assigned_in(line_at(lines, line.number)));
    put_where(page, line);
}

/// That a sync isn't signalled.
fn put_unsignalled(page: &mut Page, inventory: &Inventory, sync: u64) {
    put_bar(page);
    page.put("  for the ");
    put_object(page, inventory, sync);
    page.put(", which isn't signalled");
    if let Some(Object::Sync(fence)) = inventory.driver.object(sync) {
        page.put(": the ");
        put_object(page, inventory, fence.context);
        page.put(" wasn't flushed after it");
    }
    page.end_line();
}

/// The sync for which a thread waits, by its number.
fn waited_for(inventory: &Inventory, thread: u32) -> Option<u64> {
    let kept = inventory.driver.records().get(thread as usize)?;
    kept.wait
}

/// Why a thread waits at a line: for a sync, by its number; for the answer of a line that isn't played; or for a number that isn't posted.
#[derive(Clone, Copy, Drop)]
pub enum Cause<'a> {
    Sync(u64),
    Answer(&'a Line),
    Unposted(u64, Option<&'a Line>),
    Unknown,
}

/// A line at which its thread waits, and why.
#[derive(Clone, Copy, Drop)]
pub struct Wait<'a> {
    pub line: &'a Line,
    pub cause: Cause<'a>,
}

fn cause_of<'a>(
    inventory: &Inventory,
    trace: &'a Trace,
    session: &Session,
    thread: u32,
    line: &Line,
) -> Cause<'a> {
    if let Some(sync) = waited_for(inventory, thread) {
        return Cause::Sync(sync);
    }
    if let Some(other) = needed(trace, session, line) {
        return Cause::Answer(other);
    }
    if is_await(line.call.kind()) {
        let number = awaited(&line.call);
        return Cause::Unposted(number, posting(trace, number));
    }
    Cause::Unknown
}

/// The line at which a thread waits, and why.
pub fn put_wait(page: &mut Page, inventory: &Inventory, wait: &Wait<'_>) {
    page.put_in(Ink::Fault, "stalled: ");
    page.put("thread ");
    page.put_decimal(u64::from(wait.line.thread));
    page.put(" waits at");
    page.end_line();
    put_line(page, inventory.lines, wait.line.number);
    match wait.cause {
        Cause::Sync(sync) => put_unsignalled(page, inventory, sync),
        Cause::Answer(other) => put_unanswered(page, inventory.lines, other),
        Cause::Unposted(number, line) => put_unposted(page, line, number),
        Cause::Unknown => {}
    }
}

/// Each thread that isn't at its end.
pub fn put_waits<T: Teller>(
    teller: &mut T,
    inventory: &Inventory,
    trace: &Trace,
    session: &Session,
) {
    'each: for thread in 0..session.threads() {
        if let Some(line) = session.line(thread) {
            let cause = cause_of(inventory, trace, session, thread, line);
            teller.wait(inventory, &Wait { line, cause });
        }
    }
}
