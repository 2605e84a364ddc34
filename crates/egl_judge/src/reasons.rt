//! Why an outcome would have agreed, and another one doesn't: the rows of the call's table, in words.
ghost use Rattle.std.specs.Prelude.{◌≡◌, ◌<◌, ◌++◌, codes, OnOk};
ghost use Rattle.log_reader.specs.declared.outcomes.LogOutcome.TheVariants.{Done};
ghost use Rattle.egl_judge.specs.Reasons.{begun_text, held_at, row_text, said_text, why_done};

use crate::numbers::put_outcome;
use call_table::{egl_rules, gl_rules};
use driver_facts::Refusals;
use egl_calls::{Bytes, EglKind, GlKind, Kind, NoMemory};
use journal_text::texts::{put_byte, put_text};
use log_reader::LogOutcome;
use refusal_rows::MOST_ROWS;

/// The outcome by which the row at a place refuses the call, where that row holds.
fn held_at(refusals: &Refusals, place: usize) -> Option<LogOutcome>
    requires { place < 16 }
    ensures { result ≡ held_at refusals.now place }
{
    match refusals {
        Refusals::Egl(holding) => match holding.errors[place] {
            Some(error) => Some(LogOutcome::Egl(error)),
            None => None,
        },
        Refusals::Gl(holding) => match holding.errors[place] {
            Some(error) => Some(LogOutcome::Gl(error)),
            None => None,
        },
        Refusals::Unjudged => None,
    }
}

/// What the row at a place of a call of EGL says, and its outcome.
fn egl_row(kind: EglKind, place: usize) -> Option<(&'static str, LogOutcome)> {
    match egl_rules(kind).get(place) {
        Some((condition, error)) => Some((condition.words(), LogOutcome::Egl(*error))),
        None => None,
    }
}

/// What the row at a place of a call of OpenGL ES says, and its outcome.
fn gl_row(kind: GlKind, place: usize) -> Option<(&'static str, LogOutcome)> {
    match gl_rules(kind).get(place) {
        Some((condition, error)) => Some((condition.words(), LogOutcome::Gl(*error))),
        None => None,
    }
}

/// What the row at a place of a call's table says, and its outcome. A log has no call of this project's own that a table judges.
fn row_at(kind: Kind, place: usize) -> Option<(&'static str, LogOutcome)> {
    match kind {
        Kind::Egl(kind) => egl_row(kind, place),
        Kind::Gl(kind) => gl_row(kind, place),
        Kind::Own(_) => None,
    }
}

/// A line without a number begins, with a title.
pub fn begin(out: &mut Bytes, title: &str) -> Result<(), NoMemory>
    ensures { OnOk result (out.new ≡ out.old ++ begun_text title.now) }
{
    put_text(out, "       |   ")?;
    put_text(out, title)
}

fn put_said(out: &mut Bytes, words: &str) -> Result<(), NoMemory>
    ensures { OnOk result (out.new ≡ out.old ++ said_text words.now) }
{
    put_text(out, ": ")?;
    put_text(out, words)?;
    put_byte(out, b'\n')
}

/// A row: its outcome, and its condition in words.
fn put_row(out: &mut Bytes, title: &str, outcome: LogOutcome, words: &str) -> Result<(), NoMemory>
    ensures { OnOk result (out.new ≡ out.old ++ row_text title.now outcome words.now) }
{
    begin(out, title)?;
    put_outcome(out, outcome)?;
    put_said(out, words)
}

/// A row that doesn't hold, where its outcome is the one that came.
fn put_unmet(out: &mut Bytes, kind: Kind, place: usize, found: LogOutcome) -> Result<(), NoMemory> {
    match row_at(kind, place) {
        Some((words, outcome)) if outcome == found => {
            put_row(out, "doesn't hold: ", outcome, words)
        }
        _ => Ok(()),
    }
}

/// A row that holds.
fn put_held(
    out: &mut Bytes,
    kind: Kind,
    place: usize,
    outcome: LogOutcome,
) -> Result<(), NoMemory> {
    match row_at(kind, place) {
        Some((words, _)) => put_row(out, "would agree: ", outcome, words),
        None => put_row(out, "would agree: ", outcome, "it is refused"),
    }
}

/// Each row that holds, and of those that don't the ones whose outcome came.
fn put_rows(
    out: &mut Bytes,
    kind: Kind,
    refusals: &Refusals,
    found: LogOutcome,
) -> Result<(), NoMemory> {
    'rows: for place in 0..MOST_ROWS {
        match held_at(refusals, place) {
            Some(outcome) => put_held(out, kind, place, outcome)?,
            None => put_unmet(out, kind, place, found)?,
        }
    }
    Ok(())
}

/// Why a call isn't refused.
fn why_done(refusals: &Refusals) -> &'static str
    ensures { result.now ≡ why_done refusals.now }
{
    match refusals {
        Refusals::Egl(_) | Refusals::Gl(_) => "no condition of the call's holds",
        Refusals::Unjudged => "no context is current, so the call does nothing",
    }
}

/// That the call isn't refused, and why.
fn put_done(out: &mut Bytes, refusals: &Refusals) -> Result<(), NoMemory>
    ensures { OnOk result (out.new ≡ out.old ++ row_text (codes "would agree: ") Done (why_done refusals.now)) }
{
    put_row(out, "would agree: ", LogOutcome::Done, why_done(refusals))
}

/// Each outcome that would have agreed, with the row by which it would; and each row whose outcome came, though it doesn't hold.
pub fn put_reasons(
    out: &mut Bytes,
    kind: Kind,
    refusals: &Refusals,
    expected: &[LogOutcome],
    found: LogOutcome,
) -> Result<(), NoMemory> {
    put_rows(out, kind, refusals, found)?;
    match expected {
        [LogOutcome::Done] => put_done(out, refusals),
        _ => Ok(()),
    }
}
