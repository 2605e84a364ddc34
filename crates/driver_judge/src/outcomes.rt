//! Which outcomes of a call agree.
ghost use Rattle.std.specs.Prelude.{◌≡◌, [], ◌∷◌, map, fold, OnOk, IfOk};
ghost use Rattle.log_reader.specs.declared.outcomes.LogOutcome.TheVariants.{Done, Egl, Gl};
ghost use Rattle.driver_judge.specs.Outcomes.{agrees, are_none, errors_in, errors_of, is_same, once, or_done, with_outcome};

use driver_facts::Refusals;
use egl_calls::{EglError, GlError, List, NoMemory};
use log_reader::LogOutcome;
use std::alloc::Global;

/// Whether two outcomes are the same.
fn is_same(first: LogOutcome, second: LogOutcome) -> bool
    ensures { result ≡ is_same first second }
{
    match (first, second) {
        (LogOutcome::Done, LogOutcome::Done) => true,
        (LogOutcome::Egl(error), LogOutcome::Egl(other)) => error.code() == other.code(),
        (LogOutcome::Gl(error), LogOutcome::Gl(other)) => error.code() == other.code(),
        (LogOutcome::Unnamed(number), LogOutcome::Unnamed(other)) => number == other,
        _ => false,
    }
}

/// Whether an outcome is one of those that agree.
#[tactic(auto, unfolding(crate::specs::Outcomes::agrees))]
pub fn agrees(expected: &[LogOutcome], found: LogOutcome) -> bool
    ensures { result ≡ agrees expected.now found }
{
    'each: for outcome in expected {
        if is_same(found, *outcome) {
            return true;
        }
    }
    false
}

/// Adds an outcome, unless it is there.
#[tactic(auto, unfolding(crate::specs::Outcomes::agrees))]
fn add(outcomes: &mut List<LogOutcome>, outcome: LogOutcome) -> Result<(), NoMemory>
    ensures { OnOk result (outcomes.new ≡ with_outcome outcomes.old outcome) }
{
    if agrees(outcomes.as_slice(), outcome) {
        return Ok(());
    }
    outcomes.push(outcome)
}

fn egl_errors(alloc: Global, errors: &[Option<EglError>]) -> Result<List<LogOutcome>, NoMemory>
    ensures { IfOk result (λ l. l ≡ fold with_outcome [] (map Egl (errors_in errors.now))) }
{
    let mut found = List::new(alloc);
    'each: for error in errors {
        if let Some(error) = error {
            add(&mut found, LogOutcome::Egl(*error))?;
        }
    }
    Ok(found)
}

fn gl_errors(alloc: Global, errors: &[Option<GlError>]) -> Result<List<LogOutcome>, NoMemory>
    ensures { IfOk result (λ l. l ≡ fold with_outcome [] (map Gl (errors_in errors.now))) }
{
    let mut found = List::new(alloc);
    'each: for error in errors {
        if let Some(error) = error {
            add(&mut found, LogOutcome::Gl(*error))?;
        }
    }
    Ok(found)
}

fn no_egl_error(errors: &[Option<EglError>]) -> bool
    ensures { result ≡ are_none (map Egl (errors_in errors.now)) }
{
    'each: for error in errors {
        if error.is_some() {
            return false;
        }
    }
    true
}

fn no_gl_error(errors: &[Option<GlError>]) -> bool
    ensures { result ≡ are_none (map Gl (errors_in errors.now)) }
{
    'each: for error in errors {
        if error.is_some() {
            return false;
        }
    }
    true
}

/// Whether no row holds.
pub fn are_none(refusals: &Refusals) -> bool
    ensures { result ≡ are_none (errors_of refusals.now) }
{
    match refusals {
        Refusals::Egl(holding) => no_egl_error(&holding.errors),
        Refusals::Gl(holding) => no_gl_error(&holding.errors),
        Refusals::Unjudged => true,
    }
}

/// The errors of rows that hold, each once.
fn errors_of(alloc: Global, refusals: &Refusals) -> Result<List<LogOutcome>, NoMemory>
    ensures { IfOk result (λ l. l ≡ once (errors_of refusals.now)) }
{
    match refusals {
        Refusals::Egl(holding) => egl_errors(alloc, &holding.errors),
        Refusals::Gl(holding) => gl_errors(alloc, &holding.errors),
        Refusals::Unjudged => Ok(List::new(alloc)),
    }
}

fn done_alone(alloc: Global) -> Result<List<LogOutcome>, NoMemory>
    ensures { IfOk result (λ l. l ≡ Done ∷ []) }
{
    let mut found = List::new(alloc);
    found.push(LogOutcome::Done)?;
    Ok(found)
}

/// The outcomes that agree where these rows of a call's table hold: their errors, or that the call was carried out.
#[tactic(auto, using(crate::proofs::ErrorLaws::none_are, crate::proofs::ErrorLaws::some_are))]
pub fn outcomes(alloc: Global, refusals: &Refusals) -> Result<List<LogOutcome>, NoMemory>
    ensures { IfOk result (λ l. l ≡ or_done (errors_of refusals.now)) }
{
    if are_none(refusals) {
        done_alone(alloc)
    } else {
        errors_of(alloc, refusals)
    }
}
