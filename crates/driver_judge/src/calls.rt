//! What the rows of calls say, by which the judge goes.
ghost use Rattle.std.specs.Prelude.{◌≡◌};
ghost use Rattle.driver_judge.specs.Calls.{answers_current, are_configs, goes_by_current, is_make_current, is_of_current, lists_configs, makes_current, sets_by, sets_current, swaps, takes_config, takes_nothing, tells_current, works_in_current, works_on_current};

use call_table::{AnswerSort, EGL_CALLS, Role, egl_answers, egl_role};
use display_table::HandleKind;
use egl_calls::{EglKind, Kind};

/// Whether a call has no argument: it goes by its thread alone.
fn takes_nothing(kind: EglKind) -> bool
    ensures { result ≡ takes_nothing kind }
{
    EGL_CALLS[kind as usize].2.is_empty()
}

fn makes_current(role: Role) -> bool
    ensures { result ≡ makes_current role }
{
    match role {
        Role::MakesCurrent => true,
        _ => false,
    }
}

/// Whether a call makes a context current to its thread, or none.
pub fn is_make_current(kind: Kind) -> bool
    ensures { result ≡ is_make_current kind }
{
    match kind {
        Kind::Egl(kind) => makes_current(egl_role(kind)),
        _ => false,
    }
}

fn sets_by(role: Role, alone: bool) -> bool
    ensures { result ≡ sets_by role alone }
{
    match role {
        Role::MakesCurrent => true,
        Role::Releases => alone,
        _ => false,
    }
}

/// Whether a call sets what is current to its thread.
pub fn sets_current(kind: Kind) -> bool
    ensures { result ≡ sets_current kind }
{
    match kind {
        Kind::Egl(kind) => sets_by(egl_role(kind), takes_nothing(kind)),
        _ => false,
    }
}

fn answers_current(sort: AnswerSort, alone: bool) -> bool
    ensures { result ≡ answers_current sort alone }
{
    match sort {
        AnswerSort::Currents(_) => true,
        AnswerSort::Displays => alone,
        _ => false,
    }
}

fn works_in_current(role: Role) -> bool
    ensures { result ≡ works_in_current role }
{
    match role {
        Role::Flushes | Role::ServerWaits | Role::Creates(HandleKind::Sync) => true,
        _ => false,
    }
}

fn swaps(kind: EglKind) -> bool
    ensures { result ≡ swaps kind }
{
    match kind {
        EglKind::SwapBuffers => true,
        _ => false,
    }
}

#[tactic(auto, unfolding(crate::specs::Calls::tells_current))]
fn tells_current(kind: EglKind) -> bool
    ensures { result ≡ tells_current kind }
{
    answers_current(egl_answers(kind), takes_nothing(kind))
}

#[tactic(auto, unfolding(crate::specs::Calls::works_on_current))]
fn works_on_current(kind: EglKind) -> bool
    ensures { result ≡ works_on_current kind }
{
    works_in_current(egl_role(kind))
}

/// Whether a call of EGL tells what is current, or works on it.
#[tactic(auto, unfolding(crate::specs::Calls::is_of_current))]
fn is_of_current(kind: EglKind) -> bool
    ensures { result ≡ is_of_current kind }
{
    tells_current(kind) || works_on_current(kind) || swaps(kind)
}

/// Whether a call goes by what is current to its thread.
pub fn goes_by_current(kind: Kind) -> bool
    ensures { result ≡ goes_by_current kind }
{
    match kind {
        Kind::Gl(_) => true,
        Kind::Egl(kind) => is_of_current(kind),
        Kind::Own(_) => false,
    }
}

/// Whether a call names a config behind its display.
pub fn takes_config(kind: Kind) -> bool
    ensures { result ≡ takes_config kind }
{
    match kind {
        Kind::Egl(kind) => log_reader::takes_config(EGL_CALLS[kind as usize].2),
        _ => false,
    }
}

fn are_configs(sort: AnswerSort) -> bool
    ensures { result ≡ are_configs sort }
{
    match sort {
        AnswerSort::ConfigLists => true,
        _ => false,
    }
}

/// Whether a call answers configs: it may be given some in its list.
pub fn lists_configs(kind: Kind) -> bool
    ensures { result ≡ lists_configs kind }
{
    match kind {
        Kind::Egl(kind) => are_configs(egl_answers(kind)),
        _ => false,
    }
}
