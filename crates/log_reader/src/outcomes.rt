//! How calls of a log came out.
ghost use Rattle.std.specs.Prelude.{◌≡◌, ◌==◌, find};
ghost use Rattle.egl_calls.specs.Errors.{egl_code, gl_code};
ghost use Rattle.std.specs.Option.{option_map};
ghost use Rattle.log_reader.specs.Numbers.{long_number};
ghost use Rattle.log_reader.specs.Outcomes.{egl_refused, gl_refused, outcome_of, refused_by};
ghost use Rattle.log_reader.specs.declared.outcomes.LogOutcome.TheVariants.{Egl, Gl, Unnamed};

use crate::numbers::long_number;
use crate::words::same_word;
use egl_calls::{EglError, GlError};
use egl_names::code_of_word;

/// How a call came out: it was carried out, or refused, with an error that has a name, or with the number of another.
#[derive(Clone, Copy, Debug, PartialEq, Eq, Drop)]
pub enum LogOutcome {
    Done,
    Egl(EglError),
    Gl(GlError),
    Unnamed(i128),
}

/// The errors by which calls of EGL are refused (EGL 1.5, section 3.1).
pub static EGL_ERRORS: [EglError; 14] = [
    EglError::NotInitialized,
    EglError::BadAccess,
    EglError::BadAlloc,
    EglError::BadAttribute,
    EglError::BadConfig,
    EglError::BadContext,
    EglError::BadCurrentSurface,
    EglError::BadDisplay,
    EglError::BadMatch,
    EglError::BadNativePixmap,
    EglError::BadNativeWindow,
    EglError::BadParameter,
    EglError::BadSurface,
    EglError::ContextLost,
];

/// The errors by which calls of OpenGL ES are refused (OpenGL ES 1.1, section 2.5, and OES_framebuffer_object).
pub static GL_ERRORS: [GlError; 5] = [
    GlError::InvalidEnum,
    GlError::InvalidValue,
    GlError::InvalidOperation,
    GlError::OutOfMemory,
    GlError::InvalidFramebufferOperation,
];

fn egl_refused_in(errors: &[EglError], code: u32) -> Option<LogOutcome>
    ensures { result ≡ option_map Egl (find (λ e. egl_code e == code) errors.now) }
{
    'each: for error in errors {
        if error.code() == code {
            return Some(LogOutcome::Egl(*error));
        }
    }
    None
}

fn egl_refused(code: u32) -> Option<LogOutcome>
    ensures { result ≡ egl_refused code }
{
    egl_refused_in(&EGL_ERRORS, code)
}

fn gl_refused_in(errors: &[GlError], code: u32) -> Option<LogOutcome>
    ensures { result ≡ option_map Gl (find (λ e. gl_code e == code) errors.now) }
{
    'each: for error in errors {
        if error.code() == code {
            return Some(LogOutcome::Gl(*error));
        }
    }
    None
}

fn gl_refused(code: u32) -> Option<LogOutcome>
    ensures { result ≡ gl_refused code }
{
    gl_refused_in(&GL_ERRORS, code)
}

/// The refusal by the error whose name has a code.
#[tactic(auto, unfolding(crate::specs::Outcomes::refused_by))]
fn refused_by(code: u32) -> Option<LogOutcome>
    ensures { result ≡ refused_by code }
{
    match egl_refused(code) {
        Some(outcome) => Some(outcome),
        None => gl_refused(code),
    }
}

fn unnamed(word: &[u8]) -> Option<LogOutcome>
    ensures { result ≡ option_map Unnamed (long_number word.now) }
{
    match long_number(word) {
        Some(number) => Some(LogOutcome::Unnamed(number)),
        None => None,
    }
}

/// How a call came out, by the word for it.
#[tactic(auto, unfolding(crate::specs::Outcomes::outcome_of))]
pub fn outcome_of(word: &[u8]) -> Option<LogOutcome>
    ensures { result ≡ outcome_of word.now }
{
    if same_word(word, b"ok") {
        return Some(LogOutcome::Done);
    }
    let Some(code) = code_of_word(word) else {
        return unnamed(word);
    };
    match refused_by(code) {
        Some(outcome) => Some(outcome),
        None => unnamed(word),
    }
}
