//! What the rows of calls say, in words.
ghost use Rattle.std.specs.Prelude.{◌≡◌, nat_lt, is_some, length};
ghost use Rattle.call_table.specs.Rows.{egl_rules, gl_rules, own_rules};
ghost use Rattle.egl_explain.specs.Judged.{row_count};

use call_table::{egl_rules, gl_rules, own_rules};
use egl_calls::{EglKind, GlKind, Kind, OwnKind};

/// What the row of a call of EGL at a place says.
fn egl_row_words(kind: EglKind, place: usize) -> Option<&'static str>
    ensures { is_some result ≡ nat_lt place (length (egl_rules kind)) }
{
    match egl_rules(kind).get(place) {
        Some((condition, _)) => Some(condition.words()),
        None => None,
    }
}

/// What the row of a call of OpenGL ES at a place says.
fn gl_row_words(kind: GlKind, place: usize) -> Option<&'static str>
    ensures { is_some result ≡ nat_lt place (length (gl_rules kind)) }
{
    match gl_rules(kind).get(place) {
        Some((condition, _)) => Some(condition.words()),
        None => None,
    }
}

/// What the row of a call of this project at a place says.
fn own_row_words(kind: OwnKind, place: usize) -> Option<&'static str>
    ensures { is_some result ≡ nat_lt place (length (own_rules kind)) }
{
    match own_rules(kind).get(place) {
        Some((condition, _)) => Some(condition.words()),
        None => None,
    }
}

/// What the row of a call at a place says: each row of its table says something, and behind the last there is none.
pub fn row_words(kind: Kind, place: usize) -> Option<&'static str>
    ensures { is_some result ≡ nat_lt place (row_count kind) }
{
    match kind {
        Kind::Egl(kind) => egl_row_words(kind, place),
        Kind::Gl(kind) => gl_row_words(kind, place),
        Kind::Own(kind) => own_row_words(kind, place),
    }
}
