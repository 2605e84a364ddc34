//! The words that name calls.
ghost use Rattle.std.specs.Prelude.{◌≡◌};
ghost use Rattle.call_table.specs.Names.{call_name, egl_name, gl_name, own_name};

use crate::egl_table::EGL_CALLS;
use crate::gl_table::GL_CALLS;
use crate::own_table::OWN_CALLS;
use egl_calls::{EglKind, GlKind, Kind, OwnKind};

fn egl_name(kind: EglKind) -> &'static str
    ensures { result.now ≡ egl_name kind }
{
    EGL_CALLS[kind as usize].0
}

fn gl_name(kind: GlKind) -> &'static str
    ensures { result.now ≡ gl_name kind }
{
    GL_CALLS[kind as usize].0
}

fn own_name(kind: OwnKind) -> &'static str
    ensures { result.now ≡ own_name kind }
{
    match OWN_CALLS.get(kind as usize) {
        Some(row) => row.0,
        None => "",
    }
}

/// The word that names a call. The end of a wait and a `Halt` have none.
#[tactic(auto, unfolding(crate::specs::Names::call_name))]
pub fn call_name(kind: Kind) -> &'static str
    ensures { result.now ≡ call_name kind }
{
    match kind {
        Kind::Egl(kind) => egl_name(kind),
        Kind::Gl(kind) => gl_name(kind),
        Kind::Own(kind) => own_name(kind),
    }
}
