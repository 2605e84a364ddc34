//! What the rows of calls say of how they are written.
ghost use Rattle.std.specs.Prelude.{◌≡◌};
ghost use Rattle.scene_trace.specs.Rows.{call_forms};

use call_table::{EGL_CALLS, Form, GL_CALLS, OWN_CALLS};
use egl_calls::Kind;

/// The forms of a call's arguments. The end of a wait and a `Halt` have none.
#[tactic(auto, unfolding(crate::specs::Rows::call_forms))]
pub fn call_forms(kind: Kind) -> &'static [Form]
    ensures { result.now ≡ call_forms kind }
{
    match kind {
        Kind::Egl(kind) => EGL_CALLS[kind as usize].2,
        Kind::Gl(kind) => GL_CALLS[kind as usize].2,
        Kind::Own(kind) => match OWN_CALLS.get(kind as usize) {
            Some(row) => row.2,
            None => &[],
        },
    }
}
