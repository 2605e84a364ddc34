//! The calls of OpenGL ES that ask and set the state of their context alone.
ghost use Rattle.std.specs.Prelude.{◌≡◌};
ghost use Rattle.context_state.specs.Kinds.{context_call, context_gl_call, is_context_call};

use call_table::{Role, gl_role};
use egl_calls::{GlKind, Kind};

/// The kind of a call, if the call asks or sets the state of its context alone, as its row says.
pub fn context_gl_call(kind: GlKind) -> Option<GlKind>
    ensures { result ≡ context_gl_call kind }
{
    match gl_role(kind) {
        Role::OwnState => Some(kind),
        _ => None,
    }
}

/// The same of a call of any interface.
pub fn context_call(kind: Kind) -> Option<GlKind>
    ensures { result ≡ context_call kind }
{
    match kind {
        Kind::Egl(_) => None,
        Kind::Gl(kind) => context_gl_call(kind),
        Kind::Own(_) => None,
    }
}

/// Whether a call of this kind asks or sets the state of its context alone, so that `ContextPart::apply` does it.
pub fn is_context_call(kind: Kind) -> bool
    ensures { result ≡ is_context_call kind }
{
    context_call(kind).is_some()
}
