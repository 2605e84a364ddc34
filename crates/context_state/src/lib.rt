//! The state that a context of OpenGL ES keeps for itself, and the calls that ask and set it alone.
//!
//! It knows no object and no surface: it asks and sets what one context keeps for itself.
//!
//! Its tests are in `topic_check`.
#![tactic(auto)]

mod arguments;
mod bindings;
mod calls;
mod kinds;
mod parts;
mod refusals;

pub use bindings::Bindings;
pub use kinds::{context_call, context_gl_call, is_context_call};
pub use parts::ContextPart;
pub use refusals::{context_meets, refusal, verdict};
