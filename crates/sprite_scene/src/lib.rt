//! Sprites: the calls that draw a scene, and the picture that they leave.
//!
//! It knows no text: calls and a picture.
//!
//! Its tests are in `play_rows`.
#![tactic(auto)]

mod call_lists;
mod drawing;
mod emitting;
mod mixing;
mod texels;

pub use call_lists::Calls;
pub use emitting::{calls_draw, emit};
