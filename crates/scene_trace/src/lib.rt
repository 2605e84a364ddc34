//! Scenes as traces: the calls that draw a scene, as the lines of a trace.
//!
//! It knows no picture: calls as lines.
//!
//! Its tests are in `play_rows`.
#![tactic(auto)]

mod lines;
mod rows;
mod writing;

pub use writing::{scene_text, text_is_read};
