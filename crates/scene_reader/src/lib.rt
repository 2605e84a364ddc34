//! Reads a scene of sprites: the bytes spell one, or the first defective line is named with its reason.
//!
//! It knows no call: a scene is what its lines say.
//!
//! Its tests are in `reader_check`.
#![tactic(auto)]

mod headers;
mod items;
pub mod laws;
mod limits;
mod lines;
mod numbers;
mod placing;
mod progress;
mod reading;
mod scenes;

pub use items::{Atlas, ClipBox, Item, Part, ScaledPart, TiledPart};
pub use limits::least_power;
pub use placing::atlas_with;
pub use scenes::Scene;
