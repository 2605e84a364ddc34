//! The configs of the driver: their attributes, and which of them an attribute list chooses.
//!
//! It knows no display and no surface: a config is its attributes.
//!
//! Its tests are in `topic_check`.
#![tactic(auto)]

mod choose;
mod compatible;
mod key;
pub mod laws;
mod matching;
mod surface_bits;
mod table;

pub use choose::Configs;
pub use surface_bits::SurfaceBits;
pub use table::{Caveat, Config};
