//! Lines of JSON: one object each, whose numbers are integers, in the order of its names and without spaces.
//!
//! It knows no trace: names, texts, numbers and lists.
//!
//! Its tests are the texts of `play_rows`.
#![tactic(auto)]

mod lines;
mod lists;
mod objects;

pub use lines::JsonLines;
pub use lists::JsonList;
pub use objects::JsonObject;
