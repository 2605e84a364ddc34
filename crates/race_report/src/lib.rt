//! Which entries of a journal touch one thing though nothing in it orders them: the races of a run.
//!
//! It knows no other order than the journal's, and nothing of handles.
//!
//! Its tests are in `play_rows`.
#![tactic(auto)]

mod accesses;
mod clocks;
mod events;
mod journals;
pub mod laws;
mod leading;
mod replays;
mod reports;

pub use events::Event;
pub use replays::report;
pub use reports::{Pair, races};
