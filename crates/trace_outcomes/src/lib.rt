//! Every outcome of a short trace: the histories are all its journals, one for each order in which its threads can go on, and an outcome is what one of them answers.
//!
//! It knows no threads of a machine, and no order that is likelier than another: it plays each history by a driver of its own.
//!
//! Its tests are in `reader_check`.
#![tactic(auto)]

mod answers;
mod found;
mod histories;
pub mod laws;
mod listing;
mod ordering;
mod outcomes;
mod recordings;
mod told_entries;

pub use listing::{Listing, MOST_HISTORIES, list_outcomes};
pub use outcomes::Outcome;
pub use recordings::{recorded_outcome, recorded_place};
