//! Tables of refusals: the rows of a call, each a condition and the error that it makes, in the order of the tests.
//!
//! It knows no call and no state: a condition is a flag, an error any type.
//!
//! Its tests are in `topic_check`.
#![tactic(auto)]

mod rows;

pub use rows::{Holding, Judge, MOST_ROWS, Verdict};
