//! Tells people every outcome that a short trace can have.
//!
//! It knows no driver: what a trace can answer is listed below.
//!
//! Its tests are in `reader_check`.
#![tactic(auto)]

mod answering;
mod columns;
mod process;
mod texts;

pub use answering::answer_bytes;
pub use process::{answer, run};
