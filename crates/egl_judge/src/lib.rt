//! Judges the log of a driver: its words and a source in, a status and a sink's bytes out.
//!
//! It knows no rule of EGL: what is found of a line `driver_judge` says, and what bytes are a log `log_reader`.
//!
//! Its tests are in `reader_check`.
#![tactic(auto)]

mod answers;
mod differences;
mod explaining;
mod judgements;
mod numbers;
mod process;
mod reasons;
mod requests;
mod responding;

pub use judgements::judgement_text;
pub use process::run;
pub use requests::Request;
pub use responding::top;
