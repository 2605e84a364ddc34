//! Reads the log of a driver: the bytes spell one, or the first defective line is named with its reason.
//!
//! What stands in front of ` => ` is read as in a trace. It knows no driver and judges no answer: whether bytes are a log doesn't hang on what calls should answer.
//!
//! Its tests are in `reader_check`.
#![tactic(auto)]

mod answers;
mod bodies;
mod configs;
mod forms;
mod heads;
mod items;
mod lines;
mod logs;
mod numbers;
mod outcomes;
mod reading;
mod reasons;
mod steps;
mod words;

pub use answers::Answer;
pub use configs::LogConfig;
pub use forms::{needs_no_answer, takes_config};
pub use items::{Called, Cut, Item, Shown};
pub use logs::Log;
pub use outcomes::LogOutcome;
pub use reasons::{LogDefect, LogError, LogReason};
