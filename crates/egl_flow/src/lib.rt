//! Bytes in and out of a program, with counted faults: what a contract may say of input and output, and how a program ends.
//!
//! It knows no trace: bytes, counts and how a program ends.
//!
//! Its tests are in `topic_check`.
#![tactic(auto)]

mod inputs;
mod memory;
mod reading;
mod responding;
mod statuses;
mod streams;
mod telling;
mod waiting;
mod writing;

pub use inputs::{MOST_INPUT, READ_FAULT_TEXT, TOO_LONG_TEXT};
pub use memory::{MemorySink, MemorySource};
pub use reading::{Failed, ReadError, Source, read_all};
pub use responding::{Answer, Responder, respond};
pub use statuses::Status;
pub use streams::{StdSink, StdSource};
pub use telling::finish;
pub use waiting::Waiting;
pub use writing::{Sink, WriteFault, write_all, write_slice};
