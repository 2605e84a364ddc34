//! A trace of several threads, played by as many at once over one driver, in one legal history.
//!
//! It knows no text: a trace in, a run out.
//!
//! Its tests are in `driver_check`.
#![tactic(auto)]

mod gates;
mod lone_lines;
mod needs;
mod pickers;
mod plays;
mod runs;
mod starts;
mod thread_work;
mod workers;

pub use gates::{Gate, OpenGate};
pub use plays::play;
pub use thread_work::work;
