//! The text of a journal: the recording of a run, written and read.
//!
//! It judges nothing: text of entries, both ways.
//!
//! Its tests are in `play_rows`.
#![tactic(auto)]

mod cuts;
mod entries;
mod fronts;
pub mod laws;
mod recorded_words;
mod recordings;
mod stages;
mod summaries;
pub mod texts;
mod writing;

pub use cuts::{Cut, cut_recording, line_behind};
pub use entries::{entry_line, put_entry_line, put_hex, put_list};
pub use recordings::{RecordedLine, Recording, read, read_slice};
pub use summaries::{sum_of, summary};
pub use writing::{put_rest, rest, write};
