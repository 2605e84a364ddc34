//! Tells people and programs about a trace: why its calls are refused, what is left of its objects and what leads to it, what is wrong with a line, and where a recording differs.
//!
//! It knows no lock and no other thread: it plays a trace by one driver, and changes nothing that it tells of.
//!
//! Its tests are the texts of `play_rows`.
#![tactic(auto)]

mod byte_differences;
mod call_words;
mod census_lines;
mod defects;
mod differences;
mod distances;
mod entry_lines;
mod explaining;
mod further;
mod headers;
mod json_entries;
mod json_objects;
mod json_telling;
mod judged_entries;
mod judging;
pub mod laws;
mod object_words;
mod objects;
mod pages;
mod process;
mod races;
mod recorded_lines;
mod references;
mod row_words;
mod source_lines;
mod suspects;
mod telling;
mod waits;

pub use explaining::explain;
pub use judging::{Told, play_told};
pub use pages::{Format, Look};
pub use process::{answer, run};
pub use references::{Holder, LinkRole, ObjectReference, Use, holders_of, references_in};
