//! The program's commands: words and a source in, a status and a sink's bytes out.
//!
//! It knows no rule of EGL: each command is one of the crates below.
//!
//! Why it is as it is:
//!
//! - A command takes exactly its own words: `play` may have `summary` behind it, `gen` has three numbers and `compose` two, and the others with a word behind them are no command. `configs` and `gen` don't look at their input.
//! - `compose` makes its frames of a run's journal, by a second driver that plays the journal's calls again. So its definition is one of any journal, the run is that of `serial` to the last step, and the first driver's pixels are gone before the second has any.
//! - A word that isn't UTF-8 makes the words no command. Where the words find no memory, the status is 7.
//! - `top` and `play_words` take the runtime by its bounds `Threads` and `Wait`, and the allocator apart from it. `plain` has neither bound, so it can't start a thread and always returns; to it `play` is no command. `top` and `plain` have the same clauses, and `play_words` those for `play`, by the command that the words are, which `plain` reads without `play`.
//! - `run` takes the process's words, standard input and output beside the runtime: a function that may wait can't name the program's own runtime, only `main` can, and of words that it takes itself no clause could say anything. What it does to them is a clause of its own: they are all behind the first. Where one of them isn't UTF-8 std gives none of them, and the words are no command.
//! - What is said to a defect is made in room on the stack, and the other texts that take no input are constants: none of them wants memory, and each goes to the sink in one piece.
//! - `races` finds the line past its limit by a pass of its own over the bytes, behind the reader: the reader's definition has one limit of body lines, which every other command has, and a body line is told by its first word alone. A defect before that line comes first, and so does another one in it, as with every limit.
//!
//! Its tests are in `driver_check`.
#![tactic(auto)]

mod answers;
mod body_lines;
mod commands;
mod config_lines;
mod frames;
mod inputs;
pub mod laws;
mod places;
mod playing;
mod process;
mod races;
mod respond;
mod stalled_lines;
mod telling;
mod turns;
mod verdict_lines;

pub use egl_flow::Status;
pub use play_threads::{Gate, OpenGate};
pub use playing::{play_words, top};
pub use process::run;
pub use respond::plain;
