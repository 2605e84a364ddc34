//! Laws over traces and their plays on which no code stands: what `gen` writes, and how large the numbers of a play are.
//!
//! The functions of this crate do nothing. Their clauses are the laws, over the definitions of `trace_reader`, `trace_model` and `trace_gen`.
//!
//! It knows no code: what a function does its own contract says.
//!
//! Its tests are in `play_rows`.
#![tactic(auto)]

mod gen_laws;
mod size_laws;

pub use gen_laws::generated_text_has_its_lines;
pub use size_laws::a_play_is_sized_by_its_replies;
