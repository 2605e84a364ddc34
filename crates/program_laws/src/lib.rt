//! Laws over what the program answers on which no code stands: which traces are short.
//!
//! The functions of this crate do nothing. Their clauses are the laws, over the definitions of `trace_reader` and `egl_cli`.
//!
//! It knows no code: what a function does its own contract says.
//!
//! Its tests are in `play_rows`.
#![tactic(auto)]

mod short_laws;

pub use short_laws::a_short_trace_has_few_lines;
