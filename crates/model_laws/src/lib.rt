//! What is true of the one-thread specification: laws over the definitions of `egl_model`, and the words in which they are said.
//!
//! The functions of this crate do nothing. Their clauses are the laws.
//!
//! It knows no code: what a function does its own contract says.
//!
//! Its tests are in `play_rows`.
#![tactic(auto)]

pub mod late_laws;
pub mod laws;
pub mod part_laws;
