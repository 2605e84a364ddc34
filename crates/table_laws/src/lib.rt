//! Laws over the table of calls on which no code stands: which calls take a place of the journal, and at which place of a call's numbers each parameter stands.
//!
//! The functions of this crate do nothing. Their clauses are the laws, over the rows of `call_table` and the places of `egl_calls`.
//!
//! It knows no state: what a call does `egl_model` says.
//!
//! Its tests are in `play_rows`.
#![tactic(auto)]

mod place_laws;
mod word_laws;

pub use place_laws::kinds_that_take_a_place_are_these;
pub use word_laws::words_stand_at_their_places;
