//! Attribute lists: which attributes and values the lists of a call may have, and the value that counts.
//!
//! It knows no call: a kind of list stands for those that take it.
//!
//! Its tests are in `topic_check`.
#![tactic(auto)]

mod allowed;
pub mod laws;
mod list;

pub use allowed::{Allowed, is_allowed, is_dont_care};
pub use list::{AttribError, AttribList, bad_place, value_of};
