//! The names of EGL and OpenGL ES that a trace may use, their codes, and the words that stand for a number.
//!
//! It knows no call, and no number of Khronos: a code is a place in its list.
//!
//! Its tests are in `topic_check`.
#![tactic(auto)]

pub mod codes;
mod joined;
pub mod laws;
mod names;
mod number_words;

pub use joined::{Word, joined_word, known_word};
pub use names::{code_of, code_of_word, name_of};
pub use number_words::{bit_of_word, number_of_word, number_word};
