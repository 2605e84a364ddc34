//! Buffer objects (OpenGL ES 1.1, section 2.9).
//!
//! It knows no name and no limit of bytes: one buffer.
//!
//! Its tests are in `topic_check`.
#![tactic(auto)]

mod buffers;
mod contents;
mod usages;

pub use buffers::Buffer;
