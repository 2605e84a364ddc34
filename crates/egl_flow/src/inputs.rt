//! How much the programs read, and what they say where an input can't be read.

/// How many bytes an input may have.
pub const MOST_INPUT: u64 = 33_554_432;

/// What is said where the source failed.
pub const READ_FAULT_TEXT: &[u8] = b"read fault\n";

/// What is said of an input that is too long.
pub const TOO_LONG_TEXT: &[u8] = b"too long\n";
