//! In what an answer differs.
use driver_facts::Refusals;
use egl_calls::{Bytes, Kind, List};
use log_reader::LogOutcome;

/// How pixels differ: how many, of how many; the least step by which all would agree; the least rectangle that has them, with its first and last column and row; and the first of them, with our bytes and theirs. Bytes behind the last pixel of a row stand in the column behind it.
#[derive(Drop)]
pub struct PixelDifference {
    pub count: u64,
    pub of: u64,
    pub largest: u64,
    pub left: u64,
    pub bottom: u64,
    pub right: u64,
    pub top: u64,
    pub x: u64,
    pub y: u64,
    pub expected: Bytes,
    pub found: Bytes,
}

/// In what an answer differs from each that would have agreed. A number that nothing stands for in the other driver is `None`.
#[derive(Drop)]
pub enum Difference {
    /// How the call came out, beside all that would have agreed, and why: the rows of the table of its kind that hold.
    Outcome {
        expected: List<LogOutcome>,
        found: LogOutcome,
        kind: Kind,
        refusals: Refusals,
    },
    Value {
        expected: Option<i128>,
        found: i128,
    },
    Items {
        expected: List<Option<i128>>,
        found: List<i128>,
    },
    Pixels(PixelDifference),
    /// How many bytes there are.
    Length {
        expected: u64,
        found: u64,
    },
}
