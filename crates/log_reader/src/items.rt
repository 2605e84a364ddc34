//! What stands behind a log's head.
use crate::answers::Answer;
use egl_calls::{Bytes, Text};
use trace_reader::Line;

/// A call, and what the driver answered.
#[derive(Drop)]
pub struct Called {
    pub line: Line,
    pub answer: Answer,
}

/// What a window shows, as the line with this number tells it: four bytes a pixel, rows from the lowest upward.
#[derive(Drop)]
pub struct Shown {
    pub number: u64,
    pub thread: u32,
    pub window: i64,
    pub bytes: Bytes,
}

#[derive(Drop)]
pub enum Item {
    Call(Called),
    Front(Shown),
}

/// The call that was under way when the log ended, and the word of the crash that ended it, if one was told.
#[derive(Drop)]
pub struct Cut {
    pub line: Line,
    pub word: Option<Text>,
}
