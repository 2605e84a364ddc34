//! What a line behind the head leads to.
use trace_reader::Line;

/// The next line, or the end of the log behind a call that has no answer.
#[derive(Drop)]
pub enum Next {
    More,
    Pending(Line),
}
