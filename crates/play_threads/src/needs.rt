//! What a thread waits for that is blocked.
use shared_driver::Wanted;
use trace_reader::Line;
use trace_session::{Session, awaited, is_await};

// The number of a line that a line waits for, since it assigns one of its variables.
fn missing(session: &Session, line: &Line) -> Option<u64> {
    'each: for used in line.uses.as_slice() {
        let open = session.open_line(used.variable);
        if open.is_some() {
            return open;
        }
    }
    None
}

/// What a line waits for, by what a session knows: an answer, or else a post.
pub(crate) fn wanted(session: &Session, line: &Line) -> Wanted {
    if let Some(mark) = missing(session, line) {
        return Wanted::Answer(mark);
    }
    if is_await(line.call.kind()) {
        return Wanted::Post(awaited(&line.call));
    }
    Wanted::Entry
}
