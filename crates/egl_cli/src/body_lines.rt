//! Traces whose body has few lines.
ghost use Rattle.std.specs.Prelude.{◌≡◌, ◌≤◌, length};
ghost use Rattle.egl_flow.specs.Inputs.{most_input};
ghost use Rattle.trace_reader.specs.Reading.{Gives};
ghost use Rattle.egl_cli.specs.BodyLines.{declares, is_body_line, line_past, short_trace};

use std::alloc::Global;
use trace_reader::line_cuts::cut_line;
use trace_reader::word_cuts::{begins_with, cut_word};
use trace_reader::{Reason, Trace, TraceError};

/// How many body lines a trace may have whose races are asked for.
const MOST_RACED: u64 = 2_000;

/// Whether a line's first word declares a window or the limit of bytes.
fn declares(word: &[u8]) -> bool
    ensures { result ≡ declares word.now }
{
    word == b"video".as_slice() || word == b"window".as_slice()
}

/// Whether a line behind the header says something, and declares nothing.
fn is_body_line(line: &[u8]) -> bool
    ensures { result ≡ is_body_line line.now }
{
    if begins_with(line, b'#') {
        return false;
    }
    match cut_word(line) {
        Some((word, _)) => !declares(word),
        None => false,
    }
}

/// The number of the body line that stands behind so many.
fn line_past(most: u64, bytes: &[u8]) -> Option<u64>
    requires { length bytes.now ≤ most_input }
    ensures { result ≡ line_past most bytes.now }
{
    let (_, mut rest) = cut_line(bytes)?;
    let mut number = 2u64;
    let mut left = most;
    'each: while let Some((line, more)) = cut_line(rest) {
        if is_body_line(line) {
            if left == 0 {
                return Some(number);
            }
            left -= 1;
        }
        number += 1;
        rest = more;
    }
    None
}

/// The trace that bytes spell, of at most 2,000 body lines, or the first defect. A longer trace is read whole, since an earlier line may have a defect that comes first.
#[tactic(auto, unfolding(crate::specs::BodyLines::short_trace))]
pub fn short_trace(alloc: Global, bytes: &[u8]) -> Result<Trace, TraceError>
    requires { length bytes.now ≤ most_input }
    ensures { Gives (λ t. t) result (short_trace bytes.now) }
{
    let read = Trace::read_slice(alloc, bytes);
    let Some(past) = line_past(MOST_RACED, bytes) else {
        return read;
    };
    let (line, reason) = match read {
        Err(TraceError::NoMemory) => return Err(TraceError::NoMemory),
        Err(TraceError::Malformed { line, reason }) if line <= past => (line, reason),
        _ => (past, Reason::Limit),
    };
    Err(TraceError::Malformed { line, reason })
}
