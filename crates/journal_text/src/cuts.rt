//! Where a recording begins among bytes.
ghost use Rattle.std.specs.Prelude.{◌≡◌, ◌+◌, ◌<◌, ◌≤◌, ◌^◌, length, IfSome};
ghost use Rattle.std.specs.Str.Lines.{lines};
ghost use Rattle.journal_text.specs.Cuts.{cut_recording};

use trace_reader::line_cuts::{cut_ended_line, cut_line};

/// The first line `recording`: how many bytes stand in front of it, and its number, counted from 1.
#[derive(Clone, Copy, Debug, PartialEq, Eq, Drop)]
pub struct Cut {
    pub front: u64,
    pub line: u64,
}

/// Finds the first part between line feeds that is `recording`.
#[tactic(auto, unfolding(crate::specs::Cuts::cut_recording))]
pub fn cut_recording(bytes: &[u8]) -> Option<Cut>
    requires { length bytes.now < 2 ^ 63 }
    ensures value { result ≡ cut_recording bytes.now }
    ensures within { IfSome result (λ c. (c.front ≤ length bytes.now) × (c.line ≤ c.front + 1)) }
{
    let mut front = 0u64;
    let mut line = 1u64;
    let mut rest = bytes;
    'each: while let Some((part, more)) = cut_ended_line(rest) {
        if part == b"recording".as_slice() {
            return Some(Cut { front, line });
        }
        front += part.len() as u64 + 1;
        line += 1;
        rest = more;
    }
    if rest == b"recording".as_slice() {
        return Some(Cut { front, line });
    }
    None
}

/// The number of the line behind the last. Bytes behind the last line feed are a line, where there are any.
pub fn line_behind(bytes: &[u8]) -> u64
    requires { length bytes.now < 2 ^ 63 }
    ensures { result ≡ length (lines bytes.now) + 1 }
{
    let mut number = 1u64;
    let mut rest = bytes;
    'each: while let Some((_, more)) = cut_line(rest) {
        number += 1;
        rest = more;
    }
    number
}
