//! The lines of an input as they stand there.

use crate::pages::{Ink, Page};
use egl_calls::NoMemory;
use std::alloc::Global;
use trace_reader::line_cuts::{cut_ended_line, cut_line};
use trace_reader::word_cuts::{begins_with, cut_word};

/// The width of a line's number.
const NUMBER_WIDTH: usize = 6;

/// The lines of bytes, which are numbered from 1.
pub fn lines_of(alloc: Global, bytes: &[u8]) -> Result<Vec<&[u8]>, NoMemory> {
    let mut found = Vec::new(alloc);
    let mut rest = bytes;
    'each: while let Some((line, more)) = cut_line(rest) {
        let Ok(()) = found.push(line) else {
            return Err(NoMemory);
        };
        rest = more;
    }
    Ok(found)
}

/// Whether a carriage return stands at the end of the line of bytes that stands behind so many.
pub fn is_returned(bytes: &[u8], before: u64) -> bool {
    let mut left = before;
    let mut rest = bytes;
    'each: while let Some((line, more)) = cut_ended_line(rest) {
        if left == 0 {
            return line.ends_with(b"\r");
        }
        left -= 1;
        rest = more;
    }
    false
}

/// The line with a number; the empty one where there is none.
pub fn line_at<'a>(lines: &[&'a [u8]], number: u64) -> &'a [u8] {
    if number == 0 {
        return b"";
    }
    match lines.get((number - 1) as usize) {
        Some(line) => *line,
        None => b"",
    }
}

/// Whether a line is empty, has only spaces, or is a comment.
pub fn says_nothing(line: &[u8]) -> bool {
    begins_with(line, b'#') || cut_word(line).is_none()
}

/// The word at a place of a line, counted from 0; the empty one where there is none.
pub fn word_in(line: &[u8], place: usize) -> &[u8] {
    let mut rest = line;
    'each: for _ in 0..place {
        match cut_word(rest) {
            Some((_, more)) => rest = more,
            None => return b"",
        }
    }
    match cut_word(rest) {
        Some((word, _)) => word,
        None => b"",
    }
}

/// The variable that a line of a trace assigns; the empty word where it assigns none.
pub fn assigned_in(line: &[u8]) -> &[u8] {
    let word = word_in(line, 1);
    if begins_with(word, b'$') && word_in(line, 2) == b"=".as_slice() {
        word
    } else {
        b""
    }
}

/// How many digits a number has, seven at most.
fn digit_count(number: u64) -> usize {
    let mut count = 1;
    let mut least = 10u64;
    'each: for _ in 0..NUMBER_WIDTH {
        if number < least {
            return count;
        }
        count = count.saturating_add(1);
        least = least.saturating_mul(10);
    }
    count
}

/// The number of a line, and the bar behind it.
pub fn put_number(page: &mut Page, number: u64) {
    page.put_spaces(NUMBER_WIDTH.saturating_sub(digit_count(number)));
    page.begin(Ink::Pale);
    page.put_decimal(number);
    page.put(" | ");
    page.end();
}

/// A bar without a number.
pub fn put_bar(page: &mut Page) {
    page.put_spaces(NUMBER_WIDTH);
    page.put_in(Ink::Pale, " | ");
}

/// A line with its number.
pub fn put_line(page: &mut Page, lines: &[&[u8]], number: u64) {
    put_number(page, number);
    page.put_bytes(line_at(lines, number));
    page.end_line();
}
