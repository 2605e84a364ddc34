//! What is wrong with a line of an input.
use crate::call_words::{Argument, CallWords, call_of};
use crate::headers::header_number_in;
use crate::pages::{Ink, Page};
use crate::source_lines::{line_at, put_bar, put_line};
use crate::suspects::{
    ExpectedWord, Suspect, cause_of_line, expected_line, unknown_in, word_at_fault,
};
use crate::telling::Defective;
use egl_calls::NoMemory;
use std::alloc::Global;
use trace_reader::Reason;
use trace_reader::word_cuts::{word_at, words};

/// The place of a word's first byte in a line; the line's end past the last word.
pub fn column_of(line: &[u8], word: usize) -> usize {
    let mut left = word;
    let mut in_word = false;
    'each: for (k, byte) in line.iter().enumerate() {
        if *byte == b' ' {
            in_word = false;
        } else if !in_word {
            in_word = true;
            if left == 0 {
                return k;
            }
            left -= 1;
        }
    }
    line.len()
}

/// The mark under a word.
fn put_mark(page: &mut Page, column: usize, width: usize) {
    put_bar(page);
    page.put_spaces(column);
    page.begin(Ink::Fault);
    'each: for _ in 0..width.max(1) {
        page.put("^");
    }
    page.end();
    page.end_line();
}

/// What should stand in the place of a word or a line.
fn put_expected(page: &mut Page, expected: ExpectedWord) {
    put_bar(page);
    page.put("  expected here: ");
    match expected {
        ExpectedWord::Argument(argument) => argument.put(page),
        ExpectedWord::Other(text) => page.put(text),
    }
    page.end_line();
}

/// What the arguments of a call are.
fn put_call(page: &mut Page, call: CallWords) {
    put_bar(page);
    page.put("  the call is: ");
    page.put(call.name);
    'each: for (form, word) in call.forms.iter().zip(call.words) {
        page.put(" ");
        Argument { form: *form, word }.put(page);
    }
    page.end_line();
}

/// The call of a line whose arguments are at fault.
fn put_called(page: &mut Page, words: &[&[u8]], reason: Reason) {
    if !matches!(reason, Reason::Argument) {
        return;
    }
    'each: for word in words {
        if let Some(call) = call_of(word) {
            return put_call(page, call);
        }
    }
}

/// The part of a word that is no name; else the word.
pub fn unknown_part_of(word: &[u8]) -> &[u8] {
    match unknown_in(word) {
        Some(part) => part,
        None => word,
    }
}

/// That a word, or an item of it, is the number of a name in the headers.
fn put_header_number(page: &mut Page, word: &[u8]) {
    if let Some((number, name)) = header_number_in(word) {
        put_bar(page);
        page.put("  ");
        page.put_bytes(number);
        page.put(" is the number of ");
        page.put_in(Ink::Answer, name);
        page.put(" in the headers; a trace writes the name");
        page.end_line();
    }
}

/// The word at fault with a mark under it, what should stand there, and the nearest name.
fn put_suspect(page: &mut Page, line: &[u8], words: &[&[u8]], found: Suspect) {
    put_mark(
        page,
        column_of(line, found.word),
        word_at(words, found.word).len(),
    );
    put_expected(page, found.expected);
    put_header_number(page, word_at(words, found.word));
    if let Some(nearest) = found.nearest {
        put_bar(page);
        page.put("  ");
        page.put_bytes(unknown_part_of(word_at(words, found.word)));
        page.put(": did you mean ");
        page.put_in(Ink::Answer, nearest);
        page.put("?");
        page.end_line();
    }
}

/// The lines in front of one with a number.
pub fn lines_before<'a, 'b>(lines: &'b [&'a [u8]], number: u64) -> &'b [&'a [u8]] {
    let count = (number.saturating_sub(1) as usize).min(lines.len());
    let (before, _) = lines.split_at(count);
    before
}

/// The heading of a defect, and its line.
fn put_head(page: &mut Page, lines: &[&[u8]], number: u64, reason: Reason) {
    page.put_in(Ink::Fault, "malformed: ");
    page.put(reason.name());
    page.put(" in line ");
    page.put_decimal(number);
    page.end_line();
    put_line(page, lines, number);
}

/// What the whole line is defective for.
fn put_cause(page: &mut Page, cause: &str) {
    put_bar(page);
    page.put("  ");
    page.put(cause);
    page.end_line();
}

/// What is wrong with a line of these words.
fn put_words(
    alloc: Global,
    page: &mut Page,
    lines: &[&[u8]],
    number: u64,
    reason: Reason,
    words: &[&[u8]],
) -> Result<(), NoMemory> {
    let before = lines_before(lines, number);
    match word_at_fault(alloc, lines, before, words, reason)? {
        Some(found) => put_suspect(page, line_at(lines, number), words, found),
        None => put_expected(page, ExpectedWord::Other(expected_line(reason))),
    }
    put_called(page, words, reason);
    Ok(())
}

/// The first line that isn't in its form: the line, the word at fault with a mark under it, and what should stand there. Lines lack the carriage return that may stand behind them.
pub fn put_defect(
    alloc: Global,
    page: &mut Page,
    lines: &[&[u8]],
    defective: Defective,
) -> Result<(), NoMemory> {
    let Defective {
        number,
        reason,
        returned,
    } = defective;
    put_head(page, lines, number, reason);
    let line = line_at(lines, number);
    if let Some(cause) = cause_of_line(line, returned, reason) {
        put_cause(page, cause);
        return Ok(());
    }
    let words = words(alloc, line)?;
    put_words(alloc, page, lines, number, reason, &words)
}
