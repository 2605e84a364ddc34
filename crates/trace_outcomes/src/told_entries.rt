//! The entries of a recording, with handles told by the lines that made them.
ghost use Rattle.std.specs.Prelude.{◌≡◌, ◌==◌, ◌++◌, codes, find, map, option_copied, IfOk, OnOk};
ghost use Rattle.journal_text.specs.Recorded.{parts};
ghost use Rattle.trace_outcomes.specs.Outcomes.{answers_handle};
ghost use Rattle.trace_outcomes.specs.Recordings.{line_named, says_done, says_made, handle_word, handle_line, told_line, told_lines};

use crate::answers::{answers_handle, makes_handle};
use egl_calls::{NoMemory, Text};
use journal_text::RecordedLine;
use journal_text::texts::put_byte;
use std::alloc::{AllocError, Global};
use trace_reader::Line;
use trace_reader::numerals::numeral;
use trace_reader::word_cuts::word_at;

/// The largest number of a line.
const LARGEST_LINE: u64 = 4_294_967_295;

/// The words of a line, which one space parts.
fn split_parts<'a>(alloc: Global, text: &'a [u8]) -> Result<Vec<&'a [u8]>, AllocError>
    ensures { IfOk result (λ v. map (λ w. w.now) v.items ≡ parts text.now) }
{
    text.split(|b| *b == b' ').collect(alloc)
}

fn parts<'a>(alloc: Global, text: &'a [u8]) -> Result<Vec<&'a [u8]>, NoMemory>
    ensures { IfOk result (λ v. map (λ w. w.now) v.items ≡ parts text.now) }
{
    match split_parts(alloc, text) {
        Ok(words) => Ok(words),
        Err(_) => Err(NoMemory),
    }
}

/// The line with a number.
fn line_numbered(lines: &[Line], number: u64) -> Option<&Line>
    ensures { option_copied result ≡ find (λ l. l.number == number) lines.now }
{
    'each: for line in lines {
        if line.number == number {
            return Some(line);
        }
    }
    None
}

/// The line of the trace that an entry's words name.
fn line_named<'a>(lines: &'a [Line], words: &[&[u8]]) -> Option<&'a Line>
    ensures { option_copied result ≡ line_named lines.now (map (λ w. w.now) words.now) }
{
    match numeral(LARGEST_LINE, word_at(words, 1)) {
        Some(number) => line_numbered(lines, number),
        None => None,
    }
}

/// Whether words say that a call was carried out that answers a handle.
fn says_answered(lines: &[Line], words: &[&[u8]]) -> bool
    ensures { result ≡ says_done answers_handle lines.now (map (λ w. w.now) words.now) }
{
    if word_at(words, 2) != b"ok".as_slice() {
        return false;
    }
    match line_named(lines, words) {
        Some(line) => answers_handle(line.call.kind()),
        None => false,
    }
}

/// Whether they say that a call was carried out that made the handle with this number.
fn says_made(lines: &[Line], handle: &[u8], words: &[&[u8]]) -> bool
    ensures { result ≡ says_made lines.now handle.now (map (λ w. w.now) words.now) }
{
    if word_at(words, 2) != b"ok".as_slice() {
        return false;
    }
    match line_named(lines, words) {
        Some(line) => makes_handle(line.call.kind()) && word_at(words, 3) == handle,
        None => false,
    }
}

/// The first entry that says that a handle was made.
fn maker<'a>(
    alloc: Global,
    lines: &[Line],
    entries: &'a [RecordedLine],
    handle: &[u8],
) -> Result<Option<&'a RecordedLine>, NoMemory>
    ensures { IfOk result (λ o. option_copied o ≡ find (λ l. says_made lines.now handle.now (parts l.text)) entries.now) }
{
    'each: for entry in entries {
        let words = parts(alloc, entry.text.as_slice())?;
        if says_made(lines, handle, words.as_slice()) {
            return Ok(Some(entry));
        }
    }
    Ok(None)
}

/// A handle by the line that made it, or its number where no entry says that it was made.
fn handle_word(
    alloc: Global,
    lines: &[Line],
    entries: &[RecordedLine],
    handle: &[u8],
) -> Result<Text, NoMemory>
    ensures { IfOk result (λ x. x ≡ handle_word lines.now entries.now handle.now) }
{
    let mut text = Text::new(alloc);
    match maker(alloc, lines, entries, handle)? {
        Some(entry) => {
            let words = parts(alloc, entry.text.as_slice())?;
            put_byte(&mut text, b'@')?;
            text.extend(word_at(words.as_slice(), 1))?;
        }
        None => text.extend(handle)?,
    }
    Ok(text)
}

/// A word, and a space behind it.
fn put_word(out: &mut Text, word: &[u8]) -> Result<(), NoMemory>
    ensures { OnOk result (out.new ≡ out.old ++ word.now ++ codes " ") }
{
    out.extend(word)?;
    put_byte(out, b' ')
}

/// The words of an entry with another in place of its value.
#[tactic(auto, unfolding(crate::specs::Recordings::handle_line))]
fn handle_line(alloc: Global, words: &[&[u8]], handle: &[u8]) -> Result<Text, NoMemory>
    ensures { IfOk result (λ x. x ≡ handle_line (map (λ w. w.now) words.now) handle.now) }
{
    let mut text = Text::new(alloc);
    put_word(&mut text, word_at(words, 0))?;
    put_word(&mut text, word_at(words, 1))?;
    put_word(&mut text, word_at(words, 2))?;
    put_word(&mut text, handle)?;
    put_word(&mut text, word_at(words, 4))?;
    text.extend(word_at(words, 5))?;
    Ok(text)
}

/// A text of its own.
fn copy_of(alloc: Global, bytes: &[u8]) -> Result<Text, NoMemory>
    ensures { IfOk result (λ x. x ≡ bytes.now) }
{
    let mut text = Text::new(alloc);
    text.extend(bytes)?;
    Ok(text)
}

/// An entry's line, with its handle told by the line that made it.
fn told_line(
    alloc: Global,
    lines: &[Line],
    entries: &[RecordedLine],
    entry: &RecordedLine,
) -> Result<Text, NoMemory>
    ensures { IfOk result (λ x. x ≡ told_line lines.now entries.now entry.now) }
{
    let words = parts(alloc, entry.text.as_slice())?;
    if says_answered(lines, words.as_slice()) {
        let handle = handle_word(alloc, lines, entries, word_at(words.as_slice(), 3))?;
        return handle_line(alloc, words.as_slice(), handle.as_slice());
    }
    copy_of(alloc, entry.text.as_slice())
}

/// All of them.
pub fn told_lines(
    alloc: Global,
    lines: &[Line],
    entries: &[RecordedLine],
) -> Result<Vec<Text>, NoMemory>
    ensures { IfOk result (λ v. v.items ≡ told_lines lines.now entries.now) }
{
    let mut texts = Vec::new(alloc);
    'each: for entry in entries {
        let Ok(()) = texts.push(told_line(alloc, lines, entries, entry)?) else {
            return Err(NoMemory);
        };
    }
    Ok(texts)
}
