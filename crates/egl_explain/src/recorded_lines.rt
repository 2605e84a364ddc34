//! Lines of a recording that differ from those that should stand there.
use crate::byte_differences::{Layout, MOST_SHOWN, cut_digits, put_difference, put_shortened};
use crate::census_lines::put_census;
use crate::entry_lines::put_outcome;
use crate::judged_entries::JudgedEntry;
use crate::pages::{Ink, Page};
use crate::source_lines::{put_bar, put_line, word_in};
use driver_core::Driver;
use journal_text::RecordedLine;

/// The line that should stand at a place, or the one that stands there.
fn put_recorded(page: &mut Page, title: &str, text: &[u8], ink: Ink) {
    page.put(title);
    page.begin(ink);
    put_shortened(page, text);
    page.end();
    page.end_line();
}

/// The line that should stand at a place, and the one that stands there.
#[derive(Clone, Copy, Drop)]
pub struct Pair<'a> {
    pub expected: &'a [u8],
    pub found: &'a [u8],
}

impl Pair<'_> {
    /// Whether both say the same.
    pub fn agrees(&self) -> bool {
        self.expected == self.found
    }

    /// Whether both are entries of one thread and one line.
    pub fn is_of_one_line(&self) -> bool {
        word_in(self.expected, 0) == word_in(self.found, 0)
            && word_in(self.expected, 1) == word_in(self.found, 1)
    }

    /// Whether one of them is the head of a window's front.
    pub fn is_head(&self) -> bool {
        is_head(self.expected) || is_head(self.found)
    }
}

/// The line of the trace that a recording answers otherwise, and what the specification gives there.
pub fn put_due(
    page: &mut Page,
    lines: &[&[u8]],
    driver: &Driver,
    judged: &JudgedEntry,
    pair: Pair<'_>,
) {
    let entry = &judged.entry;
    let layout = Layout::of_entry(driver, entry);
    put_difference(page, pair.expected, pair.found, layout);
    put_line(page, lines, entry.mark);
    put_outcome(
        page,
        &entry.call,
        &entry.reply,
        &judged.refusals,
        MOST_SHOWN,
    );
}

/// Whether a line is the head of a window's front.
fn is_head(line: &[u8]) -> bool {
    word_in(line, 0) == b"front".as_slice()
}

/// The head of the window's front of which the last line is a row, and the row's number.
pub fn front_row(recorded: &[RecordedLine]) -> Option<(&[u8], u64)> {
    let mut head = None;
    let mut count = 0u64;
    'each: for line in recorded {
        let text = line.text.as_slice();
        if is_head(text) {
            head = Some(text);
            count = 0;
        } else {
            count = count.saturating_add(1);
        }
    }
    if count == 0 {
        return None;
    }
    Some((head?, count - 1))
}

/// Where a row of a window's front differs.
fn put_front_row(page: &mut Page, head: &[u8], row: u64, pair: Pair<'_>) {
    put_bar(page);
    page.put("  behind all entries, in ");
    page.put_bytes(head);
    page.end_line();
    let (_, digits) = cut_digits(pair.expected);
    let layout = Layout::of_row(digits, row);
    put_difference(page, pair.expected, pair.found, Some(layout));
}

/// What there is behind all entries, or where the row differs that is the last of some lines.
pub fn put_rest(page: &mut Page, driver: &Driver, recorded: &[RecordedLine], pair: Pair<'_>) {
    if let Some((head, row)) = front_row(recorded) {
        return put_front_row(page, head, row, pair);
    }
    put_bar(page);
    page.put("  behind all entries");
    page.end_line();
    put_census(page, &driver.census());
}

/// That a thread has no entry.
pub fn put_none(page: &mut Page) {
    put_bar(page);
    page.put("  the thread has no entry there: the trace hasn't it, it is at its end, or it waits");
    page.end_line();
}

/// A line that differs, and the one that should stand there.
pub fn put_both(page: &mut Page, place: u64, pair: Pair<'_>) {
    page.put_in(Ink::Fault, "the recording differs");
    page.put(" in its line ");
    page.put_decimal(place);
    page.end_line();
    put_recorded(page, "found    ", pair.found, Ink::Fault);
    put_recorded(page, "expected ", pair.expected, Ink::Answer);
}

/// The next line of a thread that isn't at its end.
pub fn put_open(page: &mut Page, lines: &[&[u8]], thread: u32, line: u64) {
    page.put_in(Ink::Fault, "the recording ends too early");
    page.put(": thread ");
    page.put_decimal(u64::from(thread));
    page.put(" isn't at its end");
    page.end_line();
    put_line(page, lines, line);
}
