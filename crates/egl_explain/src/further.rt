//! What else differs behind the first line of a recording that does. The specification's answers count in place of those that differ.
ghost use Rattle.std.specs.Prelude.{◌≤◌};

use crate::judged_entries::judge_next;
use crate::pages::Page;
use crate::recorded_lines::Pair;
use crate::telling::Teller;
use driver_core::Driver;
use egl_calls::NoMemory;
use journal_text::{RecordedLine, entry_line, rest};
use std::alloc::Global;
use trace_reader::line_cuts::cut_ended_line;
use trace_session::Session;

/// How many lines that differ are told of behind the first, at most. The others are counted.
const MOST_TOLD: u64 = 20;

/// The lines behind the first that differ: how many there are, and whether all lines were compared.
#[derive(Clone, Copy, Debug, PartialEq, Eq, Drop)]
pub struct Further {
    pub count: u64,
    pub is_whole: bool,
}

impl Further {
    /// One line more differs, and behind it nothing is compared.
    fn ended(self) -> Further {
        Further {
            count: self.count.saturating_add(1),
            is_whole: false,
        }
    }

    /// Nothing more is compared.
    fn cut_off(self) -> Further {
        Further {
            count: self.count,
            is_whole: false,
        }
    }

    /// So many lines more differ.
    fn plus(self, more: u64) -> Further {
        Further {
            count: self.count.saturating_add(more),
            is_whole: self.is_whole,
        }
    }

    /// Whether one line more is told of.
    fn tells(&self) -> bool {
        self.count < MOST_TOLD
    }
}

/// What a line of a recording is beside the entry that its thread has next.
#[derive(Clone, Copy, Debug, PartialEq, Eq, Drop)]
enum Beside {
    /// It is that entry's.
    Same,
    /// It answers the same line of the trace otherwise.
    Answered,
    /// It is another line's, or the thread has no entry.
    Other,
}

/// A line of a recording, and its place behind the first.
#[derive(Clone, Copy, Drop)]
struct Found<'a> {
    text: &'a [u8],
    place: u64,
    is_told: bool,
}

/// That a thread has no entry where a line of it stands.
fn put_missing<T: Teller>(teller: &mut T, found: Found<'_>) {
    if found.is_told {
        let pair = Pair {
            expected: b"none",
            found: found.text,
        };
        teller.difference(found.place, pair);
        teller.none_due();
    }
}

/// Plays the entry that a thread has next, and tells of it where the line found is another.
fn put_next<T: Teller>(
    alloc: Global,
    teller: &mut T,
    lines: &[&[u8]],
    driver: &mut Driver,
    session: &mut Session,
    thread: u32,
    found: Found<'_>,
) -> Result<Beside, NoMemory>
    requires { session.old.trace.threads ≤ driver.old.made }
    ensures { session.new.trace.threads ≤ driver.new.made }
{
    let Some(judged) = judge_next(alloc, driver, session, thread)? else {
        put_missing(teller, found);
        return Ok(Beside::Other);
    };
    let expected = entry_line(alloc, &judged.entry)?;
    let pair = Pair {
        expected: expected.as_slice(),
        found: found.text,
    };
    if pair.agrees() {
        return Ok(Beside::Same);
    }
    if found.is_told {
        teller.difference(found.place, pair);
        teller.due(lines, driver, &judged, pair);
    }
    if pair.is_of_one_line() {
        Ok(Beside::Answered)
    } else {
        Ok(Beside::Other)
    }
}

/// Tells of each entry's line behind a place that differs, up to one that is another line's.
fn put_entries<T: Teller>(
    alloc: Global,
    teller: &mut T,
    lines: &[&[u8]],
    driver: &mut Driver,
    session: &mut Session,
    behind: &[RecordedLine],
    place: u64,
) -> Result<Further, NoMemory>
    requires { session.old.trace.threads ≤ driver.old.made }
    ensures { session.new.trace.threads ≤ driver.new.made }
{
    let mut at = place;
    let mut further = Further {
        count: 0,
        is_whole: true,
    };
    'each: for line in behind {
        let Some(thread) = line.thread else {
            return Ok(further);
        };
        at = at.saturating_add(1);
        let found = Found {
            text: line.text.as_slice(),
            place: at,
            is_told: further.tells(),
        };
        match put_next(alloc, teller, lines, driver, session, thread, found)? {
            Beside::Same => {}
            Beside::Answered => further = further.plus(1),
            Beside::Other => return Ok(further.ended()),
        }
    }
    Ok(further)
}

/// The next line of the first thread that isn't at its end.
fn open_line(session: &Session) -> Option<(u32, u64)> {
    'each: for thread in 0..session.threads() {
        if let Some(line) = session.next(thread) {
            return Some((thread, line));
        }
    }
    None
}

/// The first line of a text, and the text behind it.
fn cut_part(text: &[u8]) -> (&[u8], &[u8]) {
    match cut_ended_line(text) {
        Some(parts) => parts,
        None => (text, b""),
    }
}

/// Tells of each line behind the entries that differs and stands behind a place, up to the head of a front. It answers how many there are.
fn put_shown<T: Teller>(
    teller: &mut T,
    driver: &Driver,
    recorded: &[RecordedLine],
    text: &[u8],
    place: u64,
    before: Further,
) -> Further {
    let mut left = text;
    let mut further = before;
    let mut at = 0u64;
    'each: for line in recorded {
        at = at.saturating_add(1);
        if line.thread.is_none() {
            let (expected, more) = cut_part(left);
            left = more;
            let pair = Pair {
                expected,
                found: line.text.as_slice(),
            };
            if at > place && !pair.agrees() {
                if further.tells() {
                    put_shown_line(teller, driver, recorded, at, pair);
                }
                if pair.is_head() {
                    return further.ended();
                }
                further = further.plus(1);
            }
        }
    }
    further
}

/// Tells of one line behind the entries.
fn put_shown_line<T: Teller>(
    teller: &mut T,
    driver: &Driver,
    recorded: &[RecordedLine],
    place: u64,
    pair: Pair<'_>,
) {
    teller.difference(place, pair);
    let (front, _) = recorded.split_at((place as usize).min(recorded.len()));
    teller.rest(driver, front, pair);
}

/// Tells of each line behind a place that differs.
pub fn put_further<T: Teller>(
    alloc: Global,
    teller: &mut T,
    lines: &[&[u8]],
    driver: &mut Driver,
    session: &mut Session,
    recorded: &[RecordedLine],
    place: u64,
) -> Result<Further, NoMemory>
    requires { session.old.trace.threads ≤ driver.old.made }
{
    let (_, behind) = recorded.split_at((place as usize).min(recorded.len()));
    let further = put_entries(alloc, teller, lines, driver, session, behind, place)?;
    if !further.is_whole {
        return Ok(further);
    }
    if let Some((thread, line)) = open_line(session) {
        teller.open(lines, thread, line);
        return Ok(further.cut_off());
    }
    let text = rest(alloc, driver)?;
    Ok(put_shown(teller, driver, recorded, text.as_slice(), place, further))
}

/// How many lines differ with the first, where more than that do.
pub fn put_sum(page: &mut Page, further: Further) {
    if further.count == 0 {
        return;
    }
    if further.is_whole {
        page.put("in all ");
    }
    page.put_decimal(further.count.saturating_add(1));
    page.put(" lines differ");
    if further.count > MOST_TOLD {
        page.put(", of which the first ");
        page.put_decimal(MOST_TOLD.saturating_add(1));
        page.put(" are told");
    }
    if !further.is_whole {
        page.put("; what follows isn't compared");
    }
    page.end_line();
}
