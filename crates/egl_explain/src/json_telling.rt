//! What is told to programs, a line of JSON for each thing.
use crate::defects::{column_of, lines_before, unknown_part_of};
use crate::further::Further;
use crate::headers::header_number_in;
use crate::json_entries::{entry_object, object_of, object_of_line};
use crate::json_objects::{census_object, inventory_object, put_bytes};
use crate::judged_entries::JudgedEntry;
use crate::object_words::Inventory;
use crate::races::{Access, Race};
use crate::recorded_lines::{Pair, front_row};
use crate::references::Holder;
use crate::source_lines::{assigned_in, line_at};
use crate::suspects::{ExpectedWord, Suspect, cause_of_line, expected_line, word_at_fault};
use crate::telling::{Defective, Teller};
use crate::waits::{Cause, Wait};
use driver_core::{Driver, Refusals};
use egl_calls::{Entry, NoMemory, Reply};
use journal_text::RecordedLine;
use json_lines::{JsonLines, JsonObject};
use std::alloc::Global;
use trace_reader::Line;
use trace_reader::word_cuts::{word_at, words};

/// How many bytes of a line are told, at most. A longer one isn't.
const MOST_TOLD: usize = 4_096;

/// An entry that races, and what it does.
fn access_object(
    alloc: Global,
    entry: &Entry,
    access: Option<Access>,
) -> Result<JsonObject, NoMemory> {
    let mut object = JsonObject::new(alloc);
    object.put_count("thread", u64::from(entry.thread))?;
    object.put_count("line", entry.mark)?;
    match access {
        Some(Access::Reads) => object.put_text("access", "reads")?,
        Some(Access::Writes) => object.put_text("access", "writes")?,
        None => {}
    }
    Ok(object)
}

/// What two entries touch: an object, or the front of a window.
fn put_thing(object: &mut JsonObject, thing: i64) -> Result<(), NoMemory> {
    if thing < 0 {
        object.put_count("window", thing.unsigned_abs())
    } else {
        object.put_count("object", thing as u64)
    }
}

fn race_object(alloc: Global, race: &Race<'_>) -> Result<JsonObject, NoMemory> {
    let mut object = object_of(alloc, "race")?;
    let (first, second) = match race.shared {
        Some(shared) => (Some(shared.first), Some(shared.second)),
        None => (None, None),
    };
    object.put_object("first", access_object(alloc, race.first, first)?)?;
    object.put_object("second", access_object(alloc, race.second, second)?)?;
    if let Some(shared) = race.shared {
        put_thing(&mut object, shared.thing)?;
    }
    Ok(object)
}

/// The line behind which its thread isn't.
fn put_awaited(object: &mut JsonObject, line: &Line) -> Result<(), NoMemory> {
    object.put_count("of_thread", u64::from(line.thread))?;
    object.put_count("of_line", line.number)
}

/// What a thread waits for.
fn put_cause(
    object: &mut JsonObject,
    inventory: &Inventory,
    cause: Cause<'_>,
) -> Result<(), NoMemory> {
    match cause {
        Cause::Sync(sync) => {
            object.put_text("for", "sync")?;
            object.put_count("object", sync)
        }
        Cause::Answer(line) => {
            object.put_text("for", "answer")?;
            put_bytes(
                object,
                "variable",
                assigned_in(line_at(inventory.lines, line.number)),
            )?;
            put_awaited(object, line)
        }
        Cause::Unposted(number, line) => {
            object.put_text("for", "post")?;
            object.put_count("post", number)?;
            match line {
                Some(line) => put_awaited(object, line),
                None => Ok(()),
            }
        }
        Cause::Unknown => Ok(()),
    }
}

fn wait_object(
    alloc: Global,
    inventory: &Inventory,
    wait: &Wait<'_>,
) -> Result<JsonObject, NoMemory> {
    let mut object = object_of_line(alloc, "wait", wait.line.thread, wait.line.number)?;
    put_cause(&mut object, inventory, wait.cause)?;
    Ok(object)
}

/// What should stand in the place of a word.
fn put_expected(object: &mut JsonObject, expected: ExpectedWord) -> Result<(), NoMemory> {
    match expected {
        ExpectedWord::Argument(argument) => object.put_text("expected", argument.word),
        ExpectedWord::Other(text) => object.put_text("expected", text),
    }
}

/// The word at fault: its place among the words and where it stands in the line, both from 0, and what should stand there.
fn put_suspect(
    object: &mut JsonObject,
    line: &[u8],
    words: &[&[u8]],
    found: Suspect,
) -> Result<(), NoMemory> {
    let word = word_at(words, found.word);
    object.put_count("word", found.word as u64)?;
    object.put_count("column", column_of(line, found.word) as u64)?;
    object.put_count("width", word.len() as u64)?;
    put_expected(object, found.expected)?;
    if let Some((_, name)) = header_number_in(word) {
        object.put_text("header_name", name)?;
    }
    if let Some(nearest) = found.nearest {
        put_bytes(object, "unknown", unknown_part_of(word))?;
        object.put_text("nearest", nearest)?;
    }
    Ok(())
}

/// What is wrong with the words of a line.
fn put_words(
    alloc: Global,
    object: &mut JsonObject,
    lines: &[&[u8]],
    defective: Defective,
) -> Result<(), NoMemory> {
    let line = line_at(lines, defective.number);
    let words = words(alloc, line)?;
    let before = lines_before(lines, defective.number);
    match word_at_fault(alloc, lines, before, &words, defective.reason)? {
        Some(found) => put_suspect(object, line, &words, found),
        None => object.put_text("expected", expected_line(defective.reason)),
    }
}

fn defect_object(
    alloc: Global,
    lines: &[&[u8]],
    defective: Defective,
) -> Result<JsonObject, NoMemory> {
    let mut object = object_of(alloc, "malformed")?;
    object.put_count("line", defective.number)?;
    object.put_text("reason", defective.reason.name())?;
    let line = line_at(lines, defective.number);
    match cause_of_line(line, defective.returned, defective.reason) {
        Some(cause) => object.put_text("cause", cause)?,
        None => put_words(alloc, &mut object, lines, defective)?,
    }
    Ok(object)
}

/// A line that isn't longer than those that are told.
fn put_told(object: &mut JsonObject, name: &str, line: &[u8]) -> Result<(), NoMemory> {
    if line.len() <= MOST_TOLD {
        put_bytes(object, name, line)
    } else {
        Ok(())
    }
}

fn difference_object(alloc: Global, place: u64, pair: Pair<'_>) -> Result<JsonObject, NoMemory> {
    let mut object = object_of(alloc, "difference")?;
    object.put_count("place", place)?;
    put_told(&mut object, "found", pair.found)?;
    put_told(&mut object, "expected", pair.expected)?;
    Ok(object)
}

/// Where a line differs that stands behind all entries: in a row of a window's front, from 0.
fn rest_object(alloc: Global, recorded: &[RecordedLine]) -> Result<JsonObject, NoMemory> {
    let mut object = object_of(alloc, "rest")?;
    if let Some((head, row)) = front_row(recorded) {
        put_told(&mut object, "front", head)?;
        object.put_count("row", row)?;
    }
    Ok(object)
}

/// How many lines differ with the first, and whether the whole recording was compared.
fn sum_object(alloc: Global, further: Further) -> Result<JsonObject, NoMemory> {
    let mut object = object_of(alloc, "differences")?;
    object.put_count("count", further.count.saturating_add(1))?;
    let compared = if further.is_whole { "whole" } else { "part" };
    object.put_text("compared", compared)?;
    Ok(object)
}

fn count_object(alloc: Global, kind: &str, count: u64) -> Result<JsonObject, NoMemory> {
    let mut object = object_of(alloc, kind)?;
    object.put_count("count", count)?;
    Ok(object)
}

impl Teller for JsonLines {
    fn comment(&mut self, _lines: &[&[u8]], _number: u64) {}

    fn entry(&mut self, _lines: &[&[u8]], entry: &Entry, reply: &Reply, refusals: &Refusals) {
        self.put(entry_object(self.alloc(), "entry", entry, reply, refusals));
    }

    fn end(&mut self) {
        self.put(object_of(self.alloc(), "end"));
    }

    fn census(&mut self, census: &[u64; 11]) {
        self.put(census_object(self.alloc(), census));
    }

    fn objects_later(&mut self) {
        self.put(object_of(self.alloc(), "objects_later"));
    }

    fn object(&mut self, inventory: &Inventory, holders: &[Holder], number: u64) {
        self.put(inventory_object(self.alloc(), inventory, holders, number));
    }

    fn more_objects(&mut self) {
        self.put(object_of(self.alloc(), "more_objects"));
    }

    fn race_count(&mut self, count: u64) {
        self.put(count_object(self.alloc(), "races", count));
    }

    fn race(&mut self, _inventory: &Inventory, race: &Race<'_>) {
        self.put(race_object(self.alloc(), race));
    }

    fn more_races(&mut self) {
        self.put(object_of(self.alloc(), "more_races"));
    }

    fn wait(&mut self, inventory: &Inventory, wait: &Wait<'_>) {
        self.put(wait_object(self.alloc(), inventory, wait));
    }

    fn defect(
        &mut self,
        alloc: Global,
        lines: &[&[u8]],
        defective: Defective,
    ) -> Result<(), NoMemory> {
        self.put(defect_object(alloc, lines, defective));
        Ok(())
    }

    fn holds(&mut self) {
        self.put(object_of(self.alloc(), "holds"));
    }

    fn difference(&mut self, place: u64, pair: Pair<'_>) {
        self.put(difference_object(self.alloc(), place, pair));
    }

    fn due(&mut self, _lines: &[&[u8]], _driver: &Driver, judged: &JudgedEntry, _pair: Pair<'_>) {
        let entry = &judged.entry;
        self.put(entry_object(self.alloc(), "due", entry, &entry.reply, &judged.refusals));
    }

    fn none_due(&mut self) {
        self.put(object_of(self.alloc(), "none_due"));
    }

    fn rest(&mut self, _driver: &Driver, recorded: &[RecordedLine], _pair: Pair<'_>) {
        self.put(rest_object(self.alloc(), recorded));
    }

    fn open(&mut self, _lines: &[&[u8]], thread: u32, line: u64) {
        self.put(object_of_line(self.alloc(), "open", thread, line));
    }

    fn sum(&mut self, further: Further) {
        if further.count > 0 {
            self.put(sum_object(self.alloc(), further));
        }
    }
}
