//! Where is told what is found in an input, one thing after another: a text for people, or lines for programs.
use crate::census_lines::put_census;
use crate::defects::put_defect;
use crate::entry_lines::put_outcome;
use crate::further::{Further, put_sum};
use crate::judged_entries::JudgedEntry;
use crate::object_words::Inventory;
use crate::objects::put_object_line;
use crate::pages::{Ink, Page};
use crate::races::{Race, put_race, put_race_count};
use crate::recorded_lines::{Pair, put_both, put_due, put_none, put_open, put_rest};
use crate::references::Holder;
use crate::source_lines::{put_bar, put_line};
use crate::waits::{Wait, put_wait};
use driver_core::{Driver, Refusals};
use egl_calls::{Entry, NoMemory, Reply};
use journal_text::RecordedLine;
use std::alloc::Global;
use trace_reader::Reason;

/// A line of an input that isn't in its form, and what is wrong with it first. Whether a carriage return stands behind it its words don't tell.
#[derive(Clone, Copy, Drop)]
pub struct Defective {
    pub number: u64,
    pub reason: Reason,
    pub returned: bool,
}

/// Where is told what is found in an input. The lines are those of the input.
pub trait Teller {
    /// A line that says nothing.
    fn comment(&mut self, lines: &[&[u8]], number: u64);

    /// What came of an entry's call, and which rows of its table held before it.
    fn entry(&mut self, lines: &[&[u8]], entry: &Entry, reply: &Reply, refusals: &Refusals);

    /// That there are no more entries.
    fn end(&mut self);

    /// How many objects there are.
    fn census(&mut self, census: &[u64; 11]);

    /// That the objects aren't told here.
    fn objects_later(&mut self);

    /// An object, by its number, and what refers to it.
    fn object(&mut self, inventory: &Inventory, holders: &[Holder], number: u64);

    /// That more objects aren't told.
    fn more_objects(&mut self);

    /// How many races there are.
    fn race_count(&mut self, count: u64);

    fn race(&mut self, inventory: &Inventory, race: &Race<'_>);

    /// That more races aren't told.
    fn more_races(&mut self);

    /// A thread that waits.
    fn wait(&mut self, inventory: &Inventory, wait: &Wait<'_>);

    /// What is wrong with a line.
    fn defect(
        &mut self,
        alloc: Global,
        lines: &[&[u8]],
        defective: Defective,
    ) -> Result<(), NoMemory>;

    /// That a recording is its trace's.
    fn holds(&mut self);

    /// A line of a recording that differs, by its place, and the one that should stand there.
    fn difference(&mut self, place: u64, pair: Pair<'_>);

    /// The entry that is due where a line of a recording differs.
    fn due(&mut self, lines: &[&[u8]], driver: &Driver, judged: &JudgedEntry, pair: Pair<'_>);

    /// That no entry is due there.
    fn none_due(&mut self);

    /// What there is behind all entries, where the last of some lines of a recording differs.
    fn rest(&mut self, driver: &Driver, recorded: &[RecordedLine], pair: Pair<'_>);

    /// The next line of a thread that isn't at its end where a recording is.
    fn open(&mut self, lines: &[&[u8]], thread: u32, line: u64);

    /// How many lines differ behind the first.
    fn sum(&mut self, further: Further);
}

impl Teller for Page {
    fn comment(&mut self, lines: &[&[u8]], number: u64) {
        put_line(self, lines, number);
    }

    fn entry(&mut self, lines: &[&[u8]], entry: &Entry, reply: &Reply, refusals: &Refusals) {
        put_line(self, lines, entry.mark);
        put_outcome(self, &entry.call, reply, refusals, usize::MAX);
    }

    fn end(&mut self) {
        self.put("at the end");
        self.end_line();
    }

    fn census(&mut self, census: &[u64; 11]) {
        put_census(self, census);
    }

    fn objects_later(&mut self) {
        put_bar(self);
        self.put("    what leads to the objects stands at the end");
        self.end_line();
    }

    fn object(&mut self, inventory: &Inventory, holders: &[Holder], number: u64) {
        put_object_line(self, inventory, holders, number);
    }

    fn more_objects(&mut self) {
        put_bar(self);
        self.put("    and more");
        self.end_line();
    }

    fn race_count(&mut self, count: u64) {
        put_race_count(self, count);
    }

    fn race(&mut self, inventory: &Inventory, race: &Race<'_>) {
        put_race(self, inventory, race);
    }

    fn more_races(&mut self) {
        put_bar(self);
        self.put("  and more");
        self.end_line();
    }

    fn wait(&mut self, inventory: &Inventory, wait: &Wait<'_>) {
        put_wait(self, inventory, wait);
    }

    fn defect(
        &mut self,
        alloc: Global,
        lines: &[&[u8]],
        defective: Defective,
    ) -> Result<(), NoMemory> {
        put_defect(alloc, self, lines, defective)
    }

    fn holds(&mut self) {
        self.put_in(Ink::Answer, "the recording holds");
        self.end_line();
    }

    fn difference(&mut self, place: u64, pair: Pair<'_>) {
        put_both(self, place, pair);
    }

    fn due(&mut self, lines: &[&[u8]], driver: &Driver, judged: &JudgedEntry, pair: Pair<'_>) {
        put_due(self, lines, driver, judged, pair);
    }

    fn none_due(&mut self) {
        put_none(self);
    }

    fn rest(&mut self, driver: &Driver, recorded: &[RecordedLine], pair: Pair<'_>) {
        put_rest(self, driver, recorded, pair);
    }

    fn open(&mut self, lines: &[&[u8]], thread: u32, line: u64) {
        put_open(self, lines, thread, line);
    }

    fn sum(&mut self, further: Further) {
        put_sum(self, further);
    }
}
