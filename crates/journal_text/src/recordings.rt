//! Recordings by their lines, and the recording that bytes spell.
ghost use Rattle.std.specs.Prelude.{◌≡◌, ◌+◌, ◌<◌, ◌^◌, [], length, IfOk, option_copied};
ghost use Rattle.std.specs.Char.{is_newline};
ghost use Rattle.std.specs.List.{slice_split};
ghost use Rattle.std.specs.Option.{option_map};
ghost use Rattle.trace_reader.specs.Reading.{Gives};
ghost use Rattle.journal_text.specs.Recorded.{next};
ghost use Rattle.trace_reader.specs.declared.traces.TraceError.TheVariants.{Malformed};
ghost use Rattle.trace_reader.specs.declared.traces.Reason.TheVariants.{Entry};
ghost use Rattle.journal_text.specs.declared.stages.Stage.TheVariants.{Entries};
ghost use Rattle.journal_text.specs.Readings.{GivesLine, line_at, line_with, thread_of, read_lines, recorded};

use crate::stages::{Behind, Stage, next};
use egl_calls::{Bytes, NoMemory, Text};
use std::alloc::Global;
use std::marker::Model;
use trace_reader::line_cuts::cut_ended_line;
use trace_reader::{Reason, TraceError};

/// A line of a recording without its line feed, and its thread where it is an entry's.
#[derive(Drop)]
pub struct RecordedLine {
    pub text: Text,
    pub thread: Option<u32>,
}

/// A recording: its lines behind the first, the last of which is `end`.
pub struct Recording {
    lines: Vec<RecordedLine>,
}

// Written out, so that no crate above proves the drops of what it owns.
impl Drop for Recording {
    fn drop(self) {
        let Recording { lines: _ } = self;
    }
}

impl Model for Recording {
    ghost use Rattle.std.specs.Prelude.{List};
    ghost use Rattle.journal_text.specs.declared.recordings.RecordedLine.{RecordedLine as ARecordedLine};

    ghost Value = { List ARecordedLine };

    ghost view = { λ r. r.lines.items };
}

/// A line that is kept.
fn line_with(alloc: Global, line: &[u8], thread: Option<u32>) -> Result<RecordedLine, NoMemory>
    ensures { IfOk result (λ l. l ≡ line_with line.now thread) }
{
    let mut text = Text::new(alloc);
    text.extend(line)?;
    Ok(RecordedLine { text, thread })
}

fn defect(line: u64) -> TraceError
    ensures { result ≡ Malformed line Entry }
{
    TraceError::Malformed {
        line,
        reason: Reason::Entry,
    }
}

/// Keeps a line that has its form, and tells what stands behind it.
fn read_line(
    alloc: Global,
    number: u64,
    stage: Stage,
    line: &[u8],
    kept: &mut Vec<RecordedLine>,
) -> Result<Stage, TraceError>
    ensures { GivesLine number stage line.now kept.old.items kept.new.items result }
{
    let Ok(said) = next(alloc, stage, line) else {
        return Err(TraceError::NoMemory);
    };
    let Some(said) = said else {
        return Err(defect(number));
    };
    let Ok(line) = line_with(alloc, line, said.thread) else {
        return Err(TraceError::NoMemory);
    };
    let Ok(()) = kept.push(line) else {
        return Err(TraceError::NoMemory);
    };
    Ok(said.stage)
}

/// Reads the lines behind the first.
fn read_lines(alloc: Global, first: u64, bytes: &[u8]) -> Result<Vec<RecordedLine>, TraceError>
    requires { first + length bytes.now < 2 ^ 64 }
    ensures { Gives (λ v. v.items) result (read_lines first Entries [] (slice_split is_newline bytes.now)) }
{
    let mut kept = Vec::new(alloc);
    let mut stage = Stage::Entries;
    let mut number = first;
    let mut rest = bytes;
    'each: while let Some((line, more)) = cut_ended_line(rest) {
        match read_line(alloc, number, stage, line, &mut kept) {
            Ok(behind) => {
                stage = behind;
                number += 1;
                rest = more;
            }
            Err(error) => return Err(error),
        }
    }
    if matches!(stage, Stage::Ended) && rest.is_empty() {
        Ok(kept)
    } else {
        Err(defect(number))
    }
}

/// Reads a recording from a slice, whose first line has this number: the one that the bytes spell, or the first line that isn't in its form.
#[tactic(auto, unfolding(crate::specs::Readings::recorded), using(crate::proofs::ReadLaws::behind_first, crate::proofs::ReadLaws::no_recording))]
pub fn read_slice(alloc: Global, bytes: &[u8], first_line: u64) -> Result<Recording, TraceError>
    requires { first_line < 4294967296 }
    ensures { Gives (λ r. r) result (recorded first_line bytes.now) }
{
    let Some((first, rest)) = cut_ended_line(bytes) else {
        return Err(defect(first_line));
    };
    if first != b"recording".as_slice() {
        return Err(defect(first_line));
    }
    match read_lines(alloc, first_line + 1, rest) {
        Ok(lines) => Ok(Recording { lines }),
        Err(error) => Err(error),
    }
}

/// Reads a recording, as `read_slice` does.
pub fn read(alloc: Global, bytes: &Bytes, first_line: u64) -> Result<Recording, TraceError>
    requires { first_line < 4294967296 }
    ensures { Gives (λ r. r) result (recorded first_line bytes.now) }
{
    read_slice(alloc, bytes.as_slice(), first_line)
}

impl Recording {
    /// The lines behind the first.
    pub fn lines(&self) -> &[RecordedLine]
        ensures { result.now ≡ self.now }
    {
        self.lines.as_slice()
    }

    /// The line at a place, counted from 1 behind `recording`.
    fn line(&self, place: u64) -> Option<&RecordedLine>
        ensures { option_copied result ≡ line_at self.now place }
    {
        if place == 0 {
            return None;
        }
        self.lines.get((place - 1) as usize)
    }

    /// The text of the line at a place, counted from 1 behind `recording`. The last is `end`.
    pub fn text(&self, place: u64) -> Option<&Text>
        ensures { option_copied result ≡ option_map (λ l. l.text) (line_at self.now place) }
    {
        let line = self.line(place)?;
        Some(&line.text)
    }

    /// The thread of the line at a place, where that is an entry's.
    pub fn thread(&self, place: u64) -> Option<u32>
        ensures { result ≡ thread_of (line_at self.now place) }
    {
        let line = self.line(place)?;
        line.thread
    }
}
