//! What differs, told to people: the call, what came, what would have agreed, and why.
ghost use Rattle.std.specs.Prelude.{◌≡◌, ◌++◌, OnOk};
ghost use Rattle.egl_judge.specs.Explaining.{came_line, came_text, columns_text, differing_text, part_text, pixels_text, place_text, rows_text, steps_text, wanted_line, wanted_text, where_text};

use crate::differences::put_bytes;
use crate::numbers::{
    put_long, put_numbers, put_optional, put_optional_numbers, put_outcome, put_outcomes,
};
use crate::reasons::{begin, put_reasons};
use driver_judge::{Difference, Judgement, LineVerdict, PixelDifference};
use egl_calls::{Bytes, NoMemory};
use journal_text::texts::{put_byte, put_decimal, put_text};
use std::alloc::Global;
use trace_reader::line_cuts::cut_line;

/// The width of a line's number.
const NUMBER_WIDTH: usize = 6;

/// The lines of bytes, which are numbered from 1.
fn lines_of(alloc: Global, bytes: &[u8]) -> Result<Vec<&[u8]>, NoMemory> {
    let mut found = Vec::new(alloc);
    let mut rest = bytes;
    'each: while let Some((line, more)) = cut_line(rest) {
        let Ok(()) = found.push(line) else {
            return Err(NoMemory);
        };
        rest = more;
    }
    Ok(found)
}

/// The line with a number; the empty one where there is none.
fn line_at<'a>(lines: &[&'a [u8]], number: u64) -> &'a [u8] {
    if number == 0 {
        return b"";
    }
    match lines.get((number - 1) as usize) {
        Some(line) => *line,
        None => b"",
    }
}

/// Spaces before a number, where it is narrower than others.
fn put_margin(out: &mut Bytes, number: u64) -> Result<(), NoMemory> {
    let mut least = 10u64;
    'each: for _ in 1..NUMBER_WIDTH {
        if number < least {
            put_byte(out, b' ')?;
        }
        least = least.saturating_mul(10);
    }
    Ok(())
}

/// A line with its number.
fn put_line(out: &mut Bytes, lines: &[&[u8]], number: u64) -> Result<(), NoMemory> {
    put_margin(out, number)?;
    put_decimal(out, number)?;
    put_text(out, " | ")?;
    out.extend(line_at(lines, number))?;
    put_byte(out, b'\n')
}

/// How many pixels differ.
fn put_part(out: &mut Bytes, pixels: &PixelDifference) -> Result<(), NoMemory>
    ensures { OnOk result (out.new ≡ out.old ++ part_text pixels.now) }
{
    put_decimal(out, pixels.count)?;
    put_text(out, " of ")?;
    put_decimal(out, pixels.of)?;
    put_text(out, " pixels differ, by ")
}

/// By how much.
fn put_steps(out: &mut Bytes, pixels: &PixelDifference) -> Result<(), NoMemory>
    ensures { OnOk result (out.new ≡ out.old ++ steps_text pixels.now) }
{
    put_decimal(out, pixels.largest)?;
    put_text(out, " steps at most, in columns ")
}

/// The rectangle that has them.
fn put_columns(out: &mut Bytes, pixels: &PixelDifference) -> Result<(), NoMemory>
    ensures { OnOk result (out.new ≡ out.old ++ columns_text pixels.now) }
{
    put_decimal(out, pixels.left)?;
    put_text(out, " to ")?;
    put_decimal(out, pixels.right)?;
    put_text(out, " and rows ")
}

fn put_rows(out: &mut Bytes, pixels: &PixelDifference) -> Result<(), NoMemory>
    ensures { OnOk result (out.new ≡ out.old ++ rows_text pixels.now) }
{
    put_decimal(out, pixels.bottom)?;
    put_text(out, " to ")?;
    put_decimal(out, pixels.top)?;
    put_text(out, "; the first at ")
}

/// The first of them.
fn put_place(out: &mut Bytes, pixels: &PixelDifference) -> Result<(), NoMemory>
    ensures { OnOk result (out.new ≡ out.old ++ place_text pixels.now) }
{
    put_decimal(out, pixels.x)?;
    put_text(out, ", ")?;
    put_decimal(out, pixels.y)?;
    put_byte(out, b'\n')
}

/// How many pixels differ, and by how much.
fn put_differing(out: &mut Bytes, pixels: &PixelDifference) -> Result<(), NoMemory>
    ensures { OnOk result (out.new ≡ out.old ++ differing_text pixels.now) }
{
    begin(out, "")?;
    put_part(out, pixels)?;
    put_steps(out, pixels)
}

/// Where they are.
fn put_where(out: &mut Bytes, pixels: &PixelDifference) -> Result<(), NoMemory>
    ensures { OnOk result (out.new ≡ out.old ++ where_text pixels.now) }
{
    put_columns(out, pixels)?;
    put_rows(out, pixels)?;
    put_place(out, pixels)
}

/// How many pixels differ, by how much, and where.
fn put_pixels(out: &mut Bytes, pixels: &PixelDifference) -> Result<(), NoMemory>
    ensures { OnOk result (out.new ≡ out.old ++ pixels_text pixels.now) }
{
    put_differing(out, pixels)?;
    put_where(out, pixels)
}

/// What the driver answered.
#[tactic(auto, unfolding(crate::specs::Explaining::came_text))]
fn put_came(out: &mut Bytes, difference: &Difference) -> Result<(), NoMemory>
    ensures { OnOk result (out.new ≡ out.old ++ came_text difference.now) }
{
    match difference {
        Difference::Outcome {
            expected: _,
            found,
            kind: _,
            refusals: _,
        } => put_outcome(out, *found),
        Difference::Value { expected: _, found } => put_long(out, *found),
        Difference::Items { expected: _, found } => {
            put_byte(out, b'[')?;
            put_numbers(out, found.as_slice())?;
            put_byte(out, b']')
        }
        Difference::Pixels(pixels) => put_bytes(out, pixels.found.as_slice()),
        Difference::Length { expected: _, found } => {
            put_decimal(out, *found)?;
            put_text(out, " bytes")
        }
    }
}

/// What would have agreed.
#[tactic(auto, unfolding(crate::specs::Explaining::wanted_text))]
fn put_wanted(out: &mut Bytes, difference: &Difference) -> Result<(), NoMemory>
    ensures { OnOk result (out.new ≡ out.old ++ wanted_text difference.now) }
{
    match difference {
        Difference::Outcome {
            expected,
            found: _,
            kind: _,
            refusals: _,
        } => put_outcomes(out, expected.as_slice()),
        Difference::Value { expected, found: _ } => put_optional(out, *expected),
        Difference::Items { expected, found: _ } => {
            put_byte(out, b'[')?;
            put_optional_numbers(out, expected.as_slice())?;
            put_byte(out, b']')
        }
        Difference::Pixels(pixels) => put_bytes(out, pixels.expected.as_slice()),
        Difference::Length { expected, found: _ } => {
            put_decimal(out, *expected)?;
            put_text(out, " bytes")
        }
    }
}

/// The line of what came.
fn put_came_line(out: &mut Bytes, difference: &Difference) -> Result<(), NoMemory>
    ensures { OnOk result (out.new ≡ out.old ++ came_line difference.now) }
{
    begin(out, "came: ")?;
    put_came(out, difference)?;
    put_byte(out, b'\n')
}

/// The line of what would have agreed.
fn put_wanted_line(out: &mut Bytes, difference: &Difference) -> Result<(), NoMemory>
    ensures { OnOk result (out.new ≡ out.old ++ wanted_line difference.now) }
{
    begin(out, "would agree: ")?;
    put_wanted(out, difference)?;
    put_byte(out, b'\n')
}

/// What came, what would have agreed, and of an outcome why.
fn put_difference(out: &mut Bytes, difference: &Difference) -> Result<(), NoMemory> {
    if let Difference::Pixels(pixels) = difference {
        put_pixels(out, pixels)?;
    }
    put_came_line(out, difference)?;
    match difference {
        Difference::Outcome {
            expected,
            found,
            kind,
            refusals,
        } => put_reasons(out, *kind, refusals, expected.as_slice(), *found),
        _ => put_wanted_line(out, difference),
    }
}

/// Each line that differs, what came, what would have agreed, and why.
pub fn explained(alloc: Global, bytes: &[u8], judgement: &Judgement) -> Result<Bytes, NoMemory> {
    let lines = lines_of(alloc, bytes)?;
    let mut out = Bytes::new(alloc);
    'each: for note in judgement.notes() {
        if let LineVerdict::Differs(difference) = &note.verdict {
            put_line(&mut out, &lines, note.line)?;
            put_difference(&mut out, difference)?;
        }
    }
    Ok(out)
}
