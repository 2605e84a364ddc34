//! In what an answer differs, as it is written.
ghost use Rattle.std.specs.Prelude.{◌≡◌, ◌++◌, codes, OnOk};
ghost use Rattle.trace_model.specs.Recording.{bytes_text};
ghost use Rattle.egl_judge.specs.Differences.{box_text, count_text, difference_text, first_text};

use crate::numbers::{
    put_long, put_numbers, put_optional, put_optional_numbers, put_outcome, put_outcomes,
};
use driver_judge::{Difference, PixelDifference};
use egl_calls::{Bytes, NoMemory};
use journal_text::put_hex;
use journal_text::texts::{put_byte, put_decimal, put_decimal_and_space, put_text};

/// Two digits for each byte, and `-` for none.
#[tactic(auto, unfolding(trace_model::specs::Recording::bytes_text))]
pub fn put_bytes(out: &mut Bytes, bytes: &[u8]) -> Result<(), NoMemory>
    ensures { OnOk result (out.new ≡ out.old ++ bytes_text bytes.now) }
{
    match bytes {
        [] => put_byte(out, b'-'),
        [_, ..] => put_hex(out, bytes),
    }
}

/// How many pixels differ, of how many, and the largest step.
fn put_count(out: &mut Bytes, pixels: &PixelDifference) -> Result<(), NoMemory>
    ensures { OnOk result (out.new ≡ out.old ++ count_text pixels.now) }
{
    put_decimal_and_space(out, pixels.count)?;
    put_decimal_and_space(out, pixels.of)?;
    put_decimal(out, pixels.largest)
}

/// The rectangle that has them.
fn put_box(out: &mut Bytes, pixels: &PixelDifference) -> Result<(), NoMemory>
    ensures { OnOk result (out.new ≡ out.old ++ box_text pixels.now) }
{
    put_decimal_and_space(out, pixels.left)?;
    put_decimal_and_space(out, pixels.bottom)?;
    put_decimal_and_space(out, pixels.right)?;
    put_decimal(out, pixels.top)
}

/// The first of them.
fn put_first(out: &mut Bytes, pixels: &PixelDifference) -> Result<(), NoMemory>
    ensures { OnOk result (out.new ≡ out.old ++ first_text pixels.now) }
{
    put_decimal_and_space(out, pixels.x)?;
    put_decimal_and_space(out, pixels.y)?;
    put_bytes(out, pixels.expected.as_slice())?;
    put_byte(out, b' ')?;
    put_bytes(out, pixels.found.as_slice())
}

/// What would have agreed, and what came.
#[tactic(auto, unfolding(crate::specs::Differences::difference_text))]
pub fn put_difference(out: &mut Bytes, difference: &Difference) -> Result<(), NoMemory>
    ensures { OnOk result (out.new ≡ out.old ++ difference_text difference.now) }
{
    match difference {
        Difference::Outcome {
            expected,
            found,
            kind: _,
            refusals: _,
        } => {
            put_text(out, "outcome ")?;
            put_outcomes(out, expected.as_slice())?;
            put_byte(out, b' ')?;
            put_outcome(out, *found)
        }
        Difference::Value { expected, found } => {
            put_text(out, "value ")?;
            put_optional(out, *expected)?;
            put_byte(out, b' ')?;
            put_long(out, *found)
        }
        Difference::Items { expected, found } => {
            put_text(out, "list [")?;
            put_optional_numbers(out, expected.as_slice())?;
            put_text(out, "] [")?;
            put_numbers(out, found.as_slice())?;
            put_byte(out, b']')
        }
        Difference::Pixels(pixels) => {
            put_text(out, "pixels ")?;
            put_count(out, pixels)?;
            put_byte(out, b' ')?;
            put_box(out, pixels)?;
            put_byte(out, b' ')?;
            put_first(out, pixels)
        }
        Difference::Length { expected, found } => {
            put_text(out, "length ")?;
            put_decimal_and_space(out, *expected)?;
            put_decimal(out, *found)
        }
    }
}
