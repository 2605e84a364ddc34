//! Images whose bytes are their own, so that a write takes no memory.

ghost use Rattle.std.specs.Prelude.{◌≡◌, ℕ, ◌-◌, ◌<◌, true, length, slice_index_or, IsOk, OnOk, OnErr};
ghost use Rattle.pixel_formats.specs.declared.formats.Format.TheVariants.{Rgba8888};
ghost use Rattle.pixel_rows.specs.Cells.{seen};
ghost use Rattle.pixel_rows.specs.Images.{IsImage, no_pixel, pixel_at};
ghost use Rattle.pixel_rows.specs.Lanes.{scaled};
ghost use Rattle.pixel_rows.specs.Masks.{every};
ghost use Rattle.pixel_rows.specs.Painting.{painted};
ghost use Rattle.rect_pipeline.specs.Targets.{IsSpanIn, IsWritable, in_row};

use crate::spans::Span;
use crate::targets::{Region, fill};
use egl_calls::NoMemory;
use pixel_formats::Pixel;
use pixel_rows::{Image, Mask};

/// The most columns that an image has.
pub(crate) const MOST_COLUMNS: usize = 2_048;

pub(crate) const ALL: Mask = Mask {
    r: true,
    g: true,
    b: true,
    a: true,
};

/// What stands for a pixel that there is not.
pub(crate) const NO_PIXEL: Pixel = Pixel {
    r: 0,
    g: 0,
    b: 0,
    a: 0,
};

const NO_SPAN: Span = Span { start: 0, end: 0 };

/// Gives an image bytes of its own.
pub(crate) fn own(target: &mut Image) -> Result<(), NoMemory>
    ensures ok { OnOk result (target.new ≡ record target.old { owned = true }) }
    ensures whole { IsImage target.new }
    ensures err { OnErr result (target.new ≡ target.old) }
    ensures room { target.old.owned ≡ true → IsOk result }
{
    let _width = target.width();
    let none = Region {
        columns: NO_SPAN,
        rows: NO_SPAN,
    };
    fill(target, none, NO_PIXEL, ALL)
}

/// Writes a span of one row of an image whose bytes are its own.
pub(crate) fn put_row(target: &mut Image, y: usize, span: Span, row: &[Pixel], mask: Mask)
    requires place { (IsSpanIn span target.old.width) × (y < target.old.height) }
    requires long { length row.now ≡ span.end - span.start }
    requires owned { target.old.owned ≡ true }
    ensures row { target.new ≡ painted target.old (in_row span y) (λ u _. slice_index_or row.now (u - span.start) no_pixel) mask }
    ensures still { IsWritable target.old target.new }
{
    let (_width, _height) = (target.width(), target.height());
    match target.put_row(span.start as u32, y as u32, row, mask) {
        Ok(()) => {}
        Err(_) => unreachable!(),
    }
}

/// Writes a span of one row of an image whose bytes are its own, from some columns of a row of an image
/// of the same format.
pub(crate) fn gather_row(
    target: &mut Image,
    y: usize,
    span: Span,
    from: &Image,
    columns: &[u32],
    row: u32,
)
    requires format { from.now.format ≡ target.old.format }
    requires place { (IsSpanIn span target.old.width) × (y < target.old.height) }
    requires row { row < from.now.height }
    requires long { length columns.now ≡ span.end - span.start }
    requires columns { (k : ℕ) → k < length columns.now → slice_index_or columns.now k 0 < from.now.width }
    requires owned { target.old.owned ≡ true }
    ensures row { target.new ≡ painted target.old (in_row span y) (λ u _. pixel_at from.now (slice_index_or columns.now (u - span.start) 0) row) every }
    ensures still { IsWritable target.old target.new }
{
    let (_width, _height) = (target.width(), target.height());
    match target.gather_row(span.start as u32, y as u32, from, columns, row) {
        Ok(()) => {}
        Err(_) => unreachable!(),
    }
}

/// The same where each pixel is multiplied by a colour, both images at 8 bits a component in `Rgba8888`.
pub(crate) fn gather_scaled_row(
    target: &mut Image,
    y: usize,
    span: Span,
    from: &Image,
    columns: &[u32],
    row: u32,
    by: Pixel,
)
    requires format { (target.old.format ≡ Rgba8888) × (from.now.format ≡ Rgba8888) }
    requires place { (IsSpanIn span target.old.width) × (y < target.old.height) }
    requires row { row < from.now.height }
    requires long { length columns.now ≡ span.end - span.start }
    requires columns { (k : ℕ) → k < length columns.now → slice_index_or columns.now k 0 < from.now.width }
    requires owned { target.old.owned ≡ true }
    ensures row { target.new ≡ painted target.old (in_row span y) (λ u _. scaled by (pixel_at from.now (slice_index_or columns.now (u - span.start) 0) row)) every }
    ensures still { IsWritable target.old target.new }
{
    let (_width, _height) = (target.width(), target.height());
    match target.gather_scaled_row(span.start as u32, y as u32, from, columns, row, by) {
        Ok(()) => {}
        Err(_) => unreachable!(),
    }
}

/// Writes a span of one row of an image whose bytes are its own from pixels of four bytes each, as
/// `Rgba8888` keeps them.
pub(crate) fn lay_row(target: &mut Image, y: usize, span: Span, row: &[[u8; 4]], mask: Mask)
    requires place { (IsSpanIn span target.old.width) × (y < target.old.height) }
    requires long { length row.now ≡ span.end - span.start }
    requires owned { target.old.owned ≡ true }
    ensures row { target.new ≡ painted target.old (in_row span y) (λ u _. slice_index_or (seen Rgba8888 row.now) (u - span.start) no_pixel) mask }
    ensures still { IsWritable target.old target.new }
{
    let (_width, _height) = (target.width(), target.height());
    match target.lay_row(span.start as u32, y as u32, row, mask) {
        Ok(()) => {}
        Err(_) => unreachable!(),
    }
}
