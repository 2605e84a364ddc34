//! The loops over packed pixels, one for each number of bytes that a pixel has. Each says what a plain
//! pass over the places would leave.

ghost use Rattle.std.specs.Prelude.{◌≡◌, ℕ, ◌+◌, ◌-◌, ◌<◌, ◌≤◌, [], length, slice_index_or, take};
ghost use Rattle.pixel_formats.specs.Pixels as pixels;
ghost use Rattle.pixel_formats.specs.declared.formats.Format.TheVariants.{Rgba8888};
ghost use Rattle.pixel_rows.specs.Blocks.{in_range, Rewritten};
ghost use Rattle.pixel_rows.specs.Cells.{blended, converted};
ghost use Rattle.pixel_rows.specs.Images.{no_pixel};

use crate::cells::{cell_in, pixel_in};
use crate::masks::{Mask, masked};
use pixel_formats::{Format, Pixel, quantize};

/// Writes a row of cells from the place `at` on.
#[inline(always)]
pub(crate) fn copy_range<const N: usize>(cells: &mut [[u8; N]], at: usize, row: &[[u8; N]])
    requires { at + length row.now ≤ length cells.old }
    ensures { Rewritten [] (in_range at (at + length row.now)) (λ k _. slice_index_or row.now (k - at) []) cells.old cells.new }
{
    cells[at..at + row.len()].copy_from_slice(row);
}

/// How many cells a fill copies at a time.
const RUN: usize = 16;

/// Writes a cell at the places from `start` up to before `end`: as many as go by runs, and then the
/// rest, each by itself.
pub(crate) fn fill_range<const N: usize>(
    cells: &mut [[u8; N]],
    start: usize,
    end: usize,
    cell: [u8; N],
)
    requires { (start ≤ end) × (end ≤ length cells.old) }
    ensures { Rewritten [] (in_range start end) (λ _ _. cell.entry) cells.old cells.new }
{
    let run = [cell; RUN];
    let mut at = start;
    'runs: while end - at >= RUN {
        copy_range(cells, at, &run);
        at += RUN;
    }
    'cells: for k in at..end {
        cells[k] = cell;
    }
}

/// Writes the components of a pixel that a mask names, at the places from `start` up to before `end`, cell
/// by cell.
#[inline(always)]
fn blend_each<const N: usize>(
    cells: &mut [[u8; N]],
    start: usize,
    end: usize,
    f: Format,
    p: Pixel,
    mask: Mask,
)
    requires range { (start ≤ end) × (end ≤ length cells.old) }
    requires four { N ≤ 4 }
    ensures { Rewritten [] (in_range start end) (λ _ old. blended N f mask p old) cells.old cells.new }
{
    'cells: for at in start..end {
        let old = pixel_in(f, cells[at]);
        cells[at] = cell_in(f, masked(mask, old, p));
    }
}

/// Writes the components of a pixel that a mask names, at the places from `start` up to before `end`.
///
/// An arm for each format makes it known to its loop.
pub(crate) fn blend_range<const N: usize>(
    cells: &mut [[u8; N]],
    start: usize,
    end: usize,
    f: Format,
    p: Pixel,
    mask: Mask,
)
    requires range { (start ≤ end) × (end ≤ length cells.old) }
    requires four { N ≤ 4 }
    ensures { Rewritten [] (in_range start end) (λ _ old. blended N f mask p old) cells.old cells.new }
{
    match f {
        Format::Rgb565 => blend_each(cells, start, end, Format::Rgb565, p, mask),
        Format::Rgb888 => blend_each(cells, start, end, Format::Rgb888, p, mask),
        Format::Rgba8888 => blend_each(cells, start, end, Format::Rgba8888, p, mask),
        Format::Rgba4444 => blend_each(cells, start, end, Format::Rgba4444, p, mask),
        Format::Rgba5551 => blend_each(cells, start, end, Format::Rgba5551, p, mask),
        Format::A8 => blend_each(cells, start, end, Format::A8, p, mask),
        Format::L8 => blend_each(cells, start, end, Format::L8, p, mask),
        Format::La88 => blend_each(cells, start, end, Format::La88, p, mask),
    }
}

/// Writes a row of cells of the format `from` from the place `at` on, in the format `f`, cell by cell.
#[inline(always)]
fn convert_each<const N: usize, const M: usize>(
    cells: &mut [[u8; N]],
    at: usize,
    row: &[[u8; M]],
    f: Format,
    from: Format,
)
    requires range { at + length row.now ≤ length cells.old }
    requires four { (N ≤ 4) × (M ≤ 4) }
    ensures { Rewritten [] (in_range at (at + length row.now)) (λ k _. converted N f from (slice_index_or row.now (k - at) [])) cells.old cells.new }
{
    'cells: for k in 0..row.len() {
        cells[at + k] = cell_in(f, pixel_in(from, row[k]));
    }
}

/// Writes a row of cells of the format `from` from the place `at` on, at 8 bits a component.
///
/// An arm for each format makes both known to its loop, so that what is divided by are constants and
/// several cells are widened at once.
fn widen_range<const N: usize, const M: usize>(
    cells: &mut [[u8; N]],
    at: usize,
    row: &[[u8; M]],
    from: Format,
)
    requires range { at + length row.now ≤ length cells.old }
    requires four { (N ≤ 4) × (M ≤ 4) }
    ensures { Rewritten [] (in_range at (at + length row.now)) (λ k _. converted N Rgba8888 from (slice_index_or row.now (k - at) [])) cells.old cells.new }
{
    match from {
        Format::Rgb565 => convert_each(cells, at, row, Format::Rgba8888, Format::Rgb565),
        Format::Rgb888 => convert_each(cells, at, row, Format::Rgba8888, Format::Rgb888),
        Format::Rgba8888 => convert_each(cells, at, row, Format::Rgba8888, Format::Rgba8888),
        Format::Rgba4444 => convert_each(cells, at, row, Format::Rgba8888, Format::Rgba4444),
        Format::Rgba5551 => convert_each(cells, at, row, Format::Rgba8888, Format::Rgba5551),
        Format::A8 => convert_each(cells, at, row, Format::Rgba8888, Format::A8),
        Format::L8 => convert_each(cells, at, row, Format::Rgba8888, Format::L8),
        Format::La88 => convert_each(cells, at, row, Format::Rgba8888, Format::La88),
    }
}

/// Writes a row of cells of 8 bits a component from the place `at` on, in the format `f`, with an arm
/// for each, as `widen_range`.
fn narrow_range<const N: usize, const M: usize>(
    cells: &mut [[u8; N]],
    at: usize,
    row: &[[u8; M]],
    f: Format,
)
    requires range { at + length row.now ≤ length cells.old }
    requires four { (N ≤ 4) × (M ≤ 4) }
    ensures { Rewritten [] (in_range at (at + length row.now)) (λ k _. converted N f Rgba8888 (slice_index_or row.now (k - at) [])) cells.old cells.new }
{
    match f {
        Format::Rgb565 => convert_each(cells, at, row, Format::Rgb565, Format::Rgba8888),
        Format::Rgb888 => convert_each(cells, at, row, Format::Rgb888, Format::Rgba8888),
        Format::Rgba8888 => convert_each(cells, at, row, Format::Rgba8888, Format::Rgba8888),
        Format::Rgba4444 => convert_each(cells, at, row, Format::Rgba4444, Format::Rgba8888),
        Format::Rgba5551 => convert_each(cells, at, row, Format::Rgba5551, Format::Rgba8888),
        Format::A8 => convert_each(cells, at, row, Format::A8, Format::Rgba8888),
        Format::L8 => convert_each(cells, at, row, Format::L8, Format::Rgba8888),
        Format::La88 => convert_each(cells, at, row, Format::La88, Format::Rgba8888),
    }
}

/// Writes a row of cells of the format `from` from the place `at` on, in the format `f`.
pub(crate) fn convert_range<const N: usize, const M: usize>(
    cells: &mut [[u8; N]],
    at: usize,
    row: &[[u8; M]],
    f: Format,
    from: Format,
)
    requires range { at + length row.now ≤ length cells.old }
    requires four { (N ≤ 4) × (M ≤ 4) }
    ensures { Rewritten [] (in_range at (at + length row.now)) (λ k _. converted N f from (slice_index_or row.now (k - at) [])) cells.old cells.new }
{
    match f {
        Format::Rgba8888 => widen_range(cells, at, row, from),
        Format::Rgb565
        | Format::Rgb888
        | Format::Rgba4444
        | Format::Rgba5551
        | Format::A8
        | Format::L8
        | Format::La88 => match from {
            Format::Rgba8888 => narrow_range(cells, at, row, f),
            Format::Rgb565
            | Format::Rgb888
            | Format::Rgba4444
            | Format::Rgba5551
            | Format::A8
            | Format::L8
            | Format::La88 => convert_each(cells, at, row, f, from),
        },
    }
}

/// Writes the cells at some places after `first` from the place `at` on.
pub(crate) fn gather_range<const N: usize>(
    cells: &mut [[u8; N]],
    at: usize,
    source: &[[u8; N]],
    first: usize,
    columns: &[u32],
)
    requires range { at + length columns.now ≤ length cells.old }
    requires columns { (k : ℕ) → k < length columns.now → first + slice_index_or columns.now k 0 < length source.now }
    ensures { Rewritten [] (in_range at (at + length columns.now)) (λ k _. slice_index_or source.now (first + slice_index_or columns.now (k - at) 0) []) cells.old cells.new }
{
    'cells: for k in 0..columns.len() {
        cells[at + k] = source[first + columns[k] as usize];
    }
}

/// Reads the cells at some places after `first` at 8 bits a component, cell by cell.
#[inline(always)]
fn read_each<const N: usize>(
    row: &mut [[u8; 4]],
    source: &[[u8; N]],
    first: usize,
    columns: &[u32],
    f: Format,
)
    requires range { length row.old ≡ length columns.now }
    requires columns { (k : ℕ) → k < length columns.now → first + slice_index_or columns.now k 0 < length source.now }
    requires four { N ≤ 4 }
    ensures { Rewritten [] (in_range 0 (length columns.now)) (λ k _. converted 4 Rgba8888 f (slice_index_or source.now (first + slice_index_or columns.now k 0) [])) row.old row.new }
{
    'cells: for k in 0..columns.len() {
        let pixel = pixel_in(f, source[first + columns[k] as usize]);
        row[k] = cell_in(Format::Rgba8888, pixel);
    }
}

/// Reads the cells at some places after `first`, with an arm for each format, as `blend_range`.
pub(crate) fn read_range<const N: usize>(
    row: &mut [[u8; 4]],
    source: &[[u8; N]],
    first: usize,
    columns: &[u32],
    f: Format,
)
    requires range { length row.old ≡ length columns.now }
    requires columns { (k : ℕ) → k < length columns.now → first + slice_index_or columns.now k 0 < length source.now }
    requires four { N ≤ 4 }
    ensures { Rewritten [] (in_range 0 (length columns.now)) (λ k _. converted 4 Rgba8888 f (slice_index_or source.now (first + slice_index_or columns.now k 0) [])) row.old row.new }
{
    match f {
        Format::Rgb565 => read_each(row, source, first, columns, Format::Rgb565),
        Format::Rgb888 => read_each(row, source, first, columns, Format::Rgb888),
        Format::Rgba8888 => read_each(row, source, first, columns, Format::Rgba8888),
        Format::Rgba4444 => read_each(row, source, first, columns, Format::Rgba4444),
        Format::Rgba5551 => read_each(row, source, first, columns, Format::Rgba5551),
        Format::A8 => read_each(row, source, first, columns, Format::A8),
        Format::L8 => read_each(row, source, first, columns, Format::L8),
        Format::La88 => read_each(row, source, first, columns, Format::La88),
    }
}

/// Writes a row of pixels from the place `at` on, nothing of what was there being kept, pixel
/// by pixel.
#[inline(always)]
fn pack_each<const N: usize>(cells: &mut [[u8; N]], at: usize, row: &[Pixel], f: Format)
    requires range { at + length row.now ≤ length cells.old }
    requires four { N ≤ 4 }
    ensures { Rewritten [] (in_range at (at + length row.now)) (λ k _. take N (pixels.pack f (slice_index_or row.now (k - at) no_pixel))) cells.old cells.new }
{
    'cells: for k in 0..row.len() {
        cells[at + k] = cell_in(f, row[k]);
    }
}

/// Writes a row of pixels from the place `at` on, nothing of what was there being kept, with an arm
/// for each format, as `blend_range`.
pub(crate) fn pack_range<const N: usize>(cells: &mut [[u8; N]], at: usize, row: &[Pixel], f: Format)
    requires range { at + length row.now ≤ length cells.old }
    requires four { N ≤ 4 }
    ensures { Rewritten [] (in_range at (at + length row.now)) (λ k _. take N (pixels.pack f (slice_index_or row.now (k - at) no_pixel))) cells.old cells.new }
{
    match f {
        Format::Rgb565 => pack_each(cells, at, row, Format::Rgb565),
        Format::Rgb888 => pack_each(cells, at, row, Format::Rgb888),
        Format::Rgba8888 => pack_each(cells, at, row, Format::Rgba8888),
        Format::Rgba4444 => pack_each(cells, at, row, Format::Rgba4444),
        Format::Rgba5551 => pack_each(cells, at, row, Format::Rgba5551),
        Format::A8 => pack_each(cells, at, row, Format::A8),
        Format::L8 => pack_each(cells, at, row, Format::L8),
        Format::La88 => pack_each(cells, at, row, Format::La88),
    }
}

/// Writes the components of a row of pixels that a mask names, from the place `at` on, pixel by
/// pixel.
#[inline(always)]
fn mix_each<const N: usize>(cells: &mut [[u8; N]], at: usize, row: &[Pixel], f: Format, mask: Mask)
    requires range { at + length row.now ≤ length cells.old }
    requires four { N ≤ 4 }
    ensures { Rewritten [] (in_range at (at + length row.now)) (λ k old. blended N f mask (pixels.quantize f (slice_index_or row.now (k - at) no_pixel)) old) cells.old cells.new }
{
    'cells: for k in 0..row.len() {
        let old = pixel_in(f, cells[at + k]);
        cells[at + k] = cell_in(f, masked(mask, old, quantize(f, row[k])));
    }
}

/// Writes the components of a row of pixels that a mask names, from the place `at` on, with an
/// arm for each format, as `blend_range`.
pub(crate) fn mix_range<const N: usize>(
    cells: &mut [[u8; N]],
    at: usize,
    row: &[Pixel],
    f: Format,
    mask: Mask,
)
    requires range { at + length row.now ≤ length cells.old }
    requires four { N ≤ 4 }
    ensures { Rewritten [] (in_range at (at + length row.now)) (λ k old. blended N f mask (pixels.quantize f (slice_index_or row.now (k - at) no_pixel)) old) cells.old cells.new }
{
    match f {
        Format::Rgb565 => mix_each(cells, at, row, Format::Rgb565, mask),
        Format::Rgb888 => mix_each(cells, at, row, Format::Rgb888, mask),
        Format::Rgba8888 => mix_each(cells, at, row, Format::Rgba8888, mask),
        Format::Rgba4444 => mix_each(cells, at, row, Format::Rgba4444, mask),
        Format::Rgba5551 => mix_each(cells, at, row, Format::Rgba5551, mask),
        Format::A8 => mix_each(cells, at, row, Format::A8, mask),
        Format::L8 => mix_each(cells, at, row, Format::L8, mask),
        Format::La88 => mix_each(cells, at, row, Format::La88, mask),
    }
}

/// Writes the components of a row of cells of 8 bits a component that a mask names, from the place `at`
/// on, cell by cell.
#[inline(always)]
fn lay_each<const N: usize>(
    cells: &mut [[u8; N]],
    at: usize,
    row: &[[u8; 4]],
    f: Format,
    mask: Mask,
)
    requires range { at + length row.now ≤ length cells.old }
    requires four { N ≤ 4 }
    ensures { Rewritten [] (in_range at (at + length row.now)) (λ k old. blended N f mask (pixels.quantize f (pixels.unpack Rgba8888 (slice_index_or row.now (k - at) []))) old) cells.old cells.new }
{
    'cells: for k in 0..row.len() {
        let old = pixel_in(f, cells[at + k]);
        let new = pixel_in(Format::Rgba8888, row[k]);
        cells[at + k] = cell_in(f, masked(mask, old, quantize(f, new)));
    }
}

/// Writes the components of a row of cells of 8 bits a component that a mask names, from the place `at`
/// on, with an arm for each format, as `blend_range`.
pub(crate) fn lay_masked<const N: usize>(
    cells: &mut [[u8; N]],
    at: usize,
    row: &[[u8; 4]],
    f: Format,
    mask: Mask,
)
    requires range { at + length row.now ≤ length cells.old }
    requires four { N ≤ 4 }
    ensures { Rewritten [] (in_range at (at + length row.now)) (λ k old. blended N f mask (pixels.quantize f (pixels.unpack Rgba8888 (slice_index_or row.now (k - at) []))) old) cells.old cells.new }
{
    match f {
        Format::Rgb565 => lay_each(cells, at, row, Format::Rgb565, mask),
        Format::Rgb888 => lay_each(cells, at, row, Format::Rgb888, mask),
        Format::Rgba8888 => lay_each(cells, at, row, Format::Rgba8888, mask),
        Format::Rgba4444 => lay_each(cells, at, row, Format::Rgba4444, mask),
        Format::Rgba5551 => lay_each(cells, at, row, Format::Rgba5551, mask),
        Format::A8 => lay_each(cells, at, row, Format::A8, mask),
        Format::L8 => lay_each(cells, at, row, Format::L8, mask),
        Format::La88 => lay_each(cells, at, row, Format::La88, mask),
    }
}
