//! The loops over cells of four bytes, four cells at a time. Each says what a plain pass over the bytes
//! would leave, whatever the number of cells.

ghost use Rattle.std.specs.Prelude.{◌≡◌, ◌+◌, ◌-◌, ◌≤◌, true, [], drop, length, map, slice_index_or, take};
ghost use Rattle.std.specs.List.{flat_map};
ghost use Rattle.std.specs.Simd.{first_chunks};
ghost use Rattle.std.specs.Simd.Lanes.{zip2};
ghost use Rattle.pixel_rows.specs.Blocks.{in_range, Rewritten};
ghost use Rattle.pixel_formats.specs.declared.formats.Format.TheVariants.{Rgb565, Rgba4444, Rgba5551, Rgba8888};
ghost use Rattle.pixel_rows.specs.Cells.{AreCells, converted};
ghost use Rattle.pixel_rows.specs.Images.{no_pixel};
ghost use Rattle.pixel_rows.specs.Lanes as bytes;
ghost use Rattle.pixel_rows.specs.Lanes.{kept_or_put, laid, multiplied, repeated};
ghost use Rattle.pixel_rows.specs.Words as words;

use crate::cells::{cell_in, know_cells, pixel_in};
use crate::kernels::convert_range;
use crate::masks::{Mask, bits_of};
use pixel_formats::{Format, Pixel};
use std::simd::prelude::*;

/// How many cells a vector has.
const CELLS: usize = 4;

/// The product of two bytes, rounded.
#[inline(always)]
fn product(a: u8, b: u8) -> u8
    ensures { result ≡ bytes.product a b }
{
    ((2 * a as u32 * b as u32 + 255) / 510) as u8
}

/// The products of two vectors of bytes, rounded.
#[inline(always)]
fn products(v: u8x16, by: u8x16) -> u8x16
    ensures { result ≡ zip2 bytes.product_of v by }
{
    let exact = v.cast::<u16>().strict_mul(by.cast::<u16>());
    let more = exact.strict_add(u16x16::splat(127));
    (more / u16x16::splat(255)).cast::<u8>()
}

/// The bytes of four cells.
#[inline(always)]
fn load(cells: &[[u8; 4]]) -> u8x16
    requires { length cells.now ≡ 4 }
    ensures bytes { result ≡ flat_map (λ c. c) cells.now }
    ensures cells { AreCells 4 cells.now }
{
    know_cells(cells);
    u8x16::from_slice(cells.as_flattened())
}

/// The bytes of a cell, four times.
#[inline(always)]
fn repeat(cell: [u8; 4]) -> u8x16
    ensures { result ≡ repeated cell }
{
    let four = [cell; CELLS];
    load(&four)
}

/// Writes the bytes of a vector over the four cells from the place `at` on.
#[inline(always)]
fn store(cells: &mut [[u8; 4]], at: usize, v: u8x16)
    requires { at + 4 ≤ length cells.old }
    ensures { Rewritten [] (in_range at (at + 4)) (λ k _. slice_index_or (first_chunks 4 4 v) (k - at) []) cells.old cells.new }
{
    let bytes = v.to_array();
    let (four, _) = bytes.as_chunks::<4>();
    'cells: for k in 0..CELLS {
        cells[at + k] = four[k];
    }
}

/// Multiplies the four cells from the place `at` on.
#[inline(always)]
fn scale_four(cells: &mut [[u8; 4]], at: usize, by: [u8; 4], wide: u8x16)
    requires range { at + 4 ≤ length cells.old }
    requires wide { wide ≡ repeated by }
    ensures { Rewritten [] (in_range at (at + 4)) (λ _ old. multiplied by old) cells.old cells.new }
{
    let v = load(&cells[at..at + CELLS]);
    store(cells, at, products(v, wide));
}

#[inline(always)]
fn scaled(cell: [u8; 4], by: [u8; 4]) -> [u8; 4]
    ensures { result ≡ multiplied by cell }
{
    [
        product(by[0], cell[0]),
        product(by[1], cell[1]),
        product(by[2], cell[2]),
        product(by[3], cell[3]),
    ]
}

/// Multiplies each byte at the places from `start` up to before `end` by that of a cell.
pub(crate) fn scale_range(cells: &mut [[u8; 4]], start: usize, end: usize, by: [u8; 4])
    requires { (start ≤ end) × (end ≤ length cells.old) }
    ensures { Rewritten [] (in_range start end) (λ _ old. multiplied by old) cells.old cells.new }
{
    let wide = repeat(by);
    let mut at = start;
    'lanes: while end - at >= CELLS {
        scale_four(cells, at, by, wide);
        at += CELLS;
    }
    'cells: for k in at..end {
        cells[k] = scaled(cells[k], by);
    }
}

/// Writes some bits of the four cells from the place `at` on.
#[inline(always)]
fn keep_four(cells: &mut [[u8; 4]], at: usize, keep: [u8; 4], put: [u8; 4], kept: u8x16, new: u8x16)
    requires range { at + 4 ≤ length cells.old }
    requires kept { kept ≡ repeated keep }
    requires new { new ≡ repeated put }
    ensures { Rewritten [] (in_range at (at + 4)) (λ _ old. kept_or_put keep put old) cells.old cells.new }
{
    let v = load(&cells[at..at + CELLS]);
    store(cells, at, (v & kept) | new);
}

#[inline(always)]
fn kept(cell: [u8; 4], keep: [u8; 4], put: [u8; 4]) -> [u8; 4]
    ensures { result ≡ kept_or_put keep put cell }
{
    [
        (cell[0] & keep[0]) | put[0],
        (cell[1] & keep[1]) | put[1],
        (cell[2] & keep[2]) | put[2],
        (cell[3] & keep[3]) | put[3],
    ]
}

/// Keeps the bits that `keep` has of each byte at the places from `start` up to before `end`, and puts
/// those of `put` beside them.
pub(crate) fn keep_range(
    cells: &mut [[u8; 4]],
    start: usize,
    end: usize,
    keep: [u8; 4],
    put: [u8; 4],
)
    requires { (start ≤ end) × (end ≤ length cells.old) }
    ensures { Rewritten [] (in_range start end) (λ _ old. kept_or_put keep put old) cells.old cells.new }
{
    let (all_kept, all_put) = (repeat(keep), repeat(put));
    let mut at = start;
    'lanes: while end - at >= CELLS {
        keep_four(cells, at, keep, put, all_kept, all_put);
        at += CELLS;
    }
    'cells: for k in at..end {
        cells[k] = kept(cells[k], keep, put);
    }
}

/// Takes some bits of four cells, and keeps others of the four from the place `at` on.
#[inline(always)]
fn lay_four(
    cells: &mut [[u8; 4]],
    at: usize,
    row: &[[u8; 4]],
    keep: [u8; 4],
    take: [u8; 4],
    kept: u8x16,
    taken: u8x16,
)
    requires range { at + 4 ≤ length cells.old }
    requires four { length row.now ≡ 4 }
    requires kept { kept ≡ repeated keep }
    requires taken { taken ≡ repeated take }
    ensures { Rewritten [] (in_range at (at + 4)) (λ k old. laid keep take (slice_index_or row.now (k - at) []) old) cells.old cells.new }
{
    let v = load(&cells[at..at + CELLS]);
    let new = load(row);
    store(cells, at, (v & kept) | (new & taken));
}

#[inline(always)]
fn laid(cell: [u8; 4], new: [u8; 4], keep: [u8; 4], take: [u8; 4]) -> [u8; 4]
    ensures { result ≡ laid keep take new cell }
{
    [
        (cell[0] & keep[0]) | (new[0] & take[0]),
        (cell[1] & keep[1]) | (new[1] & take[1]),
        (cell[2] & keep[2]) | (new[2] & take[2]),
        (cell[3] & keep[3]) | (new[3] & take[3]),
    ]
}

/// Keeps the bits that `keep` has of each byte of the cells from the place `at` on, and takes those that
/// `take` has of the bytes of a row.
pub(crate) fn lay_range(
    cells: &mut [[u8; 4]],
    at: usize,
    row: &[[u8; 4]],
    keep: [u8; 4],
    take: [u8; 4],
)
    requires { at + length row.now ≤ length cells.old }
    ensures { Rewritten [] (in_range at (at + length row.now)) (λ k old. laid keep take (slice_index_or row.now (k - at) []) old) cells.old cells.new }
{
    let (all_kept, all_taken) = (repeat(keep), repeat(take));
    let mut done = 0;
    'lanes: while row.len() - done >= CELLS {
        let four = &row[done..done + CELLS];
        lay_four(cells, at + done, four, keep, take, all_kept, all_taken);
        done += CELLS;
    }
    'cells: for k in done..row.len() {
        cells[at + k] = laid(cells[at + k], row[k], keep, take);
    }
}

/// Keeps bits of the cells from the place `at` on, and puts the components of a row of pixels that a mask
/// names beside them, cell by cell.
pub(crate) fn mix_fours(cells: &mut [[u8; 4]], at: usize, row: &[Pixel], mask: Mask)
    requires { at + length row.now ≤ length cells.old }
    ensures { Rewritten [] (in_range at (at + length row.now)) (λ k old. kept_or_put (bytes.keeps mask) (bytes.puts mask (slice_index_or row.now (k - at) no_pixel)) old) cells.old cells.new }
{
    'cells: for k in 0..row.len() {
        let (keep, put) = bits_of(row[k], mask);
        cells[at + k] = kept(cells[at + k], keep, put);
    }
}

/// Red beside green of words of `Rgb565`, at 8 bits a component.
#[inline(always)]
fn red_green(v: u16x8) -> u16x8
    ensures { result ≡ map words.red_green v }
{
    let red = ((v >> 11) * u16x8::splat(527) + u16x8::splat(23)) >> 6;
    let green = (((v << 5) >> 10) * u16x8::splat(259) + u16x8::splat(33)) >> 6;
    red + (green << 8)
}

/// Blue beside a whole alpha.
#[inline(always)]
fn blue_alpha(v: u16x8) -> u16x8
    ensures { result ≡ map words.blue_alpha v }
{
    let blue = (((v << 11) >> 11) * u16x8::splat(527) + u16x8::splat(23)) >> 6;
    blue + u16x8::splat(0xff00)
}

/// Red beside green of words of `Rgba4444`.
#[inline(always)]
fn red_green_4444(v: u16x8) -> u16x8
    ensures { result ≡ map words.red_green_4444 v }
{
    let red = (v >> 12) * u16x8::splat(17);
    let green = ((v << 4) >> 12) * u16x8::splat(17);
    red + (green << 8)
}

/// Blue beside alpha.
#[inline(always)]
fn blue_alpha_4444(v: u16x8) -> u16x8
    ensures { result ≡ map words.blue_alpha_4444 v }
{
    let blue = ((v << 8) >> 12) * u16x8::splat(17);
    let alpha = ((v << 12) >> 12) * u16x8::splat(17);
    blue + (alpha << 8)
}

/// Red beside green of words of `Rgba5551`.
#[inline(always)]
fn red_green_5551(v: u16x8) -> u16x8
    ensures { result ≡ map words.red_green_5551 v }
{
    let red = ((v >> 11) * u16x8::splat(527) + u16x8::splat(23)) >> 6;
    let green = (((v << 5) >> 11) * u16x8::splat(527) + u16x8::splat(23)) >> 6;
    red + (green << 8)
}

/// Blue beside alpha.
#[inline(always)]
fn blue_alpha_5551(v: u16x8) -> u16x8
    ensures { result ≡ map words.blue_alpha_5551 v }
{
    let blue = (((v << 10) >> 11) * u16x8::splat(527) + u16x8::splat(23)) >> 6;
    let alpha = ((v << 15) >> 15) * u16x8::splat(255);
    blue + (alpha << 8)
}

/// The words of eight cells.
#[inline(always)]
fn load_words(row: &[[u8; 2]]) -> u16x8
    requires { length row.now ≡ 8 }
    ensures words { result ≡ map words.word row.now }
    ensures cells { AreCells 2 row.now }
{
    know_cells(row);
    u16x8::from_le_bytes(u8x16::from_slice(row.as_flattened()))
}

/// The cells of `Rgba8888` of eight cells of `Rgb565`, in two vectors.
#[inline(always)]
fn widen_565(row: &[[u8; 2]]) -> (u8x16, u8x16)
    requires { length row.now ≡ 8 }
    ensures low { first_chunks 4 4 result.0 ≡ map (converted 4 Rgba8888 Rgb565) (take 4 row.now) }
    ensures high { first_chunks 4 4 result.1 ≡ map (converted 4 Rgba8888 Rgb565) (drop 4 row.now) }
{
    let v = load_words(row);
    let (low, high) = red_green(v).interleave(blue_alpha(v));
    (low.to_le_bytes(), high.to_le_bytes())
}

/// The same of `Rgba4444`.
#[inline(always)]
fn widen_4444(row: &[[u8; 2]]) -> (u8x16, u8x16)
    requires { length row.now ≡ 8 }
    ensures low { first_chunks 4 4 result.0 ≡ map (converted 4 Rgba8888 Rgba4444) (take 4 row.now) }
    ensures high { first_chunks 4 4 result.1 ≡ map (converted 4 Rgba8888 Rgba4444) (drop 4 row.now) }
{
    let v = load_words(row);
    let (low, high) = red_green_4444(v).interleave(blue_alpha_4444(v));
    (low.to_le_bytes(), high.to_le_bytes())
}

/// The same of `Rgba5551`.
#[inline(always)]
fn widen_5551(row: &[[u8; 2]]) -> (u8x16, u8x16)
    requires { length row.now ≡ 8 }
    ensures low { first_chunks 4 4 result.0 ≡ map (converted 4 Rgba8888 Rgba5551) (take 4 row.now) }
    ensures high { first_chunks 4 4 result.1 ≡ map (converted 4 Rgba8888 Rgba5551) (drop 4 row.now) }
{
    let v = load_words(row);
    let (low, high) = red_green_5551(v).interleave(blue_alpha_5551(v));
    (low.to_le_bytes(), high.to_le_bytes())
}

/// The same of a format that there are lanes for.
#[inline(always)]
fn widen_eight(row: &[[u8; 2]], from: Format) -> (u8x16, u8x16)
    requires long { length row.now ≡ 8 }
    requires lanes { words.has_lanes from ≡ true }
    ensures low { first_chunks 4 4 result.0 ≡ map (converted 4 Rgba8888 from) (take 4 row.now) }
    ensures high { first_chunks 4 4 result.1 ≡ map (converted 4 Rgba8888 from) (drop 4 row.now) }
{
    match from {
        Format::Rgb565 => widen_565(row),
        Format::Rgba4444 => widen_4444(row),
        Format::Rgba5551 => widen_5551(row),
        Format::Rgb888 | Format::Rgba8888 | Format::A8 | Format::L8 | Format::La88 => {
            unreachable!()
        }
    }
}

/// Writes a row of cells of a format that there are lanes for from the place `at` on, in `Rgba8888`.
#[inline(always)]
fn widen_words(cells: &mut [[u8; 4]], at: usize, row: &[[u8; 2]], from: Format)
    requires range { at + length row.now ≤ length cells.old }
    requires lanes { words.has_lanes from ≡ true }
    ensures { Rewritten [] (in_range at (at + length row.now)) (λ k _. converted 4 Rgba8888 from (slice_index_or row.now (k - at) [])) cells.old cells.new }
{
    let mut done = 0;
    'lanes: while row.len() - done >= 2 * CELLS {
        let (low, high) = widen_eight(&row[done..done + 2 * CELLS], from);
        store(cells, at + done, low);
        store(cells, at + done + CELLS, high);
        done += 2 * CELLS;
    }
    'cells: for k in done..row.len() {
        cells[at + k] = cell_in(Format::Rgba8888, pixel_in(from, row[k]));
    }
}

/// Writes a row of cells of two bytes of the format `from` from the place `at` on, in `Rgba8888`: by lanes
/// where there are lanes for the format.
pub(crate) fn convert_words(cells: &mut [[u8; 4]], at: usize, row: &[[u8; 2]], from: Format)
    requires { at + length row.now ≤ length cells.old }
    ensures { Rewritten [] (in_range at (at + length row.now)) (λ k _. converted 4 Rgba8888 from (slice_index_or row.now (k - at) [])) cells.old cells.new }
{
    match from {
        Format::Rgb565 => widen_words(cells, at, row, Format::Rgb565),
        Format::Rgba4444 => widen_words(cells, at, row, Format::Rgba4444),
        Format::Rgba5551 => widen_words(cells, at, row, Format::Rgba5551),
        Format::Rgb888 | Format::Rgba8888 | Format::A8 | Format::L8 | Format::La88 => convert_range(
            cells,
            at,
            row,
            Format::Rgba8888,
            from,
        ),
    }
}
