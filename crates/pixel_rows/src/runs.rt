//! A run of pixels in one row, written at once: given pixels, or those of some columns of another row.

ghost use Rattle.std.specs.Prelude.{◌≡◌, ℕ, ◌+◌, ◌-◌, ◌<◌, ◌≤◌, length, slice_index_or, IfSome};
ghost use Rattle.pixel_formats.specs.Bounds.{IsBytes};
ghost use Rattle.pixel_formats.specs.Formats as formats;
ghost use Rattle.pixel_formats.specs.declared.formats.Format.TheVariants.{Rgba8888};
ghost use Rattle.pixel_rows.specs.Blocks.{in_range, Rewritten};
ghost use Rattle.pixel_rows.specs.Cells.{HasForm, cells_in, seen};
ghost use Rattle.pixel_rows.specs.Images.{no_pixel};
ghost use Rattle.pixel_rows.specs.Lanes.{scaled};
ghost use Rattle.pixel_rows.specs.Masks as masks;

use crate::cells::{Cells, know_cells};
use crate::kernels::{
    convert_range, copy_range, gather_range, lay_masked, mix_range, pack_range, read_range,
};
use crate::lanes::{convert_words, lay_range, mix_fours, scale_range};
use crate::masks::{Mask, bits_of, is_whole, mask_in};
use pixel_formats::{Format, Pixel};

/// A pixel of which each bit is set.
const ALL_BITS: Pixel = Pixel {
    r: 255,
    g: 255,
    b: 255,
    a: 255,
};

/// The first of some columns, where each of the others is the next one.
fn run_of(columns: &[u32]) -> Option<usize>
    ensures run { IfSome result (λ c. (k : ℕ) → k < length columns.now → slice_index_or columns.now k 0 ≡ c + k) }
    ensures some { IfSome result (λ c. 0 < length columns.now) }
{
    if columns.is_empty() {
        return None;
    }
    let first = columns[0] as usize;
    'columns: for k in 0..columns.len() {
        if columns[k] as usize != first + k {
            return None;
        }
    }
    Some(first)
}

/// Writes the cells of some columns of the row that begins at the place `first`, from the place `at`
/// on: a copy where the columns are a run.
fn gather<const N: usize>(
    cells: &mut [[u8; N]],
    at: usize,
    source: &[[u8; N]],
    first: usize,
    columns: &[u32],
    f: Format,
)
    requires range { at + length columns.now ≤ length cells.old }
    requires columns { (k : ℕ) → k < length columns.now → first + slice_index_or columns.now k 0 < length source.now }
    ensures { Rewritten no_pixel (in_range at (at + length columns.now)) (λ k _. slice_index_or (seen f source.now) (first + slice_index_or columns.now (k - at) 0) no_pixel) (seen f cells.old) (seen f cells.new) }
{
    match run_of(columns) {
        Some(column) => {
            let start = first + column;
            copy_range(cells, at, &source[start..start + columns.len()]);
        }
        None => gather_range(cells, at, source, first, columns),
    }
}

/// The same of vectors.
fn gather_vec<const N: usize>(
    cells: &mut Vec<[u8; N]>,
    at: usize,
    source: &Vec<[u8; N]>,
    first: usize,
    columns: &[u32],
    f: Format,
)
    requires range { at + length columns.now ≤ length cells.old.items }
    requires columns { (k : ℕ) → k < length columns.now → first + slice_index_or columns.now k 0 < length source.now.items }
    ensures { Rewritten no_pixel (in_range at (at + length columns.now)) (λ k _. slice_index_or (seen f source.now.items) (first + slice_index_or columns.now (k - at) 0) no_pixel) (seen f cells.old.items) (seen f cells.new.items) }
{
    gather(
        cells.as_mut_slice(),
        at,
        source.as_slice(),
        first,
        columns,
        f,
    );
}

/// Writes the pixels of some columns of a row of the same format from the place `at` on.
pub(crate) fn gather_cells(
    cells: &mut Cells,
    at: usize,
    source: &Cells,
    first: usize,
    columns: &[u32],
    f: Format,
)
    requires form { HasForm f cells.old }
    requires source { HasForm f source.now }
    requires range { at + length columns.now ≤ length (cells_in cells.old) }
    requires columns { (k : ℕ) → k < length columns.now → first + slice_index_or columns.now k 0 < length (cells_in source.now) }
    ensures pixels { Rewritten no_pixel (in_range at (at + length columns.now)) (λ k _. slice_index_or (seen f (cells_in source.now)) (first + slice_index_or columns.now (k - at) 0) no_pixel) (seen f (cells_in cells.old)) (seen f (cells_in cells.new)) }
    ensures form { HasForm f cells.new }
{
    match cells {
        Cells::One(cells) => match source {
            Cells::One(source) => gather_vec(cells, at, source, first, columns, f),
            Cells::Two(_) | Cells::Three(_) | Cells::Four(_) => unreachable!(),
        },
        Cells::Two(cells) => match source {
            Cells::Two(source) => gather_vec(cells, at, source, first, columns, f),
            Cells::One(_) | Cells::Three(_) | Cells::Four(_) => unreachable!(),
        },
        Cells::Three(cells) => match source {
            Cells::Three(source) => gather_vec(cells, at, source, first, columns, f),
            Cells::One(_) | Cells::Two(_) | Cells::Four(_) => unreachable!(),
        },
        Cells::Four(cells) => match source {
            Cells::Four(source) => gather_vec(cells, at, source, first, columns, f),
            Cells::One(_) | Cells::Two(_) | Cells::Three(_) => unreachable!(),
        },
    }
}

/// Writes the cells of some columns of the row that begins at the place `first`, each multiplied by a
/// colour, from the place `at` on.
fn gather_scaled(
    cells: &mut [[u8; 4]],
    at: usize,
    source: &[[u8; 4]],
    first: usize,
    columns: &[u32],
    f: Format,
    by: Pixel,
)
    requires form { 4 ≡ formats.bytes_of f }
    requires range { at + length columns.now ≤ length cells.old }
    requires columns { (k : ℕ) → k < length columns.now → first + slice_index_or columns.now k 0 < length source.now }
    ensures { Rewritten no_pixel (in_range at (at + length columns.now)) (λ k _. scaled by (slice_index_or (seen f source.now) (first + slice_index_or columns.now (k - at) 0) no_pixel)) (seen f cells.old) (seen f cells.new) }
{
    gather(cells, at, source, first, columns, f);
    know_cells(cells);
    scale_range(cells, at, at + columns.len(), [by.r, by.g, by.b, by.a]);
}

/// The same of vectors.
fn gather_scaled_vec(
    cells: &mut Vec<[u8; 4]>,
    at: usize,
    source: &Vec<[u8; 4]>,
    first: usize,
    columns: &[u32],
    f: Format,
    by: Pixel,
)
    requires form { 4 ≡ formats.bytes_of f }
    requires range { at + length columns.now ≤ length cells.old.items }
    requires columns { (k : ℕ) → k < length columns.now → first + slice_index_or columns.now k 0 < length source.now.items }
    ensures { Rewritten no_pixel (in_range at (at + length columns.now)) (λ k _. scaled by (slice_index_or (seen f source.now.items) (first + slice_index_or columns.now (k - at) 0) no_pixel)) (seen f cells.old.items) (seen f cells.new.items) }
{
    gather_scaled(
        cells.as_mut_slice(),
        at,
        source.as_slice(),
        first,
        columns,
        f,
        by,
    );
}

/// Writes the pixels of some columns of a row of the same format of four bytes, each multiplied by a
/// colour, from the place `at` on.
pub(crate) fn gather_scaled_cells(
    cells: &mut Cells,
    at: usize,
    source: &Cells,
    first: usize,
    columns: &[u32],
    f: Format,
    by: Pixel,
)
    requires four { 4 ≡ formats.bytes_of f }
    requires form { HasForm f cells.old }
    requires source { HasForm f source.now }
    requires range { at + length columns.now ≤ length (cells_in cells.old) }
    requires columns { (k : ℕ) → k < length columns.now → first + slice_index_or columns.now k 0 < length (cells_in source.now) }
    ensures pixels { Rewritten no_pixel (in_range at (at + length columns.now)) (λ k _. scaled by (slice_index_or (seen f (cells_in source.now)) (first + slice_index_or columns.now (k - at) 0) no_pixel)) (seen f (cells_in cells.old)) (seen f (cells_in cells.new)) }
    ensures form { HasForm f cells.new }
{
    match cells {
        Cells::Four(cells) => match source {
            Cells::Four(source) => gather_scaled_vec(cells, at, source, first, columns, f, by),
            Cells::One(_) | Cells::Two(_) | Cells::Three(_) => unreachable!(),
        },
        Cells::One(_) | Cells::Two(_) | Cells::Three(_) => unreachable!(),
    }
}

/// Reads the cells of some columns of the row that begins at the place `first` at 8 bits a component: in
/// one conversion where the columns are a run.
fn read<const N: usize>(
    row: &mut [[u8; 4]],
    source: &[[u8; N]],
    first: usize,
    columns: &[u32],
    f: Format,
)
    requires range { length row.old ≡ length columns.now }
    requires columns { (k : ℕ) → k < length columns.now → first + slice_index_or columns.now k 0 < length source.now }
    requires four { N ≤ 4 }
    ensures long { length row.new ≡ length row.old }
    ensures each { (k : ℕ) → k < length columns.now → slice_index_or (seen Rgba8888 row.new) k no_pixel ≡ slice_index_or (seen f source.now) (first + slice_index_or columns.now k 0) no_pixel }
{
    match run_of(columns) {
        Some(column) => {
            let start = first + column;
            let run = &source[start..start + columns.len()];
            convert_range(row, 0, run, Format::Rgba8888, f);
        }
        None => read_range(row, source, first, columns, f),
    }
}

/// The same of cells of two bytes.
fn read_words(row: &mut [[u8; 4]], source: &[[u8; 2]], first: usize, columns: &[u32], f: Format)
    requires range { length row.old ≡ length columns.now }
    requires columns { (k : ℕ) → k < length columns.now → first + slice_index_or columns.now k 0 < length source.now }
    ensures long { length row.new ≡ length row.old }
    ensures each { (k : ℕ) → k < length columns.now → slice_index_or (seen Rgba8888 row.new) k no_pixel ≡ slice_index_or (seen f source.now) (first + slice_index_or columns.now k 0) no_pixel }
{
    match run_of(columns) {
        Some(column) => {
            let start = first + column;
            convert_words(row, 0, &source[start..start + columns.len()], f);
        }
        None => read_range(row, source, first, columns, f),
    }
}

/// The same of cells of four bytes, which are copied.
fn read_fours(row: &mut [[u8; 4]], source: &[[u8; 4]], first: usize, columns: &[u32], f: Format)
    requires form { 4 ≡ formats.bytes_of f }
    requires range { length row.old ≡ length columns.now }
    requires columns { (k : ℕ) → k < length columns.now → first + slice_index_or columns.now k 0 < length source.now }
    ensures long { length row.new ≡ length row.old }
    ensures each { (k : ℕ) → k < length columns.now → slice_index_or (seen Rgba8888 row.new) k no_pixel ≡ slice_index_or (seen f source.now) (first + slice_index_or columns.now k 0) no_pixel }
{
    gather(row, 0, source, first, columns, f);
}

/// Reads the pixels of some columns of the row that begins at the place `first`, as cells of `Rgba8888`.
pub(crate) fn read_cells(
    row: &mut [[u8; 4]],
    source: &Cells,
    first: usize,
    columns: &[u32],
    f: Format,
)
    requires form { HasForm f source.now }
    requires range { length row.old ≡ length columns.now }
    requires columns { (k : ℕ) → k < length columns.now → first + slice_index_or columns.now k 0 < length (cells_in source.now) }
    ensures long { length row.new ≡ length row.old }
    ensures each { (k : ℕ) → k < length columns.now → slice_index_or (seen Rgba8888 row.new) k no_pixel ≡ slice_index_or (seen f (cells_in source.now)) (first + slice_index_or columns.now k 0) no_pixel }
{
    match source {
        Cells::One(source) => read(row, source.as_slice(), first, columns, f),
        Cells::Two(source) => read_words(row, source.as_slice(), first, columns, f),
        Cells::Three(source) => read(row, source.as_slice(), first, columns, f),
        Cells::Four(source) => read_fours(row, source.as_slice(), first, columns, f),
    }
}

/// Tells what the type says of a pixel: its components are below 256.
#[inline(always)]
fn know_pixel(p: Pixel)
    ensures { IsBytes p }
{
    let _red = p.r;
}

/// Tells the same of each pixel. It does nothing, and costs nothing once it is compiled.
#[inline(always)]
fn know_pixels(row: &[Pixel])
    ensures { (k : ℕ) → k < length row.now → IsBytes (slice_index_or row.now k no_pixel) }
{
    'pixels: for pixel in row {
        know_pixel(*pixel);
    }
}

/// Writes a row of pixels under a mask from the place `at` on.
fn put_range<const N: usize>(cells: &mut [[u8; N]], at: usize, row: &[Pixel], f: Format, mask: Mask)
    requires range { at + length row.now ≤ length cells.old }
    requires form { N ≡ formats.bytes_of f }
    ensures { Rewritten no_pixel (in_range at (at + length row.now)) (λ k old. masks.written f mask old (slice_index_or row.now (k - at) no_pixel)) (seen f cells.old) (seen f cells.new) }
{
    know_pixels(row);
    if is_whole(f, mask) {
        pack_range(cells, at, row, f);
    } else {
        mix_range(cells, at, row, f, mask_in(f, mask));
    }
}

/// The same of a vector.
fn put_vec<const N: usize>(
    cells: &mut Vec<[u8; N]>,
    at: usize,
    row: &[Pixel],
    f: Format,
    mask: Mask,
)
    requires range { at + length row.now ≤ length cells.old.items }
    requires form { N ≡ formats.bytes_of f }
    ensures { Rewritten no_pixel (in_range at (at + length row.now)) (λ k old. masks.written f mask old (slice_index_or row.now (k - at) no_pixel)) (seen f cells.old.items) (seen f cells.new.items) }
{
    put_range(cells.as_mut_slice(), at, row, f, mask);
}

/// Writes a row of pixels under a mask from the place `at` on, in cells of four bytes.
fn put_fours(cells: &mut [[u8; 4]], at: usize, row: &[Pixel], f: Format, mask: Mask)
    requires range { at + length row.now ≤ length cells.old }
    requires form { 4 ≡ formats.bytes_of f }
    ensures { Rewritten no_pixel (in_range at (at + length row.now)) (λ k old. masks.written f mask old (slice_index_or row.now (k - at) no_pixel)) (seen f cells.old) (seen f cells.new) }
{
    know_pixels(row);
    know_cells(cells);
    if is_whole(f, mask) {
        pack_range(cells, at, row, f);
    } else {
        mix_fours(cells, at, row, mask_in(f, mask));
    }
}

/// The same of a vector.
fn put_four_vec(cells: &mut Vec<[u8; 4]>, at: usize, row: &[Pixel], f: Format, mask: Mask)
    requires range { at + length row.now ≤ length cells.old.items }
    requires form { 4 ≡ formats.bytes_of f }
    ensures { Rewritten no_pixel (in_range at (at + length row.now)) (λ k old. masks.written f mask old (slice_index_or row.now (k - at) no_pixel)) (seen f cells.old.items) (seen f cells.new.items) }
{
    put_fours(cells.as_mut_slice(), at, row, f, mask);
}

/// Writes a row of pixels under a mask from the place `at` on.
pub(crate) fn put_cells(cells: &mut Cells, at: usize, row: &[Pixel], f: Format, mask: Mask)
    requires form { HasForm f cells.old }
    requires range { at + length row.now ≤ length (cells_in cells.old) }
    ensures pixels { Rewritten no_pixel (in_range at (at + length row.now)) (λ k old. masks.written f mask old (slice_index_or row.now (k - at) no_pixel)) (seen f (cells_in cells.old)) (seen f (cells_in cells.new)) }
    ensures form { HasForm f cells.new }
{
    match cells {
        Cells::One(cells) => put_vec(cells, at, row, f, mask),
        Cells::Two(cells) => put_vec(cells, at, row, f, mask),
        Cells::Three(cells) => put_vec(cells, at, row, f, mask),
        Cells::Four(cells) => put_four_vec(cells, at, row, f, mask),
    }
}

/// Writes a row of cells of `Rgba8888` under a mask from the place `at` on.
fn lay<const N: usize>(cells: &mut [[u8; N]], at: usize, row: &[[u8; 4]], f: Format, mask: Mask)
    requires range { at + length row.now ≤ length cells.old }
    requires form { N ≡ formats.bytes_of f }
    ensures { Rewritten no_pixel (in_range at (at + length row.now)) (λ k old. masks.written f mask old (slice_index_or (seen Rgba8888 row.now) (k - at) no_pixel)) (seen f cells.old) (seen f cells.new) }
{
    if is_whole(f, mask) {
        convert_range(cells, at, row, f, Format::Rgba8888);
    } else {
        lay_masked(cells, at, row, f, mask_in(f, mask));
    }
}

/// The same of a vector.
fn lay_vec<const N: usize>(
    cells: &mut Vec<[u8; N]>,
    at: usize,
    row: &[[u8; 4]],
    f: Format,
    mask: Mask,
)
    requires range { at + length row.now ≤ length cells.old.items }
    requires form { N ≡ formats.bytes_of f }
    ensures { Rewritten no_pixel (in_range at (at + length row.now)) (λ k old. masks.written f mask old (slice_index_or (seen Rgba8888 row.now) (k - at) no_pixel)) (seen f cells.old.items) (seen f cells.new.items) }
{
    lay(cells.as_mut_slice(), at, row, f, mask);
}

/// The same in cells of four bytes, by lanes.
fn lay_fours(cells: &mut [[u8; 4]], at: usize, row: &[[u8; 4]], f: Format, mask: Mask)
    requires range { at + length row.now ≤ length cells.old }
    requires form { 4 ≡ formats.bytes_of f }
    ensures { Rewritten no_pixel (in_range at (at + length row.now)) (λ k old. masks.written f mask old (slice_index_or (seen Rgba8888 row.now) (k - at) no_pixel)) (seen f cells.old) (seen f cells.new) }
{
    know_cells(row);
    know_cells(cells);
    if is_whole(f, mask) {
        copy_range(cells, at, row);
    } else {
        let (keep, take) = bits_of(ALL_BITS, mask_in(f, mask));
        lay_range(cells, at, row, keep, take);
    }
}

/// The same of a vector.
fn lay_four_vec(cells: &mut Vec<[u8; 4]>, at: usize, row: &[[u8; 4]], f: Format, mask: Mask)
    requires range { at + length row.now ≤ length cells.old.items }
    requires form { 4 ≡ formats.bytes_of f }
    ensures { Rewritten no_pixel (in_range at (at + length row.now)) (λ k old. masks.written f mask old (slice_index_or (seen Rgba8888 row.now) (k - at) no_pixel)) (seen f cells.old.items) (seen f cells.new.items) }
{
    lay_fours(cells.as_mut_slice(), at, row, f, mask);
}

/// Writes a row of cells of `Rgba8888` under a mask from the place `at` on.
pub(crate) fn lay_cells(cells: &mut Cells, at: usize, row: &[[u8; 4]], f: Format, mask: Mask)
    requires form { HasForm f cells.old }
    requires range { at + length row.now ≤ length (cells_in cells.old) }
    ensures pixels { Rewritten no_pixel (in_range at (at + length row.now)) (λ k old. masks.written f mask old (slice_index_or (seen Rgba8888 row.now) (k - at) no_pixel)) (seen f (cells_in cells.old)) (seen f (cells_in cells.new)) }
    ensures form { HasForm f cells.new }
{
    match cells {
        Cells::One(cells) => lay_vec(cells, at, row, f, mask),
        Cells::Two(cells) => lay_vec(cells, at, row, f, mask),
        Cells::Three(cells) => lay_vec(cells, at, row, f, mask),
        Cells::Four(cells) => lay_four_vec(cells, at, row, f, mask),
    }
}
