//! The rows of an image: its own, or frozen and shared.

ghost use Rattle.std.specs.Prelude.{◌≡◌, ℕ, ◌+◌, ◌-◌, ◌*◌, ◌/◌, ◌%◌, ◌<◌, ◌≤◌, length, map, slice_index_or, true, false, IsOk, OnOk, OnErr, IfOk, IfErr};
ghost use Rattle.std.specs.Arc.{arc_value};
ghost use Rattle.pixel_formats.specs.Formats as formats;
ghost use Rattle.pixel_formats.specs.Pixels.{quantize};
ghost use Rattle.pixel_formats.specs.declared.formats.Format.TheVariants.{Rgba8888};
ghost use Rattle.pixel_rows.specs.Blocks.{in_block, in_range, Rewritten};
ghost use Rattle.pixel_rows.specs.Cells.{HasForm, SameCells, seen};
ghost use Rattle.pixel_rows.specs.Images.{no_pixel};
ghost use Rattle.pixel_rows.specs.Lanes.{scaled};
ghost use Rattle.pixel_rows.specs.Masks as masks;
ghost use Rattle.pixel_rows.specs.Payloads.{payload_pixel};
ghost use Rattle.pixel_rows.specs.Rows as values;
ghost use Rattle.pixel_rows.specs.Rows.{SameRows, cells_in_rows, is_owned};
ghost use Rattle.pixel_rows.specs.Transfers as transfers;
ghost use Rattle.pixel_rows.specs.Transfers.{IsAlignment};

use crate::blocks::Block;
use crate::cells::{Cells, pixel_in};
use crate::copies::copy_cells;
use crate::fills::fill_block;
use crate::loads::load_block;
use crate::masks::Mask;
use crate::runs::{gather_cells, gather_scaled_cells, lay_cells, put_cells};
use crate::transfers::stride;
use egl_calls::NoMemory;
use pixel_formats::{Format, Pixel, bytes_of};
use std::mem;
use std::sync::Arc;

/// Packed pixels: one image's own, or frozen ones, which each image has that shares them. Frozen ones are
/// written only while one image alone has them. Those for which there was no memory to share them are
/// one image's alone: a share of them is a copy.
#[derive(Drop)]
pub(crate) enum Rows {
    Owned(Cells),
    Frozen(Arc<Cells>),
    Alone(Cells),
}

/// Whether the rows are an image's own.
pub(crate) fn owns(rows: &Rows) -> bool
    ensures { result ≡ is_owned rows.now }
{
    match rows {
        Rows::Owned(_) => true,
        Rows::Frozen(_) | Rows::Alone(_) => false,
    }
}

/// The packed pixels of rows.
pub(crate) fn cells_of(rows: &Rows) -> &Cells
    ensures { result.now ≡ values.cells_of rows.now }
{
    match rows {
        Rows::Owned(cells) => cells,
        Rows::Frozen(shared) => shared,
        Rows::Alone(cells) => cells,
    }
}

/// Frozen pixels as one image's own: the same memory where no other image shares it, else a copy.
fn thawed(shared: Arc<Cells>) -> Result<Cells, Arc<Cells>>
    ensures ok { IfOk result (SameCells (arc_value shared)) }
    ensures err { IfErr result (λ s. s ≡ shared) }
{
    match Arc::try_unwrap(shared) {
        Ok(cells) => Ok(cells),
        Err(shared) => match shared.copy() {
            Ok(cells) => Ok(cells),
            Err(_) => Err(shared),
        },
    }
}

/// Makes rows an image's own. Rows that are so already take no memory.
pub(crate) fn own(rows: &mut Rows) -> Result<(), NoMemory>
    ensures same { SameCells (values.cells_of rows.old) (values.cells_of rows.new) }
    ensures owned { OnOk result (is_owned rows.new ≡ true) }
    ensures err { OnErr result (is_owned rows.new ≡ is_owned rows.old) }
    ensures room { is_owned rows.old ≡ true → IsOk result }
{
    if owns(rows) {
        return Ok(());
    }
    let none = Rows::Owned(Cells::One(Vec::new(cells_of(rows).allocator())));
    match mem::replace(rows, none) {
        Rows::Owned(cells) | Rows::Alone(cells) => {
            *rows = Rows::Owned(cells);
            Ok(())
        }
        Rows::Frozen(shared) => match thawed(shared) {
            Ok(cells) => {
                *rows = Rows::Owned(cells);
                Ok(())
            }
            Err(shared) => {
                *rows = Rows::Frozen(shared);
                Err(NoMemory)
            }
        },
    }
}

/// The same pixels, frozen.
pub(crate) fn frozen(rows: Rows) -> Result<Rows, Rows>
    ensures cells { IfOk result (λ r. SameCells (values.cells_of rows) (values.cells_of r)) }
    ensures frozen { IfOk result (λ r. is_owned r ≡ false) }
    ensures err { IfErr result (λ r. r ≡ rows) }
{
    match rows {
        Rows::Frozen(shared) => Ok(Rows::Frozen(shared)),
        Rows::Alone(cells) => Ok(Rows::Alone(cells)),
        Rows::Owned(cells) => match Arc::new(cells.allocator(), cells) {
            Ok(shared) => Ok(Rows::Frozen(shared)),
            Err(failed) => Err(Rows::Owned(failed.value)),
        },
    }
}

/// Freezes rows again that were written. It takes memory to let other images share them, but needs none.
pub(crate) fn refreeze(rows: &mut Rows)
    ensures cells { SameCells (values.cells_of rows.old) (values.cells_of rows.new) }
    ensures frozen { is_owned rows.new ≡ false }
{
    let none = Rows::Alone(Cells::One(Vec::new(cells_of(rows).allocator())));
    *rows = match mem::replace(rows, none) {
        Rows::Owned(cells) => match Arc::new(cells.allocator(), cells) {
            Ok(shared) => Rows::Frozen(shared),
            Err(failed) => Rows::Alone(failed.value),
        },
        Rows::Frozen(shared) => Rows::Frozen(shared),
        Rows::Alone(cells) => Rows::Alone(cells),
    };
}

/// The same pixels for another image: a copy of one image's, and shared ones in the same memory.
pub(crate) fn share(rows: &Rows) -> Result<Rows, NoMemory>
    ensures { IfOk result (SameRows rows.now) }
{
    match rows {
        Rows::Owned(cells) => Ok(Rows::Owned(cells.copy()?)),
        Rows::Alone(cells) => Ok(Rows::Alone(cells.copy()?)),
        Rows::Frozen(shared) => match Arc::try_clone(shared) {
            Ok(shared) => Ok(Rows::Frozen(shared)),
            Err(_) => Err(NoMemory),
        },
    }
}

/// Writes a pixel under a mask into each place of a block of an image's own rows.
pub(crate) fn fill_rows(
    rows: &mut Rows,
    width: usize,
    block: Block,
    f: Format,
    p: Pixel,
    mask: Mask,
)
    requires owned { is_owned rows.old ≡ true }
    requires columns { (block.left ≤ block.right) × (block.right ≤ width) }
    requires rows { (block.bottom ≤ block.top) × (block.top * width ≤ length (cells_in_rows rows.old)) }
    requires form { HasForm f (values.cells_of rows.old) }
    ensures pixels { Rewritten no_pixel (in_block width block) (λ _ old. masks.written f mask old p) (seen f (cells_in_rows rows.old)) (seen f (cells_in_rows rows.new)) }
    ensures form { HasForm f (values.cells_of rows.new) }
    ensures owned { is_owned rows.new ≡ true }
{
    match rows {
        Rows::Owned(cells) => fill_block(cells, width, block, f, p, mask),
        Rows::Frozen(_) | Rows::Alone(_) => unreachable!(),
    }
}

/// Writes the pixels of a block of an image's own rows from a payload whose rows have `long` bytes.
pub(crate) fn load_rows(
    rows: &mut Rows,
    width: usize,
    block: Block,
    bytes: &[u8],
    align: u32,
    f: Format,
    from: Format,
)
    requires owned { is_owned rows.old ≡ true }
    requires columns { (block.left ≤ block.right) × (block.right ≤ width) × (width ≤ 2048) }
    requires rows { (block.bottom ≤ block.top) × (block.top ≤ 2048) × (block.top * width ≤ length (cells_in_rows rows.old)) }
    requires alignment { IsAlignment align }
    requires form { HasForm f (values.cells_of rows.old) }
    ensures pixels { Rewritten no_pixel (in_block width block) (λ k _. quantize f (payload_pixel bytes.now from (transfers.stride ((block.right - block.left) * formats.bytes_of from) align) (k % width - block.left) (k / width - block.bottom))) (seen f (cells_in_rows rows.old)) (seen f (cells_in_rows rows.new)) }
    ensures form { HasForm f (values.cells_of rows.new) }
    ensures owned { is_owned rows.new ≡ true }
{
    let long = stride((block.right - block.left) * bytes_of(from) as usize, align);
    match rows {
        Rows::Owned(cells) => load_block(cells, width, block, bytes, long, f, from),
        Rows::Frozen(_) | Rows::Alone(_) => unreachable!(),
    }
}

/// Writes the pixels of rows of the format `from` over as many of an image's own.
pub(crate) fn copy_rows(rows: &mut Rows, source: &Rows, f: Format, from: Format)
    requires owned { is_owned rows.old ≡ true }
    requires form { HasForm f (values.cells_of rows.old) }
    requires source { HasForm from (values.cells_of source.now) }
    requires long { length (cells_in_rows source.now) ≡ length (cells_in_rows rows.old) }
    ensures pixels { seen f (cells_in_rows rows.new) ≡ map (quantize f) (seen from (cells_in_rows source.now)) }
    ensures form { HasForm f (values.cells_of rows.new) }
    ensures owned { is_owned rows.new ≡ true }
{
    match rows {
        Rows::Owned(cells) => copy_cells(cells, cells_of(source), f, from),
        Rows::Frozen(_) | Rows::Alone(_) => unreachable!(),
    }
}

/// Writes the pixels of some columns of a row of the same format over an image's own, from the place
/// `at` on. The row begins at the place `first`.
pub(crate) fn gather_row(
    rows: &mut Rows,
    at: usize,
    source: &Rows,
    first: usize,
    columns: &[u32],
    f: Format,
)
    requires owned { is_owned rows.old ≡ true }
    requires form { HasForm f (values.cells_of rows.old) }
    requires source { HasForm f (values.cells_of source.now) }
    requires range { at + length columns.now ≤ length (cells_in_rows rows.old) }
    requires columns { (k : ℕ) → k < length columns.now → first + slice_index_or columns.now k 0 < length (cells_in_rows source.now) }
    ensures pixels { Rewritten no_pixel (in_range at (at + length columns.now)) (λ k _. slice_index_or (seen f (cells_in_rows source.now)) (first + slice_index_or columns.now (k - at) 0) no_pixel) (seen f (cells_in_rows rows.old)) (seen f (cells_in_rows rows.new)) }
    ensures form { HasForm f (values.cells_of rows.new) }
    ensures owned { is_owned rows.new ≡ true }
{
    match rows {
        Rows::Owned(cells) => gather_cells(cells, at, cells_of(source), first, columns, f),
        Rows::Frozen(_) | Rows::Alone(_) => unreachable!(),
    }
}

/// The same of a format of four bytes, where each pixel is multiplied by a colour.
pub(crate) fn gather_scaled_row(
    rows: &mut Rows,
    at: usize,
    source: &Rows,
    first: usize,
    columns: &[u32],
    f: Format,
    by: Pixel,
)
    requires four { 4 ≡ formats.bytes_of f }
    requires owned { is_owned rows.old ≡ true }
    requires form { HasForm f (values.cells_of rows.old) }
    requires source { HasForm f (values.cells_of source.now) }
    requires range { at + length columns.now ≤ length (cells_in_rows rows.old) }
    requires columns { (k : ℕ) → k < length columns.now → first + slice_index_or columns.now k 0 < length (cells_in_rows source.now) }
    ensures pixels { Rewritten no_pixel (in_range at (at + length columns.now)) (λ k _. scaled by (slice_index_or (seen f (cells_in_rows source.now)) (first + slice_index_or columns.now (k - at) 0) no_pixel)) (seen f (cells_in_rows rows.old)) (seen f (cells_in_rows rows.new)) }
    ensures form { HasForm f (values.cells_of rows.new) }
    ensures owned { is_owned rows.new ≡ true }
{
    match rows {
        Rows::Owned(cells) => {
            gather_scaled_cells(cells, at, cells_of(source), first, columns, f, by)
        }
        Rows::Frozen(_) | Rows::Alone(_) => unreachable!(),
    }
}

/// Writes a row of pixels under a mask over an image's own, from the place `at` on.
pub(crate) fn put_row(rows: &mut Rows, at: usize, row: &[Pixel], f: Format, mask: Mask)
    requires owned { is_owned rows.old ≡ true }
    requires form { HasForm f (values.cells_of rows.old) }
    requires range { at + length row.now ≤ length (cells_in_rows rows.old) }
    ensures pixels { Rewritten no_pixel (in_range at (at + length row.now)) (λ k old. masks.written f mask old (slice_index_or row.now (k - at) no_pixel)) (seen f (cells_in_rows rows.old)) (seen f (cells_in_rows rows.new)) }
    ensures form { HasForm f (values.cells_of rows.new) }
    ensures owned { is_owned rows.new ≡ true }
{
    match rows {
        Rows::Owned(cells) => put_cells(cells, at, row, f, mask),
        Rows::Frozen(_) | Rows::Alone(_) => unreachable!(),
    }
}

/// What the cell at a place reads as.
pub(crate) fn pixel_in_rows(rows: &Rows, place: usize, f: Format) -> Pixel
    requires { place < length (cells_in_rows rows.now) }
    ensures { result ≡ slice_index_or (seen f (cells_in_rows rows.now)) place no_pixel }
{
    match cells_of(rows) {
        Cells::One(cells) => pixel_in(f, cells[place]),
        Cells::Two(cells) => pixel_in(f, cells[place]),
        Cells::Three(cells) => pixel_in(f, cells[place]),
        Cells::Four(cells) => pixel_in(f, cells[place]),
    }
}

/// Writes a row of cells of `Rgba8888` under a mask over an image's own, from the place `at` on.
pub(crate) fn lay_row(rows: &mut Rows, at: usize, row: &[[u8; 4]], f: Format, mask: Mask)
    requires owned { is_owned rows.old ≡ true }
    requires form { HasForm f (values.cells_of rows.old) }
    requires range { at + length row.now ≤ length (cells_in_rows rows.old) }
    ensures pixels { Rewritten no_pixel (in_range at (at + length row.now)) (λ k old. masks.written f mask old (slice_index_or (seen Rgba8888 row.now) (k - at) no_pixel)) (seen f (cells_in_rows rows.old)) (seen f (cells_in_rows rows.new)) }
    ensures form { HasForm f (values.cells_of rows.new) }
    ensures owned { is_owned rows.new ≡ true }
{
    match rows {
        Rows::Owned(cells) => lay_cells(cells, at, row, f, mask),
        Rows::Frozen(_) | Rows::Alone(_) => unreachable!(),
    }
}
