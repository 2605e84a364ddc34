//! Pixels written in place.

ghost use Rattle.std.specs.Prelude.{◌≡◌, ◌+◌, ◌*◌, ◌≤◌, length};
ghost use Rattle.pixel_formats.specs.Formats as formats;
ghost use Rattle.pixel_formats.specs.Pixels as pixels;
ghost use Rattle.pixel_rows.specs.Blocks.{in_block, in_range, Rewritten};
ghost use Rattle.pixel_rows.specs.Cells.{HasForm, cells_in, seen};
ghost use Rattle.pixel_rows.specs.Images.{no_pixel};
ghost use Rattle.pixel_rows.specs.Masks as masks;

use crate::blocks::Block;
use crate::cells::{Cells, cell_in, know_cells};
use crate::kernels::{blend_range, fill_range};
use crate::lanes::keep_range;
use crate::masks::{Mask, bits_of, is_whole, mask_in};
use pixel_formats::{Format, Pixel, quantize};

/// Writes a pixel under a mask at the places from `start` up to before `end`.
fn write_range<const N: usize>(
    cells: &mut [[u8; N]],
    start: usize,
    end: usize,
    f: Format,
    p: Pixel,
    mask: Mask,
)
    requires range { (start ≤ end) × (end ≤ length cells.old) }
    requires form { N ≡ formats.bytes_of f }
    ensures { Rewritten no_pixel (in_range start end) (λ _ old. masks.written f mask old p) (seen f cells.old) (seen f cells.new) }
{
    if is_whole(f, mask) {
        fill_range(cells, start, end, cell_in(f, p));
    } else {
        blend_range(cells, start, end, f, quantize(f, p), mask_in(f, mask));
    }
}

/// The same in cells of four bytes, by lanes.
fn write_fours(cells: &mut [[u8; 4]], start: usize, end: usize, f: Format, p: Pixel, mask: Mask)
    requires range { (start ≤ end) × (end ≤ length cells.old) }
    requires form { 4 ≡ formats.bytes_of f }
    ensures { Rewritten no_pixel (in_range start end) (λ _ old. masks.written f mask old p) (seen f cells.old) (seen f cells.new) }
{
    know_cells(cells);
    if is_whole(f, mask) {
        fill_range(cells, start, end, cell_in(f, p));
    } else {
        let (keep, put) = bits_of(quantize(f, p), mask_in(f, mask));
        keep_range(cells, start, end, keep, put);
    }
}

fn fill_rows<const N: usize>(
    cells: &mut [[u8; N]],
    width: usize,
    block: Block,
    f: Format,
    p: Pixel,
    mask: Mask,
)
    requires columns { (block.left ≤ block.right) × (block.right ≤ width) }
    requires rows { (block.bottom ≤ block.top) × (block.top * width ≤ length cells.old) }
    requires form { N ≡ formats.bytes_of f }
    ensures { Rewritten no_pixel (in_block width block) (λ _ old. masks.written f mask old p) (seen f cells.old) (seen f cells.new) }
{
    // Whole rows lie behind one another.
    if block.left == 0 && block.right == width {
        write_range(cells, block.bottom * width, block.top * width, f, p, mask);
        return;
    }
    'rows: for y in block.bottom..block.top {
        let start = y * width;
        write_range(cells, start + block.left, start + block.right, f, p, mask);
    }
}

/// The same of a vector.
fn fill_vec<const N: usize>(
    cells: &mut Vec<[u8; N]>,
    width: usize,
    block: Block,
    f: Format,
    p: Pixel,
    mask: Mask,
)
    requires columns { (block.left ≤ block.right) × (block.right ≤ width) }
    requires rows { (block.bottom ≤ block.top) × (block.top * width ≤ length cells.old.items) }
    requires form { N ≡ formats.bytes_of f }
    ensures { Rewritten no_pixel (in_block width block) (λ _ old. masks.written f mask old p) (seen f cells.old.items) (seen f cells.new.items) }
{
    fill_rows(cells.as_mut_slice(), width, block, f, p, mask);
}

/// The same in cells of four bytes.
fn fill_fours(cells: &mut [[u8; 4]], width: usize, block: Block, f: Format, p: Pixel, mask: Mask)
    requires columns { (block.left ≤ block.right) × (block.right ≤ width) }
    requires rows { (block.bottom ≤ block.top) × (block.top * width ≤ length cells.old) }
    requires form { 4 ≡ formats.bytes_of f }
    ensures { Rewritten no_pixel (in_block width block) (λ _ old. masks.written f mask old p) (seen f cells.old) (seen f cells.new) }
{
    // Whole rows lie behind one another.
    if block.left == 0 && block.right == width {
        write_fours(cells, block.bottom * width, block.top * width, f, p, mask);
        return;
    }
    'rows: for y in block.bottom..block.top {
        let start = y * width;
        write_fours(cells, start + block.left, start + block.right, f, p, mask);
    }
}

/// The same of a vector.
fn fill_four_vec(
    cells: &mut Vec<[u8; 4]>,
    width: usize,
    block: Block,
    f: Format,
    p: Pixel,
    mask: Mask,
)
    requires columns { (block.left ≤ block.right) × (block.right ≤ width) }
    requires rows { (block.bottom ≤ block.top) × (block.top * width ≤ length cells.old.items) }
    requires form { 4 ≡ formats.bytes_of f }
    ensures { Rewritten no_pixel (in_block width block) (λ _ old. masks.written f mask old p) (seen f cells.old.items) (seen f cells.new.items) }
{
    fill_fours(cells.as_mut_slice(), width, block, f, p, mask);
}

/// Writes a pixel under a mask into each place of a block of rows of `width` pixels.
pub(crate) fn fill_block(
    cells: &mut Cells,
    width: usize,
    block: Block,
    f: Format,
    p: Pixel,
    mask: Mask,
)
    requires columns { (block.left ≤ block.right) × (block.right ≤ width) }
    requires rows { (block.bottom ≤ block.top) × (block.top * width ≤ length (cells_in cells.old)) }
    requires form { HasForm f cells.old }
    ensures pixels { Rewritten no_pixel (in_block width block) (λ _ old. masks.written f mask old p) (seen f (cells_in cells.old)) (seen f (cells_in cells.new)) }
    ensures form { HasForm f cells.new }
{
    match cells {
        Cells::One(cells) => fill_vec(cells, width, block, f, p, mask),
        Cells::Two(cells) => fill_vec(cells, width, block, f, p, mask),
        Cells::Three(cells) => fill_vec(cells, width, block, f, p, mask),
        Cells::Four(cells) => fill_four_vec(cells, width, block, f, p, mask),
    }
}
