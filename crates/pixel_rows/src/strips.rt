//! Rows of pixels that no image has, four bytes each, as `Rgba8888` keeps them.

ghost use Rattle.std.specs.Prelude.{◌≡◌, ℕ, ◌<◌, length, slice_index_or};
ghost use Rattle.pixel_formats.specs.declared.formats.Format.TheVariants.{Rgba8888};
ghost use Rattle.pixel_rows.specs.Cells.{seen};
ghost use Rattle.pixel_rows.specs.Images.{no_pixel};
ghost use Rattle.pixel_rows.specs.Lanes.{scaled};
ghost use Rattle.pixel_rows.specs.Masks as masks;

use crate::cells::know_cells;
use crate::lanes::{keep_range, scale_range};
use crate::masks::{Mask, bits_of};
use pixel_formats::Pixel;

/// Multiplies each pixel of a row by a colour.
pub fn scale_row(row: &mut [[u8; 4]], by: Pixel)
    ensures long { length row.new ≡ length row.old }
    ensures each { (k : ℕ) → k < length row.old → slice_index_or (seen Rgba8888 row.new) k no_pixel ≡ scaled by (slice_index_or (seen Rgba8888 row.old) k no_pixel) }
{
    know_cells(row);
    let end = row.len();
    scale_range(row, 0, end, [by.r, by.g, by.b, by.a]);
}

/// Writes the components of a pixel that a mask names over those of each pixel of a row.
pub fn set_row(row: &mut [[u8; 4]], p: Pixel, mask: Mask)
    ensures long { length row.new ≡ length row.old }
    ensures each { (k : ℕ) → k < length row.old → slice_index_or (seen Rgba8888 row.new) k no_pixel ≡ masks.masked mask (slice_index_or (seen Rgba8888 row.old) k no_pixel) p }
{
    know_cells(row);
    let end = row.len();
    let (keep, put) = bits_of(p, mask);
    keep_range(row, 0, end, keep, put);
}
