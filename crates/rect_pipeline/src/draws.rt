//! Draws of a texture's pixels (OES_draw_texture).

ghost use Rattle.std.specs.Prelude.{◌≡◌, ℕ, ◌-◌, ◌<◌, true, false, length, slice_index_or, IsOk, OnOk, OnErr};
ghost use Rattle.pixel_formats.specs.Formats.{base_of};
ghost use Rattle.pixel_formats.specs.declared.formats.Format.TheVariants.{Rgba8888};
ghost use Rattle.pixel_rows.specs.Cells.{seen};
ghost use Rattle.pixel_rows.specs.Images.{IsImage, IsSameShape, no_pixel, pixel_at};
ghost use Rattle.pixel_rows.specs.Lanes.{scaled};
ghost use Rattle.pixel_rows.specs.Masks.{every};
ghost use Rattle.pixel_rows.specs.Painting.{painted};
ghost use Rattle.rect_pipeline.specs.Drawing.{environment_of, fragment_of};
ghost use Rattle.rect_pipeline.specs.Fragments.{colour_at_8};
ghost use Rattle.rect_pipeline.specs.Signed.{IsAxis};
ghost use Rattle.rect_pipeline.specs.Targets as targets;
ghost use Rattle.rect_pipeline.specs.Targets.{IsRegionIn, IsWritable, in_region};
ghost use Rattle.rect_pipeline.specs.Texels as texels;

use crate::axes::{Axis, texel_at, texels};
use crate::fragments::{Environment, colour_in};
use crate::images::{MOST_COLUMNS, gather_row, gather_scaled_row, lay_row, own};
use crate::targets::{Region, fill, mask_of};
use context_state::ContextPart;
use egl_calls::NoMemory;
use pixel_formats::{Format, Pixel, base_of};
use pixel_rows::{Image, Mask};

/// Whether a mask names each component.
fn is_all(mask: Mask) -> bool
    ensures { result ≡ true → mask ≡ every }
{
    mask.r && mask.g && mask.b && mask.a
}

/// Whether a fragment is the product of the colour and a texel at 8 bits a component.
fn scales(f: Format, environment: Environment) -> bool
    ensures eight { result ≡ true → f ≡ Rgba8888 }
    ensures multiplies { result ≡ true → environment.replaces ≡ false }
{
    f == Format::Rgba8888 && !environment.replaces
}

/// The fragments of the texels of some columns of a row of a texture, four bytes each.
fn combine(
    fragments: &mut [[u8; 4]],
    image: &Image,
    columns: &[u32],
    row: u32,
    environment: Environment,
)
    requires room { length fragments.old ≡ length columns.now }
    requires row { row < image.now.height }
    requires columns { (k : ℕ) → k < length columns.now → slice_index_or columns.now k 0 < image.now.width }
    ensures long { length fragments.new ≡ length fragments.old }
    ensures each { (k : ℕ) → k < length columns.now → slice_index_or (seen Rgba8888 fragments.new) k no_pixel ≡ fragment_of environment (pixel_at image.now (slice_index_or columns.now k 0) row) }
{
    image.read_row(row, columns, fragments);
    environment.combine(fragments);
}

/// Draws a region from the texels of some columns of a texture: for each pixel the fragment of its texel.
fn draw_combined(
    target: &mut Image,
    region: Region,
    image: &Image,
    columns: &[u32],
    rows: Axis,
    environment: Environment,
    mask: Mask,
)
    requires owned { target.old.owned ≡ true }
    requires region { IsRegionIn region target.old.width target.old.height }
    requires long { length columns.now ≡ region.columns.end - region.columns.start }
    requires columns { (k : ℕ) → k < length columns.now → slice_index_or columns.now k 0 < image.now.width }
    requires rows { (IsAxis rows) × (rows.side ≡ image.now.height) }
    ensures region { target.new ≡ painted target.old (in_region region) (λ x y. fragment_of environment (pixel_at image.now (slice_index_or columns.now (x - region.columns.start) 0) (texels.texel_at rows y))) mask }
    ensures still { IsWritable target.old target.new }
{
    let (_width, _height) = (target.width(), target.height());
    let mut list = [[0; 4]; MOST_COLUMNS];
    let fragments = &mut list[..columns.len()];
    'rows: for y in region.rows.start..region.rows.end {
        let row = texel_at(rows, y);
        combine(fragments, image, columns, row, environment);
        lay_row(target, y, region.columns, fragments, mask);
    }
}

/// Draws a region from the texels of some columns of a texture of the target's format, as they are.
fn draw_texels(target: &mut Image, region: Region, image: &Image, columns: &[u32], rows: Axis)
    requires owned { target.old.owned ≡ true }
    requires format { image.now.format ≡ target.old.format }
    requires region { IsRegionIn region target.old.width target.old.height }
    requires long { length columns.now ≡ region.columns.end - region.columns.start }
    requires columns { (k : ℕ) → k < length columns.now → slice_index_or columns.now k 0 < image.now.width }
    requires rows { (IsAxis rows) × (rows.side ≡ image.now.height) }
    ensures region { target.new ≡ painted target.old (in_region region) (λ x y. pixel_at image.now (slice_index_or columns.now (x - region.columns.start) 0) (texels.texel_at rows y)) every }
    ensures still { IsWritable target.old target.new }
{
    let (_width, _height) = (target.width(), target.height());
    'rows: for y in region.rows.start..region.rows.end {
        let row = texel_at(rows, y);
        gather_row(target, y, region.columns, image, columns, row);
    }
}

/// Draws a region from the texels of some columns of a texture, each multiplied by a colour, both images
/// at 8 bits a component in `Rgba8888`.
fn draw_scaled(
    target: &mut Image,
    region: Region,
    image: &Image,
    columns: &[u32],
    rows: Axis,
    by: Pixel,
)
    requires owned { target.old.owned ≡ true }
    requires format { (target.old.format ≡ Rgba8888) × (image.now.format ≡ Rgba8888) }
    requires region { IsRegionIn region target.old.width target.old.height }
    requires long { length columns.now ≡ region.columns.end - region.columns.start }
    requires columns { (k : ℕ) → k < length columns.now → slice_index_or columns.now k 0 < image.now.width }
    requires rows { (IsAxis rows) × (rows.side ≡ image.now.height) }
    ensures region { target.new ≡ painted target.old (in_region region) (λ x y. scaled by (pixel_at image.now (slice_index_or columns.now (x - region.columns.start) 0) (texels.texel_at rows y))) every }
    ensures still { IsWritable target.old target.new }
{
    let (_width, _height) = (target.width(), target.height());
    'rows: for y in region.rows.start..region.rows.end {
        let row = texel_at(rows, y);
        gather_scaled_row(target, y, region.columns, image, columns, row, by);
    }
}

/// Draws a region from the texels of some columns of a texture: as a copy of bytes, where a pixel that
/// is written is its texel's, by products of bytes, or else by the fragments.
fn draw_columns(
    target: &mut Image,
    region: Region,
    image: &Image,
    columns: &[u32],
    rows: Axis,
    environment: Environment,
    mask: Mask,
)
    requires owned { target.old.owned ≡ true }
    requires base { environment.base ≡ base_of image.now.format }
    requires region { IsRegionIn region target.old.width target.old.height }
    requires long { length columns.now ≡ region.columns.end - region.columns.start }
    requires columns { (k : ℕ) → k < length columns.now → slice_index_or columns.now k 0 < image.now.width }
    requires rows { (IsAxis rows) × (rows.side ≡ image.now.height) }
    ensures region { target.new ≡ painted target.old (in_region region) (λ x y. fragment_of environment (pixel_at image.now (slice_index_or columns.now (x - region.columns.start) 0) (texels.texel_at rows y))) mask }
    ensures still { IsWritable target.old target.new }
{
    let same = image.format() == target.format();
    if same && environment.keeps_texels() && is_all(mask) {
        draw_texels(target, region, image, columns, rows);
    } else if same && scales(image.format(), environment) && is_all(mask) {
        draw_scaled(target, region, image, columns, rows, environment.colour);
    } else {
        draw_combined(target, region, image, columns, rows, environment, mask);
    }
}

/// Draws a region from the texels of a texture that its columns and rows show.
fn draw_region(
    target: &mut Image,
    region: Region,
    image: &Image,
    columns: Axis,
    rows: Axis,
    environment: Environment,
    mask: Mask,
)
    requires owned { target.old.owned ≡ true }
    requires base { environment.base ≡ base_of image.now.format }
    requires region { IsRegionIn region target.old.width target.old.height }
    requires columns { (IsAxis columns) × (columns.side ≡ image.now.width) }
    requires rows { (IsAxis rows) × (rows.side ≡ image.now.height) }
    ensures region { target.new ≡ painted target.old (in_region region) (λ x y. fragment_of environment (pixel_at image.now (texels.texel_at columns x) (texels.texel_at rows y))) mask }
    ensures still { IsWritable target.old target.new }
{
    let (_width, _height) = (target.width(), target.height());
    let list = texels::<MOST_COLUMNS>(columns, region.columns);
    let shown = &list[..region.columns.end - region.columns.start];
    draw_columns(target, region, image, shown, rows, environment, mask);
}

/// Draws a region in the colour of a context.
pub(crate) fn draw_plain(
    target: &mut Image,
    part: &ContextPart,
    region: Region,
) -> Result<(), NoMemory>
    requires { IsRegionIn region target.old.width target.old.height }
    ensures ok { OnOk result (target.new ≡ painted target.old (in_region region) (λ _ _. colour_at_8 part.now.color) (targets.mask_of part.now.mask)) }
    ensures shape { IsSameShape target.old target.new }
    ensures whole { IsImage target.new }
    ensures err { OnErr result (target.new ≡ target.old) }
    ensures room { target.old.owned ≡ true → IsOk result }
{
    let colour = colour_in(Format::Rgba8888, part.color());
    fill(target, region, colour, mask_of(part))
}

/// Draws a region from a texture, by the texture environment of a context.
pub(crate) fn draw_textured(
    target: &mut Image,
    part: &ContextPart,
    region: Region,
    image: &Image,
    columns: Axis,
    rows: Axis,
) -> Result<(), NoMemory>
    requires region { IsRegionIn region target.old.width target.old.height }
    requires columns { (IsAxis columns) × (columns.side ≡ image.now.width) }
    requires rows { (IsAxis rows) × (rows.side ≡ image.now.height) }
    ensures ok { OnOk result (target.new ≡ painted target.old (in_region region) (λ x y. fragment_of (environment_of part.now image.now) (pixel_at image.now (texels.texel_at columns x) (texels.texel_at rows y))) (targets.mask_of part.now.mask)) }
    ensures shape { IsSameShape target.old target.new }
    ensures whole { IsImage target.new }
    ensures err { OnErr result (target.new ≡ target.old) }
    ensures room { target.old.owned ≡ true → IsOk result }
{
    let environment = Environment {
        replaces: part.replaces(),
        base: base_of(image.format()),
        colour: colour_in(Format::Rgba8888, part.color()),
    };
    own(target)?;
    draw_region(
        target,
        region,
        image,
        columns,
        rows,
        environment,
        mask_of(part),
    );
    Ok(())
}
