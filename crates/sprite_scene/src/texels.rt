//! Texels of atlases, and the textures of smooth parts.
ghost use Rattle.std.specs.Prelude.{◌≡◌, ◌≤◌, ◌<◌, ◌+◌, ◌*◌, ◌++◌, IfOk, OnOk, Some, slice_index};
ghost use Rattle.sprite_scene.specs.Calls as calls;
ghost use Rattle.sprite_scene.specs.Painted.{painted_row};
ghost use Rattle.sprite_scene.specs.Parts.{IsDrawnPart};
ghost use Rattle.sprite_scene.specs.Samples as values;

use crate::mixing::{Taps, mixed, taps_at};
use egl_calls::{Bytes, NoMemory};
use pixel_formats::Pixel;
use scene_reader::{Atlas, ScaledPart, least_power};
use std::alloc::Global;

const NO_PIXEL: Pixel = Pixel {
    r: 0,
    g: 0,
    b: 0,
    a: 0,
};

/// The byte at a place, and 0 past the end.
fn byte_at(bytes: &[u8], k: usize) -> u8
    ensures { result ≡ slice_index bytes.now k }
{
    if k < bytes.len() { bytes[k] } else { 0 }
}

/// The texel in a column and a row of an atlas.
#[tactic(auto, using(crate::proofs::Products::area_small))]
fn texel(atlas: &Atlas, u: u32, v: u32) -> Pixel
    requires column { u < 1024 }
    requires row { v < 1024 }
    requires wide { atlas.now.width ≤ 1024 }
    ensures { result ≡ values.texel (Some atlas.now) u v }
{
    let bytes = atlas.texels.bytes().as_slice();
    let at = 4 * (v as usize * atlas.width as usize + u as usize);
    Pixel {
        r: byte_at(bytes, at),
        g: byte_at(bytes, at + 1),
        b: byte_at(bytes, at + 2),
        a: byte_at(bytes, at + 3),
    }
}

/// The pixel between two columns and two rows of texels.
fn blended(atlas: &Atlas, drawn: &ScaledPart, columns: Taps, rows: Taps) -> Pixel
    requires part { IsDrawnPart atlas.now drawn.now }
    requires first_column { columns.first < 1024 }
    requires second_column { columns.second < 1024 }
    requires first_row { rows.first < 1024 }
    requires second_row { rows.second < 1024 }
    requires column_weight { columns.weight ≤ 2 * drawn.now.width }
    requires row_weight { rows.weight ≤ 2 * drawn.now.height }
    ensures { result ≡ values.blended drawn.now (Some atlas.now) columns rows }
{
    mixed(
        drawn.width,
        drawn.height,
        columns.weight,
        rows.weight,
        texel(atlas, columns.first, rows.first),
        texel(atlas, columns.second, rows.first),
        texel(atlas, columns.first, rows.second),
        texel(atlas, columns.second, rows.second),
    )
}

/// The pixel in column `i` and row `j` of a smooth part.
#[tactic(auto, unfolding(crate::specs::Samples::smooth_at))]
fn smooth_at(atlas: &Atlas, drawn: &ScaledPart, i: u32, j: u32) -> Pixel
    requires part { IsDrawnPart atlas.now drawn.now }
    requires column { i < drawn.now.width }
    requires row { j < drawn.now.height }
    ensures { result ≡ values.smooth_at (Some atlas.now) drawn.now i j }
{
    let part = &drawn.part;
    let columns = taps_at(part.u, part.width, drawn.width, i);
    let rows = taps_at(part.v, part.height, drawn.height, j);
    blended(atlas, drawn, columns, rows)
}

/// The texel in a column and a row of a smooth part's texture.
fn smooth_texel(atlas: &Atlas, drawn: &ScaledPart, i: u32, j: u32) -> Pixel
    requires part { IsDrawnPart atlas.now drawn.now }
    ensures { result ≡ calls.smooth_texel (Some atlas.now) drawn.now i j }
{
    if i < drawn.width && j < drawn.height {
        smooth_at(atlas, drawn, i, j)
    } else {
        NO_PIXEL
    }
}

/// A row of a smooth part's texture.
#[tactic(auto, using(crate::proofs::TexelLaws::piece_more, crate::proofs::TexelLaws::no_piece))]
fn push_row(
    out: &mut Bytes,
    atlas: &Atlas,
    drawn: &ScaledPart,
    wide: u32,
    j: u32,
) -> Result<(), NoMemory>
    requires part { IsDrawnPart atlas.now drawn.now }
    ensures { OnOk result (out.new ≡ out.old ++ painted_row (calls.smooth_texel (Some atlas.now) drawn.now) wide j) }
{
    'columns: for i in 0..wide {
        let pixel = smooth_texel(atlas, drawn, i, j);
        out.extend(&[pixel.r, pixel.g, pixel.b, pixel.a])?;
    }
    Ok(())
}

/// The bytes of a smooth part's texture.
#[tactic(auto, using(crate::proofs::TexelLaws::rows_more, crate::proofs::TexelLaws::rows_are))]
pub(crate) fn smooth_texels(
    alloc: Global,
    atlas: &Atlas,
    drawn: &ScaledPart,
) -> Result<Bytes, NoMemory>
    requires part { IsDrawnPart atlas.now drawn.now }
    ensures { IfOk result (λ b. b ≡ calls.smooth_texels (Some atlas.now) drawn.now) }
{
    let wide = least_power(drawn.width);
    let mut out = Bytes::new(alloc);
    'rows: for j in 0..least_power(drawn.height) {
        push_row(&mut out, atlas, drawn, wide, j)?;
    }
    Ok(out)
}
