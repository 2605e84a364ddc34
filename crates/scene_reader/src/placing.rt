//! Which items may stand behind others.
ghost use Rattle.std.specs.Prelude.{◌≡◌, Some};
ghost use Rattle.std.specs.Option.{option_map};
ghost use Rattle.scene_reader.specs.Items as values;

use crate::items::{Atlas, ClipBox, Item, Part, ScaledPart, TiledPart};

/// The last id of an atlas, of which the first is 1.
const LAST_ID: u32 = 64;

/// The first and the last column or row of a scene in which something may begin.
const FIRST_PLACE: i64 = -65_536;

const LAST_PLACE: i64 = 65_535;

/// How often, or how large in pixels, something may be drawn in a direction.
const MOST_EXTENT: u32 = 1_024;

/// The longest side of a clip, in pixels.
const LONGEST_CLIP: u32 = 65_535;

/// The atlas with an id.
pub fn atlas_with(items: &[Item], id: u32) -> Option<&Atlas>
    ensures { option_map (λ a. a.now) result ≡ values.atlas_with items.now id }
{
    'each: for item in items {
        if let Item::Atlas(atlas) = item {
            if atlas.id == id {
                return Some(atlas);
            }
        }
    }
    None
}

fn is_texture_side(n: u32) -> bool
    ensures { result ≡ values.is_texture_side n }
{
    n == 1
        || n == 2
        || n == 4
        || n == 8
        || n == 16
        || n == 32
        || n == 64
        || n == 128
        || n == 256
        || n == 512
        || n == 1_024
}

fn is_place(z: i64) -> bool
    ensures { result ≡ values.is_place z }
{
    FIRST_PLACE <= z && z <= LAST_PLACE
}

fn is_extent(n: u32) -> bool
    ensures { result ≡ values.is_extent n }
{
    1 <= n && n <= MOST_EXTENT
}

/// Whether an atlas may have this id, which no atlas before has, and these sides.
pub fn is_new_atlas(before: &[Item], id: u32, width: u32, height: u32) -> bool
    ensures { result ≡ values.is_new_atlas before.now id width height }
{
    1 <= id
        && id <= LAST_ID
        && atlas_with(before, id).is_none()
        && is_texture_side(width)
        && is_texture_side(height)
}

/// Whether a part lies inside an atlas.
fn lies_inside(atlas: &Atlas, part: Part) -> bool
    ensures { result ≡ values.lies_inside (Some atlas.now) part }
{
    let right = u64::from(part.u) + u64::from(part.width);
    let top = u64::from(part.v) + u64::from(part.height);
    1 <= part.width
        && 1 <= part.height
        && right <= u64::from(atlas.width)
        && top <= u64::from(atlas.height)
}

fn is_part(before: &[Item], part: Part) -> bool
    ensures { result ≡ values.is_part before.now part }
{
    match atlas_with(before, part.atlas) {
        Some(atlas) => lies_inside(atlas, part),
        None => false,
    }
}

pub fn is_scaled(before: &[Item], scaled: ScaledPart) -> bool
    ensures { result ≡ values.is_scaled before.now scaled }
{
    is_part(before, scaled.part)
        && is_place(scaled.x)
        && is_place(scaled.y)
        && is_extent(scaled.width)
        && is_extent(scaled.height)
}

pub fn is_tiled(before: &[Item], tiled: TiledPart) -> bool
    ensures { result ≡ values.is_tiled before.now tiled }
{
    is_part(before, tiled.part)
        && is_place(tiled.x)
        && is_place(tiled.y)
        && is_extent(tiled.columns)
        && is_extent(tiled.rows)
}

pub fn is_clip(clip: ClipBox) -> bool
    ensures { result ≡ values.is_clip clip }
{
    is_place(clip.x)
        && is_place(clip.y)
        && clip.width <= LONGEST_CLIP
        && clip.height <= LONGEST_CLIP
}
