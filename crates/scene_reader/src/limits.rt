//! How much of what is limited the items of a scene take.
ghost use Rattle.std.specs.Prelude.{◌≡◌, ◌*◌, ◌^◌, ◌<◌, ◌≤◌};
ghost use Rattle.scene_reader.specs.Items as values;

use crate::items::Item;
use egl_calls::limits::LONGEST_TEXTURE_SIDE;

/// The least power of two that isn't below a number up to 1,024: a side of the texture on which a smooth part that large is made. Above, it is 1,024.
#[tactic(auto, using(crate::proofs::PowerLaws::least_is))]
pub fn least_power(n: u32) -> u32
    ensures { result ≡ values.least_power n }
{
    n.min(LONGEST_TEXTURE_SIDE as u32).next_power_of_two()
}

fn product(a: u32, b: u32) -> u128
    ensures value { result ≡ a * b }
    ensures few { result < 2 ^ 64 }
{
    u128::from(a) * u128::from(b)
}

/// How many bytes the texels of a texture have.
#[tactic(auto, using(crate::proofs::TexelLaws::few_texels))]
pub fn texel_bytes(width: u32, height: u32) -> u128
    ensures value { result ≡ values.texel_bytes width height }
    ensures few { width ≤ 1024 → height ≤ 1024 → result ≤ 4194304 }
    ensures small { result < 2 ^ 66 }
{
    4 * product(width, height)
}

/// How many draws an item makes.
pub fn draws(item: &Item) -> u128
    ensures value { result ≡ values.draws item.now }
    ensures small { result < 2 ^ 66 }
{
    match item {
        Item::Sprite(_) | Item::Smooth(_) => 1,
        Item::Tile(tiled) => product(tiled.columns, tiled.rows),
        Item::Atlas(_) | Item::Clip(_) | Item::NoClip => 0,
    }
}

/// How many bytes the texture of an item has: an atlas's, or the one on which a smooth part is made.
pub fn texture_bytes(item: &Item) -> u128
    ensures value { result ≡ values.texture_bytes item.now }
    ensures small { result < 2 ^ 66 }
{
    match item {
        Item::Atlas(atlas) => texel_bytes(atlas.width, atlas.height),
        Item::Smooth(scaled) => texel_bytes(least_power(scaled.width), least_power(scaled.height)),
        Item::Sprite(_) | Item::Tile(_) | Item::Clip(_) | Item::NoClip => 0,
    }
}
