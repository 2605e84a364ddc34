//! The levels of a texture.
ghost use Rattle.std.specs.Prelude.{◌≡◌, ◌<◌, ◌≤◌, true, IsSome};
ghost use Rattle.texture_objects.specs.Greatest.{greatest};
ghost use Rattle.texture_objects.specs.Levels as values;

use crate::parameters::{MinFilter, uses_mipmaps};
use pixel_formats::Format;

/// How many levels a texture has: from 0, the largest, to 10.
pub const LEVELS: usize = 11;

/// 1 in 16.16 fixed point.
const ONE: u128 = 65_536;

/// What the storage of a level is like: the format of its pixels, and its sides in pixels.
#[derive(Clone, Copy, Debug, PartialEq, Eq, Drop)]
pub struct Shape {
    pub format: Format,
    pub w: u32,
    pub h: u32,
}

/// A width and a height.
#[derive(Clone, Copy, Drop)]
pub(crate) struct Sides {
    pub(crate) w: u64,
    pub(crate) h: u64,
}

/// The storage of a level, where it has one.
fn level_at(levels: &[Option<Shape>; LEVELS], k: u32) -> Option<Shape>
    ensures { result ≡ values.level_at levels.now k }
{
    let place = k as usize;
    if place < LEVELS { levels[place] } else { None }
}

fn is_same_format(f: Format, g: Format) -> bool
    ensures { result ≡ values.is_same_format f g }
{
    f == g
}

/// Whether a level has the storage of a shape.
fn is_stored(stored: Option<Shape>, wanted: Shape) -> bool
    ensures { result ≡ values.is_stored stored wanted }
{
    match stored {
        Some(shape) => {
            is_same_format(shape.format, wanted.format)
                && shape.w == wanted.w
                && shape.h == wanted.h
        }
        None => false,
    }
}

/// The floor of the logarithm to base 2 of a side, and 0 for a side of 0.
fn log_of(side: u32) -> u32
    ensures value { result ≡ values.log_of side }
    ensures within { result ≤ 31 }
{
    side.checked_ilog2().unwrap_or(0)
}

/// The last level of the mipmaps below a level 0.
fn last_level(base: Shape) -> u32
    ensures value { result ≡ values.last_level base }
    ensures within { result ≤ 31 }
{
    log_of(base.w.max(base.h))
}

/// A side of level `k`.
fn halved(side: u32, k: u32) -> u32
    requires { k ≤ 31 }
    ensures { result ≡ values.halved side k }
{
    (side >> k).max(1)
}

/// The storage that level `k` wants.
fn mipmap_of(base: Shape, k: u32) -> Shape
    requires { k ≤ 31 }
    ensures { result ≡ values.mipmap_of base k }
{
    Shape {
        format: base.format,
        w: halved(base.w, k),
        h: halved(base.h, k),
    }
}

/// Whether each level from 1 to the last has the storage that it wants.
fn has_mipmaps(levels: &[Option<Shape>; LEVELS], base: Shape) -> bool
    ensures { result ≡ values.has_mipmaps levels.now base }
{
    let last = last_level(base);
    'levels: for k in 1..last + 1 {
        if !is_stored(level_at(levels, k), mipmap_of(base, k)) {
            return false;
        }
    }
    true
}

/// Whether the levels are complete for a minifying filter.
pub(crate) fn is_complete(filter: MinFilter, levels: &[Option<Shape>; LEVELS]) -> bool
    ensures { result ≡ values.is_complete_over filter levels.now (values.level_at levels.now 0) }
{
    match levels[0] {
        Some(base) => !uses_mipmaps(filter) || has_mipmaps(levels, base),
        None => false,
    }
}

/// Whether so many texels of level 0, in level `k`, are no fewer than the pixels of a draw, which is in 16.16 fixed point.
fn is_enough(texels: u64, drawn: u64, k: u32) -> bool
    requires { k ≤ 31 }
    ensures { result ≡ values.is_enough texels drawn k }
{
    u128::from(drawn) << k <= u128::from(texels) * ONE
}

/// The same of the texels that are cut out, by their width or by their height.
fn are_enough(cut: Sides, drawn: Sides, k: u32) -> bool
    requires { k ≤ 31 }
    ensures { result ≡ values.are_enough cut drawn k }
{
    is_enough(cut.w, drawn.w, k) || is_enough(cut.h, drawn.h, k)
}

/// The greatest level up to `last` with enough texels, and 0 where there is none.
fn greatest_level(cut: Sides, drawn: Sides, last: u32) -> u32
    requires { last ≤ 31 }
    ensures { result ≡ greatest (values.are_enough cut drawn) last }
{
    let mut level = 0;
    'levels: for k in 1..last + 1 {
        if are_enough(cut, drawn, k) {
            level = k;
        }
    }
    level
}

/// The level that a draw samples, of levels that are complete.
pub(crate) fn sampled_level(
    filter: MinFilter,
    levels: &[Option<Shape>; LEVELS],
    cut: Sides,
    drawn: Sides,
) -> u32
    requires { values.is_complete_over filter levels.now (values.level_at levels.now 0) ≡ true }
    ensures value { result ≡ values.level_over filter (values.level_at levels.now 0) cut drawn }
    ensures stored { IsSome (values.level_at levels.now result) }
    ensures within { result < 11 }
{
    let Some(base) = levels[0] else {
        return 0;
    };
    if !uses_mipmaps(filter) {
        return 0;
    }
    greatest_level(cut, drawn, last_level(base))
}
