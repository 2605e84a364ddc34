//! What the conditions of the calls on names and on textures ask (OpenGL ES 1.1, sections 3.7.1, 3.7.2 and 3.7.11).
ghost use Rattle.std.specs.Prelude.{◌≡◌};
ghost use Rattle.call_rules.specs.TextureRules.{is_image_format, is_image_type, is_no_count, is_no_level, is_no_level_side, is_no_part, is_outside_side, is_power, longest_side};

use crate::egl_rules::exceeds;
use egl_calls::limits::LONGEST_TEXTURE_SIDE;
use egl_calls::unsigned;
use egl_names::codes::{
    GL_ALPHA, GL_LUMINANCE, GL_LUMINANCE_ALPHA, GL_RGB, GL_RGBA, GL_UNSIGNED_BYTE,
    GL_UNSIGNED_SHORT_4_4_4_4, GL_UNSIGNED_SHORT_5_5_5_1, GL_UNSIGNED_SHORT_5_6_5,
};

/// How many names one call gives, at most.
const MOST_NAMES: i64 = 256;

/// The last level of a texture.
const LAST_LEVEL: u64 = 10;

pub(crate) fn is_no_count(n: i64) -> bool
    ensures { result ≡ is_no_count n }
{
    n < 0 || n > MOST_NAMES
}

pub(crate) fn is_image_format(format: u64) -> bool
    ensures { result ≡ is_image_format format }
{
    format == GL_RGB
        || format == GL_RGBA
        || format == GL_ALPHA
        || format == GL_LUMINANCE
        || format == GL_LUMINANCE_ALPHA
}

pub(crate) fn is_image_type(kind: u64) -> bool
    ensures { result ≡ is_image_type kind }
{
    kind == GL_UNSIGNED_BYTE
        || kind == GL_UNSIGNED_SHORT_5_6_5
        || kind == GL_UNSIGNED_SHORT_4_4_4_4
        || kind == GL_UNSIGNED_SHORT_5_5_5_1
}

pub(crate) fn is_no_level(level: i64) -> bool
    ensures { result ≡ is_no_level level }
{
    level < 0 || level > 10
}

fn longest_side(level: u64) -> u64
    ensures { result ≡ longest_side level }
{
    if level > LAST_LEVEL {
        0
    } else {
        LONGEST_TEXTURE_SIDE >> level
    }
}

fn is_power(n: u64) -> bool
    ensures { result ≡ is_power n }
{
    n == 0
        || n == 1
        || n == 2
        || n == 4
        || n == 8
        || n == 16
        || n == 32
        || n == 64
        || n == 128
        || n == 256
        || n == 512
        || n == 1_024
}

pub(crate) fn is_no_level_side(level: u64, side: i64) -> bool
    ensures { result ≡ is_no_level_side level side }
{
    side < 0 || unsigned(side) > longest_side(level) || !is_power(unsigned(side))
}

fn is_no_part(side: u64, first: i64, size: i64) -> bool
    ensures { result ≡ is_no_part side first size }
{
    first < 0 || size < 0 || exceeds(side, unsigned(first), unsigned(size))
}

/// Whether it is no part of a level's either, where the level is there; none has a negative side.
pub(crate) fn is_outside_side(is_stored: bool, side: u64, first: i64, size: i64) -> bool
    ensures { result ≡ is_outside_side is_stored side first size }
{
    size < 0 || is_no_part(side, first, size) && is_stored
}
