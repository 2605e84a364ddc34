//! Pixels packed, read and rounded to a format.

ghost use Rattle.std.specs.Prelude.{◌≡◌, ◌≤◌, ◌<◌, ◌^◌, ◌*◌};
ghost use Rattle.std.specs.Int as ints;
ghost use Rattle.pixel_formats.specs.Bounds.{Fits, IsBytePlace, IsWithinFour};
ghost use Rattle.pixel_formats.specs.Components as numbers;
ghost use Rattle.pixel_formats.specs.Pixels as values;

use crate::components::{clear_value, narrow, widen};
use crate::formats::{Format, Layout, Place, layout_of};

/// Red, green, blue and alpha of 8 bits each, 255 being the most.
#[derive(Clone, Copy, Debug, PartialEq, Eq, Drop)]
pub struct Pixel {
    pub r: u8,
    pub g: u8,
    pub b: u8,
    pub a: u8,
}

/// The components of a stored pixel, each in the bits of its format; one that is not kept is 0.
#[derive(Clone, Copy, Drop)]
pub(crate) struct Components {
    pub(crate) r: u32,
    pub(crate) g: u32,
    pub(crate) b: u32,
    pub(crate) a: u32,
}

#[inline(always)]
fn narrowed(t: Layout, p: Pixel) -> Components
    requires { IsWithinFour t }
    ensures value { result ≡ values.narrowed t p }
    ensures fits { Fits t result }
{
    Components {
        r: narrow(p.r, t.r.bits),
        g: narrow(p.g, t.g.bits),
        b: narrow(p.b, t.b.bits),
        a: narrow(p.a, t.a.bits),
    }
}

/// A clear value of no bits is 0.
fn cleared_component(c: i64, bits: u32) -> u32
    requires { bits ≤ 8 }
    ensures value { result ≡ numbers.clear_value c bits }
    ensures fits { result < 2 ^ bits }
{
    if bits == 0 { 0 } else { clear_value(c, bits) }
}

fn cleared(t: Layout, r: i64, g: i64, b: i64, a: i64) -> Components
    requires { IsWithinFour t }
    ensures value { result ≡ values.cleared t r g b a }
    ensures fits { Fits t result }
{
    Components {
        r: cleared_component(r, t.r.bits),
        g: cleared_component(g, t.g.bits),
        b: cleared_component(b, t.b.bits),
        a: cleared_component(a, t.a.bits),
    }
}

/// What the component `c` adds to the packed number.
#[inline(always)]
fn part(c: u32, at: Place) -> u64
    requires place { IsBytePlace at }
    requires within { c < 2 ^ at.bits }
    ensures value { result ≡ c * 2 ^ at.low }
    ensures small { result < 2 ^ 32 }
{
    (c as u64) << at.low
}

#[inline(always)]
fn number(t: Layout, c: Components) -> u64
    requires table { IsWithinFour t }
    requires within { Fits t c }
    ensures { result ≡ values.number t c }
{
    part(c.r, t.r) + part(c.g, t.g) + part(c.b, t.b) + part(c.a, t.a)
}

#[inline(always)]
fn field(n: u32, at: Place) -> u32
    requires { IsBytePlace at }
    ensures value { result ≡ values.field n at }
    ensures fits { result < 2 ^ at.bits }
{
    (n >> at.low) % (1 << at.bits)
}

#[inline(always)]
fn fields(t: Layout, n: u32) -> Components
    requires { IsWithinFour t }
    ensures value { result ≡ values.fields t n }
    ensures fits { Fits t result }
{
    Components {
        r: field(n, t.r),
        g: field(n, t.g),
        b: field(n, t.b),
        a: field(n, t.a),
    }
}

#[inline(always)]
fn component(at: Place, missing: u8, c: u32) -> u8
    requires place { IsBytePlace at }
    requires within { c < 2 ^ at.bits }
    ensures { result ≡ values.component at missing c }
{
    if at.bits == 0 {
        missing
    } else {
        widen(c, at.bits, 8) as u8
    }
}

#[inline(always)]
fn reading(t: Layout, c: Components) -> Pixel
    requires table { IsWithinFour t }
    requires within { Fits t c }
    ensures { result ≡ values.reading t c }
{
    let r = component(t.r, 0, c.r);
    let luminance = t.base.is_luminance();
    Pixel {
        r,
        g: if luminance { r } else { component(t.g, 0, c.g) },
        b: if luminance { r } else { component(t.b, 0, c.b) },
        a: component(t.a, 255, c.a),
    }
}

/// Reads a packed pixel by a row of the table of formats.
#[inline(always)]
fn unpack_in(t: Layout, bytes: [u8; 4]) -> Pixel
    requires { IsWithinFour t }
    ensures { result ≡ values.reading t (values.fields t (ints.from_le_bytes ints.w32 bytes)) }
{
    reading(t, fields(t, u32::from_le_bytes(bytes)))
}

/// Reads a packed pixel. Bytes past the format's own are not looked at
/// (OpenGL ES 1.1, "Unpacking").
///
/// An arm for each format makes its row of the table known there, so that what is divided by are
/// constants.
#[inline(always)]
#[tactic(auto, unfolding(crate::specs::Pixels::unpack))]
pub fn unpack(f: Format, bytes: [u8; 4]) -> Pixel
    ensures { result ≡ values.unpack f bytes }
{
    match f {
        Format::Rgb565 => unpack_in(layout_of(Format::Rgb565), bytes),
        Format::Rgb888 => unpack_in(layout_of(Format::Rgb888), bytes),
        Format::Rgba8888 => unpack_in(layout_of(Format::Rgba8888), bytes),
        Format::Rgba4444 => unpack_in(layout_of(Format::Rgba4444), bytes),
        Format::Rgba5551 => unpack_in(layout_of(Format::Rgba5551), bytes),
        Format::A8 => unpack_in(layout_of(Format::A8), bytes),
        Format::L8 => unpack_in(layout_of(Format::L8), bytes),
        Format::La88 => unpack_in(layout_of(Format::La88), bytes),
    }
}

/// Packs a pixel by a row of the table of formats, so that a caller with many pixels looks it up once.
#[inline(always)]
#[tactic(auto, unfolding(crate::specs::Pixels::pack_in))]
pub fn pack_in(t: Layout, p: Pixel) -> [u8; 4]
    requires { IsWithinFour t }
    ensures { result ≡ values.pack_in t p }
{
    let n = number(t, narrowed(t, p));
    ((n % 4_294_967_296) as u32).to_le_bytes()
}

/// Packs a pixel, the low byte first. Bytes that the format does not use are 0
/// (OpenGL ES 1.1, "Reading Pixels"). It has an arm for each format, as `unpack` has.
#[inline(always)]
#[tactic(auto, unfolding(crate::specs::Pixels::pack))]
pub fn pack(f: Format, p: Pixel) -> [u8; 4]
    ensures { result ≡ values.pack f p }
{
    match f {
        Format::Rgb565 => pack_in(layout_of(Format::Rgb565), p),
        Format::Rgb888 => pack_in(layout_of(Format::Rgb888), p),
        Format::Rgba8888 => pack_in(layout_of(Format::Rgba8888), p),
        Format::Rgba4444 => pack_in(layout_of(Format::Rgba4444), p),
        Format::Rgba5551 => pack_in(layout_of(Format::Rgba5551), p),
        Format::A8 => pack_in(layout_of(Format::A8), p),
        Format::L8 => pack_in(layout_of(Format::L8), p),
        Format::La88 => pack_in(layout_of(Format::La88), p),
    }
}

/// What `p` reads as once it was stored in the format: each kept component rounded to its bits.
#[tactic(auto, unfolding(crate::specs::Pixels::quantize))]
pub fn quantize(f: Format, p: Pixel) -> Pixel
    ensures { result ≡ values.quantize f p }
{
    let t = layout_of(f);
    reading(t, narrowed(t, p))
}

/// What a pixel reads as once it was cleared to the 16.16 fixed-point colour, each component
/// converted directly to the format's bits (OpenGL ES 1.1, "Clearing the Buffers").
#[tactic(auto, unfolding(crate::specs::Pixels::clear_pixel))]
pub fn clear_pixel(f: Format, r: i64, g: i64, b: i64, a: i64) -> Pixel
    ensures { result ≡ values.clear_pixel f r g b a }
{
    let t = layout_of(f);
    reading(t, cleared(t, r, g, b, a))
}
