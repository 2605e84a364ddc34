//! The storage formats and their table.

ghost use Rattle.std.specs.Prelude.{◌≡◌, ◌≤◌};
ghost use Rattle.pixel_formats.specs.Formats as table;
ghost use Rattle.pixel_formats.specs.Bounds.{IsWithinFour};

/// How stored pixels are packed.
#[derive(Clone, Copy, Debug, PartialEq, Eq, Drop)]
pub enum Format {
    Rgb565,
    Rgb888,
    Rgba8888,
    Rgba4444,
    Rgba5551,
    A8,
    L8,
    La88,
}

/// Which components a format has: the base internal formats of OpenGL ES 1.1, "Texture Image
/// Specification".
#[derive(Clone, Copy, Debug, PartialEq, Eq, Drop)]
pub enum Base {
    Rgb,
    Rgba,
    Alpha,
    Luminance,
    LuminanceAlpha,
}

/// Where a component stands in a packed pixel, read as a number whose low byte comes first:
/// `bits` bits from bit `low` upward. Of a component that is not kept `bits` is 0.
#[derive(Clone, Copy, Debug, PartialEq, Eq, Drop)]
pub struct Place {
    pub low: u32,
    pub bits: u32,
}

/// A row of the table of formats: the base format, the bytes of a pixel, and the places of red,
/// green, blue and alpha. A luminance stands where red does.
#[derive(Clone, Copy, Debug, PartialEq, Eq, Drop)]
pub struct Layout {
    pub base: Base,
    pub bytes: u32,
    pub r: Place,
    pub g: Place,
    pub b: Place,
    pub a: Place,
}

const ABSENT: Place = Place { low: 0, bits: 0 };

#[inline(always)]
fn at(low: u32, bits: u32) -> Place
    ensures { result ≡ table.at low bits }
{
    Place { low, bits }
}

#[inline(always)]
fn row(base: Base, bytes: u32, r: Place, g: Place, b: Place, a: Place) -> Layout
    ensures { result ≡ table.row base bytes r g b a }
{
    Layout {
        base,
        bytes,
        r,
        g,
        b,
        a,
    }
}

/// The table of formats. Packed shorts have red in their highest bits, and the other formats hold a
/// byte for each component, in the order red or luminance, green, blue, alpha.
#[inline(always)]
pub fn layout_of(f: Format) -> Layout
    ensures value { result ≡ table.layout_of f }
    ensures within { IsWithinFour result }
{
    match f {
        Format::Rgb565 => row(Base::Rgb, 2, at(11, 5), at(5, 6), at(0, 5), ABSENT),
        Format::Rgb888 => row(Base::Rgb, 3, at(0, 8), at(8, 8), at(16, 8), ABSENT),
        Format::Rgba8888 => row(Base::Rgba, 4, at(0, 8), at(8, 8), at(16, 8), at(24, 8)),
        Format::Rgba4444 => row(Base::Rgba, 2, at(12, 4), at(8, 4), at(4, 4), at(0, 4)),
        Format::Rgba5551 => row(Base::Rgba, 2, at(11, 5), at(6, 5), at(1, 5), at(0, 1)),
        Format::A8 => row(Base::Alpha, 1, ABSENT, ABSENT, ABSENT, at(0, 8)),
        Format::L8 => row(Base::Luminance, 1, at(0, 8), ABSENT, ABSENT, ABSENT),
        Format::La88 => row(Base::LuminanceAlpha, 2, at(0, 8), ABSENT, ABSENT, at(8, 8)),
    }
}

/// How many bytes a pixel of the format takes.
pub fn bytes_of(f: Format) -> u32
    ensures bytes { result ≡ table.bytes_of f }
    ensures within { (1 ≤ result) × (result ≤ 4) }
{
    layout_of(f).bytes
}

/// The base format of a storage format.
pub fn base_of(f: Format) -> Base
    ensures { result ≡ table.base_of f }
{
    layout_of(f).base
}

impl Base {
    /// Whether one luminance stands for red, green and blue.
    #[inline(always)]
    pub fn is_luminance(self) -> bool
        ensures { result ≡ table.is_luminance self }
    {
        matches!(self, Base::Luminance | Base::LuminanceAlpha)
    }
}
