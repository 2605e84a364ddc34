//! What a draw writes: the colour, or its combination with a texel (OpenGL ES 1.1, section 3.7.12).

ghost use Rattle.std.specs.Prelude.{◌≡◌, ℕ, ◌<◌, true, length, slice_index_or};
ghost use Rattle.pixel_formats.specs.Formats as formats;
ghost use Rattle.pixel_formats.specs.Pixels.{quantize};
ghost use Rattle.pixel_formats.specs.declared.formats.Format.TheVariants.{Rgba8888};
ghost use Rattle.pixel_rows.specs.Cells.{seen};
ghost use Rattle.pixel_rows.specs.Images.{no_pixel};
ghost use Rattle.rect_pipeline.specs.Drawing.{fragment_of};
ghost use Rattle.rect_pipeline.specs.Fragments as fragments;

use pixel_formats::{Base, Format, Pixel, clear_pixel};
use pixel_rows::{Mask, scale_row, set_row};

/// A colour in 16.16 fixed point as what it reads as in a format.
pub(crate) fn colour_in(f: Format, colour: [i64; 4]) -> Pixel
    ensures { result ≡ fragments.colour_in f colour }
{
    clear_pixel(f, colour[0], colour[1], colour[2], colour[3])
}

/// What a texture with no alpha leaves to the colour.
const ALPHA: Mask = Mask {
    r: false,
    g: false,
    b: false,
    a: true,
};

/// What a texture of alpha alone leaves to the colour.
const COLOURS: Mask = Mask {
    r: true,
    g: true,
    b: true,
    a: false,
};

/// Whether a colour is white, so that a texel times it is the texel.
fn is_white(p: Pixel) -> bool
    ensures { result ≡ true → p ≡ fragments.white }
{
    p.r == 255 && p.g == 255 && p.b == 255 && p.a == 255
}

/// How a texel becomes a fragment: by the environment, the components that the texture has, and the
/// colour of the context.
#[derive(Clone, Copy, Drop)]
pub(crate) struct Environment {
    pub(crate) replaces: bool,
    pub(crate) base: Base,
    pub(crate) colour: Pixel,
}

impl Environment {
    /// Whether a format of the texture's components keeps of each fragment what it keeps of the texel.
    pub(crate) fn keeps_texels(self) -> bool
        ensures { result ≡ true → (f : Format) (t : Pixel) → self.base ≡ formats.base_of f → quantize f (fragments.combined self.replaces self.base self.colour t) ≡ quantize f t }
    {
        self.replaces || is_white(self.colour)
    }

    /// Multiplies a row of texels by the colour, where it isn't to be replaced by them.
    fn multiply(self, row: &mut [[u8; 4]])
        ensures long { length row.new ≡ length row.old }
        ensures each { (k : ℕ) → k < length row.old → slice_index_or (seen Rgba8888 row.new) k no_pixel ≡ fragments.multiplied_where self.replaces self.colour (slice_index_or (seen Rgba8888 row.old) k no_pixel) }
    {
        if !self.replaces {
            scale_row(row, self.colour);
        }
    }

    /// The fragments of a row of texels, four bytes each, as `Rgba8888` keeps them: products, or the
    /// texels, and of the colour what the texture hasn't.
    pub(crate) fn combine(self, row: &mut [[u8; 4]])
        ensures long { length row.new ≡ length row.old }
        ensures each { (k : ℕ) → k < length row.old → slice_index_or (seen Rgba8888 row.new) k no_pixel ≡ fragment_of self (slice_index_or (seen Rgba8888 row.old) k no_pixel) }
    {
        self.multiply(row);
        match self.base {
            Base::Rgb => set_row(row, self.colour, ALPHA),
            Base::Rgba => {}
            Base::Alpha => set_row(row, self.colour, COLOURS),
            Base::Luminance => set_row(row, self.colour, ALPHA),
            Base::LuminanceAlpha => {}
        }
    }
}
