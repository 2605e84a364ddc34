//! What holds between packing, reading and converting, over the whole table of formats. Each law is
//! the contract of a function that does nothing.

ghost use Rattle.pixel_formats.specs.Laws as laws;

/// What is packed reads back as the pixel rounded to the format.
pub fn packing_keeps()
    ensures { laws.PackingKeeps }
{}

/// What is read packs to the format's own bytes again.
pub fn reading_keeps()
    ensures { laws.ReadingKeeps }
{}

/// A pixel that was rounded is not changed by rounding it again.
pub fn rounds_once()
    ensures { laws.RoundsOnce }
{}

/// Rounding a pixel first does not change what it packs to.
pub fn packs_rounded()
    ensures { laws.PacksRounded }
{}

/// The pixel of a clear colour is stored as it is.
pub fn keeps_clear_colour()
    ensures { laws.KeepsClearColour }
{}

/// Between the sizes that formats keep, a conversion by way of 8 bits is the direct one. Of a
/// fixed-point clear colour that is not so: see `clear_pixel`.
pub fn converts_directly()
    ensures { laws.ConvertsDirectly }
{}
