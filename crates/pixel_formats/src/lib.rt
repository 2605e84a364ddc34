//! The storage formats of pixels: how many bits each component has, where it stands in a packed
//! pixel, and the conversions between bit sizes.
//!
//! A `Pixel` has 8 bits a component. A format keeps fewer bits or fewer components, and `quantize`
//! says what a stored pixel reads as.
//!
//! It knows no image: one pixel at a time.
//!
//! Its tests are in `pixel_check`.
#![tactic(auto)]

mod components;
mod formats;
mod laws;
mod pixels;

pub use components::{clear_value, widen};
pub use formats::{Base, Format, Layout, Place, base_of, bytes_of, layout_of};
pub use laws::{
    converts_directly, keeps_clear_colour, packing_keeps, packs_rounded, reading_keeps, rounds_once,
};
pub use pixels::{Pixel, clear_pixel, pack, pack_in, quantize, unpack};
