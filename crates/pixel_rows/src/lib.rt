//! Images: rows of pixels in a storage format, writes into them, and their rows as bytes.
//!
//! An image keeps one to four bytes a pixel, as its format has it. They are the image's own, or they
//! are frozen: then images may share them, and one that is written gets bytes of its own first.
//!
//! It knows no texture, surface or context: rectangles, masks and bytes.
//!
//! Its tests are in `pixel_check`.
#![tactic(auto)]

mod blocks;
mod cells;
mod copies;
mod fills;
mod images;
mod kernels;
mod lanes;
mod laws;
mod loads;
mod masks;
mod rects;
mod rows;
mod runs;
mod strips;
mod transfers;

pub use images::{FreezeError, Image};
pub use laws::{
    fills_whole_rows, is_its_rows, is_smallest_multiple, keeps_shape, paints_covered, zeroes_whole,
};
pub use masks::Mask;
pub use rects::Rect;
pub use strips::{scale_row, set_row};
