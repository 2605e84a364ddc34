//! The memory that images take.

use crate::memory::{PEAK, kilobytes};
use crate::pixels::work::SIDE;
use anyhow::Result;
use pixel_formats::Format;
use pixel_rows::Image;
use std::rt::Files;

const IMAGES: u32 = 64;

/// The formats, those of fewest bytes first.
const FORMATS: [Format; 8] = [
    Format::A8,
    Format::L8,
    Format::La88,
    Format::Rgb565,
    Format::Rgba4444,
    Format::Rgba5551,
    Format::Rgb888,
    Format::Rgba8888,
];

/// Makes 64 images of each format, one format after another, and prints the most memory that the process had so far: with
/// the formats of fewest bytes first, that is what these images took.
pub fn measure<R: Files + Print + AllocGlobal>(rt: &R) -> Result<()> {
    for f in FORMATS {
        let mut images = Vec::new(rt.alloc());
        for _k in 0..IMAGES {
            if let Ok(image) = Image::new(rt.alloc(), f, SIDE, SIDE) {
                images.push(image)?;
            }
        }
        println!(rt;
            "{f:?}: {} images, {} kB at most",
            images.len(),
            kilobytes(rt, PEAK)?
        )?;
    }
    Ok(())
}
