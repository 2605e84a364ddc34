//! The work that is measured, each piece so many rounds.
ghost use Rattle.std.specs.Prelude.{◌≤◌};

use crate::calls::lines_of;
use crate::extents::Extent;
use anyhow::{Result, bail};
use context_state::{ContextPart, is_context_call};
use egl_calls::Bytes;
use pixel_formats::{Format, Pixel};
use pixel_rows::{Image, Mask, Rect};
use rect_pipeline::{Sampler, copy_tex, draw_tex};
use std::alloc::Global;
use std::time::Duration;
use texture_objects::Texture;

/// The sides of an image where all is done, and how often each piece of work is done there.
pub const SIDE: u32 = 2_048;

const ROUNDS: u32 = 8;

/// The sides of an image where little is done.
const LITTLE_SIDE: u32 = 64;

/// One in 16.16 fixed point.
const ONE: i64 = 65_536;

pub const ALL: Mask = Mask {
    r: true,
    g: true,
    b: true,
    a: true,
};

pub const RED: Mask = Mask {
    r: true,
    g: false,
    b: false,
    a: false,
};

pub const ORANGE: Pixel = Pixel {
    r: 200,
    g: 100,
    b: 50,
    a: 255,
};

pub const GREY: Pixel = Pixel {
    r: 100,
    g: 100,
    b: 100,
    a: 100,
};

/// The sides of the images.
pub fn side(extent: Extent) -> u32
    ensures { (1 ≤ result) × (result ≤ 2048) }
{
    match extent {
        Extent::Little => LITTLE_SIDE,
        Extent::Full => SIDE,
    }
}

/// How often a piece of work is done.
pub fn rounds(extent: Extent) -> u32 {
    match extent {
        Extent::Little => 1,
        Extent::Full => ROUNDS,
    }
}

/// Millions of pixels a second, where all rounds over an image took so long.
pub fn speed(took: Duration) -> u128 {
    let written = u128::from(ROUNDS * SIDE * SIDE);
    written * 1_000 / took.as_nanos().max(1)
}

/// So many bytes, of which neighbours differ.
pub fn payload(alloc: Global, long: usize) -> Result<Bytes> {
    let mut bytes = Vec::with_capacity(alloc, long)?;
    for k in 0..long {
        bytes.push((k % 251) as u8)?;
    }
    Ok(Bytes::from_vec(bytes))
}

pub fn copy(to: &mut [u8], from: &[u8], rounds: u32) {
    for _round in 0..rounds {
        if to.len() == from.len() {
            to.copy_from_slice(from);
        }
    }
}

pub fn fill(image: &mut Image, colour: Pixel, mask: Mask, rounds: u32) {
    for _round in 0..rounds {
        let (w, h) = (image.width() as i64, image.height() as i64);
        let rect = Rect { x: 0, y: 0, w, h };
        let _ = image.fill_rect(rect, colour, mask);
    }
}

pub fn load(image: &mut Image, bytes: &Bytes, from: Format, rounds: u32) {
    for _round in 0..rounds {
        let (w, h) = (image.width() as i64, image.height() as i64);
        let rect = Rect { x: 0, y: 0, w, h };
        let _ = image.load_rows(rect, bytes, from, 1);
    }
}

/// The rows of an image as bytes, made so many times.
pub fn rows(alloc: Global, image: &Image, to: Format, rounds: u32) -> Result<Bytes> {
    let mut made = Bytes::new(alloc);
    for _round in 0..rounds {
        let (w, h) = (image.width() as i64, image.height() as i64);
        let rect = Rect { x: 0, y: 0, w, h };
        match image.row_bytes(alloc, rect, to, 1) {
            Ok(bytes) => made = bytes,
            Err(_) => bail!("no memory for the rows of an image"),
        }
    }
    Ok(made)
}

/// A context after calls.
pub fn context(alloc: Global, text: &str) -> Result<ContextPart> {
    let mut part = ContextPart::new();
    let lines = lines_of(alloc, text)?;
    for line in lines.lines() {
        let Ok(call) = line.call.to_call(alloc) else {
            bail!("no memory for a call");
        };
        if is_context_call(call.kind) {
            part.apply(alloc, &call);
        }
    }
    Ok(part)
}

/// Draws the first columns and rows of a texture, so many, over the whole of an image.
pub fn draw(target: &mut Image, part: &ContextPart, image: &Image, crop: u32, rounds: u32) {
    let (base_w, base_h) = (image.width(), image.height());
    let (wide, high) = (i64::from(target.width()), i64::from(target.height()));
    if base_w == 0 || base_h == 0 || wide == 0 || high == 0 {
        return;
    }
    let mut texture = Texture::new();
    texture.set_crop(0, 0, i64::from(crop), i64::from(crop));
    for _round in 0..rounds {
        let sampler = Sampler {
            image,
            texture: &texture,
            base_w,
            base_h,
        };
        let _ = draw_tex(target, part, Some(sampler), 0, 0, wide * ONE, high * ONE);
    }
}

/// Copies an image into the whole of another.
pub fn copies(into: &mut Image, from: &Image, rounds: u32) {
    for _round in 0..rounds {
        let (w, h) = (into.width() as i64, into.height() as i64);
        let rect = Rect { x: 0, y: 0, w, h };
        let _ = copy_tex(into, 0, 0, from, rect);
    }
}

/// The sum of Fowler, Noll and Vo, 1a, of 64 bits.
pub fn sum_of(bytes: &[u8]) -> u64 {
    let mut sum = 14_695_981_039_346_656_037u64;
    for byte in bytes {
        sum = (sum ^ u64::from(*byte)).wrapping_mul(1_099_511_628_211);
    }
    sum
}
