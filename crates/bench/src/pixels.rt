//! Writes into images, their rows as bytes, loads, draws and copies between images in each format, beside a plain copy of
//! as many bytes, and the memory that images take.

mod images;
pub mod work;

use crate::extents::Extent;
use anyhow::{Result, bail};
use egl_calls::Bytes;
use pixel_formats::{Format, Pixel, bytes_of};
use pixel_rows::{Image, Mask};
use std::rt::{Clock, Files};
use std::time::Instant;
use work::{
    ALL, GREY, ORANGE, RED, context, copies, copy, draw, fill, load, payload, rounds, rows, side,
    speed, sum_of,
};

const FORMATS: [Format; 8] = [
    Format::Rgb565,
    Format::Rgb888,
    Format::Rgba8888,
    Format::Rgba4444,
    Format::Rgba5551,
    Format::A8,
    Format::L8,
    Format::La88,
];

/// The formats that rows are given in and loaded from, beside the image's own.
const OTHERS: [Format; 2] = [Format::Rgba8888, Format::Rgb565];

/// A context that draws textures in a colour of halves, by GL_MODULATE and by GL_REPLACE.
const MODULATE: &str = "0 glEnable GL_TEXTURE_2D\n0 glColor4x 32768 32768 32768 32768\n";

const REPLACE: &str =
    "0 glEnable GL_TEXTURE_2D\n0 glColor4x 32768 32768 32768 32768\n0 glTexEnvx GL_TEXTURE_ENV GL_TEXTURE_ENV_MODE GL_REPLACE\n";

/// A piece of work.
#[derive(Clone, Copy, Drop)]
enum Piece {
    Plain,
    Fill(Pixel, Mask),
    Load(Format),
    Rows(Format),
    /// A texture is drawn over an image, texel by texel or at twice its size.
    Draw(&'static str, bool),
    Copy,
}

/// What pieces of work are done with, all of as many pixels.
#[derive(Drop)]
struct Scene {
    extent: Extent,
    image: Image,
    /// Another image of its format, on which it is drawn.
    target: Image,
    /// The bytes of pixels in any format.
    bytes: Bytes,
    /// Room for those of the image's.
    plain: Vec<u8>,
    /// Rows that were given.
    rows: Bytes,
}

// Does a piece of work all its rounds.
fn perform<R: AllocGlobal>(rt: &R, scene: &mut Scene, piece: Piece) -> Result<()> {
    let rounds = rounds(scene.extent);
    match piece {
        Piece::Plain => {
            let (front, _) = scene
                .bytes
                .as_slice()
                .split_at(scene.plain.len().min(scene.bytes.as_slice().len()));
            copy(scene.plain.as_mut_slice(), front, rounds);
        }
        Piece::Fill(colour, mask) => fill(&mut scene.image, colour, mask, rounds),
        Piece::Load(from) => load(&mut scene.image, &scene.bytes, from, rounds),
        Piece::Rows(to) => scene.rows = rows(rt.alloc(), &scene.image, to, rounds)?,
        Piece::Draw(text, is_whole) => {
            let part = context(rt.alloc(), text)?;
            let side = side(scene.extent);
            let crop = if is_whole { side } else { side / 2 };
            draw(&mut scene.target, &part, &scene.image, crop, rounds);
        }
        Piece::Copy => copies(&mut scene.target, &scene.image, rounds),
    }
    Ok(())
}

fn image_sum<R: AllocGlobal>(rt: &R, image: &Image) -> Result<u64> {
    let left = rows(rt.alloc(), image, image.format(), 1)?;
    Ok(sum_of(left.as_slice()))
}

// The sum of what a piece of work left.
fn sum_left<R: AllocGlobal>(rt: &R, scene: &Scene, piece: Piece) -> Result<u64> {
    match piece {
        Piece::Plain => Ok(sum_of(scene.plain.as_slice())),
        Piece::Rows(_) => Ok(sum_of(scene.rows.as_slice())),
        Piece::Fill(_, _) | Piece::Load(_) => image_sum(rt, &scene.image),
        Piece::Draw(_, _) | Piece::Copy => image_sum(rt, &scene.target),
    }
}

// Prints what a piece of work leaves, and how fast it is where all is done.
fn measure<R: Clock + Print + AllocGlobal>(
    rt: &R,
    scene: &mut Scene,
    name: &str,
    piece: Piece,
) -> Result<()> {
    let f = scene.image.format();
    let start = Instant::now(rt)?;
    perform(rt, scene, piece)?;
    let took = start.elapsed(rt)?;
    let sum = sum_left(rt, scene, piece)?;
    match scene.extent {
        Extent::Little => println!(rt; "{f:?}, {name}: sum {sum}")?,
        Extent::Full => {
            let fast = speed(took);
            println!(rt; "{f:?}, {name}: {fast} million pixels a second, sum {sum}")?;
        }
    }
    Ok(())
}

// Loads from a format and rows in it.
fn measure_format<R: Clock + Print + AllocGlobal>(
    rt: &R,
    scene: &mut Scene,
    other: Format,
) -> Result<()> {
    let load = format!(in rt.alloc(); "load from {other:?}")?;
    measure(rt, scene, load.as_str(), Piece::Load(other))?;
    let rows = format!(in rt.alloc(); "rows as {other:?}")?;
    measure(rt, scene, rows.as_str(), Piece::Rows(other))
}

/// What is done before the loads and the rows, and behind them.
static BEFORE: [(&str, Piece); 3] = [
    ("plain copy", Piece::Plain),
    ("fill", Piece::Fill(ORANGE, ALL)),
    ("fill of red alone", Piece::Fill(GREY, RED)),
];

static BEHIND: [(&str, Piece); 5] = [
    ("unscaled draw in REPLACE", Piece::Draw(REPLACE, true)),
    ("scaled draw in REPLACE", Piece::Draw(REPLACE, false)),
    ("unscaled draw in MODULATE", Piece::Draw(MODULATE, true)),
    ("scaled draw in MODULATE", Piece::Draw(MODULATE, false)),
    ("copy between images", Piece::Copy),
];

// One format, beside a copy of as many bytes.
fn measure_all<R: Clock + Print + AllocGlobal>(rt: &R, scene: &mut Scene) -> Result<()> {
    let f = scene.image.format();
    for (name, piece) in &BEFORE {
        measure(rt, scene, name, *piece)?;
    }
    measure_format(rt, scene, f)?;
    for other in OTHERS {
        if other != f {
            measure_format(rt, scene, other)?;
        }
    }
    for (name, piece) in &BEHIND {
        measure(rt, scene, name, *piece)?;
    }
    Ok(())
}

// Images of a format, with what else is there for it.
fn new_scene<R: AllocGlobal>(rt: &R, extent: Extent, f: Format) -> Result<Scene> {
    let side = side(extent);
    let pixels = side as usize * side as usize;
    let bytes = payload(rt.alloc(), pixels * 4)?;
    let mut plain = Vec::new(rt.alloc());
    plain.resize(pixels.wrapping_mul(bytes_of(f) as usize), 0)?;
    let rows = Bytes::new(rt.alloc());
    let image = Image::new(rt.alloc(), f, side, side);
    let target = Image::new(rt.alloc(), f, side, side);
    match (image, target) {
        (Ok(image), Ok(target)) => Ok(Scene {
            extent,
            image,
            target,
            bytes,
            plain,
            rows,
        }),
        (Ok(_) | Err(_), _) => bail!("no memory for an image"),
    }
}

/// Does each piece of work once with images of 64 by 64, and prints what is left. Or does each eight times over with images
/// of 2,048 by 2,048, and prints millions of pixels a second; before that, the memory that 64 such images take.
pub fn run<R: Clock + Files + Print + AllocGlobal>(rt: &R, extent: Extent) -> Result<()> {
    if extent == Extent::Full {
        images::measure(rt)?;
    }
    for f in FORMATS {
        let mut scene = new_scene(rt, extent, f)?;
        measure_all(rt, &mut scene)?;
    }
    Ok(())
}
