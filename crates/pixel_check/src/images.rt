//! What tests do with images. Each call asserts what the library asks of its caller, and that there is memory.
use pixel_formats::{Format, Pixel};
use pixel_rows::{Image, Mask, Rect};
use std::alloc::Global;
use std::process::Abort;

/// The longest side.
pub const SIDE: u32 = 2_048;

pub const RED: Pixel = Pixel {
    r: 255,
    g: 0,
    b: 0,
    a: 255,
};

pub const BLUE: Pixel = Pixel {
    r: 0,
    g: 0,
    b: 255,
    a: 255,
};

pub const CLEAR: Pixel = Pixel {
    r: 0,
    g: 0,
    b: 0,
    a: 0,
};

/// All components are written.
pub const ALL: Mask = Mask {
    r: true,
    g: true,
    b: true,
    a: true,
};

/// Fills an image.
pub fn fill<R: Abort>(rt: &R, image: &mut Image, colour: Pixel) {
    let whole = Rect {
        x: 0,
        y: 0,
        w: i64::from(image.width()),
        h: i64::from(image.height()),
    };
    image.fill_rect(whole, colour, ALL).expect(rt, "memory");
}

/// A square that is red.
pub fn red<R: Abort>(rt: &R, alloc: Global, side: u32) -> Image {
    assert!(rt; side <= SIDE);
    let image = Image::new(alloc, Format::Rgba8888, side, side);
    let mut image = image.expect(rt, "memory");
    fill(rt, &mut image, RED);
    image
}

/// The same pixels, frozen.
pub fn frozen<R: Abort>(rt: &R, image: Image) -> Image {
    match image.freeze() {
        Ok(image) => image,
        Err(_) => panic!(rt; "memory"),
    }
}

/// An equal image.
pub fn shared<R: Abort>(rt: &R, image: &Image) -> Image {
    image.share().expect(rt, "memory")
}

/// The first pixel of an image and the last.
pub fn corners<R: Abort>(rt: &R, image: &Image) -> [Pixel; 2] {
    let (w, h) = (image.width(), image.height());
    assert!(rt; 0 < w && 0 < h);
    [image.at(0, 0), image.at(w - 1, h - 1)]
}
