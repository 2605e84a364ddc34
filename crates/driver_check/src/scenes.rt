//! Windows of one pixel, and screens of few.
ghost use Rattle.std.specs.Prelude.{◌≡◌};
ghost use Rattle.screen_compose.specs.Fronts.{AreOf};

use egl_calls::Bytes;
use pixel_formats::{Format, Pixel};
use pixel_rows::{Image, Mask};
use screen_compose::{Frame, Fronts, Placed, Screen, screen_ok};
use std::alloc::Global;
use std::process::Abort;
use surface_store::{Window, WindowSpec, swap};

const ALL: Mask = Mask {
    r: true,
    g: true,
    b: true,
    a: true,
};

pub fn pixel(r: u8, g: u8, b: u8, a: u8) -> Pixel {
    Pixel { r, g, b, a }
}

pub fn placed(window: i64, x: i64, y: i64) -> Placed {
    Placed { window, x, y }
}

/// A window of one pixel, to which this pixel was posted.
pub fn window<R: Abort>(rt: &R, alloc: Global, id: i64, pixel: Pixel) -> Window {
    let Ok(mut window) = Window::new(alloc, WindowSpec { id, w: 1, h: 1 }) else {
        panic!(rt; "memory");
    };
    let Ok(mut back) = Image::new(alloc, Format::Rgba8888, 1, 1) else {
        panic!(rt; "memory");
    };
    if back.put(0, 0, pixel, ALL).is_err() || swap(&mut window, &mut back, false).is_err() {
        panic!(rt; "memory");
    }
    window
}

/// A screen of sides that there may be, with such windows.
pub fn screen<R: Abort>(rt: &R, alloc: Global, w: u32, h: u32, list: &[Placed]) -> Screen
    ensures { result.placed ≡ list.now }
{
    if !screen_ok(w, h, list) {
        panic!(rt; "no such screen");
    }
    match Screen::new(alloc, w, h, list) {
        Ok(screen) => screen,
        Err(_) => panic!(rt; "memory"),
    }
}

/// The fronts of these windows after so many entries.
pub fn fronts<R: Abort>(
    rt: &R,
    alloc: Global,
    windows: &[Window],
    list: &[Placed],
    at: u64,
) -> Fronts
    ensures { AreOf result list.now }
{
    match Fronts::of_windows(alloc, windows, list, at) {
        Ok(fronts) => fronts,
        Err(_) => panic!(rt; "memory"),
    }
}

pub fn frame<R: Abort>(rt: &R, alloc: Global, screen: &Screen, number: u64) -> Frame {
    match screen.frame(alloc, number) {
        Ok(frame) => frame,
        Err(_) => panic!(rt; "memory"),
    }
}

/// What a screen shows, as bytes.
pub fn picture<R: Abort>(rt: &R, alloc: Global, screen: &Screen) -> Bytes {
    frame(rt, alloc, screen, 0).rows
}
