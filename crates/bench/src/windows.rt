//! Swaps of a window by surfaces of each config.
use crate::extents::Extent;
use crate::pixels::work::{ALL, ORANGE, SIDE, fill, rows, side, sum_of};
use anyhow::{Result, bail, ensure};
use pixel_rows::Image;
use std::rt::Clock;
use std::time::Instant;
use surface_store::{Window, WindowSpec, format_of, swap};

const CONFIGS: [i64; 8] = [1, 2, 3, 4, 5, 6, 7, 8];

/// How many swaps are timed.
const SWAPS: u32 = 100;

// Posts a back buffer so many times, and answers whether that was done.
fn post(window: &mut Window, back: &mut Image, count: u32) -> bool {
    'swaps: for _swap in 0..count {
        let front = window.front();
        let is_alike = back.width() == front.width() && back.height() == front.height();
        let is_posted = is_alike && swap(window, back, false).is_ok();
        if !is_posted {
            return false;
        }
    }
    true
}

// What a window shows after a swap of what is filled, and then how long swaps of it take.
fn measure<R: Clock + Print + AllocGlobal>(
    rt: &R,
    extent: Extent,
    config: i64,
    window: &mut Window,
    back: &mut Image,
) -> Result<()> {
    fill(back, ORANGE, ALL, 1);
    ensure!(post(window, back, 1), "a swap wasn't done");
    let front = rows(rt.alloc(), window.front(), window.front().format(), 1)?;
    println!(rt; "config {config}, a swap: sum {}", sum_of(front.as_slice()))?;
    if extent == Extent::Full {
        let start = Instant::now(rt)?;
        ensure!(post(window, back, SWAPS), "a swap wasn't done");
        let took = start.elapsed(rt)?.as_nanos();
        let pixels = u128::from(SWAPS) * u128::from(SIDE * SIDE);
        let (whole, each) = (took / 1_000_000, took * 1_000 / pixels);
        println!(rt; "config {config}, {SWAPS} swaps: {whole} ms, {each} ps a pixel")?;
    }
    Ok(())
}

fn measure_config<R: Clock + Print + AllocGlobal>(
    rt: &R,
    extent: Extent,
    config: i64,
) -> Result<()> {
    let side = side(extent);
    let spec = WindowSpec {
        id: 1,
        w: side,
        h: side,
    };
    let window = Window::new(rt.alloc(), spec);
    let back = Image::new(rt.alloc(), format_of(config), side, side);
    match (window, back) {
        (Ok(mut window), Ok(mut back)) => measure(rt, extent, config, &mut window, &mut back),
        (Ok(_) | Err(_), _) => bail!("no memory for a window"),
    }
}

/// Swaps a window of 64 by 64 by a surface of each config, and prints what it shows. Or does so with one of 2,048 by 2,048,
/// and prints how long a hundred swaps took.
pub fn run<R: Clock + Print + AllocGlobal>(rt: &R, extent: Extent) -> Result<()> {
    for config in CONFIGS {
        measure_config(rt, extent, config)?;
    }
    Ok(())
}
