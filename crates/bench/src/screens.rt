//! Updates of a screen that a window fills, of which one row changed or all did, beside a plain copy of as many rows.
ghost use Rattle.std.specs.Prelude.{◌≤◌};

use crate::extents::Extent;
use crate::pixels::work::{ALL, GREY, ORANGE, copy, side};
use anyhow::{Result, bail};
use pixel_formats::Format;
use pixel_rows::{Image, Rect};
use screen_compose::{Fronts, Placed, Screen, screen_ok};
use std::rt::Clock;
use std::time::{Duration, Instant};
use surface_store::{Window, WindowSpec, swap};

const WINDOW: i64 = 1;

const PLACED: [Placed; 1] = [Placed {
    window: WINDOW,
    x: 0,
    y: 0,
}];

/// How often each update is made where it is timed; the fastest counts.
const ROUNDS: u32 = 9;

/// A screen, the one window on it, and what is posted to that.
#[derive(Drop)]
struct Scene {
    screen: Screen,
    windows: [Window; 1],
    back: Image,
}

/// How many rows an update changed, and how long it took.
#[derive(Clone, Copy, Drop)]
struct Updated {
    rows: u64,
    took: Duration,
}

fn new_scene<R: AllocGlobal>(rt: &R, side: u32) -> Result<Scene>
    requires { (1 ≤ side) × (side ≤ 2048) }
{
    if !screen_ok(side, side, &PLACED) {
        bail!("no such screen");
    }
    let spec = WindowSpec {
        id: WINDOW,
        w: side,
        h: side,
    };
    let screen = Screen::new(rt.alloc(), side, side, &PLACED);
    let window = Window::new(rt.alloc(), spec);
    let back = Image::new(rt.alloc(), Format::Rgba8888, side, side);
    match (screen, window, back) {
        (Ok(screen), Ok(window), Ok(back)) => Ok(Scene {
            screen,
            windows: [window],
            back,
        }),
        (Ok(_) | Err(_), _, _) => bail!("no memory for a screen"),
    }
}

// Fills so many rows of what is posted, and posts it.
fn is_posted(window: &mut Window, back: &mut Image, rows: u32, is_odd: bool) -> bool {
    let rect = Rect {
        x: 0,
        y: 0,
        w: i64::from(back.width()),
        h: i64::from(back.height().min(rows)),
    };
    let colour = if is_odd { GREY } else { ORANGE };
    let is_filled = back.fill_rect(rect, colour, ALL).is_ok();
    let front = window.front();
    let is_alike = back.width() == front.width() && back.height() == front.height();
    is_filled && is_alike && swap(window, back, true).is_ok()
}

// Posts so many rows of another colour, and shows on the screen what the window then shows. Only that is timed, and not how fronts are copied.
fn update<R: Clock + AllocGlobal>(
    rt: &R,
    scene: &mut Scene,
    rows: u32,
    is_odd: bool,
) -> Result<Updated> {
    let [window] = &mut scene.windows;
    if !is_posted(window, &mut scene.back, rows, is_odd) {
        bail!("a swap wasn't done");
    }
    let placed = scene.screen.placed();
    let Ok(fronts) = Fronts::of_windows(rt.alloc(), &scene.windows, placed, 0) else {
        bail!("no memory for fronts");
    };
    let start = Instant::now(rt)?;
    let rows = scene.screen.show(fronts);
    Ok(Updated {
        rows,
        took: start.elapsed(rt)?,
    })
}

// The fastest of some updates by so many rows, the first of which makes all rows alike.
fn fastest<R: Clock + AllocGlobal>(
    rt: &R,
    extent: Extent,
    scene: &mut Scene,
    rows: u32,
) -> Result<Updated> {
    update(rt, scene, rows, true)?;
    let mut best = update(rt, scene, rows, false)?;
    if extent == Extent::Full {
        for round in 1..ROUNDS {
            let next = update(rt, scene, rows, round % 2 == 1)?;
            if next.took < best.took {
                best = next;
            }
        }
    }
    Ok(best)
}

// How long a plain copy of so many rows takes, the least of some.
fn copied<R: Clock + AllocGlobal>(rt: &R, side: u32, rows: u64) -> Result<Duration> {
    let rows = rows.min(u64::from(side)) as usize;
    let long = rows.wrapping_mul(side as usize).wrapping_mul(4);
    let mut from = Vec::new(rt.alloc());
    from.resize(long, 1)?;
    let mut to = Vec::new(rt.alloc());
    to.resize(long, 0)?;
    let mut best = Duration::MAX;
    for _round in 0..ROUNDS {
        let start = Instant::now(rt)?;
        copy(to.as_mut_slice(), from.as_slice(), 1);
        best = best.min(start.elapsed(rt)?);
    }
    Ok(best)
}

fn tell<R: Clock + Print + AllocGlobal>(
    rt: &R,
    extent: Extent,
    scene: &mut Scene,
    side: u32,
    rows: u32,
) -> Result<()> {
    let Updated { rows, took } = fastest(rt, extent, scene, rows)?;
    println!(rt; "a screen of {side} by {side}: {rows} rows changed")?;
    if extent == Extent::Full {
        let plain = copied(rt, side, rows)?.as_nanos().max(1);
        let took = took.as_nanos();
        let ratio = took / plain;
        println!(rt;
            "{rows} rows: {took} ns an update, {plain} ns a plain copy of them, {ratio} times"
        )?;
    }
    Ok(())
}

/// Updates a screen of 64 by 64 of which all rows change, and one, and prints how many changed. Or one of 2,048 by 2,048, and
/// prints what the fastest of nine updates took, beside a plain copy of the rows that changed.
pub fn run<R: Clock + Print + AllocGlobal>(rt: &R, extent: Extent) -> Result<()> {
    let side = side(extent);
    let mut scene = new_scene(rt, side)?;
    for rows in [side, 1] {
        tell(rt, extent, &mut scene, side, rows)?;
    }
    Ok(())
}
