//! Makes pbuffers through the library and destroys each before the next, and tells the memory that the process has.
ghost use Rattle.std.specs.Prelude.{◌≡◌, ◌<◌};

use crate::calls::{PIXEL_BYTES, lines_of};
use crate::extents::Extent;
use crate::memory::{RESIDENT, kilobytes};
use anyhow::{Result, bail, ensure};
use driver_core::Driver;
use egl_calls::{Call, EglKind, Kind, Numbers};
use std::alloc::Global;
use std::rt::Files;
use trace_reader::Line;

/// How many are made where little is done.
const LITTLE: u32 = 100;

/// How many are made before the memory is asked for at first, and how many after that.
const FIRST: u32 = 1_000;

const REST: u32 = 9_999_000;

/// The call that destroys a surface of the first display.
fn destroy(alloc: Global, surface: u32) -> Call {
    Call {
        kind: Kind::Egl(EglKind::DestroySurface),
        args: [1, i64::from(surface), 0, 0, 0, 0, 0, 0],
        list: Numbers::new(alloc),
        bytes: None,
    }
}

// A call of the only thread: its value, unless memory ran out.
fn value(alloc: Global, driver: &mut Driver, call: &Call) -> Option<u32>
    requires made { 0 < driver.old.made }
    ensures { driver.new.made ≡ driver.old.made }
{
    match driver.play(alloc, 0, call) {
        Ok(reply) => u32::try_from(reply.value).ok(),
        Err(_) => None,
    }
}

// Makes a pbuffer and destroys it so many times, unless one call isn't done.
fn turns(alloc: Global, driver: &mut Driver, create: &Call, count: u32) -> bool
    requires { 0 < driver.old.made }
    ensures { driver.new.made ≡ driver.old.made }
{
    'each: for _turn in 0..count {
        let Some(surface) = value(alloc, driver, create) else {
            return false;
        };
        if value(alloc, driver, &destroy(alloc, surface)) != Some(1) {
            return false;
        }
    }
    true
}

// Makes a hundred, and says so.
fn make_little<R: Print + AllocGlobal>(rt: &R, driver: &mut Driver, create: &Call) -> Result<()>
    requires { 0 < driver.old.made }
{
    let done = turns(rt.alloc(), driver, create, LITTLE);
    ensure!(done, "a call was refused");
    println!(rt; "100 pbuffers: made and destroyed")?;
    Ok(())
}

// Makes ten million, and tells the memory after the first thousand and at the end.
fn make_all<R: Files + Print + AllocGlobal>(
    rt: &R,
    driver: &mut Driver,
    create: &Call,
) -> Result<()>
    requires { 0 < driver.old.made }
{
    let begun = turns(rt.alloc(), driver, create, FIRST);
    let first = kilobytes(rt, RESIDENT)?;
    let done = turns(rt.alloc(), driver, create, REST);
    let last = kilobytes(rt, RESIDENT)?;
    ensure!(begun && done, "a call was refused");
    println!(rt;
        "10,000,000 pbuffers one after another\nmemory: {first} kB after the first thousand, {last} kB at the end"
    )?;
    Ok(())
}

fn measure<R: Files + Print + AllocGlobal>(
    rt: &R,
    extent: Extent,
    driver: &mut Driver,
    lines: &[Line],
) -> Result<()>
    requires { 0 < driver.old.made }
{
    let [first, create] = lines else {
        bail!("two lines");
    };
    let (Ok(initialize), Ok(create)) = (
        first.call.to_call(rt.alloc()),
        create.call.to_call(rt.alloc()),
    ) else {
        bail!("no memory for a call");
    };
    value(rt.alloc(), driver, &initialize);
    match extent {
        Extent::Little => make_little(rt, driver, &create),
        Extent::Full => make_all(rt, driver, &create),
    }
}

/// Makes a hundred and says so. Or makes ten million, and prints the memory after the first thousand and at the end.
pub fn run<R: Files + Print + AllocGlobal>(rt: &R, extent: Extent) -> Result<()> {
    let lines = lines_of(
        rt.alloc(),
        "0 eglInitialize 1\n0 eglCreatePbufferSurface 1 4 [EGL_WIDTH,8,EGL_HEIGHT,8]\n",
    )?;
    match Driver::new(rt.alloc(), &[], PIXEL_BYTES) {
        Ok(mut driver) => measure(rt, extent, &mut driver, lines.lines()),
        Err(_) => bail!("no memory for a driver"),
    }
}
