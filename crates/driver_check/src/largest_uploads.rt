//! The largest uploads are made before their turn: a part that never found the memory for them would leave each call right, and late.
ghost use Rattle.std.specs.Prelude.{◌≡◌, ◌<◌};

use crate::readings::call_of;
use driver_core::Driver;
use egl_calls::Call;
use std::alloc::Global;
use std::process::Abort;
use thread_part::{ThreadPart, Upload};

/// What leads to a context of the largest surface that a texture is copied from, with a texture and a buffer bound.
static BEFORE: [&str; 9] = [
    "eglGetDisplay 0",
    "eglInitialize 1",
    "eglCreatePbufferSurface 1 4 [EGL_WIDTH,1024,EGL_HEIGHT,1024]",
    "eglCreateContext 1 4 0 []",
    "eglMakeCurrent 1 3 3 4",
    "glGenTextures 1",
    "glBindTexture GL_TEXTURE_2D 1",
    "glGenBuffers 1",
    "glBindBuffer GL_ARRAY_BUFFER 1",
];

fn play(rt: &impl Abort, alloc: Global, driver: &mut Driver, text: &str)
    requires made { 0 < driver.old.made }
    ensures made { driver.new.made ≡ driver.old.made }
{
    let call = call_of(rt, alloc, text);
    let Ok(_) = driver.play(alloc, 0, &call) else {
        panic!(rt; "memory");
    };
}

/// The part of the one thread of a driver that made these calls.
fn part_behind(rt: &impl Abort, alloc: Global) -> ThreadPart {
    let Ok(mut driver) = Driver::new(alloc, &[], 67_108_864) else {
        panic!(rt; "memory");
    };
    'each: for text in &BEFORE {
        play(rt, alloc, &mut driver, text);
    }
    assert!(rt; driver.has_part(0));
    ThreadPart::new(driver.part_out(0))
}

fn pixels_of(rt: &impl Abort, alloc: Global, part: &ThreadPart, call: &Call) -> bool {
    match part.upload_of(alloc, call) {
        Ok(Some(Upload::Pixels(_))) => true,
        Ok(_) => false,
        Err(_) => panic!(rt; "memory"),
    }
}

fn contents_of(rt: &impl Abort, alloc: Global, part: &ThreadPart, call: &Call) -> bool {
    match part.upload_of(alloc, call) {
        Ok(Some(Upload::Contents(_))) => true,
        Ok(_) => false,
        Err(_) => panic!(rt; "memory"),
    }
}

#[test]
fn the_largest_uploads_are_made_from_a_part(rt: HostRuntime) {
    let alloc = rt.alloc();
    let part = part_behind(&rt, alloc);
    let given = call_of(
        &rt,
        alloc,
        "glTexImage2D GL_TEXTURE_2D 0 GL_RGBA 1024 1024 0 GL_RGBA GL_UNSIGNED_BYTE *1048576:01020304",
    );
    let copied = call_of(
        &rt,
        alloc,
        "glCopyTexImage2D GL_TEXTURE_2D 0 GL_RGBA 0 0 1024 1024 0",
    );
    let data = call_of(
        &rt,
        alloc,
        "glBufferData GL_ARRAY_BUFFER 4194304 GL_STATIC_DRAW *4194304:01",
    );
    assert!(rt; pixels_of(&rt, alloc, &part, &given), "pixels given");
    assert!(rt; pixels_of(&rt, alloc, &part, &copied), "pixels copied");
    assert!(rt; contents_of(&rt, alloc, &part, &data), "contents");
}
