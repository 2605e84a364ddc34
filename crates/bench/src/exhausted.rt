//! Plays calls for which memory can't run out, each between two reads of an empty file. `bench/refused_runs` has all memory refused from the one to the other.
ghost use Rattle.std.specs.Prelude.{◌≡◌, ◌<◌, false};
ghost use Rattle.egl_model.specs.Waits.{is_wait_end};
ghost use Rattle.shared_driver.specs.Tokens.{IsOf};

use crate::calls::{PIXEL_BYTES, lines_of};
use crate::threads::closed;
use anyhow::{Result, bail, ensure};
use driver_core::Driver;
use egl_calls::{Call, Kind, Numbers, OwnKind};
use shared_driver::{Opened, Shared, Thread};
use std::alloc::Global;
use std::fs;
use std::io::Read;
use std::rt::Files;
use std::sync::Wait;
use trace_reader::Trace;

const EMPTY: &str = "/dev/null";

/// What a token makes before its call: an object of each kind, and what is current.
const OBJECTS: &str = "0 eglGetDisplay 0
0 eglInitialize 1
0 eglCreatePbufferSurface 1 4 [EGL_WIDTH,4,EGL_HEIGHT,4]
0 eglCreateContext 1 4 0 []
0 eglMakeCurrent 1 3 3 4
0 eglCreateSync 1 EGL_SYNC_FENCE []
0 glBindTexture GL_TEXTURE_2D 1
0 glTexImage2D GL_TEXTURE_2D 0 GL_RGBA 1 1 0 GL_RGBA GL_UNSIGNED_BYTE #01020304
0 eglCreateImage 1 4 EGL_GL_TEXTURE_2D 1 [EGL_GL_TEXTURE_LEVEL,0]
0 glBindBuffer GL_ARRAY_BUFFER 1
0 glBufferData GL_ARRAY_BUFFER 4 GL_STATIC_DRAW #01020304
0 glBindRenderbufferOES GL_RENDERBUFFER_OES 1
0 glRenderbufferStorageOES GL_RENDERBUFFER_OES GL_RGBA8_OES 4 4
0 glBindFramebufferOES GL_FRAMEBUFFER_OES 1
0 glFramebufferRenderbufferOES GL_FRAMEBUFFER_OES GL_COLOR_ATTACHMENT0_OES GL_RENDERBUFFER_OES 1
";

/// The kinds of calls that take a place of a token, and one that wants memory.
static OF_TOKENS: [&str; 15] = [
    "eglTerminate 1",
    "eglDestroySurface 1 3",
    "eglDestroyContext 1 4",
    "eglDestroySync 1 5",
    "eglDestroyImage 1 6",
    "eglReleaseThread",
    "eglWaitClient",
    "glFlush",
    "glFinish",
    "glDeleteTextures [1]",
    "glDeleteBuffers [1]",
    "glDeleteRenderbuffersOES [1]",
    "glDeleteFramebuffersOES [1]",
    "halt",
    "eglGetConfigs 1",
];

/// What a driver that nobody shares plays before a call: a window's surface is current, and was cleared.
const WINDOW: &str = "window 1 4 4
0 eglGetDisplay 0
0 eglInitialize 1
0 eglCreateWindowSurface 1 1 1 []
0 eglCreateContext 1 1 0 []
0 eglMakeCurrent 1 3 3 4
0 glClearColorx 65536 0 0 65536
0 glClear GL_COLOR_BUFFER_BIT
";

/// And its swaps don't preserve it.
const DESTROYED: &str = "window 1 4 4
0 eglGetDisplay 0
0 eglInitialize 1
0 eglCreateWindowSurface 1 1 1 []
0 eglCreateContext 1 1 0 []
0 eglMakeCurrent 1 3 3 4
0 eglSurfaceAttrib 1 3 EGL_SWAP_BEHAVIOR EGL_BUFFER_DESTROYED
0 glClearColorx 65536 0 0 65536
0 glClear GL_COLOR_BUFFER_BIT
";

/// A thread that waits.
const WAITING: &str = "0 eglGetDisplay 0
0 eglInitialize 1
0 eglCreatePbufferSurface 1 4 [EGL_WIDTH,4,EGL_HEIGHT,4]
0 eglCreateContext 1 4 0 []
0 eglMakeCurrent 1 3 3 4
0 eglCreateSync 1 EGL_SYNC_FENCE []
0 eglClientWaitSync 1 5 0 EGL_FOREVER
";

/// Calls of such a driver, each with what goes before, and how they are told. The last one wants memory.
static OF_DRIVERS: [(&str, &str, &str); 5] = [
    (WINDOW, "eglSwapBuffers 1 3", "eglSwapBuffers, preserved"),
    (DESTROYED, "eglSwapBuffers 1 3", "eglSwapBuffers, destroyed"),
    (
        WINDOW,
        "glClear GL_COLOR_BUFFER_BIT",
        "glClear of a surface",
    ),
    (WAITING, "eglGetConfigs 1", "eglGetConfigs in a wait"),
    (WINDOW, "eglGetConfigs 1", "eglGetConfigs"),
];

fn is_wait_end(kind: Kind) -> bool
    ensures { result ≡ is_wait_end kind }
{
    matches!(kind, Kind::Own(OwnKind::WaitEnd))
}

// The call that a line has behind its thread; `halt`, which no line has, is a Halt.
fn call_of(alloc: Global, text: &str) -> Result<Call> {
    if text == "halt" {
        return Ok(Call {
            kind: Kind::Own(OwnKind::Halt),
            args: [0; 8],
            list: Numbers::new(alloc),
            bytes: None,
        });
    }
    let text = format!(in alloc; "0 {text}")?;
    let lines = lines_of(alloc, &text)?;
    match lines.line(0) {
        Some(line) => match line.call.to_call(alloc) {
            Ok(call) => Ok(call),
            Err(_) => bail!("no memory for a call"),
        },
        None => bail!("there is no call"),
    }
}

// Plays lines of the only thread by its token, and tells whether there was memory.
fn play_all<R: Wait>(
    rt: &R,
    alloc: Global,
    shared: &Shared,
    token: &mut Thread,
    lines: &Trace,
) -> bool
    requires { IsOf shared.now token.old }
    ensures { IsOf shared.now token.new }
{
    'lines: for line in lines.lines() {
        let Ok(call) = line.call.to_call(alloc) else {
            return false;
        };
        if is_wait_end(call.kind) || shared.call(token, rt, alloc, 0, call).is_err() {
            return false;
        }
    }
    true
}

// Plays a call of a token between two reads, and tells whether there was memory.
fn is_played_by_token<R: Files + Wait>(
    rt: &R,
    alloc: Global,
    file: &mut R::File,
    shared: &Shared,
    token: &mut Thread,
    call: Call,
) -> bool
    requires owns { IsOf shared.now token.old }
    requires kind { is_wait_end call.kind ≡ false }
    ensures { IsOf shared.now token.new }
{
    let mut byte = [0u8; 1];
    let _ = file.read(&mut byte);
    let is_played = shared.call(token, rt, alloc, 0, call).is_ok();
    let _ = file.read(&mut byte);
    is_played
}

// The same behind the lines that go before, with a token that ends.
fn by_token<R: Files + Wait>(
    rt: &R,
    alloc: Global,
    file: &mut R::File,
    opened: Opened,
    lines: &Trace,
    call: Call,
) -> bool
    requires owns { IsOf opened.shared opened.thread }
    requires kind { is_wait_end call.kind ≡ false }
{
    let Opened { shared, mut thread } = opened;
    let is_ready = play_all(rt, alloc, &shared, &mut thread, lines);
    let is_played = is_played_by_token(rt, alloc, file, &shared, &mut thread, call);
    closed(rt, shared, thread);
    is_ready & is_played
}

fn token<R: Files + Wait + AllocGlobal>(rt: &R, file: &mut R::File, text: &str) -> Result<bool> {
    let lines = lines_of(rt.alloc(), OBJECTS)?;
    let call = call_of(rt.alloc(), text)?;
    ensure!(!is_wait_end(call.kind), "a wait doesn't end here");
    match Shared::open(rt.alloc(), &[], PIXEL_BYTES) {
        Ok(opened) => Ok(by_token(rt, rt.alloc(), file, opened, &lines, call)),
        Err(_) => bail!("no memory for a driver"),
    }
}

// Plays lines by a driver that nobody shares, and tells whether there was memory.
fn play_lines(alloc: Global, driver: &mut Driver, lines: &Trace) -> bool
    requires { 0 < driver.old.made }
    ensures { driver.new.made ≡ driver.old.made }
{
    'lines: for line in lines.lines() {
        let Ok(call) = line.call.to_call(alloc) else {
            return false;
        };
        if driver.play(alloc, 0, &call).is_err() {
            return false;
        }
    }
    true
}

// Plays a call of such a driver behind lines, between two reads.
fn is_played<R: Files>(
    rt: &R,
    alloc: Global,
    file: &mut R::File,
    driver: &mut Driver,
    lines: &Trace,
    call: &Call,
) -> bool
    requires { 0 < driver.old.made }
{
    let _ = rt;
    let is_ready = play_lines(alloc, driver, lines);
    let mut byte = [0u8; 1];
    let _ = file.read(&mut byte);
    let is_played = driver.play(alloc, 0, call).is_ok();
    let _ = file.read(&mut byte);
    is_ready & is_played
}

fn driver<R: Files + AllocGlobal>(
    rt: &R,
    file: &mut R::File,
    before: &str,
    text: &str,
) -> Result<bool> {
    let lines = lines_of(rt.alloc(), before)?;
    let call = call_of(rt.alloc(), text)?;
    match Driver::new(rt.alloc(), lines.windows(), PIXEL_BYTES) {
        Ok(mut driver) => Ok(is_played(rt, rt.alloc(), file, &mut driver, &lines, &call)),
        Err(_) => bail!("no memory for a driver"),
    }
}

fn word(is_played: bool) -> &'static str {
    if is_played { "played" } else { "no memory" }
}

fn tell_tokens<R: Files + Print + AllocGlobal + Wait>(rt: &R, file: &mut R::File) -> Result<()> {
    'tokens: for text in OF_TOKENS {
        let word = word(token(rt, file, text)?);
        println!(rt; "by a token, {text}: {word}")?;
    }
    Ok(())
}

fn tell_drivers<R: Files + Print + AllocGlobal>(rt: &R, file: &mut R::File) -> Result<()> {
    'drivers: for (before, text, name) in OF_DRIVERS {
        let word = word(driver(rt, file, before, text)?);
        println!(rt; "by a driver, {name}: {word}")?;
    }
    Ok(())
}

/// Prints of each call whether it was played.
pub fn run<R: Files + Print + AllocGlobal + Wait>(rt: &R) -> Result<()> {
    let mut file = fs::open(rt, EMPTY)?;
    tell_tokens(rt, &mut file)?;
    tell_drivers(rt, &mut file)
}
