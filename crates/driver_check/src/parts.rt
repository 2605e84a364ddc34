//! A thread's part is out of the driver between its calls, beside the calls of another thread, and leaves every reply as without it.
ghost use Rattle.shared_driver.specs.Tokens.{IsOf};

use crate::crowds::{finish, made, opened};
use crate::replays::is_replayed;
use shared_driver::{Opened, Shared, Thread};
use std::alloc::Global;
use std::process::Abort;
use std::sync::Wait;
use std::sync::atomic::AtomicU64;
use std::sync::atomic::Ordering::SeqCst;

/// How many bytes of pixels there may be.
const VIDEO: u64 = 67_108_864;

/// The thread whose part answers what it may, and the one whose part answers nothing.
const APART: u32 = 0;

const OTHER: u32 = 1;

/// A thread and its call.
type Row = (u32, &'static str);

static ROWS: [Row; 58] = [
    (APART, "eglGetDisplay 0"),
    (APART, "eglInitialize 1"),
    (
        APART,
        "eglCreatePbufferSurface 1 4 [EGL_WIDTH,8,EGL_HEIGHT,8]",
    ),
    (
        APART,
        "eglCreatePbufferSurface 1 4 [EGL_WIDTH,8,EGL_HEIGHT,8]",
    ),
    (APART, "eglCreateContext 1 4 0 []"),
    (APART, "glClearColorx 65536 0 0 65536"),
    (APART, "glClear GL_COLOR_BUFFER_BIT"),
    (APART, "glGetError"),
    (APART, "glReadPixels 0 0 2 2 GL_RGBA GL_UNSIGNED_BYTE"),
    (APART, "eglGetCurrentContext"),
    (APART, "eglGetError"),
    // One surface to draw to and to read from.
    (APART, "eglMakeCurrent 1 3 3 5"),
    (OTHER, "eglGetDisplay 0"),
    (APART, "eglGetCurrentSurface EGL_DRAW"),
    (APART, "eglGetCurrentSurface EGL_READ"),
    (APART, "eglGetCurrentSurface 7"),
    (OTHER, "eglGetError"),
    (APART, "eglGetError"),
    (APART, "eglGetCurrentContext"),
    (APART, "eglGetCurrentDisplay"),
    (APART, "eglBindAPI EGL_OPENGL_ES_API"),
    (APART, "eglBindAPI 7"),
    (APART, "eglQueryAPI"),
    (APART, "glClearColorx 65536 0 0 65536"),
    (APART, "glClear GL_COLOR_BUFFER_BIT"),
    (
        OTHER,
        "eglCreatePbufferSurface 1 4 [EGL_WIDTH,8,EGL_HEIGHT,8]",
    ),
    (OTHER, "eglCreateContext 1 4 0 []"),
    (OTHER, "eglMakeCurrent 1 6 6 7"),
    (OTHER, "glClearColorx 0 65536 0 65536"),
    (OTHER, "glClear GL_COLOR_BUFFER_BIT"),
    (OTHER, "glReadPixels 0 0 2 2 GL_RGBA GL_UNSIGNED_BYTE"),
    (APART, "glReadPixels 0 0 2 2 GL_RGBA GL_UNSIGNED_BYTE"),
    (APART, "glClear 8"),
    (OTHER, "glGetError"),
    (OTHER, "glReadPixels 0 0 2 2 GL_RGBA GL_UNSIGNED_BYTE"),
    (APART, "glGetError"),
    (APART, "glGetError"),
    // What is current to one thread can't be to another.
    (OTHER, "eglMakeCurrent 1 3 3 7"),
    (OTHER, "eglGetError"),
    // Two surfaces: what is drawn isn't what is read.
    (APART, "eglMakeCurrent 1 3 4 5"),
    (APART, "glClearColorx 0 65536 0 65536"),
    (APART, "glClear GL_COLOR_BUFFER_BIT"),
    (OTHER, "eglDestroySurface 1 4"),
    (APART, "glReadPixels 0 0 2 2 GL_RGBA GL_UNSIGNED_BYTE"),
    (APART, "eglGetCurrentSurface EGL_READ"),
    (APART, "eglMakeCurrent 1 3 3 5"),
    (APART, "glReadPixels 0 0 2 2 GL_RGBA GL_UNSIGNED_BYTE"),
    (APART, "glFlush"),
    (OTHER, "census"),
    (OTHER, "eglTerminate 1"),
    (APART, "eglGetCurrentContext"),
    (APART, "glClear GL_COLOR_BUFFER_BIT"),
    (APART, "glReadPixels 0 0 2 2 GL_RGBA GL_UNSIGNED_BYTE"),
    (APART, "eglGetError"),
    (APART, "census"),
    (APART, "eglReleaseThread"),
    (OTHER, "eglReleaseThread"),
    (OTHER, "census"),
];

// A row's call, and how many were made by the part.
fn play_row<R: Abort + Wait>(
    rt: &R,
    alloc: Global,
    shared: &Shared,
    first: &mut Thread,
    second: &mut Thread,
    row: &Row,
    counted: &AtomicU64,
)
    requires { IsOf shared.now first.old × IsOf shared.now second.old }
    ensures { IsOf shared.now first.new × IsOf shared.now second.new }
{
    let (thread, text) = *row;
    if thread == APART {
        made(rt, alloc, shared, first, 0, text, true, counted);
        return;
    }
    made(rt, alloc, shared, second, 0, text, false, counted);
}

// All rows, of two tokens.
fn play_rows<R: Abort + Wait>(
    rt: &R,
    alloc: Global,
    shared: &Shared,
    first: &mut Thread,
    counted: &AtomicU64,
)
    requires { IsOf shared.now first.old }
    ensures { IsOf shared.now first.new }
{
    let Ok(mut second) = shared.attach(first, rt) else {
        panic!(rt; "no token");
    };
    'each: for row in &ROWS {
        play_row(rt, alloc, shared, first, &mut second, row, counted);
    }
    shared.join(first, rt, second);
}

#[test]
fn a_part_that_is_out_changes_no_reply(rt: HostRuntime) {
    let counted = AtomicU64::new(0);
    let Opened { shared, mut thread } = opened(&rt, rt.alloc(), VIDEO);
    play_rows(&rt, rt.alloc(), &shared, &mut thread, &counted);
    let run = finish(&rt, shared, thread);
    // The last is a census, of nothing.
    let census = run
        .journal
        .entry(57)
        .map(|entry| entry.reply.list.as_slice());
    assert_eq!(rt; (run.journal.len(), census), (58, Some([0; 11].as_slice())));
    assert!(rt;
        counted.load(SeqCst) > 20,
        "few calls were made by the part"
    );
    assert!(rt; is_replayed(&rt, rt.alloc(), &run.journal, 2, VIDEO));
}
