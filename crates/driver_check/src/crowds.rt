//! Many threads with a token each.
ghost use Rattle.std.specs.Prelude.{All, vec_len, vec_capacity, ◌+◌, ◌<◌, ◌≤◌};
ghost use Rattle.shared_driver.specs.Tokens.{IsOf};

use crate::draws::Draws;
use crate::readings::call_of;
use crate::sides::played;
use egl_calls::{Journal, Outcome, Reply};
use keyed_hash::HashKey;
use shared_driver::{AttachError, Closed, Opened, Shared, Thread};
use std::alloc::Global;
use std::process::Abort;
use std::sync::Wait;
use std::sync::atomic::AtomicU64;
use std::sync::atomic::Ordering::SeqCst;
use std::thread;
use std::thread::Threads;

/// A driver with one token and no windows, with so much room for pixels.
pub fn opened<R: Abort>(rt: &R, alloc: Global, video: u64) -> Opened
    requires { video ≤ 1073741824 }
    ensures { IsOf result.shared result.thread }
{
    match Shared::open(alloc, &[], video) {
        Ok(opened) => opened,
        Err(_) => panic!(rt; "memory"),
    }
}

/// The same for at most so many tokens.
pub fn opened_for<R: Abort>(rt: &R, alloc: Global, video: u64, most: u32) -> Opened
    requires video { video ≤ 1073741824 }
    requires most { (1 ≤ most) × (most ≤ 65536) }
    ensures { IsOf result.shared result.thread }
{
    match Shared::open_for(alloc, HashKey::PLAIN, &[], video, most) {
        Ok(opened) => opened,
        Err(_) => panic!(rt; "memory"),
    }
}

/// What a thread's private part may answer.
static OWN: [&str; 21] = [
    "eglGetError",
    "eglBindAPI 1",
    "eglQueryAPI",
    "eglGetCurrentContext",
    "eglGetCurrentSurface 1",
    "eglGetCurrentDisplay",
    "glGetError",
    "glClearColorx 65536 {64} {64} {16}",
    "glClear 1",
    "glReadPixels 0 0 {16} {16} GL_RGBA GL_UNSIGNED_BYTE",
    "glPixelStorei GL_PACK_ALIGNMENT {5}",
    "glGetIntegerv GL_TEXTURE_BINDING_2D 0",
    "glDisable GL_SCISSOR_TEST",
    "glScissor {8} {8} {16} {16}",
    "glViewport 0 0 {16} {16}",
    "glColor4x 65536 {64} {64} {16}",
    "glColorMask 1 1 1 {2}",
    "glClearDepthx {64}",
    "glClearStencil {64}",
    "glTexEnvx GL_TEXTURE_ENV GL_TEXTURE_ENV_MODE GL_REPLACE",
    "eglGetDisplay 0",
];

/// Calls of each kind but the end of a wait, on what the thread made last, on few names, so that threads meet at them, and with small sides. A display is terminated seldom, so that objects live for a while.
static ANY: [&str; 89] = [
    "eglGetDisplay 0",
    "eglGetError",
    "eglInitialize 1",
    "eglTerminate {16}",
    "eglGetConfigs 1",
    "eglChooseConfig 1 []",
    "eglGetConfigAttrib 1 {64} {64}",
    "eglCreateWindowSurface 1 {64} {64} []",
    "$s = eglCreatePbufferSurface 1 4 [EGL_WIDTH,{16},EGL_HEIGHT,{16}]",
    "eglDestroySurface 1 {64}",
    "eglQuerySurface 1 {s} {64}",
    "eglSurfaceAttrib 1 {64} {64} {16}",
    "eglBindAPI 1",
    "eglQueryAPI",
    "$c = eglCreateContext 1 4 {64} []",
    "eglDestroyContext 1 {64}",
    "eglMakeCurrent 1 {s} {s} {c}",
    "eglGetCurrentContext",
    "eglGetCurrentSurface 1",
    "eglGetCurrentDisplay",
    "eglQueryContext 1 {c} {64}",
    "eglSwapBuffers 1 {64}",
    "eglWaitClient",
    "eglReleaseThread",
    "$y = eglCreateSync 1 EGL_SYNC_FENCE []",
    "eglDestroySync 1 {64}",
    "eglClientWaitSync 1 {y} 0 0",
    "eglWaitSync 1 {y} 0",
    "eglGetSyncAttrib 1 {64} {64}",
    "$i = eglCreateImage 1 {c} EGL_GL_TEXTURE_2D {16} []",
    "eglDestroyImage 1 {i}",
    "glGetError",
    "glFlush",
    "glFinish",
    "glClearColorx 65536 {64} {64} {16}",
    "glClear 1",
    "glReadPixels 0 0 {16} {16} GL_RGBA GL_UNSIGNED_BYTE",
    "glPixelStorei GL_PACK_ALIGNMENT {5}",
    "glGetIntegerv GL_TEXTURE_BINDING_2D 0",
    "glGenTextures {5}",
    "glDeleteTextures [{8},{8},0,0]",
    "glIsTexture {8}",
    "glBindTexture GL_TEXTURE_2D {8}",
    "glTexParameterx GL_TEXTURE_2D GL_TEXTURE_MIN_FILTER GL_NEAREST",
    "glTexParameteriv GL_TEXTURE_2D GL_TEXTURE_CROP_RECT_OES [0,0,4,4]",
    "glTexImage2D GL_TEXTURE_2D 0 GL_RGBA {5} {5} 0 GL_RGBA GL_UNSIGNED_BYTE -",
    "glTexSubImage2D GL_TEXTURE_2D 0 0 0 {5} {5} GL_RGBA GL_UNSIGNED_BYTE -",
    "glCopyTexImage2D GL_TEXTURE_2D 0 GL_RGBA 0 0 {5} {5} 0",
    "glCopyTexSubImage2D GL_TEXTURE_2D 0 0 0 0 0 {5} {5}",
    "glEnable GL_TEXTURE_2D",
    "glDisable GL_SCISSOR_TEST",
    "glScissor {8} {8} {16} {16}",
    "glViewport 0 0 {16} {16}",
    "glColor4x 65536 {64} {64} {16}",
    "glColorMask 1 1 1 {2}",
    "glClearDepthx {64}",
    "glClearStencil {64}",
    "glTexEnvx GL_TEXTURE_ENV GL_TEXTURE_ENV_MODE GL_REPLACE",
    "glDrawTexiOES {8} {8} 0 {16} {16}",
    "glDrawTexxOES {64} {64} 0 65536 65536",
    "glGenBuffers {16}",
    "glDeleteBuffers [{8},{8},0,0]",
    "glIsBuffer {8}",
    "glBindBuffer GL_ARRAY_BUFFER {8}",
    "glBufferData GL_ARRAY_BUFFER {64} GL_STATIC_DRAW -",
    "glBufferSubData GL_ELEMENT_ARRAY_BUFFER {16} {8} -",
    "glGetBufferParameteriv GL_ARRAY_BUFFER GL_BUFFER_SIZE",
    "glGenRenderbuffersOES {5}",
    "glDeleteRenderbuffersOES [{8},{8},0,0]",
    "glIsRenderbufferOES {8}",
    "glBindRenderbufferOES GL_RENDERBUFFER_OES {8}",
    "glRenderbufferStorageOES GL_RENDERBUFFER_OES GL_RGBA8_OES {5} {5}",
    "glGetRenderbufferParameterivOES GL_RENDERBUFFER_OES GL_RENDERBUFFER_WIDTH_OES",
    "glGenFramebuffersOES {5}",
    "glDeleteFramebuffersOES [{8},{8},0,0]",
    "glIsFramebufferOES {8}",
    "glBindFramebufferOES GL_FRAMEBUFFER_OES {8}",
    "glFramebufferTexture2DOES GL_FRAMEBUFFER_OES GL_COLOR_ATTACHMENT0_OES GL_TEXTURE_2D {8} 0",
    "glFramebufferRenderbufferOES GL_FRAMEBUFFER_OES GL_COLOR_ATTACHMENT0_OES GL_RENDERBUFFER_OES {8}",
    "glCheckFramebufferStatusOES GL_FRAMEBUFFER_OES",
    "glGetFramebufferAttachmentParameterivOES GL_FRAMEBUFFER_OES GL_COLOR_ATTACHMENT0_OES GL_FRAMEBUFFER_ATTACHMENT_OBJECT_TYPE_OES",
    "glEGLImageTargetTexture2DOES GL_TEXTURE_2D {i}",
    "glEGLImageTargetRenderbufferStorageOES GL_RENDERBUFFER_OES {i}",
    "post {64}",
    "await {64}",
    "census",
    "readFront 1",
    "readBuffer GL_ARRAY_BUFFER {16} {8}",
    "halt",
];

/// And those that make something, draw, or make current.
static FREQUENT: [&str; 20] = [
    "eglInitialize 1",
    "$s = eglCreatePbufferSurface 1 4 [EGL_WIDTH,{16},EGL_HEIGHT,{16}]",
    "$c = eglCreateContext 1 4 0 []",
    "$c = eglCreateContext 1 4 {c} []",
    "eglMakeCurrent 1 {s} {s} {c}",
    "eglMakeCurrent 1 {s} {s} {c}",
    "$y = eglCreateSync 1 EGL_SYNC_FENCE []",
    "$i = eglCreateImage 1 {c} EGL_GL_TEXTURE_2D {8} []",
    "glClear 1",
    "glReadPixels 0 0 {16} {16} GL_RGBA GL_UNSIGNED_BYTE",
    "glBindTexture GL_TEXTURE_2D {8}",
    "glTexImage2D GL_TEXTURE_2D 0 GL_RGBA {5} {5} 0 GL_RGBA GL_UNSIGNED_BYTE *16:0a141eff",
    "glDrawTexiOES {8} {8} 0 {16} {16}",
    "glBindBuffer GL_ELEMENT_ARRAY_BUFFER {8}",
    "glBufferData GL_ELEMENT_ARRAY_BUFFER {64} GL_STATIC_DRAW #01020304",
    "glBindRenderbufferOES GL_RENDERBUFFER_OES {8}",
    "glRenderbufferStorageOES GL_RENDERBUFFER_OES GL_RGBA8_OES {5} {5}",
    "glBindFramebufferOES GL_FRAMEBUFFER_OES {8}",
    "glFramebufferTexture2DOES GL_FRAMEBUFFER_OES GL_COLOR_ATTACHMENT0_OES GL_TEXTURE_2D {8} 0",
    "glFramebufferRenderbufferOES GL_FRAMEBUFFER_OES GL_DEPTH_ATTACHMENT_OES GL_RENDERBUFFER_OES {8}",
];

// The display's call, or one that the thread's part may answer, or any, of which half are frequent ones.
fn drawn(draws: &mut Draws, any: bool, own: bool) -> &'static str {
    if !any {
        "eglGetDisplay 0"
    } else if own {
        OWN[draws.next(21) as usize]
    } else if draws.next(2) == 0 {
        ANY[draws.next(89) as usize]
    } else {
        FREQUENT[draws.next(20) as usize]
    }
}

// Keeps the handle that a call made, under its letter.
fn learn(draws: &mut Draws, template: &str, reply: &Reply) {
    match template.as_bytes() {
        [b'$', letter, ..] if reply.outcome == Outcome::Done => {
            draws.learn(*letter, u32::try_from(reply.value).unwrap_or(0))
        }
        _ => {}
    }
}

/// Makes a call: on the token's own part, where that may answer it and is asked to.
pub fn made<R: Abort + Wait>(
    rt: &R,
    alloc: Global,
    shared: &Shared,
    thread: &mut Thread,
    mark: u64,
    text: &str,
    own: bool,
    counted: &AtomicU64,
) -> Reply
    requires { IsOf shared.now thread.old }
    ensures { IsOf shared.now thread.new }
{
    let call = call_of(rt, alloc, text);
    if own && thread.is_local(&call) {
        counted.fetch_add(1, SeqCst);
        let Ok(reply) = thread.local(alloc, mark, call) else {
            panic!(rt; "memory");
        };
        return reply;
    }
    played(rt, alloc, shared, thread, mark, call)
}

// Calls of one thread: the display's; or any, drawn by the token's number, of which half are such as its part may answer.
fn calls<R: Abort + Wait>(
    rt: &R,
    alloc: Global,
    shared: &Shared,
    thread: &mut Thread,
    any: bool,
    count: u64,
    counted: &AtomicU64,
)
    requires { IsOf shared.now thread.old }
    ensures { IsOf shared.now thread.new }
{
    let mut draws = Draws::new(u64::from(thread.number()));
    'calling: for mark in 0..count {
        let own = any && draws.next(2) == 0;
        let mut text = String::new(alloc);
        let template = drawn(&mut draws, any, own);
        draws.put(rt, alloc, &mut text, template);
        let reply = made(rt, alloc, shared, thread, mark, &text, own, counted);
        learn(&mut draws, template, &reply);
    }
}

/// Puts tokens into the room that there is.
pub fn attach<R: Wait>(
    rt: &R,
    shared: &Shared,
    thread: &mut Thread,
    tokens: &mut Vec<Thread>,
    threads: usize,
)
    requires owns { IsOf shared.now thread.old }
    requires tokens { All (λ t. IsOf shared.now t) tokens.old.items }
    requires room { vec_len tokens.old + threads ≤ vec_capacity tokens.old }
    ensures owns { IsOf shared.now thread.new }
    ensures tokens { All (λ t. IsOf shared.now t) tokens.new.items }
{
    'attaching: for _made in 0..threads {
        let Ok(token) = shared.attach(thread, rt) else {
            break 'attaching;
        };
        tokens.push_reserved(token);
    }
}

/// Joins tokens into one.
pub fn join_all<R: Wait>(rt: &R, shared: &Shared, thread: &mut Thread, mut tokens: Vec<Thread>)
    requires owns { IsOf shared.now thread.old }
    requires tokens { All (λ t. IsOf shared.now t) tokens.items }
    ensures { IsOf shared.now thread.new }
{
    'joining: while let Some(token) = tokens.pop() {
        shared.join(thread, rt, token);
    }
    tokens.destroy_empty();
}

/// Makes so many calls in each of so many threads, with tokens that it joins in the end: eglGetDisplay, or any. It answers how many of them the threads' parts answered.
pub fn crowd<R: Abort + Threads + Wait + Sync>(
    rt: &R,
    alloc: Global,
    shared: &Shared,
    thread: &mut Thread,
    threads: usize,
    any: bool,
    count: u64,
) -> u64
    requires owns { IsOf shared.now thread.old }
    requires threads { 0 < threads }
    ensures { IsOf shared.now thread.new }
{
    let counted = AtomicU64::new(0);
    let Ok(mut tokens) = Vec::with_capacity(alloc, threads) else {
        panic!(rt; "memory");
    };
    attach(rt, shared, thread, &mut tokens, threads);
    thread::for_each_mut(
        rt,
        tokens.as_mut_slice(),
        threads,
        &|_, t: &mut Thread|
            requires { IsOf shared.now t.now }
            ensures { IsOf shared.entry.now t.exit.now }
        { calls(rt, alloc, shared, t, any, count, &counted) },
    );
    join_all(rt, shared, thread, tokens);
    counted.load(SeqCst)
}

/// Attaches tokens and joins them, until there can be no more, and answers how many were made.
pub fn attached_all<R: Abort + Wait>(rt: &R, shared: &Shared, thread: &mut Thread) -> u32
    requires { IsOf shared.now thread.old }
    ensures { IsOf shared.now thread.new }
{
    'attaching: for made in 1..70_000u64 {
        match shared.attach(thread, rt) {
            Ok(other) => shared.join(thread, rt, other),
            Err(AttachError::Full { made }) => return made,
            Err(AttachError::NoMemory) => panic!(rt; "memory after {made} tokens"),
        }
    }
    0
}

/// What a closed driver leaves to look at.
#[derive(Drop)]
pub struct Ended {
    pub journal: Journal,
    /// How many threads the driver had.
    pub threads: u32,
}

/// Closes the driver, whose other tokens are all joined. The driver itself goes here, so that no test proves again that it may go.
pub fn finish<R: Abort + Wait>(rt: &R, shared: Shared, mut thread: Thread) -> Ended
    requires { IsOf shared thread }
{
    let live = shared.live(&mut thread, rt);
    if live != 1 {
        panic!(rt; "{live} tokens are live");
    }
    let Closed { driver, journal } = shared.close(thread);
    Ended {
        journal,
        threads: driver.threads(),
    }
}
