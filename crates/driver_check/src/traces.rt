//! A trace of several threads, drawn by a fixed seed, whose runs are played again by one.
use crate::draws::Draws;
use crate::readings::read_text;
use crate::replays::is_replayed;
use egl_calls::Journal;
use play_threads::{OpenGate, play};
use std::alloc::Global;
use std::process::Abort;
use std::sync::Wait;
use std::thread::Threads;
use trace_reader::Trace;

const THREADS: u32 = 8;

/// How many steps are drawn, of one line to four each.
const STEPS: u32 = 16_600;

const RUNS: u32 = 20;

// The templates of steps, where `t` is a thread, `u` another one, and `a` a surface.

const SURFACE: &str = "{t} $s{+s} = eglCreatePbufferSurface 1 4 [EGL_WIDTH,{9},EGL_HEIGHT,{9}]\n";

const CONTEXT: &str = "{t} $c{+c} = eglCreateContext 1 4 0 []\n";

const CURRENT: &str = "{t} eglMakeCurrent 1 $s{a} $s{a} $c{-c}\n";

/// A fence, another thread's wait for it, and the flush that ends the wait.
const FENCE: &str =
    "{t} eglMakeCurrent 1 $s{a} $s{a} $c{-c}\n{t} $y{+y} = eglCreateSync 1 EGL_SYNC_FENCE []\n{u} eglClientWaitSync 1 $y{y} 0 EGL_FOREVER\n{t} glFlush\n";

/// A number that one thread posts and another awaits.
const MESSAGE: &str = "{t} post {+p}\n{u} await {p}\n";

const RED: &str = "{t} glClearColorx 65536 32768 0 65536\n";

const GREEN: &str = "{t} glClearColorx 0 257 514 0\n";

const CLEAR: &str = "{t} glClear GL_COLOR_BUFFER_BIT\n";

const READ: &str = "{t} glReadPixels 0 0 3 3 GL_RGBA GL_UNSIGNED_BYTE\n";

/// What each thread begins with, so that there is one of each kind to name.
const FIRST: [&str; 3] = ["{t} eglInitialize 1\n", SURFACE, CONTEXT];

/// All steps, of which each is drawn as often. Each line waits for lines above it, but for a client wait, whose flush stands right below it; so no run stalls. Once in a while all objects lose their handles, but those that are current go on.
static ALL: [&str; 64] = [
    SURFACE,
    SURFACE,
    SURFACE,
    SURFACE,
    CONTEXT,
    CONTEXT,
    CONTEXT,
    CURRENT,
    CURRENT,
    CURRENT,
    CURRENT,
    CURRENT,
    CURRENT,
    CURRENT,
    "{t} eglDestroySurface 1 $s{a}\n",
    "{t} eglDestroyContext 1 $c{-c}\n",
    "{t} eglDestroySync 1 $y{-y}\n",
    FENCE,
    FENCE,
    FENCE,
    MESSAGE,
    MESSAGE,
    MESSAGE,
    "{t} eglTerminate {16}\n{t} eglInitialize 1\n",
    RED,
    RED,
    RED,
    RED,
    GREEN,
    GREEN,
    GREEN,
    GREEN,
    CLEAR,
    CLEAR,
    CLEAR,
    CLEAR,
    CLEAR,
    READ,
    READ,
    READ,
    READ,
    READ,
    "{t} eglGetError\n",
    "{t} eglGetError\n",
    "{t} eglGetError\n",
    "{t} eglGetError\n",
    "{t} glGetError\n",
    "{t} glGetError\n",
    "{t} glGetError\n",
    "{t} glGetError\n",
    "{t} eglQueryAPI\n",
    "{t} eglQueryAPI\n",
    "{t} eglQueryAPI\n",
    "{t} eglQueryAPI\n",
    "{t} eglGetCurrentContext\n",
    "{t} eglGetCurrentContext\n",
    "{t} eglGetCurrentContext\n",
    "{t} eglGetCurrentContext\n",
    "{t} glFinish\n",
    "{t} glFinish\n",
    "{t} glFinish\n",
    "{t} census\n",
    "{t} census\n",
    "{t} census\n",
];

/// Adds the lines of a step, by a thread and another one.
fn put_step(
    rt: &impl Abort,
    alloc: Global,
    draws: &mut Draws,
    text: &mut String,
    thread: u32,
    template: &str,
) {
    draws.learn(b't', thread);
    let beside = thread.wrapping_add(1 + draws.next(THREADS - 1)) % THREADS;
    draws.learn(b'u', beside);
    let surface = draws.newest(b's');
    draws.learn(b'a', surface);
    draws.put(rt, alloc, text, template);
}

fn drawn(rt: &impl Abort, alloc: Global, seed: u64) -> String {
    let mut draws = Draws::new(seed);
    let mut text = format!(in alloc; "egl-trace 1 {THREADS}\n").expect(rt, "memory");
    for thread in 0..THREADS {
        for template in FIRST {
            put_step(rt, alloc, &mut draws, &mut text, thread, template);
        }
    }
    put_step(rt, alloc, &mut draws, &mut text, 0, FENCE);
    for _step in 0..STEPS {
        let thread = draws.next(THREADS);
        let template = ALL[draws.next(64) as usize];
        put_step(rt, alloc, &mut draws, &mut text, thread, template);
    }
    text
}

/// The journal of a run by threads at once.
fn played<R: Abort + AllocGlobal + Threads + Wait + Sync>(
    rt: &R,
    alloc: Global,
    trace: &Trace,
) -> Journal {
    match play(rt, alloc, trace, &OpenGate) {
        Ok(run) => run.journal,
        Err(_) => panic!(rt; "the run stalled, or found no memory"),
    }
}

#[test]
fn twenty_runs_of_eight_threads_are_replayed(rt: HostRuntime) {
    let alloc = rt.alloc();
    let trace = read_text(&rt, alloc, &drawn(&rt, alloc, 1));
    let lines = trace.lines().len() as u64;
    'runs: for _ in 0..RUNS {
        let journal = played(&rt, alloc, &trace);
        assert!(rt; journal.len() >= lines);
        assert!(rt; is_replayed(&rt, alloc, &journal, THREADS, trace.video()));
    }
}
