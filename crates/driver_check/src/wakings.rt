//! Threads that sleep are woken, and by nothing else than what they wait for. A run that a lost call leaves asleep is cut off.
use crate::readings::read_text;
use play_threads::{Gate, OpenGate, play};
use std::alloc::Global;
use std::process::Abort;
use std::sync::Wait;
use std::thread;
use std::thread::Threads;
use std::time::{Clock, Duration};
use trace_reader::Trace;
use trace_session::RunError;

/// How often each trace is played, by each gate.
const RUNS: u32 = 10;

/// How long thread 0 is kept before each of its lines, so that others sleep by then, in microseconds. A sleep lasts no longer where other programs keep the processors, as looks with a yield between would.
const NAP: u64 = 500;

/// A fence of thread 0, for which the others wait.
const FENCE: &str =
    "egl-trace 1 4\n0 $d = eglGetDisplay 0\n0 eglInitialize $d\n0 $s = eglCreatePbufferSurface $d 4 [EGL_WIDTH,1,EGL_HEIGHT,1]\n0 $c = eglCreateContext $d 4 0 []\n0 eglMakeCurrent $d $s $s $c\n0 $y = eglCreateSync $d EGL_SYNC_FENCE []\n1 eglClientWaitSync $d $y 0 EGL_FOREVER\n2 eglClientWaitSync $d $y 0 EGL_FOREVER\n3 await 1\n0 post 1\n";

/// All wait for one another before their end, since a thread that comes to its end calls all: so nobody is called by that.
const BEHIND: &str =
    "1 post 5\n2 post 6\n3 post 7\n0 await 5\n0 await 6\n0 await 7\n0 post 8\n1 await 8\n2 await 8\n3 await 8\n";

/// Lines, and how many runs of them come to their end; the others stall.
type Row = (&'static str, u32);

/// What comes of that fence.
static FENCES: [Row; 22] = [
    ("0 glFlush\n", 20),
    ("0 glFinish\n", 20),
    ("0 eglMakeCurrent $d 0 0 0\n", 20),
    ("0 eglReleaseThread\n", 20),
    ("0 eglWaitClient\n", 20),
    ("0 eglSwapBuffers $d $s\n", 20),
    ("0 eglWaitSync $d $y 0\n", 20),
    ("0 eglClientWaitSync $d $y 1 0\n", 20),
    // The end of a wait, whose line has an answer then.
    (
        "0 glFlush\n0 $z = eglCreateSync $d EGL_SYNC_FENCE []\n1 $w = eglClientWaitSync $d $z 0 EGL_FOREVER\n3 eglInitialize $w\n0 eglGetError\n0 glFlush\n",
        20,
    ),
    // Another context in its place, and the same once more.
    (
        "0 $e = eglCreateContext $d 4 0 []\n0 eglMakeCurrent $d $s $s $e\n",
        20,
    ),
    ("0 eglMakeCurrent $d $s $s $c\n", 20),
    // The context ends, once its thread lets go.
    ("0 eglDestroyContext $d $c\n0 eglReleaseThread\n", 20),
    ("0 eglDestroyContext $d $c\n0 eglMakeCurrent $d 0 0 0\n", 20),
    ("3 eglTerminate $d\n0 eglReleaseThread\n", 20),
    // Its sync is destroyed meanwhile.
    ("3 eglDestroySync $d $y\n0 glFlush\n", 20),
    ("0 glFlush\n0 eglDestroySync $d $y\n", 20),
    ("0 eglGetError\n", 0),
    ("0 eglDestroyContext $d $c\n", 0),
    ("0 eglClientWaitSync $d $y 0 0\n", 0),
    ("0 glReadPixels 0 0 1 1 GL_RGBA GL_UNSIGNED_BYTE\n", 0),
    ("0 eglDestroySurface $d $s\n", 0),
    ("3 eglReleaseThread\n", 0),
];

/// Whole traces.
static TRACES: [Row; 12] = [
    // An answer, one without a turn, and two.
    (
        "egl-trace 1 2\n0 $d = eglGetDisplay 0\n1 eglInitialize $d\n1 post 1\n0 await 1\n",
        20,
    ),
    (
        "egl-trace 1 2\n0 $a = eglQueryAPI\n1 eglInitialize $a\n1 post 1\n0 await 1\n",
        20,
    ),
    (
        "egl-trace 1 3\n0 $a = eglGetDisplay 0\n0 $b = eglInitialize 2\n1 eglMakeCurrent $a $b $b $b\n2 eglInitialize $b\n1 post 1\n2 post 2\n0 await 1\n0 await 2\n",
        20,
    ),
    // A post, and posts there and back.
    (
        "egl-trace 1 3\n0 post 7\n1 await 7\n2 await 7\n1 post 1\n2 post 2\n0 await 1\n0 await 2\n",
        20,
    ),
    (
        "egl-trace 1 2\n0 post 1\n1 await 1\n1 post 2\n0 await 2\n0 post 3\n1 await 3\n1 post 4\n0 await 4\n",
        20,
    ),
    // Posts whose numbers are alike in their lowest bits, and the largest.
    (
        "egl-trace 1 2\n0 post 70000\n1 await 70000\n1 post 1\n0 await 1\n",
        20,
    ),
    (
        "egl-trace 1 2\n0 post 65537\n0 post 131073\n1 await 131073\n1 post 1\n0 await 1\n",
        20,
    ),
    (
        "egl-trace 1 2\n0 post 2147483647\n1 await 2147483647\n1 post 131072\n0 await 131072\n",
        20,
    ),
    ("egl-trace 1 2\n0 post 65537\n1 await 1\n", 0),
    // Two that wait, one of three that comes to its end, and all but the first.
    ("egl-trace 1 2\n0 await 1\n1 await 2\n", 0),
    ("egl-trace 1 3\n0 eglGetError\n1 await 1\n2 await 1\n", 0),
    (
        "egl-trace 1 4\n0 post 1\n1 await 1\n2 await 1\n2 await 2\n3 await 3\n",
        0,
    ),
];

/// Keeps thread 0 before each of its lines.
#[derive(Clone, Copy, Drop)]
struct LateGate<'a, R> {
    rt: &'a R,
}

impl<'a, R: Clock> Gate for LateGate<'a, R> {
    fn before(&self, thread: u32, _line: u64) {
        if thread == 0 {
            thread::sleep(self.rt, Duration::from_micros(NAP));
        }
    }

    fn is_open(&self) -> bool {
        false
    }
}

// How many of some runs come to their end.
fn ends<R: Abort + Threads + Wait + Sync, G: Gate + Sync>(
    rt: &R,
    alloc: Global,
    trace: &Trace,
    gate: &G,
) -> u32 {
    let mut count = 0u32;
    for _run in 0..RUNS {
        match play(rt, alloc, trace, gate) {
            Ok(_) => count = count.wrapping_add(1),
            Err(RunError::Stalled(_)) => {}
            Err(RunError::NoMemory) => panic!(rt; "memory"),
        }
    }
    count
}

// So many runs of a trace end, by both gates.
fn expect_ends<R: Abort + Threads + Wait + Clock + Sync>(
    rt: &R,
    alloc: Global,
    text: &str,
    wanted: u32,
) {
    let trace = read_text(rt, alloc, text);
    let at_once = ends(rt, alloc, &trace, &OpenGate);
    let late = ends(rt, alloc, &trace, &LateGate { rt });
    assert_eq!(rt; at_once.wrapping_add(late), wanted, "{text}");
}

#[test]
fn fences_free_those_who_wait(rt: HostRuntime) {
    for (lines, wanted) in &FENCES {
        let text = format!(in rt.alloc(); "{FENCE}{lines}{BEHIND}").expect(&rt, "memory");
        expect_ends(&rt, rt.alloc(), &text, *wanted);
    }
}

#[test]
fn answers_and_posts_free_those_who_wait(rt: HostRuntime) {
    for (text, wanted) in &TRACES {
        expect_ends(&rt, rt.alloc(), text, *wanted);
    }
}

// So many threads pass a post round, so often.
fn ring(rt: &impl Abort, alloc: Global, threads: u32, rounds: u32) -> String {
    let mut text = format!(in alloc; "egl-trace 1 {threads}\n0 post 0\n").expect(rt, "memory");
    for place in 1..rounds {
        let (thread, before) = (place % threads.max(1), place.saturating_sub(1));
        let lines = format!(in alloc; "{thread} await {before}\n{thread} post {place}\n");
        text.push_str(&lines.expect(rt, "memory"))
            .expect(rt, "memory");
    }
    text
}

#[test]
fn a_post_goes_round(rt: HostRuntime) {
    // Where two pass it there and back, one looks while the other posts.
    for (threads, rounds) in [(16, 48), (2, 400)] {
        let text = ring(&rt, rt.alloc(), threads, rounds);
        expect_ends(&rt, rt.alloc(), &text, 20);
    }
}
