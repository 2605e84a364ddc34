//! Threads of a trace that run at once.
use crate::commands::{answer, sink, source};
use crate::local_lines::is_reached;
use egl_cli::{Gate, play_words};
use std::process::Abort;
use std::sync::Wait;
use std::sync::atomic::AtomicU64;
use std::sync::atomic::Ordering::SeqCst;
use std::thread::Threads;

/// One line of thread 0, and two of thread 1 behind it.
const THREE_LINES: &[u8] = b"egl-trace 1 2\n0 eglGetError\n1 eglGetError\n1 eglGetError\n";

/// Keeps thread 0 before its first line until thread 1 has come to its second, or the limit is reached.
#[derive(Drop)]
struct Meeting {
    came: AtomicU64,
    met: AtomicU64,
}

impl Gate for Meeting {
    fn before(&self, thread: u32, line: u64) {
        if thread == 1 && line == 4 {
            self.came.store(1, SeqCst);
        }
        if thread == 0 && is_reached(&self.came) {
            self.met.store(1, SeqCst);
        }
    }

    fn is_open(&self) -> bool {
        false
    }
}

#[test]
fn two_at_once(rt: HostRuntime) {
    let alloc = rt.alloc();
    let gate = Meeting {
        came: AtomicU64::new(0),
        met: AtomicU64::new(0),
    };
    let mut sink = sink(&rt, alloc, 200, -1);
    let mut source = source(&rt, alloc, THREE_LINES, -1);
    let status = play_words(&rt, alloc, false, &mut source, &mut sink, &gate);
    assert_eq!(rt; (status.number(), gate.met.load(SeqCst)), (0, 1));
}

/// Thread 0 waits for a fence of thread 1, which flushes.
const WAIT: &[u8] =
    b"egl-trace 1 2\n1 $d = eglGetDisplay 0\n1 eglInitialize $d\n1 $s = eglCreatePbufferSurface $d 4 [EGL_WIDTH,1,EGL_HEIGHT,1]\n1 $c = eglCreateContext $d 4 0 []\n1 eglMakeCurrent $d $s $s $c\n1 $y = eglCreateSync $d EGL_SYNC_FENCE []\n0 eglClientWaitSync $d $y 0 EGL_FOREVER\n1 glFlush\n";

/// The recordings that a run of it may have: the wait begins before the flush or behind it.
static RECORDINGS: [&[u8]; 2] = [
    b"recording\n1 2 ok 1 [] -\n1 3 ok 1 [] -\n1 4 ok 3 [] -\n1 5 ok 4 [] -\n1 6 ok 1 [] -\n1 7 ok 5 [] -\n0 8 waiting 0 [] -\n1 9 ok 0 [] -\n0 8 ok EGL_CONDITION_SATISFIED [] -\ncensus 1 1 1 0 0 0 1 1 0 1 4\nend\n",
    b"recording\n1 2 ok 1 [] -\n1 3 ok 1 [] -\n1 4 ok 3 [] -\n1 5 ok 4 [] -\n1 6 ok 1 [] -\n1 7 ok 5 [] -\n1 9 ok 0 [] -\n0 8 ok EGL_CONDITION_SATISFIED [] -\ncensus 1 1 1 0 0 0 1 1 0 1 4\nend\n",
];

#[test]
fn a_wait_ends_by_another_threads_flush(rt: HostRuntime) {
    let [before, behind] = RECORDINGS;
    for _run in 0..20 {
        let (status, sink) = answer(&rt, "play", WAIT, 65_536);
        let is_one = sink.taken() == before || sink.taken() == behind;
        assert_eq!(rt; (status, is_one), (0, true));
    }
}
