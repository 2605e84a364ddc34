//! Each read and each write of a run fails in turn, and a trace is cut off behind each of its bytes.
ghost use Rattle.std.specs.Prelude.{None};

use crate::commands::{answer, sink, source, status_of};
use crate::shared_texture::{RECORDING, TRACE};
use egl_flow::{Failed, Sink, Source};
use std::process::Abort;
use std::sync::Wait;
use std::thread::Threads;

/// The calls of a source or a sink: how many there were, and of these how many failed.
#[derive(Clone, Copy, Drop)]
struct Calls {
    made: u64,
    fails_at: u64,
    faults: u64,
}

impl Calls {
    fn failing_at(fails_at: u64) -> Calls {
        Calls {
            made: 0,
            fails_at,
            faults: 0,
        }
    }
}

/// A source that gives one byte a call, and fails at one of them.
#[derive(Drop)]
struct Trickle<'a> {
    rest: &'a [u8],
    calls: Calls,
}

impl<'a> Source for Trickle<'a> {
    ghost left = { λ s. None };

    ghost faults = { λ s. s.calls.faults };

    fn take(&mut self, into: &mut [u8]) -> Result<usize, Failed> {
        let call = self.calls.made;
        self.calls.made = call.saturating_add(1);
        if call == self.calls.fails_at {
            self.calls.faults = self.calls.faults.saturating_add(1);
            return Err(Failed);
        }
        let n = into.len().min(self.rest.len()).min(1);
        into[..n].copy_from_slice(&self.rest[..n]);
        self.rest = &self.rest[n..];
        Ok(n)
    }
}

/// A sink that takes one byte a call, and fails at one of them.
#[derive(Drop)]
struct Drip {
    bytes: Vec<u8>,
    calls: Calls,
}

impl Sink for Drip {
    ghost taken = { λ s. None };

    ghost faults = { λ s. s.calls.faults };

    fn give(&mut self, piece: &[u8]) -> Result<usize, Failed> {
        let call = self.calls.made;
        self.calls.made = call.saturating_add(1);
        let n = piece.len().min(1);
        if call == self.calls.fails_at || self.bytes.extend_from_slice(&piece[..n]).is_err() {
            self.calls.faults = self.calls.faults.saturating_add(1);
            return Err(Failed);
        }
        Ok(n)
    }
}

/// The commands that play a trace.
const PLAYERS: [&str; 2] = ["serial", "play"];

/// A display that is made and initialised.
const DISPLAY: &[u8] =
    b"egl-trace 1 1\n0 $d = eglGetDisplay 0\n0 eglInitialize $d\n0 eglGetError\n0 eglGetError\n";

const DISPLAY_RECORDING: &[u8] =
    b"recording\n0 2 ok 1 [] -\n0 3 ok 1 [] -\n0 4 ok EGL_SUCCESS [] -\n0 5 ok EGL_SUCCESS [] -\ncensus 0 0 0 0 0 0 0 0 0 0 0\nend\n";

/// A command that reads a byte a call, of which one fails, or is behind the last, which finds the end.
fn expect_read<R: Abort + AllocGlobal + Threads + Wait + Sync>(rt: &R, word: &str, call: u64) {
    let mut source = Trickle {
        rest: DISPLAY,
        calls: Calls::failing_at(call),
    };
    let mut sink = sink(rt, rt.alloc(), 200, -1);
    let status = status_of(rt, word, &mut source, &mut sink);
    let wanted = if call <= DISPLAY.len() as u64 {
        (3, b"read fault\n".as_slice())
    } else {
        (0, DISPLAY_RECORDING)
    };
    assert_eq!(rt; (status, sink.taken()), wanted, "{word} {call}");
}

#[test]
fn each_read_that_fails_is_a_read_fault(rt: HostRuntime) {
    for word in PLAYERS {
        for call in 0..DISPLAY.len() as u64 + 2 {
            expect_read(&rt, word, call);
        }
    }
}

/// A command that writes a byte a call, of which one fails: those before are written.
fn expect_write<R: Abort + AllocGlobal + Threads + Wait + Sync>(rt: &R, word: &str, call: usize) {
    let mut source = source(rt, rt.alloc(), TRACE.as_bytes(), -1);
    let mut sink = Drip {
        bytes: Vec::new(rt.alloc()),
        calls: Calls::failing_at(call as u64),
    };
    let status = status_of(rt, word, &mut source, &mut sink);
    let wanted = if call < RECORDING.len() { 5 } else { 0 };
    let (front, _) = RECORDING.split_at(call.min(RECORDING.len()));
    assert_eq!(rt;
        (status, sink.bytes.as_slice()),
        (wanted, front),
        "{word} {call}"
    );
}

#[test]
fn each_write_that_fails_leaves_a_front_part(rt: HostRuntime) {
    for word in PLAYERS {
        for call in 0..RECORDING.len() + 1 {
            expect_write(&rt, word, call);
        }
    }
}

/// A texture whose mirror image is drawn at twice its size.
const MIRRORED: &[u8] =
    b"egl-trace 1 1\n0 $d = eglGetDisplay 0\n0 eglInitialize $d\n0 $s = eglCreatePbufferSurface $d 4 [EGL_WIDTH,4,EGL_HEIGHT,4]\n0 $c = eglCreateContext $d 4 0 []\n0 eglMakeCurrent $d $s $s $c\n0 $t = glGenTextures 1\n0 glBindTexture GL_TEXTURE_2D $t.0\n0 glTexParameterx GL_TEXTURE_2D GL_TEXTURE_MIN_FILTER GL_NEAREST\n0 glTexEnvx GL_TEXTURE_ENV GL_TEXTURE_ENV_MODE GL_REPLACE\n0 glTexImage2D GL_TEXTURE_2D 0 GL_RGBA 2 2 0 GL_RGBA GL_UNSIGNED_BYTE #010101ff020202ff030303ff040404ff\n0 glTexParameteriv GL_TEXTURE_2D GL_TEXTURE_CROP_RECT_OES [2,0,-2,2]\n0 glEnable GL_TEXTURE_2D\n0 glDrawTexiOES 0 0 0 4 4\n0 glReadPixels 0 0 4 1 GL_RGBA GL_UNSIGNED_BYTE\n";

/// A front part of a trace is played, or malformed in the line in which it ends.
fn expect_cut<R: Abort + AllocGlobal + Threads + Wait + Sync>(rt: &R, front: &[u8]) {
    let (status, sink) = answer(rt, "serial", front, 65_536);
    let line = front
        .iter()
        .filter(|byte| **byte == b'\n')
        .count()
        .wrapping_add(1);
    let wanted = match status {
        0 => String::from_str(rt.alloc(), "recording\n"),
        _ => format!(in rt.alloc(); "malformed {line} "),
    };
    let wanted = wanted.expect(rt, "memory");
    assert!(rt; status == 0 || status == 4, "line {line}");
    assert!(rt; sink.taken().starts_with(wanted.as_bytes()), "line {line}");
}

#[test]
fn a_trace_is_cut_off_behind_each_byte(rt: HostRuntime) {
    for count in 0..MIRRORED.len() {
        let (front, _) = MIRRORED.split_at(count);
        expect_cut(&rt, front);
    }
    assert_eq!(rt; answer(&rt, "serial", MIRRORED, 65_536).0, 0);
}
