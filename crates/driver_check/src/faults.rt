//! Faults of reading and writing, and inputs and generated traces at the limit.
use crate::commands::{answer, sink, source, status_of, words};
use crate::readings::read_text;
use egl_cli::plain;
use std::alloc::Global;
use std::process::Abort;
use std::sync::Wait;
use std::thread::Threads;

const HEADER: &str = "egl-trace 1 1\n";

const EMPTY_RECORDING: &str = "recording\ncensus 0 0 0 0 0 0 0 0 0 0 0\nend\n";

const USAGE: &str =
    "usage: egl_cli serial | play [summary] | check | configs | gen N THREADS SEED | compose W H | scene | races\n";

/// The most bytes that an input may have.
const MOST_BYTES: usize = 33_554_432;

/// A command and its input, which spaces fill up to so many bytes; the call at which its source fails, the room of its sink, and the call at which that fails, where -1 is none; the exit status, and all that is written.
type Row = (
    &'static str,
    &'static str,
    usize,
    i64,
    u64,
    i64,
    u8,
    &'static str,
);

static ROWS: [Row; 39] = [
    // Nothing is read, so no read fails.
    ("", HEADER, 0, 0, 200, -1, 2, USAGE),
    ("frob", HEADER, 0, 0, 200, -1, 2, USAGE),
    ("frob", "", 0, -1, 5, -1, 5, "usage"),
    ("configs", "", 0, 0, 300, 0, 5, ""),
    ("configs", "", 0, 0, 0, -1, 5, ""),
    ("configs", "", 0, 0, 7, -1, 5, "1 5 6 5"),
    // Three calls give the bytes, and a fourth says that it was all.
    ("serial", HEADER, 20_000, 0, 100, -1, 3, "read fault\n"),
    ("serial", HEADER, 20_000, 1, 100, -1, 3, "read fault\n"),
    ("serial", HEADER, 20_000, 3, 100, -1, 3, "read fault\n"),
    ("serial", HEADER, 20_000, 4, 100, -1, 0, EMPTY_RECORDING),
    ("play", HEADER, 20_000, 0, 100, -1, 3, "read fault\n"),
    ("play", HEADER, 20_000, 1, 100, -1, 3, "read fault\n"),
    ("play", HEADER, 20_000, 3, 100, -1, 3, "read fault\n"),
    ("play", HEADER, 20_000, 4, 100, -1, 0, EMPTY_RECORDING),
    ("compose 2 2", HEADER, 0, 0, 100, -1, 3, "read fault\n"),
    ("compose 2 2", HEADER, 0, -1, 100, -1, 0, "end\n"),
    ("compose 2 2", "", 0, -1, 100, -1, 4, "malformed 1 Header\n"),
    // A sink that is full is a write fault in place of every status.
    ("serial", "", 0, -1, 5, -1, 5, "malfo"),
    ("serial", "", 0, 0, 5, -1, 5, "read "),
    ("serial", HEADER, 0, -1, 5, -1, 5, "recor"),
    ("serial", HEADER, 0, -1, 0, -1, 5, ""),
    (
        "serial",
        "egl-trace 1 1\n0 await 1\n",
        0,
        -1,
        5,
        -1,
        5,
        "recor",
    ),
    ("play", "", 0, -1, 5, -1, 5, "malfo"),
    ("play", "", 0, 0, 5, -1, 5, "read "),
    ("play", HEADER, 0, -1, 5, -1, 5, "recor"),
    ("play", HEADER, 0, -1, 0, -1, 5, ""),
    (
        "play",
        "egl-trace 1 1\n0 await 1\n",
        0,
        -1,
        5,
        -1,
        5,
        "recor",
    ),
    ("compose 2 2", "", 0, 0, 5, -1, 5, "read "),
    ("compose 2 2", HEADER, 0, -1, 2, -1, 5, "en"),
    ("check", "", 0, 0, 100, -1, 3, "read fault\n"),
    ("check", "", 0, 0, 5, -1, 5, "read "),
    ("races", "", 0, 0, 100, -1, 3, "read fault\n"),
    ("races", "", 0, 0, 5, -1, 5, "read "),
    // Inputs of as many bytes as there may be, and of one more.
    (
        "serial",
        HEADER,
        MOST_BYTES,
        -1,
        100,
        -1,
        0,
        EMPTY_RECORDING,
    ),
    (
        "serial",
        HEADER,
        MOST_BYTES + 1,
        -1,
        100,
        -1,
        8,
        "too long\n",
    ),
    ("play", HEADER, MOST_BYTES + 1, -1, 100, -1, 8, "too long\n"),
    (
        "compose 2 2",
        HEADER,
        MOST_BYTES + 1,
        -1,
        100,
        -1,
        8,
        "too long\n",
    ),
    (
        "check",
        HEADER,
        MOST_BYTES + 1,
        -1,
        100,
        -1,
        8,
        "too long\n",
    ),
    (
        "races",
        HEADER,
        MOST_BYTES + 1,
        -1,
        100,
        -1,
        8,
        "too long\n",
    ),
];

/// An input with spaces behind it up to so many bytes.
fn padded(rt: &impl Abort, alloc: Global, front: &str, bytes: usize) -> Vec<u8> {
    let mut input = Vec::from_slice(alloc, front.as_bytes()).expect(rt, "memory");
    input
        .resize(bytes.max(front.len()), b' ')
        .expect(rt, "memory");
    input
}

fn expect_row<R: AllocGlobal + Abort + Threads + Wait + Sync>(rt: &R, place: usize, row: &Row) {
    let (command, front, bytes, read, room, write, wanted, text) = *row;
    let input = padded(rt, rt.alloc(), front, bytes);
    let mut source = source(rt, rt.alloc(), &input, read);
    let mut sink = sink(rt, rt.alloc(), room, write);
    let status = status_of(rt, command, &mut source, &mut sink);
    assert_eq!(rt;
        (status, sink.taken()),
        (wanted, text.as_bytes()),
        "row {place}"
    );
}

#[test]
fn faults_and_inputs_at_the_limit_are_told(rt: HostRuntime) {
    for (place, row) in ROWS.iter().enumerate() {
        expect_row(&rt, place, row);
    }
}

#[test]
fn play_is_no_command_without_threads(rt: HostRuntime) {
    let words = words(&rt, rt.alloc(), "play");
    let mut sink = sink(&rt, rt.alloc(), 200, -1);
    let mut source = source(&rt, rt.alloc(), HEADER.as_bytes(), 0);
    let status = plain(rt.alloc(), &words, &mut source, &mut sink);
    assert_eq!(rt; (status.number(), sink.taken()), (2, USAGE.as_bytes()));
}

/// The words that generate as many lines as there may be, for as many threads.
const LONGEST: &str = "gen 90000 16 9223372036854775807";

#[test]
fn the_longest_generated_trace_is_read(rt: HostRuntime) {
    let (status, sink) = answer(&rt, LONGEST, b"", 8_388_608);
    let text = str::from_utf8(sink.taken()).expect(&rt, "a trace is text");
    let trace = read_text(&rt, rt.alloc(), text);
    assert_eq!(rt; (status, trace.threads()), (0, 16));
    assert!(rt; trace.lines().len() >= 90_000);
}
