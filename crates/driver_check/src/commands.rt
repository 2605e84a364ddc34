//! Runs a command on bytes in memory.
use egl_calls::{Bytes, Numbers, Text};
use egl_cli::{OpenGate, top};
use egl_flow::{MemorySink, MemorySource, Sink, Source};
use std::alloc::Global;
use std::process::Abort;
use std::sync::Wait;
use std::thread::Threads;

/// The words of a command, which stand in one text.
pub fn words(rt: &impl Abort, alloc: Global, command: &str) -> Vec<Text> {
    let mut texts = Vec::new(alloc);
    for word in command.split_whitespace() {
        let bytes = Vec::from_slice(alloc, word.as_bytes()).expect(rt, "memory");
        texts.push(Text::from_vec(bytes)).expect(rt, "memory");
    }
    texts
}

/// A source of an input, which fails at a call; -1 is none.
pub fn source(rt: &impl Abort, alloc: Global, input: &[u8], fails: i64) -> MemorySource {
    let bytes = Vec::from_slice(alloc, input).expect(rt, "memory");
    let fails = Vec::from_slice(alloc, &[fails]).expect(rt, "memory");
    MemorySource::new(Bytes::from_vec(bytes), Numbers::from_vec(fails))
}

/// A sink of so much room, which fails at a call; -1 is none.
pub fn sink(rt: &impl Abort, alloc: Global, room: u64, fails: i64) -> MemorySink {
    let fails = Vec::from_slice(alloc, &[fails]).expect(rt, "memory");
    MemorySink::new(alloc, room, Numbers::from_vec(fails)).expect(rt, "memory")
}

/// The exit status of a command.
pub fn status_of<R: Abort + AllocGlobal + Threads + Wait + Sync, S: Source, K: Sink>(
    rt: &R,
    command: &str,
    source: &mut S,
    sink: &mut K,
) -> u8 {
    let words = words(rt, rt.alloc(), command);
    top(rt, rt.alloc(), &words, source, sink, &OpenGate).number()
}

/// What a command gives to a sink of so much room, of an input: its exit status, and the sink.
pub fn answer<R: Abort + AllocGlobal + Threads + Wait + Sync>(
    rt: &R,
    command: &str,
    input: &[u8],
    room: u64,
) -> (u8, MemorySink) {
    let mut source = source(rt, rt.alloc(), input, -1);
    let mut sink = sink(rt, rt.alloc(), room, -1);
    let status = status_of(rt, command, &mut source, &mut sink);
    (status, sink)
}
