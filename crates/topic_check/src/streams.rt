//! The adapters over std, and reading and writing where there is enough memory.
use egl_calls::{Bytes, Numbers};
use egl_flow::{
    Failed, MemorySink, MemorySource, Sink, Source, StdSink, StdSource, Waiting, WriteFault,
    read_all, write_all,
};
use std::alloc::Global;
use std::io;
use std::io::{ErrorKind, Read, Write};
use std::process::Abort;
use std::sync::atomic::AtomicU64;
use std::sync::atomic::Ordering::SeqCst;
use std::time::{Clock, Duration};

/// Gives one byte a call, is broken off by a signal at its first call, and fails at the third.
#[derive(Drop)]
struct Stutters {
    calls: u64,
}

impl Read for Stutters {
    fn read(&mut self, buf: &mut [u8]) -> io::Result<usize> {
        self.calls = self.calls.saturating_add(1);
        if self.calls == 1 {
            return Err(io::Error::from(ErrorKind::Interrupted));
        }
        if self.calls == 3 || buf.is_empty() {
            return Err(io::Error::from(ErrorKind::BrokenPipe));
        }
        buf[0] = b'x';
        Ok(1)
    }
}

impl Write for Stutters {
    fn write(&mut self, buf: &[u8]) -> io::Result<usize> {
        self.calls = self.calls.saturating_add(1);
        if self.calls == 1 {
            return Err(io::Error::from(ErrorKind::Interrupted));
        }
        if self.calls == 3 {
            return Ok(0);
        }
        Ok(buf.len().min(1))
    }

    fn flush(&mut self) -> io::Result<()> {
        Ok(())
    }
}

#[test]
fn readers_are_tried_again_and_then_fail(rt: HostRuntime) {
    let mut source = StdSource::new(Stutters { calls: 0 });
    let mut buffer = [0; 4];
    assert!(rt; source.take(&mut buffer) == Ok(1));
    assert!(rt; buffer[0] == b'x');
    assert!(rt; source.take(&mut buffer) == Err(Failed));
}

#[test]
fn writers_that_take_nothing_fail(rt: HostRuntime) {
    let mut sink = StdSink::new(Stutters { calls: 0 });
    assert!(rt; sink.give(b"ab") == Ok(1));
    assert!(rt; sink.give(b"b") == Err(Failed));
    assert!(rt; sink.give(b"") == Ok(0));
}

/// Input that comes late: at every third call it gives the next byte of a text, or its end, and else there is none yet.
#[derive(Drop)]
struct LateInput {
    calls: u64,
    text: &'static [u8],
}

impl Read for LateInput {
    fn read(&mut self, buf: &mut [u8]) -> io::Result<usize> {
        self.calls = self.calls.saturating_add(1);
        if self.calls % 3 != 0 {
            return Err(io::Error::from(ErrorKind::WouldBlock));
        }
        let n = buf.len().min(self.text.len()).min(1);
        buf[..n].copy_from_slice(&self.text[..n]);
        self.text = &self.text[n..];
        Ok(n)
    }
}

fn late(text: &'static [u8]) -> StdSource<LateInput> {
    StdSource::new(LateInput { calls: 0, text })
}

/// A clock that counts the naps.
#[derive(Drop)]
struct Naps {
    count: AtomicU64,
}

impl Clock for Naps {
    fn monotonic(&self) -> io::Result<Duration> {
        Ok(Duration::ZERO)
    }

    fn since_1970(&self) -> io::Result<Duration> {
        Ok(Duration::ZERO)
    }

    fn sleep(&self, _duration: Duration) {
        self.count.fetch_add(1, SeqCst);
    }
}

#[test]
fn input_that_comes_late_is_waited_for(rt: HostRuntime) {
    let clock = Naps {
        count: AtomicU64::new(0),
    };
    let mut source = Waiting::new(late(b"abc"), &clock);
    let all = read_all(rt.alloc(), &mut source, 3).expect(&rt, "memory is ample");
    assert!(rt; all.as_slice() == b"abc".as_slice());
    // Two for each byte, and two for the end.
    assert!(rt; clock.count.load(SeqCst) == 8);
}

#[test]
fn nobody_waits_without_waiting(rt: HostRuntime) {
    let mut buffer = [0; 4];
    let mut source = late(b"x");
    assert!(rt; source.take_ready(&mut buffer) == Ok(None));
    assert!(rt; source.take(&mut buffer) == Err(Failed));
    assert!(rt; source.take_ready(&mut buffer) == Ok(Some(1)));
    assert!(rt; buffer[0] == b'x');
}

#[test]
fn who_waits_fails_where_the_reader_fails(rt: HostRuntime) {
    let mut source = Waiting::new(StdSource::new(Stutters { calls: 0 }), &rt);
    let mut buffer = [0; 4];
    assert!(rt; source.take(&mut buffer) == Ok(1));
    assert!(rt; source.take(&mut buffer) == Err(Failed));
}

fn bytes(rt: &impl Abort, alloc: Global, bytes: &[u8]) -> Bytes {
    Bytes::from_vec(Vec::from_slice(alloc, bytes).expect(rt, "memory is ample"))
}

fn sink(rt: &impl Abort, alloc: Global, room: u64) -> MemorySink {
    MemorySink::new(alloc, room, Numbers::new(alloc)).expect(rt, "memory is ample")
}

#[test]
fn a_full_sink_has_the_front(rt: HostRuntime) {
    let mut sink = sink(&rt, rt.alloc(), 2);
    let written = write_all(&mut sink, &bytes(&rt, rt.alloc(), b"abc"));
    assert!(rt; written == Err(WriteFault));
    assert!(rt; sink.taken() == b"ab".as_slice());
}

const LONGEST: u64 = 33_554_432;

/// As many bytes as the longest input has.
fn longest(rt: &impl Abort, alloc: Global) -> Bytes {
    Bytes::from_vec(vec![in alloc; b'x'; LONGEST as usize].expect(rt, "memory is ample"))
}

/// Want of memory that is answered at will, past some length, shows here.
#[test]
fn the_longest_input_is_read(rt: HostRuntime) {
    let mut source = MemorySource::new(longest(&rt, rt.alloc()), Numbers::new(rt.alloc()));
    let all = read_all(rt.alloc(), &mut source, LONGEST).expect(&rt, "memory is ample");
    assert!(rt; all.len() == LONGEST);
}

/// So it does here.
#[test]
fn as_many_bytes_are_written(rt: HostRuntime) {
    let mut sink = sink(&rt, rt.alloc(), LONGEST);
    assert!(rt; write_all(&mut sink, &longest(&rt, rt.alloc())) == Ok(()));
    assert!(rt; sink.taken().len() == LONGEST as usize);
}
