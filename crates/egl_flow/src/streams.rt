//! std's readers and writers as a source and a sink. They tell of the bytes what std tells: all where the bytes are in memory, and nothing of a terminal, which is the trusted edge.
ghost use Rattle.std.specs.Prelude.{◌≡◌, ◌+◌, ◌<◌, ◌≤◌, length, take, OnOk, IfOk, OnErr, IfSome, IfNone};
ghost use Rattle.std.specs.Io.KnownBytes.{Keeps};
ghost use Rattle.egl_flow.specs.Flow.{HasRisen, Gave, AtEnd};

use crate::reading::{Failed, Source};
use crate::writing::Sink;
use std::io::{ErrorKind, Read, Write};

/// How often a read or a write that a signal broke off is tried again before it counts as a fault.
const TRIES: u32 = 1000;

/// A reader of std as a source.
#[derive(Drop)]
pub struct StdSource<R: Drop> {
    reader: R,
    faults: u64,
}

impl<R: Read + Drop> StdSource<R> {
    pub fn new(reader: R) -> StdSource<R>
        ensures reader { result.reader ≡ reader }
        ensures faults { result.faults ≡ 0 }
    {
        StdSource { reader, faults: 0 }
    }

    /// Takes some bytes as `take` does, and gives None where the reader says that none are there yet: then it has taken none, and that is no fault.
    #[tactic(auto, using(crate::proofs::StreamLaws::kept_none, crate::proofs::StreamLaws::kept_more, crate::proofs::StreamLaws::gave_behind))]
    pub fn take_ready(&mut self, into: &mut [u8]) -> Result<Option<usize>, Failed>
        ensures within { IfOk result (λ taken. IfSome taken (λ n. n ≤ length into.old)) }
        ensures moved { IfOk result (λ taken. IfSome taken (λ n. Gave (R.remaining self.old.reader) (take n into.new) (R.remaining self.new.reader))) }
        ensures ended { IfOk result (λ taken. IfSome taken (λ n. n ≡ 0 → 0 < length into.old → AtEnd (R.remaining self.new.reader))) }
        ensures kept { IfOk result (λ taken. IfNone taken (Keeps (R.remaining self.old.reader) (R.remaining self.new.reader))) }
        ensures steady { OnOk result (self.new.faults ≡ self.old.faults) }
        ensures failed { OnErr result (HasRisen self.old.faults self.new.faults) }
        ensures count { self.old.faults ≤ self.new.faults }
    {
        'tries: for _ in 0..TRIES {
            match self.reader.read(into) {
                Ok(n) => return Ok(Some(n)),
                Err(error) => {
                    if error.kind() == ErrorKind::WouldBlock {
                        return Ok(None);
                    }
                    if error.kind() != ErrorKind::Interrupted {
                        break;
                    }
                }
            }
        }
        self.faults = self.faults.saturating_add(1);
        Err(Failed)
    }
}

impl<R: Read + Drop> Source for StdSource<R> {
    ghost left = { λ s. R.remaining s.reader };

    ghost faults = { λ s. s.faults };

    /// Input that isn't there yet counts as a fault here: `Waiting` waits for it.
    fn take(&mut self, into: &mut [u8]) -> Result<usize, Failed> {
        if let Some(n) = self.take_ready(into)? {
            return Ok(n);
        }
        self.faults = self.faults.saturating_add(1);
        Err(Failed)
    }
}

/// A writer of std as a sink. The writer keeps nothing back: it has no buffer of its own.
#[derive(Drop)]
pub struct StdSink<W: Drop> {
    writer: W,
    faults: u64,
}

impl<W: Write + Drop> StdSink<W> {
    pub fn new(writer: W) -> StdSink<W>
        ensures writer { result.writer ≡ writer }
        ensures faults { result.faults ≡ 0 }
    {
        StdSink { writer, faults: 0 }
    }
}

impl<W: Write + Drop> Sink for StdSink<W> {
    ghost taken = { λ s. W.contents s.writer };

    ghost faults = { λ s. s.faults };

    #[tactic(auto, using(crate::proofs::StreamLaws::kept_none, crate::proofs::StreamLaws::kept_more, crate::proofs::StreamLaws::took_behind, crate::proofs::StreamLaws::took_none))]
    fn give(&mut self, piece: &[u8]) -> Result<usize, Failed> {
        'tries: for _ in 0..TRIES {
            match self.writer.write(piece) {
                Ok(n) => {
                    if n > 0 || piece.is_empty() {
                        return Ok(n);
                    }
                    break;
                }
                Err(error) => {
                    if error.kind() != ErrorKind::Interrupted {
                        break;
                    }
                }
            }
        }
        self.faults = self.faults.saturating_add(1);
        Err(Failed)
    }
}
