//! A source that waits for input that isn't there yet.
ghost use Rattle.std.specs.Prelude.{◌≡◌, ◌+◌};

use crate::reading::{Failed, Source};
use crate::streams::StdSource;
use std::io::Read;
use std::thread;
use std::time::{Clock, Duration};

/// How long it sleeps between two looks, in milliseconds: so much after it came may input be read.
const NAP: u64 = 1;

/// A source around one of std's readers as a source: where that has no input yet and doesn't block, it sleeps and looks again. It has no faults of its own: those that it counts are the inner source's.
#[derive(Drop)]
pub struct Waiting<'a, R: Drop, C> {
    source: StdSource<R>,
    clock: &'a C,
}

impl<'a, R: Read + Drop, C: Clock> Waiting<'a, R, C> {
    pub fn new(source: StdSource<R>, clock: &'a C) -> Waiting<'a, R, C>
        ensures { result.source ≡ source }
    {
        Waiting { source, clock }
    }
}

impl<'a, R: Read + Drop, C: Clock> Source for Waiting<'a, R, C> {
    ghost left = { λ s. R.remaining s.source.reader };

    ghost faults = { λ s. s.source.faults };

    /// It waits for as long as nothing comes. Behind 2^64 - 1 naps, which no run lives to see, the inner source's answer counts.
    #[tactic(auto, using(crate::proofs::StreamLaws::kept_none, crate::proofs::StreamLaws::kept_more, crate::proofs::StreamLaws::gave_later))]
    fn take(&mut self, into: &mut [u8]) -> Result<usize, Failed> {
        'naps: for _ in 0..u64::MAX {
            if let Some(n) = self.source.take_ready(into)? {
                return Ok(n);
            }
            thread::sleep(self.clock, Duration::from_millis(NAP));
        }
        self.source.take(into)
    }
}
