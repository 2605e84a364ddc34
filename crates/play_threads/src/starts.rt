//! The start of all workers at once.
use std::sync::Wait;
use std::sync::atomic::AtomicU64;
use std::sync::atomic::Ordering::SeqCst;
use std::time::Duration;

/// How long a worker sleeps at a time, in milliseconds.
const NAP: u64 = 50;

/// How often a worker sleeps while no other begins, before it closes the count.
const MOST_NAPS: u64 = 10;

/// What the word has at least, once the count is closed.
const CLOSED: u64 = 1 << 32;

/// How many workers have begun. A worker that can't have a thread of its own would begin behind another's end, and that one might wait for it.
#[derive(Drop)]
pub(crate) struct Start {
    begun: AtomicU64,
}

impl Start {
    pub(crate) fn new() -> Start {
        Start {
            begun: AtomicU64::new(0),
        }
    }

    /// Counts a worker in, and waits until all have begun. False where the count was closed before: then no worker plays a line.
    pub(crate) fn count_in<R: Wait>(&self, rt: &R, workers: u64) -> bool {
        let before = self.begun.fetch_add(1, SeqCst);
        if before.wrapping_add(1) == workers {
            self.begun.wake_all();
        }
        'waiting: for _ in rt.forever() {
            if let Some(all) = self.wait_for(rt, workers) {
                return all;
            }
        }
        unreachable!()
    }

    // Sleeps so often, and then closes the count, unless another worker begins meanwhile: then there is no answer yet.
    fn wait_for<R: Wait>(&self, rt: &R, workers: u64) -> Option<bool> {
        let begun = self.begun.load(SeqCst);
        'naps: for _nap in 0..MOST_NAPS {
            let now = self.begun.load(SeqCst);
            if now >= CLOSED {
                return Some(false);
            }
            if now >= workers {
                return Some(true);
            }
            self.begun
                .park_timeout(rt, (now % CLOSED) as u32, Duration::from_millis(NAP));
        }
        match self.begun.compare_exchange(begun, CLOSED, SeqCst, SeqCst) {
            Ok(_) => {
                self.begun.wake_all();
                Some(false)
            }
            Err(_) => None,
        }
    }
}
