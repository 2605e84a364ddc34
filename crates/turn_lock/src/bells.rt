//! Where threads sleep until their turn comes.
use std::array;
use std::sync::Wait;
use std::sync::atomic::AtomicU64;
use std::sync::atomic::Ordering::SeqCst;

// Waiting tickets follow one another, so up to so many waiting threads have a bell each.
const BELLS: usize = 16;

/// A row of words to sleep on, one for every ticket that leaves the same remainder.
///
/// A turn that is passed on so wakes the thread whose turn it is, where one word for all would wake every thread that waits.
/// The words are no part of the lock's rule: a thread that wakes for no reason looks again.
#[derive(Drop)]
pub(crate) struct Bells {
    rings: [AtomicU64; BELLS],
}

impl Bells {
    pub(crate) fn new() -> Bells {
        Bells {
            rings: array::from_fn(|_| AtomicU64::new(0)),
        }
    }

    fn bell(&self, ticket: u64) -> &AtomicU64 {
        &self.rings[(ticket % BELLS as u64) as usize]
    }

    /// How often the ticket's bell was rung. To be read before the look that a sleep follows, so that no ring is missed.
    pub(crate) fn heard(&self, ticket: u64) -> u64 {
        self.bell(ticket).load(SeqCst)
    }

    /// Sleeps until the ticket's bell is rung again after `heard`. It may also return for no reason.
    pub(crate) fn sleep<R: Wait>(&self, rt: &R, ticket: u64, heard: u64) {
        // A bell is rung at most 4,096 times while a ticket waits, so the lowest 32 bits tell.
        self.bell(ticket).park(rt, (heard % (1 << 32)) as u32);
    }

    /// Wakes the threads that sleep until this ticket is served.
    pub(crate) fn ring(&self, ticket: u64) {
        let bell = self.bell(ticket);
        bell.fetch_add(1, SeqCst);
        bell.wake_all();
    }
}
