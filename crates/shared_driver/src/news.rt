//! Where threads sleep until what they wait for may have come.
ghost use Rattle.std.specs.Prelude.{◌≡◌, drop};

use crate::cores::Core;
use crate::sleepers::{BEDS, Sleepers, Wanted, Woken, bed_of};
use crate::tokens::{Shared, Thread};
use egl_calls::{Entry, Journal};
use std::array;
use std::sync::atomic::AtomicU64;
use std::sync::atomic::Ordering::SeqCst;
use std::sync::{Mutex, Wait};

// The entries of a journal from a place on.
fn entries_from(journal: &Journal, from: u64) -> &[Entry]
    ensures { result.now ≡ drop from journal.now.entries }
{
    let entries = journal.as_slice();
    let (_before, added) = entries.split_at((from as usize).min(entries.len()));
    added
}

/// The beds of the threads that sleep, and how often each was called to get up.
///
/// A thread whose wait can't end yet sleeps here, or one whose picker has nothing to do, since only another turn can change that. It takes its bed in the turn in which it looked, and each later turn calls those whom its entries can have freed. So none is missed, and who isn't called sleeps on without a turn. What frees a thread is told by `Sleepers`. No clause speaks of the rest: a thread that wakes takes a turn and looks again.
#[derive(Drop)]
pub(crate) struct News {
    sleepers: Mutex<Sleepers>,
    // how many beds are taken, so that a turn costs no look at them where all are empty
    taken: AtomicU64,
    calls: [AtomicU64; BEDS],
}

impl News {
    pub(crate) fn new() -> News {
        News {
            sleepers: Mutex::new(Sleepers::new()),
            taken: AtomicU64::new(0),
            calls: array::from_fn(|_| AtomicU64::new(0)),
        }
    }

    /// How often a token's bed was called. To be read before the turn in which it is taken, so that no call is missed.
    pub(crate) fn heard(&self, number: u32) -> Heard {
        let bed = bed_of(number);
        Heard {
            bed,
            calls: self.calls[bed].load(SeqCst),
        }
    }

    /// In its turn a token takes its bed, where it wants something.
    pub(crate) fn lie_down<R: Wait>(&self, rt: &R, number: u32, wanted: Option<Wanted>) {
        if let Some(wanted) = wanted {
            let mut sleepers = self.sleepers.lock(rt);
            sleepers.lie_down(number, wanted);
            self.taken.store(sleepers.taken(), SeqCst);
        }
    }

    /// In a turn: whether its entries, from a place of the journal on, can have freed one who sleeps.
    pub(crate) fn frees<R: Wait>(&self, rt: &R, core: &Core, from: u64) -> bool {
        if self.taken.load(SeqCst) == 0 {
            return false;
        }
        let sleepers = self.sleepers.lock(rt);
        sleepers.frees(&core.driver, entries_from(&core.journal, from))
    }

    /// In a turn: whom its entries, from a place of the journal on, can have freed. They are to be called once the turn is over.
    pub(crate) fn rouse<R: Wait>(&self, rt: &R, core: &Core, from: u64) -> Woken {
        if self.taken.load(SeqCst) == 0 {
            return Woken::nobody();
        }
        let mut sleepers = self.sleepers.lock(rt);
        let woken = sleepers.rouse(&core.driver, entries_from(&core.journal, from));
        self.taken.store(sleepers.taken(), SeqCst);
        woken
    }

    /// In a turn: all that sleep. They are to be called once the turn is over.
    pub(crate) fn rouse_all<R: Wait>(&self, rt: &R) -> Woken {
        if self.taken.load(SeqCst) == 0 {
            return Woken::nobody();
        }
        let mut sleepers = self.sleepers.lock(rt);
        let woken = sleepers.rouse_all();
        self.taken.store(sleepers.taken(), SeqCst);
        woken
    }

    /// The same of a turn with a pick: all that sleep, where nothing is left to be played for a token, since no entry may come any more.
    pub(crate) fn rouse_by<R: Wait>(&self, rt: &R, core: &Core, from: u64, stops: bool) -> Woken {
        if stops {
            self.rouse_all(rt)
        } else {
            self.rouse(rt, core, from)
        }
    }

    /// Calls those that a turn roused.
    pub(crate) fn call(&self, woken: &Woken) {
        if woken.is_nobody() {
            return;
        }
        'each: for bed in 0..BEDS {
            if woken.has(bed) {
                self.calls[bed].fetch_add(1, SeqCst);
                self.calls[bed].wake_all();
            }
        }
    }

    /// Sleeps until the bed is called again.
    pub(crate) fn sleep<R: Wait>(&self, rt: &R, heard: Heard) {
        let calls = &self.calls[heard.bed % BEDS];
        'asleep: for _ in rt.forever() {
            if calls.load(SeqCst) != heard.calls {
                return;
            }
            // The lowest 32 bits tell, as fewer calls come between the look and the sleep.
            calls.park(rt, (heard.calls % (1 << 32)) as u32);
        }
    }
}

/// How often a token's bed was called so far.
#[derive(Clone, Copy, Drop)]
pub struct Heard {
    bed: usize,
    calls: u64,
}

impl Shared {
    /// How often the token was called so far. A thread asks before a call that may be answered `Waited`, so that its sleep misses nothing that came meanwhile.
    pub fn heard(&self, thread: &Thread) -> Heard {
        self.news.heard(thread.hold.number)
    }

    /// Sleeps until an entry may have brought what the token's last pick waited for, or a thread gave up or has nothing left to play, or a token was made or joined. It may sleep for ever.
    pub fn sleep<R: Wait>(&self, rt: &R, heard: Heard) {
        self.news.sleep(rt, heard);
    }
}
