//! Which threads sleep, and what each waits for.
ghost use Rattle.std.specs.Prelude.{◌≡◌, ◌<◌, ◌%◌, ◌||◌, ℕ, true, false, not, replicate, slice_index_or, slice_set, if◌then◌else◌};
ghost use Rattle.std.specs.List.{list_any};
ghost use Rattle.shared_driver.specs.declared.sleepers.Bed.TheVariants.{Empty as EmptyBed};
ghost use Rattle.shared_driver.specs.Sleepers.{answers, brings, can_end, free, frees, is_post, is_post_of, is_signal, is_taken, with_token};

use driver_core::Driver;
use egl_calls::arguments::number;
use egl_calls::places::POSTED;
use egl_calls::{Entry, Kind, OwnKind, is_waiting};

/// How many tokens have a bed each. Of more, those whose numbers leave the same remainder share one.
pub(crate) const BEDS: usize = 32;

/// What a thread waits for that has nothing to play.
#[derive(Clone, Copy, Debug, PartialEq, Eq, Drop)]
pub enum Wanted {
    /// Any entry.
    Entry,
    /// A `post` of this number.
    Post(u64),
    /// The answer of a call with this mark.
    Answer(u64),
    /// That the sync is signalled for which its thread waits.
    Signal,
}

/// A place to sleep.
#[derive(Clone, Copy, Drop)]
enum Bed {
    Empty,
    Taken { number: u32, wanted: Wanted },
    /// Several tokens sleep here, and each entry wakes them.
    Shared,
}

/// The beds whose threads are to be woken.
#[derive(Clone, Copy, Drop)]
pub(crate) struct Woken {
    any: bool,
    beds: [bool; BEDS],
}

impl Woken {
    pub(crate) fn nobody() -> Woken
        ensures { (result.any ≡ false) × (result.beds ≡ replicate 32 false) }
    {
        Woken {
            any: false,
            beds: [false; BEDS],
        }
    }

    pub(crate) fn is_nobody(&self) -> bool
        ensures { result ≡ not self.now.any }
    {
        !self.any
    }

    pub(crate) fn has(&self, bed: usize) -> bool
        requires { bed < 32 }
        ensures { result ≡ slice_index_or self.now.beds bed false }
    {
        self.beds[bed]
    }

    fn add(&mut self, bed: usize)
        requires { bed < 32 }
        ensures { (self.new.any ≡ true) × (self.new.beds ≡ slice_set self.old.beds bed true) }
    {
        self.any = true;
        self.beds[bed] = true;
    }
}

/// The bed of a token.
pub(crate) fn bed_of(number: u32) -> usize
    ensures within { result < 32 }
    ensures value { result ≡ number % 32 }
{
    number as usize % BEDS
}

fn is_post(kind: Kind) -> bool
    ensures { result ≡ is_post kind }
{
    matches!(kind, Kind::Own(OwnKind::Post))
}

fn is_post_of(entry: &Entry, posted: u64) -> bool
    ensures { result ≡ is_post_of posted entry.now }
{
    is_post(entry.call.kind) && number(&entry.call, POSTED) == posted
}

fn answers(entry: &Entry, mark: u64) -> bool
    ensures { result ≡ answers mark entry.now }
{
    entry.mark == mark && !is_waiting(entry.reply.outcome)
}

// Whether an entry brings what a thread wants, whose wait can end or can't.
fn brings(wanted: Wanted, can_end: bool, entry: &Entry) -> bool
    ensures { result ≡ brings wanted can_end entry.now }
{
    match wanted {
        Wanted::Entry => true,
        Wanted::Post(posted) => is_post_of(entry, posted),
        Wanted::Answer(mark) => answers(entry, mark),
        Wanted::Signal => can_end,
    }
}

fn is_signal(wanted: Wanted) -> bool
    ensures { result ≡ is_signal wanted }
{
    matches!(wanted, Wanted::Signal)
}

impl Bed {
    // Whether the wait of its thread can end, where that waits for a sync. The driver tells: no call that signals is forgotten here.
    fn can_end(&self, driver: &Driver) -> bool
        ensures { result ≡ can_end driver.now self.now }
    {
        match *self {
            Bed::Empty => false,
            Bed::Taken { number, wanted } => {
                is_signal(wanted) && number < driver.threads() && driver.wait_ready(number)
            }
            Bed::Shared => false,
        }
    }

    // Whether an entry can have brought what its threads wait for. Each looks where a thread gave up.
    fn is_freed(&self, can_end: bool, entry: &Entry) -> bool
        ensures { result ≡ frees self.now can_end entry.now }
    {
        match *self {
            Bed::Empty => false,
            Bed::Taken { number: _, wanted } => entry.is_halt() || brings(wanted, can_end, entry),
            Bed::Shared => true,
        }
    }

    // Whether one of some entries can have done so.
    fn is_freed_by(&self, driver: &Driver, entries: &[Entry]) -> bool
        ensures { result ≡ free driver.now entries.now self.now }
    {
        let can_end = self.can_end(driver);
        'each: for entry in entries {
            if self.is_freed(can_end, entry) {
                return true;
            }
        }
        false
    }

    fn is_taken(&self) -> bool
        ensures { result ≡ is_taken self.now }
    {
        match self {
            Bed::Empty => false,
            Bed::Taken { .. } => true,
            Bed::Shared => true,
        }
    }

    // With one token more in it.
    fn with(self, number: u32, wanted: Wanted) -> Bed
        ensures { result ≡ with_token self number wanted }
    {
        match self {
            Bed::Empty => Bed::Taken { number, wanted },
            Bed::Taken { number: other, .. } => {
                if other == number {
                    Bed::Taken { number, wanted }
                } else {
                    Bed::Shared
                }
            }
            Bed::Shared => Bed::Shared,
        }
    }
}

/// The beds of all tokens. One is taken in the turn in which its thread has looked for what to play, and found nothing.
#[derive(Drop)]
pub(crate) struct Sleepers {
    beds: [Bed; BEDS],
}

impl Sleepers {
    pub(crate) fn new() -> Sleepers
        ensures { result.beds ≡ replicate 32 EmptyBed }
    {
        Sleepers {
            beds: [Bed::Empty; BEDS],
        }
    }

    /// A token takes its bed.
    pub(crate) fn lie_down(&mut self, number: u32, wanted: Wanted)
        ensures { self.new.beds ≡ slice_set self.old.beds (number % 32) (with_token (slice_index_or self.old.beds (number % 32) EmptyBed) number wanted) }
    {
        let bed = bed_of(number);
        self.beds[bed] = self.beds[bed].with(number, wanted);
    }

    /// Whether these entries, behind which the driver stands, can have freed a thread that sleeps.
    pub(crate) fn frees(&self, driver: &Driver, entries: &[Entry]) -> bool
        ensures { result ≡ list_any (free driver.now entries.now) self.now.beds }
    {
        let beds = self.beds.as_slice();
        'each: for bed in beds {
            if bed.is_freed_by(driver, entries) {
                return true;
            }
        }
        false
    }

    // Empties a bed, and notes it as woken, where its threads are to be.
    fn empty(&mut self, bed: usize, wakes: bool, woken: &mut Woken)
        requires { bed < 32 }
        ensures beds { self.new.beds ≡ (if wakes then slice_set self.old.beds bed EmptyBed else self.old.beds) }
        ensures woken { woken.new.beds ≡ (if wakes then slice_set woken.old.beds bed true else woken.old.beds) }
        ensures any { woken.new.any ≡ (wakes || woken.old.any) }
    {
        if wakes {
            self.beds[bed] = Bed::Empty;
            woken.add(bed);
        }
    }

    /// Empties the beds whose threads these entries, behind which the driver stands, can have freed. All of these are woken.
    pub(crate) fn rouse(&mut self, driver: &Driver, entries: &[Entry]) -> Woken
        ensures woken { (k : ℕ) → k < 32 → slice_index_or result.beds k false ≡ free driver.now entries.now (slice_index_or self.old.beds k EmptyBed) }
        ensures any { (k : ℕ) → slice_index_or result.beds k false ≡ true → result.any ≡ true }
        ensures beds { (k : ℕ) → k < 32 → slice_index_or self.new.beds k EmptyBed ≡ (if free driver.now entries.now (slice_index_or self.old.beds k EmptyBed) then EmptyBed else slice_index_or self.old.beds k EmptyBed) }
    {
        let mut woken = Woken::nobody();
        'each: for bed in 0..BEDS {
            let freed = self.beds[bed].is_freed_by(driver, entries);
            self.empty(bed, freed, &mut woken);
        }
        woken
    }

    /// Empties all beds. All that sleep are woken.
    pub(crate) fn rouse_all(&mut self) -> Woken
        ensures woken { (k : ℕ) → k < 32 → slice_index_or result.beds k false ≡ is_taken (slice_index_or self.old.beds k EmptyBed) }
        ensures any { (k : ℕ) → slice_index_or result.beds k false ≡ true → result.any ≡ true }
        ensures beds { (k : ℕ) → k < 32 → slice_index_or self.new.beds k EmptyBed ≡ (if is_taken (slice_index_or self.old.beds k EmptyBed) then EmptyBed else slice_index_or self.old.beds k EmptyBed) }
    {
        let mut woken = Woken::nobody();
        'each: for bed in 0..BEDS {
            let taken = self.beds[bed].is_taken();
            self.empty(bed, taken, &mut woken);
        }
        woken
    }

    /// How many beds are taken.
    pub(crate) fn taken(&self) -> u64 {
        let mut taken: u64 = 0;
        'each: for bed in 0..BEDS {
            if self.beds[bed].is_taken() {
                taken = taken.wrapping_add(1);
            }
        }
        taken
    }
}
