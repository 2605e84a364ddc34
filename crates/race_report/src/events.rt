//! The events of a run, as far as what orders them and what they touch.
ghost use Rattle.std.specs.Prelude.{◌≡◌};
ghost use Rattle.race_report.specs.Conflicts.{share, conflict};

use egl_calls::{List, Numbers};

/// An event: its thread, the places of events that lead to it beside those of its thread, and the numbers of what it reads and writes.
#[derive(Drop)]
pub struct Event {
    pub thread: u32,
    pub behind: List<u64>,
    pub reads: Numbers,
    pub writes: Numbers,
}

/// Whether two lists have a number in common.
fn share(some: &[i64], others: &[i64]) -> bool
    ensures { result ≡ share some.now others.now }
{
    'each: for number in some {
        if others.contains(number) {
            return true;
        }
    }
    false
}

/// Whether two events touch one thing, one of them by a write.
pub fn conflict(earlier: &Event, later: &Event) -> bool
    ensures { result ≡ conflict earlier.now later.now }
{
    let reads = earlier.reads.as_slice();
    let writes = earlier.writes.as_slice();
    let others = later.writes.as_slice();
    share(writes, others) || share(writes, later.reads.as_slice()) || share(reads, others)
}
