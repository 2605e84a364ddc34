//! The races of a run, whose journal is played again.
ghost use Rattle.std.specs.Prelude.{◌<◌, All, IfOk};
ghost use Rattle.race_report.specs.Replays.{AreRacesOf};

use crate::journals::events_of;
use crate::reports::{Pair, races};
use driver_core::Run;
use egl_calls::{List, NoMemory};
use std::alloc::Global;
use trace_reader::Trace;
use trace_session::driver_of;

/// The races of a run of a trace: all pairs of places of its journal, counted from 0, whose entries are of different threads and touch one object or front, one of them by a write, where nothing orders the first before the second. They rise by the first place and then by the second.
///
/// A new driver plays the journal's calls again, so while this runs there are the objects of two drivers.
#[tactic(auto, unfolding(crate::specs::Replays::AreRacesOf))]
pub fn report(alloc: Global, trace: &Trace, run: &Run) -> Result<List<Pair>, NoMemory>
    requires { All (λ e. e.thread < trace.now.threads) run.now.journal.entries }
    ensures { IfOk result (λ pairs. AreRacesOf trace.now run.now.journal.entries pairs) }
{
    let mut driver = driver_of(alloc, trace)?;
    let entries = run.journal.as_slice();
    let events = events_of(alloc, &mut driver, trace.lines(), entries)?;
    races(alloc, events.as_slice())
}
