//! All outcomes of a trace.
ghost use Rattle.std.specs.Prelude.{IfOk};
ghost use Rattle.trace_session.specs.Chains.{AreChains};
ghost use Rattle.trace_outcomes.specs.Listings.{IsSearch, AreListed, IsListing};

use crate::found::Found;
use crate::histories::{Schedule, play_first, push_schedule};
use crate::ordering::in_order;
use crate::outcomes::Outcome;
use egl_calls::NoMemory;
use std::alloc::Global;
use trace_reader::Trace;
use trace_session::Chains;

/// How many histories are played at most.
pub const MOST_HISTORIES: u64 = 1_000_000;

/// All outcomes of a trace, each once, and how many histories the trace has.
#[derive(Drop)]
pub struct Listing {
    pub outcomes: Vec<Outcome>,
    pub histories: u64,
}

/// Plays history after history. The outcomes stand in the order in which they are met.
fn search(alloc: Global, trace: &Trace, chains: &Chains) -> Result<Option<Listing>, NoMemory>
    requires { AreChains trace.now chains.now }
    ensures { IfOk result (IsSearch trace.now) }
{
    let mut pending = Vec::new(alloc);
    let first = Schedule::new(alloc);
    push_schedule(&mut pending, first)?;
    let mut found = Found::new(alloc, trace.key());
    let mut histories = 0u64;
    'each: while let Some(schedule) = pending.pop() {
        if histories >= MOST_HISTORIES {
            return Ok(None);
        }
        let outcome = play_first(alloc, trace, chains, schedule, &mut pending)?;
        found.add(alloc, outcome)?;
        histories += 1;
    }
    Ok(Some(Listing {
        outcomes: found.into_outcomes(),
        histories,
    }))
}

/// The outcomes of all histories of a trace, each once: the first is that of the history in which the lowest thread that can go on always does, and the others rise by the first line that they answer otherwise. There is no listing where there are more histories than are played.
pub fn list_outcomes(alloc: Global, trace: &Trace) -> Result<Option<Listing>, NoMemory>
    ensures { IfOk result (IsListing trace.now) }
{
    let chains = Chains::new(alloc, trace)?;
    let Some(found) = search(alloc, trace, &chains)? else {
        return Ok(None);
    };
    let Listing {
        outcomes,
        histories,
    } = found;
    Ok(Some(Listing {
        outcomes: in_order(alloc, outcomes)?,
        histories,
    }))
}
