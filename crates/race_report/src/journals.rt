//! The events of a journal, whose entries are played again.
ghost use Rattle.std.specs.Prelude.{◌≡◌, ◌<◌, [], ◌∷◌, ◌++◌, All, IfOk};
ghost use Rattle.race_report.specs.Events.{event_of, events_of};
ghost use Rattle.race_report.specs.Leading.{ArePlaces};
ghost use Rattle.race_report.specs.Replays.{touched_from};

use crate::events::Event;
use crate::leading::{behind_of, places_of};
use driver_core::{Driver, Touches};
use egl_calls::{Entry, NoMemory};
use std::alloc::Global;
use trace_reader::Line;

/// The event of an entry that touches this.
fn event_of(
    alloc: Global,
    places: &[Option<u64>],
    lines: &[Line],
    entries: &[Entry],
    entry: &Entry,
    touches: Touches,
) -> Result<Event, NoMemory>
    requires { ArePlaces lines.now entries.now places.now }
    ensures { IfOk result (λ e. e ≡ event_of lines.now entries.now entry.now touches) }
{
    let behind = behind_of(alloc, places, lines, entries, entry)?;
    let Touches { reads, writes } = touches;
    Ok(Event {
        thread: entry.thread,
        behind,
        reads,
        writes,
    })
}

fn push(events: &mut Vec<Event>, event: Event) -> Result<(), NoMemory>
    ensures { IfOk result (λ _. events.new.items ≡ events.old.items ++ event ∷ []) }
{
    match events.push(event) {
        Ok(()) => Ok(()),
        Err(_) => Err(NoMemory),
    }
}

/// The events of all entries, by what each touches as a driver plays them.
#[tactic(auto, unfolding(crate::specs::Events::events_of))]
pub fn events_of(
    alloc: Global,
    driver: &mut Driver,
    lines: &[Line],
    entries: &[Entry],
) -> Result<Vec<Event>, NoMemory>
    requires { All (λ e. e.thread < driver.old.made) entries.now }
    ensures { IfOk result (λ es. es.items ≡ events_of lines.now entries.now (touched_from driver.old.state entries.now)) }
{
    let table = places_of(alloc, lines, entries)?;
    let places = table.as_slice();
    let mut events = Vec::new(alloc);
    'each: for entry in entries {
        let touches = driver.touches(alloc, entry.thread, &entry.call)?;
        let event = event_of(alloc, places, lines, entries, entry, touches)?;
        push(&mut events, event)?;
        driver.play(alloc, entry.thread, &entry.call)?;
    }
    Ok(events)
}
