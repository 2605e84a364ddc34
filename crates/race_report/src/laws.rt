//! Laws over the definitions: contracts of functions that do nothing.
ghost use Rattle.std.specs.Prelude.{◌≡◌, ℕ, List, length};
ghost use Rattle.egl_calls.specs.Calls.{CallValue};
ghost use Rattle.egl_calls.specs.declared.entries.Entry.{Entry as AnEntry};
ghost use Rattle.egl_model.specs.State.{State};
ghost use Rattle.egl_model.specs.Step.{step};
ghost use Rattle.trace_reader.specs.declared.traces.Line.{Line as ALine};
ghost use Rattle.race_report.specs.declared.events.Event.{Event as AnEvent};
ghost use Rattle.race_report.specs.declared.reports.Pair.{Pair as APair};
ghost use Rattle.driver_facts.specs.declared.touches.Touches.{Touches as TheTouches};
ghost use Rattle.race_report.specs.Events.{events_of};
ghost use Rattle.race_report.specs.Order.{Leads};
ghost use Rattle.race_report.specs.Races.{AreRaces};
ghost use Rattle.driver_facts.specs.Touches.{touches_of};
ghost use Rattle.race_report.specs.Words.{LeadsIn};
ghost use Rattle.race_report.specs.Writes.{IsWrittenBy, left_out};

/// No two lists are the races of a run.
pub fn races_are_one_list()
    ensures { (events : List AnEvent) (some others : List APair) → AreRaces events some → AreRaces events others → some ≡ others }
{}

/// A place of a journal leads to another exactly where both are of one thread, or a variable, a post or a sync does.
pub fn places_lead_as_said()
    ensures only { (lines : List ALine) (journal : List AnEntry) (ts : List TheTouches) (i j : ℕ) → Leads (events_of lines journal ts) i j → LeadsIn lines journal i j }
    ensures all { (lines : List ALine) (journal : List AnEntry) (ts : List TheTouches) (i j : ℕ) → length ts ≡ length journal → LeadsIn lines journal i j → Leads (events_of lines journal ts) i j }
{}

/// What a call changes of textures, of storages, of buffers, of renderbuffers, of framebuffers and of what windows show is among what it writes; what else one of these objects may become is gone. One change is left out: where a deletion detaches what it deletes from the framebuffer that its context has bound, it doesn't write that framebuffer, which loses just what is written. So no other row of what calls touch forgets a write.
pub fn what_a_call_changes_is_written()
    ensures { (s : State) (t : ℕ) (c : CallValue) → IsWrittenBy (touches_of s t c) (left_out s t c) s (step s t c).state }
{}
