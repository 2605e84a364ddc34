//! Laws over the definitions: what the histories and the outcomes of a trace are, whoever looks for them.
ghost use Rattle.std.specs.Prelude.{◌≡◌, List, map, Some};
ghost use Rattle.egl_calls.specs.declared.entries.Entry.{Entry};
ghost use Rattle.journal_text.specs.declared.recordings.RecordedLine.{RecordedLine};
ghost use Rattle.trace_check.specs.Verdicts.{verdict};
ghost use Rattle.trace_check.specs.declared.verdicts.Verdict.TheVariants.{Holds};
ghost use Rattle.trace_reader.specs.Order.{IsTrace};
ghost use Rattle.trace_reader.specs.Traces.{TraceValue};
ghost use Rattle.trace_outcomes.specs.Histories.{histories};
ghost use Rattle.trace_outcomes.specs.Outcomes.{OutcomeValue, key_of, outcomes};
ghost use Rattle.trace_outcomes.specs.Recordings.{AreAlike, HaveOneOutcome, IsRecorded, recorded_outcome};
ghost use Rattle.trace_outcomes.specs.Plays.{IsAmong, IsHistory, HasOutcome, IsListed, AreDistinct, RiseByDifference};

/// The histories are exactly the journals that play the trace to the end of all its threads, or until none can go on, and no two of them are the same.
pub fn histories_are_all_plays()
    ensures sound { (t : TraceValue) (journal : List Entry) → IsTrace t → IsAmong journal (histories t) → IsHistory t journal }
    ensures complete { (t : TraceValue) (journal : List Entry) → IsTrace t → IsHistory t journal → IsAmong journal (histories t) }
    ensures once { (t : TraceValue) → AreDistinct (histories t) }
{}

/// Each outcome that is listed is that of a history, whose order it has; each history has one of them; no two of them are alike; and those behind the first rise by the first line that they answer otherwise than it.
pub fn outcomes_are_those_of_all_plays()
    ensures sound { (t : TraceValue) (o : OutcomeValue) → IsTrace t → IsAmong o (outcomes t) → HasOutcome t o }
    ensures complete { (t : TraceValue) (journal : List Entry) → IsTrace t → IsHistory t journal → IsListed t journal (outcomes t) }
    ensures once { (t : TraceValue) → AreDistinct (map key_of (outcomes t)) }
    ensures rising { (t : TraceValue) → RiseByDifference (outcomes t) }
{}

/// A recording has an outcome exactly where one that is the same but for the numbers of handles holds: the outcome is that of the journal whose recording holds, and it is listed; and recordings that are the same but for those numbers have one outcome.
pub fn a_recording_has_an_outcome_where_one_like_it_holds()
    ensures sound { (t : TraceValue) (lines : List RecordedLine) (o : OutcomeValue) → IsTrace t → recorded_outcome t lines ≡ Some o → IsRecorded t lines o }
    ensures complete { (t : TraceValue) (lines others : List RecordedLine) → verdict t others ≡ Holds → AreAlike t lines others → HaveOneOutcome t lines others }
{}
