//! Laws of verdicts.
ghost use Rattle.std.specs.Prelude.{◌≡◌, ℕ, List, ◌++◌, codes, Ok, None};
ghost use Rattle.egl_calls.specs.declared.entries.Entry.{Entry};
ghost use Rattle.trace_reader.specs.Grammar.{trace};
ghost use Rattle.trace_reader.specs.Order.{IsTrace};
ghost use Rattle.trace_reader.specs.Traces.{TraceValue};
ghost use Rattle.trace_model.specs.Follows.{IsPlayOf};
ghost use Rattle.trace_model.specs.Recording.{recording};
ghost use Rattle.trace_model.specs.Stalled.{IsComplete};
ghost use Rattle.journal_text.specs.Cuts.{cut_recording};
ghost use Rattle.journal_text.specs.Readings.{recorded};
ghost use Rattle.journal_text.specs.declared.recordings.RecordedLine.{RecordedLine};
ghost use Rattle.trace_check.specs.Recordings.{IsRecordingOf, lines_recorded, IsSized, AreReadAndHold, IsRecording};
ghost use Rattle.trace_check.specs.Verdicts.{verdict};
ghost use Rattle.trace_check.specs.declared.verdicts.Verdict.TheVariants.{Holds};

/// What holds is the recording of a journal that plays the trace to the end of all its threads.
pub fn what_holds_is_a_recording()
    ensures { (t : TraceValue) (lines : List RecordedLine) → IsTrace t → verdict t lines ≡ Holds → IsRecordingOf t lines }
{}

/// The recording of each journal that plays a trace to the end of all its threads holds.
pub fn each_recording_holds()
    ensures { (t : TraceValue) (journal : List Entry) → IsTrace t → IsPlayOf t journal → IsComplete t journal → verdict t (lines_recorded t journal) ≡ Holds }
{}

/// What is written of a journal that plays a trace to the end of all its threads is read back, and holds; and what is read and holds is, byte for byte, the recording of such a journal.
pub fn what_is_written_holds()
    ensures read { (t : TraceValue) (journal : List Entry) (first_line : ℕ) → IsTrace t → IsPlayOf t journal → IsSized t journal → recorded first_line (recording t journal) ≡ Ok (lines_recorded t journal) }
    ensures holds { (t : TraceValue) (journal : List Entry) (first_line : ℕ) → IsTrace t → IsPlayOf t journal → IsComplete t journal → IsSized t journal → AreReadAndHold t first_line (recording t journal) }
    ensures alone { (t : TraceValue) (bytes : List ℕ) (first_line : ℕ) → IsTrace t → AreReadAndHold t first_line bytes → IsRecording t bytes }
{}

/// No line of a trace is the first of a recording, so that a recording behind a trace begins where the trace ends.
pub fn no_line_of_a_trace_begins_a_recording()
    ensures { (front : List ℕ) (t : TraceValue) → trace (front ++ codes "\n") ≡ Ok t → cut_recording front ≡ None }
{}
