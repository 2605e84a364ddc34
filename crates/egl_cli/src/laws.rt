//! What is true of the program's texts: the contracts of functions that do nothing.
ghost use Rattle.std.specs.Prelude.{◌≡◌, ◌≤◌, ℕ, List, ◌++◌, length, codes, Ok};
ghost use Rattle.egl_calls.specs.declared.entries.Entry.{Entry};
ghost use Rattle.egl_flow.specs.Inputs.{most_input};
ghost use Rattle.egl_flow.specs.declared.statuses.Status.TheVariants.{Ok as Fine};
ghost use Rattle.trace_reader.specs.Grammar.{trace};
ghost use Rattle.trace_reader.specs.Order.{IsTrace};
ghost use Rattle.trace_reader.specs.Traces.{TraceValue};
ghost use Rattle.trace_model.specs.Follows.{IsPlayOf};
ghost use Rattle.trace_model.specs.Recording.{recording};
ghost use Rattle.trace_model.specs.Stalled.{IsComplete};
ghost use Rattle.trace_check.specs.Recordings.{IsSized};
ghost use Rattle.egl_cli.specs.Answers.{check_answer};
ghost use Rattle.egl_cli.specs.ConfigLines.{configs_text, printed_configs};

/// The text that the table of the configs makes is this one, byte by byte.
#[tactic(auto, using(crate::proofs::ConfigLaws::text_is))]
pub fn configs_are_printed_so()
    ensures { configs_text ≡ printed_configs }
{}

/// What `serial` and `play` record of a run to its end, `check` answers `holds` to, where it stands behind the trace: of each journal that plays the trace to the end of all threads, by numbers that the machine has.
pub fn a_recording_behind_its_trace_holds()
    ensures { (front : List ℕ) (t : TraceValue) (journal : List Entry) → trace (front ++ codes "\n") ≡ Ok t → IsTrace t → IsPlayOf t journal → IsComplete t journal → IsSized t journal → length (front ++ codes "\n" ++ recording t journal) ≤ most_input → check_answer (front ++ codes "\n" ++ recording t journal) ≡ record { status = Fine; text = codes "holds\n" } }
{}
