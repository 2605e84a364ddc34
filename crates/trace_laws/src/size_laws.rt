//! How large the numbers of a play are.
ghost use Rattle.std.specs.Prelude.{◌≡◌, ◌<◌, ◌^◌, ℕ, List, length, All, Ok};
ghost use Rattle.egl_calls.specs.declared.entries.Entry.{Entry};
ghost use Rattle.egl_model.specs.Sweep.{census};
ghost use Rattle.journal_text.specs.Written.{HasNumber};
ghost use Rattle.trace_check.specs.Recordings.{IsSized};
ghost use Rattle.trace_model.specs.Follows.{IsPlayOf};
ghost use Rattle.trace_model.specs.Serial.{state_behind};
ghost use Rattle.trace_reader.specs.Grammar.{trace};
ghost use Rattle.trace_reader.specs.Order.{IsTrace};
ghost use Rattle.trace_reader.specs.Traces.{TraceValue};
ghost use Rattle.trace_laws.specs.Sized.{HasSizedReply};

/// In each play of a trace that bytes spell, each mark has at most 64 bits and each window an id that may be declared; so the play is sized where its replies and its census are.
pub fn a_play_is_sized_by_its_replies()
    ensures marks { (b : List ℕ) (t : TraceValue) (journal : List Entry) → trace b ≡ Ok t → length b < 2 ^ 63 → IsPlayOf t journal → All (λ e. e.mark < 2 ^ 64) journal }
    ensures windows { (t : TraceValue) (journal : List Entry) → IsTrace t → All HasNumber (state_behind t journal).windows }
    ensures sized { (b : List ℕ) (t : TraceValue) (journal : List Entry) → trace b ≡ Ok t → length b < 2 ^ 63 → IsTrace t → IsPlayOf t journal → All HasSizedReply journal → All (λ n. n < 2 ^ 64) (census (state_behind t journal)) → IsSized t journal }
{}
