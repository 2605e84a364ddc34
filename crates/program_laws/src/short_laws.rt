//! Which traces are short.
ghost use Rattle.std.specs.Prelude.{◌≡◌, ◌↔◌, ◌≤◌, ℕ, List, length, Ok};
ghost use Rattle.trace_reader.specs.Grammar.{trace};
ghost use Rattle.trace_reader.specs.Traces.{TraceValue};
ghost use Rattle.egl_cli.specs.BodyLines.{most_raced, short_trace};

/// Bytes that spell a trace spell it as a short one exactly where it has at most 2,000 lines, and what they spell as a short one they spell as a trace.
pub fn a_short_trace_has_few_lines()
    ensures few { (b : List ℕ) (t : TraceValue) → trace b ≡ Ok t → (short_trace b ≡ Ok t) ↔ (length t.lines ≤ most_raced) }
    ensures alone { (b : List ℕ) (t : TraceValue) → short_trace b ≡ Ok t → trace b ≡ Ok t }
{}
