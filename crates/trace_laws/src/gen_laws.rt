//! What `gen` writes.
ghost use Rattle.std.specs.Prelude.{◌≡◌, ◌+◌, ◌*◌, ◌<◌, ◌≤◌, ℕ, [], length, slice_index_or, Ok};
ghost use Rattle.std.specs.Str.Lines.{lines};
ghost use Rattle.trace_gen.specs.Generated.{generated};
ghost use Rattle.trace_reader.specs.Grammar.{trace};
ghost use Rattle.trace_reader.specs.Header.{header_of};
ghost use Rattle.trace_reader.specs.Traces.{TraceValue};
ghost use Rattle.trace_reader.specs.Words.{words};

/// What `gen` writes from three numbers has fifteen lines for each thread and as many more as the first number says, and its first line is the header of a trace with that many threads; so where it is a trace it has them, and a line for each of the text's but the header and a window for each thread.
pub fn generated_text_has_its_lines()
    ensures lines { (n threads seed : ℕ) → 0 < threads → threads ≤ 16 → length (lines (generated n threads seed)) ≡ 15 * threads + n }
    ensures threads { (n threads seed : ℕ) (t : TraceValue) → 0 < threads → threads ≤ 16 → trace (generated n threads seed) ≡ Ok t → t.threads ≡ threads }
    ensures body { (n threads seed : ℕ) (t : TraceValue) → 0 < threads → threads ≤ 16 → trace (generated n threads seed) ≡ Ok t → length t.lines + 1 ≡ 14 * threads + n }
    ensures header { (n threads seed : ℕ) → 0 < threads → threads ≤ 16 → header_of (words (slice_index_or (lines (generated n threads seed)) 0 [])) ≡ Ok threads }
{}
