//! The program's edge: the words of the process, standard input and standard output.
ghost use Rattle.std.specs.Prelude.{◌≡◌, ◌≢◌, ◌⊎◌, ℕ, List, [], ◌∷◌, map, drop, IfOk, IfErr, MatchResult};
ghost use Rattle.std.specs.IoError.{error_kind};
ghost use Rattle.std.specs.String.{string_bytes};
ghost use Rattle.std.specs.Vec.Iter.{into_iter_items};
ghost use Rattle.egl_flow.specs.Flow.{HasRisen};
ghost use Rattle.egl_judge.specs.Process.{IsStatusOf};
ghost use Rattle.egl_judge.specs.Requests.{request_of};
ghost use Rattle.egl_judge.specs.Says.{Says};

use crate::responding::top;
use egl_calls::{NoMemory, Text};
use egl_flow::{Sink, Source, Status, StdSink, StdSource, Waiting};
use std::alloc::Global;
use std::env::Args;
use std::io::{self, ErrorKind};
use std::rt::{Stdin, Stdout};
use std::time::Clock;

/// The words behind the first, which is the program's own name.
#[tactic(auto, using(crate::proofs::WordLaws::begun, crate::proofs::WordLaws::taken, crate::proofs::WordLaws::ended))]
fn words_behind(alloc: Global, args: Args) -> Result<Vec<Text>, NoMemory>
    ensures { IfOk result (λ ws. ws.items ≡ map string_bytes (drop 1 (into_iter_items args))) }
{
    let mut left = args;
    let _name = left.next();
    let mut words = Vec::new(alloc);
    'each: while let Some(word) = left.next() {
        if words.push(Text::from_vec(word.into_bytes())).is_err() {
            return Err(NoMemory);
        }
    }
    Ok(words)
}

/// One empty word, which asks for nothing, where those of the process can't be read: one of them isn't UTF-8.
fn words_unread(alloc: Global, error: &io::Error) -> Result<Vec<Text>, NoMemory>
    ensures none { IfOk result (λ ws. (ws.items ≡ [] ∷ []) × (error_kind error.now ≢ ErrorKind.OutOfMemory)) }
{
    match error.kind() {
        ErrorKind::OutOfMemory => Err(NoMemory),
        _ => {
            let mut words = Vec::new(alloc);
            if words.push(Text::new(alloc)).is_err() {
                return Err(NoMemory);
            }
            Ok(words)
        }
    }
}

/// The words of the process behind its own name. A word that isn't UTF-8 makes them ask for nothing.
fn words_of(alloc: Global, args: io::Result<Args>) -> Result<Vec<Text>, NoMemory>
    ensures { IfOk result (λ ws. MatchResult args (λ a. ws.items ≡ map string_bytes (drop 1 (into_iter_items a))) (λ e. (ws.items ≡ [] ∷ []) × (error_kind e ≢ ErrorKind.OutOfMemory))) }
{
    match args {
        Ok(args) => words_behind(alloc, args),
        Err(error) => words_unread(alloc, &error),
    }
}

/// Does what the words ask for, by `top`, where there was memory for them.
fn run_words<S: Source, K: Sink>(
    alloc: Global,
    words: Result<Vec<Text>, NoMemory>,
    source: &mut S,
    sink: &mut K,
) -> Status
    ensures top { IfOk words (λ ws. Says (request_of ws.items) (S.left source.old) (S.left source.new) (S.faults source.old) (S.faults source.new) (K.taken sink.old) (K.taken sink.new) (HasRisen (K.faults sink.old) (K.faults sink.new)) result) }
    ensures memory { IfErr words (λ _. result ≡ Status.NoMemory) }
{
    match words {
        Ok(words) => top(alloc, words.as_slice(), source, sink),
        Err(_) => Status::NoMemory,
    }
}

/// Judges the log on standard input by the process's words, and writes what is found to standard output. Input that isn't there yet is waited for.
///
/// Without want of memory for the words the status is the one that `top` gives to all words behind the first.
pub fn run<R: Clock + AllocGlobal>(
    rt: &R,
    args: io::Result<Args>,
    input: Stdin,
    output: Stdout,
) -> Status
    ensures { ((words : List (List ℕ)) × MatchResult args (λ a. words ≡ map string_bytes (drop 1 (into_iter_items a))) (λ e. (words ≡ [] ∷ []) × (error_kind e ≢ ErrorKind.OutOfMemory)) × IsStatusOf words result) ⊎ (result ≡ Status.NoMemory) }
{
    let alloc = rt.alloc();
    let words = words_of(alloc, args);
    let mut source = Waiting::new(StdSource::new(input), rt);
    let mut sink = StdSink::new(output);
    run_words(alloc, words, &mut source, &mut sink)
}
