//! The program's edge: the words of the process, standard input and standard output.
ghost use Rattle.std.specs.Prelude.{◌≡◌, ◌≢◌, ◌⊎◌, ℕ, List, [], map, drop, IfOk, IfErr, MatchResult};
ghost use Rattle.std.specs.IoError.{error_kind};
ghost use Rattle.std.specs.String.{string_bytes};
ghost use Rattle.std.specs.Vec.Iter.{into_iter_items};
ghost use Rattle.egl_cli.specs.Process.{IsStatusOf, KeepsPromises};

use crate::playing::top;
use egl_calls::{NoMemory, Text};
use egl_flow::{Sink, Source, Status, StdSink, StdSource, Waiting};
use play_threads::OpenGate;
use std::alloc::Global;
use std::env::Args;
use std::io::{self, ErrorKind};
use std::rt::{Stdin, Stdout};
use std::sync::Wait;
use std::thread::Threads;
use std::time::Clock;

/// The words behind the first, which is the program's own name.
#[tactic(auto, using(crate::proofs::WordLaws::begun, crate::proofs::WordLaws::taken, crate::proofs::WordLaws::ended))]
fn words_behind(alloc: Global, args: Args) -> Result<Vec<Text>, NoMemory>
    ensures { IfOk result (λ ws. ws.items ≡ map string_bytes (drop 1 (into_iter_items args))) }
{
    let mut left = args;
    let _name = left.next();
    let mut words = Vec::new(alloc);
    'each: while let Some(word) = left.next() {
        if words.push(Text::from_vec(word.into_bytes())).is_err() {
            return Err(NoMemory);
        }
    }
    Ok(words)
}

/// No words, where those of the process can't be read: one of them isn't UTF-8.
fn words_unread(alloc: Global, error: &io::Error) -> Result<Vec<Text>, NoMemory>
    ensures none { IfOk result (λ ws. (ws.items ≡ []) × (error_kind error.now ≢ ErrorKind.OutOfMemory)) }
    ensures memory { IfErr result (λ _. error_kind error.now ≡ ErrorKind.OutOfMemory) }
{
    match error.kind() {
        ErrorKind::OutOfMemory => Err(NoMemory),
        _ => Ok(Vec::new(alloc)),
    }
}

/// The words of the process behind its own name. A word that isn't UTF-8 makes them no command.
fn words_of(alloc: Global, args: io::Result<Args>) -> Result<Vec<Text>, NoMemory>
    ensures words { IfOk result (λ ws. MatchResult args (λ a. ws.items ≡ map string_bytes (drop 1 (into_iter_items a))) (λ e. (ws.items ≡ []) × (error_kind e ≢ ErrorKind.OutOfMemory))) }
    ensures memory { IfErr result (λ _. MatchResult args (λ _. Unit {0}) (λ e. error_kind e ≡ ErrorKind.OutOfMemory)) }
{
    match args {
        Ok(args) => words_behind(alloc, args),
        Err(error) => words_unread(alloc, &error),
    }
}

/// Does the command that the words name, by `top`, where there was memory for them.
#[tactic(auto, using(crate::proofs::ProcessLaws::kept))]
fn run_words<R: Threads + Wait + Sync, S: Source, K: Sink>(
    rt: &R,
    alloc: Global,
    words: Result<Vec<Text>, NoMemory>,
    source: &mut S,
    sink: &mut K,
) -> Status
    ensures top { IfOk words (λ ws. KeepsPromises ws.items (S.left source.old) (S.left source.new) (S.faults source.old) (S.faults source.new) (K.taken sink.old) (K.taken sink.new) (K.faults sink.old) (K.faults sink.new) result) }
    ensures memory { IfErr words (λ _. (result ≡ Status.NoMemory) × (source.new ≡ source.old) × (sink.new ≡ sink.old)) }
{
    match words {
        Ok(words) => top(rt, alloc, words.as_slice(), source, sink, &OpenGate),
        Err(_) => Status::NoMemory,
    }
}

/// Does the command that the process's words name, from standard input to standard output. Input that isn't there yet is waited for.
///
/// Where there is memory for the words, the status is the one that `top` gives to all words behind the first.
pub fn run<R: Clock + AllocGlobal + Threads + Wait + Sync>(
    rt: &R,
    args: io::Result<Args>,
    input: Stdin,
    output: Stdout,
) -> Status
    ensures { ((words : List (List ℕ)) × MatchResult args (λ a. words ≡ map string_bytes (drop 1 (into_iter_items a))) (λ e. (words ≡ []) × (error_kind e ≢ ErrorKind.OutOfMemory)) × IsStatusOf words result) ⊎ ((result ≡ Status.NoMemory) × MatchResult args (λ _. Unit {0}) (λ e. error_kind e ≡ ErrorKind.OutOfMemory)) }
{
    let alloc = rt.alloc();
    let words = words_of(alloc, args);
    let mut source = Waiting::new(StdSource::new(input), rt);
    let mut sink = StdSink::new(output);
    run_words(rt, alloc, words, &mut source, &mut sink)
}
