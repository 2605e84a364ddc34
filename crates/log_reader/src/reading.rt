//! Whole logs.
ghost use Rattle.std.specs.Prelude.{◌≡◌, ◌+◌, ◌<◌, ◌≤◌, ◌^◌, length, None, IfOk, OnOk, MatchResult};
ghost use Rattle.std.specs.Str.Lines.{lines};
ghost use Rattle.trace_reader.specs.Header.{most_threads};
ghost use Rattle.log_reader.specs.Grammar.{log, logged, read_body, read_end, read_on};
ghost use Rattle.log_reader.specs.Heads.{begun};
ghost use Rattle.log_reader.specs.Items.{empty};
ghost use Rattle.log_reader.specs.Order.{AreBefore, AreInOrder, IsCutOf, IsPendingOf};
ghost use Rattle.log_reader.specs.Reading.{FailsWith, Gives, GivesEnd, GivesNext};
ghost use Rattle.log_reader.specs.declared.reasons.LogError.TheVariants.{Malformed};
ghost use Rattle.std.specs.Option.{option_map};

use crate::bodies::{Body, crash_in, is_front};
use crate::heads::{LogHead, header_of};
use crate::items::Cut;
use crate::logs::Log;
use crate::reasons::{LogError, LogReason};
use crate::steps::Next;
use egl_calls::{Bytes, NoMemory, Text};
use keyed_hash::HashKey;
use std::alloc::Global;
use trace_reader::line_cuts::cut_line;
use trace_reader::word_cuts::{cut_words, is_skipped, words};
use trace_reader::{Line, Reason};

fn malformed(line: u64, reason: LogReason) -> LogError
    ensures { result ≡ Malformed line reason }
{
    LogError::Malformed { line, reason }
}

/// Where the calls start: behind which head, at which line, counted from 1, and with which bytes.
#[derive(Drop)]
struct Start<'a> {
    head: LogHead,
    number: u64,
    rest: &'a [u8],
}

/// Reads the lines from the second on, up to the first one behind the head.
#[tactic(auto, using(crate::proofs::ReadingLaws::on_taken, crate::proofs::ReadingLaws::on_body, crate::proofs::ReadingLaws::on_refused))]
fn read_head(alloc: Global, threads: u32, bytes: &[u8]) -> Result<Start<'_>, LogError>
    requires some { 0 < threads }
    requires few { threads ≤ most_threads }
    requires fits { length bytes.now + 2 < 2 ^ 64 }
    ensures value { MatchResult result (λ s. read_on (begun threads) 2 (lines bytes.now) ≡ read_body s.head s.number empty (lines s.rest.now)) (λ e. FailsWith e (read_on (begun threads) 2 (lines bytes.now))) }
    ensures number { IfOk result (λ s. (2 ≤ s.number) × (s.number + length s.rest.now ≤ length bytes.now + 2)) }
{
    let mut head = LogHead::new(alloc, threads);
    let mut number = 2u64;
    let mut rest = bytes;
    'each: while let Some((line, more)) = cut_line(rest) {
        match head.take_line(alloc, line) {
            Ok(true) => {}
            Ok(false) => break,
            Err(error) => return Err(error.at(number)),
        }
        number += 1;
        rest = more;
    }
    Ok(Start { head, number, rest })
}

/// Where a log ends: with which items, and the call that was under way.
#[derive(Drop)]
struct End<'a> {
    body: Body<'a>,
    cut: Option<Cut>,
}

/// The text of a word, if there is one.
fn copied(alloc: Global, word: Option<&[u8]>) -> Result<Option<Text>, NoMemory>
    ensures { IfOk result (λ t. t ≡ option_map (λ w. w.now) word.entry) }
{
    let Some(word) = word else {
        return Ok(None);
    };
    let mut text = Text::new(alloc);
    text.extend(word)?;
    Ok(Some(text))
}

/// Reads a line behind a call that wasn't answered, and answers the word of the crash that was told up to there. `parts` has room for its words.
#[tactic(auto, using(crate::proofs::ReadingLaws::end_skipped, crate::proofs::ReadingLaws::end_front_taken, crate::proofs::ReadingLaws::end_front_refused, crate::proofs::ReadingLaws::end_crash, crate::proofs::ReadingLaws::end_other, crate::proofs::OrderLaws::before_skipped))]
fn end_line<'a>(
    alloc: Global,
    head: &LogHead,
    pending: &Line,
    number: u64,
    line: &'a [u8],
    word: Option<&'a [u8]>,
    parts: &mut Vec<&'a [u8]>,
    body: &mut Body<'a>,
) -> Result<Option<&'a [u8]>, LogError>
    requires { AreBefore head.now.head.threads head.now.head.windows number (length body.old.names) body.old.items }
    ensures next { GivesEnd head.now pending.now (option_map (λ w. w.now) word.entry) number line.now body.old body.new result }
    ensures order { OnOk result (AreBefore head.now.head.threads head.now.head.windows (number + 1) (length body.new.names) body.new.items) }
{
    let Ok(()) = cut_words(parts, line) else {
        return Err(LogError::NoMemory);
    };
    if is_skipped(line, parts) {
        return Ok(word);
    }
    if is_front(parts) {
        return match body.take_front(alloc, head, number, parts) {
            Ok(()) => Ok(word),
            Err(error) => Err(error.at(number)),
        };
    }
    match crash_in(word.is_some(), parts) {
        Some(said) => Ok(Some(said)),
        None => Err(malformed(pending.number, LogReason::Answer)),
    }
}

/// Reads what stands behind a call that wasn't answered: fronts, and at most one crash.
fn read_end<'a>(
    alloc: Global,
    head: &LogHead,
    pending: Line,
    first: u64,
    mut body: Body<'a>,
    bytes: &'a [u8],
) -> Result<End<'a>, LogError>
    requires fits { first + length bytes.now < 2 ^ 64 }
    requires thread { pending.thread < head.now.head.threads }
    requires order { AreBefore head.now.head.threads head.now.head.windows first (length body.names) body.items }
    ensures value { Gives (λ e. logged head.now e.body.items e.cut) result (read_end head.now pending None first body.entry (lines bytes.now)) }
    ensures order { IfOk result (λ e. AreInOrder head.now.head.threads head.now.head.windows 2 0 e.body.items) }
    ensures cut { IfOk result (λ e. IsCutOf head.now.head.threads e.cut) }
{
    let mut word: Option<&[u8]> = None;
    let mut parts = Vec::new(alloc);
    let mut number = first;
    let mut rest = bytes;
    'each: while let Some((line, more)) = cut_line(rest) {
        word = end_line(
            alloc, head, &pending, number, line, word, &mut parts, &mut body,
        )?;
        number += 1;
        rest = more;
    }
    let Ok(word) = copied(alloc, word) else {
        return Err(LogError::NoMemory);
    };
    Ok(End {
        body,
        cut: Some(Cut {
            line: pending,
            word,
        }),
    })
}

/// Reads a line behind the head. `parts` has room for its words.
#[tactic(auto, using(crate::proofs::ReadingLaws::body_skipped, crate::proofs::ReadingLaws::body_front_taken, crate::proofs::ReadingLaws::body_front_refused, crate::proofs::ReadingLaws::body_call_taken, crate::proofs::ReadingLaws::body_call_open, crate::proofs::ReadingLaws::body_call_refused, crate::proofs::OrderLaws::before_skipped))]
fn next_line<'a>(
    alloc: Global,
    head: &LogHead,
    number: u64,
    line: &'a [u8],
    parts: &mut Vec<&'a [u8]>,
    body: &mut Body<'a>,
) -> Result<Next, LogError>
    requires { AreBefore head.now.head.threads head.now.head.windows number (length body.old.names) body.old.items }
    ensures next { GivesNext head.now number line.now body.old body.new result }
    ensures order { OnOk result (AreBefore head.now.head.threads head.now.head.windows (number + 1) (length body.new.names) body.new.items) }
    ensures thread { IfOk result (IsPendingOf head.now.head.threads) }
{
    let Ok(()) = cut_words(parts, line) else {
        return Err(LogError::NoMemory);
    };
    if is_skipped(line, parts) {
        return Ok(Next::More);
    }
    if is_front(parts) {
        return match body.take_front(alloc, head, number, parts) {
            Ok(()) => Ok(Next::More),
            Err(error) => Err(error.at(number)),
        };
    }
    match body.take_call(alloc, head, number, parts) {
        Ok(None) => Ok(Next::More),
        Ok(Some(pending)) => Ok(Next::Pending(pending)),
        Err(error) => Err(error.at(number)),
    }
}

/// Reads what stands behind the head, where all bytes of the log give this key.
#[tactic(auto, using(crate::proofs::OrderLaws::before_first))]
fn read_body<'a>(
    alloc: Global,
    key: HashKey,
    head: &LogHead,
    first: u64,
    bytes: &'a [u8],
) -> Result<End<'a>, LogError>
    requires first { 2 ≤ first }
    requires fits { first + length bytes.now < 2 ^ 64 }
    ensures value { Gives (λ e. logged head.now e.body.items e.cut) result (read_body head.now first empty (lines bytes.now)) }
    ensures order { IfOk result (λ e. AreInOrder head.now.head.threads head.now.head.windows 2 0 e.body.items) }
    ensures cut { IfOk result (λ e. IsCutOf head.now.head.threads e.cut) }
{
    let mut body = Body::new(alloc, key);
    let mut parts = Vec::new(alloc);
    let mut number = first;
    let mut rest = bytes;
    'each: while let Some((line, more)) = cut_line(rest) {
        let next = next_line(alloc, head, number, line, &mut parts, &mut body)?;
        number += 1;
        if let Next::Pending(pending) = next {
            return read_end(alloc, head, pending, number, body, more);
        }
        rest = more;
    }
    Ok(End { body, cut: None })
}

/// Reads the lines behind the header, where all bytes of the log give this key.
#[tactic(auto, using(crate::proofs::OrderLaws::order_as, crate::proofs::OrderLaws::cut_as))]
fn read_behind(alloc: Global, key: HashKey, threads: u32, bytes: &[u8]) -> Result<Log, LogError>
    requires some { 0 < threads }
    requires few { threads ≤ most_threads }
    requires fits { length bytes.now + 2 < 2 ^ 64 }
    ensures { Gives (λ l. l) result (read_on (begun threads) 2 (lines bytes.now)) }
{
    let start = read_head(alloc, threads, bytes)?;
    let end = read_body(alloc, key, &start.head, start.number, start.rest)?;
    let threads = start.head.threads();
    let video = start.head.video();
    let (windows, configs) = start.head.into_parts();
    Ok(Log {
        threads,
        video,
        windows,
        configs,
        items: end.body.into_items(),
        cut: end.cut,
        key,
    })
}

impl Log {
    /// Reads a log from a slice: the one that the bytes spell, or its first defective line and what is wrong with that first.
    #[tactic(auto, unfolding(crate::specs::Grammar::log), using(crate::proofs::ReadingLaws::behind_first))]
    pub fn read_slice(alloc: Global, bytes: &[u8]) -> Result<Log, LogError>
        ensures { Gives (λ l. l) result (log bytes.now) }
    {
        let header = LogReason::Trace(Reason::Header);
        let Some((first, rest)) = cut_line(bytes) else {
            return Err(malformed(1, header));
        };
        let Ok(words) = words(alloc, first) else {
            return Err(LogError::NoMemory);
        };
        match header_of(&words) {
            Ok(threads) => read_behind(alloc, HashKey::of(bytes), threads, rest),
            Err(reason) => Err(malformed(1, LogReason::Trace(reason))),
        }
    }

    /// Reads a log, as `read_slice` does.
    pub fn read(alloc: Global, bytes: &Bytes) -> Result<Log, LogError>
        ensures { Gives (λ l. l) result (log bytes.now) }
    {
        Log::read_slice(alloc, bytes.as_slice())
    }
}
