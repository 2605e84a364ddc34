//! The answers of a log: `OUTCOME [VALUE [LIST [BYTES]]]`.
ghost use Rattle.std.specs.Prelude.{◌≡◌, ◌≤◌, codes, length, take, drop, map, IfOk};
ghost use Rattle.std.specs.List.{position_or_len};
ghost use Rattle.std.specs.Option.{option_map};
ghost use Rattle.trace_reader.specs.Lists.{items};
ghost use Rattle.log_reader.specs.Answers.{answer_bytes, answer_in, answer_list, answer_numbers, answer_words, call_words, is_arrow, nothing_said, words_told, word_or};
ghost use Rattle.log_reader.specs.Reading.{GivesOf};

use crate::numbers::answer_number;
use crate::outcomes::{LogOutcome, outcome_of};
use crate::reasons::{LogLineError, LogReason};
use crate::words::same_word;
use egl_calls::{Bytes, List, NoMemory};
use std::alloc::Global;
use trace_reader::lists::{inside, is_bracketed};
use trace_reader::payloads::{are_byte_digits, decoded};
use trace_reader::word_cuts::word_at;

/// What a call answered: how it came out, a value, a list of numbers, and bytes.
#[derive(Drop)]
pub struct Answer {
    pub outcome: LogOutcome,
    pub value: i128,
    pub list: List<i128>,
    pub bytes: Bytes,
}

const WRONG: LogLineError = LogLineError::Defective(LogReason::Answer);

impl Answer {
    /// The answer of a call that was carried out, and says nothing.
    pub fn nothing(alloc: Global) -> Answer
        ensures { result ≡ nothing_said }
    {
        Answer {
            outcome: LogOutcome::Done,
            value: 0,
            list: List::new(alloc),
            bytes: Bytes::new(alloc),
        }
    }
}

/// The numbers of the items that commas part, where each is one.
fn answer_numbers(alloc: Global, text: &[u8]) -> Result<Option<List<i128>>, NoMemory>
    ensures { IfOk result (λ o. o ≡ answer_numbers (items text.now)) }
{
    let mut found = List::new(alloc);
    if text.is_empty() {
        return Ok(Some(found));
    }
    'items: for item in text.split(|b| *b == b',') {
        let Some(number) = answer_number(item) else {
            return Ok(None);
        };
        found.push(number)?;
    }
    Ok(Some(found))
}

/// The numbers of a list in brackets.
#[tactic(auto, unfolding(crate::specs::Answers::answer_list))]
fn answer_list(alloc: Global, word: &[u8]) -> Result<Option<List<i128>>, NoMemory>
    ensures { IfOk result (λ o. o ≡ answer_list word.now) }
{
    if is_bracketed(word) {
        answer_numbers(alloc, inside(word))
    } else {
        Ok(None)
    }
}

/// The bytes of hexadecimal digits, two a byte, or none.
#[tactic(auto, unfolding(crate::specs::Answers::answer_bytes))]
pub fn answer_bytes(alloc: Global, word: &[u8]) -> Result<Option<Bytes>, NoMemory>
    ensures { IfOk result (λ o. o ≡ answer_bytes word.now) }
{
    if same_word(word, b"-") {
        return Ok(Some(Bytes::new(alloc)));
    }
    if word.is_empty() || !are_byte_digits(word) {
        return Ok(None);
    }
    Ok(Some(Bytes::from_vec(decoded(alloc, word)?)))
}

/// The word for the value, and `0` where it is left out.
fn value_word<'a>(words: &[&'a [u8]]) -> &'a [u8]
    ensures { result.now ≡ word_or (map (λ w. w.now) words.now) 1 (codes "0") }
{
    if words.len() > 1 { words[1] } else { b"0" }
}

/// The word for the list, and `[]` where it is left out.
fn list_word<'a>(words: &[&'a [u8]]) -> &'a [u8]
    ensures { result.now ≡ word_or (map (λ w. w.now) words.now) 2 (codes "[]") }
{
    if words.len() > 2 { words[2] } else { b"[]" }
}

/// The word for the bytes, and `-` where it is left out.
fn bytes_word<'a>(words: &[&'a [u8]]) -> &'a [u8]
    ensures { result.now ≡ word_or (map (λ w. w.now) words.now) 3 (codes "-") }
{
    if words.len() > 3 { words[3] } else { b"-" }
}

fn words_told(alloc: Global, words: &[&[u8]]) -> Result<Answer, LogLineError>
    ensures { GivesOf (λ a. a) result (words_told (map (λ w. w.now) words.now)) }
{
    let Some(outcome) = outcome_of(word_at(words, 0)) else {
        return Err(WRONG);
    };
    let Some(value) = answer_number(value_word(words)) else {
        return Err(WRONG);
    };
    let Ok(list) = answer_list(alloc, list_word(words)) else {
        return Err(LogLineError::NoMemory);
    };
    let Some(list) = list else {
        return Err(WRONG);
    };
    let Ok(bytes) = answer_bytes(alloc, bytes_word(words)) else {
        return Err(LogLineError::NoMemory);
    };
    let Some(bytes) = bytes else {
        return Err(WRONG);
    };
    Ok(Answer {
        outcome,
        value,
        list,
        bytes,
    })
}

/// The answer that words tell.
#[tactic(auto, unfolding(crate::specs::Answers::answer_in))]
pub fn answer_in(alloc: Global, words: &[&[u8]]) -> Result<Answer, LogLineError>
    ensures { GivesOf (λ a. a) result (answer_in (map (λ w. w.now) words.now)) }
{
    if words.len() > 4 {
        return Err(WRONG);
    }
    words_told(alloc, words)
}

fn is_arrow(word: &[u8]) -> bool
    ensures { result ≡ is_arrow word.now }
{
    same_word(word, b"=>")
}

/// The words of a line in two parts: those of its call, and those of its answer, if it has one.
#[derive(Drop)]
pub struct Parts<'w, 'a> {
    pub call: &'w [&'a [u8]],
    pub answer: Option<&'w [&'a [u8]]>,
}

/// The place of the first `=>`, or the length.
fn arrow_at(words: &[&[u8]]) -> usize
    ensures place { result ≡ position_or_len is_arrow (map (λ w. w.now) words.now) }
    ensures within { result ≤ length words.now }
{
    let mut at = 0usize;
    'each: for word in words {
        if is_arrow(word) {
            return at;
        }
        at += 1;
    }
    at
}

/// The first so many.
#[tactic(auto, using(crate::proofs::AnswerLaws::first_words))]
fn first_words<'w, 'a>(words: &'w [&'a [u8]], count: usize) -> &'w [&'a [u8]]
    requires { count ≤ length words.now }
    ensures { map (λ w. w.now) result.now ≡ take count (map (λ w. w.now) words.now) }
{
    let (front, _) = words.split_at(count);
    front
}

/// Those behind the first so many.
#[tactic(auto, using(crate::proofs::AnswerLaws::words_behind))]
fn words_behind<'w, 'a>(words: &'w [&'a [u8]], count: usize) -> &'w [&'a [u8]]
    requires { count ≤ length words.now }
    ensures { map (λ w. w.now) result.now ≡ drop count (map (λ w. w.now) words.now) }
{
    let (_, rest) = words.split_at(count);
    rest
}

/// The words in front of the first `=>`, and those behind it.
#[tactic(auto, unfolding(crate::specs::Answers::call_words, crate::specs::Answers::answer_words), using(crate::proofs::AnswerLaws::as_many))]
pub fn split_answer<'w, 'a>(words: &'w [&'a [u8]]) -> Parts<'w, 'a>
    ensures call { map (λ w. w.now) result.call.now ≡ call_words (map (λ w. w.now) words.now) }
    ensures answer { option_map (λ ws. map (λ w. w.now) ws.now) result.answer ≡ answer_words (map (λ w. w.now) words.now) }
{
    let at = arrow_at(words);
    let call = first_words(words, at);
    if at < words.len() {
        let answer = Some(words_behind(words, at + 1));
        return Parts { call, answer };
    }
    Parts { call, answer: None }
}
