//! Words joined by `|`.
ghost use Rattle.std.specs.Prelude.{◌≡◌, ◌≤◌, length};
ghost use Rattle.std.specs.List.{position_or_len};
ghost use Rattle.egl_names.specs.Joined.{known_word, is_name_start, begins_with, is_unknown_name, is_bar, parts, joined_word};
ghost use Rattle.egl_names.specs.Parts.{part_of, is_unknown_part, with_part, word_of_bits, single_word, joined_parts};

use crate::names::code_of_word;
use crate::number_words::{bit_of_word, number_of_word};

/// What a word stands for.
#[derive(Clone, Copy, Debug, PartialEq, Eq, Drop)]
pub enum Word {
    /// The code of a name, the number of a word that stands for one, or joined bits.
    Number(i64),
    /// It begins like a name, and is none, or a part of it does so.
    UnknownName,
    /// It doesn't begin like a name, or its parts are not all bits.
    BadForm,
}

/// The number of a word of either list.
#[tactic(auto, unfolding(crate::specs::Joined::known_word))]
pub fn known_word(word: &[u8]) -> Option<i64>
    ensures { result ≡ known_word word.now }
{
    match code_of_word(word) {
        Some(code) => Some(code as i64),
        None => number_of_word(word),
    }
}

fn is_name_start(byte: u8) -> bool
    ensures { result ≡ is_name_start byte }
{
    (byte >= b'A' && byte <= b'Z') || (byte >= b'a' && byte <= b'z') || byte == b'_'
}

/// Whether a word begins with a letter or `_`, as each name does.
fn begins_like_a_name(word: &[u8]) -> bool
    ensures { result ≡ begins_with is_name_start word.now }
{
    match word {
        [first, ..] => is_name_start(*first),
        [] => false,
    }
}

fn is_unknown_name(word: &[u8]) -> bool
    ensures { result ≡ is_unknown_name word.now }
{
    begins_like_a_name(word) && known_word(word).is_none()
}

/// The place of the first bar, or the length.
fn bar_at(word: &[u8]) -> usize
    ensures place { result ≡ position_or_len is_bar word.now }
    ensures within { result ≤ length word.now }
{
    for (i, byte) in word.iter().enumerate() {
        if *byte == b'|' {
            return i;
        }
    }
    word.len()
}

/// A word that begins like a name, with no bar in it.
fn single_word(word: &[u8]) -> Word
    ensures { result ≡ single_word word.now }
{
    match known_word(word) {
        Some(number) => Word::Number(number),
        None => Word::UnknownName,
    }
}

/// What a part of joined words is.
#[derive(Clone, Copy, Drop)]
enum Part {
    Bit(u32),
    UnknownName,
    NoBit,
}

fn part_of(word: &[u8]) -> Part
    ensures { result ≡ part_of word.now }
{
    match bit_of_word(word) {
        Some(bit) => Part::Bit(bit),
        None => {
            if is_unknown_name(word) {
                Part::UnknownName
            } else {
                Part::NoBit
            }
        }
    }
}

fn is_unknown_part(part: Part) -> bool
    ensures { result ≡ is_unknown_part part }
{
    match part {
        Part::UnknownName => true,
        _ => false,
    }
}

/// The bits so far, unless a part was no bit, with those of one more part.
fn with_part(bits: Option<u32>, part: Part) -> Option<u32>
    ensures { result ≡ with_part bits part }
{
    match (bits, part) {
        (Some(bits), Part::Bit(bit)) => Some(bits | bit),
        _ => None,
    }
}

fn word_of_bits(bits: Option<u32>) -> Word
    ensures { result ≡ word_of_bits bits }
{
    match bits {
        Some(bits) => Word::Number(bits as i64),
        None => Word::BadForm,
    }
}

/// Words with a bar between them.
fn joined_parts(words: &[u8]) -> Word
    ensures { result ≡ joined_parts (parts words.now) }
{
    let mut rest = words;
    let mut bits = Some(0);
    'parts: loop {
        let at = bar_at(rest);
        let (word, _) = rest.split_at(at);
        let part = part_of(word);
        if is_unknown_part(part) {
            return Word::UnknownName;
        }
        bits = with_part(bits, part);
        if at == rest.len() {
            return word_of_bits(bits);
        }
        let (_, more) = rest.split_at(at + 1);
        rest = more;
    }
}

/// The number of a known word, or of bits joined by `|`, as EGL_WINDOW_BIT|EGL_PBUFFER_BIT. What begins with no letter and no `_` is of bad form.
pub fn joined_word(word: &[u8]) -> Word
    ensures { result ≡ joined_word word.now }
{
    if !begins_like_a_name(word) {
        return Word::BadForm;
    }
    if bar_at(word) == word.len() {
        return single_word(word);
    }
    joined_parts(word)
}
