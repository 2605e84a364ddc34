//! The numbers of answers.
ghost use Rattle.std.specs.Prelude.{◌≡◌, ◌≤◌, ◌-◌, ◌<◌, pos, negsuc, IfSome};
ghost use Rattle.trace_reader.specs.Numerals.{has_leading_zero, negated, number_after, numeral};
ghost use Rattle.log_reader.specs.Numbers.{answer_number, IsLong, long_number, most_long};

use egl_names::code_of_word;
use trace_reader::word_cuts::begins_with;

/// The largest number of 20 digits.
const MOST_LONG: u128 = 99_999_999_999_999_999_999;

fn has_leading_zero(word: &[u8]) -> bool
    ensures { result ≡ has_leading_zero word.now }
{
    word.len() > 1 && word[0] == b'0'
}

fn number_after(word: &[u8]) -> Option<u128>
    ensures value { result ≡ number_after most_long 0 word.now }
    ensures small { IfSome result (λ n. n ≤ most_long) }
{
    let mut n = 0u128;
    'digits: for b in word {
        if *b < b'0' || *b > b'9' {
            return None;
        }
        let next = 10 * n + (*b - b'0') as u128;
        if next > MOST_LONG {
            return None;
        }
        n = next;
    }
    Some(n)
}

/// The number that up to 20 digits spell, without a sign or a leading zero.
#[tactic(auto, unfolding(trace_reader::specs::Numerals::numeral))]
pub fn long_numeral(word: &[u8]) -> Option<u128>
    ensures value { result ≡ numeral most_long word.now }
    ensures small { IfSome result (λ n. n ≤ most_long) }
{
    if word.is_empty() || has_leading_zero(word) {
        return None;
    }
    number_after(word)
}

/// The same number as a signed one.
pub fn positive(n: u128) -> i128
    requires { n ≤ most_long }
    ensures value { result ≡ pos n }
    ensures long { IsLong result }
{
    n as i128
}

fn negative(n: u128) -> i128
    requires above { 0 < n }
    requires below { n ≤ most_long }
    ensures value { result ≡ negsuc (n - 1) }
    ensures long { IsLong result }
{
    -(n as i128)
}

fn negative_number(digits: &[u8]) -> Option<i128>
    ensures value { result ≡ negated (numeral most_long digits.now) }
    ensures long { IfSome result IsLong }
{
    match long_numeral(digits) {
        Some(n) => { if n == 0 { None } else { Some(negative(n)) } }
        None => None,
    }
}

/// A decimal number of at most 20 digits, which may be negative.
#[tactic(auto, unfolding(crate::specs::Numbers::long_number))]
pub fn long_number(word: &[u8]) -> Option<i128>
    ensures value { result ≡ long_number word.now }
    ensures long { IfSome result IsLong }
{
    if begins_with(word, b'-') {
        return negative_number(&word[1..]);
    }
    match long_numeral(word) {
        Some(n) => Some(positive(n)),
        None => None,
    }
}

/// A number of an answer: the code of a name, or a number in decimal.
#[tactic(auto, unfolding(crate::specs::Numbers::answer_number))]
pub fn answer_number(word: &[u8]) -> Option<i128>
    ensures value { result ≡ answer_number word.now }
    ensures long { IfSome result IsLong }
{
    match code_of_word(word) {
        Some(code) => Some(positive(u128::from(code))),
        None => long_number(word),
    }
}
