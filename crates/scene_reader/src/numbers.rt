//! The numbers of a line.
ghost use Rattle.std.specs.Prelude.{◌≡◌};
ghost use Rattle.scene_reader.specs.Lines as values;

use trace_reader::Reason;
use trace_reader::numerals::{numeral, signed_number};

/// The largest number that isn't negative.
const LARGEST: u64 = 4_294_967_295;

/// A decimal number of at most 32 bits.
#[tactic(auto, unfolding(crate::specs::Lines::natural_of))]
pub fn natural_of(word: &[u8]) -> Result<u32, Reason>
    ensures { result ≡ values.natural_of word.now }
{
    match numeral(LARGEST, word) {
        Some(n) => Ok(n as u32),
        None => Err(Reason::Argument),
    }
}

/// The same, or one with a sign.
#[tactic(auto, unfolding(crate::specs::Lines::integer_of))]
pub fn integer_of(word: &[u8]) -> Result<i64, Reason>
    ensures { result ≡ values.integer_of word.now }
{
    match signed_number(word) {
        Some(z) => Ok(z),
        None => Err(Reason::Argument),
    }
}
