//! Numbers and outcomes of logs behind bytes.
ghost use Rattle.std.specs.Prelude.{◌≡◌, ◌++◌, codes, OnOk};
ghost use Rattle.std.specs.List.{flat_map};
ghost use Rattle.egl_judge.specs.Numbers.{long_text, optional_text, outcome_text, parted};

use egl_calls::{Bytes, NoMemory};
use itoa::Buffer;
use journal_text::texts::{put_byte, put_number, put_text};
use log_reader::LogOutcome;

/// A number of 32 bits by its name where it has one, each other in decimal.
#[tactic(auto, unfolding(crate::specs::Numbers::long_text))]
pub fn put_long(out: &mut Bytes, z: i128) -> Result<(), NoMemory>
    ensures { OnOk result (out.new ≡ out.old ++ long_text z) }
{
    if z >= 0 && z < 4_294_967_296 {
        return put_number(out, z as i64);
    }
    put_text(out, Buffer::new().format(z))
}

/// A number, and `-` where nothing stands for it.
#[tactic(auto, unfolding(crate::specs::Numbers::optional_text))]
pub fn put_optional(out: &mut Bytes, z: Option<i128>) -> Result<(), NoMemory>
    ensures { OnOk result (out.new ≡ out.old ++ optional_text z) }
{
    match z {
        Some(z) => put_long(out, z),
        None => put_byte(out, b'-'),
    }
}

/// How a call came out.
#[tactic(auto, unfolding(crate::specs::Numbers::outcome_text))]
pub fn put_outcome(out: &mut Bytes, outcome: LogOutcome) -> Result<(), NoMemory>
    ensures { OnOk result (out.new ≡ out.old ++ outcome_text outcome) }
{
    match outcome {
        LogOutcome::Done => put_text(out, "ok"),
        LogOutcome::Egl(error) => put_number(out, i64::from(error.code())),
        LogOutcome::Gl(error) => put_number(out, i64::from(error.code())),
        LogOutcome::Unnamed(z) => put_long(out, z),
    }
}

/// A comma before each outcome.
fn put_more_outcomes(out: &mut Bytes, outcomes: &[LogOutcome]) -> Result<(), NoMemory>
    ensures { OnOk result (out.new ≡ out.old ++ flat_map (λ o. codes "," ++ outcome_text o) outcomes.now) }
{
    'each: for outcome in outcomes {
        put_byte(out, b',')?;
        put_outcome(out, *outcome)?;
    }
    Ok(())
}

/// Outcomes, parted by commas.
pub fn put_outcomes(out: &mut Bytes, outcomes: &[LogOutcome]) -> Result<(), NoMemory>
    ensures { OnOk result (out.new ≡ out.old ++ parted outcome_text outcomes.now) }
{
    match outcomes {
        [] => Ok(()),
        [first, more @ ..] => {
            put_outcome(out, *first)?;
            put_more_outcomes(out, more)
        }
    }
}

/// A comma before each number.
fn put_more_numbers(out: &mut Bytes, numbers: &[i128]) -> Result<(), NoMemory>
    ensures { OnOk result (out.new ≡ out.old ++ flat_map (λ z. codes "," ++ long_text z) numbers.now) }
{
    'each: for z in numbers {
        put_byte(out, b',')?;
        put_long(out, *z)?;
    }
    Ok(())
}

/// Numbers, parted by commas.
pub fn put_numbers(out: &mut Bytes, numbers: &[i128]) -> Result<(), NoMemory>
    ensures { OnOk result (out.new ≡ out.old ++ parted long_text numbers.now) }
{
    match numbers {
        [] => Ok(()),
        [first, more @ ..] => {
            put_long(out, *first)?;
            put_more_numbers(out, more)
        }
    }
}

/// A comma before each number, and `-` for one that nothing stands for.
fn put_more_optional(out: &mut Bytes, numbers: &[Option<i128>]) -> Result<(), NoMemory>
    ensures { OnOk result (out.new ≡ out.old ++ flat_map (λ z. codes "," ++ optional_text z) numbers.now) }
{
    'each: for z in numbers {
        put_byte(out, b',')?;
        put_optional(out, *z)?;
    }
    Ok(())
}

/// The same, parted by commas.
pub fn put_optional_numbers(out: &mut Bytes, numbers: &[Option<i128>]) -> Result<(), NoMemory>
    ensures { OnOk result (out.new ≡ out.old ++ parted optional_text numbers.now) }
{
    match numbers {
        [] => Ok(()),
        [first, more @ ..] => {
            put_optional(out, *first)?;
            put_more_optional(out, more)
        }
    }
}
