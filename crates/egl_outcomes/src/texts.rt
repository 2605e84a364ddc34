//! The text of a trace's outcomes.
ghost use Rattle.std.specs.Prelude.{◌≡◌, ◌++◌, codes, decimal, IfOk, OnOk};
ghost use Rattle.std.specs.List.{flat_map};
ghost use Rattle.egl_outcomes.specs.Texts.{line_text, differing_line, differing_lines, order_text, head_text, rest_lines, outcome_text, outcome_texts, parted, column_text, heading_end, histories_text, count_text, outcomes_text};

use crate::columns::{Column, are_several, columns, rests_of};
use egl_calls::{Bytes, NoMemory, Text};
use journal_text::texts::{put_decimal, put_text};
use std::alloc::Global;
use trace_outcomes::Outcome;
use trace_reader::Line;

#[tactic(auto, unfolding(crate::specs::Texts::line_text))]
fn put_line(out: &mut Bytes, number: u64, answer: &[u8]) -> Result<(), NoMemory>
    ensures { OnOk result (out.new ≡ out.old ++ line_text number answer.now) }
{
    put_text(out, "  ")?;
    put_decimal(out, number)?;
    put_text(out, " ")?;
    out.extend(answer)?;
    put_text(out, "\n")
}

/// The line at a place, where it doesn't answer the same in all outcomes.
fn put_differing(
    out: &mut Bytes,
    outcome: &Outcome,
    place: usize,
    column: &Column,
) -> Result<(), NoMemory>
    ensures { OnOk result (out.new ≡ out.old ++ differing_line outcome.now place column.now) }
{
    if column.differs() {
        put_line(out, column.number(), outcome.answer(place))
    } else {
        Ok(())
    }
}

/// All such lines.
fn put_all_differing(out: &mut Bytes, outcome: &Outcome, columns: &[Column]) -> Result<(), NoMemory>
    ensures { OnOk result (out.new ≡ out.old ++ differing_lines outcome.now 0 columns.now) }
{
    'each: for (place, column) in columns.iter().enumerate() {
        put_differing(out, outcome, place, column)?;
    }
    Ok(())
}

/// A space before each number.
fn put_numbers(out: &mut Bytes, numbers: &[u64]) -> Result<(), NoMemory>
    ensures { OnOk result (out.new ≡ out.old ++ flat_map (λ n. codes " " ++ decimal n) numbers.now) }
{
    'each: for number in numbers {
        put_text(out, " ")?;
        put_decimal(out, *number)?;
    }
    Ok(())
}

#[tactic(auto, unfolding(crate::specs::Texts::order_text))]
fn put_order(out: &mut Bytes, order: &[u64]) -> Result<(), NoMemory>
    ensures { OnOk result (out.new ≡ out.old ++ order_text order.now) }
{
    put_text(out, "  order")?;
    put_numbers(out, order)?;
    put_text(out, "\n")
}

#[tactic(auto, unfolding(crate::specs::Texts::head_text))]
fn put_head(out: &mut Bytes, place: u64, complete: bool) -> Result<(), NoMemory>
    ensures { OnOk result (out.new ≡ out.old ++ head_text place complete) }
{
    put_text(out, "outcome ")?;
    put_decimal(out, place)?;
    if complete {
        put_text(out, "\n")
    } else {
        put_text(out, " stalled\n")
    }
}

fn put_rest(out: &mut Bytes, several: bool, rest: &[u8]) -> Result<(), NoMemory>
    ensures { OnOk result (out.new ≡ out.old ++ rest_lines several rest.now) }
{
    if several {
        out.extend(rest)?;
        put_text(out, "\n")
    } else {
        Ok(())
    }
}

#[tactic(auto, unfolding(crate::specs::Texts::outcome_text))]
fn put_outcome(
    out: &mut Bytes,
    several: bool,
    columns: &[Column],
    place: u64,
    outcome: &Outcome,
) -> Result<(), NoMemory>
    ensures { OnOk result (out.new ≡ out.old ++ outcome_text several columns.now place outcome.now) }
{
    put_head(out, place, outcome.is_complete())?;
    put_order(out, outcome.order())?;
    put_all_differing(out, outcome, columns)?;
    put_rest(out, several, outcome.rest())
}

/// All outcomes, counted from 1.
fn put_outcomes(
    out: &mut Bytes,
    several: bool,
    columns: &[Column],
    outcomes: &[Outcome],
) -> Result<(), NoMemory>
    ensures { OnOk result (out.new ≡ out.old ++ outcome_texts several columns.now 1 outcomes.now) }
{
    let mut place = 1u64;
    'each: for outcome in outcomes {
        put_outcome(out, several, columns, place, outcome)?;
        place += 1;
    }
    Ok(())
}

/// A bar before each text.
fn put_more(out: &mut Bytes, texts: &[Text]) -> Result<(), NoMemory>
    ensures { OnOk result (out.new ≡ out.old ++ flat_map (λ y. codes " | " ++ y) texts.now) }
{
    'each: for text in texts {
        put_text(out, " | ")?;
        out.extend(text.as_slice())?;
    }
    Ok(())
}

fn put_parted(out: &mut Bytes, texts: &[Text]) -> Result<(), NoMemory>
    ensures { OnOk result (out.new ≡ out.old ++ parted texts.now) }
{
    match texts {
        [] => Ok(()),
        [first, more @ ..] => {
            out.extend(first.as_slice())?;
            put_more(out, more)
        }
    }
}

#[tactic(auto, unfolding(crate::specs::Texts::column_text, crate::specs::Texts::line_text))]
fn put_column(out: &mut Bytes, column: &Column) -> Result<(), NoMemory>
    ensures { OnOk result (out.new ≡ out.old ++ column_text column.now) }
{
    put_text(out, "  ")?;
    put_decimal(out, column.number())?;
    put_text(out, " ")?;
    put_parted(out, column.answers())?;
    put_text(out, "\n")
}

fn put_columns(out: &mut Bytes, columns: &[Column]) -> Result<(), NoMemory>
    ensures { OnOk result (out.new ≡ out.old ++ flat_map column_text columns.now) }
{
    'each: for column in columns {
        put_column(out, column)?;
    }
    Ok(())
}

// A function of its own: beside other texts it's too long for the search.
#[tactic(auto, unfolding(crate::specs::Texts::heading_end))]
fn put_heading_end(out: &mut Bytes) -> Result<(), NoMemory>
    ensures { OnOk result (out.new ≡ out.old ++ heading_end) }
{
    put_text(out, " histories\n\n")
}

#[tactic(auto, unfolding(crate::specs::Texts::histories_text))]
fn put_histories(out: &mut Bytes, histories: u64) -> Result<(), NoMemory>
    ensures { OnOk result (out.new ≡ out.old ++ histories_text histories) }
{
    put_text(out, " of ")?;
    put_decimal(out, histories)?;
    put_heading_end(out)
}

#[tactic(auto, unfolding(crate::specs::Texts::count_text))]
fn put_count(out: &mut Bytes, count: u64, histories: u64) -> Result<(), NoMemory>
    ensures { OnOk result (out.new ≡ out.old ++ count_text count histories) }
{
    put_text(out, "outcomes ")?;
    put_decimal(out, count)?;
    put_histories(out, histories)
}

/// The text of a trace's outcomes.
#[tactic(auto, unfolding(crate::specs::Texts::outcomes_text))]
pub fn outcomes_text(
    alloc: Global,
    lines: &[Line],
    outcomes: &[Outcome],
    histories: u64,
) -> Result<Bytes, NoMemory>
    ensures { IfOk result (λ b. b ≡ outcomes_text lines.now outcomes.now histories) }
{
    let table = columns(alloc, outcomes, lines)?;
    let rests = rests_of(alloc, outcomes)?;
    let mut out = Bytes::new(alloc);
    put_count(&mut out, outcomes.len() as u64, histories)?;
    put_outcomes(
        &mut out,
        are_several(rests.as_slice()),
        table.as_slice(),
        outcomes,
    )?;
    put_text(&mut out, "\neach line\n")?;
    put_columns(&mut out, table.as_slice())?;
    Ok(out)
}
