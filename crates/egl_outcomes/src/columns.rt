//! What each line can answer.
ghost use Rattle.std.specs.Prelude.{◌≡◌, IfOk, OnOk};
ghost use Rattle.trace_outcomes.specs.Outcomes.{is_among};
ghost use Rattle.egl_outcomes.specs.Columns.{with_text, answers_at, are_several, rests_of, column_at, columns};

use egl_calls::{NoMemory, Text};
use std::alloc::Global;
use std::marker::Model;
use trace_outcomes::Outcome;
use trace_reader::Line;

/// A line, and all that it answers, in the order of the outcomes.
pub struct Column {
    number: u64,
    answers: Vec<Text>,
}

// Written out, so that no crate above proves the drops of what it owns.
impl Drop for Column {
    fn drop(self) {
        let Column {
            number: _,
            answers: _,
        } = self;
    }
}

impl Model for Column {
    ghost use Rattle.egl_outcomes.specs.Columns.{ColumnValue};

    ghost Value = { ColumnValue };

    ghost view = { λ c. record { number = c.number; answers = c.answers.items } };
}

impl Column {
    pub fn number(&self) -> u64
        ensures { result ≡ self.now.number }
    {
        self.number
    }

    pub fn answers(&self) -> &[Text]
        ensures { result.now ≡ self.now.answers }
    {
        self.answers.as_slice()
    }

    /// Whether the line doesn't answer the same in all outcomes.
    pub fn differs(&self) -> bool
        ensures { result ≡ are_several self.now.answers }
    {
        are_several(self.answers())
    }
}

/// Whether there is more than one text.
pub fn are_several(texts: &[Text]) -> bool
    ensures { result ≡ are_several texts.now }
{
    1 < texts.len()
}

fn is_among(texts: &[Text], text: &[u8]) -> bool
    ensures { result ≡ is_among texts.now text.now }
{
    'each: for other in texts {
        if text == other.as_slice() {
            return true;
        }
    }
    false
}

/// A copy of a text.
fn copy_of(alloc: Global, bytes: &[u8]) -> Result<Text, NoMemory>
    ensures { IfOk result (λ x. x ≡ bytes.now) }
{
    let mut text = Text::new(alloc);
    text.extend(bytes)?;
    Ok(text)
}

/// Adds a text, unless it is there.
fn add(alloc: Global, texts: &mut Vec<Text>, text: &[u8]) -> Result<(), NoMemory>
    ensures { OnOk result (texts.new.items ≡ with_text texts.old.items text.now) }
{
    if is_among(texts.as_slice(), text) {
        return Ok(());
    }
    let Ok(()) = texts.push(copy_of(alloc, text)?) else {
        return Err(NoMemory);
    };
    Ok(())
}

fn answers_at(alloc: Global, outcomes: &[Outcome], place: usize) -> Result<Vec<Text>, NoMemory>
    ensures { IfOk result (λ v. v.items ≡ answers_at outcomes.now place) }
{
    let mut texts = Vec::new(alloc);
    'each: for outcome in outcomes {
        add(alloc, &mut texts, outcome.answer(place))?;
    }
    Ok(texts)
}

/// All that there is at the end.
pub fn rests_of(alloc: Global, outcomes: &[Outcome]) -> Result<Vec<Text>, NoMemory>
    ensures { IfOk result (λ v. v.items ≡ rests_of outcomes.now) }
{
    let mut texts = Vec::new(alloc);
    'each: for outcome in outcomes {
        add(alloc, &mut texts, outcome.rest())?;
    }
    Ok(texts)
}

fn column_at(
    alloc: Global,
    outcomes: &[Outcome],
    place: usize,
    line: &Line,
) -> Result<Column, NoMemory>
    ensures { IfOk result (λ c. c ≡ column_at outcomes.now place line.now) }
{
    Ok(Column {
        number: line.number,
        answers: answers_at(alloc, outcomes, place)?,
    })
}

/// The column of each line.
pub fn columns(alloc: Global, outcomes: &[Outcome], lines: &[Line]) -> Result<Vec<Column>, NoMemory>
    ensures { IfOk result (λ v. v.items ≡ columns outcomes.now 0 lines.now) }
{
    let mut found = Vec::new(alloc);
    'each: for (place, line) in lines.iter().enumerate() {
        let Ok(()) = found.push(column_at(alloc, outcomes, place, line)?) else {
            return Err(NoMemory);
        };
    }
    Ok(found)
}
