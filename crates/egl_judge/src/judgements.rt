//! The text of a judgement.
ghost use Rattle.std.specs.Prelude.{◌≡◌, ◌≤◌, ◌++◌, codes, length, option_copied, IfOk, OnOk};
ghost use Rattle.std.specs.List.{flat_map};
ghost use Rattle.egl_judge.specs.Judgements.{agreed_text, count_of, cut_text, differs, end_text, head_text, is_after, is_unjudged, judgement_text, last_text, note_text, told_text, verdict_text, why_text, word_text};

use crate::differences::put_difference;
use call_table::call_name;
use driver_judge::{CutCall, Judgement, LineVerdict, Note, Unjudged};
use egl_calls::{Bytes, NoMemory, Text};
use journal_text::texts::{put_byte, put_decimal, put_decimal_and_space, put_text};
use std::alloc::Global;

/// How many lines differ.
pub fn count_differences(notes: &[Note]) -> u64
    ensures { result ≡ count_of differs notes.now }
{
    let mut count = 0u64;
    'each: for note in notes {
        if matches!(note.verdict, LineVerdict::Differs(_)) {
            count += 1;
        }
    }
    count
}

/// How many lines stand on one of which there is no answer.
fn count_after(notes: &[Note]) -> u64
    ensures { result ≡ count_of is_after notes.now }
{
    let mut count = 0u64;
    'each: for note in notes {
        if matches!(note.verdict, LineVerdict::After(_)) {
            count += 1;
        }
    }
    count
}

/// How many lines can't be judged.
fn count_unjudged(notes: &[Note]) -> u64
    ensures { result ≡ count_of is_unjudged notes.now }
{
    let mut count = 0u64;
    'each: for note in notes {
        if matches!(note.verdict, LineVerdict::Unjudged(_)) {
            count += 1;
        }
    }
    count
}

/// Whether a call was under way at the end.
fn put_end(out: &mut Bytes, cut: Option<&CutCall>) -> Result<(), NoMemory>
    ensures { OnOk result (out.new ≡ out.old ++ end_text (option_copied cut.entry)) }
{
    match cut {
        Some(_) => put_text(out, "cut"),
        None => put_text(out, "whole"),
    }
}

/// How many lines there are, and how many of them agree.
fn put_agreed(out: &mut Bytes, judgement: &Judgement) -> Result<(), NoMemory>
    ensures { OnOk result (out.new ≡ out.old ++ agreed_text judgement.now) }
{
    put_text(out, "judged ")?;
    put_decimal(out, judgement.lines())?;
    put_text(out, " agreed ")?;
    put_decimal(out, judgement.agreed())
}

/// How many lines there are of each other kind.
fn put_told(out: &mut Bytes, notes: &[Note]) -> Result<(), NoMemory>
    ensures { OnOk result (out.new ≡ out.old ++ told_text notes.now) }
{
    put_text(out, " differences ")?;
    put_decimal(out, count_differences(notes))?;
    put_text(out, " after ")?;
    put_decimal(out, count_after(notes))?;
    put_text(out, " unjudged ")?;
    put_decimal(out, count_unjudged(notes))
}

/// How many values are the driver's own, and whether the log is whole.
fn put_last(out: &mut Bytes, judgement: &Judgement) -> Result<(), NoMemory>
    ensures { OnOk result (out.new ≡ out.old ++ last_text judgement.now) }
{
    put_text(out, " own ")?;
    put_decimal_and_space(out, judgement.own())?;
    put_end(out, judgement.cut())?;
    put_byte(out, b'\n')
}

/// How many lines there are of each kind.
#[tactic(auto, unfolding(crate::specs::Judgements::head_text))]
fn put_head(out: &mut Bytes, judgement: &Judgement) -> Result<(), NoMemory>
    ensures { OnOk result (out.new ≡ out.old ++ head_text judgement.now) }
{
    put_agreed(out, judgement)?;
    put_told(out, judgement.notes())?;
    put_last(out, judgement)
}

fn why_text(why: Unjudged) -> &'static str
    ensures { result.now ≡ why_text why }
{
    match why {
        Unjudged::Config => "config",
        Unjudged::Name => "name",
    }
}

/// The line of a line that doesn't agree.
#[tactic(auto, unfolding(crate::specs::Judgements::verdict_text))]
fn put_verdict(out: &mut Bytes, line: u64, verdict: &LineVerdict) -> Result<(), NoMemory>
    ensures { OnOk result (out.new ≡ out.old ++ verdict_text line verdict.now) }
{
    match verdict {
        LineVerdict::Agreed | LineVerdict::Own => Ok(()),
        LineVerdict::Differs(difference) => {
            put_text(out, "difference ")?;
            put_decimal_and_space(out, line)?;
            put_difference(out, difference)?;
            put_byte(out, b'\n')
        }
        LineVerdict::After(fault) => {
            put_text(out, "after ")?;
            put_decimal_and_space(out, line)?;
            put_decimal(out, *fault)?;
            put_byte(out, b'\n')
        }
        LineVerdict::Unjudged(why) => {
            put_text(out, "unjudged ")?;
            put_decimal_and_space(out, line)?;
            put_text(out, why_text(*why))?;
            put_byte(out, b'\n')
        }
    }
}

/// A line for each line that doesn't agree.
fn put_notes(out: &mut Bytes, notes: &[Note]) -> Result<(), NoMemory>
    ensures { OnOk result (out.new ≡ out.old ++ flat_map note_text notes.now) }
{
    'each: for note in notes {
        put_verdict(out, note.line, &note.verdict)?;
    }
    Ok(())
}

/// The word of a crash, and a space before it.
fn put_word(out: &mut Bytes, word: Option<&Text>) -> Result<(), NoMemory>
    ensures { OnOk result (out.new ≡ out.old ++ word_text (option_copied word.entry)) }
{
    match word {
        Some(word) => {
            put_byte(out, b' ')?;
            out.extend(word.as_slice())
        }
        None => Ok(()),
    }
}

/// The line of the call that was under way at the end.
#[tactic(auto, unfolding(crate::specs::Judgements::cut_text))]
fn put_cut(out: &mut Bytes, cut: Option<&CutCall>) -> Result<(), NoMemory>
    ensures { OnOk result (out.new ≡ out.old ++ cut_text (option_copied cut.entry)) }
{
    match cut {
        Some(cut) => {
            put_text(out, "cut ")?;
            put_decimal_and_space(out, cut.line)?;
            put_text(out, call_name(cut.kind))?;
            put_word(out, cut.word.as_ref())?;
            put_byte(out, b'\n')
        }
        None => Ok(()),
    }
}

/// What is found in a log: how many lines there are of each kind, a line for each that doesn't agree, and the call that was under way at the end.
#[tactic(auto, unfolding(crate::specs::Judgements::judgement_text))]
pub fn judgement_text(alloc: Global, judgement: &Judgement) -> Result<Bytes, NoMemory>
    ensures { IfOk result (λ b. b ≡ judgement_text judgement.now) }
{
    let mut out = Bytes::new(alloc);
    put_head(&mut out, judgement)?;
    put_notes(&mut out, judgement.notes())?;
    put_cut(&mut out, judgement.cut())?;
    put_text(&mut out, "end\n")?;
    Ok(out)
}
