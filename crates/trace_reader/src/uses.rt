//! The references of a line's arguments.
ghost use Rattle.std.specs.Prelude.{◌≡◌, ◌+◌, ◌≤◌, [], ◌++◌, length, map, is_some, true, All, IfOk, OnOk, IfSome};
ghost use Rattle.std.specs.List.{list_all};
ghost use Rattle.trace_reader.specs.Arguments.{argument_references, are_known, is_known, is_known_argument, item_references, place_behind, reference_at, references};
ghost use Rattle.trace_reader.specs.Lists.{items};
ghost use Rattle.trace_reader.specs.Order.{LeadsToOne};

use crate::line_uses::LineUses;
use crate::lists::{inside, is_bracketed};
use crate::references::{is_reference, used_in};
use crate::traces::{Reference, Uses};
use crate::variables::Variables;
use call_table::Form;
use egl_calls::NoMemory;
use std::alloc::Global;

/// How many items of a list may be numbered.
const MOST_ITEMS: u32 = 4_294_967_295;

/// How many of the words are references.
fn reference_count(words: &[&[u8]]) -> usize
    ensures { result ≤ length words.now }
{
    let mut count = 0usize;
    for word in words {
        if is_reference(word) {
            count += 1;
        }
    }
    count
}

/// No references, with room for so many.
fn no_uses(alloc: Global, room: usize) -> Result<Uses, NoMemory>
    ensures { IfOk result (λ u. u ≡ []) }
{
    match Vec::with_capacity(alloc, room) {
        Ok(items) => Ok(Uses::from_vec(items)),
        Err(_) => Err(NoMemory),
    }
}

/// Adds the reference that a word is, and answers false where it is one to a variable that no line assigns.
fn push_reference(
    variables: &Variables<'_>,
    in_list: bool,
    place: u32,
    word: &[u8],
    uses: &mut Uses,
) -> Result<bool, NoMemory>
    ensures known { IfOk result (λ b. b ≡ is_known variables.now word.now) }
    ensures added { OnOk result (uses.new ≡ uses.old ++ reference_at variables.now in_list place word.now) }
    ensures all { OnOk result (All (LeadsToOne (length variables.now)) uses.old → All (LeadsToOne (length variables.now)) uses.new) }
{
    if !is_reference(word) {
        return Ok(true);
    }
    match used_in(variables, word) {
        Some(used) => {
            uses.push(Reference {
                in_list,
                place,
                variable: used.variable,
                item: used.item,
            })?;
            Ok(true)
        }
        None => Ok(false),
    }
}

/// The place of the item behind one. There is no memory for more than 4,294,967,295 items.
fn next_item(place: u32) -> Result<u32, NoMemory>
    ensures { IfOk result (λ n. n ≡ place + 1) }
{
    if place >= MOST_ITEMS {
        return Err(NoMemory);
    }
    Ok(place + 1)
}

/// Adds the references among the items that commas part, and answers whether each is to a variable that some line assigns.
fn push_items(variables: &Variables<'_>, text: &[u8], uses: &mut Uses) -> Result<bool, NoMemory>
    ensures known { IfOk result (λ b. b ≡ list_all (is_known variables.now) (items text.now)) }
    ensures added { OnOk result (uses.new ≡ uses.old ++ item_references variables.now 0 (items text.now)) }
    ensures all { OnOk result (All (LeadsToOne (length variables.now)) uses.old → All (LeadsToOne (length variables.now)) uses.new) }
{
    if text.is_empty() {
        return Ok(true);
    }
    let mut known = true;
    let mut place = 0u32;
    'items: for item in text.split(|b| *b == b',') {
        if !push_reference(variables, true, place, item, uses)? {
            known = false;
        }
        place = next_item(place)?;
    }
    Ok(known)
}

/// Adds the references of an argument of a form, and answers whether each is to a variable that some line assigns.
fn push_references(
    variables: &Variables<'_>,
    place: u32,
    form: Form,
    word: &[u8],
    uses: &mut Uses,
) -> Result<bool, NoMemory>
    ensures known { IfOk result (λ b. b ≡ is_known_argument variables.now form word.now) }
    ensures added { OnOk result (uses.new ≡ uses.old ++ argument_references variables.now place form word.now) }
    ensures all { OnOk result (All (LeadsToOne (length variables.now)) uses.old → All (LeadsToOne (length variables.now)) uses.new) }
{
    match form {
        Form::NumberOrVariable => push_reference(variables, false, place, word, uses),
        Form::NameList => {
            if is_bracketed(word) {
                push_items(variables, inside(word), uses)
            } else {
                Ok(true)
            }
        }
        Form::Number
        | Form::Config
        | Form::PostNumber
        | Form::Timeout
        | Form::AttributeList
        | Form::NumberList
        | Form::Payload => Ok(true),
    }
}

/// The place of the number behind an argument of a form.
fn place_behind(place: u32, form: Form) -> u32
    requires { place ≤ 8 }
    ensures value { result ≡ place_behind place form }
    ensures near { result ≤ place + 1 }
{
    match form {
        Form::Number | Form::Config | Form::NumberOrVariable | Form::PostNumber | Form::Timeout =>
            place + 1,
        Form::AttributeList | Form::NumberList | Form::NameList | Form::Payload => place,
    }
}

/// The references of arguments of these forms; nothing where one is to a variable that no line assigns.
pub fn references(
    alloc: Global,
    variables: &Variables<'_>,
    forms: &[Form],
    words: &[&[u8]],
) -> Result<Option<LineUses>, NoMemory>
    requires few { length forms.now ≤ 9 }
    requires count { length words.now ≡ length forms.now }
    ensures known { IfOk result (λ o. is_some o ≡ are_known variables.now forms.now (map (λ w. w.now) words.now)) }
    ensures value { IfOk result (λ o. IfSome o (λ u. u ≡ references variables.now 0 forms.now (map (λ w. w.now) words.now))) }
    ensures all { IfOk result (λ o. IfSome o (All (LeadsToOne (length variables.now)))) }
{
    let mut uses = no_uses(alloc, reference_count(words))?;
    let mut place = 0u32;
    for k in 0..forms.len() {
        if !push_references(variables, place, forms[k], words[k], &mut uses)? {
            return Ok(None);
        }
        place = place_behind(place, forms[k]);
    }
    Ok(Some(LineUses::new(alloc, uses)?))
}
