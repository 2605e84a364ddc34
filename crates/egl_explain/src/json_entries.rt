//! What is told of an entry to programs.
ghost use Rattle.std.specs.Prelude.{◌≡◌, ◌+◌, ◌<◌, [], ◌∷◌, ◌++◌, codes, map, IfOk, OnOk};
ghost use Rattle.std.specs.Option.{option_map};
ghost use Rattle.json_lines.specs.Lists.{items_of_list};
ghost use Rattle.json_lines.specs.Objects.{members_of};
ghost use Rattle.serde_json.specs.Data.{object, put};
ghost use Rattle.egl_explain.specs.JsonEntries.{AreRows, TellsEntry, TellsRows, call_members, codes_of, is_refused, kind_members, line_members, named_data, outcome_data, played_members, row_data, with_name, with_values};

use crate::entry_lines::code_at;
use crate::headers::name_with;
use crate::row_words::row_words;
use call_table::call_name;
use driver_core::Refusals;
use egl_calls::{Call, Entry, Kind, NoMemory, Outcome, Reply};
use egl_names::name_of;
use json_lines::{JsonList, JsonObject};
use refusal_rows::MOST_ROWS;
use std::alloc::Global;

/// An object that tells of a thing of a kind.
pub fn object_of(alloc: Global, kind: &str) -> Result<JsonObject, NoMemory>
    ensures { IfOk result (λ o. members_of o ≡ kind_members kind.now) }
{
    let mut object = JsonObject::new(alloc);
    object.put_text("kind", kind)?;
    Ok(object)
}

/// The same of a line of a thread.
pub fn object_of_line(
    alloc: Global,
    kind: &str,
    thread: u32,
    line: u64,
) -> Result<JsonObject, NoMemory>
    ensures { IfOk result (λ o. members_of o ≡ line_members kind.now thread line) }
{
    let mut object = object_of(alloc, kind)?;
    object.put_count("thread", u64::from(thread))?;
    object.put_count("line", line)?;
    Ok(object)
}

/// A number, by its name where it has one.
fn put_named(object: &mut JsonObject, name: &str, number: i64) -> Result<(), NoMemory>
    ensures { OnOk result (members_of object.new ≡ put name.now (named_data number) (members_of object.old)) }
{
    match name_of(number) {
        Some(word) => object.put_text(name, word),
        None => object.put_number(name, number),
    }
}

fn push_named(list: &mut JsonList, number: i64) -> Result<(), NoMemory>
    ensures { OnOk result (items_of_list list.new ≡ items_of_list list.old ++ named_data number ∷ []) }
{
    match name_of(number) {
        Some(word) => list.push_text(word),
        None => list.push_number(number),
    }
}

fn numbers_list(alloc: Global, numbers: &[i64]) -> Result<JsonList, NoMemory>
    ensures { IfOk result (λ l. items_of_list l ≡ map named_data numbers.now) }
{
    let mut list = JsonList::new(alloc);
    'each: for number in numbers {
        push_named(&mut list, *number)?;
    }
    Ok(list)
}

/// How a call came out: an error by its name.
fn put_outcome(object: &mut JsonObject, outcome: Outcome) -> Result<(), NoMemory>
    ensures { OnOk result (members_of object.new ≡ put (codes "outcome") (outcome_data outcome) (members_of object.old)) }
{
    match outcome {
        Outcome::Done => object.put_text("outcome", "ok"),
        Outcome::Egl(error) => put_named(object, "outcome", i64::from(error.code())),
        Outcome::Gl(error) => put_named(object, "outcome", i64::from(error.code())),
        Outcome::Waiting => object.put_text("outcome", "waiting"),
        Outcome::InWait => object.put_text("outcome", "in_wait"),
        Outcome::NoWait => object.put_text("outcome", "no_wait"),
    }
}

/// What was answered: the value, the list, and how many bytes.
fn put_values(alloc: Global, object: &mut JsonObject, reply: &Reply) -> Result<(), NoMemory>
    ensures { OnOk result (members_of object.new ≡ with_values reply.now (members_of object.old)) }
{
    put_named(object, "value", reply.value)?;
    object.put_list("list", numbers_list(alloc, reply.list.as_slice())?)?;
    object.put_count("bytes", reply.bytes.len())
}

/// An entry's line, its call, and how that came out.
fn call_object(
    alloc: Global,
    kind: &str,
    entry: &Entry,
    reply: &Reply,
) -> Result<JsonObject, NoMemory>
    ensures { IfOk result (λ o. members_of o ≡ call_members kind.now entry.now reply.now) }
{
    let mut object = object_of_line(alloc, kind, entry.thread, entry.mark)?;
    object.put_text("call", call_name(entry.call.kind))?;
    put_outcome(&mut object, reply.outcome)?;
    Ok(object)
}

/// The same, with what it answered.
fn played_object(
    alloc: Global,
    kind: &str,
    entry: &Entry,
    reply: &Reply,
) -> Result<JsonObject, NoMemory>
    ensures { IfOk result (λ o. members_of o ≡ played_members kind.now entry.now reply.now) }
{
    let mut object = call_object(alloc, kind, entry, reply)?;
    put_values(alloc, &mut object, reply)?;
    Ok(object)
}

/// A row that holds: its error, and its condition in words.
fn row_object(alloc: Global, code: u32, words: Option<&'static str>) -> Result<JsonObject, NoMemory>
    ensures { IfOk result (λ o. object (members_of o) ≡ row_data code (option_map (λ w. w.now) words.entry)) }
{
    let mut object = JsonObject::new(alloc);
    put_named(&mut object, "error", i64::from(code))?;
    if let Some(words) = words {
        object.put_text("condition", words)?;
    }
    Ok(object)
}

/// The row at a place, where it holds.
#[tactic(auto, using(crate::proofs::JsonLaws::row_held, crate::proofs::JsonLaws::row_free))]
fn push_row(
    alloc: Global,
    list: &mut JsonList,
    kind: Kind,
    refusals: &Refusals,
    place: usize,
) -> Result<(), NoMemory>
    requires place { place < 16 }
    requires rows { AreRows (codes_of refusals.now place) (items_of_list list.old) }
    ensures { OnOk result (AreRows (codes_of refusals.now (place + 1)) (items_of_list list.new)) }
{
    match code_at(refusals, place) {
        Some(code) => list.push_object(row_object(alloc, code, row_words(kind, place))?),
        None => Ok(()),
    }
}

/// The rows that hold, of which the first decides.
#[tactic(auto, using(crate::proofs::JsonLaws::no_rows))]
fn rows_list(alloc: Global, kind: Kind, refusals: &Refusals) -> Result<JsonList, NoMemory>
    ensures { IfOk result (λ l. AreRows (codes_of refusals.now 16) (items_of_list l)) }
{
    let mut list = JsonList::new(alloc);
    'rows: for place in 0..MOST_ROWS {
        push_row(alloc, &mut list, kind, refusals, place)?;
    }
    Ok(list)
}

/// The first of some numbers that is that of a name in the headers.
fn header_name_in(numbers: &[i64]) -> Option<&'static str> {
    'each: for number in numbers {
        if let Some(name) = name_with(*number) {
            return Some(name);
        }
    }
    None
}

/// The name that a call should have where it has a number of the headers.
fn header_name(call: &Call) -> Option<&'static str> {
    match header_name_in(&call.args) {
        Some(name) => Some(name),
        None => header_name_in(call.list.as_slice()),
    }
}

fn put_header_name(object: &mut JsonObject, name: Option<&'static str>) -> Result<(), NoMemory>
    ensures { OnOk result (members_of object.new ≡ with_name (option_map (λ w. w.now) name.entry) (members_of object.old)) }
{
    match name {
        Some(name) => object.put_text("header_name", name),
        None => Ok(()),
    }
}

/// Why a call was refused.
#[tactic(auto, using(crate::proofs::JsonLaws::tells_rows))]
fn put_refusal(
    alloc: Global,
    object: &mut JsonObject,
    call: &Call,
    refusals: &Refusals,
) -> Result<(), NoMemory>
    ensures { OnOk result (TellsRows refusals.now (members_of object.old) (members_of object.new)) }
{
    object.put_list("holds", rows_list(alloc, call.kind, refusals)?)?;
    put_header_name(object, header_name(call))?;
    Ok(())
}

fn is_refused(outcome: Outcome) -> bool
    ensures { result ≡ is_refused outcome }
{
    matches!(outcome, Outcome::Egl(_) | Outcome::Gl(_))
}

/// An entry: its call, what that answered, and where it was refused each row that held.
#[tactic(auto, using(crate::proofs::JsonLaws::tells_refusal, crate::proofs::JsonLaws::tells_nothing))]
pub fn entry_object(
    alloc: Global,
    kind: &str,
    entry: &Entry,
    reply: &Reply,
    refusals: &Refusals,
) -> Result<JsonObject, NoMemory>
    ensures { IfOk result (λ o. TellsEntry kind.now entry.now reply.now refusals.now (members_of o)) }
{
    let mut object = played_object(alloc, kind, entry, reply)?;
    if is_refused(reply.outcome) {
        put_refusal(alloc, &mut object, &entry.call, refusals)?;
    }
    Ok(object)
}
