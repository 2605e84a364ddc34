//! What is kept of the answers of a trace's variables.
ghost use Rattle.std.specs.Prelude.{◌≡◌, pos, Some, None, true, IfOk, IfSome, is_some, slice_index_or};
ghost use Rattle.std.specs.Arc.{arc_value};
ghost use Rattle.egl_calls.specs.Ranges.{IsNumber};
ghost use Rattle.trace_model.specs.Resolve.{item_of};
ghost use Rattle.trace_session.specs.Sessions.{kept_of};
ghost use Rattle.trace_session.specs.Slots.{named_answer, plain_answer};

use egl_calls::{Bytes, NoMemory, Outcome, Reply, is_done};
use once_cell::race::OnceBox;
use std::alloc::Global;
use std::marker::Model;
use std::sync::Arc;

/// Where the sessions of a run share what they keep of the answer of a variable, if that has a list. The first session that learns the answer writes it, once. Another reads it, and takes it only where it is what the session has just learnt.
pub type SharedList = OnceBox<Arc<Reply>>;

/// Most answers have no list, or one name and no value, and each worker of a run keeps one for each variable: so one with more stands apart.
#[derive(Drop)]
enum Kept {
    Open,
    Plain(i64),
    Named(i64),
    Listed(Arc<Reply>),
}

/// What is kept of the answer of a variable, once it has one: its value and its list, since no reference can name more.
#[derive(Drop)]
pub struct Slot {
    kept: Kept,
}

impl Model for Slot {
    ghost use Rattle.std.specs.Prelude.{Option};
    ghost use Rattle.egl_calls.specs.Calls.{ReplyValue};
    ghost use Rattle.trace_session.specs.Slots.{HasNumber, kept_answer};

    ghost Value = { Option ReplyValue };

    ghost view = { λ s. kept_answer s.kept };

    ghost invariant = { λ s. HasNumber s.kept };
}

/// What is kept of an answer that has a list.
fn listed(alloc: Global, reply: &Reply) -> Result<Reply, NoMemory>
    ensures { IfOk result (λ r. r ≡ kept_of reply.now) }
{
    Ok(Reply {
        outcome: Outcome::Done,
        value: reply.value,
        list: reply.list.copy(alloc)?,
        bytes: Bytes::new(alloc),
    })
}

/// Whether this is what is kept of an answer.
#[tactic(auto, using(crate::proofs::SlotLaws::same_kept))]
fn is_kept_of(kept: &Reply, reply: &Reply) -> bool
    ensures { result ≡ true → kept.now ≡ kept_of reply.now }
{
    if !is_done(kept.outcome) || kept.bytes.len() != 0 || kept.value != reply.value {
        return false;
    }
    kept.list.as_slice() == reply.list.as_slice()
}

/// The value of an answer, or a number of its list, which is 0 where it has none.
fn item_of(reply: &Reply, item: Option<u32>) -> i64
    ensures value { result ≡ item_of (Some reply.now) item }
    ensures number { IsNumber result }
{
    match item {
        None => reply.value,
        Some(item) => item_at(reply, item as usize),
    }
}

fn item_at(reply: &Reply, item: usize) -> i64
    ensures value { result ≡ slice_index_or reply.now.list item (pos 0) }
    ensures number { IsNumber result }
{
    let list = reply.list.as_slice();
    if item < list.len() { list[item] } else { 0 }
}

/// What another session wrote of an answer.
fn list_shared(cell: &SharedList, reply: &Reply) -> Option<Arc<Reply>>
    ensures { IfSome result (λ l. arc_value l ≡ kept_of reply.now) }
{
    let kept = cell.get()?;
    if !is_kept_of(kept, reply) {
        return None;
    }
    match Arc::try_clone(kept) {
        Ok(kept) => Some(kept),
        Err(_) => None,
    }
}

/// Writes what is kept of an answer for other sessions. Where one of them was first, what that wrote stays.
fn share(alloc: Global, cell: &SharedList, list: &Arc<Reply>) -> Result<(), NoMemory> {
    let Ok(shared) = Arc::try_clone(list) else {
        return Err(NoMemory);
    };
    let Ok(shared) = Box::new(alloc, shared) else {
        return Err(NoMemory);
    };
    let _was_first = cell.set(shared);
    Ok(())
}

/// What is kept of an answer that has a list, in memory of its own.
fn list_made(alloc: Global, reply: &Reply) -> Result<Arc<Reply>, NoMemory>
    ensures { IfOk result (λ l. arc_value l ≡ kept_of reply.now) }
{
    match Arc::new(alloc, listed(alloc, reply)?) {
        Ok(list) => Ok(list),
        Err(_) => Err(NoMemory),
    }
}

/// The same, once for all sessions that share it.
fn list_of(alloc: Global, reply: &Reply, cell: Option<&SharedList>) -> Result<Arc<Reply>, NoMemory>
    ensures { IfOk result (λ l. arc_value l ≡ kept_of reply.now) }
{
    let Some(cell) = cell else {
        return list_made(alloc, reply);
    };
    if let Some(shared) = list_shared(cell, reply) {
        return Ok(shared);
    }
    let list = list_made(alloc, reply)?;
    share(alloc, cell, &list)?;
    Ok(list)
}

/// The value of an answer that has a value alone, and 0 for a number of its list.
fn plain_item(value: i64, item: Option<u32>) -> i64
    requires { IsNumber value }
    ensures value { result ≡ item_of (Some (plain_answer value)) item }
    ensures number { IsNumber result }
{
    if item.is_none() { value } else { 0 }
}

/// The same of an answer that has a name alone.
#[tactic(auto, using(crate::proofs::SlotLaws::unnamed))]
fn named_item(name: i64, item: Option<u32>) -> i64
    requires { IsNumber name }
    ensures value { result ≡ item_of (Some (named_answer name)) item }
    ensures number { IsNumber result }
{
    match item {
        Some(place) => { if place == 0 { name } else { 0 } }
        None => 0,
    }
}

impl Slot {
    /// The slot of a variable without an answer.
    pub fn open() -> Slot
        ensures { result ≡ None }
    {
        Slot { kept: Kept::Open }
    }

    /// The slot of a variable that this reply answers, with the list that sessions share, if they do.
    #[tactic(auto, using(crate::proofs::SlotLaws::plain_is, crate::proofs::SlotLaws::named_is))]
    pub fn new(alloc: Global, reply: &Reply, cell: Option<&SharedList>) -> Result<Slot, NoMemory>
        ensures { IfOk result (λ s. s ≡ Some (kept_of reply.now)) }
    {
        let list = reply.list.as_slice();
        if list.len() == 0 {
            let kept = Kept::Plain(reply.value);
            return Ok(Slot { kept });
        }
        if list.len() == 1 && reply.value == 0 {
            let kept = Kept::Named(list[0]);
            return Ok(Slot { kept });
        }
        let kept = Kept::Listed(list_of(alloc, reply, cell)?);
        Ok(Slot { kept })
    }

    pub fn is_answered(&self) -> bool
        ensures { result ≡ is_some self.now }
    {
        match &self.kept {
            Kept::Open => false,
            Kept::Plain(_) => true,
            Kept::Named(_) => true,
            Kept::Listed(_) => true,
        }
    }

    /// The value of the answer, or a number of its list; 0 where it has none, or there is no answer.
    pub fn item(&self, item: Option<u32>) -> i64
        ensures value { result ≡ item_of self.now item }
        ensures number { IsNumber result }
    {
        match &self.kept {
            Kept::Open => 0,
            Kept::Plain(value) => plain_item(*value, item),
            Kept::Named(name) => named_item(*name, item),
            Kept::Listed(reply) => item_of(reply, item),
        }
    }
}
