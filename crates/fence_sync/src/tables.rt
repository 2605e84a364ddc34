//! Fences and contexts by their numbers.
ghost use Rattle.std.specs.Prelude.{◌≡◌, ℕ, ◌+◌, ◌<◌, ◌==◌, ◌||◌, true, false, if◌then◌else◌, IfOk, OnOk, OnErr, None, Some, [], ◌∷◌, ◌++◌, is_some};
ghost use Rattle.std.specs.Option.{option_map};
ghost use Rattle.std.specs.Ordering.{nat_cmp};
ghost use Rattle.std.specs.BTreeMap.{get, keys};
ghost use Rattle.fence_sync.specs.Fences.{is_live, with_context, without_context};
ghost use Rattle.std.specs.BTreeSet.{insert_key};
ghost use Rattle.fence_sync.specs.Tables.{fences_in, is_flushed, marked_kept, signalled_at, AreMade};

use egl_calls::NoMemory;
use std::collections::BTreeMap;

/// There are never more fences.
const FENCE_LIMIT: usize = 4_294_967_295;

/// A fence as it is kept: its context, and whether it was signalled by itself.
#[derive(Clone, Copy, Drop)]
pub(crate) struct Kept {
    pub(crate) context: u64,
    pub(crate) is_signalled: bool,
}

pub(crate) type Table = BTreeMap<u64, Kept>;

/// For each context that made a fence, the first number of its fences that weren't flushed.
pub(crate) type Contexts = BTreeMap<u64, u64>;

pub(crate) fn add(table: &mut Table, n: u64, kept: Kept) -> Result<(), NoMemory>
    ensures added { OnOk result ((k : ℕ) → get nat_cmp table.new k ≡ (if k == n then Some kept else get nat_cmp table.old k)) }
    ensures same { OnErr result ((k : ℕ) → get nat_cmp table.new k ≡ get nat_cmp table.old k) }
{
    match table.insert(n, kept) {
        Ok(_) => Ok(()),
        Err(_) => Err(NoMemory),
    }
}

pub(crate) fn take(table: &mut Table, n: u64)
    ensures { (k : ℕ) → get nat_cmp table.new k ≡ (if k == n then None else get nat_cmp table.old k) }
{
    let _ = table.remove(&n);
}

/// Marks a fence as signalled, if it is there.
pub(crate) fn mark(table: &mut Table, n: u64)
    ensures { (k : ℕ) → get nat_cmp table.new k ≡ (if k == n then option_map marked_kept (get nat_cmp table.old k) else get nat_cmp table.old k) }
{
    if let Some(kept) = kept_at(table, n) {
        let marked = Kept {
            context: kept.context,
            is_signalled: true,
        };
        let _ = table.insert(n, marked);
    }
}

pub(crate) fn kept_at(table: &Table, n: u64) -> Option<Kept>
    ensures { result ≡ get nat_cmp table.now n }
{
    table.get(&n).copied()
}

/// The fences of a context from this number on aren't flushed.
pub(crate) fn note(contexts: &mut Contexts, context: u64, from: u64) -> Result<(), NoMemory>
    ensures noted { OnOk result ((k : ℕ) → get nat_cmp contexts.new k ≡ (if k == context then Some from else get nat_cmp contexts.old k)) }
    ensures joined { OnOk result (keys contexts.new ≡ insert_key nat_cmp (keys contexts.old) context) }
    ensures same { OnErr result ((k : ℕ) → get nat_cmp contexts.new k ≡ get nat_cmp contexts.old k) }
    ensures same_keys { OnErr result (keys contexts.new ≡ keys contexts.old) }
{
    match contexts.insert(context, from) {
        Ok(_) => Ok(()),
        Err(_) => Err(NoMemory),
    }
}

pub(crate) fn has(contexts: &Contexts, context: u64) -> bool
    ensures { result ≡ is_some (get nat_cmp contexts.now context) }
{
    contexts.contains_key(&context)
}

/// The fences of a context below this number are flushed, where it has any.
pub(crate) fn raise(contexts: &mut Contexts, context: u64, from: u64)
    ensures raised { (k : ℕ) → get nat_cmp contexts.new k ≡ (if k == context then (if is_some (get nat_cmp contexts.old context) then Some from else None) else get nat_cmp contexts.old k) }
    ensures same_keys { keys contexts.new ≡ keys contexts.old }
{
    if has(contexts, context) {
        let _ = contexts.insert(context, from);
    }
}

pub(crate) fn forget(contexts: &mut Contexts, context: u64)
    ensures forgotten { (k : ℕ) → get nat_cmp contexts.new k ≡ (if k == context then None else get nat_cmp contexts.old k) }
    ensures left { keys contexts.new ≡ without_context context (keys contexts.old) }
    ensures gone { is_live context (keys contexts.new) ≡ false }
{
    let _ = contexts.remove(&context);
}

pub(crate) fn flushed_at(contexts: &Contexts, context: u64, n: u64) -> bool
    ensures { result ≡ is_flushed (get nat_cmp contexts.now context) n }
{
    match contexts.get(&context) {
        Some(from) => n < *from,
        None => true,
    }
}

/// Whether a fence is signalled; never where it isn't there.
pub(crate) fn is_signalled_in(table: &Table, contexts: &Contexts, n: u64) -> bool
    ensures { result ≡ signalled_at (get nat_cmp contexts.now) n (get nat_cmp table.now n) }
{
    match kept_at(table, n) {
        Some(kept) => kept.is_signalled || flushed_at(contexts, kept.context, n),
        None => false,
    }
}

/// A new fence of a context, which isn't flushed.
pub(crate) fn create_in(
    table: &mut Table,
    contexts: &mut Contexts,
    made: &mut u64,
    context: u64,
) -> Result<u64, NoMemory>
    requires { AreMade (get nat_cmp table.old) (get nat_cmp contexts.old) made.old }
    ensures sync { IfOk result (λ n. n ≡ made.old) }
    ensures created { OnOk result (fences_in (get nat_cmp table.new) (get nat_cmp contexts.new) made.new ≡ fences_in (get nat_cmp table.old) (get nat_cmp contexts.old) made.old ++ record { sync = made.old; context = context; is_signalled = false } ∷ []) }
    ensures known { OnOk result (keys contexts.new ≡ with_context context (keys contexts.old)) }
    ensures made { OnOk result (made.new ≡ made.old + 1) }
    ensures same { OnErr result (fences_in (get nat_cmp table.new) (get nat_cmp contexts.new) made.new ≡ fences_in (get nat_cmp table.old) (get nat_cmp contexts.old) made.old) }
    ensures same_known { OnErr result (keys contexts.new ≡ keys contexts.old) }
    ensures same_made { OnErr result (made.new ≡ made.old) }
    ensures are_made { AreMade (get nat_cmp table.new) (get nat_cmp contexts.new) made.new }
{
    let n = *made;
    if n == u64::MAX || table.len() >= FENCE_LIMIT {
        return Err(NoMemory);
    }
    let kept = Kept {
        context,
        is_signalled: false,
    };
    if has(contexts, context) {
        add(table, n, kept)?;
        *made = n + 1;
        return Ok(n);
    }
    add(table, n, kept)?;
    match note(contexts, context, n) {
        Ok(()) => {
            *made = n + 1;
            Ok(n)
        }
        Err(NoMemory) => {
            take(table, n);
            Err(NoMemory)
        }
    }
}
