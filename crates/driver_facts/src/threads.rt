//! The records of the threads.
ghost use Rattle.std.specs.Prelude.{◌≡◌, ◌+◌, ◌<◌, ◌≤◌, ◌∷◌, ◌++◌, [], false, OnOk, OnErr, List, length, slice_index_or, slice_set, replicate, IfOk};
ghost use Rattle.std.specs.List.{list_any};
ghost use Rattle.display_table.specs.declared.handles.Handle.{Handle};
ghost use Rattle.egl_model.specs.State.{initial, capacity};
ghost use Rattle.egl_model.specs.Currents.{is_bound, has_context, has_surface, others, is_context_elsewhere, is_surface_elsewhere};
ghost use Rattle.egl_model.specs.Contexts.{draws_with, is_drawn_with};
ghost use Rattle.egl_model.specs.Sweep.{roots_of};
ghost use Rattle.driver_facts.specs.Threads.{padded};

use egl_calls::{EglError, NoMemory};
use egl_model::{Bound, ClientApi, ThreadRecord};
use std::alloc::Global;
use std::marker::Model;

/// What is kept for each thread that was made.
#[derive(Drop)]
pub struct ThreadTable {
    records: Vec<ThreadRecord>,
    // for each of them whether its part is out
    away: Vec<bool>,
}

impl Model for ThreadTable {
    ghost use Rattle.std.specs.Prelude.{length};
    ghost use Rattle.driver_facts.specs.Threads.{ThreadsValue, AreThreads, padded};

    ghost Value = { ThreadsValue };

    ghost view = { λ t. record { made = length t.records.items; records = padded t.records.items; away = t.away.items } };

    ghost invariant = { λ t. AreThreads (length t.records.items) t.away.items };
}

/// The record of a thread that has made no call.
const INITIAL: ThreadRecord = ThreadRecord {
    error: EglError::Success,
    api: ClientApi::OpenGlEs,
    context: None,
    draw: None,
    read: None,
    wait: None,
};

/// Whether an object is bound there.
fn is_bound(object: u64, bound: Option<Bound>) -> bool
    ensures { result ≡ is_bound object bound }
{
    match bound {
        Some(bound) => bound.object == object,
        None => false,
    }
}

fn has_surface(object: u64, kept: ThreadRecord) -> bool
    ensures { result ≡ has_surface object kept }
{
    is_bound(object, kept.draw) || is_bound(object, kept.read)
}

fn draws_with(object: u64, kept: ThreadRecord) -> bool
    ensures { result ≡ draws_with object kept }
{
    is_bound(object, kept.context) && kept.draw.is_some()
}

fn any_draws_with(records: &[ThreadRecord], object: u64) -> bool
    ensures { result ≡ list_any (draws_with object) records.now }
{
    'each: for kept in records {
        if draws_with(object, *kept) {
            return true;
        }
    }
    false
}

fn any_other_has_context(records: &[ThreadRecord], thread: usize, object: u64) -> bool
    ensures { result ≡ list_any (has_context object) (others records.now thread) }
{
    'each: for k in 0..records.len() {
        if k != thread && is_bound(object, records[k].context) {
            return true;
        }
    }
    false
}

fn any_other_has_surface(records: &[ThreadRecord], thread: usize, object: u64) -> bool
    ensures { result ≡ list_any (has_surface object) (others records.now thread) }
{
    'each: for k in 0..records.len() {
        if k != thread && has_surface(object, records[k]) {
            return true;
        }
    }
    false
}

fn write(records: &mut Vec<ThreadRecord>, thread: usize, kept: ThreadRecord)
    requires { thread < length records.old.items }
    ensures { records.new.items ≡ slice_set records.old.items thread kept }
{
    records[thread] = kept;
}

#[tactic(auto, using(crate::proofs::PaddedLaws::padded_more))]
fn grow(records: &mut Vec<ThreadRecord>) -> Result<(), NoMemory>
    requires { length records.old.items < capacity }
    ensures padded { OnOk result (padded records.new.items ≡ padded records.old.items) }
    ensures length { OnOk result (length records.new.items ≡ length records.old.items + 1) }
    ensures fits { length records.new.items ≤ capacity }
    ensures err { OnErr result (records.new.items ≡ records.old.items) }
{
    match records.push(INITIAL) {
        Ok(()) => Ok(()),
        Err(_) => Err(NoMemory),
    }
}

fn write_flag(flags: &mut Vec<bool>, thread: usize, flag: bool)
    requires { thread < length flags.old.items }
    ensures { flags.new.items ≡ slice_set flags.old.items thread flag }
{
    flags[thread] = flag;
}

impl ThreadTable {
    /// The record of thread 0, which has made no call.
    #[tactic(auto, using(crate::proofs::PaddedLaws::padded_one))]
    pub fn new(alloc: Global) -> Result<ThreadTable, NoMemory>
        ensures { IfOk result (λ t. t ≡ record { made = 1; records = replicate capacity initial; away = false ∷ [] }) }
    {
        let mut records = Vec::new(alloc);
        if records.push(INITIAL).is_err() {
            return Err(NoMemory);
        }
        let mut away = Vec::new(alloc);
        if away.push(false).is_err() {
            return Err(NoMemory);
        }
        Ok(ThreadTable { records, away })
    }

    /// How many threads were made.
    pub fn made(&self) -> u32
        ensures value { result ≡ self.now.made }
        ensures few { result ≤ 65536 }
    {
        self.records.len() as u32
    }

    /// Makes one thread more, which has made no call and whose part is in.
    pub fn add(&mut self) -> Result<(), NoMemory>
        requires { self.old.made < 65536 }
        ensures ok { OnOk result (self.new ≡ record self.old { made = self.old.made + 1; away = self.old.away ++ false ∷ [] }) }
        ensures err { OnErr result (self.new ≡ self.old) }
    {
        if self.away.reserve(1).is_err() {
            return Err(NoMemory);
        }
        grow(&mut self.records)?;
        self.away.push_reserved(false);
        Ok(())
    }

    /// Whether the part of a thread is out.
    pub fn is_away(&self, thread: u32) -> bool
        requires { thread < self.now.made }
        ensures { result ≡ slice_index_or self.now.away thread false }
    {
        self.away[thread as usize]
    }

    pub fn set_away(&mut self, thread: u32, out: bool)
        requires { thread < self.old.made }
        ensures { self.new ≡ record self.old { away = slice_set self.old.away thread out } }
    {
        write_flag(&mut self.away, thread as usize, out);
    }

    /// Of each thread made it is known whether its part is out. This is a law.
    pub fn known(&self)
        ensures { length self.now.away ≡ self.now.made }
    {
        self.away.as_slice();
    }

    pub fn record(&self, thread: u32) -> ThreadRecord
        requires { thread < self.now.made }
        ensures { result ≡ slice_index_or self.now.records thread initial }
    {
        self.records[thread as usize]
    }

    pub fn set(&mut self, thread: u32, kept: ThreadRecord)
        requires { thread < self.old.made }
        ensures { self.new ≡ record self.old { records = slice_set self.old.records thread kept } }
    {
        write(&mut self.records, thread as usize, kept);
    }

    /// Whether an object is the current context of another thread.
    pub fn is_context_elsewhere(&self, thread: u32, object: u64) -> bool
        requires { thread < self.now.made }
        ensures { result ≡ is_context_elsewhere self.now.records thread object }
    {
        any_other_has_context(&self.records, thread as usize, object)
    }

    /// Whether any thread draws with a context.
    pub fn is_drawn_with(&self, object: u64) -> bool
        ensures { result ≡ is_drawn_with self.now.records object }
    {
        any_draws_with(&self.records, object)
    }

    /// Whether an object is the draw or read surface of another thread.
    pub fn is_surface_elsewhere(&self, thread: u32, object: u64) -> bool
        requires { thread < self.now.made }
        ensures { result ≡ is_surface_elsewhere self.now.records thread object }
    {
        any_other_has_surface(&self.records, thread as usize, object)
    }

    /// Each thread holds at most four objects. This is a law.
    pub fn few(&self)
        ensures roots { (handles : List Handle) → length (roots_of handles self.now.records) ≤ length handles + 262144 }
        ensures long { self.now.made ≤ length self.now.records }
    {
        self.records.as_slice();
    }

    /// The records of the threads made. Other threads hold nothing.
    pub fn as_slice(&self) -> &[ThreadRecord]
        ensures roots { (handles : List Handle) → roots_of handles result.now ≡ roots_of handles self.now.records }
        ensures records { padded result.now ≡ self.now.records }
    {
        self.records.as_slice()
    }
}
