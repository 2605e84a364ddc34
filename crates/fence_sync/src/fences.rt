//! Fences.
ghost use Rattle.std.specs.Prelude.{◌≡◌, ◌≢◌, ℕ, ◌+◌, [], ◌∷◌, ◌++◌, false, IfOk, OnOk, OnErr, None, Some};
ghost use Rattle.std.specs.Ordering.{nat_cmp};
ghost use Rattle.fence_sync.specs.Fences as spec;
ghost use Rattle.fence_sync.specs.Fences.{ended, flushed, is_live, signalled, waits_after, with_context, with_wait, without, without_context};

use crate::tables::{Contexts, Table, create_in, forget, is_signalled_in, mark, raise, take};
use egl_calls::NoMemory;
use std::alloc::Global;
use std::collections::BTreeMap;
use std::marker::Model;

/// A fence sync: its number, the context that it was made in, and whether it is signalled (EGL 1.5, section 3.8.1).
#[derive(Clone, Copy, Debug, PartialEq, Eq, Drop)]
pub struct Fence {
    pub sync: u64,
    pub context: u64,
    pub is_signalled: bool,
}

/// The fences of all contexts, and the threads that wait for them.
///
/// Fences are numbered from 0 in the order of their making. A number is never given again. A context is named by its
/// number, which another may have once `end_context` was called for it.
///
/// Contracts see the fences in the order of their making, the contexts that made a fence and haven't ended, the waits by
/// rising threads, each with its sync, and how many fences were made. A flush notes a number for its context, and looks
/// at no fence.
#[derive(Drop)]
pub struct Fences {
    kept: Table,
    contexts: Contexts,
    waits: BTreeMap<u32, u64>,
    made: u64,
}

impl Model for Fences {
    ghost use Rattle.std.specs.Ordering.{nat_cmp};
    ghost use Rattle.std.specs.BTreeMap.{get, keys};
    ghost use Rattle.fence_sync.specs.Fences.{FencesValue};
    ghost use Rattle.fence_sync.specs.Tables.{fences_in, AreMade};

    ghost Value = { FencesValue };

    ghost view = { λ f. record { fences = fences_in (get nat_cmp f.kept) (get nat_cmp f.contexts) f.made; contexts = keys f.contexts; waits = f.waits.entries; made = f.made } };

    ghost invariant = { λ f. AreMade (get nat_cmp f.kept) (get nat_cmp f.contexts) f.made };
}

fn wait_in(waits: &BTreeMap<u32, u64>, thread: u32) -> Option<u64>
    ensures { result ≡ spec.wait_of thread waits.now.entries }
{
    waits.get(&thread).copied()
}

fn begin_in(waits: &mut BTreeMap<u32, u64>, thread: u32, sync: u64) -> Result<(), NoMemory>
    ensures begun { OnOk result (waits.new.entries ≡ with_wait thread sync waits.old.entries) }
    ensures same { OnErr result (waits.new.entries ≡ waits.old.entries) }
{
    match waits.insert(thread, sync) {
        Ok(_) => Ok(()),
        Err(_) => Err(NoMemory),
    }
}

fn end_in(waits: &mut BTreeMap<u32, u64>, thread: u32)
    ensures { waits.new.entries ≡ spec.without_wait thread waits.old.entries }
{
    let _ = waits.remove(&thread);
}

impl Fences {
    /// No fences and no waits. It takes no memory.
    pub fn new(alloc: Global) -> Fences
        ensures { result ≡ record { fences = []; contexts = []; waits = []; made = 0 } }
    {
        Fences {
            kept: BTreeMap::new(alloc),
            contexts: BTreeMap::new(alloc),
            waits: BTreeMap::new(alloc),
            made: 0,
        }
    }

    /// Makes an unsignalled fence of a context, and answers its number.
    ///
    /// Want of memory, and 4,294,967,295 fences, are the one refusal: all is as it was.
    pub fn create(&mut self, context: u64) -> Result<u64, NoMemory>
        ensures sync { IfOk result (λ n. n ≡ self.old.made) }
        ensures created { OnOk result (self.new ≡ record self.old {
          fences = self.old.fences ++ record { sync = self.old.made; context = context; is_signalled = false } ∷ [];
          contexts = with_context context self.old.contexts;
          made = self.old.made + 1;
        }) }
        ensures same { OnErr result (self.new ≡ self.old) }
    {
        create_in(&mut self.kept, &mut self.contexts, &mut self.made, context)
    }

    /// Removes a fence that no thread waits for. It takes no memory.
    pub fn destroy(&mut self, sync: u64)
        requires { (t : ℕ) → spec.wait_of t self.old.waits ≢ Some sync }
        ensures { self.new ≡ record self.old { fences = without sync self.old.fences } }
    {
        take(&mut self.kept, sync);
    }

    /// Signals each fence of a context, as a flush does. It takes no memory.
    pub fn flush_context(&mut self, context: u64)
        ensures { self.new ≡ record self.old { fences = flushed context self.old.fences } }
    {
        raise(&mut self.contexts, context, self.made);
    }

    /// Signals each fence of a context that is no more, and keeps nothing of it: another context may have its number from
    /// then on. It takes no memory.
    pub fn end_context(&mut self, context: u64)
        ensures ended { self.new ≡ record self.old { fences = flushed context self.old.fences; contexts = without_context context self.old.contexts } }
        ensures gone { is_live context self.new.contexts ≡ false }
    {
        forget(&mut self.contexts, context);
    }

    /// Signals one fence, as a wait of the server does (EGL 1.5, section 3.8.1.2). It takes no memory.
    pub fn server_wait(&mut self, sync: u64)
        ensures { self.new ≡ record self.old { fences = signalled sync self.old.fences } }
    {
        mark(&mut self.kept, sync);
    }

    /// Whether a fence is signalled; never where there is none of this number.
    pub fn is_signalled(&self, sync: u64) -> bool
        ensures { result ≡ spec.is_signalled sync self.now.fences }
    {
        is_signalled_in(&self.kept, &self.contexts, sync)
    }

    /// The sync that a thread waits for.
    pub fn wait_of(&self, thread: u32) -> Option<u64>
        ensures { result ≡ spec.wait_of thread self.now.waits }
    {
        wait_in(&self.waits, thread)
    }

    /// Begins the wait of a thread, which has none, for a sync.
    pub fn wait_begin(&mut self, thread: u32, sync: u64) -> Result<(), NoMemory>
        requires { spec.wait_of thread self.old.waits ≡ None }
        ensures begun { OnOk result (self.new ≡ record self.old { waits = with_wait thread sync self.old.waits }) }
        ensures same { OnErr result (self.new ≡ self.old) }
    {
        begin_in(&mut self.waits, thread, sync)
    }

    /// Ends the wait of a thread and answers its sync: none exactly where the thread has no wait, or its sync isn't
    /// signalled. It takes no memory.
    pub fn wait_end(&mut self, thread: u32) -> Option<u64>
        ensures sync { result ≡ ended (spec.wait_of thread self.old.waits) self.old.fences }
        ensures waits { self.new ≡ record self.old { waits = waits_after (ended (spec.wait_of thread self.old.waits) self.old.fences) thread self.old.waits } }
    {
        let sync = self.ready(thread)?;
        end_in(&mut self.waits, thread);
        Some(sync)
    }

    // The sync of a wait that can end.
    fn ready(&self, thread: u32) -> Option<u64>
        ensures { result ≡ ended (spec.wait_of thread self.now.waits) self.now.fences }
    {
        let sync = self.wait_of(thread)?;
        if self.is_signalled(sync) {
            Some(sync)
        } else {
            None
        }
    }
}
