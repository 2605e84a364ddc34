//! Fences of as many contexts.
use crate::tables::phases::{Phase, Table};
use fence_sync::Fences;
use std::alloc::Global;

fn create(fences: &mut Fences, n: u32) -> bool {
    'fences: for k in 0..n {
        if fences.create(u64::from(k)).is_err() {
            return false;
        }
    }
    true
}

// Flushes each context, beside all the fences of the others.
fn flush(fences: &mut Fences, n: u32) -> bool {
    'contexts: for k in 0..n {
        fences.flush_context(u64::from(k));
        if !fences.is_signalled(u64::from(k)) {
            return false;
        }
    }
    true
}

impl Table for Fences {
    fn empty(alloc: Global) -> Self {
        Fences::new(alloc)
    }

    fn prepare(&mut self, phase: Phase, n: u32) -> bool {
        match phase {
            Phase::Create => true,
            _ => create(self, n),
        }
    }

    fn work(&mut self, phase: Phase, n: u32) -> bool {
        match phase {
            Phase::Create => create(self, n),
            _ => flush(self, n),
        }
    }
}
