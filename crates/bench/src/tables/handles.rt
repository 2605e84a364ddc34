//! Handles of two displays by turns.
use crate::tables::phases::{Phase, Table};
use display_table::{Displays, HandleKind};
use std::alloc::Global;

const FIRST: u32 = 3;

fn make(displays: &mut Displays, n: u32) -> bool {
    'handles: for k in 0..n {
        let object = u64::from(k);
        let made = if k % 2 == 0 {
            displays.new_handle(1, HandleKind::Surface, object)
        } else {
            displays.new_handle(2, HandleKind::Surface, object)
        };
        if made.is_err() {
            return false;
        }
    }
    true
}

fn find(displays: &Displays, n: u32) -> bool {
    let mut found = 0u32;
    'handles: for k in 0..n {
        let handle = i64::from(FIRST.wrapping_add(k));
        let display = 1 + i64::from(k % 2);
        if displays
            .valid(display, handle, HandleKind::Surface)
            .is_some()
        {
            found = found.wrapping_add(1);
        }
    }
    found == n
}

fn remove_in_order(displays: &mut Displays, n: u32) -> bool {
    'handles: for k in 0..n {
        displays.remove(i64::from(FIRST.wrapping_add(k)));
    }
    true
}

fn remove_backwards(displays: &mut Displays, n: u32) -> bool {
    'handles: for k in 0..n {
        displays.remove(i64::from(FIRST.wrapping_add(n - 1 - k)));
    }
    true
}

// Takes the handles of the first display, which has half of all.
fn take(displays: &mut Displays, n: u32) -> bool {
    let mut taken = 0u32;
    'handles: for _ in 0..n {
        if displays.take_handle(1).is_none() {
            break;
        }
        taken = taken.wrapping_add(1);
    }
    taken == n.div_ceil(2)
}

/// So many handles one after another, of which never more than one is there.
pub fn one_at_a_time(displays: &mut Displays, n: u32) -> bool {
    'handles: for k in 0..n {
        let Ok(number) = displays.new_handle(1, HandleKind::Sync, u64::from(k)) else {
            return false;
        };
        displays.remove(number);
    }
    true
}

impl Table for Displays {
    fn empty(alloc: Global) -> Self {
        Displays::new(alloc)
    }

    fn prepare(&mut self, phase: Phase, n: u32) -> bool {
        match phase {
            Phase::Make => true,
            _ => make(self, n),
        }
    }

    fn work(&mut self, phase: Phase, n: u32) -> bool {
        match phase {
            Phase::Make => make(self, n),
            Phase::Find => find(self, n),
            Phase::RemoveInOrder => remove_in_order(self, n),
            Phase::RemoveBackwards => remove_backwards(self, n),
            _ => take(self, n),
        }
    }
}
