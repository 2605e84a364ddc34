//! Names of textures.
use crate::tables::phases::{Phase, Table};
use keyed_hash::HashKey;
use share_group::{Group, NameKind};
use std::alloc::Global;

// What one call generates.
const BATCH: u32 = 250;

fn generate(group: &mut Group, n: u32) -> bool {
    'calls: for _ in 0..n / BATCH {
        if group.generate(NameKind::Texture, BATCH).is_err() {
            return false;
        }
    }
    true
}

fn bind(group: &mut Group, n: u32) -> bool {
    'names: for name in 1..=n {
        if name > 0 && group.object(NameKind::Texture, name).is_none() {
            if group
                .bind_name(NameKind::Texture, name, u64::from(name))
                .is_err()
            {
                return false;
            }
        }
    }
    true
}

fn look_up(group: &Group, n: u32) -> bool {
    let mut found = 0u32;
    'names: for name in 1..=n {
        if group.is_name(NameKind::Texture, name) {
            found = found.wrapping_add(1);
        }
    }
    found == n
}

// Frees the lowest name, and generates it again.
fn lowest_again(group: &mut Group, n: u32) -> bool {
    'times: for _ in 0..n {
        let _object = group.delete(NameKind::Texture, 1);
        if group.generate(NameKind::Texture, 1).is_err() {
            return false;
        }
    }
    true
}

fn read_edges(group: &Group, n: u32) -> bool {
    let count = group.edge_count();
    let mut sum = 0u64;
    'edges: for k in 0..count {
        sum = sum.wrapping_add(group.edge(k));
    }
    count == n && sum != 0
}

fn free(group: &mut Group, n: u32) -> bool {
    'names: for name in 1..=n {
        let _object = group.delete(NameKind::Texture, name);
    }
    true
}

impl Table for Group {
    fn empty(alloc: Global) -> Self {
        Group::new(alloc, HashKey::PLAIN)
    }

    fn prepare(&mut self, phase: Phase, n: u32) -> bool {
        match phase {
            Phase::LookUp | Phase::Edges => bind(self, n),
            Phase::LowestAgain | Phase::Free => generate(self, n),
            _ => true,
        }
    }

    fn work(&mut self, phase: Phase, n: u32) -> bool {
        match phase {
            Phase::Generate => generate(self, n),
            Phase::LookUp => look_up(self, n),
            Phase::LowestAgain => lowest_again(self, n),
            Phase::Edges => read_edges(self, n),
            _ => free(self, n),
        }
    }
}
