//! The shapes of nodes that are freed.

ghost use Rattle.std.specs.Prelude.{◌≡◌, ◌<◌, ◌++◌, ℕ, IsTrue, IsSome, None};
ghost use Rattle.ref_store.specs.Kept.{at, rank_at, AllIn};
ghost use Rattle.ref_store.specs.Counts.{times, as_list};
ghost use Rattle.bench.specs.declared.store.branches.Branch.{Branch};

use crate::store::branches::Branch;
use anyhow::{Result, bail};
use ref_store::{Node, Store};
use std::alloc::Global;

const MOST_EDGES: usize = 1_000_000;

const MOST_NODES: u64 = 1_000_000_000_000;

/// How the nodes hang together. One root holds them all.
#[derive(Clone, Copy, Drop)]
pub struct Shape {
    pub name: &'static str,
    /// The rank of the root. Under it chains go through the ranks down to 0.
    depth: u32,
}

pub const CHAINS: Shape = Shape {
    name: "chain",
    depth: 4,
};

pub const FAN: Shape = Shape {
    name: "fan",
    depth: 1,
};

// Whether the node may be added.
fn stands_below(store: &Store<Branch>, node: &Branch) -> bool
    requires { AllIn store.now.nodes }
    ensures stored { IsTrue result → (n : ℕ) → 0 < times n (node.now.targets.items ++ as_list node.now.link) → IsSome (at store.now.nodes n) }
    ensures below { IsTrue result → (n : ℕ) → 0 < times n (node.now.targets.items ++ as_list node.now.link) → rank_at (λ (b : Branch). b.level) store.now.nodes n < node.now.level }
{
    'edges: for k in 0..node.edge_count() {
        match store.get(node.edge(k)) {
            Some(target) => {
                if target.level >= node.level {
                    return false;
                }
            }
            None => return false,
        }
    }
    true
}

// Whether nothing stands there.
fn is_vacant(store: &Store<Branch>, id: u64) -> bool
    requires { AllIn store.now.nodes }
    ensures { IsTrue result → at store.now.nodes id ≡ None }
{
    store.get(id).is_none()
}

/// Adds a node under the next number, and answers that number.
pub fn add(store: &mut Store<Branch>, next: &mut u64, level: u32, targets: Vec<u64>) -> Result<u64>
    requires { AllIn store.old.nodes }
    ensures { AllIn store.new.nodes }
{
    let id = *next;
    if targets.len() > MOST_EDGES || id >= MOST_NODES {
        bail!("too many");
    }
    let node = Branch {
        level,
        targets,
        link: None,
    };
    if !stands_below(store, &node) || !is_vacant(store, id) {
        bail!("the node can't stand there");
    }
    place(store, id, node)?;
    *next = id + 1;
    Ok(id)
}

// Stores a node that may stand there.
fn place(store: &mut Store<Branch>, id: u64, node: Branch) -> Result<()>
    requires all_in { AllIn store.old.nodes }
    requires few { id < 1000000000000 }
    requires vacant { at store.old.nodes id ≡ None }
    requires stored { (n : ℕ) → 0 < times n (node.targets.items ++ as_list node.link) → IsSome (at store.old.nodes n) }
    requires below { (n : ℕ) → 0 < times n (node.targets.items ++ as_list node.link) → rank_at (λ (b : Branch). b.level) store.old.nodes n < node.level }
    ensures { AllIn store.new.nodes }
{
    match store.reserve(1) {
        Ok(()) => store.put_new(id, node),
        Err(_) => bail!("memory ran out"),
    }
    Ok(())
}

// A chain from the rank below this one down to 0.
fn chain(alloc: Global, store: &mut Store<Branch>, next: &mut u64, depth: u32) -> Result<u64>
    requires { AllIn store.old.nodes }
    ensures { AllIn store.new.nodes }
{
    let mut top = add(store, next, 0, Vec::new(alloc))?;
    for level in 1..depth {
        top = add(store, next, level, vec![in alloc; top]?)?;
    }
    Ok(top)
}

/// Builds this many nodes of the shape, all held by the root that it answers.
pub fn build(alloc: Global, store: &mut Store<Branch>, shape: Shape, nodes: u32) -> Result<u64>
    requires { AllIn store.old.nodes }
    ensures { AllIn store.new.nodes }
{
    let depth = shape.depth;
    let mut next = 0;
    let mut tops = Vec::new(alloc);
    'chains: for _ in 0..nodes.saturating_sub(1) / depth.max(1) {
        tops.push(chain(alloc, store, &mut next, depth)?)?;
    }
    let root = add(store, &mut next, depth, tops)?;
    if store.get(root).is_none() || store.outside(root) == u32::MAX {
        bail!("the root isn't stored");
    }
    store.hold(root);
    Ok(root)
}
