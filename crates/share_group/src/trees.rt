//! The used names of a range of numbers, as a tree of its halves.
ghost use Rattle.std.specs.Prelude.{◌≡◌, ◌+◌, ◌<◌, ◌≤◌, ◌^◌, [], ◌∷◌, length, slice_get, IfOk, OnOk, OnErr};
ghost use Rattle.share_group.specs.Names as spec;
ghost use Rattle.share_group.specs.Names.{objects_in, unused_from, without, Rise};
ghost use Rattle.share_group.specs.Trees.{middle_of, TreeValue};
ghost use Rattle.share_group.specs.Nodes.{names_in, IsNode};

use crate::names::Name;
use egl_calls::NoMemory;
use std::alloc::Global;
use std::marker::Model;

/// The used names from `low` to `last`. What has one name needs no halves, so that names with nothing near them cost
/// little; what has none needs no memory.
#[cycle(tree)]
#[derive(Drop)]
pub(crate) struct Tree {
    low: u32,
    last: u32,
    node: Node,
}

#[cycle(tree)]
#[derive(Drop)]
pub(crate) enum Node {
    Empty,
    One(Name),
    // The lower half, how many names there are and how many have objects, the upper half.
    Fork(Box<Tree>, u64, u64, Box<Tree>),
}

impl Model for Tree {
    ghost use Rattle.std.specs.Prelude.{◌-◌};
    ghost use Rattle.share_group.specs.Trees.{TreeValue};

    ghost Value = { TreeValue };

    ghost use Rattle.share_group.specs.Nodes.{names_in, IsNode};

    ghost view = { λ t. record { low = t.low; last = t.last; names = names_in t.node } };

    ghost invariant = { λ t. IsNode t.low t.last t.node };

    ghost size = { λ v. v.last - v.low };

    ghost use Rattle.share_group.specs.Deep.{depth_le_width};

    ghost size_decreases = { λ a h. depth_le_width a.low a.last a.node h };
}

fn middle(low: u32, last: u32) -> u32
    requires { low < last }
    ensures middle { result ≡ middle_of low last }
    ensures low { low ≤ result }
    ensures last { result < last }
{
    low + (last - low) / 2
}

impl Tree {
    pub(crate) fn new(low: u32, last: u32) -> Tree
        requires { low ≤ last }
        ensures { result ≡ record { low = low; last = last; names = [] } }
    {
        Tree {
            low,
            last,
            node: Node::Empty,
        }
    }

    /// How many names are used.
    pub(crate) fn len(&self) -> u64
        ensures len { result ≡ length self.now.names }
        ensures few { result ≤ 2 ^ 32 }
    {
        match &self.node {
            Node::Empty => 0,
            Node::One(_) => 1,
            Node::Fork(_, names, _, _) => *names,
        }
    }

    /// How many names have objects.
    pub(crate) fn object_count(&self) -> u64
        ensures len { result ≡ length (objects_in self.now.names) }
        ensures few { result ≤ 2 ^ 32 }
    {
        match &self.node {
            Node::Empty => 0,
            Node::One(held) => u64::from(held.object.is_some()),
            Node::Fork(_, _, objects, _) => *objects,
        }
    }

    /// The smallest unused name from `low` on, or the number after `last`.
    pub(crate) fn unused(&self) -> u64
        ensures unused { result ≡ unused_from self.now.low self.now.names }
        ensures rise { Rise self.now.low self.now.names (self.now.last + 1) }
    {
        match &self.node {
            Node::Empty => u64::from(self.low),
            Node::One(held) => u64::from(self.low) + u64::from(held.name == self.low),
            Node::Fork(lower, _, _, upper) => {
                let middle = middle(self.low, self.last);
                if u64::from(self.low) + lower.len() == u64::from(middle) + 1 {
                    upper.unused()
                } else {
                    lower.unused()
                }
            }
        }
    }

    /// Names rise. This is a law: there is nothing to run.
    pub(crate) fn rises(&self)
        ensures { Rise self.now.low self.now.names (self.now.last + 1) }
    {
        rising_in(&self.node, self.low, self.last);
    }

    /// The object of this number, counted from 0 by rising names.
    pub(crate) fn object_at(&self, k: u64) -> Option<u64>
        ensures { result ≡ slice_get (objects_in self.now.names) k }
    {
        match &self.node {
            Node::Empty => None,
            Node::One(held) => { if k == 0 { held.object } else { None } }
            Node::Fork(lower, _, _, upper) => {
                let below = lower.object_count();
                if k < below {
                    lower.object_at(k)
                } else {
                    upper.object_at(k - below)
                }
            }
        }
    }

    /// Puts a name with its object in its place.
    pub(crate) fn put(&mut self, alloc: Global, entry: Name) -> Result<(), NoMemory>
        requires { (self.old.low ≤ entry.name) × (entry.name ≤ self.old.last) }
        ensures put { OnOk result (self.new ≡ record self.old { names = spec.put entry self.old.names }) }
        ensures same { OnErr result (self.new ≡ self.old) }
    {
        let (low, last) = (self.low, self.last);
        match &mut self.node {
            Node::Empty => {
                self.node = Node::One(entry);
                Ok(())
            }
            Node::One(held) => {
                let held = *held;
                self.node = both(alloc, low, last, held, entry)?;
                Ok(())
            }
            Node::Fork(lower, names, objects, upper) => {
                if entry.name <= middle(low, last) {
                    lower.put(alloc, entry)?;
                    let counts = counts(lower, upper);
                    *names = counts.0;
                    *objects = counts.1;
                    return Ok(());
                }
                upper.put(alloc, entry)?;
                let counts = counts(lower, upper);
                *names = counts.0;
                *objects = counts.1;
                Ok(())
            }
        }
    }

    /// Frees a name. It changes nothing where the name isn't used, and takes no memory.
    pub(crate) fn remove(&mut self, name: u32)
        ensures { self.new ≡ record self.old { names = without name self.old.names } }
    {
        let (low, last) = (self.low, self.last);
        match &mut self.node {
            Node::Empty => {}
            Node::One(held) => {
                if held.name == name {
                    self.node = Node::Empty;
                }
            }
            Node::Fork(lower, names, objects, upper) => {
                if name <= middle(low, last) {
                    lower.remove(name);
                    let counts = counts(lower, upper);
                    if counts.0 == 0 {
                        self.node = Node::Empty;
                        return;
                    }
                    *names = counts.0;
                    *objects = counts.1;
                    return;
                }
                upper.remove(name);
                let counts = counts(lower, upper);
                if counts.0 == 0 {
                    self.node = Node::Empty;
                    return;
                }
                *names = counts.0;
                *objects = counts.1;
            }
        }
    }
}

// Two names in the order of their numbers, or the second alone where it stands in for the first.
fn both(alloc: Global, low: u32, last: u32, held: Name, entry: Name) -> Result<Node, NoMemory>
    requires held { (low ≤ held.name) × (held.name ≤ last) }
    requires entry { (low ≤ entry.name) × (entry.name ≤ last) }
    ensures names { IfOk result (λ n. names_in n ≡ spec.put entry (held ∷ [])) }
    ensures node { IfOk result (IsNode low last) }
{
    if held.name == entry.name {
        Ok(Node::One(entry))
    } else if held.name < entry.name {
        split(alloc, low, last, held, entry)
    } else {
        split(alloc, low, last, entry, held)
    }
}

// Two names, each in its half of the halves that part them.
fn split(alloc: Global, low: u32, last: u32, less: Name, more: Name) -> Result<Node, NoMemory>
    requires low { low ≤ less.name }
    requires apart { less.name < more.name }
    requires last { more.name ≤ last }
    ensures names { IfOk result (λ n. names_in n ≡ less ∷ more ∷ []) }
    ensures node { IfOk result (IsNode low last) }
{
    let middle = middle(low, last);
    let (lower, upper) = if more.name <= middle {
        (split(alloc, low, middle, less, more)?, Node::Empty)
    } else if less.name > middle {
        (Node::Empty, split(alloc, middle + 1, last, less, more)?)
    } else {
        (Node::One(less), Node::One(more))
    };
    let objects = u64::from(less.object.is_some()) + u64::from(more.object.is_some());
    let lower = boxed(
        alloc,
        Tree {
            low,
            last: middle,
            node: lower,
        },
    )?;
    let upper = boxed(
        alloc,
        Tree {
            low: middle + 1,
            last,
            node: upper,
        },
    )?;
    Ok(Node::Fork(lower, 2, objects, upper))
}

fn boxed(alloc: Global, tree: Tree) -> Result<Box<Tree>, NoMemory>
    ensures { IfOk result (λ b. b.value ≡ tree) }
{
    match Box::new(alloc, tree) {
        Ok(tree) => Ok(tree),
        Err(_) => Err(NoMemory),
    }
}

// How many names two halves have, and how many of them have objects.
fn counts(lower: &Tree, upper: &Tree) -> (u64, u64)
    ensures names { result.0 ≡ length lower.now.names + length upper.now.names }
    ensures objects { result.1 ≡ length (objects_in lower.now.names) + length (objects_in upper.now.names) }
{
    let names = lower.len() + upper.len();
    let objects = lower.object_count() + upper.object_count();
    (names, objects)
}

// Names rise. There is nothing to run.
fn rising_in(_node: &Node, _low: u32, _last: u32)
    requires { IsNode _low _last _node.now }
    ensures { Rise _low (names_in _node.now) (_last + 1) }
{}
