//! The counted store.

ghost use Rattle.std.specs.Prelude.{◌≡◌, ℕ, ◌+◌, ◌<◌, ◌≤◌, ◌^◌, ◌-◌, [], ◌∷◌, length, IfSome, OnOk, OnErr, IsOk, IsSome, None, Some, true, option_copied};
ghost use Rattle.ref_store.specs.Kept.{at, node_at, outside_at, shown_in, is_out_in, rank_at, slot_of, AllIn};
ghost use Rattle.ref_store.specs.Counts.{times, count};
ghost use Rattle.ref_store.specs.Changes.{change, hold_less, hold_more, taken, put, with_node, with_edge, Adds};
ghost use Rattle.ref_store.specs.Edits.{Edits};
ghost use Rattle.ref_store.specs.Frees.{Frees};
ghost use Rattle.ref_store.specs.Costs.{weight, freed_cost};
ghost use Rattle.ref_store.specs.Laws.{IsLinked};
ghost use Rattle.ref_store.specs.Sums.{sum_of, one_of};

use crate::adding::put_new_in;
use crate::counted::Counted;
use crate::editing::edit_in;
use crate::edits::Edit;
use crate::holds::{hold_in, release_in};
use crate::linking::link_in;
use crate::memory::NoMemory;
use crate::nodes::Node;
use crate::reads::{
    bytes_in, count_in, count_marked_in, count_of_in, get_in, linked_in, outside_in,
};
use crate::steps::Steps;
use crate::taking::{put_in, take_in};
use std::alloc::Global;
use std::marker::Model;
use std::sync::ledger::Ledger;

/// Nodes under keys, each stored as long as something holds it.
///
/// A node's count is the edges that lead to it from stored nodes, plus the holds on it from outside. The node whose
/// count falls to 0 in a call is freed in that call, with each node whose count falls to 0 by that. A key is a number that
/// the caller gives, at a place where nothing is stored. Edges lead to stored nodes of lower rank, at all times.
///
/// Contracts see a list with a place for each key: nothing, or the node, the holds on it from outside, and whether it is
/// taken out; and how many more nodes fit with no memory. At most one node is taken out at a time; until it is put back
/// only `get`, `count` and `put_node` may be called.
///
/// Memory goes by the most nodes that are stored at once, however great their keys are. The sums of sizes and of kinds are
/// kept; a node that is out counts nothing in them.
///
/// Freeing takes no memory and looks at nothing but the edges of what it frees. It calls itself as deep as ranks fall,
/// so a type of node should have few ranks.
#[derive(Drop)]
pub struct Store<K: Node> {
    cells: Counted<K>,
}

impl<K: Node> Model for Store<K> {
    ghost use Rattle.ref_store.specs.Kept.{StoreValue, store_code};

    ghost Value = { StoreValue K };

    ghost coded = { store_code K.code };

    ghost use Rattle.ref_store.specs.Cells.{values, IsStore};

    ghost view = { λ s. record { nodes = values s.cells.items; room = s.cells.room } };

    ghost invariant = { λ s. IsStore K.edges K.rank s.cells.items };
}

impl<K: Node> Store<K> {
    /// A store of no nodes.
    #[tactic(auto, using(crate::proofs::SoundLaws::sound_none), unfolding(crate::specs::Cells::values))]
    pub fn new(alloc: Global) -> Self
        ensures empty { (result.nodes ≡ []) × (result.room ≡ 0) }
        ensures all_in { AllIn result.nodes }
    {
        Store {
            cells: Counted::new(alloc),
        }
    }

    /// The node, unless it isn't stored or is taken out.
    pub fn get(&self, id: u64) -> Option<&K>
        ensures { option_copied result ≡ shown_in (at self.now.nodes id) }
    {
        get_in(&self.cells, id)
    }

    /// The edges from stored nodes to it, plus the holds on it from outside; 0 where nothing is stored.
    pub fn count(&self, id: u64) -> u64
        ensures { result ≡ count K.edges self.now.nodes id }
    {
        count_in(&self.cells, id)
    }

    /// The holds on it from outside; 0 where nothing is stored.
    pub fn outside(&self, id: u64) -> u32
        requires { AllIn self.now.nodes }
        ensures { result ≡ outside_at self.now.nodes id }
    {
        outside_in(&self.cells, id)
    }

    /// Makes room for so many more nodes, so that they come with no memory.
    pub fn reserve(&mut self, more: u64) -> Result<(), NoMemory>
        ensures nodes { self.new.nodes ≡ self.old.nodes }
        ensures room { OnOk result (self.new.room ≡ more) }
        ensures err { OnErr result (self.new ≡ self.old) }
    {
        match self.cells.reserve(more) {
            Ok(()) => Ok(()),
            Err(_) => Err(NoMemory),
        }
    }

    /// Stores a node at an empty place. Its edges lead to stored nodes of lower rank. Nothing holds it yet, and the
    /// target of each of its edges is held once more. It takes no memory.
    pub fn put_new(&mut self, id: u64, node: K)
        requires number { id < 2 ^ 64 - 1 }
        requires room { 0 < self.old.room }
        requires vacant { at self.old.nodes id ≡ None }
        requires stored { (n : ℕ) → 0 < times n (K.edges node) → IsSome (at self.old.nodes n) }
        requires below { (n : ℕ) → 0 < times n (K.edges node) → rank_at K.rank self.old.nodes n < K.rank node }
        requires all_in { AllIn self.old.nodes }
        ensures room { self.new.room + 1 ≡ self.old.room }
        ensures adds { Adds self.old.nodes self.new.nodes id node }
        ensures uncounted { count K.edges self.new.nodes id ≡ 0 }
        ensures counted { (n : ℕ) → count K.edges self.new.nodes n ≡ count K.edges self.old.nodes n + times n (K.edges node) }
        ensures all_in { AllIn self.new.nodes }
    {
        put_new_in(&mut self.cells, id, node);
    }

    /// Takes the node out until `put_node`. It counts as stored, with the edges that it had. It takes no memory.
    pub fn take_node(&mut self, id: u64) -> K
        requires stored { IsSome (at self.old.nodes id) }
        requires all_in { AllIn self.old.nodes }
        ensures node { node_at self.old.nodes id ≡ Some result }
        ensures value { self.new ≡ record self.old { nodes = change taken self.old.nodes id } }
        ensures counts { (n : ℕ) → count K.edges self.new.nodes n ≡ count K.edges self.old.nodes n }
    {
        take_in(&mut self.cells, id)
    }

    /// Puts the node back that was taken out, with the rank and the edges that it had. It takes no memory.
    pub fn put_node(&mut self, id: u64, node: K)
        requires out { is_out_in (at self.old.nodes id) ≡ true }
        requires same { (was : _) → node_at self.old.nodes id ≡ Some was →
            (K.rank node ≡ K.rank was) × (K.edges node ≡ K.edges was) }
        ensures value { self.new ≡ record self.old { nodes = change (put node) self.old.nodes id } }
        ensures counts { (n : ℕ) → count K.edges self.new.nodes n ≡ count K.edges self.old.nodes n }
        ensures all_in { AllIn self.new.nodes }
    {
        put_in(&mut self.cells, id, node);
    }

    /// Changes a stored node where it stands, and answers what the change does; `None` where nothing is stored. It looks the
    /// node up once, and takes no memory but what the change takes.
    pub fn edit<E: Edit<K>>(&mut self, id: u64, edit: E) -> Option<E::Output>
        requires all_in { AllIn self.old.nodes }
        requires may { IfSome (node_at self.old.nodes id) (E.may edit) }
        ensures edits { Edits (E.does edit) self.old.nodes id result self.new.nodes }
        ensures room { self.new.room ≡ self.old.room }
        ensures counts { (n : ℕ) → count K.edges self.new.nodes n ≡ count K.edges self.old.nodes n }
        ensures all_in { AllIn self.new.nodes }
    {
        edit_in(&mut self.cells, id, edit)
    }

    /// Holds a stored node from outside once more, at most 4,294,967,295 times. It takes no memory.
    pub fn hold(&mut self, id: u64)
        requires stored { IsSome (at self.old.nodes id) }
        requires room { outside_at self.old.nodes id < 2 ^ 32 - 1 }
        requires all_in { AllIn self.old.nodes }
        ensures value { self.new ≡ record self.old { nodes = change hold_more self.old.nodes id } }
        ensures counted { (n : ℕ) → count K.edges self.new.nodes n ≡ count K.edges self.old.nodes n + times n (id ∷ []) }
        ensures all_in { AllIn self.new.nodes }
    {
        hold_in(&mut self.cells, id);
    }

    /// Ends a hold from outside, and frees each node whose count falls to 0 by that. Each other node is as it was. It
    /// takes no memory.
    ///
    /// It counts one step, one for each node freed, and one for each edge that those had.
    pub fn release<L: Ledger>(&mut self, id: u64, steps: &mut Steps<L>)
        requires held { 0 < outside_at self.old.nodes id }
        requires all_in { AllIn self.old.nodes }
        ensures room { self.new.room ≡ self.old.room }
        ensures frees { Frees K.edges self.old.nodes (change hold_less self.old.nodes id) self.new.nodes }
        ensures all_in { AllIn self.new.nodes }
        ensures long { length self.new.nodes ≡ length self.old.nodes }
        ensures steps { steps.new ≡ steps.old + 1 + freed_cost K.edges self.old.nodes self.new.nodes }
        ensures weight { weight K.edges self.new.nodes + freed_cost K.edges self.old.nodes self.new.nodes ≡ weight K.edges self.old.nodes }
    {
        release_in(&mut self.cells, id, steps);
    }

    /// Sets the edge of a stored node in a slot, to a stored target of lower rank or to none, and frees each node whose
    /// count falls to 0 by that. The node becomes what `Node::set_edge` makes of it, and each other node is as it was.
    ///
    /// To `None`, and in a slot that the node names as fixed, it takes no memory and answers `Ok`. Want of memory changes
    /// nothing.
    ///
    /// It counts one step, one for each node freed, and one for each edge that those had. A refused call counts one.
    pub fn link<L: Ledger>(
        &mut self,
        id: u64,
        slot: u64,
        note: u64,
        target: Option<u64>,
        steps: &mut Steps<L>,
    ) -> Result<(), NoMemory>
        requires stored { IsSome (at self.old.nodes id) }
        requires all_in { AllIn self.old.nodes }
        requires slot { slot_of K.has_slot slot (at self.old.nodes id) ≡ true }
        requires target { IfSome target (λ t. IsSome (at self.old.nodes t)) }
        requires below { IfSome target (λ t. rank_at K.rank self.old.nodes t < rank_at K.rank self.old.nodes id) }
        ensures room { self.new.room ≡ self.old.room }
        ensures frees { OnOk result (Frees K.edges self.old.nodes (with_edge K.after slot note target self.old.nodes id) self.new.nodes) }
        ensures linked { OnOk result (at self.new.nodes id ≡ with_node (λ x. K.after x slot note target) (at self.old.nodes id)) }
        ensures unchanged { OnErr result (self.new ≡ self.old) }
        ensures all_in { AllIn self.new.nodes }
        ensures long { length self.new.nodes ≡ length self.old.nodes }
        ensures steps { steps.new ≡ steps.old + 1 + freed_cost K.edges self.old.nodes self.new.nodes }
        ensures weight { OnOk result (weight K.edges self.new.nodes + freed_cost K.edges self.old.nodes self.new.nodes
            ≡ weight K.edges (with_edge K.after slot note target self.old.nodes id)) }
        ensures cleared { target ≡ None → IsOk result }
        ensures fixed { slot_of K.fixed slot (at self.old.nodes id) ≡ true → IsOk result }
    {
        link_in(&mut self.cells, id, slot, note, target, steps)
    }

    /// The sum of the sizes of its nodes, but for one that is out. It walks nothing.
    pub fn bytes(&self) -> u64
        ensures value { result ≡ sum_of K.size self.now.nodes }
        ensures few { result ≤ 2 ^ 63 }
    {
        bytes_in(&self.cells)
    }

    /// How many nodes of a kind there are, but for one that is out. It walks nothing.
    pub fn count_of(&self, kind: u32) -> u64
        requires { kind < 16 }
        ensures { result ≡ sum_of (λ x. one_of kind (K.kind x)) self.now.nodes }
    {
        count_of_in(&self.cells, kind)
    }

    /// How many nodes have a mark, but for one that is out. It walks nothing.
    pub fn count_marked(&self, mark: u32) -> u64
        requires { mark < 65 }
        ensures { result ≡ sum_of (λ x. one_of mark (K.mark x)) self.now.nodes }
    {
        count_marked_in(&self.cells, mark)
    }

    /// Each edge leads to a stored node of lower rank. This is a law: there is nothing to run.
    pub fn edges_lead_down(&self)
        ensures { IsLinked K.edges K.rank self.now.nodes }
    {
        linked_in(&self.cells);
    }
}
