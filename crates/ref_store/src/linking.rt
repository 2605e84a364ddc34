//! The setting of an edge of a stored node.

ghost use Rattle.std.specs.Prelude.{◌≡◌, ◌+◌, ◌-◌, ◌<◌, ◌^◌, length, IfOk, IfSome, OnOk, OnErr, IsOk, IsSome, slice_set, Some, None, true, false};
ghost use Rattle.ref_store.specs.Kept.{at, edges_in, rank_at, slot_of, AllIn};
ghost use Rattle.ref_store.specs.Changes.{with_node, with_edge};
ghost use Rattle.ref_store.specs.Frees.{Frees};
ghost use Rattle.ref_store.specs.Costs.{weight, freed_cost};
ghost use Rattle.ref_store.specs.Cells.{values, IsStore, AreIn, cell_edges, edges_at, held_in, is_out, node_of, slot_in};
ghost use Rattle.ref_store.specs.CellChanges.{raised, relink, former_in};

use crate::cells::{Cell, Place};
use crate::counted::Counted;
use crate::freeing::drop_edge;
use crate::memory::NoMemory;
use crate::nodes::Node;
use crate::steps::Steps;
use numbered::Numbered;
use std::sync::ledger::Ledger;

// Sets an edge of the node of a cell.
fn set_cell<K: Node>(
    cell: &mut Cell<K>,
    slot: u64,
    note: u64,
    target: Option<u64>,
) -> Result<Option<u64>, NoMemory>
    requires inside { is_out cell.old.place ≡ false }
    requires slot { K.has_slot (node_of cell.old.place) slot ≡ true }
    ensures cell { OnOk result (Some cell.new ≡ relink (λ x. K.after x slot note target) (Some cell.old)) }
    ensures former { IfOk result (λ f. f ≡ former_in K.edge_at slot (Some cell.old)) }
    ensures few { OnOk result (length (edges_in (cell_edges K.edges) (Some cell.new)) < 2 ^ 32) }
    ensures unchanged { OnErr result (cell.new ≡ cell.old) }
    ensures cleared { target ≡ None → IsOk result }
    ensures fixed { slot_in K.fixed slot (Some cell.old) ≡ true → IsOk result }
{
    match &mut cell.place {
        Place::In(node) => node.set_edge(slot, note, target),
        Place::Out(_) => unreachable!(),
    }
}

// Makes the node refer to the target in the slot, and answers what it referred to there before.
pub(crate) fn set_at<K: Node>(
    cells: &mut Numbered<Cell<K>>,
    id: u64,
    slot: u64,
    note: u64,
    target: Option<u64>,
) -> Result<Option<u64>, NoMemory>
    requires stored { IsSome (at cells.old.items id) }
    requires all_in { AreIn cells.old.items }
    requires slot { slot_in K.has_slot slot (at cells.old.items id) ≡ true }
    ensures room { cells.new.room ≡ cells.old.room }
    ensures cells { OnOk result (cells.new.items ≡ slice_set cells.old.items id (relink (λ x. K.after x slot note target) (at cells.old.items id))) }
    ensures former { IfOk result (λ f. f ≡ former_in K.edge_at slot (at cells.old.items id)) }
    ensures few { OnOk result (length (edges_at K.edges cells.new.items id) < 2 ^ 32) }
    ensures unchanged { OnErr result (cells.new.items ≡ cells.old.items) }
    ensures cleared { target ≡ None → IsOk result }
    ensures fixed { slot_in K.fixed slot (at cells.old.items id) ≡ true → IsOk result }
{
    match cells.get_mut(id) {
        Some(cell) => set_cell(cell, slot, note, target),
        None => unreachable!(),
    }
}

// Counts one edge more.
fn raise<K: Node>(cells: &mut Counted<K>, target: Option<u64>)
    requires stored { IfSome target (λ t. IsSome (at cells.old.items t)) }
    requires room { IfSome target (λ t. held_in (at cells.old.items t) < 2 ^ 64 - 1) }
    ensures items { cells.new.items ≡ raised cells.old.items target }
    ensures room { cells.new.room ≡ cells.old.room }
{
    if let Some(id) = target {
        cells.raise_one(id);
    }
}

// Makes the node refer to the target in the slot, and frees what nothing holds any more. The target is held before the
// former one is let go: they may be one node, or one may hold the other.
pub(crate) fn link_in<K: Node, L: Ledger>(
    cells: &mut Counted<K>,
    id: u64,
    slot: u64,
    note: u64,
    target: Option<u64>,
    steps: &mut Steps<L>,
) -> Result<(), NoMemory>
    requires store { IsStore K.edges K.rank cells.old.items }
    requires stored { IsSome (at (values cells.old.items) id) }
    requires all_in { AllIn (values cells.old.items) }
    requires slot { slot_of K.has_slot slot (at (values cells.old.items) id) ≡ true }
    requires target { IfSome target (λ t. IsSome (at (values cells.old.items) t)) }
    requires below { IfSome target (λ t. rank_at K.rank (values cells.old.items) t < rank_at K.rank (values cells.old.items) id) }
    ensures store { IsStore K.edges K.rank cells.new.items }
    ensures room { cells.new.room ≡ cells.old.room }
    ensures frees { OnOk result (Frees K.edges (values cells.old.items) (with_edge K.after slot note target (values cells.old.items) id) (values cells.new.items)) }
    ensures linked { OnOk result (at (values cells.new.items) id ≡ with_node (λ x. K.after x slot note target) (at (values cells.old.items) id)) }
    ensures unchanged { OnErr result (values cells.new.items ≡ values cells.old.items) }
    ensures all_in { AllIn (values cells.new.items) }
    ensures long { length (values cells.new.items) ≡ length (values cells.old.items) }
    ensures steps { steps.new ≡ steps.old + 1 + freed_cost K.edges (values cells.old.items) (values cells.new.items) }
    ensures weight { OnOk result (weight K.edges (values cells.new.items) + freed_cost K.edges (values cells.old.items) (values cells.new.items) ≡ weight K.edges (with_edge K.after slot note target (values cells.old.items) id)) }
    ensures cleared { target ≡ None → IsOk result }
    ensures fixed { slot_of K.fixed slot (at (values cells.old.items) id) ≡ true → IsOk result }
{
    steps.tick();
    let former = cells.set_at(id, slot, note, target)?;
    raise(cells, target);
    drop_edge(cells, former, steps);
    Ok(())
}
