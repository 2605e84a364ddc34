//! The change of a node where it stands.

ghost use Rattle.std.specs.Prelude.{◌≡◌, ℕ, slice_set, IfSome, Some, false};
ghost use Rattle.ref_store.specs.Kept.{at, node_at, AllIn};
ghost use Rattle.ref_store.specs.Counts.{count};
ghost use Rattle.ref_store.specs.Edits.{Edits};
ghost use Rattle.ref_store.specs.Cells.{values, IsStore, is_out, node_of, out_in};
ghost use Rattle.ref_store.specs.CellChanges.{cell_node, CellEdits};

use crate::cells::{Cell, Place};
use crate::counted::Counted;
use crate::edits::Edit;
use crate::nodes::Node;
use numbered::Numbered;

// Edits the node of a cell.
fn edit_cell<K: Node, E: Edit<K>>(cell: &mut Cell<K>, edit: E) -> E::Output
    requires inside { is_out cell.old.place ≡ false }
    requires may { E.may edit (node_of cell.old.place) }
    ensures { CellEdits (E.does edit) (Some cell.old) (Some result) (Some cell.new) }
{
    match &mut cell.place {
        Place::In(node) => edit.edit(node),
        Place::Out(_) => unreachable!(),
    }
}

// Edits the node at a place, if one is stored there.
pub(crate) fn edit_at<K: Node, E: Edit<K>>(
    cells: &mut Numbered<Cell<K>>,
    id: u64,
    edit: E,
) -> Option<E::Output>
    requires inside { out_in (at cells.old.items id) ≡ false }
    requires may { IfSome (cell_node (at cells.old.items id)) (E.may edit) }
    ensures edits { CellEdits (E.does edit) (at cells.old.items id) result (at cells.new.items id) }
    ensures others { cells.new.items ≡ slice_set cells.old.items id (at cells.new.items id) }
    ensures room { cells.new.room ≡ cells.old.room }
{
    match cells.get_mut(id) {
        Some(cell) => Some(edit_cell(cell, edit)),
        None => None,
    }
}

// Edits a node of the store.
pub(crate) fn edit_in<K: Node, E: Edit<K>>(
    cells: &mut Counted<K>,
    id: u64,
    edit: E,
) -> Option<E::Output>
    requires store { IsStore K.edges K.rank cells.old.items }
    requires all_in { AllIn (values cells.old.items) }
    requires may { IfSome (node_at (values cells.old.items) id) (E.may edit) }
    ensures store { IsStore K.edges K.rank cells.new.items }
    ensures room { cells.new.room ≡ cells.old.room }
    ensures edits { Edits (E.does edit) (values cells.old.items) id result (values cells.new.items) }
    ensures counts { (n : ℕ) → count K.edges (values cells.new.items) n ≡ count K.edges (values cells.old.items) n }
    ensures all_in { AllIn (values cells.new.items) }
{
    cells.edit_at(id, edit)
}
