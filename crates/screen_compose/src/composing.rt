//! Which rows of a screen are composed anew.
ghost use Rattle.std.specs.Prelude.{◌≡◌, ◌+◌, ◌<◌, ◌≤◌, ℕ, [], if◌then◌else◌, length, slice_index_or, slice_set};
ghost use Rattle.screen_compose.specs.Changes.{changed_rows, is_changed};
ghost use Rattle.screen_compose.specs.Composing.{composed, composed_row};
ghost use Rattle.screen_compose.specs.Fronts.{placed_in};

use crate::fronts::Fronts;
use crate::layers::is_changed;
use crate::rows::{Row, compose_row};
use ref_store::Steps;
use std::sync::ledger::Ledger;

fn compose_at<L: Ledger>(rows: &mut Vec<Row>, y: usize, fronts: &Fronts, steps: &mut Steps<L>)
    requires row { y < length rows.old.items }
    requires few { y < 4294967296 }
    ensures rows { rows.new.items ≡ slice_set rows.old.items y (composed_row fronts.now.layers (length (slice_index_or rows.old.items y [])) y) }
    ensures steps { steps.new ≡ steps.old + 1 }
{
    compose_row(&mut rows[y], y as u32, fronts, steps);
}

/// Composes a row anew where the new fronts change it, and answers how many rows it composed.
fn recompose_row<L: Ledger>(
    rows: &mut Vec<Row>,
    y: usize,
    shown: &Fronts,
    fronts: &Fronts,
    steps: &mut Steps<L>,
) -> u64
    requires row { y < length rows.old.items }
    requires few { y < 4294967296 }
    ensures rows { rows.new.items ≡ (if is_changed shown.now.layers fronts.now.layers y then slice_set rows.old.items y (composed_row fronts.now.layers (length (slice_index_or rows.old.items y [])) y) else rows.old.items) }
    ensures count { result ≡ (if is_changed shown.now.layers fronts.now.layers y then 1 else 0) }
    ensures steps { steps.new ≡ steps.old + result }
{
    if is_changed(shown.layers(), fronts.layers(), y as u32) {
        compose_at(rows, y, fronts, steps);
        return 1;
    }
    0
}

/// Composes anew the rows that the new fronts change, and answers how many they are.
pub(crate) fn recompose<L: Ledger>(
    rows: &mut Vec<Row>,
    shown: &Fronts,
    fronts: &Fronts,
    steps: &mut Steps<L>,
) -> u64
    requires same { placed_in shown.now.layers ≡ placed_in fronts.now.layers }
    requires few { length rows.old.items ≤ 2048 }
    ensures rows { (w h : ℕ) → rows.old.items ≡ composed shown.now.layers w h → rows.new.items ≡ composed fronts.now.layers w h }
    ensures count { result ≡ changed_rows shown.now.layers fronts.now.layers (length rows.old.items) }
    ensures steps { steps.new ≡ steps.old + result }
{
    let mut count = 0u64;
    'each: for y in 0..rows.len() {
        count += recompose_row(rows, y, shown, fronts, steps);
    }
    count
}
