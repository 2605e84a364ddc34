//! The rule of the lock's table.
ghost use Rattle.turn_lock.specs.Rule.{Ruled};
ghost use Rattle.turn_lock.specs.Moves.{newcomer};

use crate::replays::Replays;
use crate::view::View;
use atomic_table::TableRule;
use std::snapshot::Snapshot;

/// The rule of the lock, over its two words, its slot and the views of all passes. Its key is the value that the lock began with.
pub(crate) struct Turning;

impl<S: Replays> TableRule<Option<S>, View<S, S::Entry>, Snapshot<S>> for Turning {
    ghost holds = { Ruled S.meaning };

    ghost first = { newcomer S.meaning };
}
