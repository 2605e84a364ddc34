//! The value in hand.
use crate::replays::Replays;
use crate::view::View;
use atomic_table::Seat;
use std::snapshot::Snapshot;

/// The value, for one turn. It must be given back.
pub struct Held<S: Replays> {
    pub(crate) value: S,
    // the seat that took it, which tells the lock that it came from
    pub(crate) taken: Snapshot<Seat<Option<S>, View<S, S::Entry>>>,
}

impl<S: Replays> Held<S> {
    ghost use Rattle.std.specs.Prelude.{◌≡◌};
    ghost use Rattle.std.specs.Borrow.{Lends, sem};
    ghost use Rattle.turn_lock.specs.Passes.{value_of};
    ghost use Rattle.turn_lock.specs.contracts.held.Held.{the_row};

    /// Lends the value. What is written there is what will be given back.
    pub fn value(&mut self) -> &mut S
        ensures* lends { sem 𝓛 (Lends (the_row S.row S.Entry.row) S.row self.entry result (λ w. record self.old { value = w })) }
        ensures value { result.now ≡ value_of self.old }
    {
        &mut self.value
    }
}
