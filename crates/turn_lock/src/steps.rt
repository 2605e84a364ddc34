//! The steps of the lock: what each tells its caller, and what it does to the views. The table adds two kinds that have no rule,
//! since they change no word and no view: taking the value out of the slot in hand, and putting it back.
ghost use Rattle.turn_lock.specs.Moves.{drew, looked, passed_on, told, grown, fresh, joining, spent};

use crate::replays::Replays;
use crate::view::View;
use atomic_table::{Join, Play, Split};
use std::marker::{Brand, PhantomData};

/// A ticket is drawn.
pub(crate) struct Draw;

impl<S: Replays> Play<Option<S>, View<S, S::Entry>> for Draw {
    ghost then = { drew };
}

/// A look at the ticket that is served. Where it is the caller's own, the slot comes with this step.
pub(crate) struct Look;

impl<S: Replays> Play<Option<S>, View<S, S::Entry>> for Look {
    ghost then = { looked S.meaning };
}

/// The turn is passed on, and the slot goes home with this step.
pub(crate) struct PassOn;

impl<S: Replays> Play<Option<S>, View<S, S::Entry>> for PassOn {
    ghost then = { passed_on S.meaning };
}

/// A load that changes nothing, and tells what the pass knew that was joined last.
pub(crate) struct Tell;

impl<S: Replays> Play<Option<S>, View<S, S::Entry>> for Tell {
    ghost then = { told S.meaning };
}

/// The room of a new pass and the history that it has seen, as a step's type can carry them.
///
/// A `Split` is a type and has no arguments, but the room is known only when the program runs. So `Cut` takes a type parameter
/// that names the room. The one type that it is used at is `Brand`, which stands for any member that a call picks:
/// `Turns::split` picks the room that it was passed. Nothing of this is left when it runs.
pub(crate) trait Room<E> {
    ghost use Rattle.std.specs.Prelude.{ℕ, List};

    ghost room: { ℕ };

    ghost seen: { List E };
}

impl<E> Room<E> for Brand {
    ghost use Rattle.std.specs.Prelude.{[]};

    ghost room = { 0 };

    ghost seen = { [] };
}

/// A pass makes another, with the room `K.room`.
pub(crate) struct Cut<K> {
    room: PhantomData<K>,
}

impl<S, E, K: Room<E>> Split<View<S, E>> for Cut<K> {
    ghost left = { grown K.room K.seen };

    ghost right = { fresh K.room K.seen };
}

/// A pass ends in another.
pub(crate) struct TakeIn;

impl<S, E> Join<View<S, E>> for TakeIn {
    ghost both = { joining };

    ghost spent = { spent };
}
