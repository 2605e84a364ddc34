//! The right to take turns.
use crate::replays::Replays;
use crate::view::View;
use atomic_table::Seat;

/// The right to take turns, one at a time. It must be spent, by `Turns::join` or `Turns::close`, and takes no bytes.
/// It is `Send` where the value is.
pub struct Pass<S: Replays> {
    pub(crate) seat: Seat<Option<S>, View<S, S::Entry>>,
}
