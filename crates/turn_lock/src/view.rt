//! What a pass knows.
use std::collections::LinkedList;
use std::snapshot::Snapshot;

/// What a pass knows. It stands in contracts and proofs alone: no value of it is made.
/// Its numbers have no upper bound there, and its lists are plain lists.
pub struct View<S, E> {
    /// The value that the lock began with. A spent view has none.
    pub first: Option<Snapshot<S>>,
    /// False of a pass that ended in another.
    pub live: bool,
    /// How many passes were made before this one.
    pub number: u64,
    /// The history as far as the pass has seen it: a prefix of what it sees later.
    pub seen: LinkedList<E>,
    /// The ticket that it drew, until it passes the turn on. It counts all draws, and isn't taken modulo 2^64.
    pub ticket: Option<u64>,
    /// It has the turn.
    pub in_turn: bool,
    /// As at its last turn.
    pub counts: Counts,
    /// The rooms of all passes made, as at its last turn or when it was made.
    pub rooms: LinkedList<u64>,
    /// The numbers of the passes that ended in this one.
    pub ended: LinkedList<u64>,
    /// The pass that ended in this one last, in this turn.
    pub joined: Option<Joined<E>>,
}

/// How many passes were made, and how many of them are live.
pub struct Counts {
    /// The passes ever made.
    pub made: u64,
    /// Those that neither ended in another nor closed the lock.
    pub live: u64,
}

/// What a pass knew when it ended in another.
pub struct Joined<E> {
    /// The history as far as it had seen it.
    pub seen: LinkedList<E>,
    /// Its number.
    pub number: u64,
    /// The numbers of the passes that had ended in it.
    pub ended: LinkedList<u64>,
}
