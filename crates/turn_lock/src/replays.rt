//! What a value under the lock means.
ghost use Rattle.turn_lock.specs.Meaning.{Meaning};

/// A value that keeps a history of entries. It has meanings alone, and no code: see `Meaning` in `specs/Meaning.antt`.
pub trait Replays {
    /// One step of the history, made by one pass.
    type Entry;

    // What the value keeps, how an entry acts on it, the opening that the history starts from, the history itself and whose an
    // entry is, which numbers count the passes made and the live ones, and which list is the rooms.
    ghost meaning: { Meaning Self Self.Entry };
}
