//! Tokens, and what they are tokens of.
ghost use Rattle.std.specs.Prelude.{◌≡◌, ◌<◌, ◌≤◌, ◌+◌, ◌++◌, true, Some, All, length, slice_index};
ghost use Rattle.std.specs.VecDeque.{deque_capacity};
ghost use Rattle.model_laws.specs.Full.{IsWindow};
ghost use Rattle.egl_model.specs.History.{replay_from};
ghost use Rattle.turn_lock.specs.Passes.{view_of, IsFree};
ghost use Rattle.shared_driver.specs.Cores.{IsLegalAt, all_places, are_local, has_halted, part_after, place_for, room_for, start_in};

use crate::boxes::BoxedCore;
use crate::news::News;
use driver_core::Driver;
use egl_calls::{Entry, Journal};
use std::collections::VecDeque;
use thiserror::Error;
use thread_part::ThreadPart;
use turn_lock::{Pass, Turns};

/// A driver and its journal, to be shared by reference. It must be spent, by `close`.
pub struct Shared {
    pub(crate) turns: Turns<BoxedCore>,
    pub(crate) news: News,
}

/// What a thread holds between its turns: its pass, its private part, and its own calls.
pub(crate) struct Holding {
    pub(crate) pass: Pass<BoxedCore>,
    pub(crate) number: u32,
    // in the thread's turn it is in the driver
    pub(crate) part: Option<ThreadPart>,
    // not handed in yet
    pub(crate) tail: VecDeque<Entry>,
}

/// A thread's right to make calls: its token. It must be spent, by `Shared::join` or `Shared::close`.
///
/// The thread's private part is in its token, and so are the calls that the part alone answered. These enter the history directly before the thread's next shared call, or when they are handed in.
pub struct Thread {
    pub(crate) hold: Holding,
    // of its `PLACES`, those that are free
    pub(crate) places: u64,
    // an entry of its own is a Halt
    pub(crate) halted: bool,
    // a `live` answered 1, and nothing was attached since
    pub(crate) sole: bool,
    // its Halt has used the place that its room has for one
    pub(crate) halt_used: bool,
    // its room has a place for the end of the wait that a call has begun
    pub(crate) end_kept: bool,
    ghost free: { IsFree hold.pass },
    ghost numbered: { hold.number ≡ (view_of hold.pass).number },
    ghost few: { hold.number < 65536 },
    ghost sides: { All IsWindow (start_in (view_of hold.pass).first).windows },
    ghost legal: { IsLegalAt (start_in (view_of hold.pass).first) ((view_of hold.pass).seen ++ hold.tail.items) },
    ghost local: { are_local (replay_from (start_in (view_of hold.pass).first) (view_of hold.pass).seen) hold.number hold.tail.items ≡ true },
    ghost part: { hold.part ≡ Some (part_after (start_in (view_of hold.pass).first) hold.number ((view_of hold.pass).seen ++ hold.tail.items)) },
    ghost room: { slice_index (view_of hold.pass).rooms (view_of hold.pass).number ≡ room_for halt_used + places + length hold.tail.items + place_for end_kept },
    ghost used: { halt_used ≡ true → halted ≡ true },
    ghost many: { places + length hold.tail.items ≤ all_places },
    ghost spare: { all_places ≤ deque_capacity hold.tail },
    ghost halts: { halted ≡ has_halted (view_of hold.pass).number ((view_of hold.pass).seen ++ hold.tail.items) },
    ghost counted: { sole ≡ true → (view_of hold.pass).counts.live ≡ 1 },
}

/// A driver, with its first token.
pub struct Opened {
    /// The driver, to be shared by reference.
    pub shared: Shared,
    /// The token with number 0.
    pub thread: Thread,
}

/// A driver and its journal, as the last token left them.
#[derive(Drop)]
pub struct Closed {
    /// It stands for the replay of the journal.
    pub driver: Driver,
    /// The calls of all tokens, as one legal history.
    pub journal: Journal,
}

/// Why there is no new token.
#[derive(Clone, Copy, Debug, PartialEq, Eq, Drop, Error)]
pub enum AttachError {
    /// As many tokens were made as the driver is for.
    #[error("{made} tokens were made, and the driver is for no more")]
    Full { made: u32 },
    #[error("no memory for a token")]
    NoMemory,
}
