//! A lock whose turns make one history.
//!
//! A value stands under the lock, and only the pass whose turn it is has the value. Each turn adds entries of its own pass to
//! the history that the value keeps, so the turns of all threads, one after another, are one history. A pass knows the part of
//! it that it has seen, and what a later turn finds is that part and then entries of others.
//!
//! What a value keeps, and how an entry acts on that, are the meanings of its trait `Replays`. The rule that holds between any
//! two steps is `Ruled` in `specs/Rule.antt`.
//!
//! No clause says that a turn ever comes, in which order threads get theirs, or how long one waits.
//!
//! Its tests are in `driver_check`.
#![tactic(auto)]

mod bells;
mod held;
mod memory;
mod pass;
mod replays;
mod rule;
mod steps;
mod threads;
mod turns;
mod view;

pub use held::Held;
pub use memory::NoMemory;
pub use pass::Pass;
pub use replays::Replays;
pub use threads::{catch_up, catch_up_all};
pub use turns::{Opening, Turns};
pub use view::{Counts, Joined, View};
