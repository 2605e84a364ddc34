//! A driver and its journal behind a lock: the calls of all threads stand in one legal history.
//!
//! It knows no trace: what is picked in a turn its picker says.
//!
//! Its tests are in `driver_check`.
#![tactic(auto)]

mod boxes;
mod calls;
mod cores;
mod joins;
mod laws;
mod locals;
mod newcomers;
mod news;
mod picks;
mod runs;
mod sleepers;
mod threads;
mod tokens;
mod turns;
mod uploads;
mod waits;

pub use laws::{
    a_token_has_the_room_it_needs, a_token_keeps_its_own_calls, what_a_token_has_seen_is_legal,
};
pub use news::Heard;
pub use picks::{Pick, Picked, Picker};
pub use runs::Runner;
pub use sleepers::Wanted;
pub use threads::finish_all;
pub use tokens::{AttachError, Closed, Opened, Shared, Thread};
