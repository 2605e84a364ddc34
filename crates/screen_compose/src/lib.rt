//! A screen compositor: it stacks what windows show on a screen, and hands frames of it from thread to thread. What they show it asks of a driver, or of one that threads share.
//!
//! It knows no trace and no command: windows, fronts, frames.
//!
//! Why it is as it is:
//!
//! - Fronts are a copy: a screen shows one prefix of the history, and windows may be swapped meanwhile. They carry the list of their windows, so `compose_row` takes no list beside them.
//! - `snapshot` takes a turn by `call_picked` with a picker that copies the fronts and stops: a token that only looked at what it has seen would lag behind, and the driver's pixels can be read in a turn alone.
//! - Which rows change is found by comparing the rows of the old fronts with those of the new ones, which reads both; what it saves is the composing. A window has no number of its last swap to compare instead.
//! - The screen is a value of its sides, its windows and its fronts. Its rows are no part of that value: that they are the composition of the fronts is the type's invariant.
//! - A queue of frames is the kit's array queue under a rule of its own: what was put is what was taken, and then what is held. No list of frames is stored for it. To close the queue waits for nobody, so `close` takes no runtime.
//!
//! Its tests are in `driver_check`.
#![tactic(auto)]

mod composing;
mod frames;
mod fronts;
mod layers;
mod placed;
mod queues;
mod rests;
mod rows;
mod screens;
mod shown;
mod snapshots;

pub use frames::{FrameEnds, Frames, PutEnd, TakeEnd};
pub use fronts::Fronts;
pub use placed::{Placed, screen_ok};
pub use rests::Rest;
pub use rows::{Row, compose_row};
pub use screens::{Frame, Screen};
pub use snapshots::snapshot;
