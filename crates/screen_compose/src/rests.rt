//! What is left of a queue.
ghost use Rattle.std.specs.Prelude.{◌≡◌, true};
ghost use Rattle.crossbeam_queue.specs.Passes.{view, IsPassOf};

use crate::queues::{Queue, Side};
use crate::screens::Frame;
use crossbeam_queue::Pass;

/// What a closed queue still holds. Contracts see in it the frames that were put and those that were taken.
#[derive(Drop)]
pub struct Rest {
    pub(crate) queue: Queue,
    pub(crate) pass: Pass<Frame, Side>,
    ghost of: { IsPassOf queue pass },
    ghost puts: { (view pass).puts ≡ true },
    ghost takes: { (view pass).takes ≡ true },
}
