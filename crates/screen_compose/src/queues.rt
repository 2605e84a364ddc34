//! The queue below frames, and the rule that it keeps.

use crate::screens::Frame;
use crossbeam_queue::RuledArrayQueue;
use crossbeam_queue::protocol::Protocol;
use std::collections::LinkedList;

/// What a pass of the queue may do, what was put by it, and what was taken. No value of it is made.
pub struct Side {
    pub puts: bool,
    pub takes: bool,
    pub put: LinkedList<Frame>,
    pub taken: LinkedList<Frame>,
}

/// First in, first out.
pub(crate) struct InOrder;

impl Protocol<Frame, Side> for InOrder {
    ghost use Rattle.std.specs.Prelude.{true, []};
    ghost use Rattle.screen_compose.specs.Queues.{IsInOrder, side};

    ghost holds = { IsInOrder };

    ghost first = { side true true [] [] };
}

pub(crate) type Queue = RuledArrayQueue<Frame, Side, InOrder>;
