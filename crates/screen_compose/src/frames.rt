//! Frames go from one thread to another in order, through a queue of few places.
ghost use Rattle.std.specs.Prelude.{◌≡◌, ◌≤◌, ◌↔◌, [], ◌∷◌, ◌++◌, IfErr, IfOk, IfSome, IsNone, List, OnErr, OnOk, MatchOption};
ghost use Rattle.crossbeam_queue.specs.Fifo.{Held};
ghost use Rattle.screen_compose.specs.declared.screens.Frame.{Frame as AFrame};
ghost use Rattle.screen_compose.specs.Ends.{IsPutEnd, IsTakeEnd, capacity_of, put_by, put_in, taken_by, taken_in};
ghost use Rattle.screen_compose.specs.Queues.{AreLast, BeginsWith, side};

use crate::queues::{Queue, Side};
use crate::rests::Rest;
use crate::screens::Frame;
use crossbeam_queue::Pass;
use crossbeam_queue::protocol::{Join, Lesson, Outcome, Split};
use egl_calls::NoMemory;
use std::alloc::Global;
use std::sync::Wait;

/// One pass becomes the two ends, and the two ends become one pass.
struct Ends;

impl Split<Side> for Ends {
    ghost use Rattle.std.specs.Prelude.{true, false, []};
    ghost use Rattle.screen_compose.specs.Queues.{side};

    ghost left = { λ v. side true false v.put [] };

    ghost right = { λ v. side false true [] v.taken };
}

impl Join<Side> for Ends {
    ghost use Rattle.std.specs.Prelude.{true, false, []};
    ghost use Rattle.screen_compose.specs.Queues.{side};

    ghost both = { λ v w. side true true v.put w.taken };

    ghost spent = { side false false [] [] };
}

/// A frame was put.
struct WasPut;

impl Outcome<Frame, Side> for WasPut {
    ghost then = { λ v x w. w ≡ side v.puts v.takes (v.put ++ x ∷ []) v.taken };
}

impl Lesson<Frame, Side> for WasPut {
    ghost fact = { λ v held. AreLast v.put held };
}

/// A frame was taken.
struct WasTaken;

impl Outcome<Frame, Side> for WasTaken {
    ghost then = { λ v x w. w ≡ side v.puts v.takes v.put (v.taken ++ x ∷ []) };
}

impl Lesson<Frame, Side> for WasTaken {
    ghost fact = { λ v held. (put : List AFrame) × (put ≡ v.taken ++ held) };
}

/// What was put is what was taken, and then what is left.
pub(crate) struct IsLeft;

impl Outcome<Frame, Side> for IsLeft {
    ghost then = { λ v x w. w ≡ side v.puts v.takes v.put (v.taken ++ x ∷ []) };
}

impl Lesson<Frame, Side> for IsLeft {
    ghost fact = { λ v held. v.put ≡ v.taken ++ held };
}

/// A queue of frames, to be shared by reference.
#[derive(Drop)]
pub struct Frames {
    queue: Queue,
}

/// The right to put frames into a queue. Contracts see in it the frames that were put.
#[derive(Drop)]
pub struct PutEnd {
    pass: Pass<Frame, Side>,
}

/// The right to take frames from a queue. Contracts see in it the frames that were taken.
#[derive(Drop)]
pub struct TakeEnd {
    pass: Pass<Frame, Side>,
}

/// A queue of frames with its two ends.
#[derive(Drop)]
pub struct FrameEnds {
    pub queue: Frames,
    pub put: PutEnd,
    pub take: TakeEnd,
}

impl Frames {
    /// A queue that holds so many frames at most: 1 to 1,024.
    pub fn open(alloc: Global, capacity: u32) -> Result<FrameEnds, NoMemory>
        requires { (1 ≤ capacity) × (capacity ≤ 1024) }
        ensures capacity { IfOk result (λ e. capacity_of e.queue ≡ capacity) }
        ensures put { IfOk result (λ e. IsPutEnd e.queue e.put × (put_by e.put ≡ [])) }
        ensures take { IfOk result (λ e. IsTakeEnd e.queue e.take × (taken_by e.take ≡ [])) }
    {
        match Queue::ruled(alloc, capacity as usize) {
            Ok((queue, mut put)) => {
                let take = queue.another::<Ends>(&mut put);
                Ok(FrameEnds {
                    queue: Frames { queue },
                    put: PutEnd { pass: put },
                    take: TakeEnd { pass: take },
                })
            }
            Err(_) => Err(NoMemory),
        }
    }

    /// Puts a frame behind those that were put. It comes back only where the queue was full at a moment of this call.
    pub fn put<R: Wait>(&self, end: &mut PutEnd, frame: Frame, rt: &R) -> Result<(), Frame>
        requires { IsPutEnd self.now end.old }
        ensures end { IsPutEnd self.now end.new }
        ensures put { OnOk result (put_by end.new ≡ put_by end.old ++ frame ∷ []) }
        ensures back { IfErr result (λ f. f ≡ frame) }
        ensures full { OnErr result ((put_by end.new ≡ put_by end.old) × Held (capacity_of self.now) (AreLast (put_by end.old))) }
    {
        self.queue.push_as::<WasPut, R>(rt, &mut end.pass, frame)
    }

    /// Takes the frame that was put first of those that weren't taken. There is none only where the queue was empty at a moment of this call.
    pub fn take<R: Wait>(&self, end: &mut TakeEnd, rt: &R) -> Option<Frame>
        requires { IsTakeEnd self.now end.old }
        ensures end { IsTakeEnd self.now end.new }
        ensures taken { MatchOption result ((taken_by end.new ≡ taken_by end.old) × Held 0 (λ held. (put : List AFrame) × (put ≡ taken_by end.old ++ held))) (λ f. taken_by end.new ≡ taken_by end.old ++ f ∷ []) }
    {
        self.queue.pop_as::<WasTaken, R>(rt, &mut end.pass)
    }

    /// Ends both ends. What was put and not taken is left, and waits for nobody.
    pub fn close(self, put: PutEnd, take: TakeEnd) -> Rest
        requires put { IsPutEnd self put }
        requires take { IsTakeEnd self take }
        ensures put { put_in result ≡ put_by put }
        ensures taken { taken_in result ≡ taken_by take }
        ensures order { BeginsWith (put_in result) (taken_in result) }
    {
        let Frames { queue } = self;
        let PutEnd { mut pass } = put;
        queue.absorb::<Ends>(&mut pass, take.pass);
        queue.learn_as::<IsLeft>(&mut pass);
        Rest { queue, pass }
    }
}

impl Rest {
    /// Takes the frame that was put first of those that weren't taken; none exactly where all were taken.
    pub fn take<R: Wait>(&mut self, rt: &R) -> Option<Frame>
        ensures put { put_in self.new ≡ put_in self.old }
        ensures taken { IfSome result (λ f. taken_in self.new ≡ taken_in self.old ++ f ∷ []) }
        ensures order { BeginsWith (put_in self.new) (taken_in self.new) }
        ensures stays { IsNone result → taken_in self.new ≡ taken_in self.old }
        ensures none { IsNone result ↔ (put_in self.old ≡ taken_in self.old) }
    {
        let frame = self.queue.pop_as::<IsLeft, R>(rt, &mut self.pass);
        self.queue.learn_as::<IsLeft>(&mut self.pass);
        frame
    }
}
