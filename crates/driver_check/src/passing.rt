//! One thread composes frames, and another takes them, both at once, through a queue.

ghost use Rattle.std.specs.Prelude.{◌≤◌};
ghost use Rattle.screen_compose.specs.Ends.{IsPutEnd, IsTakeEnd};

use crate::scenes::{frame, fronts, pixel, placed, screen, window};
use screen_compose::{Frame, FrameEnds, Frames, PutEnd, TakeEnd};
use std::alloc::Global;
use std::process::Abort;
use std::sync::Wait;
use std::thread;
use std::thread::Threads;

/// How many frames a small queue holds.
pub const FEW: u32 = 2;

/// The most frames that a queue holds.
const MOST: u32 = 1_024;

/// How many frames are made.
const FRAMES: u8 = 40;

/// Puts a frame, as soon as there is a place for it.
pub fn put<R: Wait>(rt: &R, frames: &Frames, end: &mut PutEnd, frame: Frame)
    requires { IsPutEnd frames.now end.old }
    ensures { IsPutEnd frames.now end.new }
{
    let mut left = frame;
    'putting: for _ in rt.forever() {
        match frames.put(end, left, rt) {
            Ok(()) => return,
            Err(back) => left = back,
        }
        thread::yield_now();
    }
    unreachable!()
}

/// Takes a frame, as soon as there is one.
pub fn take<R: Wait>(rt: &R, frames: &Frames, end: &mut TakeEnd) -> Frame
    requires { IsTakeEnd frames.now end.old }
    ensures { IsTakeEnd frames.now end.new }
{
    'taking: for _ in rt.forever() {
        if let Some(frame) = frames.take(end, rt) {
            return frame;
        }
        thread::yield_now();
    }
    unreachable!()
}

// Composes a frame for each colour of a window, and puts it.
fn composes<R: Abort + Wait>(rt: &R, alloc: Global, frames: &Frames, mut end: PutEnd) -> PutEnd
    requires { IsPutEnd frames.now end }
    ensures { IsPutEnd frames.now result }
{
    let list = [placed(1, 0, 0)];
    let mut screen = screen(rt, alloc, 1, 1, &list);
    'composing: for number in 0..FRAMES {
        let windows = [window(rt, alloc, 1, pixel(number, 0, 0, 255))];
        screen.show(fronts(rt, alloc, &windows, &list, u64::from(number)));
        put(
            rt,
            frames,
            &mut end,
            frame(rt, alloc, &screen, u64::from(number)),
        );
    }
    end
}

// Takes all but the last frame, and answers how many came in their order, each with its colour.
fn records<R: Wait>(rt: &R, frames: &Frames, mut end: TakeEnd) -> (TakeEnd, u64)
    requires { IsTakeEnd frames.now end }
    ensures { IsTakeEnd frames.now result.0 }
{
    let mut fine = 0u64;
    'recording: for number in 1..FRAMES {
        let frame = take(rt, frames, &mut end);
        if is_number(&frame, number - 1) {
            fine = fine.wrapping_add(1);
        }
    }
    (end, fine)
}

// Whether a frame has this number, and its colour.
fn is_number(frame: &Frame, number: u8) -> bool {
    frame.number == u64::from(number)
        && frame.at == u64::from(number)
        && frame.rows.as_slice() == [number, 0, 0, 255].as_slice()
}

// Lets both run at once; how many frames came in order, and whether the last one alone is left.
fn passed<R: Abort + Threads + Wait + Sync>(rt: &R, alloc: Global, capacity: u32) -> (u64, bool)
    requires { (1 ≤ capacity) × (capacity ≤ 1024) }
{
    let Ok(
        FrameEnds {
            queue,
            put: put_end,
            take: take_end,
        },
    ) = Frames::open(alloc, capacity)
    else {
        panic!(rt; "memory");
    };
    let frames = &queue;
    let (put_end, (take_end, fine)) = thread::join(
        rt,
        move ||
            requires { IsPutEnd frames.now put_end }
            ensures { IsPutEnd frames.entry.now result }
        { composes(rt, alloc, frames, put_end) },
        move ||
            requires { IsTakeEnd frames.now take_end }
            ensures { IsTakeEnd frames.entry.now result.0 }
        { records(rt, frames, take_end) },
    );
    let mut rest = queue.close(put_end, take_end);
    let last = match rest.take(rt) {
        Some(frame) => is_number(&frame, 39),
        None => false,
    };
    (fine, last && rest.take(rt).is_none())
}

#[test]
fn frames_pass_in_order(rt: HostRuntime) {
    assert_eq!(rt; passed(&rt, rt.alloc(), FEW), (39, true));
    assert_eq!(rt; passed(&rt, rt.alloc(), MOST), (39, true));
}
