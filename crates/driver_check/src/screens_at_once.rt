//! One thread draws and swaps, one composes what it sees, and one takes the frames, all at once.
ghost use Rattle.std.specs.Prelude.{◌≤◌, ◌+◌, vec_len, vec_capacity};
ghost use Rattle.shared_driver.specs.Tokens.{IsOf};
ghost use Rattle.screen_compose.specs.Ends.{IsPutEnd, IsTakeEnd};

use crate::drawing::{Progress, SWAPS, WINDOW, draws, wait_for};
use crate::passing::{FEW, put, take};
use crate::scenes::{frame, screen};
use driver_core::Driver;
use egl_calls::{Entry, Journal};
use screen_compose::{Frame, FrameEnds, Frames, Fronts, Placed, PutEnd, TakeEnd, snapshot};
use shared_driver::{Closed, Opened, Shared, Thread};
use std::alloc::Global;
use std::process::Abort;
use std::sync::Wait;
use std::sync::atomic::Ordering::SeqCst;
use std::thread::{Threads, join_mut};
use surface_store::windows_ok;

/// How many frames are made: one for each swap, which shows that one at least.
const FRAMES: usize = SWAPS as usize;

/// The sides of the screen.
const SIDE: u32 = 8;

const VIDEO: u64 = 1_000_000;

const PLACED: Placed = Placed {
    window: 1,
    x: 2,
    y: -1,
};

// Composes what it sees once there was a further swap, and puts a frame of it, again and again.
fn composes<R: Abort + AllocGlobal + Wait>(
    rt: &R,
    shared: &Shared,
    queue: &Frames,
    progress: &Progress,
    composer: &mut Thread,
    put_end: &mut PutEnd,
)
    requires token { IsOf shared.now composer.old }
    requires end { IsPutEnd queue.now put_end.old }
    ensures token { IsOf shared.now composer.new }
    ensures end { IsPutEnd queue.now put_end.new }
{
    let list = [PLACED];
    let mut screen = screen(rt, rt.alloc(), SIDE, SIDE, &list);
    'composing: for number in 0..SWAPS {
        wait_for(rt, &progress.swaps, number + 1);
        let Ok(fronts) = snapshot(shared, composer, rt, rt.alloc(), &list) else {
            panic!(rt; "memory");
        };
        screen.show(fronts);
        let frame = frame(rt, rt.alloc(), &screen, number);
        put(rt, queue, put_end, frame);
        progress.frames.fetch_add(1, SeqCst);
    }
}

// Takes all frames.
fn records<R: Wait>(rt: &R, queue: &Frames, take_end: &mut TakeEnd, taken: &mut Vec<Frame>)
    requires end { IsTakeEnd queue.now take_end.old }
    requires room { vec_len taken.old + 40 ≤ vec_capacity taken.old }
    ensures end { IsTakeEnd queue.now take_end.new }
{
    'recording: for _frame in 0..FRAMES {
        let frame = take(rt, queue, take_end);
        taken.push_reserved(frame);
    }
}

/// What all three leave.
#[derive(Drop)]
struct Passed {
    journal: Journal,
    /// How many threads the driver had.
    threads: u32,
    frames: Vec<Frame>,
    /// A frame was put and not taken.
    is_left: bool,
}

fn room<R: Abort>(rt: &R, alloc: Global) -> Vec<Frame>
    ensures { vec_len result + 40 ≤ vec_capacity result }
{
    match Vec::with_capacity(alloc, FRAMES) {
        Ok(frames) => frames,
        Err(_) => panic!(rt; "memory"),
    }
}

fn ends<R: Abort>(rt: &R, alloc: Global) -> FrameEnds
    ensures { IsPutEnd result.queue result.put × IsTakeEnd result.queue result.take }
{
    match Frames::open(alloc, FEW) {
        Ok(ends) => ends,
        Err(_) => panic!(rt; "memory"),
    }
}

fn opened<R: Abort>(rt: &R, alloc: Global) -> Opened
    ensures { IsOf result.shared result.thread }
{
    let windows = [WINDOW];
    if !windows_ok(&windows) {
        panic!(rt; "windows");
    }
    match Shared::open(alloc, &windows, VIDEO) {
        Ok(opened) => opened,
        Err(_) => panic!(rt; "memory"),
    }
}

fn attached<R: Abort + Wait>(rt: &R, shared: &Shared, thread: &mut Thread) -> Thread
    requires { IsOf shared.now thread.old }
    ensures { IsOf shared.now thread.new × IsOf shared.now result }
{
    match shared.attach(thread, rt) {
        Ok(token) => token,
        Err(_) => panic!(rt; "no token"),
    }
}

// One thread composes, and another takes the frames.
fn compose_and_record<R: Abort + AllocGlobal + Threads + Wait + Sync>(
    rt: &R,
    shared: &Shared,
    queue: &Frames,
    progress: &Progress,
    composer: &mut Thread,
    put_end: &mut PutEnd,
    take_end: &mut TakeEnd,
    taken: &mut Vec<Frame>,
)
    requires token { IsOf shared.now composer.old }
    requires put { IsPutEnd queue.now put_end.old }
    requires take { IsTakeEnd queue.now take_end.old }
    requires room { vec_len taken.old + 40 ≤ vec_capacity taken.old }
    ensures token { IsOf shared.now composer.new }
    ensures put { IsPutEnd queue.now put_end.new }
    ensures take { IsTakeEnd queue.now take_end.new }
{
    let mut compose = ||
        requires { IsOf shared.now composer.now × IsPutEnd queue.now put_end.now }
        ensures { IsOf shared.entry.now composer.exit.now × IsPutEnd queue.entry.now put_end.exit.now }
    { composes(rt, shared, queue, progress, composer, put_end) };
    let mut record = ||
        requires { IsTakeEnd queue.now take_end.now × (vec_len taken.now + 40 ≤ vec_capacity taken.now) }
        ensures { IsTakeEnd queue.entry.now take_end.exit.now }
    { records(rt, queue, take_end, taken) };
    join_mut(rt, &mut compose, &mut record);
}

// A third one draws all the while.
fn all_three<R: Abort + AllocGlobal + Threads + Wait + Sync>(
    rt: &R,
    shared: &Shared,
    queue: &Frames,
    drawer: &mut Thread,
    composer: &mut Thread,
    put_end: &mut PutEnd,
    take_end: &mut TakeEnd,
    taken: &mut Vec<Frame>,
)
    requires drawer { IsOf shared.now drawer.old }
    requires token { IsOf shared.now composer.old }
    requires put { IsPutEnd queue.now put_end.old }
    requires take { IsTakeEnd queue.now take_end.old }
    requires room { vec_len taken.old + 40 ≤ vec_capacity taken.old }
    ensures drawer { IsOf shared.now drawer.new }
    ensures token { IsOf shared.now composer.new }
    ensures put { IsPutEnd queue.now put_end.new }
    ensures take { IsTakeEnd queue.now take_end.new }
{
    let counts = Progress::new();
    let progress = &counts;
    let mut draw = ||
        requires { IsOf shared.now drawer.now }
        ensures { IsOf shared.entry.now drawer.exit.now }
    { draws(rt, shared, progress, drawer) };
    let mut show = ||
        requires { IsOf shared.now composer.now × IsPutEnd queue.now put_end.now × IsTakeEnd queue.now take_end.now × (vec_len taken.now + 40 ≤ vec_capacity taken.now) }
        ensures { IsOf shared.entry.now composer.exit.now × IsPutEnd queue.entry.now put_end.exit.now × IsTakeEnd queue.entry.now take_end.exit.now }
    {
        compose_and_record(
            rt, shared, queue, progress, composer, put_end, take_end, taken,
        )
    };
    join_mut(rt, &mut draw, &mut show);
}

// Joins the other tokens into the first, and closes the driver.
fn joined<R: Abort + Wait>(
    rt: &R,
    shared: Shared,
    mut thread: Thread,
    drawer: Thread,
    composer: Thread,
) -> Closed
    requires own { IsOf shared thread }
    requires drawer { IsOf shared drawer }
    requires composer { IsOf shared composer }
{
    shared.join(&mut thread, rt, drawer);
    shared.join(&mut thread, rt, composer);
    let live = shared.live(&mut thread, rt);
    if live != 1 {
        panic!(rt; "{live} tokens are live");
    }
    shared.close(thread)
}

fn pass_frames<R: Abort + AllocGlobal + Threads + Wait + Sync>(rt: &R) -> Passed {
    let Opened { shared, mut thread } = opened(rt, rt.alloc());
    let mut drawer = attached(rt, &shared, &mut thread);
    let mut composer = attached(rt, &shared, &mut thread);
    let FrameEnds {
        queue,
        mut put,
        mut take,
    } = ends(rt, rt.alloc());
    let mut frames = room(rt, rt.alloc());
    all_three(
        rt,
        &shared,
        &queue,
        &mut drawer,
        &mut composer,
        &mut put,
        &mut take,
        &mut frames,
    );
    let mut rest = queue.close(put, take);
    let Closed { driver, journal } = joined(rt, shared, thread, drawer, composer);
    Passed {
        journal,
        threads: driver.threads(),
        frames,
        is_left: rest.take(rt).is_some(),
    }
}

// A driver of so many threads, with the window.
fn fresh<R: Abort>(rt: &R, alloc: Global, threads: u32) -> Driver {
    let windows = [WINDOW];
    if !windows_ok(&windows) {
        panic!(rt; "windows");
    }
    let Ok(mut driver) = Driver::new(alloc, &windows, VIDEO) else {
        panic!(rt; "memory");
    };
    'adding: for _ in 1..threads {
        if driver.threads() == 65536 || driver.add_thread().is_err() {
            panic!(rt; "memory");
        }
    }
    driver
}

fn replay<R: Abort>(rt: &R, alloc: Global, driver: &mut Driver, entry: &Entry) {
    if entry.thread >= driver.threads() {
        panic!(rt; "no such thread");
    }
    if driver.play(alloc, entry.thread, &entry.call).is_err() {
        panic!(rt; "memory");
    }
}

// Plays the entries from one place up to another.
fn replay_between<R: Abort>(
    rt: &R,
    alloc: Global,
    driver: &mut Driver,
    journal: &Journal,
    from: u64,
    to: u64,
) {
    'entries: for place in from..to {
        match journal.entry(place) {
            Some(entry) => replay(rt, alloc, driver, entry),
            None => panic!(rt; "no such entry"),
        }
    }
}

// Whether a frame is the composition from nothing of what the driver shows.
fn is_composed<R: Abort>(rt: &R, alloc: Global, driver: &Driver, shown: &Frame) -> bool {
    let list = [PLACED];
    let mut screen = screen(rt, alloc, SIDE, SIDE, &list);
    let Ok(fronts) = Fronts::of(alloc, driver, &list, shown.at) else {
        panic!(rt; "memory");
    };
    screen.show(fronts);
    frame(rt, alloc, &screen, shown.number).rows.as_slice() == shown.rows.as_slice()
}

// Replays the journal up to each frame, and answers how many frames are fine: with the next number, and the composition of what the history's front part shows, which never gets shorter.
fn count_fine<R: Abort>(rt: &R, alloc: Global, passed: &Passed) -> u64 {
    let mut driver = fresh(rt, alloc, passed.threads);
    let mut fine = 0u64;
    let mut at = 0;
    'frames: for frame in &passed.frames {
        replay_between(rt, alloc, &mut driver, &passed.journal, at, frame.at);
        let is_next = frame.number == fine && frame.at >= at;
        if is_next && is_composed(rt, alloc, &driver, frame) {
            fine = fine.wrapping_add(1);
        }
        at = frame.at;
    }
    fine
}

// How many frames show another picture than the one before.
fn count_changes(frames: &[Frame]) -> u64 {
    let mut changes = 0u64;
    'frames: for k in 1..frames.len() {
        if frames[k].rows.as_slice() != frames[k - 1].rows.as_slice() {
            changes = changes.wrapping_add(1);
        }
    }
    changes
}

#[test]
fn frames_pass_in_order_while_a_thread_draws(rt: HostRuntime) {
    let passed = pass_frames(&rt);
    let changes = count_changes(&passed.frames);
    assert_eq!(rt; passed.frames.len(), FRAMES);
    assert!(rt; !passed.is_left);
    assert_eq!(rt; count_fine(&rt, rt.alloc(), &passed), SWAPS);
    assert!(rt; changes >= SWAPS / 4, "{changes} pictures");
}
