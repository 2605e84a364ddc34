//! One thread waits for a fence that another thread's flush signals, and a third sleeps for what the two add, in each of the ways in which an entry comes.
ghost use Rattle.std.specs.Prelude.{◌≡◌, false, All};
ghost use Rattle.egl_model.specs.Waits.{is_wait_end};
ghost use Rattle.shared_driver.specs.Tokens.{IsOf};

use crate::draws::{call_with, egl, surface_list};
use driver_core::Driver;
use egl_calls::{Call, EglKind, GlKind, Journal, Kind, NoMemory, Numbers, Outcome, OwnKind, Reply};
use egl_names::codes::{EGL_CONDITION_SATISFIED, EGL_FOREVER, EGL_SYNC_FENCE};
use shared_driver::{Pick, Picked, Picker, Shared, Thread, Wanted};
use std::alloc::Global;
use std::process::Abort;
use std::sync::Wait;
use std::sync::atomic::AtomicU64;
use std::sync::atomic::Ordering::SeqCst;
use std::thread;
use std::thread::Threads;
use std::time::{Clock, Duration};

// The numbers that the driver gives in this scene.
const DISPLAY: u32 = 1;

const SURFACE: u32 = 3;

const CONTEXT: u32 = 4;

const SYNC: u32 = 5;

/// The marks of calls that the third side sleeps for, one after another: one that is picked, one that takes memory, the wait, and one that was played without a turn and is then handed in. The last one never comes, but a Halt does.
static MARKS: [u64; 5] = [9, 10, 8, 13, 14];

/// How long the second side is kept before the flush, so that the first one sleeps by then, in milliseconds.
const NAP: u64 = 20;

/// What the sides tell one another.
#[derive(Drop)]
pub struct Scene {
    /// How many waits came to their end.
    pub answered: AtomicU64,
    /// How often the third side looked.
    pub looks: AtomicU64,
    // the mark of the call that it sleeps for
    wanted: AtomicU64,
}

impl Scene {
    pub fn new() -> Scene {
        Scene {
            answered: AtomicU64::new(0),
            looks: AtomicU64::new(0),
            wanted: AtomicU64::new(0),
        }
    }

    // Waits until the third side sleeps for the call with this mark.
    fn until_wanted<R: Wait>(&self, rt: &R, mark: u64) {
        'waiting: for _ in rt.forever() {
            if self.wanted.load(SeqCst) == mark {
                return;
            }
            thread::yield_now();
        }
        unreachable!()
    }
}

/// A call's reply.
pub fn played<R: Abort + Wait>(
    rt: &R,
    alloc: Global,
    shared: &Shared,
    thread: &mut Thread,
    mark: u64,
    call: Call,
) -> Reply
    requires owns { IsOf shared.now thread.old }
    requires kind { is_wait_end call.kind ≡ false }
    ensures { IsOf shared.now thread.new }
{
    match shared.call(thread, rt, alloc, mark, call) {
        Ok(reply) => reply,
        Err(_) => panic!(rt; "memory"),
    }
}

/// Makes a context current, and a fence in it.
pub fn set_scene<R: Abort + Wait>(rt: &R, alloc: Global, shared: &Shared, thread: &mut Thread)
    requires { IsOf shared.now thread.old }
    ensures { IsOf shared.now thread.new }
{
    let call = egl(alloc, EglKind::GetDisplay, [0, 0, 0, 0]);
    played(rt, alloc, shared, thread, 2, call);
    let call = egl(alloc, EglKind::Initialize, [DISPLAY, 0, 0, 0]);
    played(rt, alloc, shared, thread, 3, call);
    let call = call_with(
        Kind::Egl(EglKind::CreatePbufferSurface),
        [DISPLAY, 4, 0, 0, 0, 0, 0, 0],
        surface_list(alloc, 1, 1),
    );
    played(rt, alloc, shared, thread, 4, call);
    let call = egl(alloc, EglKind::CreateContext, [DISPLAY, 4, 0, 0]);
    played(rt, alloc, shared, thread, 5, call);
    let call = egl(
        alloc,
        EglKind::MakeCurrent,
        [DISPLAY, SURFACE, SURFACE, CONTEXT],
    );
    played(rt, alloc, shared, thread, 6, call);
    let call = egl(
        alloc,
        EglKind::CreateSync,
        [DISPLAY, EGL_SYNC_FENCE as u32, 0, 0],
    );
    played(rt, alloc, shared, thread, 7, call);
}

// Plays a call without a turn, hands it in, and then halts, each once the third side sleeps for it.
fn hands_in<R: Abort + Wait>(
    rt: &R,
    alloc: Global,
    shared: &Shared,
    thread: &mut Thread,
    scene: &Scene,
)
    requires { IsOf shared.now thread.old }
    ensures { IsOf shared.now thread.new }
{
    scene.until_wanted(rt, 13);
    let call = egl(alloc, EglKind::GetError, [0, 0, 0, 0]);
    if thread.is_local(&call) && thread.local(alloc, 13, call).is_err() {
        panic!(rt; "memory");
    }
    shared.finish(thread, rt);
    scene.until_wanted(rt, 14);
    shared.halt(thread, rt, alloc);
}

// Waits for the fence for ever, and then counts.
fn waits<R: Abort + Wait>(
    rt: &R,
    alloc: Global,
    shared: &Shared,
    thread: &mut Thread,
    scene: &Scene,
)
    requires { IsOf shared.now thread.old }
    ensures { IsOf shared.now thread.new }
{
    let call = Call {
        kind: Kind::Egl(EglKind::ClientWaitSync),
        args: [1, 5, 0, EGL_FOREVER, 0, 0, 0, 0],
        list: Numbers::new(alloc),
        bytes: None,
    };
    let reply = played(rt, alloc, shared, thread, 8, call);
    if reply.outcome == Outcome::Done && reply.value == EGL_CONDITION_SATISFIED as i64 {
        scene.answered.fetch_add(1, SeqCst);
    }
    let call = call_with(Kind::Own(OwnKind::Census), [0; 8], Numbers::new(alloc));
    played(rt, alloc, shared, thread, 12, call);
    hands_in(rt, alloc, shared, thread, scene);
}

/// Picks the end of the fence, once a wait has begun.
#[derive(Drop)]
struct Seeing {
    alloc: Global,
}

impl Picker for Seeing {
    ghost may = { λ s es d. Unit {0} };

    ghost picks = { λ s es d p t. Unit {0} };

    fn pick(&mut self, journal: &Journal, _driver: &Driver) -> Result<Pick, NoMemory> {
        'seeing: for entry in journal.as_slice() {
            if entry.reply.outcome == Outcome::Waiting {
                let call = egl(self.alloc, EglKind::DestroySync, [DISPLAY, SYNC, 0, 0]);
                return Ok(Pick::Call(9, call));
            }
        }
        Ok(Pick::Wait(Wanted::Entry))
    }
}

// Destroys the fence's handle once the other side waits, and then flushes, each once the third side sleeps.
fn frees<R: Abort + Wait + Clock>(
    rt: &R,
    alloc: Global,
    shared: &Shared,
    thread: &mut Thread,
    scene: &Scene,
)
    requires { IsOf shared.now thread.old }
    ensures { IsOf shared.now thread.new }
{
    scene.until_wanted(rt, 9);
    'seeing: for _ in rt.forever() {
        match shared.call_picked(thread, rt, alloc, &mut Seeing { alloc }) {
            Ok(Picked::Replied(_)) => break 'seeing,
            Ok(_) => {}
            Err(_) => panic!(rt; "memory"),
        }
    }
    scene.until_wanted(rt, 10);
    let call = call_with(Kind::Own(OwnKind::Census), [0; 8], Numbers::new(alloc));
    played(rt, alloc, shared, thread, 10, call);
    scene.until_wanted(rt, 8);
    thread::sleep(rt, Duration::from_millis(NAP));
    let call = call_with(Kind::Gl(GlKind::Flush), [0; 8], Numbers::new(alloc));
    played(rt, alloc, shared, thread, 11, call);
}

/// Looks for the answer of a call, or for a Halt.
#[derive(Drop)]
struct Looking<'a> {
    mark: u64,
    scene: &'a Scene,
}

impl<'a> Picker for Looking<'a> {
    ghost may = { λ s es d. Unit {0} };

    ghost picks = { λ s es d p t. Unit {0} };

    fn pick(&mut self, journal: &Journal, _driver: &Driver) -> Result<Pick, NoMemory> {
        self.scene.looks.fetch_add(1, SeqCst);
        'looking: for entry in journal.as_slice() {
            let waits = entry.reply.outcome == Outcome::Waiting;
            if entry.is_halt() || (entry.mark == self.mark && !waits) {
                return Ok(Pick::Stop);
            }
        }
        self.scene.wanted.store(self.mark, SeqCst);
        Ok(Pick::Wait(Wanted::Answer(self.mark)))
    }
}

// Sleeps until the call with this mark has an answer, or a Halt was made.
fn sleeps_for<R: Abort + Wait>(
    rt: &R,
    alloc: Global,
    shared: &Shared,
    thread: &mut Thread,
    scene: &Scene,
    mark: u64,
)
    requires { IsOf shared.now thread.old }
    ensures { IsOf shared.now thread.new }
{
    'looking: for _ in rt.forever() {
        let heard = shared.heard(thread);
        match shared.call_picked(thread, rt, alloc, &mut Looking { mark, scene }) {
            Ok(Picked::Waited) => shared.sleep(rt, heard),
            Ok(_) => return,
            Err(_) => panic!(rt; "memory"),
        }
    }
    unreachable!()
}

// Sleeps for one call after another.
fn sleeps<R: Abort + Wait>(
    rt: &R,
    alloc: Global,
    shared: &Shared,
    thread: &mut Thread,
    scene: &Scene,
)
    requires { IsOf shared.now thread.old }
    ensures { IsOf shared.now thread.new }
{
    'marks: for mark in &MARKS {
        sleeps_for(rt, alloc, shared, thread, scene, *mark);
    }
}

fn one_side<R: Abort + Wait + Clock>(
    rt: &R,
    alloc: Global,
    shared: &Shared,
    thread: &mut Thread,
    side: usize,
    scene: &Scene,
)
    requires { IsOf shared.now thread.old }
    ensures { IsOf shared.now thread.new }
{
    match side {
        0 => waits(rt, alloc, shared, thread, scene),
        1 => frees(rt, alloc, shared, thread, scene),
        _ => sleeps(rt, alloc, shared, thread, scene),
    }
}

/// The first of three tokens waits for the fence that the second one flushes, and the third sleeps until each of the marks has come.
pub fn three_sides<R: Abort + Threads + Wait + Clock + Sync>(
    rt: &R,
    alloc: Global,
    shared: &Shared,
    tokens: &mut [Thread],
    scene: &Scene,
)
    requires { All (λ t. IsOf shared.now t) tokens.old }
    ensures { All (λ t. IsOf shared.now t) tokens.new }
{
    thread::for_each_mut(
        rt,
        tokens,
        3,
        &|k, t: &mut Thread|
            requires { IsOf shared.now t.now }
            ensures { IsOf shared.entry.now t.exit.now }
        { one_side(rt, alloc, shared, t, k, scene) },
    );
}
