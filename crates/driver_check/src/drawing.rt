//! A thread that draws on a window by a driver that it shares, in another colour each time, and swaps.
ghost use Rattle.std.specs.Prelude.{◌≡◌, false};
ghost use Rattle.egl_model.specs.Waits.{is_wait_end};
ghost use Rattle.shared_driver.specs.Tokens.{IsOf};

use egl_calls::{Call, EglKind, GlKind, Kind, Numbers, set_argument};
use egl_names::codes::GL_COLOR_BUFFER_BIT;
use shared_driver::{Shared, Thread};
use std::alloc::Global;
use std::process::Abort;
use std::sync::Wait;
use std::sync::atomic::AtomicU64;
use std::sync::atomic::Ordering::SeqCst;
use std::thread;
use surface_store::WindowSpec;

pub const WINDOW: WindowSpec = WindowSpec { id: 1, w: 4, h: 4 };

/// How often the window is swapped.
pub const SWAPS: u64 = 40;

/// How many swaps there may be at most that no frame has shown.
const AHEAD: u64 = 2;

/// The numbers that the driver gives to the first display, surface and context.
const DISPLAY: u32 = 1;

const SURFACE: u32 = 3;

const CONTEXT: u32 = 4;

/// The config of the surface and the context.
const CONFIG: u32 = 4;

/// How many swaps were made, and how many frames were put.
#[derive(Drop)]
pub struct Progress {
    pub swaps: AtomicU64,
    pub frames: AtomicU64,
}

impl Progress {
    pub fn new() -> Progress {
        Progress {
            swaps: AtomicU64::new(0),
            frames: AtomicU64::new(0),
        }
    }
}

fn call_with(alloc: Global, kind: Kind, numbers: [u32; 4]) -> Call
    ensures { result.kind ≡ kind }
{
    let [first, second, third, fourth] = numbers;
    let mut args = [0; 8];
    set_argument(&mut args, 0, i64::from(first));
    set_argument(&mut args, 1, i64::from(second));
    set_argument(&mut args, 2, i64::from(third));
    set_argument(&mut args, 3, i64::from(fourth));
    Call {
        kind,
        args,
        list: Numbers::new(alloc),
        bytes: None,
    }
}

/// Waits until a count has come so far.
pub fn wait_for<R: Wait>(rt: &R, count: &AtomicU64, least: u64) {
    'waiting: for _ in rt.forever() {
        if count.load(SeqCst) >= least {
            return;
        }
        thread::yield_now();
    }
    unreachable!()
}

fn play<R: Abort + Wait>(
    rt: &R,
    alloc: Global,
    shared: &Shared,
    thread: &mut Thread,
    kind: Kind,
    numbers: [u32; 4],
)
    requires owns { IsOf shared.now thread.old }
    requires kind { is_wait_end kind ≡ false }
    ensures { IsOf shared.now thread.new }
{
    let call = call_with(alloc, kind, numbers);
    if shared.call(thread, rt, alloc, 0, call).is_err() {
        panic!(rt; "memory");
    }
}

/// What is played before the first colour: the window's surface is made current.
static SCENE: [(EglKind, [u32; 4]); 4] = [
    (EglKind::Initialize, [DISPLAY, 0, 0, 0]),
    (EglKind::CreateWindowSurface, [DISPLAY, CONFIG, 1, 0]),
    (EglKind::CreateContext, [DISPLAY, CONFIG, 0, 0]),
    (EglKind::MakeCurrent, [DISPLAY, SURFACE, SURFACE, CONTEXT]),
];

fn set_scene<R: Abort + Wait>(rt: &R, alloc: Global, shared: &Shared, thread: &mut Thread)
    requires { IsOf shared.now thread.old }
    ensures { IsOf shared.now thread.new }
{
    'each: for (kind, numbers) in &SCENE {
        play(rt, alloc, shared, thread, Kind::Egl(*kind), *numbers);
    }
}

// Fills the window's surface with a colour, of which half lets through what lies below, and swaps.
fn show<R: Abort + Wait>(rt: &R, alloc: Global, shared: &Shared, thread: &mut Thread, red: u32)
    requires { IsOf shared.now thread.old }
    ensures { IsOf shared.now thread.new }
{
    let colour = [red, 0x1_0000, 0, 0x8000];
    play(
        rt,
        alloc,
        shared,
        thread,
        Kind::Gl(GlKind::ClearColorx),
        colour,
    );
    let buffers = [GL_COLOR_BUFFER_BIT as u32, 0, 0, 0];
    play(rt, alloc, shared, thread, Kind::Gl(GlKind::Clear), buffers);
    let surface = [DISPLAY, SURFACE, 0, 0];
    play(
        rt,
        alloc,
        shared,
        thread,
        Kind::Egl(EglKind::SwapBuffers),
        surface,
    );
}

/// Draws and swaps again and again, and counts its swaps. It is never far ahead of the frames.
pub fn draws<R: Abort + AllocGlobal + Wait>(
    rt: &R,
    shared: &Shared,
    progress: &Progress,
    thread: &mut Thread,
)
    requires { IsOf shared.now thread.old }
    ensures { IsOf shared.now thread.new }
{
    set_scene(rt, rt.alloc(), shared, thread);
    'drawing: for k in 0..SWAPS {
        wait_for(rt, &progress.frames, k.saturating_sub(AHEAD));
        show(rt, rt.alloc(), shared, thread, k as u32 * 1000);
        progress.swaps.fetch_add(1, SeqCst);
    }
}
