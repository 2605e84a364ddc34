//! A draw that is made once its turn is over keeps the texels that it samples, whatever another thread gives the texture meanwhile.
ghost use Rattle.std.specs.Prelude.{◌≡◌, false, All};
ghost use Rattle.egl_model.specs.Waits.{is_wait_end};
ghost use Rattle.shared_driver.specs.Tokens.{IsOf};

use crate::crowds::{finish, opened};
use crate::draws::egl;
use crate::local_lines::is_reached;
use crate::sides::played;
use crate::texture_calls::{
    CONFIG, CONTEXT, DISPLAY, TEXTURE, create_pbuffer, draw, gl, prepare, read, upload,
};
use driver_core::Driver;
use egl_calls::{Bytes, Call, EglKind, GlKind, Journal, NoMemory, Payload};
use egl_names::codes::{GL_RGBA, GL_TEXTURE_2D, GL_UNSIGNED_BYTE};
use shared_driver::{Opened, Pick, Picked, Picker, Shared, Thread, Wanted};
use std::alloc::Global;
use std::process::Abort;
use std::sync::Wait;
use std::sync::atomic::AtomicU64;
use std::sync::atomic::Ordering::SeqCst;
use std::thread;
use std::thread::Threads;

/// How many bytes of pixels there may be.
const VIDEO: u64 = 67_108_864;

/// The sides of the surface that is drawn to: so many that the draw takes far longer than a turn.
const SIDE: u32 = 2048;

/// The sides of the texture, and how many bytes its texels have.
const TEXELS: u32 = 64;

const BYTES: usize = 16_384;

/// What all bytes of the texels are while the draw samples them. They are then 0.
const WHITE: u8 = 255;

/// How often both sides meet at most, until the texels change before the draw has ended.
const MEETINGS: u32 = 100;

/// The mark of the draw.
const DRAWN: u64 = 100;

/// How many calls come before the draw of the other thread, and the numbers that the driver gives it.
const BESIDE: u32 = 4;

const OTHER_SURFACE: u32 = 5;

const OTHER_CONTEXT: u32 = 6;

/// How far both sides have come. Each is 0, and then 1.
#[derive(Drop)]
struct Meeting {
    // the other thread looks for the draw's entry
    looks: AtomicU64,
    // the draw has been answered
    drawn: AtomicU64,
    // the texels changed before that
    met: AtomicU64,
    // all pixels that were drawn have the texels as they were
    kept: AtomicU64,
}

// White texels, or none where memory runs out.
fn white(alloc: Global) -> Option<Payload> {
    let mut items = Vec::new(alloc);
    if items.resize(BYTES, WHITE).is_err() {
        return None;
    }
    Payload::new(alloc, Bytes::from_vec(items)).ok()
}

// glTexSubImage2D of the null pointer, which gives zeros, to all texels.
fn blacken(alloc: Global) -> Call
    ensures { is_wait_end result.kind ≡ false }
{
    let [target, format, bytes] = [
        GL_TEXTURE_2D as u32,
        GL_RGBA as u32,
        GL_UNSIGNED_BYTE as u32,
    ];
    let numbers = [target, 0, 0, 0, TEXELS, TEXELS, format, bytes];
    gl(alloc, GlKind::TexSubImage2d, numbers)
}

// What makes the other thread's context, which shares the texture, by its order.
fn beside(alloc: Global, step: u32) -> Call
    ensures { is_wait_end result.kind ≡ false }
{
    match step {
        0 => create_pbuffer(alloc, 1),
        1 => egl(alloc, EglKind::CreateContext, [DISPLAY, CONFIG, CONTEXT, 0]),
        2 => egl(
            alloc,
            EglKind::MakeCurrent,
            [DISPLAY, OTHER_SURFACE, OTHER_SURFACE, OTHER_CONTEXT],
        ),
        _ => gl(
            alloc,
            GlKind::BindTexture,
            [GL_TEXTURE_2D as u32, TEXTURE, 0, 0, 0, 0, 0, 0],
        ),
    }
}

// Makes the surface that is drawn to, and the texture with white texels.
fn prepare_white<R: Abort + Wait>(rt: &R, alloc: Global, shared: &Shared, thread: &mut Thread)
    requires { IsOf shared.now thread.old }
    ensures { IsOf shared.now thread.new }
{
    prepare(rt, alloc, shared, thread, SIDE, TEXELS);
    let call = upload(alloc, TEXELS, white(alloc));
    played(rt, alloc, shared, thread, 0, call);
}

// Makes the other thread's context.
fn prepare_other<R: Abort + Wait>(rt: &R, alloc: Global, shared: &Shared, thread: &mut Thread)
    requires { IsOf shared.now thread.old }
    ensures { IsOf shared.now thread.new }
{
    'steps: for step in 0..BESIDE {
        let call = beside(alloc, step);
        played(rt, alloc, shared, thread, 0, call);
    }
}

/// Gives the texture other texels once the draw stands in the journal. Its entry stands there from the end of its turn on, and it is made only then.
#[derive(Drop)]
struct Blackening<'a> {
    alloc: Global,
    meeting: &'a Meeting,
}

impl<'a> Picker for Blackening<'a> {
    ghost may = { λ s es d. Unit {0} };

    ghost picks = { λ s es d p t. Unit {0} };

    fn pick(&mut self, journal: &Journal, _driver: &Driver) -> Result<Pick, NoMemory> {
        self.meeting.looks.store(1, SeqCst);
        'seeing: for entry in journal.as_slice() {
            if entry.mark == DRAWN {
                return Ok(Pick::Call(0, blacken(self.alloc)));
            }
        }
        Ok(Pick::Wait(Wanted::Entry))
    }
}

// Changes the texels as soon as the draw stands in the journal.
fn blackens<R: Abort + Wait>(
    rt: &R,
    alloc: Global,
    shared: &Shared,
    thread: &mut Thread,
    meeting: &Meeting,
)
    requires { IsOf shared.now thread.old }
    ensures { IsOf shared.now thread.new }
{
    'seeing: for _ in rt.forever() {
        match shared.call_picked(thread, rt, alloc, &mut Blackening { alloc, meeting }) {
            Ok(Picked::Replied(_)) => break 'seeing,
            Ok(_) => {}
            Err(_) => panic!(rt; "memory"),
        }
    }
    if meeting.drawn.load(SeqCst) == 0 {
        meeting.met.store(1, SeqCst);
    }
}

// Whether so many pixels are all white.
fn are_white(bytes: &[u8], pixels: usize) -> bool {
    'each: for byte in bytes {
        if *byte != WHITE {
            return false;
        }
    }
    bytes.len() / 4 == pixels
}

// Draws once the other thread looks for that, and then reads what was drawn.
fn draws<R: Abort + Wait>(
    rt: &R,
    alloc: Global,
    shared: &Shared,
    thread: &mut Thread,
    meeting: &Meeting,
)
    requires { IsOf shared.now thread.old }
    ensures { IsOf shared.now thread.new }
{
    is_reached(&meeting.looks);
    let call = draw(alloc, SIDE);
    played(rt, alloc, shared, thread, DRAWN, call);
    meeting.drawn.store(1, SeqCst);
    let call = read(alloc, SIDE);
    let reply = played(rt, alloc, shared, thread, 0, call);
    if are_white(reply.bytes.as_slice(), SIDE as usize * SIDE as usize) {
        meeting.kept.store(1, SeqCst);
    }
}

fn one_side<R: Abort + Wait>(
    rt: &R,
    alloc: Global,
    shared: &Shared,
    thread: &mut Thread,
    draws_first: bool,
    meeting: &Meeting,
)
    requires { IsOf shared.now thread.old }
    ensures { IsOf shared.now thread.new }
{
    if draws_first {
        draws(rt, alloc, shared, thread, meeting);
        return;
    }
    blackens(rt, alloc, shared, thread, meeting);
}

// Both sides at once.
fn meet<R: Abort + Threads + Wait + Sync>(
    rt: &R,
    alloc: Global,
    shared: &Shared,
    tokens: &mut [Thread],
    meeting: &Meeting,
)
    requires { All (λ t. IsOf shared.now t) tokens.old }
    ensures { All (λ t. IsOf shared.now t) tokens.new }
{
    thread::for_each_mut(
        rt,
        tokens,
        2,
        &|k, t: &mut Thread|
            requires { IsOf shared.now t.now }
            ensures { IsOf shared.entry.now t.exit.now }
        { one_side(rt, alloc, shared, t, k == 0, meeting) },
    );
}

// Makes the scene with two tokens, lets them meet, and joins them.
fn meet_once<R: Abort + Threads + Wait + Sync>(
    rt: &R,
    alloc: Global,
    shared: &Shared,
    mut first: Thread,
    meeting: &Meeting,
) -> Thread
    requires { IsOf shared.now first }
    ensures { IsOf shared.now result }
{
    let Ok(mut second) = shared.attach(&mut first, rt) else {
        panic!(rt; "no token");
    };
    prepare_white(rt, alloc, shared, &mut first);
    prepare_other(rt, alloc, shared, &mut second);
    let mut tokens = [first, second];
    meet(rt, alloc, shared, &mut tokens, meeting);
    let [mut thread, other] = tokens;
    shared.join(&mut thread, rt, other);
    thread
}

// Whether the texels were kept, and whether they changed before the draw had ended.
fn is_kept<R: Abort + AllocGlobal + Threads + Wait + Sync>(rt: &R) -> (bool, bool) {
    let alloc = rt.alloc();
    let meeting = Meeting {
        looks: AtomicU64::new(0),
        drawn: AtomicU64::new(0),
        met: AtomicU64::new(0),
        kept: AtomicU64::new(0),
    };
    let Opened { shared, thread } = opened(rt, alloc, VIDEO);
    let thread = meet_once(rt, alloc, &shared, thread, &meeting);
    let run = finish(rt, shared, thread);
    assert_eq!(rt; run.journal.len(), 18);
    (
        meeting.kept.load(SeqCst) == 1,
        meeting.met.load(SeqCst) == 1,
    )
}

#[test]
fn a_draw_keeps_the_texels_of_its_turn(rt: HostRuntime) {
    let mut has_met = false;
    'meetings: for _meeting in 0..MEETINGS {
        if has_met {
            break 'meetings;
        }
        let (kept, met) = is_kept(&rt);
        assert!(rt; kept, "other texels were drawn");
        has_met = met;
    }
    assert!(rt; has_met, "no draw was still going on");
}
