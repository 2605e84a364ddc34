//! A line that its thread's private part answers takes no turn.
ghost use Rattle.std.specs.Prelude.{◌≡◌, [], All};
ghost use Rattle.egl_model.specs.State.{opening};
ghost use Rattle.shared_driver.specs.Tokens.{IsOf, mine, opening_of, token_of};

use crate::crowds::finish;
use crate::readings::read_text;
use driver_core::Driver;
use egl_calls::{Journal, NoMemory};
use play_threads::{Gate, work};
use shared_driver::{Opened, Pick, Picker, Shared, Thread};
use std::alloc::Global;
use std::process::Abort;
use std::sync::Wait;
use std::sync::atomic::AtomicU64;
use std::sync::atomic::Ordering::SeqCst;
use std::thread;
use std::thread::Threads;
use trace_reader::Trace;
use trace_session::Chains;

/// How many turns a thread is kept at most.
const MOST_TURNS: u64 = 10_000_000;

/// Two lines that the thread's private part answers.
const TWO_QUERIES: &str = "egl-trace 1 1\n0 eglQueryAPI\n0 eglQueryAPI\n";

/// How far the trace's thread and the other token have come. Each is 0, and then 1.
#[derive(Drop)]
struct Stages {
    // the thread is before its first line
    at_first_line: AtomicU64,
    // the other token is in its turn
    in_turn: AtomicU64,
    // the thread was kept until then
    kept: AtomicU64,
    // the thread is before its second line
    at_second_line: AtomicU64,
    // the thread came there while the other token was in its turn
    met: AtomicU64,
}

/// Whether a stage was reached within so many turns.
pub fn is_reached(stage: &AtomicU64) -> bool {
    'turns: for _turn in 0..MOST_TURNS {
        if stage.load(SeqCst) == 1 {
            return true;
        }
        thread::yield_now();
    }
    false
}

/// Keeps the thread before its first line until the other token is in its turn.
impl Gate for Stages {
    fn before(&self, _thread: u32, line: u64) {
        if line == 2 {
            self.at_first_line.store(1, SeqCst);
            if is_reached(&self.in_turn) {
                self.kept.store(1, SeqCst);
            }
        }
        if line == 3 {
            self.at_second_line.store(1, SeqCst);
        }
    }

    fn is_open(&self) -> bool {
        false
    }
}

/// Keeps its turn until the trace's thread is before its second line.
#[derive(Drop)]
struct Keeping<'a> {
    stages: &'a Stages,
}

impl<'a> Picker for Keeping<'a> {
    ghost may = { λ s es d. Unit {0} };

    ghost picks = { λ s es d p t. Unit {0} };

    fn pick(&mut self, _journal: &Journal, _driver: &Driver) -> Result<Pick, NoMemory> {
        self.stages.in_turn.store(1, SeqCst);
        if is_reached(&self.stages.at_second_line) {
            self.stages.met.store(1, SeqCst);
        }
        Ok(Pick::Stop)
    }
}

// Plays the trace's thread, or takes a turn meanwhile.
fn go_on<R: Abort + Wait>(
    rt: &R,
    alloc: Global,
    trace: &Trace,
    shared: &Shared,
    stages: &Stages,
    thread: &mut Thread,
    plays: bool,
)
    requires owns { IsOf shared.now thread.old }
    requires opening { opening_of shared.now ≡ opening trace.now.windows trace.now.video }
    requires mine { mine (token_of thread.old) ≡ [] }
    ensures { IsOf shared.now thread.new }
{
    if plays && thread.number() < trace.threads() {
        let Ok(chains) = Chains::new(alloc, trace) else {
            panic!(rt; "memory");
        };
        let played = work(shared, thread, rt, alloc, trace, &chains, stages);
        assert!(rt; played.is_ok());
        return;
    }
    is_reached(&stages.at_first_line);
    let picked = shared.call_picked(thread, rt, alloc, &mut Keeping { stages });
    assert!(rt; picked.is_ok());
}

// Both tokens, in a thread each. The first plays the trace.
fn go_on_at_once<R: Abort + Threads + Wait + Sync>(
    rt: &R,
    alloc: Global,
    trace: &Trace,
    shared: &Shared,
    stages: &Stages,
    tokens: &mut [Thread],
)
    requires owns { All (λ t. IsOf shared.now t) tokens.old }
    requires mine { All (λ t. mine (token_of t) ≡ []) tokens.old }
    requires opening { opening_of shared.now ≡ opening trace.now.windows trace.now.video }
    ensures { All (λ t. IsOf shared.now t) tokens.new }
{
    thread::for_each_mut(
        rt,
        tokens,
        2,
        &|k, t: &mut Thread|
            requires { IsOf shared.now t.now × (mine (token_of t.now) ≡ []) × (opening_of shared.now ≡ opening trace.now.windows trace.now.video) }
            ensures { IsOf shared.entry.now t.exit.now }
        { go_on(rt, alloc, trace, shared, stages, t, k == 0) },
    );
}

// Plays the trace with the first token, beside one that keeps its turn.
fn play_beside<R: Abort + Threads + Wait + Sync>(
    rt: &R,
    alloc: Global,
    trace: &Trace,
    shared: &Shared,
    mut first: Thread,
    stages: &Stages,
) -> Thread
    requires owns { IsOf shared.now first }
    requires opening { opening_of shared.now ≡ opening trace.now.windows trace.now.video }
    requires mine { mine (token_of first) ≡ [] }
    ensures { IsOf shared.now result }
{
    let Ok(second) = shared.attach(&mut first, rt) else {
        panic!(rt; "no token");
    };
    let mut tokens = [first, second];
    go_on_at_once(rt, alloc, trace, shared, stages, &mut tokens);
    let [mut thread, other] = tokens;
    shared.join(&mut thread, rt, other);
    thread
}

// A driver for the trace, with one token.
fn opened_for<R: Abort>(rt: &R, alloc: Global, trace: &Trace) -> Opened
    ensures owns { IsOf result.shared result.thread }
    ensures opening { opening_of result.shared ≡ opening trace.now.windows trace.now.video }
    ensures mine { mine (token_of result.thread) ≡ [] }
{
    match Shared::open(alloc, trace.windows(), trace.video()) {
        Ok(opened) => opened,
        Err(_) => panic!(rt; "memory"),
    }
}

#[test]
fn local_without_turn(rt: HostRuntime) {
    let alloc = rt.alloc();
    let trace = read_text(&rt, alloc, TWO_QUERIES);
    let stages = Stages {
        at_first_line: AtomicU64::new(0),
        in_turn: AtomicU64::new(0),
        kept: AtomicU64::new(0),
        at_second_line: AtomicU64::new(0),
        met: AtomicU64::new(0),
    };
    let Opened { shared, thread } = opened_for(&rt, alloc, &trace);
    let thread = play_beside(&rt, alloc, &trace, &shared, thread, &stages);
    let run = finish(&rt, shared, thread);
    let lines: [u64; 2] = [2, 3];
    let marks = run.journal.as_slice().iter().map(|entry| entry.mark);
    assert!(rt; marks.eq(lines));
    assert_eq!(rt; stages.kept.load(SeqCst), 1);
    assert_eq!(rt; stages.met.load(SeqCst), 1);
}
