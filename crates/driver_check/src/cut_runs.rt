//! Runs of a trace by tokens that stop after some of its calls.
ghost use Rattle.std.specs.Prelude.{All};
ghost use Rattle.shared_driver.specs.Tokens.{IsOf};

use crate::crowds::{Ended, finish, opened};
use crate::readings::read_text;
use crate::replays::is_replayed;
use crate::shared_texture::TRACE;
use driver_core::Driver;
use egl_calls::{Entry, Journal, NoMemory};
use shared_driver::{Opened, Pick, Picked, Picker, Shared, Thread, Wanted};
use std::alloc::Global;
use std::process::Abort;
use std::sync::Wait;
use std::sync::atomic::AtomicU64;
use std::sync::atomic::Ordering::SeqCst;
use std::thread;
use std::thread::Threads;
use trace_reader::Trace;
use trace_session::{Chains, Session};

/// How many calls the trace makes.
const CALLS: u64 = 22;

/// Picks the lines of a thread of a trace, and stops once the journal has so many entries.
#[derive(Drop)]
struct FirstCalls<'a> {
    alloc: Global,
    trace: &'a Trace,
    thread: u32,
    most: u64,
}

impl<'a> FirstCalls<'a> {
    /// The pick by what the entries of a journal say.
    fn next(&self, session: &Session, driver: &Driver) -> Result<Pick, NoMemory> {
        if self.thread >= session.threads() || self.thread >= driver.threads() {
            return Ok(Pick::Stop);
        }
        let Some(mark) = session.next(self.thread) else {
            return Ok(Pick::Stop);
        };
        if session.blocked(driver, self.thread) {
            return Ok(Pick::Wait(Wanted::Entry));
        }
        Ok(Pick::Call(mark, session.call(self.alloc, self.thread)?))
    }
}

impl<'a> Picker for FirstCalls<'a> {
    ghost may = { λ s es d. Unit {0} };

    ghost picks = { λ s es d p t. Unit {0} };

    fn pick(&mut self, journal: &Journal, driver: &Driver) -> Result<Pick, NoMemory> {
        if journal.len() >= self.most {
            return Ok(Pick::Stop);
        }
        let chains = Chains::new(self.alloc, self.trace)?;
        let session = Session::behind(self.alloc, self.trace, &chains, journal)?;
        self.next(&session, driver)
    }
}

/// Makes the calls that are picked, and counts their answers.
fn work<R: Abort + Wait>(
    rt: &R,
    shared: &Shared,
    thread: &mut Thread,
    picker: &mut FirstCalls,
    answered: &AtomicU64,
)
    requires { IsOf shared.now thread.old }
    ensures { IsOf shared.now thread.new }
{
    'turns: for _ in rt.forever() {
        let heard = shared.heard(thread);
        match shared.call_picked(thread, rt, picker.alloc, picker) {
            Ok(Picked::Replied(_)) => {
                answered.fetch_add(1, SeqCst);
            }
            Ok(Picked::Waited) => shared.sleep(rt, heard),
            Ok(Picked::Stopped) => break 'turns,
            Err(_) => panic!(rt; "memory"),
        }
    }
}

/// Plays the first calls of a trace by tokens at once, and answers how many calls were answered.
fn play_first<R: Abort + Threads + Wait + Sync>(
    rt: &R,
    alloc: Global,
    shared: &Shared,
    tokens: &mut [Thread],
    trace: &Trace,
    most: u64,
) -> u64
    requires { All (λ t. IsOf shared.now t) tokens.old }
    ensures { All (λ t. IsOf shared.now t) tokens.new }
{
    let answered = AtomicU64::new(0);
    thread::for_each_mut(
        rt,
        tokens,
        2,
        &|_, t: &mut Thread|
            requires { IsOf shared.now t.now }
            ensures { IsOf shared.entry.now t.exit.now }
        {
            let mut picker = FirstCalls {
                alloc,
                trace,
                thread: t.number(),
                most,
            };
            work(rt, shared, t, &mut picker, &answered)
        },
    );
    answered.load(SeqCst)
}

/// What the first calls of a trace of two threads leave once their tokens are joined, and how many calls were answered.
fn ended<R: Abort + Threads + Wait + Sync>(
    rt: &R,
    alloc: Global,
    trace: &Trace,
    most: u64,
) -> (Ended, u64) {
    let Opened {
        shared,
        thread: mut first,
    } = opened(rt, alloc, trace.video());
    let Ok(second) = shared.attach(&mut first, rt) else {
        panic!(rt; "no token");
    };
    let mut tokens = [first, second];
    let answered = play_first(rt, alloc, &shared, &mut tokens, trace, most);
    let [mut first, second] = tokens;
    shared.join(&mut first, rt, second);
    (finish(rt, shared, first), answered)
}

/// Whether entries are those of the lines behind the header, one after another.
fn are_first_lines(entries: &[Entry]) -> bool {
    let mut line = 2u64;
    'each: for entry in entries {
        if entry.mark != line {
            return false;
        }
        line = line.wrapping_add(1);
    }
    true
}

#[test]
fn a_run_that_stops_has_just_the_calls_that_were_answered(rt: HostRuntime) {
    let alloc = rt.alloc();
    let trace = read_text(&rt, alloc, TRACE);
    'runs: for most in 0..CALLS + 1 {
        let (run, answered) = ended(&rt, alloc, &trace, most);
        let journal = &run.journal;
        assert_eq!(rt; (answered, journal.len()), (most, most));
        assert!(rt; are_first_lines(journal.as_slice()), "{most} calls");
        assert!(rt;
            is_replayed(&rt, alloc, journal, 2, trace.video()),
            "{most} calls"
        );
    }
}
