//! What tokens do: calls, halts, waits, picks, and how many there are.
ghost use Rattle.shared_driver.specs.Tokens.{IsOf};

use crate::crowds::{attached_all, crowd, finish, opened, opened_for};
use crate::places::{ROWS, holds, queries};
use crate::readings::call_of;
use crate::replays::is_replayed;
use crate::sides::{Scene, played, set_scene, three_sides};
use driver_core::Driver;
use egl_calls::{Entry, Journal, NoMemory, Outcome};
use shared_driver::{Opened, Pick, Picked, Picker, Shared, Thread};
use std::alloc::Global;
use std::process::Abort;
use std::sync::Wait;
use std::sync::atomic::Ordering::SeqCst;
use std::thread::Threads;
use std::time::Clock;

// A token more.
fn attached<R: Abort + Wait>(rt: &R, shared: &Shared, thread: &mut Thread) -> Thread
    requires { IsOf shared.now thread.old }
    ensures one { IsOf shared.now thread.new }
    ensures other { IsOf shared.now result }
{
    match shared.attach(thread, rt) {
        Ok(other) => other,
        Err(_) => panic!(rt; "no token"),
    }
}

// How many entries of a token stand in a journal, where their marks rise by one from 0 and their values are 1.
fn rising(entries: &[Entry], number: u32) -> u64 {
    let mut next = 0u64;
    'each: for entry in entries {
        if entry.thread == number {
            if entry.mark != next || entry.reply.value != 1 {
                return 0;
            }
            next = next.wrapping_add(1);
        }
    }
    next
}

#[test]
fn two_threads_make_500_calls_each(rt: HostRuntime) {
    let Opened { shared, mut thread } = opened(&rt, rt.alloc(), 1000);
    let own = crowd(&rt, rt.alloc(), &shared, &mut thread, 2, false, 500);
    let run = finish(&rt, shared, thread);
    let entries = run.journal.as_slice();
    let each = [rising(entries, 1), rising(entries, 2)];
    assert_eq!(rt; (own, entries.len(), each), (0, 1000, [500, 500]));
}

#[test]
fn no_more_than_65_536_tokens(rt: HostRuntime) {
    let Opened { shared, mut thread } = opened(&rt, rt.alloc(), 1000);
    let made = attached_all(&rt, &shared, &mut thread);
    let run = finish(&rt, shared, thread);
    assert_eq!(rt; (made, run.threads, run.journal.len()), (65536, 65536, 0));
}

#[test]
fn no_more_tokens_than_the_driver_is_for(rt: HostRuntime) {
    'limits: for most in 1..4u32 {
        let Opened { shared, mut thread } = opened_for(&rt, rt.alloc(), 1000, most);
        let made = attached_all(&rt, &shared, &mut thread);
        let run = finish(&rt, shared, thread);
        assert_eq!(rt; (made, run.threads), (most, most));
    }
}

// Three tokens more, of which the second sets the scene.
fn waited<R: Abort + Threads + Wait + Clock + Sync>(
    rt: &R,
    alloc: Global,
    shared: &Shared,
    thread: &mut Thread,
    scene: &Scene,
)
    requires { IsOf shared.now thread.old }
    ensures { IsOf shared.now thread.new }
{
    let first = attached(rt, shared, thread);
    let mut second = attached(rt, shared, thread);
    let third = attached(rt, shared, thread);
    set_scene(rt, alloc, shared, &mut second);
    let mut tokens = [first, second, third];
    three_sides(rt, alloc, shared, &mut tokens, scene);
    let [first, second, third] = tokens;
    shared.join(thread, rt, first);
    shared.join(thread, rt, second);
    shared.join(thread, rt, third);
}

// How many entries a token has with a mark, and how many of these begin a wait.
fn marked(entries: &[Entry], number: u32, mark: u64) -> (u64, u64) {
    let (mut all, mut begun) = (0u64, 0u64);
    'each: for entry in entries {
        if entry.thread == number && entry.mark == mark {
            all = all.wrapping_add(1);
            begun = begun.wrapping_add(u64::from(entry.reply.outcome == Outcome::Waiting));
        }
    }
    (all, begun)
}

#[test]
fn a_wait_ends_by_another_threads_flush_and_each_way_calls_who_sleeps(rt: HostRuntime) {
    let scene = Scene::new();
    let Opened { shared, mut thread } = opened(&rt, rt.alloc(), 1000);
    waited(&rt, rt.alloc(), &shared, &mut thread, &scene);
    let run = finish(&rt, shared, thread);
    let of_the_wait = marked(run.journal.as_slice(), 1, 8);
    assert_eq!(rt; (of_the_wait, run.journal.len()), ((2, 1), 14));
    // Two looks for each mark.
    assert_eq!(rt;
        (scene.answered.load(SeqCst), scene.looks.load(SeqCst)),
        (1, 10)
    );
    assert!(rt; is_replayed(&rt, rt.alloc(), &run.journal, 4, 1000));
}

/// Counts the Halt entries of a token, and stops.
#[derive(Drop)]
struct Counting {
    number: u32,
    halts: u64,
}

impl Picker for Counting {
    ghost may = { λ s es d. Unit {0} };

    ghost picks = { λ s es d p t. Unit {0} };

    fn pick(&mut self, journal: &Journal, _driver: &Driver) -> Result<Pick, NoMemory> {
        'each: for entry in journal.as_slice() {
            if entry.thread == self.number && entry.is_halt() {
                self.halts = self.halts.wrapping_add(1);
            }
        }
        Ok(Pick::Stop)
    }
}

// What a picker of the first token sees of the second's halts, where it stops at once.
fn halts_seen<R: Wait>(
    rt: &R,
    alloc: Global,
    shared: &Shared,
    thread: &mut Thread,
    number: u32,
) -> Option<u64>
    requires { IsOf shared.now thread.old }
    ensures { IsOf shared.now thread.new }
{
    let mut counting = Counting { number, halts: 0 };
    match shared.call_picked(thread, rt, alloc, &mut counting) {
        Ok(Picked::Stopped) => Some(counting.halts),
        _ => None,
    }
}

// The halts that are seen, and what `live` answers before and after the second token's join.
fn halted<R: Abort + Wait>(
    rt: &R,
    alloc: Global,
    shared: &Shared,
    thread: &mut Thread,
) -> (Option<u64>, u32, u32)
    requires { IsOf shared.now thread.old }
    ensures { IsOf shared.now thread.new }
{
    let mut other = attached(rt, shared, thread);
    shared.halt(&mut other, rt, alloc);
    shared.halt(&mut other, rt, alloc);
    let both = shared.live(&mut other, rt);
    let halts = halts_seen(rt, alloc, shared, thread, other.number());
    shared.join(thread, rt, other);
    let one = shared.live(thread, rt);
    (halts, both, one)
}

#[test]
fn one_call_is_one_entry_and_a_token_halts_once(rt: HostRuntime) {
    let Opened { shared, mut thread } = opened(&rt, rt.alloc(), 1000);
    let call = call_of(&rt, rt.alloc(), "eglGetDisplay 0");
    let value = played(&rt, rt.alloc(), &shared, &mut thread, 7, call).value;
    let seen = halted(&rt, rt.alloc(), &shared, &mut thread);
    let run = finish(&rt, shared, thread);
    assert_eq!(rt; (value, seen), (1, (Some(1), 2, 1)));
    assert_eq!(rt; (run.journal.len(), run.journal.is_halted()), (2, true));
}

#[test]
fn local_calls_take_the_places_that_other_calls_give_back(rt: HostRuntime) {
    'rows: for row in &ROWS {
        assert!(rt; holds(&rt, rt.alloc(), row), "{row:?}");
    }
}

// Local calls of a token before it makes another, and of that one before it is joined.
fn queried<R: Abort + Wait>(rt: &R, alloc: Global, shared: &Shared, thread: &mut Thread) -> [u64; 3]
    requires { IsOf shared.now thread.old }
    ensures { IsOf shared.now thread.new }
{
    let first = queries(rt, alloc, shared, thread, 3);
    let mut other = attached(rt, shared, thread);
    let second = queries(rt, alloc, shared, &mut other, 2);
    shared.join(thread, rt, other);
    [first, second, queries(rt, alloc, shared, thread, 1)]
}

#[test]
fn own_calls_are_handed_in_once(rt: HostRuntime) {
    let Opened { shared, mut thread } = opened(&rt, rt.alloc(), 1000);
    let made = queried(&rt, rt.alloc(), &shared, &mut thread);
    let run = finish(&rt, shared, thread);
    let of_other = [
        marked(run.journal.as_slice(), 1, 0),
        marked(run.journal.as_slice(), 1, 1),
    ];
    assert_eq!(rt; (made, run.journal.len()), ([3, 2, 1], 6));
    assert_eq!(rt; of_other, [(1, 0), (1, 0)]);
    assert!(rt; is_replayed(&rt, rt.alloc(), &run.journal, 2, 1000));
}

// How many bytes of pixels the random calls may make.
const VIDEO: u64 = 1 << 20;

#[test]
fn sixteen_threads_make_1_000_calls_each(rt: HostRuntime) {
    let Opened { shared, mut thread } = opened(&rt, rt.alloc(), VIDEO);
    let own = crowd(&rt, rt.alloc(), &shared, &mut thread, 16, true, 1000);
    let run = finish(&rt, shared, thread);
    let reads = run
        .journal
        .as_slice()
        .iter()
        .filter(|e| e.reply.bytes.len() != 0)
        .count();
    assert!(rt; own > 7_500, "{own} calls took no turn");
    assert!(rt; reads != 0, "no pixels were read");
    assert_eq!(rt; (run.journal.len(), run.threads), (16_000, 17));
    assert!(rt; is_replayed(&rt, rt.alloc(), &run.journal, 17, VIDEO));
}
