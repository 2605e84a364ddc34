//! Calls of threads that share a driver, each with a token.
ghost use Rattle.std.specs.Prelude.{◌≡◌, ◌+◌, ◌<◌, ◌≤◌, All, vec_len, vec_capacity};
ghost use Rattle.egl_model.specs.Waits.{is_wait_end};
ghost use Rattle.shared_driver.specs.Tokens.{IsOf};

use crate::calls::{PIXEL_BYTES, lines_of};
use crate::threads::sorts::{Sort, Way, before};
use anyhow::{Result, bail};
use egl_calls::{Kind, OwnKind};
use shared_driver::{Closed, Opened, Shared, Thread};
use std::alloc::Global;
use std::rt::Clock;
use std::sync::Wait;
use std::thread;
use std::thread::Threads;
use std::time::{Duration, Instant};
use trace_reader::{LineCall, Trace};

fn is_wait_end(kind: Kind) -> bool
    ensures { result ≡ is_wait_end kind }
{
    matches!(kind, Kind::Own(OwnKind::WaitEnd))
}

// A call of a trace, made anew. Where it finds no memory it has no entry, which shows in the end.
fn call<R: Wait>(
    rt: &R,
    alloc: Global,
    shared: &Shared,
    token: &mut Thread,
    way: Way,
    mark: u64,
    call: &LineCall,
)
    requires { IsOf shared.now token.old }
    ensures { IsOf shared.now token.new }
{
    let Ok(call) = call.to_call(alloc) else {
        return;
    };
    if way == Way::Part && token.is_local(&call) {
        let _ = token.local(alloc, mark, call);
    } else if !is_wait_end(call.kind) {
        let _ = shared.call(token, rt, alloc, mark, call);
    }
}

// So many calls of one thread, the lines of a trace by turns.
fn calls<R: Wait>(
    rt: &R,
    alloc: Global,
    shared: &Shared,
    token: &mut Thread,
    way: Way,
    lines: &Trace,
    count: u64,
)
    requires { IsOf shared.now token.old }
    ensures { IsOf shared.now token.new }
{
    let of = (lines.lines().len() as u64).max(1);
    'calls: for mark in 0..count {
        if let Some(line) = lines.line(mark % of) {
            call(rt, alloc, shared, token, way, mark, &line.call);
        }
    }
}

// The same, of lines that are still to be read.
fn calls_of<R: Wait>(
    rt: &R,
    alloc: Global,
    shared: &Shared,
    token: &mut Thread,
    way: Way,
    text: &str,
    count: u32,
)
    requires { IsOf shared.now token.old }
    ensures { IsOf shared.now token.new }
{
    if let Ok(lines) = lines_of(alloc, text) {
        calls(rt, alloc, shared, token, way, &lines, u64::from(count));
    }
}

// Puts tokens into the room that there is, each with a surface of its own.
fn attach<R: Wait>(
    rt: &R,
    alloc: Global,
    shared: &Shared,
    first: &mut Thread,
    tokens: &mut Vec<Thread>,
    threads: u16,
    sort: &Sort,
)
    requires owns { IsOf shared.now first.old }
    requires tokens { All (λ t. IsOf shared.now t) tokens.old.items }
    requires room { vec_len tokens.old + threads ≤ vec_capacity tokens.old }
    ensures owns { IsOf shared.now first.new }
    ensures tokens { All (λ t. IsOf shared.now t) tokens.new.items }
{
    'attaching: for place in 0..threads {
        let Ok(lines) = before(alloc, sort, place) else {
            break 'attaching;
        };
        let Ok(mut token) = shared.attach(first, rt) else {
            break 'attaching;
        };
        calls(
            rt,
            alloc,
            shared,
            &mut token,
            Way::Turn,
            &lines,
            sort.before,
        );
        tokens.push_reserved(token);
    }
}

fn join_all<R: Wait>(rt: &R, shared: &Shared, first: &mut Thread, mut tokens: Vec<Thread>)
    requires owns { IsOf shared.now first.old }
    requires tokens { All (λ t. IsOf shared.now t) tokens.items }
    ensures { IsOf shared.now first.new }
{
    'joining: while let Some(token) = tokens.pop() {
        shared.join(first, rt, token);
    }
    tokens.destroy_empty();
}

/// Waits until the first token is the only one, closes the driver, and answers how many calls its journal has.
pub fn closed<R: Wait>(rt: &R, shared: Shared, mut first: Thread) -> u64
    requires { IsOf shared first }
{
    'waiting: for _ in rt.forever() {
        if shared.live(&mut first, rt) == 1 {
            let Closed { driver: _, journal } = shared.close(first);
            return journal.len();
        }
    }
    unreachable!()
}

// How long it takes so many threads to make so many calls each, with tokens that are joined in the end.
fn time_threads<R: Clock + Threads + Wait + Sync>(
    rt: &R,
    alloc: Global,
    shared: &Shared,
    first: &mut Thread,
    threads: u16,
    sort: &Sort,
    way: Way,
    count: u32,
) -> Result<Duration>
    requires owns { IsOf shared.now first.old }
    requires threads { 0 < threads }
    ensures { IsOf shared.now first.new }
{
    let Ok(mut tokens) = Vec::with_capacity(alloc, usize::from(threads)) else {
        bail!("no memory for tokens");
    };
    attach(rt, alloc, shared, first, &mut tokens, threads, sort);
    let text = sort.calls;
    let start = Instant::now(rt);
    thread::for_each_mut(
        rt,
        tokens.as_mut_slice(),
        usize::from(threads),
        &|_, token: &mut Thread|
            requires { IsOf shared.now token.now }
            ensures { IsOf shared.entry.now token.exit.now }
        { calls_of(rt, alloc, shared, token, way, text, count) },
    );
    let end = Instant::now(rt);
    join_all(rt, shared, first, tokens);
    Ok(end?.duration_since(start?))
}

/// How long it takes so many threads to make so many calls each.
pub fn run<R: Clock + AllocGlobal + Threads + Wait + Sync>(
    rt: &R,
    threads: u16,
    sort: &Sort,
    way: Way,
    count: u32,
) -> Result<Duration>
    requires { 0 < threads }
{
    let alloc = rt.alloc();
    let Ok(
        Opened {
            shared,
            thread: mut first,
        },
    ) = Shared::open(alloc, &[], PIXEL_BYTES)
    else {
        bail!("no memory for a driver");
    };
    let took = time_threads(rt, alloc, &shared, &mut first, threads, sort, way, count);
    let made = closed(rt, shared, first);
    let each = sort.before.saturating_add(u64::from(count));
    if made != u64::from(threads).saturating_mul(each) {
        bail!("no memory for a call");
    }
    took
}
