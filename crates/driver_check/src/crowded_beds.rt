//! More threads than there are beds: each sleeps for the answer of another, and some share a bed.
ghost use Rattle.std.specs.Prelude.{All};
ghost use Rattle.shared_driver.specs.Tokens.{IsOf};

use crate::crowds::{attach, finish, join_all, opened};
use crate::draws::egl;
use crate::sides::played;
use driver_core::Driver;
use egl_calls::{EglKind, Journal, NoMemory};
use shared_driver::{Opened, Pick, Picked, Picker, Shared, Thread, Wanted};
use std::alloc::Global;
use std::process::Abort;
use std::sync::Wait;
use std::thread;
use std::thread::Threads;
use std::time::{Clock, Duration};

/// How many threads pass an answer on. There are 32 beds.
const THREADS: usize = 40;

/// How long the first of them waits, so that the others sleep by then, in milliseconds.
const NAP: u64 = 50;

/// Picks a call once that with the mark before its own has an answer.
#[derive(Drop)]
struct PassingOn {
    alloc: Global,
    mark: u64,
}

impl Picker for PassingOn {
    ghost may = { λ s es d. Unit {0} };

    ghost picks = { λ s es d p t. Unit {0} };

    fn pick(&mut self, journal: &Journal, _driver: &Driver) -> Result<Pick, NoMemory> {
        'looking: for entry in journal.as_slice() {
            if entry.mark == self.mark {
                let call = egl(self.alloc, EglKind::GetDisplay, [0, 0, 0, 0]);
                return Ok(Pick::Call(self.mark.wrapping_add(1), call));
            }
        }
        Ok(Pick::Wait(Wanted::Answer(self.mark)))
    }
}

// Sleeps until the call with this mark has an answer, and makes the next.
fn passes_on<R: Abort + Wait>(
    rt: &R,
    alloc: Global,
    shared: &Shared,
    thread: &mut Thread,
    mark: u64,
)
    requires { IsOf shared.now thread.old }
    ensures { IsOf shared.now thread.new }
{
    'turns: for _ in rt.forever() {
        let heard = shared.heard(thread);
        match shared.call_picked(thread, rt, alloc, &mut PassingOn { alloc, mark }) {
            Ok(Picked::Waited) => shared.sleep(rt, heard),
            Ok(_) => return,
            Err(_) => panic!(rt; "memory"),
        }
    }
    unreachable!()
}

// Makes the first call, or passes on.
fn one_place<R: Abort + Wait + Clock>(
    rt: &R,
    alloc: Global,
    shared: &Shared,
    thread: &mut Thread,
    place: usize,
)
    requires { IsOf shared.now thread.old }
    ensures { IsOf shared.now thread.new }
{
    if place == 0 {
        thread::sleep(rt, Duration::from_millis(NAP));
        played(
            rt,
            alloc,
            shared,
            thread,
            1,
            egl(alloc, EglKind::GetDisplay, [0, 0, 0, 0]),
        );
    } else {
        passes_on(rt, alloc, shared, thread, place as u64);
    }
}

// So many threads, with tokens that are joined in the end.
fn pass_round<R: Abort + Threads + Wait + Clock + Sync>(
    rt: &R,
    alloc: Global,
    shared: &Shared,
    thread: &mut Thread,
)
    requires { IsOf shared.now thread.old }
    ensures { IsOf shared.now thread.new }
{
    let Ok(mut tokens) = Vec::with_capacity(alloc, THREADS) else {
        panic!(rt; "memory");
    };
    attach(rt, shared, thread, &mut tokens, THREADS);
    thread::for_each_mut(
        rt,
        tokens.as_mut_slice(),
        THREADS,
        &|k, t: &mut Thread|
            requires { IsOf shared.now t.now }
            ensures { IsOf shared.entry.now t.exit.now }
        { one_place(rt, alloc, shared, t, k) },
    );
    join_all(rt, shared, thread, tokens);
}

#[test]
fn forty_threads_pass_an_answer_on(rt: HostRuntime) {
    let Opened { shared, mut thread } = opened(&rt, rt.alloc(), 1000);
    pass_round(&rt, rt.alloc(), &shared, &mut thread);
    assert_eq!(rt; finish(&rt, shared, thread).journal.len(), 40);
}
