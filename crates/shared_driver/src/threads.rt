//! Tokens in many threads.
ghost use Rattle.std.specs.Prelude.{All, ◌<◌, ℕ, [], length, slice_index_or};
ghost use Rattle.shared_driver.specs.declared.tokens.Thread.{Thread as AThread};
ghost use Rattle.shared_driver.specs.Tokens.{Goes, IsOf, token_of};

use crate::tokens::{Shared, Thread};
use std::sync::Wait;
use std::thread;
use std::thread::Threads;

// Takes what may move to another thread.
fn needs_send<T: Send>(_value: &T) {}

/// Each token hands in its own calls, in at most `most` threads.
///
/// It shows that the driver is `Send` and `Sync`, and a token `Send`: a missing proof of those would show here.
pub fn finish_all<R: Threads + Wait + Sync>(
    rt: &R,
    shared: &Shared,
    threads: &mut [Thread],
    most: usize,
)
    requires owns { All (λ t. IsOf shared.now t) threads.old }
    requires most { 0 < most }
    ensures owns { All (λ t. IsOf shared.now t) threads.new }
    ensures seen { (k : ℕ) (d : AThread) → k < length threads.old → Goes (token_of (slice_index_or threads.old k d)) [] (token_of (slice_index_or threads.new k d)) }
{
    needs_send(shared);
    thread::for_each_mut(
        rt,
        threads,
        most,
        &|_, t: &mut Thread|
            requires { IsOf shared.now t.now }
            ensures owns { IsOf shared.entry.now t.exit.now }
            ensures seen { Goes (token_of t.entry.now) [] (token_of t.exit.now) }
        { shared.finish(t, rt) },
    );
}
