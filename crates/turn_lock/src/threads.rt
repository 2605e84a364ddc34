//! Turns in which nothing is done, in one thread and in many.
ghost use Rattle.std.specs.Prelude.{All, ◌<◌, ◌≡◌};
ghost use Rattle.turn_lock.specs.Passes.{IsOf, IsFree, view_of};
ghost use Rattle.turn_lock.specs.Views.{ThenOthers};

use crate::pass::Pass;
use crate::replays::Replays;
use crate::turns::Turns;
use std::sync::Wait;
use std::thread;
use std::thread::Threads;

/// Takes a turn and changes nothing. The pass then sees what others added, and has counted the passes.
pub fn catch_up<S: Replays, R: Wait>(rt: &R, turns: &Turns<S>, pass: &mut Pass<S>)
    requires { IsOf turns.now pass.old × IsFree pass.old }
    ensures pass { IsOf turns.now pass.new × IsFree pass.new }
    ensures seen { ThenOthers S.meaning (view_of pass.old) (view_of pass.new).seen }
    ensures counted { (view_of pass.new).number < (view_of pass.new).counts.made }
    ensures number { (view_of pass.new).number ≡ (view_of pass.old).number }
{
    let held = turns.take_turn(pass, rt);
    turns.give_back(pass, held);
}

// Takes what may move to another thread.
fn needs_send<T: Send>(_value: &T) {}

/// Each pass catches up, in at most `threads` threads.
///
/// It is proved for every value that is `Send`, and so shows that the lock is then `Send` and `Sync`, and a pass `Send`: a missing
/// proof of those would show here.
pub fn catch_up_all<S: Replays + Send, R: Threads + Wait + Sync>(
    rt: &R,
    turns: &Turns<S>,
    passes: &mut [Pass<S>],
    threads: usize,
)
    requires passes { All (λ p. IsOf turns.now p × IsFree p) passes.old }
    requires threads { 0 < threads }
    ensures passes { All (λ p. IsOf turns.now p × IsFree p) passes.new }
    ensures counted { All (λ p. (view_of p).number < (view_of p).counts.made) passes.new }
{
    needs_send(turns);
    thread::for_each_mut(
        rt,
        passes,
        threads,
        &|_, p: &mut Pass<S>|
            requires { IsOf turns.now p.now × IsFree p.now }
            ensures pass { IsOf turns.entry.now p.exit.now × IsFree p.exit.now }
            ensures counted { (view_of p.exit.now).number < (view_of p.exit.now).counts.made }
        { catch_up(rt, turns, p) },
    );
}
