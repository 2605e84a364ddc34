//! Calls that are picked one after another in one turn.
ghost use Rattle.std.specs.Prelude.{◌≡◌, ◌<◌, ◌≤◌, ◌+◌, [], ℕ, Bool, true, false, length, None, IfOk, IfErr, OnOk, OnErr, slice_index, slice_set, List};
ghost use Rattle.std.specs.VecDeque.{deque_capacity};
ghost use Rattle.egl_calls.specs.Calls.{ReplyValue};
ghost use Rattle.egl_calls.specs.declared.entries.Entry.{Entry};
ghost use Rattle.driver_core.specs.Machine.{Machine};
ghost use Rattle.shared_driver.specs.declared.cores.Core.{Core as TheCore};
ghost use Rattle.shared_driver.specs.declared.picks.Pick.{Pick as ThePick};
ghost use Rattle.shared_driver.specs.declared.picks.Picked.TheVariants.{Replied};
ghost use Rattle.shared_driver.specs.Cores.{all_places, owed};
ghost use Rattle.shared_driver.specs.Picks.{ComesOf, IsDone, IsSeenAtTurn, halts};
ghost use Rattle.shared_driver.specs.Runs.{AreRounds, AreTokenRounds, IsLast, IsReplied, most_rounds};
ghost use Rattle.shared_driver.specs.Tokens.{Goes, IsOf, IsSame, Token, mine, opening_of, token_of};

use crate::boxes::core_of;
use crate::calls::either;
use crate::cores::{Core, PLACES};
use crate::news::News;
use crate::picks::{Picked, PickedCall, Picker, has_stopped};
use crate::tokens::{Shared, Thread};
use egl_calls::{Entry, NoMemory, Reply};
use std::alloc::Global;
use std::collections::VecDeque;
use std::sync::Wait;

/// How many calls one turn plays at most. To hand the lock over to another thread costs as much as some ten calls, so that a turn of this many spends most of its time on calls; and a thread that waits for its turn gets it behind so many of each thread before it.
pub const MOST_ROUNDS: u64 = 64;

/// A picker that may pick several calls in one turn.
pub trait Runner {
    /// What it is once it was told how the call was answered that it picked last.
    ghost told: { Self → ReplyValue → Self → Type 0 };
    /// Whether it wants to pick again, where the call that it picked last was answered so, and a sleeping thread was freed or not.
    ghost wants: { Self → ReplyValue → Bool → Bool };

    /// Whether it picks again before others have a turn, where the call that it picked last was answered so. It hears whether a sleeping thread waits for the turn's end, since an entry of the turn has freed it.
    fn again(&self, reply: &Reply, freed: bool) -> bool
        ensures { result ≡ wants self.now reply.now freed };

    /// Is told how the call was answered that it picked last.
    fn tell(&mut self, reply: Reply)
        ensures { told self.old reply self.new };
}

/// Memory ran out in a turn of several picks, once so many places were given back.
#[derive(Drop)]
pub struct RanOut {
    pub given: u64,
}

/// Whether the picker picks again: its call was answered and is no Halt, and no draw is left of it.
fn goes_on<P: Runner>(picker: &P, call: &PickedCall, freed: bool) -> bool
    ensures on { result ≡ true → IsReplied call.now.picked × (call.now.halts ≡ false) × (call.now.drawing ≡ None) }
    ensures ends { result ≡ false → IsLast P.wants picker.now call.now.picked call.now.halts call.now.drawing }
{
    match &call.picked {
        Picked::Replied(reply) => {
            call.drawing.is_none() && !call.halts && picker.again(reply, freed)
        }
        _ => false,
    }
}

/// The reply of a call that was answered.
fn reply_of(picked: Picked) -> Reply
    requires { IsReplied picked }
    ensures { picked ≡ Replied result }
{
    match picked {
        Picked::Replied(reply) => reply,
        _ => unreachable!(),
    }
}

impl Core {
    /// Plays the calls that are picked one after another, after the token's own calls were handed in, as long as the picker picks again, and `MOST_ROUNDS` at most. Where the first was picked its room has grown by so many places. The turn's entries stand in the journal from a place on.
    pub fn pick_run<R: Wait, P: Picker + Runner>(
        &mut self,
        rt: &R,
        alloc: Global,
        news: &News,
        from: u64,
        number: u32,
        picker: &mut P,
        tail: &mut VecDeque<Entry>,
        back: u64,
    ) -> Result<PickedCall, RanOut>
        requires may { (k : ℕ) (x : TheCore) (p : P) → AreRounds P.picks P.told number k self.old picker.old x p → P.may p x.journal.entries x.driver }
        requires number { (number < self.old.driver.made) × (number < length self.old.rooms.items) }
        requires room { 0 < slice_index self.old.rooms.items number }
        requires tail { tail.old.items ≡ [] }
        requires back { back ≤ all_places }
        requires owed { self.old.promised ≡ owed self.old.rooms.items }
        requires spare { self.old.promised ≤ self.old.journal.spare }
        ensures ok { IfOk result (λ r. (k : ℕ) × (k < most_rounds) × (x : TheCore) × (q : P) × (p : ThePick) × AreRounds P.picks P.told number k self.old picker.old x q × P.picks q x.journal.entries x.driver p picker.new × IsDone x number p r.picked r.drawing self.new × (r.halts ≡ halts p) × (k + 1 < most_rounds → IsLast P.wants picker.new r.picked r.halts r.drawing)) }
        ensures rooms { OnOk result (self.new.rooms.items ≡ slice_set self.old.rooms.items number (slice_index self.old.rooms.items number + back)) }
        ensures err { OnErr result ((k : ℕ) × (k < most_rounds) × (x : TheCore) × (q : P) × AreRounds P.picks P.told number k self.old picker.old x q × (self.new.driver ≡ x.driver) × (self.new.journal.entries ≡ x.journal.entries)) }
        ensures err_rooms { IfErr result (λ e. (e.given ≤ back) × (self.new.rooms.items ≡ slice_set self.old.rooms.items number (slice_index self.old.rooms.items number + e.given))) }
        ensures tail { (tail.new.items ≡ []) × (deque_capacity tail.new ≡ deque_capacity tail.old) }
        ensures live { self.new.tokens ≡ self.old.tokens }
        ensures owed { self.new.promised ≡ owed self.new.rooms.items }
        ensures spare { self.new.promised ≤ self.new.journal.spare }
    {
        let mut given = 0;
        let mut freed = false;
        let mut looked = from;
        'rounds: for _round in 1..MOST_ROUNDS {
            let Ok(call) = self.pick(alloc, number, picker, tail, back - given) else {
                return Err(RanOut { given });
            };
            given = back;
            freed = either(freed, news.frees(rt, self, looked));
            looked = self.journal.len();
            if !goes_on(picker, &call, freed) {
                return Ok(call);
            }
            picker.tell(reply_of(call.picked));
        }
        let Ok(call) = self.pick(alloc, number, picker, tail, back - given) else {
            return Err(RanOut { given });
        };
        Ok(call)
    }
}

impl Shared {
    /// Plays the calls that the picker picks one after another in one turn, after the token's own calls were handed in: one, and more where the picker wants to pick again, but `MOST_ROUNDS` at most. The replies of all but the last were told to the picker, and what came of the last is answered. Between them no other token adds an entry. A call that leaves a draw ends the turn, and so does a Halt.
    ///
    /// Where memory runs out, the calls before it stand in the history.
    pub fn call_run<R: Wait, P: Picker + Runner>(
        &self,
        thread: &mut Thread,
        rt: &R,
        alloc: Global,
        picker: &mut P,
    ) -> Result<Picked, NoMemory>
        requires owns { IsOf self.now thread.old }
        requires may { (k : ℕ) (u : Token) (q : P) (es : List Entry) (d : Machine) → AreTokenRounds P.picks P.told (opening_of self.now) k (token_of thread.old) picker.old u q → IsSeenAtTurn (opening_of self.now) u es d → P.may q es d }
        ensures owns { IsOf self.now thread.new }
        ensures same { IsSame (token_of thread.old) (token_of thread.new) }
        ensures sole { (token_of thread.new).sole ≡ (token_of thread.old).sole }
        ensures ok { IfOk result (λ r. (k : ℕ) × (k < most_rounds) × (u : Token) × (q : P) × (es : List Entry) × (d : Machine) × (p : ThePick) × AreTokenRounds P.picks P.told (opening_of self.now) k (token_of thread.old) picker.old u q × IsSeenAtTurn (opening_of self.now) u es d × P.picks q es d p picker.new × ComesOf u es p r (token_of thread.new)) }
        ensures tail { OnOk result ((token_of thread.new).tail ≡ []) }
        ensures places { OnOk result ((token_of thread.new).places ≡ all_places) }
        ensures err { OnErr result ((k : ℕ) × (k < most_rounds) × (u : Token) × (q : P) × AreTokenRounds P.picks P.told (opening_of self.now) k (token_of thread.old) picker.old u q × Goes u [] (token_of thread.new) × (mine (token_of thread.new) ≡ mine u)) }
        ensures err_places { OnErr result ((token_of thread.old).places ≤ (token_of thread.new).places) }
    {
        let back = PLACES - thread.places;
        let mut held = self.begin_turn(&mut thread.hold, rt);
        let core = core_of(&mut held);
        let from = core.journal.len();
        core.hand_in(thread.hold.number, &mut thread.hold.tail);
        match core.pick_run(
            rt,
            alloc,
            &self.news,
            from,
            thread.hold.number,
            picker,
            &mut thread.hold.tail,
            back,
        ) {
            Ok(
                PickedCall {
                    picked,
                    halts,
                    wanted,
                    drawing,
                },
            ) => {
                let woken = self.news.rouse_by(rt, core, from, has_stopped(&picked));
                self.news.lie_down(rt, thread.hold.number, wanted);
                self.end_turn_with(&mut thread.hold, held, &woken, &drawing);
                thread.places = PLACES;
                thread.halted = either(thread.halted, halts);
                Ok(picked)
            }
            Err(RanOut { given }) => {
                let woken = self.news.rouse(rt, core, from);
                self.end_turn(&mut thread.hold, held);
                thread.places += given;
                self.news.call(&woken);
                Err(NoMemory)
            }
        }
    }
}
