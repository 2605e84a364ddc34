//! Tokens that begin and end.
ghost use Rattle.std.specs.Prelude.{◌≡◌, ◌<◌, ◌∷◌, ◌++◌, [], false, slice_index, OnErr, OnOk, IfOk, IfErr};
ghost use Rattle.turn_lock.specs.Passes as passes;
ghost use Rattle.turn_lock.specs.Passes.{view_of, IsFree};
ghost use Rattle.shared_driver.specs.Cores.{IsFull, all_places, of_number};
ghost use Rattle.shared_driver.specs.Tokens.{AreDisjoint, Goes, HasNewNumber, Includes, IsNew, IsOf, IsSame, KnowsEnded, Learns, mine, most_of, token_of};
ghost use Rattle.shared_driver.specs.Turns.{Holds, Retires};

use crate::boxes::{BoxedCore, core_of};
use crate::cores::{FIRST_ROOM, PLACES};
use crate::newcomers::Newcomer;
use crate::tokens::{AttachError, Holding, Shared, Thread};
use std::sync::Wait;
use turn_lock::Pass;

impl Shared {
    /// Makes a token that has seen what this one has. First this one hands in its own calls. Where none can be made, this one sees at most what others added.
    ///
    /// Full comes exactly where as many tokens were made as the driver is for, whether they are live or not.
    pub fn attach<R: Wait>(&self, from: &mut Thread, rt: &R) -> Result<Thread, AttachError>
        requires owns { IsOf self.now from.old }
        ensures owns { IsOf self.now from.new × IfOk result (λ t. IsOf self.now t) }
        ensures same { IsSame (token_of from.old) (token_of from.new) }
        ensures sole { (token_of from.new).sole ≡ false }
        ensures from { OnOk result (Goes (token_of from.old) [] (token_of from.new)) }
        ensures err { OnErr result (Learns (token_of from.old) (token_of from.new)) }
        ensures mine { mine (token_of from.new) ≡ mine (token_of from.old) }
        ensures new { IfOk result (λ t. IsNew (token_of from.new) (token_of t)) }
        ensures new_mine { IfOk result (λ t. mine (token_of t) ≡ []) }
        ensures new_number { IfOk result (λ t. HasNewNumber (token_of from.old) (token_of from.new) (token_of t)) }
        ensures below { IfOk result (λ t. (token_of t).number < most_of self.now) }
        ensures places { OnOk result ((token_of from.new).places ≡ all_places) × OnErr result ((token_of from.new).places ≡ (token_of from.old).places) }
        ensures full { IfErr result (IsFull (most_of self.now) (token_of from.new).made) }
    {
        let back = PLACES - from.places;
        let alloc = *from.hold.tail.allocator();
        let mut held = self.begin_turn(&mut from.hold, rt);
        let core = core_of(&mut held);
        match core.admit(alloc, from.hold.number, &mut from.hold.tail, back) {
            Ok(Newcomer { number, part, tail }) => {
                let pass = self
                    .turns
                    .split_after(&mut from.hold.pass, &held, FIRST_ROOM);
                let woken = self.news.rouse_all(rt);
                self.end_turn(&mut from.hold, held);
                from.places = PLACES;
                from.sole = false;
                self.news.call(&woken);
                Ok(Thread {
                    hold: Holding {
                        pass,
                        number,
                        part: Some(part),
                        tail,
                    },
                    places: PLACES,
                    halted: false,
                    sole: false,
                    halt_used: false,
                    end_kept: false,
                })
            }
            Err(error) => {
                self.end_turn(&mut from.hold, held);
                from.sole = false;
                Err(error)
            }
        }
    }

    // The last turn of a token: its own calls are handed in, its part stays in the driver, and its room is then 0.
    fn retire<R: Wait>(&self, mut hold: Holding, rt: &R) -> Pass<BoxedCore>
        requires owns { passes.IsOf self.now.turns hold.pass }
        requires holds { Holds hold }
        ensures owns { passes.IsOf self.now.turns result × IsFree result }
        ensures room { slice_index (view_of result).rooms (view_of result).number ≡ 0 }
        ensures retires { Retires hold result }
    {
        let mut held = self.begin_turn(&mut hold, rt);
        let core = core_of(&mut held);
        core.hand_in(hold.number, &mut hold.tail);
        core.leave(hold.number);
        let woken = self.news.rouse_all(rt);
        let Holding {
            mut pass,
            number: _,
            part: None,
            tail: _,
        } = hold
        else {
            unreachable!()
        };
        self.turns.give_back(&mut pass, held);
        self.news.call(&woken);
        pass
    }

    /// Ends the other token. First that hands in its own calls, in its own turn. It takes no memory.
    pub fn join<R: Wait>(&self, into: &mut Thread, rt: &R, other: Thread)
        requires owns { IsOf self.now into.old × IsOf self.now other }
        ensures owns { IsOf self.now into.new }
        ensures disjoint { AreDisjoint (token_of into.old) (token_of other) }
        ensures number { (token_of into.new).number ≡ (token_of into.old).number }
        ensures ended { (token_of into.new).ended ≡ (token_of into.old).ended ++ (token_of other).number ∷ (token_of other).ended }
        ensures sole { (token_of into.new).sole ≡ false }
        ensures seen { Learns (token_of into.old) (token_of into.new) }
        ensures other { Includes (token_of other) (token_of into.new).seen }
        ensures mine { mine (token_of into.new) ≡ mine (token_of into.old) }
        ensures places { (token_of into.new).places ≡ (token_of into.old).places }
        ensures other_mine { of_number (token_of other).number (token_of into.new).seen ≡ mine (token_of other) }
        ensures other_ended { KnowsEnded (token_of other) (token_of into.new).seen }
        ensures into_ended { KnowsEnded (token_of into.old) (token_of into.new).seen }
    {
        let Thread {
            hold,
            places: _,
            halted: _,
            sole: _,
            halt_used: _,
            end_kept: _,
        } = other;
        let pass = self.retire(hold, rt);
        let mut held = self.turns.take_turn(&mut into.hold.pass, rt);
        self.turns.join(&mut into.hold.pass, pass);
        core_of(&mut held).dismiss();
        self.turns.give_back(&mut into.hold.pass, held);
        into.sole = false;
    }
}
