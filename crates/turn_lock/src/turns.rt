//! The lock.
ghost use Rattle.std.specs.Prelude.{◌≡◌};

use crate::bells::Bells;
use crate::held::Held;
use crate::memory::NoMemory;
use crate::pass::Pass;
use crate::replays::Replays;
use crate::rule::Turning;
use crate::steps::{Cut, Draw, Look, PassOn, Room, TakeIn, Tell};
use crate::view::View;
use atomic_table::Table;
use std::alloc::Global;
use std::marker::Brand;
use std::snapshot::Snapshot;
use std::sync::Wait;
use std::thread;

// The words of the table count modulo 2^64.
const TICKET: usize = 0;

const SERVING: usize = 1;

// The one slot, for the value.
const STATE: usize = 0;

// How often a waiting thread looks and yields before it sleeps.
const LOOKS: u32 = 8;

/// The lock. It is `Send` and `Sync` where the value is `Send`. It must be spent, by `close`.
pub struct Turns<S: Replays> {
    pub(crate) table: Table<Option<S>, View<S, S::Entry>, Snapshot<S>, Turning, Global>,
    pub(crate) bells: Bells,
    ghost shape: { (table.shared.table_id.words ≡ 2) × (table.shared.table_id.slots ≡ 1) },
}

/// A lock, with its first pass.
pub struct Opening<S: Replays> {
    /// The lock, to be shared by reference.
    pub turns: Turns<S>,
    /// The pass with number 0.
    pub pass: Pass<S>,
}

impl<S: Replays> Turns<S> {
    ghost use Rattle.std.specs.Prelude.{◌<◌, slice_index, IfOk};
    ghost use Rattle.turn_lock.specs.Moves.{newcomer, went, grown, fresh, joining, joined_of};
    ghost use Rattle.turn_lock.specs.Passes.{first_of, view_of, value_of, IsOf, IsHeldOf, IsFree, IsInTurn, HasCome};
    ghost use Rattle.turn_lock.specs.Values.{Begins, Finds, Returns, Leaves};
    ghost use Rattle.turn_lock.specs.Views.{AreDisjoint, Includes, ThenOwn};

    /// Puts a value under a lock of its own. Its opening is that of every history in this lock.
    pub fn new(alloc: Global, value: S) -> Result<Opening<S>, NoMemory>
    where
        S: Drop,
        requires { Begins S.meaning value }
        ensures first { IfOk result (λ o. (first_of o.turns).value ≡ value) }
        ensures pass { IfOk result (λ o. IsOf o.turns o.pass × IsFree o.pass × (view_of o.pass ≡ newcomer S.meaning (first_of o.turns))) }
    {
        let first = Snapshot::of(&value);
        let mut slots = Vec::new(alloc);
        let Ok(()) = slots.push(Some(value)) else {
            return Err(NoMemory);
        };
        match Table::new(alloc, &[0, 0], slots, &first) {
            Ok((table, seat)) => Ok(Opening {
                turns: Turns {
                    table,
                    bells: Bells::new(),
                },
                pass: Pass { seat },
            }),
            Err(_) => Err(NoMemory),
        }
    }

    /// Waits for a turn of the pass, and takes the value out. A thread that waits long sleeps. No clause says that the turn comes.
    pub fn take_turn<R: Wait>(&self, pass: &mut Pass<S>, rt: &R) -> Held<S>
        requires lock { IsOf self.now pass.old }
        requires free { IsFree pass.old }
        ensures lock { IsOf self.now pass.new × IsHeldOf self.now result }
        ensures turn { IsInTurn pass.new }
        ensures found { Finds S.meaning (first_of self.now).value (view_of pass.old) (value_of result) }
        ensures view { HasCome S.meaning (view_of pass.old) (value_of result) (view_of pass.new) }
    {
        let shared = &self.table.shared;
        let ticket = shared.fetch_add::<Draw>(&mut pass.seat, TICKET, 1);
        let mut looks = 0;
        for _ in rt.forever() {
            let heard = self.bells.heard(ticket);
            if shared.load::<Look>(&mut pass.seat, SERVING) == ticket {
                let found = shared.exchange(&mut pass.seat, STATE, None);
                let Some(value) = found else { unreachable!() };
                return Held {
                    value,
                    taken: Snapshot::of(&pass.seat),
                };
            }
            if looks < LOOKS {
                looks += 1;
                thread::yield_now();
            } else {
                self.bells.sleep(rt, ticket, heard);
            }
        }
        unreachable!()
    }

    /// Puts the value back and passes the turn on. It takes no memory.
    pub fn give_back(&self, pass: &mut Pass<S>, held: Held<S>)
        requires lock { IsOf self.now pass.old × IsHeldOf self.now held }
        requires turn { IsInTurn pass.old }
        requires value { Returns S.meaning (first_of self.now).value (view_of pass.old) (value_of held) }
        ensures lock { IsOf self.now pass.new }
        ensures free { IsFree pass.new }
        ensures view { view_of pass.new ≡ went S.meaning (view_of pass.old) (value_of held) }
    {
        let Held { value, taken: _ } = held;
        let shared = &self.table.shared;
        let nothing = shared.exchange(&mut pass.seat, STATE, Some(value));
        let None = nothing else { unreachable!() };
        let served = shared.fetch_add::<PassOn>(&mut pass.seat, SERVING, 1);
        let next = served.wrapping_add(1);
        // A ticket that is drawn after this look finds its turn come.
        if shared.peek(TICKET) != next {
            self.bells.ring(next);
        }
    }

    // The body of `split`, for a room and a history that its type names: see `Room`.
    fn cut<K: Room<S::Entry>>(&self, pass: &mut Pass<S>, room: u64) -> Pass<S>
        requires lock { IsOf self.now pass.old }
        requires turn { IsInTurn pass.old }
        requires few { (view_of pass.old).counts.made < 65536 }
        requires room { room ≡ K.room }
        requires seen { ThenOwn S.meaning (view_of pass.old) K.seen }
        ensures lock { IsOf self.now pass.new × IsOf self.now result }
        ensures turn { IsInTurn pass.new × IsFree result }
        ensures view { view_of pass.new ≡ grown room K.seen (view_of pass.old) }
        ensures new { view_of result ≡ fresh room K.seen (view_of pass.old) }
    {
        Pass {
            seat: self.table.shared.split_seat::<Cut<K>>(&mut pass.seat),
        }
    }

    /// Makes a pass that has seen what this one has, and has this room. The value is out, and has to count the new pass and add
    /// its room before it is given back.
    pub fn split(&self, pass: &mut Pass<S>, room: u64) -> Pass<S>
        requires lock { IsOf self.now pass.old }
        requires turn { IsInTurn pass.old }
        requires few { (view_of pass.old).counts.made < 65536 }
        ensures lock { IsOf self.now pass.new × IsOf self.now result }
        ensures turn { IsInTurn pass.new × IsFree result }
        ensures view { view_of pass.new ≡ grown room (view_of pass.old).seen (view_of pass.old) }
        ensures new { view_of result ≡ fresh room (view_of pass.old).seen (view_of pass.old) }
    {
        self.cut::<Brand>(pass, room)
    }

    // The body of `split_after`, for a room that its type names and the history of the value in hand.
    fn cut_after<K: Room<S::Entry>>(&self, pass: &mut Pass<S>, held: &Held<S>, room: u64) -> Pass<S>
        requires lock { IsOf self.now pass.old }
        requires turn { IsInTurn pass.old }
        requires few { (view_of pass.old).counts.made < 65536 }
        requires room { room ≡ K.room }
        requires seen { S.meaning.history (value_of held.now) ≡ K.seen }
        requires added { ThenOwn S.meaning (view_of pass.old) (S.meaning.history (value_of held.now)) }
        ensures lock { IsOf self.now pass.new × IsOf self.now result }
        ensures turn { IsInTurn pass.new × IsFree result }
        ensures view { view_of pass.new ≡ grown room (S.meaning.history (value_of held.now)) (view_of pass.old) }
        ensures new { view_of result ≡ fresh room (S.meaning.history (value_of held.now)) (view_of pass.old) }
    {
        let Held { value: _, taken: _ } = held;
        self.cut::<K>(pass, room)
    }

    /// The same once this pass has added entries of its own number to the value in hand. Both have then seen these too.
    pub fn split_after(&self, pass: &mut Pass<S>, held: &Held<S>, room: u64) -> Pass<S>
        requires lock { IsOf self.now pass.old }
        requires turn { IsInTurn pass.old }
        requires few { (view_of pass.old).counts.made < 65536 }
        requires added { ThenOwn S.meaning (view_of pass.old) (S.meaning.history (value_of held.now)) }
        ensures lock { IsOf self.now pass.new × IsOf self.now result }
        ensures turn { IsInTurn pass.new × IsFree result }
        ensures view { view_of pass.new ≡ grown room (S.meaning.history (value_of held.now)) (view_of pass.old) }
        ensures new { view_of result ≡ fresh room (S.meaning.history (value_of held.now)) (view_of pass.old) }
    {
        self.cut_after::<Brand>(pass, held, room)
    }

    /// Ends the other pass, whose room is 0. The value is out, and has to count one live pass fewer before it is given back.
    pub fn join(&self, into: &mut Pass<S>, other: Pass<S>)
        requires lock { IsOf self.now into.old × IsOf self.now other }
        requires turn { IsInTurn into.old × IsFree other }
        requires empty { slice_index (view_of other).rooms (view_of other).number ≡ 0 }
        ensures lock { IsOf self.now into.new }
        ensures turn { IsInTurn into.new }
        ensures view { view_of into.new ≡ joining (view_of into.old) (view_of other) }
        ensures includes { Includes S.meaning (view_of into.old).seen (joined_of (view_of other)) }
        ensures disjoint { AreDisjoint (view_of into.old) (view_of other) }
    {
        let Pass { seat } = other;
        self.table.shared.join_seat::<TakeIn>(&mut into.seat, seat);
        self.table.shared.load::<Tell>(&mut into.seat, TICKET);
    }

    /// Ends the lock with its sole pass, and gives the value. It waits for nobody.
    pub fn close(self, pass: Pass<S>) -> S
        requires lock { IsOf self pass }
        requires free { IsFree pass }
        requires sole { (view_of pass).counts.live ≡ 1 }
        ensures { Leaves S.meaning (first_of self).value (view_of pass) result }
    {
        let Turns { table, bells: _ } = self;
        let Pass { seat } = pass;
        let mut closed = table.close_with(seat);
        let found = closed.take(STATE);
        closed.free();
        let Some(value) = found else { unreachable!() };
        value
    }
}
