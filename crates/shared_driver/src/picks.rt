//! A call that is picked in the turn.
ghost use Rattle.std.specs.Prelude.{◌≡◌, ◌<◌, ◌≤◌, ◌+◌, [], length, slice_index, slice_set, IfOk, OnOk, OnErr, List};
ghost use Rattle.std.specs.VecDeque.{deque_capacity};
ghost use Rattle.egl_calls.specs.Journals.{is_halt_kind};
ghost use Rattle.egl_calls.specs.declared.entries.Entry.{Entry};
ghost use Rattle.driver_core.specs.Machine.{Machine};
ghost use Rattle.shared_driver.specs.declared.picks.Pick.{Pick as ThePick};
ghost use Rattle.shared_driver.specs.Cores.{all_places, owed};
ghost use Rattle.shared_driver.specs.Picks.{IsDone, halts};

use crate::cores::{Core, Played};
use crate::sleepers::Wanted;
use driver_core::{Drawing, Driver};
use egl_calls::{Call, Entry, Journal, Kind, NoMemory, OwnKind, Reply};
use std::alloc::Global;
use std::collections::VecDeque;

/// What a picker wants done: a call with its mark, or nothing now, or nothing any more.
#[derive(Drop)]
pub enum Pick {
    /// This call, with this mark. It may be the end of a wait that a picked call began.
    Call(u64, Call),
    /// Nothing in this turn, nor before this has come.
    Wait(Wanted),
    /// Nothing any more.
    Stop,
}

/// What came of a pick.
#[derive(Drop)]
pub enum Picked {
    /// The call was played, and this is its reply.
    Replied(Reply),
    /// Nothing was played in this turn.
    Waited,
    /// Nothing was played, and nothing is to be played any more.
    Stopped,
}

/// Picks a call by the journal and the driver, as they are in its caller's turn.
pub trait Picker {
    /// On which journal and driver it may be asked.
    ghost may: { Self → List Entry → Machine → Type 0 };
    /// Which pick it may then give, and what it is afterwards.
    ghost picks: { Self → List Entry → Machine → ThePick → Self → Type 0 };

    /// Its pick, or that memory ran out.
    fn pick(&mut self, journal: &Journal, driver: &Driver) -> Result<Pick, NoMemory>
        requires may { may self.old journal.now.entries driver.now }
        ensures picked { IfOk result (λ p. picks self.old journal.now.entries driver.now p self.new) };
}

/// What came of a pick, whether it was a Halt, what it waits for, and the draw that is left to be made once its turn is over.
#[derive(Drop)]
pub struct PickedCall {
    pub picked: Picked,
    pub halts: bool,
    pub wanted: Option<Wanted>,
    pub drawing: Option<Drawing>,
}

/// Whether nothing is to be played any more.
pub fn has_stopped(picked: &Picked) -> bool {
    matches!(picked, Picked::Stopped)
}

/// Whether a call of this kind is a thread's giving up.
pub fn is_halt(kind: Kind) -> bool
    ensures { result ≡ is_halt_kind kind }
{
    matches!(kind, Kind::Own(OwnKind::Halt))
}

impl Core {
    /// Plays the call that is picked, after the token's own calls were handed in. Its room then grows by so many places.
    pub fn pick<P: Picker>(
        &mut self,
        alloc: Global,
        number: u32,
        picker: &mut P,
        tail: &mut VecDeque<Entry>,
        back: u64,
    ) -> Result<PickedCall, NoMemory>
        requires may { P.may picker.old self.old.journal.entries self.old.driver }
        requires number { (number < self.old.driver.made) × (number < length self.old.rooms.items) }
        requires room { 0 < slice_index self.old.rooms.items number }
        requires tail { tail.old.items ≡ [] }
        requires back { back ≤ all_places }
        requires owed { self.old.promised ≡ owed self.old.rooms.items }
        requires spare { self.old.promised ≤ self.old.journal.spare }
        ensures ok { IfOk result (λ r. (p : ThePick) × P.picks picker.old self.old.journal.entries self.old.driver p picker.new × IsDone self.old number p r.picked r.drawing self.new × (r.halts ≡ halts p)) }
        ensures rooms { OnOk result (self.new.rooms.items ≡ slice_set self.old.rooms.items number (slice_index self.old.rooms.items number + back)) }
        ensures err { OnErr result ((self.new.driver ≡ self.old.driver) × (self.new.journal.entries ≡ self.old.journal.entries) × (self.new.rooms ≡ self.old.rooms)) }
        ensures tail { (tail.new.items ≡ []) × (deque_capacity tail.new ≡ deque_capacity tail.old) }
        ensures live { self.new.tokens ≡ self.old.tokens }
        ensures owed { self.new.promised ≡ owed self.new.rooms.items }
        ensures spare { self.new.promised ≤ self.new.journal.spare }
    {
        self.make_room(back + 1)?;
        match picker.pick(&self.journal, &self.driver)? {
            Pick::Call(mark, call) => {
                let halts = is_halt(call.kind);
                let Played { reply, drawing } = self.play(
                    alloc, number, mark, call, None, tail, back,
                )?;
                Ok(PickedCall {
                    picked: Picked::Replied(reply),
                    halts,
                    wanted: None,
                    drawing,
                })
            }
            Pick::Wait(wanted) => {
                self.promise(number, back);
                Ok(PickedCall {
                    picked: Picked::Waited,
                    halts: false,
                    wanted: Some(wanted),
                    drawing: None,
                })
            }
            Pick::Stop => {
                self.promise(number, back);
                Ok(PickedCall {
                    picked: Picked::Stopped,
                    halts: false,
                    wanted: None,
                    drawing: None,
                })
            }
        }
    }
}
