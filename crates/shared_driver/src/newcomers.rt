//! A thread is made for a new token.
ghost use Rattle.std.specs.Prelude.{◌≡◌, ◌<◌, ◌≤◌, ◌+◌, ◌-◌, [], ◌∷◌, ◌++◌, true, false, length, IfOk, IfErr, OnOk, OnErr, slice_index, slice_set};
ghost use Rattle.std.specs.VecDeque.{deque_capacity};
ghost use Rattle.model_laws.specs.Frame.{IsReady};
ghost use Rattle.model_laws.specs.Hidden.{hide};
ghost use Rattle.egl_model.specs.Parts.{part_of};
ghost use Rattle.egl_model.specs.State.{State};
ghost use Rattle.driver_core.specs.Machine.{outs};
ghost use Rattle.shared_driver.specs.Cores.{all_places, first_room, owed, IsFull};

use crate::cores::{Core, FIRST_ROOM, PLACES};
use crate::tokens::AttachError;
use egl_calls::{Entry, NoMemory};
use std::alloc::Global;
use std::collections::VecDeque;
use thread_part::ThreadPart;

/// The thread of a new token: its number, its private part, and room for its own calls.
#[derive(Drop)]
pub struct Newcomer {
    pub number: u32,
    pub part: ThreadPart,
    pub tail: VecDeque<Entry>,
}

/// Room for the own calls of a token.
pub fn own_calls(alloc: Global) -> Result<VecDeque<Entry>, NoMemory>
    ensures items { IfOk result (λ q. q.items ≡ []) }
    ensures capacity { IfOk result (λ q. all_places ≤ deque_capacity q) }
{
    match VecDeque::with_capacity(alloc, PLACES as usize) {
        Ok(calls) => Ok(calls),
        Err(_) => Err(NoMemory),
    }
}

impl Core {
    // Makes a thread and its room, and room in the journal for so many entries more than the rooms then promise.
    fn enrol(&mut self, more: u64) -> Result<u32, NoMemory>
        requires made { self.old.driver.made < 65536 }
        requires live { self.old.tokens.live ≤ 65536 }
        requires more { more ≤ all_places }
        requires owed { self.old.promised ≡ owed self.old.rooms.items }
        requires spare { self.old.promised ≤ self.old.journal.spare }
        ensures number { IfOk result (λ n. n ≡ self.old.driver.made) }
        ensures driver { OnOk result (self.new.driver ≡ record self.old.driver { made = self.old.driver.made + 1; away = self.old.driver.away ++ false ∷ [] }) }
        ensures rooms { OnOk result ((self.new.tokens ≡ record self.old.tokens { live = self.old.tokens.live + 1 }) × (self.new.rooms.items ≡ self.old.rooms.items ++ first_room ∷ [])) }
        ensures room { OnOk result ((self.new.promised + more ≤ self.new.journal.spare) × (self.new.promised + more + 1 < 18446744073709551616)) }
        ensures err { OnErr result ((self.new.driver ≡ self.old.driver) × (self.new.tokens ≡ self.old.tokens) × (self.new.rooms.items ≡ self.old.rooms.items)) }
        ensures owed { self.new.promised ≡ owed self.new.rooms.items }
        ensures spare { self.new.promised ≤ self.new.journal.spare }
        ensures entries { self.new.journal.entries ≡ self.old.journal.entries }
    {
        self.make_room(more + FIRST_ROOM)?;
        if self.rooms.reserve(1).is_err() {
            return Err(NoMemory);
        }
        let number = self.driver.add_thread()?;
        self.rooms.push_reserved(FIRST_ROOM);
        self.tokens.live += 1;
        self.promised += FIRST_ROOM - 1;
        Ok(number)
    }

    /// Makes a thread for a new token. The maker's own calls are handed in, and its room grows by so many places. Where none can be made, nothing has changed.
    pub fn admit(
        &mut self,
        alloc: Global,
        from: u32,
        tail: &mut VecDeque<Entry>,
        back: u64,
    ) -> Result<Newcomer, AttachError>
        requires from { from < length self.old.rooms.items }
        requires known { (length self.old.rooms.items ≡ self.old.driver.made) × (length self.old.driver.away ≡ self.old.driver.made) }
        requires live { self.old.tokens.live ≤ 65536 }
        requires limit { (self.old.driver.made ≤ self.old.tokens.most) × (self.old.tokens.most ≤ 65536) }
        requires back { back ≤ all_places }
        requires room { length tail.old.items < slice_index self.old.rooms.items from }
        requires owed { self.old.promised ≡ owed self.old.rooms.items }
        requires spare { self.old.promised ≤ self.old.journal.spare }
        ensures number { IfOk result (λ n. (n.number ≡ self.old.driver.made) × (n.number < 65536)) }
        ensures below { IfOk result (λ n. n.number < self.old.tokens.most) }
        ensures its_tail { IfOk result (λ n. (n.tail.items ≡ []) × (all_places ≤ deque_capacity n.tail)) }
        ensures part { (s : State) → IsReady s self.old.driver.made → self.old.driver.state ≡ hide (outs (self.old.driver.away ++ false ∷ [])) s → IfOk result (λ n. n.part ≡ part_of s n.number) × OnOk result (self.new.driver.state ≡ hide (outs self.new.driver.away) s) }
        ensures driver { OnOk result ((self.new.driver.made ≡ self.old.driver.made + 1) × (self.new.driver.away ≡ slice_set (self.old.driver.away ++ false ∷ []) self.old.driver.made true)) }
        ensures rooms { OnOk result ((self.new.tokens ≡ record self.old.tokens { live = self.old.tokens.live + 1 }) × (self.new.rooms.items ≡ slice_set (self.old.rooms.items ++ first_room ∷ []) from (slice_index self.old.rooms.items from - length tail.old.items + back))) }
        ensures full { IfErr result (IsFull self.old.tokens.most self.old.driver.made) }
        ensures err { OnErr result ((self.new.driver ≡ self.old.driver) × (self.new.tokens ≡ self.old.tokens) × (self.new.rooms.items ≡ self.old.rooms.items) × (self.new.journal.entries ≡ self.old.journal.entries) × (tail.new.items ≡ tail.old.items)) }
        ensures added { OnOk result ((self.new.journal.entries ≡ self.old.journal.entries ++ tail.old.items) × (tail.new.items ≡ [])) }
        ensures capacity { deque_capacity tail.new ≡ deque_capacity tail.old }
        ensures owed { self.new.promised ≡ owed self.new.rooms.items }
        ensures spare { self.new.promised ≤ self.new.journal.spare }
    {
        let made = self.driver.threads();
        if made >= self.tokens.most {
            return Err(AttachError::Full { made });
        }
        let Ok(room) = own_calls(alloc) else {
            return Err(AttachError::NoMemory);
        };
        let Ok(number) = self.enrol(back) else {
            return Err(AttachError::NoMemory);
        };
        self.hand_in(from, tail);
        self.promise(from, back);
        Ok(Newcomer {
            number,
            part: self.part_out(number),
            tail: room,
        })
    }
}
