//! The value under the lock.
ghost use Rattle.std.specs.Prelude.{◌≡◌, ◌<◌, ◌≤◌, ◌+◌, ◌-◌, [], ◌∷◌, ◌++◌, true, false, length, Some, IfOk, IfSome, IfNone, OnSome, OnOk, OnErr, IsOk, slice_index, slice_index_or, slice_set};
ghost use Rattle.egl_calls.specs.Errors.{is_waiting};
ghost use Rattle.std.specs.VecDeque.{deque_capacity};
ghost use Rattle.surface_store.specs.Windows.{windows_ok};
ghost use Rattle.model_laws.specs.Frame.{IsReady};
ghost use Rattle.model_laws.specs.Hidden.{hide};
ghost use Rattle.egl_model.specs.Parts.{part_of};
ghost use Rattle.model_laws.specs.Sound.{IsSound};
ghost use Rattle.egl_model.specs.State.{State, opening};
ghost use Rattle.egl_model.specs.Step.{step};
ghost use Rattle.egl_model.specs.Waits.{is_ready};
ghost use Rattle.driver_core.specs.Machine.{outs};
ghost use Rattle.driver_core.specs.LateDraws.{IsLeft};
ghost use Rattle.driver_facts.specs.Memory.{takes_no_memory};
ghost use Rattle.driver_core.specs.Parts.{FitsThread, HasBoundStill};
ghost use Rattle.thread_part.specs.Private.{IsAllOrNothing};
ghost use Rattle.thread_part.specs.Uploads.{upload_of};
ghost use Rattle.shared_driver.specs.Cores.{all_places, entry, first_room, halt_call, owed, own_call, place_for, wait_end_call, wait_ended};

use driver_core::{Drawing, Driver, LateDraw};
use egl_calls::{
    Call, Entry, Journal, Kind, NoMemory, Numbers, OwnKind, Reply, ReplyPair, is_waiting,
};
use keyed_hash::HashKey;
use std::alloc::Global;
use std::collections::VecDeque;
use surface_store::WindowSpec;
use thread_part::{ThreadPart, Upload};

/// How many tokens are live, and how many may ever be made.
#[derive(Drop)]
pub struct TokenCount {
    pub live: u32,
    /// The driver is for so many tokens, from its opening on.
    pub most: u32,
}

/// A driver with its journal. What each live token may still add without memory stands in its room, which is one more than that. The private part of a live token's thread is out of the driver.
#[derive(Drop)]
pub struct Core {
    pub driver: Driver,
    pub journal: Journal,
    pub tokens: TokenCount,
    /// A room for each token made, in the order of their numbers. That of a token which was joined is 0.
    pub rooms: Vec<u64>,
    /// How many entries the rooms promise together. The journal has room for as many.
    pub promised: u64,
}

/// What came of a call that was played: its reply, and the draw that is left to be made once its turn is over.
#[derive(Drop)]
pub struct Played {
    pub reply: Reply,
    pub drawing: Option<Drawing>,
}

/// How many calls a token may make without memory before it makes one that takes memory.
pub const PLACES: u64 = 256;

/// The most tokens that a driver can be for.
pub const MOST_TOKENS: u32 = 65_536;

/// The room of a new token: it is live, it may halt, and all its places are free.
pub const FIRST_ROOM: u64 = PLACES + 2;

/// The place that a wait which was begun keeps for its end.
fn place_for(waits: bool) -> u64
    ensures { result ≡ place_for waits }
{
    if waits { 1 } else { 0 }
}

/// Plays a call, with what it gives, if that was made before. A draw to the thread's own surface is left to be made.
fn stepped_late(
    driver: &mut Driver,
    alloc: Global,
    thread: u32,
    call: &Call,
    upload: Option<Upload>,
) -> Result<LateDraw, NoMemory>
    requires made { thread < driver.old.made }
    requires upload { IfSome upload (λ u. upload_of (part_of driver.old.state thread) call.now ≡ Some u) }
    ensures reply { IfOk result (λ d. d.reply ≡ (step driver.old.state thread call.now).reply) }
    ensures left { IfOk result (λ d. IsLeft driver.old thread call.now d.drawing driver.new) }
    ensures err { OnErr result (driver.new ≡ driver.old) }
{
    if driver.is_late(thread, call) {
        return driver.step_late_draw(alloc, thread, call);
    }
    let ReplyPair { reply, copy } = driver.play_with_copy(alloc, thread, call, upload)?;
    Ok(LateDraw {
        reply,
        copy,
        drawing: None,
    })
}

// A call of this project's own, which has nothing but its kind.
fn own_call(alloc: Global, kind: OwnKind) -> Call
    ensures { result ≡ own_call kind }
{
    Call {
        kind: Kind::Own(kind),
        args: [0; 8],
        list: Numbers::new(alloc),
        bytes: None,
    }
}

/// Moves a token's own calls to the end of the journal. It takes no memory.
fn move_entries(journal: &mut Journal, tail: &mut VecDeque<Entry>)
    requires { length tail.old.items ≤ journal.old.spare }
    ensures entries { journal.new.entries ≡ journal.old.entries ++ tail.old.items }
    ensures spare { journal.new.spare + length tail.old.items ≡ journal.old.spare }
    ensures tail { tail.new.items ≡ [] }
    ensures capacity { deque_capacity tail.new ≡ deque_capacity tail.old }
{
    'moving: while let Some(entry) = tail.pop_front() {
        journal.push(entry);
    }
}

impl Core {
    /// A new driver for so many tokens, with one, whose names and handles hash under a key. All parts are in.
    pub fn new(
        alloc: Global,
        key: HashKey,
        windows: &[WindowSpec],
        video: u64,
        most: u32,
    ) -> Result<Core, NoMemory>
        requires windows { windows_ok windows.now ≡ true }
        requires video { video ≤ 1073741824 }
        ensures driver { IfOk result (λ x. (x.driver.state ≡ opening windows.now video) × (x.driver.made ≡ 1) × (x.driver.away ≡ false ∷ [])) }
        ensures journal { IfOk result (λ x. (x.journal.entries ≡ []) × (first_room - 1 ≤ x.journal.spare)) }
        ensures rooms { IfOk result (λ x. (x.tokens ≡ record { live = 1; most = most }) × (x.rooms.items ≡ first_room ∷ []) × (x.promised ≡ first_room - 1)) }
    {
        let mut journal = Journal::new(alloc);
        journal.reserve(FIRST_ROOM - 1)?;
        let mut rooms = Vec::new(alloc);
        let Ok(()) = rooms.push(FIRST_ROOM) else {
            return Err(NoMemory);
        };
        Ok(Core {
            driver: Driver::with_key(alloc, key, windows, video)?,
            journal,
            tokens: TokenCount { live: 1, most },
            rooms,
            promised: FIRST_ROOM - 1,
        })
    }

    /// Puts a thread's private part back into the driver.
    pub fn part_in(&mut self, number: u32, part: ThreadPart)
        requires made { number < self.old.driver.made }
        requires out { slice_index_or self.old.driver.away number false ≡ true }
        requires fits { FitsThread self.old.driver.state number part }
        ensures outside { (s : State) → IsSound s → self.old.driver.state ≡ hide (outs self.old.driver.away) s → part ≡ part_of s number → self.new.driver.state ≡ hide (outs self.new.driver.away) s }
        ensures bound { HasBoundStill self.old.driver.state self.new.driver.state }
        ensures driver { (self.new.driver.made ≡ self.old.driver.made) × (self.new.driver.away ≡ slice_set self.old.driver.away number false) }
        ensures kept { (self.new.journal ≡ self.old.journal) × (self.new.tokens ≡ self.old.tokens) × (self.new.rooms ≡ self.old.rooms) × (self.new.promised ≡ self.old.promised) }
    {
        self.driver.part_in(number, part.into_parts());
    }

    /// Hands out a thread's private part. In a sound state it has all that a context and surfaces bring, or nothing.
    pub fn part_out(&mut self, number: u32) -> ThreadPart
        requires made { number < self.old.driver.made }
        requires here { slice_index_or self.old.driver.away number false ≡ false }
        ensures outside { (s : State) → IsReady s number → self.old.driver.state ≡ hide (outs self.old.driver.away) s → (result ≡ part_of s number) × (self.new.driver.state ≡ hide (outs self.new.driver.away) s) }
        ensures whole { (s : State) → IsReady s number → self.old.driver.state ≡ hide (outs self.old.driver.away) s → IsAllOrNothing 2147483648 result }
        ensures driver { (self.new.driver.made ≡ self.old.driver.made) × (self.new.driver.away ≡ slice_set self.old.driver.away number true) }
        ensures opening { (self.new.driver.state.windows ≡ self.old.driver.state.windows) × (self.new.driver.state.video ≡ self.old.driver.state.video) }
        ensures kept { (self.new.journal ≡ self.old.journal) × (self.new.tokens ≡ self.old.tokens) × (self.new.rooms ≡ self.old.rooms) × (self.new.promised ≡ self.old.promised) }
    {
        ThreadPart::new(self.driver.part_out(number))
    }

    // The room of a token changes, and so does what the rooms promise.
    fn set_room(&mut self, number: u32, room: u64)
        requires number { number < length self.old.rooms.items }
        requires owed { self.old.promised ≡ owed self.old.rooms.items }
        requires fits { slice_index self.old.rooms.items number < room → self.old.promised + (room - slice_index self.old.rooms.items number) < 18446744073709551616 }
        ensures rooms { self.new.rooms.items ≡ slice_set self.old.rooms.items number room }
        ensures owed { self.new.promised ≡ owed self.new.rooms.items }
        ensures promised { self.new.promised + (slice_index self.old.rooms.items number - 1) ≡ self.old.promised + (room - 1) }
        ensures kept { (self.new.driver ≡ self.old.driver) × (self.new.journal ≡ self.old.journal) × (self.new.tokens ≡ self.old.tokens) }
    {
        let former = self.rooms[number as usize];
        self.promised -= former.saturating_sub(1);
        self.promised += room.saturating_sub(1);
        self.rooms[number as usize] = room;
    }

    /// The room of a token grows.
    pub fn promise(&mut self, number: u32, more: u64)
        requires number { number < length self.old.rooms.items }
        requires room { 0 < slice_index self.old.rooms.items number }
        requires owed { self.old.promised ≡ owed self.old.rooms.items }
        requires fits { self.old.promised + more + 1 < 18446744073709551616 }
        ensures rooms { self.new.rooms.items ≡ slice_set self.old.rooms.items number (slice_index self.old.rooms.items number + more) }
        ensures owed { self.new.promised ≡ owed self.new.rooms.items }
        ensures promised { self.new.promised ≡ self.old.promised + more }
        ensures kept { (self.new.driver ≡ self.old.driver) × (self.new.journal ≡ self.old.journal) × (self.new.tokens ≡ self.old.tokens) }
    {
        let room = self.rooms[number as usize];
        self.set_room(number, room + more);
    }

    /// Makes room in the journal for what the rooms promise, and for so many entries more.
    pub fn make_room(&mut self, more: u64) -> Result<(), NoMemory>
        requires spare { self.old.promised ≤ self.old.journal.spare }
        ensures room { OnOk result (self.old.promised + more ≤ self.new.journal.spare) }
        ensures fits { OnOk result (self.old.promised + more < 18446744073709551616) }
        ensures spare { self.new.promised ≤ self.new.journal.spare }
        ensures entries { self.new.journal.entries ≡ self.old.journal.entries }
        ensures kept { (self.new.driver ≡ self.old.driver) × (self.new.tokens ≡ self.old.tokens) × (self.new.rooms ≡ self.old.rooms) × (self.new.promised ≡ self.old.promised) }
    {
        let Some(entries) = self.promised.checked_add(more) else {
            return Err(NoMemory);
        };
        self.journal.reserve(entries)
    }

    /// Adds a token's own calls to the journal, each in a place that its room promises. It takes no memory.
    pub fn hand_in(&mut self, number: u32, tail: &mut VecDeque<Entry>)
        requires number { number < length self.old.rooms.items }
        requires room { length tail.old.items < slice_index self.old.rooms.items number }
        requires owed { self.old.promised ≡ owed self.old.rooms.items }
        requires spare { self.old.promised ≤ self.old.journal.spare }
        ensures entries { self.new.journal.entries ≡ self.old.journal.entries ++ tail.old.items }
        ensures tail { tail.new.items ≡ [] }
        ensures capacity { deque_capacity tail.new ≡ deque_capacity tail.old }
        ensures rooms { self.new.rooms.items ≡ slice_set self.old.rooms.items number (slice_index self.old.rooms.items number - length tail.old.items) }
        ensures owed { self.new.promised ≡ owed self.new.rooms.items }
        ensures promised { self.new.promised + length tail.old.items ≡ self.old.promised }
        ensures spare { self.new.journal.spare + length tail.old.items ≡ self.old.journal.spare }
        ensures kept { (self.new.driver ≡ self.old.driver) × (self.new.tokens ≡ self.old.tokens) }
    {
        let room = self.rooms[number as usize];
        self.set_room(number, room - tail.len() as u64);
        move_entries(&mut self.journal, tail);
    }

    /// Plays a call, with what it gives if that was made before, and adds the token's own calls and its entry. A draw to the thread's own surface is left to be made. Its room then grows by so many places; the journal has room for these and for the entry.
    pub fn play(
        &mut self,
        alloc: Global,
        number: u32,
        mark: u64,
        call: Call,
        upload: Option<Upload>,
        tail: &mut VecDeque<Entry>,
        more: u64,
    ) -> Result<Played, NoMemory>
        requires upload { IfSome upload (λ u. upload_of (part_of self.old.driver.state number) call ≡ Some u) }
        requires number { (number < self.old.driver.made) × (number < length self.old.rooms.items) }
        requires room { length tail.old.items < slice_index self.old.rooms.items number }
        requires owed { self.old.promised ≡ owed self.old.rooms.items }
        requires spare { self.old.promised + more + 1 ≤ self.old.journal.spare }
        requires fits { self.old.promised + more + 1 < 18446744073709551616 }
        ensures reply { IfOk result (λ p. p.reply ≡ (step self.old.driver.state number call).reply) }
        ensures left { IfOk result (λ p. IsLeft self.old.driver number call p.drawing self.new.driver) }
        ensures added { IfOk result (λ p. self.new.journal.entries ≡ (self.old.journal.entries ++ tail.old.items) ++ entry number mark call p.reply ∷ []) }
        ensures tail { OnOk result (tail.new.items ≡ []) }
        ensures capacity { deque_capacity tail.new ≡ deque_capacity tail.old }
        ensures rooms { OnOk result (self.new.rooms.items ≡ slice_set self.old.rooms.items number (slice_index self.old.rooms.items number - length tail.old.items + more)) }
        ensures owed { self.new.promised ≡ owed self.new.rooms.items }
        ensures promised { OnOk result (self.new.promised + length tail.old.items ≡ self.old.promised + more) }
        ensures spare { OnOk result (self.new.promised + self.old.journal.spare ≡ self.new.journal.spare + (self.old.promised + more + 1)) }
        ensures err { OnErr result ((self.new ≡ self.old) × (tail.new.items ≡ tail.old.items)) }
        ensures live { self.new.tokens ≡ self.old.tokens }
    {
        let LateDraw {
            reply,
            copy,
            drawing,
        } = stepped_late(&mut self.driver, alloc, number, &call, upload)?;
        self.hand_in(number, tail);
        self.journal.push(Entry {
            thread: number,
            mark,
            call,
            reply: copy,
        });
        self.promise(number, more);
        Ok(Played { reply, drawing })
    }

    /// Plays a call that gives places back, with what it gives if that was made before, and adds the token's own calls and its entry. Where the call begins a wait, the token's room has a place more then, for the end of the wait. Where memory runs out nothing has changed.
    pub fn begin(
        &mut self,
        alloc: Global,
        number: u32,
        mark: u64,
        call: Call,
        upload: Option<Upload>,
        tail: &mut VecDeque<Entry>,
        back: u64,
    ) -> Result<Played, NoMemory>
        requires upload { IfSome upload (λ u. upload_of (part_of self.old.driver.state number) call ≡ Some u) }
        requires number { (number < self.old.driver.made) × (number < length self.old.rooms.items) }
        requires room { length tail.old.items < slice_index self.old.rooms.items number }
        requires back { back ≤ all_places }
        requires owed { self.old.promised ≡ owed self.old.rooms.items }
        requires spare { self.old.promised ≤ self.old.journal.spare }
        ensures reply { IfOk result (λ p. p.reply ≡ (step self.old.driver.state number call).reply) }
        ensures left { IfOk result (λ p. IsLeft self.old.driver number call p.drawing self.new.driver) }
        ensures added { IfOk result (λ p. self.new.journal.entries ≡ (self.old.journal.entries ++ tail.old.items) ++ entry number mark call p.reply ∷ []) }
        ensures tail { OnOk result (tail.new.items ≡ []) }
        ensures capacity { deque_capacity tail.new ≡ deque_capacity tail.old }
        ensures rooms { IfOk result (λ p. self.new.rooms.items ≡ slice_set self.old.rooms.items number (slice_index self.old.rooms.items number - length tail.old.items + back + place_for (is_waiting p.reply.outcome))) }
        ensures owed { self.new.promised ≡ owed self.new.rooms.items }
        ensures err { OnErr result ((self.new.driver ≡ self.old.driver) × (self.new.journal.entries ≡ self.old.journal.entries) × (self.new.rooms ≡ self.old.rooms) × (tail.new.items ≡ tail.old.items)) }
        ensures spare { self.new.promised ≤ self.new.journal.spare }
        ensures live { self.new.tokens ≡ self.old.tokens }
    {
        self.make_room(back + 2)?;
        let played = self.play(alloc, number, mark, call, upload, tail, back)?;
        let place = place_for(is_waiting(played.reply.outcome));
        self.promise(number, place);
        Ok(played)
    }

    /// Plays a call that takes no memory. The token's own calls and its entry are added in places that the token's room promises.
    pub fn add(
        &mut self,
        alloc: Global,
        number: u32,
        mark: u64,
        call: Call,
        tail: &mut VecDeque<Entry>,
    ) -> Reply
        requires number { (number < self.old.driver.made) × (number < length self.old.rooms.items) }
        requires memory { takes_no_memory call.kind ≡ true }
        requires room { length tail.old.items + 1 < slice_index self.old.rooms.items number }
        requires owed { self.old.promised ≡ owed self.old.rooms.items }
        requires spare { self.old.promised ≤ self.old.journal.spare }
        ensures reply { result ≡ (step self.old.driver.state number call).reply }
        ensures driver { self.new.driver ≡ record self.old.driver { state = (step self.old.driver.state number call).state } }
        ensures added { self.new.journal.entries ≡ (self.old.journal.entries ++ tail.old.items) ++ entry number mark call result ∷ [] }
        ensures tail { tail.new.items ≡ [] }
        ensures capacity { deque_capacity tail.new ≡ deque_capacity tail.old }
        ensures rooms { self.new.rooms.items ≡ slice_set self.old.rooms.items number (slice_index self.old.rooms.items number - length tail.old.items - 1) }
        ensures owed { self.new.promised ≡ owed self.new.rooms.items }
        ensures spare { self.new.promised ≤ self.new.journal.spare }
        ensures live { self.new.tokens ≡ self.old.tokens }
    {
        self.hand_in(number, tail);
        let room = self.rooms[number as usize];
        self.set_room(number, room - 1);
        let Ok(ReplyPair { reply, copy }) = self.driver.play_with_copy(alloc, number, &call, None)
        else {
            unreachable!()
        };
        self.journal.push(Entry {
            thread: number,
            mark,
            call,
            reply: copy,
        });
        reply
    }

    /// The token is about to end in another, and promises nothing more.
    pub fn leave(&mut self, number: u32)
        requires number { number < length self.old.rooms.items }
        requires owed { self.old.promised ≡ owed self.old.rooms.items }
        requires spare { self.old.promised ≤ self.old.journal.spare }
        ensures rooms { self.new.rooms.items ≡ slice_set self.old.rooms.items number 0 }
        ensures owed { self.new.promised ≡ owed self.new.rooms.items }
        ensures spare { self.new.promised ≤ self.new.journal.spare }
        ensures kept { (self.new.driver ≡ self.old.driver) × (self.new.journal ≡ self.old.journal) × (self.new.tokens ≡ self.old.tokens) }
    {
        self.set_room(number, 0);
    }

    /// Adds the token's own calls, and the entry by which it halts.
    pub fn halt(&mut self, alloc: Global, number: u32, tail: &mut VecDeque<Entry>)
        requires number { (number < self.old.driver.made) × (number < length self.old.rooms.items) }
        requires room { length tail.old.items + 1 < slice_index self.old.rooms.items number }
        requires owed { self.old.promised ≡ owed self.old.rooms.items }
        requires spare { self.old.promised ≤ self.old.journal.spare }
        ensures driver { self.new.driver ≡ record self.old.driver { state = (step self.old.driver.state number halt_call).state } }
        ensures added { self.new.journal.entries ≡ (self.old.journal.entries ++ tail.old.items) ++ entry number 0 halt_call (step self.old.driver.state number halt_call).reply ∷ [] }
        ensures tail { tail.new.items ≡ [] }
        ensures capacity { deque_capacity tail.new ≡ deque_capacity tail.old }
        ensures rooms { self.new.rooms.items ≡ slice_set self.old.rooms.items number (slice_index self.old.rooms.items number - length tail.old.items - 1) }
        ensures owed { self.new.promised ≡ owed self.new.rooms.items }
        ensures spare { self.new.promised ≤ self.new.journal.spare }
        ensures live { self.new.tokens ≡ self.old.tokens }
    {
        let call = own_call(alloc, OwnKind::Halt);
        self.add(alloc, number, 0, call, tail);
    }

    // Whether the wait of a token can end.
    fn can_end(&self, number: u32) -> bool
        requires { number < self.now.driver.made }
        ensures { result ≡ is_ready self.now.driver.state number }
    {
        self.driver.wait_ready(number)
    }

    /// Ends the wait of a token, exactly where it can end, in a place that its room promises.
    #[tactic(auto, using(crate::proofs::Ending::ready_ends))]
    pub fn try_end(
        &mut self,
        alloc: Global,
        number: u32,
        mark: u64,
        tail: &mut VecDeque<Entry>,
    ) -> Option<Reply>
        requires number { (number < self.old.driver.made) × (number < length self.old.rooms.items) }
        requires room { length tail.old.items + 1 < slice_index self.old.rooms.items number }
        requires owed { self.old.promised ≡ owed self.old.rooms.items }
        requires spare { self.old.promised ≤ self.old.journal.spare }
        ensures ready { OnSome result (is_ready self.old.driver.state number ≡ true) }
        ensures ended { IfSome result (λ r. (r ≡ wait_ended) × (r ≡ (step self.old.driver.state number wait_end_call).reply)) }
        ensures driver { OnSome result (self.new.driver ≡ record self.old.driver { state = (step self.old.driver.state number wait_end_call).state }) }
        ensures added { OnSome result (self.new.journal.entries ≡ (self.old.journal.entries ++ tail.old.items) ++ entry number mark wait_end_call wait_ended ∷ []) }
        ensures tail { OnSome result (tail.new.items ≡ []) }
        ensures capacity { deque_capacity tail.new ≡ deque_capacity tail.old }
        ensures rooms { OnSome result (self.new.rooms.items ≡ slice_set self.old.rooms.items number (slice_index self.old.rooms.items number - length tail.old.items - 1)) }
        ensures owed { OnSome result (self.new.promised ≡ owed self.new.rooms.items) }
        ensures spare { OnSome result (self.new.promised ≤ self.new.journal.spare) }
        ensures live { self.new.tokens ≡ self.old.tokens }
        ensures waits { IfNone result (is_ready self.old.driver.state number ≡ false) }
        ensures none { IfNone result ((self.new ≡ self.old) × (tail.new.items ≡ tail.old.items)) }
    {
        if !self.can_end(number) {
            return None;
        }
        let call = own_call(alloc, OwnKind::WaitEnd);
        Some(self.add(alloc, number, mark, call, tail))
    }

    /// Counts one live token fewer.
    pub fn dismiss(&mut self)
        requires { 0 < self.old.tokens.live }
        ensures live { self.new.tokens ≡ record self.old.tokens { live = self.old.tokens.live - 1 } }
        ensures kept { (self.new.driver ≡ self.old.driver) × (self.new.journal ≡ self.old.journal) × (self.new.rooms ≡ self.old.rooms) × (self.new.promised ≡ self.old.promised) }
    {
        self.tokens.live -= 1;
    }
}
