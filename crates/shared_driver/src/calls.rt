//! What a thread does with its token.
ghost use Rattle.std.specs.Prelude.{◌≡◌, ◌==◌, ◌≤◌, ◌<◌, ◌+◌, ◌||◌, ◌⊎◌, ◌∷◌, ◌++◌, [], true, false, OnErr, OnOk, IfOk, IsOk, All, List};
ghost use Rattle.egl_calls.specs.Errors.{is_waiting};
ghost use Rattle.surface_store.specs.Windows.{windows_ok};
ghost use Rattle.egl_calls.specs.declared.entries.Entry.{Entry};
ghost use Rattle.egl_model.specs.State.{opening};
ghost use Rattle.egl_model.specs.Waits.{is_wait_end};
ghost use Rattle.egl_model.specs.History.{IsLegalFrom, replay_from};
ghost use Rattle.driver_core.specs.Machine.{Machine};
ghost use Rattle.shared_driver.specs.declared.picks.Pick.{Pick as ThePick};
ghost use Rattle.shared_driver.specs.Cores.{all_places, entry, takes_place};
ghost use Rattle.shared_driver.specs.Picks.{ComesOf, IsSeenAtTurn};
ghost use Rattle.shared_driver.specs.Tokens.{AnswersAfterWait, AnswersAtOnce, Goes, Halts, IsFrom, IsOf, IsSame, Learns, Owns, has_given_up, mine, most_of, opening_of, places_after, token_of};

use crate::boxes::{closed, core_of, opened};
use crate::cores::{Core, MOST_TOKENS, PLACES, Played};
use crate::newcomers::own_calls;
use crate::news::News;
use crate::picks::{Picked, PickedCall, Picker, has_stopped, is_halt};
use crate::tokens::{Closed, Holding, Opened, Shared, Thread};
use crate::uploads::upload_of;
use call_table::{egl_role, gl_role};
use egl_calls::{Call, Kind, NoMemory, Reply, is_waiting};
use keyed_hash::HashKey;
use std::alloc::Global;
use std::sync::Wait;
use surface_store::WindowSpec;
use turn_lock::Opening;

pub(crate) fn either(a: bool, b: bool) -> bool
    ensures { result ≡ (a || b) }
{
    a || b
}

/// Whether a call of this kind uses one of the token's places, where one is free: those that let go or flush, and a thread's giving up.
fn takes_place(kind: Kind) -> bool
    ensures { result ≡ takes_place kind }
{
    match kind {
        Kind::Egl(kind) => egl_role(kind).lets_go(),
        Kind::Gl(kind) => gl_role(kind).lets_go(),
        Kind::Own(_) => is_halt(kind),
    }
}

impl Shared {
    /// A driver for 65,536 tokens, with one, whose history is empty.
    pub fn open(alloc: Global, windows: &[WindowSpec], video: u64) -> Result<Opened, NoMemory>
        requires windows { windows_ok windows.now ≡ true }
        requires video { video ≤ 1073741824 }
        ensures owns { IfOk result (λ o. IsOf o.shared o.thread) }
        ensures opening { IfOk result (λ o. opening_of o.shared ≡ opening windows.now video) }
        ensures most { IfOk result (λ o. most_of o.shared ≡ 65536) }
        ensures token { IfOk result (λ o. token_of o.thread ≡ record { number = 0; seen = []; tail = []; ended = []; made = 1; live = 1; sole = false; places = all_places; start = opening windows.now video }) }
    {
        Shared::open_for(alloc, HashKey::PLAIN, windows, video, MOST_TOKENS)
    }

    /// The same for at most so many tokens, with the first: the numbers of all are below that. Names and handles hash under the key, and no answer goes by it.
    pub fn open_for(
        alloc: Global,
        key: HashKey,
        windows: &[WindowSpec],
        video: u64,
        most: u32,
    ) -> Result<Opened, NoMemory>
        requires windows { windows_ok windows.now ≡ true }
        requires video { video ≤ 1073741824 }
        requires most { (1 ≤ most) × (most ≤ 65536) }
        ensures owns { IfOk result (λ o. IsOf o.shared o.thread) }
        ensures opening { IfOk result (λ o. opening_of o.shared ≡ opening windows.now video) }
        ensures most { IfOk result (λ o. most_of o.shared ≡ most) }
        ensures token { IfOk result (λ o. token_of o.thread ≡ record { number = 0; seen = []; tail = []; ended = []; made = 1; live = 1; sole = false; places = all_places; start = opening windows.now video }) }
    {
        // The core comes last, since whatever owns it drops it at each early exit.
        let tail = own_calls(alloc)?;
        let mut core = Core::new(alloc, key, windows, video, most)?;
        let part = core.part_out(0);
        let Ok(Opening { turns, pass }) = opened(alloc, core) else {
            return Err(NoMemory);
        };
        Ok(Opened {
            shared: Shared {
                turns,
                news: News::new(),
            },
            thread: Thread {
                hold: Holding {
                    pass,
                    number: 0,
                    part: Some(part),
                    tail,
                },
                places: PLACES,
                halted: false,
                sole: false,
                halt_used: false,
                end_kept: false,
            },
        })
    }

    // What a call gives, made before its turn, the turn in which it is played and gives the token's places back, and the draw that it may leave. Where it begins a wait, the token's room then has a place for the end.
    fn begin<R: Wait>(
        &self,
        thread: &mut Thread,
        rt: &R,
        alloc: Global,
        mark: u64,
        call: Call,
    ) -> Result<Reply, NoMemory>
        requires owns { IsOf self.now thread.old }
        ensures owns { IsFrom self.now thread.new }
        ensures same { IsSame (token_of thread.old) (token_of thread.new) }
        ensures sole { (token_of thread.new).sole ≡ (token_of thread.old).sole }
        ensures ok { IfOk result (λ r. Goes (token_of thread.old) (entry (token_of thread.old).number mark call r ∷ []) (token_of thread.new)) }
        ensures mine { IfOk result (λ r. mine (token_of thread.new) ≡ mine (token_of thread.old) ++ entry (token_of thread.old).number mark call r ∷ []) }
        ensures place { IfOk result (λ r. thread.new.end_kept ≡ is_waiting r.outcome) }
        ensures err_place { OnErr result (thread.new.end_kept ≡ false) }
        ensures places { OnOk result ((token_of thread.new).places ≡ all_places) }
        ensures err { OnErr result (Learns (token_of thread.old) (token_of thread.new)) }
        ensures err_mine { OnErr result (mine (token_of thread.new) ≡ mine (token_of thread.old)) }
        ensures err_places { OnErr result ((token_of thread.new).places ≡ (token_of thread.old).places) }
    {
        let halts = is_halt(call.kind);
        let back = PLACES - thread.places;
        let upload = upload_of(&thread.hold, alloc, &call);
        let mut held = self.begin_turn(&mut thread.hold, rt);
        let core = core_of(&mut held);
        let from = core.journal.len();
        match core.begin(
            alloc,
            thread.hold.number,
            mark,
            call,
            upload,
            &mut thread.hold.tail,
            back,
        ) {
            Ok(Played { reply, drawing }) => {
                let woken = self.news.rouse(rt, core, from);
                self.end_turn_with(&mut thread.hold, held, &woken, &drawing);
                thread.places = PLACES;
                thread.halted = either(thread.halted, halts);
                thread.end_kept = is_waiting(reply.outcome);
                Ok(reply)
            }
            Err(error) => {
                self.end_turn(&mut thread.hold, held);
                Err(error)
            }
        }
    }

    // The turn in which a call is played in one of the token's places.
    fn place<R: Wait>(
        &self,
        thread: &mut Thread,
        rt: &R,
        alloc: Global,
        mark: u64,
        call: Call,
    ) -> Reply
        requires owns { IsOf self.now thread.old }
        requires kind { takes_place call.kind ≡ true }
        requires free { 0 < (token_of thread.old).places }
        ensures owns { IsOf self.now thread.new }
        ensures same { IsSame (token_of thread.old) (token_of thread.new) }
        ensures sole { (token_of thread.new).sole ≡ (token_of thread.old).sole }
        ensures answers { AnswersAtOnce (token_of thread.old) mark call result (token_of thread.new) }
        ensures places { (token_of thread.new).places + 1 ≡ (token_of thread.old).places }
    {
        let halts = is_halt(call.kind);
        let mut held = self.begin_turn(&mut thread.hold, rt);
        let core = core_of(&mut held);
        let from = core.journal.len();
        let reply = core.add(alloc, thread.hold.number, mark, call, &mut thread.hold.tail);
        let woken = self.news.rouse(rt, core, from);
        self.end_turn(&mut thread.hold, held);
        thread.places -= 1;
        thread.halted = either(thread.halted, halts);
        self.news.call(&woken);
        reply
    }

    /// Plays a call, and answers its reply. Its entry stands after all that the token saw, and after what others added meanwhile. A client wait that blocks waits here, and answers what its end does; it sleeps between the turns of others, and may never return.
    ///
    /// The token's own calls enter the history directly before it. What it gives a texture or a buffer is made before its turn, where the thread's part tells that, and a draw to the thread's own surface once the turn is over, so that others go on meanwhile. Where memory runs out nothing is added. The end of a wait takes no memory, and neither does a call that destroys, releases, flushes or halts while the token has a free place: it then uses one. Each other call gives all of the token's places back.
    pub fn call<R: Wait>(
        &self,
        thread: &mut Thread,
        rt: &R,
        alloc: Global,
        mark: u64,
        call: Call,
    ) -> Result<Reply, NoMemory>
        requires owns { IsOf self.now thread.old }
        requires kind { is_wait_end call.kind ≡ false }
        ensures owns { IsOf self.now thread.new }
        ensures same { IsSame (token_of thread.old) (token_of thread.new) }
        ensures sole { (token_of thread.new).sole ≡ (token_of thread.old).sole }
        ensures ok { IfOk result (λ r. AnswersAtOnce (token_of thread.old) mark call r (token_of thread.new) ⊎ AnswersAfterWait (token_of thread.old) mark call r (token_of thread.new)) }
        ensures memory { takes_place call.kind ≡ true → 0 < (token_of thread.old).places → IsOk result }
        ensures places { OnOk result ((token_of thread.new).places ≡ places_after call.kind (token_of thread.old).places) }
        ensures err { OnErr result (Learns (token_of thread.old) (token_of thread.new)) }
        ensures err_mine { OnErr result (mine (token_of thread.new) ≡ mine (token_of thread.old)) }
        ensures err_places { OnErr result ((token_of thread.new).places ≡ (token_of thread.old).places) }
    {
        if takes_place(call.kind) && thread.places > 0 {
            return Ok(self.place(thread, rt, alloc, mark, call));
        }
        let reply = self.begin(thread, rt, alloc, mark, call)?;
        if is_waiting(reply.outcome) {
            return Ok(self.end_wait(thread, rt, alloc, mark));
        }
        Ok(reply)
    }

    // A turn in which nothing is done. It tells how many tokens are live.
    fn visit<R: Wait>(&self, thread: &mut Thread, rt: &R) -> u32
        requires owns { IsOf self.now thread.old }
        ensures owns { IsOf self.now thread.new }
        ensures same { IsSame (token_of thread.old) (token_of thread.new) }
        ensures sole { (token_of thread.new).sole ≡ (token_of thread.old).sole }
        ensures seen { Learns (token_of thread.old) (token_of thread.new) }
        ensures mine { mine (token_of thread.new) ≡ mine (token_of thread.old) }
        ensures live { result ≡ (token_of thread.new).live }
        ensures places { (token_of thread.new).places ≡ (token_of thread.old).places }
    {
        let mut held = self.turns.take_turn(&mut thread.hold.pass, rt);
        let live = core_of(&mut held).tokens.live;
        self.turns.give_back(&mut thread.hold.pass, held);
        live
    }

    /// Hands in the token's own calls. It takes no memory.
    pub fn finish<R: Wait>(&self, thread: &mut Thread, rt: &R)
        requires owns { IsOf self.now thread.old }
        ensures owns { IsOf self.now thread.new }
        ensures same { IsSame (token_of thread.old) (token_of thread.new) }
        ensures sole { (token_of thread.new).sole ≡ (token_of thread.old).sole }
        ensures seen { Goes (token_of thread.old) [] (token_of thread.new) }
        ensures mine { mine (token_of thread.new) ≡ mine (token_of thread.old) }
        ensures places { (token_of thread.new).places ≡ (token_of thread.old).places }
    {
        let mut held = self.begin_turn(&mut thread.hold, rt);
        let core = core_of(&mut held);
        let from = core.journal.len();
        core.hand_in(thread.hold.number, &mut thread.hold.tail);
        let woken = self.news.rouse(rt, core, from);
        self.end_turn(&mut thread.hold, held);
        self.news.call(&woken);
    }

    /// How many tokens are not yet joined, as counted in this call's turn. It takes no memory.
    pub fn live<R: Wait>(&self, thread: &mut Thread, rt: &R) -> u32
        requires owns { IsOf self.now thread.old }
        ensures owns { IsOf self.now thread.new }
        ensures same { IsSame (token_of thread.old) (token_of thread.new) }
        ensures seen { Learns (token_of thread.old) (token_of thread.new) }
        ensures mine { mine (token_of thread.new) ≡ mine (token_of thread.old) }
        ensures live { result ≡ (token_of thread.new).live }
        ensures sole { (token_of thread.new).sole ≡ (result == 1) }
        ensures places { (token_of thread.new).places ≡ (token_of thread.old).places }
    {
        let live = self.visit(thread, rt);
        thread.sole = live == 1;
        live
    }

    /// Ends the driver with its sole token. The journal is what that had seen and its own calls, and is legal. It takes no memory, and waits for nobody.
    pub fn close(self, thread: Thread) -> Closed
        requires owns { IsOf self thread }
        requires sole { (token_of thread).sole ≡ true }
        ensures journal { result.journal.entries ≡ (token_of thread).seen ++ (token_of thread).tail }
        ensures legal { IsLegalFrom (opening_of self) result.journal.entries }
        ensures driver { result.driver.state ≡ replay_from (opening_of self) result.journal.entries }
        ensures owned { All (λ e. Owns (token_of thread) e.thread) result.journal.entries }
    {
        let Shared { turns, news: _ } = self;
        let Thread {
            hold: Holding {
                pass,
                number,
                part,
                mut tail,
            },
            places: _,
            halted: _,
            sole: _,
            halt_used: _,
            end_kept: _,
        } = thread;
        let Some(part) = part else { unreachable!() };
        let mut core = closed(turns, pass);
        core.part_in(number, part);
        core.hand_in(number, &mut tail);
        let Core {
            driver,
            journal,
            tokens: _,
            rooms: _,
            promised: _,
        } = core;
        Closed { driver, journal }
    }

    // The first Halt entry of a token.
    fn halt_first<R: Wait>(&self, thread: &mut Thread, rt: &R, alloc: Global)
        requires owns { IsOf self.now thread.old }
        requires first { thread.old.halted ≡ false }
        ensures owns { IsOf self.now thread.new }
        ensures same { IsSame (token_of thread.old) (token_of thread.new) }
        ensures sole { (token_of thread.new).sole ≡ (token_of thread.old).sole }
        ensures seen { Halts (token_of thread.old) (token_of thread.new) }
        ensures places { (token_of thread.new).places ≡ (token_of thread.old).places }
    {
        let mut held = self.begin_turn(&mut thread.hold, rt);
        let core = core_of(&mut held);
        core.halt(alloc, thread.hold.number, &mut thread.hold.tail);
        let woken = self.news.rouse_all(rt);
        self.end_turn(&mut thread.hold, held);
        thread.halted = true;
        thread.halt_used = true;
        self.news.call(&woken);
    }

    /// Hands in the token's own calls, and adds an entry of the call Halt with mark 0 where it has none yet. It takes no memory.
    pub fn halt<R: Wait>(&self, thread: &mut Thread, rt: &R, alloc: Global)
        requires owns { IsOf self.now thread.old }
        ensures owns { IsOf self.now thread.new }
        ensures same { IsSame (token_of thread.old) (token_of thread.new) }
        ensures sole { (token_of thread.new).sole ≡ (token_of thread.old).sole }
        ensures first { has_given_up (token_of thread.old) ≡ false → Halts (token_of thread.old) (token_of thread.new) }
        ensures again { has_given_up (token_of thread.old) ≡ true → Goes (token_of thread.old) [] (token_of thread.new) × (mine (token_of thread.new) ≡ mine (token_of thread.old)) }
        ensures places { (token_of thread.new).places ≡ (token_of thread.old).places }
    {
        if thread.halted {
            self.finish(thread, rt);
        } else {
            self.halt_first(thread, rt, alloc);
        }
    }

    /// Plays the call that the picker picks in this turn, after the token's own calls were handed in. A client wait that blocks is answered with the outcome Waiting, and its end is picked as a call of its own.
    ///
    /// The picker sees the driver outside the private parts of other threads. Where memory runs out no call is added, but the token's own calls were handed in; the picker may have changed.
    pub fn call_picked<R: Wait, P: Picker>(
        &self,
        thread: &mut Thread,
        rt: &R,
        alloc: Global,
        picker: &mut P,
    ) -> Result<Picked, NoMemory>
        requires owns { IsOf self.now thread.old }
        requires may { (es : List Entry) (d : Machine) → IsSeenAtTurn (opening_of self.now) (token_of thread.old) es d → P.may picker.old es d }
        ensures owns { IsOf self.now thread.new }
        ensures same { IsSame (token_of thread.old) (token_of thread.new) }
        ensures sole { (token_of thread.new).sole ≡ (token_of thread.old).sole }
        ensures ok { IfOk result (λ r. (es : List Entry) × (d : Machine) × (p : ThePick) × IsSeenAtTurn (opening_of self.now) (token_of thread.old) es d × P.picks picker.old es d p picker.new × ComesOf (token_of thread.old) es p r (token_of thread.new)) }
        ensures tail { OnOk result ((token_of thread.new).tail ≡ []) }
        ensures places { OnOk result ((token_of thread.new).places ≡ all_places) }
        ensures err { OnErr result (Goes (token_of thread.old) [] (token_of thread.new)) }
        ensures err_mine { OnErr result (mine (token_of thread.new) ≡ mine (token_of thread.old)) }
        ensures err_places { OnErr result ((token_of thread.new).places ≡ (token_of thread.old).places) }
    {
        let back = PLACES - thread.places;
        let mut held = self.begin_turn(&mut thread.hold, rt);
        let core = core_of(&mut held);
        let from = core.journal.len();
        core.hand_in(thread.hold.number, &mut thread.hold.tail);
        match core.pick(
            alloc,
            thread.hold.number,
            picker,
            &mut thread.hold.tail,
            back,
        ) {
            Ok(
                PickedCall {
                    picked,
                    halts,
                    wanted,
                    drawing,
                },
            ) => {
                let woken = self.news.rouse_by(rt, core, from, has_stopped(&picked));
                self.news.lie_down(rt, thread.hold.number, wanted);
                self.end_turn_with(&mut thread.hold, held, &woken, &drawing);
                thread.places = PLACES;
                thread.halted = either(thread.halted, halts);
                Ok(picked)
            }
            Err(error) => {
                let woken = self.news.rouse(rt, core, from);
                self.end_turn(&mut thread.hold, held);
                self.news.call(&woken);
                Err(error)
            }
        }
    }
}

impl Thread {
    /// Its number, which no other token has.
    pub fn number(&self) -> u32
        ensures { result ≡ (token_of self.now).number }
    {
        self.hold.number
    }

    /// Whether it is the only live token: from a `live` that answered 1 up to the next `attach`.
    pub fn is_sole(&self) -> bool
        ensures { result ≡ (token_of self.now).sole }
    {
        self.sole
    }
}
