//! What a worker picks, by what it knows of the journal.
ghost use Rattle.std.specs.Prelude.{◌≡◌, ◌<◌, ◌+◌, ◌-◌, ◌^◌, ◌||◌, ◌∷◌, ◌++◌, [], length, slice_get, is_some, false, Some, IfOk, IfSome, IsSome, OnOk, List};
ghost use Rattle.egl_calls.specs.Journals.{is_halt};
ghost use Rattle.egl_calls.specs.declared.entries.Entry.{Entry as AnEntry};
ghost use Rattle.trace_reader.specs.declared.traces.Line.{Line as ALine};
ghost use Rattle.trace_model.specs.Turns.{next_line};
ghost use Rattle.trace_model.specs.Serial.{next_call};
ghost use Rattle.trace_session.specs.Answers.{IsLone, is_lone};
ghost use Rattle.trace_session.specs.Chains.{AreChains};
ghost use Rattle.trace_session.specs.Facts.{HasFacts};
ghost use Rattle.trace_session.specs.Sessions.{Knows, line_at};
ghost use Rattle.shared_driver.specs.Cores.{entry, of_number};
ghost use Rattle.play_threads.specs.Picks.{GoesOn, HasLearnt, IsOwnPick, IsPickOf, KnowsOwn, MayLook, Picks, has_stalled, have_others_halted};

use crate::needs::wanted;
use driver_core::Driver;
use egl_calls::{Entry, Journal, NoMemory, Reply, is_waiting};
use shared_driver::{Pick, Picker, Wanted};
use std::alloc::Global;
use trace_reader::{Line, Trace};
use trace_session::{Chains, Session};

/// Picks the next call of one thread of a trace. It learns the entries of other threads no sooner than its thread has a line that may wait for them, since in a run each of many threads would else learn each entry, in its turns. Its own it is told when they are answered.
#[derive(Drop)]
pub struct LinePicker<'a> {
    pub(crate) alloc: Global,
    pub(crate) thread: u32,
    pub(crate) session: Session<'a>,
    // how many of the journal's entries it has learnt
    pub(crate) learnt: u64,
    // another thread gave up
    pub(crate) halted: bool,
    // its own thread is in a wait
    pub(crate) waits: bool,
    // where the entry of the call that it picked last comes to stand
    pub(crate) asked: u64,
    // that call was answered, and its session hasn't learnt its entry yet
    pub(crate) answered: bool,
    // it may pick several lines in one turn
    pub(crate) runs: bool,
}

/// Whether the run that a session knows has stalled. While threads of the trace have no token yet, it hasn't.
pub(crate) fn has_stalled(session: &Session, driver: &Driver) -> bool
    ensures { (es : List AnEntry) → Knows es session.now → result ≡ has_stalled session.now.trace es driver.now }
{
    driver.threads() >= session.threads() && session.stalled(driver)
}

impl<'a> LinePicker<'a> {
    /// A picker for a thread, that has learnt nothing, and whether it may pick several lines in one turn.
    pub fn new(
        alloc: Global,
        trace: &'a Trace,
        chains: &'a Chains,
        thread: u32,
        runs: bool,
    ) -> Result<LinePicker<'a>, NoMemory>
        requires { AreChains trace.now chains.now }
        ensures trace { IfOk result (λ p. p.session.trace ≡ trace.now) }
        ensures thread { IfOk result (λ p. p.thread ≡ thread) }
        ensures told { IfOk result (λ p. p.answered ≡ false) }
        ensures learnt { IfOk result (λ p. (es : List AnEntry) → HasLearnt p [] es) }
    {
        Ok(LinePicker {
            alloc,
            thread,
            session: Session::new(alloc, trace, chains)?,
            learnt: 0,
            halted: false,
            waits: false,
            asked: 0,
            answered: false,
            runs,
        })
    }

    // Takes in the next entry of a journal, which is another thread's.
    fn learn_other(&mut self, entry: &Entry) -> Result<(), NoMemory>
        requires { self.old.learnt < 2 ^ 64 - 1 }
        ensures same { (self.new.thread ≡ self.old.thread) × (self.new.session.trace ≡ self.old.session.trace) }
        ensures told { (self.new.answered ≡ self.old.answered) × (self.new.asked ≡ self.old.asked) }
        ensures next { OnOk result (self.new.learnt ≡ self.old.learnt + 1) }
        ensures knows { (es : List AnEntry) → Knows es self.old.session → OnOk result (Knows (es ++ entry.now ∷ []) self.new.session) }
        ensures halted { OnOk result (self.new.halted ≡ (self.old.halted || is_halt entry.now)) }
    {
        self.session.learn(self.alloc, entry)?;
        self.halted = self.halted || entry.is_halt();
        self.learnt += 1;
        Ok(())
    }

    // Takes in the next entry of a journal. One of its own thread it knows.
    fn learn_one(&mut self, entry: &Entry) -> Result<(), NoMemory>
        requires { self.old.learnt < 2 ^ 64 - 1 }
        ensures same { (self.new.thread ≡ self.old.thread) × (self.new.session.trace ≡ self.old.session.trace) }
        ensures told { (self.new.answered ≡ self.old.answered) × (self.new.asked ≡ self.old.asked) }
        ensures next { OnOk result (self.new.learnt ≡ self.old.learnt + 1) }
        ensures learnt { (own es : List AnEntry) → HasLearnt self.old own es → slice_get es self.old.learnt ≡ Some entry.now → OnOk result (HasLearnt self.new own es) }
    {
        if entry.thread != self.thread {
            return self.learn_other(entry);
        }
        self.learnt += 1;
        Ok(())
    }

    // Takes in the entries that were added since the last look.
    fn learn(&mut self, journal: &Journal) -> Result<(), NoMemory>
        requires { HasLearnt self.old (of_number self.old.thread journal.now.entries) journal.now.entries }
        ensures same { (self.new.thread ≡ self.old.thread) × (self.new.session.trace ≡ self.old.session.trace) }
        ensures told { (self.new.answered ≡ self.old.answered) × (self.new.asked ≡ self.old.asked) }
        ensures all { OnOk result (self.new.learnt ≡ length journal.now.entries) }
        ensures learnt { OnOk result (HasLearnt self.new (of_number self.old.thread journal.now.entries) journal.now.entries) }
    {
        let count = journal.len();
        'each: while self.learnt < count {
            match journal.entry(self.learnt) {
                Some(entry) => self.learn_one(entry)?,
                None => unreachable!(),
            }
        }
        Ok(())
    }

    // The pick by its own entries alone, where these tell it: the call of a line that waits for nobody, as long as nobody gave up, or nothing any more at the thread's end.
    fn own_pick(&self, journal: &Journal) -> Result<Option<Pick>, NoMemory>
        requires { self.now.thread < self.now.session.trace.threads }
        ensures { (es : List AnEntry) → Knows es self.now.session → IfOk result (λ o. IfSome o (IsOwnPick self.now.session.trace es journal.now.entries self.now.thread)) }
    {
        if self.session.line(self.thread).is_none() {
            return Ok(Some(Pick::Stop));
        }
        if journal.is_halted() {
            return Ok(None);
        }
        let Some(line) = self.session.lone_line(self.thread) else {
            return Ok(None);
        };
        Ok(Some(Pick::Call(line.number, line.call.to_call(self.alloc)?)))
    }

    // What its thread waits for, where it is blocked.
    fn wanted(&self) -> Wanted
        requires { self.now.thread < self.now.session.trace.threads }
    {
        if self.waits {
            return Wanted::Signal;
        }
        match self.session.line(self.thread) {
            Some(line) => wanted(&self.session, line),
            None => Wanted::Entry,
        }
    }

    // The pick by all that was learnt.
    fn picked(&self, driver: &Driver) -> Result<Pick, NoMemory>
        requires thread { self.now.thread < self.now.session.trace.threads }
        requires made { self.now.thread < driver.now.made }
        ensures pick { (es : List AnEntry) → Knows es self.now.session → self.now.halted ≡ have_others_halted self.now.thread es → IfOk result (IsPickOf self.now.session.trace es driver.now.state self.now.thread) }
        ensures goes_on { (es : List AnEntry) → Knows es self.now.session → self.now.halted ≡ have_others_halted self.now.thread es → IfOk result (GoesOn self.now.session.trace es driver.now self.now.thread) }
    {
        if self.halted {
            return Ok(Pick::Stop);
        }
        let Some(mark) = self.session.next(self.thread) else {
            return Ok(Pick::Stop);
        };
        if !self.session.blocked(driver, self.thread) {
            return Ok(Pick::Call(mark, self.session.call(self.alloc, self.thread)?));
        }
        if has_stalled(&self.session, driver) {
            Ok(Pick::Stop)
        } else {
            Ok(Pick::Wait(self.wanted()))
        }
    }

    /// The number of the line that comes next.
    pub(crate) fn coming(&self) -> Option<u64>
        requires { self.now.thread < self.now.session.trace.threads }
    {
        self.session.next(self.thread)
    }

    /// The thread's next line, where it waits for nobody. Its call is no Halt.
    pub(crate) fn lone_line(&self) -> Option<&'a Line>
        requires { self.now.thread < self.now.session.trace.threads }
        ensures facts { HasFacts self.now.session.trace }
        ensures lone { (es : List AnEntry) → Knows es self.now.session → IfSome result (λ l. IsLone self.now.session.trace es self.now.thread l.now) }
        ensures there { (es : List AnEntry) → Knows es self.now.session → is_some result ≡ is_lone self.now.session.trace es self.now.thread }
    {
        self.session.facts();
        self.session.lone_line(self.thread)
    }

    /// Takes in that the thread's next call was answered so.
    pub(crate) fn learn_own(&mut self, reply: Reply) -> Result<(), NoMemory>
        requires below { self.old.thread < self.old.session.trace.threads }
        requires line { IsSome (line_at self.old.session self.old.thread) }
        ensures same { (self.new.thread ≡ self.old.thread) × (self.new.session.trace ≡ self.old.session.trace) × (self.new.learnt ≡ self.old.learnt) × (self.new.halted ≡ self.old.halted) }
        ensures told { self.new.answered ≡ self.old.answered }
        ensures knows { (es : List AnEntry) (l : ALine) → Knows es self.old.session → next_line self.old.session.trace.lines es self.old.thread ≡ Some l → OnOk result (Knows (es ++ entry self.old.thread l.number (next_call self.old.session.trace.lines es self.old.thread l) reply ∷ []) self.new.session) }
    {
        self.waits = is_waiting(reply.outcome);
        self.session.learn_next(self.alloc, self.thread, reply)
    }

    // Begins a look at a journal: takes in the entry of its last call, where that was answered in the same turn, and notes where that of its next one comes to stand.
    fn learn_told(&mut self, journal: &Journal) -> Result<(), NoMemory>
        requires { KnowsOwn self.old self.old.answered (of_number self.old.thread journal.now.entries) journal.now.entries }
        ensures same { (self.new.thread ≡ self.old.thread) × (self.new.session.trace ≡ self.old.session.trace) }
        ensures told { (self.new.answered ≡ false) × (self.new.asked ≡ length journal.now.entries) }
        ensures learnt { OnOk result (HasLearnt self.new (of_number self.old.thread journal.now.entries) journal.now.entries) }
    {
        let place = self.asked;
        self.asked = journal.len();
        if !self.answered {
            return Ok(());
        }
        self.answered = false;
        let Some(entry) = journal.entry(place) else {
            unreachable!()
        };
        self.waits = is_waiting(entry.reply.outcome);
        self.session.learn(self.alloc, entry)
    }
}

impl<'a> Picker for LinePicker<'a> {
    ghost may = { λ p es d. MayLook p es d };

    ghost picks = { λ p es d k q. Picks p es d k q };

    fn pick(&mut self, journal: &Journal, driver: &Driver) -> Result<Pick, NoMemory> {
        self.learn_told(journal)?;
        if let Some(pick) = self.own_pick(journal)? {
            return Ok(pick);
        }
        self.learn(journal)?;
        self.picked(driver)
    }
}
