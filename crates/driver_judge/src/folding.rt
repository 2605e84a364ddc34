//! A whole log beside our driver.
ghost use Rattle.std.specs.Prelude.{◌≡◌, ◌≤◌, ◌<◌, ◌^◌, ◌++◌, ◌∷◌, [], All, fold, length, option_copied, IfOk, OnOk};
ghost use Rattle.std.specs.Option.{option_map};
ghost use Rattle.egl_model.specs.State.{opening};
ghost use Rattle.log_reader.specs.Items.{most_items};
ghost use Rattle.driver_judge.specs.Judging.{thread_of};
ghost use Rattle.driver_judge.specs.Judgements.{cut_call, judge_next, judged, judgement, with_verdict};

use crate::judgements::{CutCall, Judgement, LineVerdict, Note};
use crate::judging::{Setting, judge_item, number_of};
use crate::kept::Kept;
use driver_core::Driver;
use egl_calls::{NoMemory, Text};
use log_reader::{Cut, Item, Log};
use std::alloc::Global;
use std::marker::Model;

/// How many lines agree, how many of these with a value that is the driver's own, and what is found of each other line.
struct Tally {
    agreed: u64,
    own: u64,
    notes: Vec<Note>,
}

// Written out, so that no crate above proves the drops of what it owns.
impl Drop for Tally {
    fn drop(self) {
        let Tally {
            agreed: _,
            own: _,
            notes: _,
        } = self;
    }
}

impl Model for Tally {
    ghost use Rattle.log_reader.specs.Items.{most_items};
    ghost use Rattle.driver_judge.specs.Judging.{thread_of};
    ghost use Rattle.driver_judge.specs.Judgements.{TallyValue};

    ghost Value = { TallyValue };

    ghost view = { λ t. record { agreed = t.agreed; own = t.own; notes = t.notes.items } };
}

fn push_note(notes: &mut Vec<Note>, line: u64, verdict: LineVerdict) -> Result<(), NoMemory>
    ensures { OnOk result (notes.new.items ≡ notes.old.items ++ record { line = line; verdict = verdict } ∷ []) }
{
    match notes.push(Note { line, verdict }) {
        Ok(()) => Ok(()),
        Err(_) => Err(NoMemory),
    }
}

impl Tally {
    /// No line was counted.
    fn new(alloc: Global) -> Tally
        ensures { result ≡ record { agreed = 0; own = 0; notes = [] } }
    {
        Tally {
            agreed: 0,
            own: 0,
            notes: Vec::new(alloc),
        }
    }

    /// Counts a line, or notes what is found of it.
    fn count(&mut self, line: u64, verdict: LineVerdict) -> Result<(), NoMemory>
        requires agreed { self.old.agreed < 2 ^ 63 }
        requires own { self.old.own < 2 ^ 63 }
        ensures { OnOk result (self.new ≡ with_verdict line verdict self.old) }
    {
        match verdict {
            LineVerdict::Agreed => {
                self.agreed += 1;
                Ok(())
            }
            LineVerdict::Own => {
                self.agreed += 1;
                self.own += 1;
                Ok(())
            }
            LineVerdict::Differs(_) | LineVerdict::After(_) | LineVerdict::Unjudged(_) => {
                push_note(&mut self.notes, line, verdict)
            }
        }
    }
}

impl Tally {
    /// The judgement of so many lines, with the call that was under way at the end.
    fn into_judgement(self, lines: u64, cut: Option<CutCall>) -> Judgement
        ensures { result ≡ record { lines = lines; agreed = self.agreed; own = self.own; notes = self.notes; cut = cut } }
    {
        let Tally { agreed, own, notes } = self;
        Judgement {
            lines,
            agreed,
            own,
            notes,
            cut,
        }
    }
}

/// The driver of a log, with all of its threads.
fn driver_of(alloc: Global, log: &Log) -> Result<Driver, NoMemory>
    ensures state { IfOk result (λ d. d.state ≡ opening log.now.windows log.now.video) }
    ensures made { IfOk result (λ d. log.now.threads ≤ d.made) }
{
    log.in_order();
    let mut driver = Driver::with_key(alloc, log.key(), log.windows(), log.video())?;
    'threads: while driver.threads() < log.threads() {
        driver.add_thread()?;
    }
    Ok(driver)
}

fn copied_word(alloc: Global, word: &Option<Text>) -> Result<Option<Text>, NoMemory>
    ensures { IfOk result (λ w. w ≡ word.now) }
{
    match word {
        Some(word) => Ok(Some(word.copy(alloc)?)),
        None => Ok(None),
    }
}

/// The call that was under way at the end.
fn cut_call(alloc: Global, cut: Option<&Cut>) -> Result<Option<CutCall>, NoMemory>
    ensures { IfOk result (λ c. c ≡ option_map cut_call (option_copied cut.entry)) }
{
    match cut {
        Some(cut) => Ok(Some(CutCall {
            line: cut.line.number,
            kind: cut.line.call.kind(),
            word: copied_word(alloc, &cut.word)?,
        })),
        None => Ok(None),
    }
}

/// The lines of a log, each of one of its threads.
#[tactic(auto, using(crate::proofs::OrderLaws::threads_of))]
fn items_of(log: &Log) -> &[Item]
    ensures items { result.now ≡ log.now.items }
    ensures threads { All (λ i. thread_of i < log.now.threads) result.now }
    ensures few { length result.now ≤ most_items }
{
    log.in_order();
    log.items()
}

/// Counts the lines of so many threads, and notes what is found of them.
#[tactic(auto, unfolding(crate::specs::Judgements::judge_next))]
fn judge_items(
    alloc: Global,
    setting: &Setting,
    driver: &mut Driver,
    kept: &mut Kept,
    tally: &mut Tally,
    items: &[Item],
    threads: u32,
) -> Result<(), NoMemory>
    requires threads { All (λ i. thread_of i < threads) items.now }
    requires made { threads ≤ driver.old.made }
    requires few { length items.now ≤ most_items }
    requires agreed { tally.old.agreed ≡ 0 }
    requires own { tally.old.own ≡ 0 }
    ensures { OnOk result (tally.new ≡ (fold (judge_next setting.now) (record { beside = record { state = driver.old.state; kept = kept.old }; tally = tally.old }) items.now).tally) }
{
    'each: for item in items {
        let verdict = judge_item(alloc, setting, driver, kept, item)?;
        tally.count(number_of(item), verdict)?;
    }
    Ok(())
}

/// What is found in the lines of a log.
#[tactic(auto, unfolding(crate::specs::Judgements::judged))]
fn tally_of(alloc: Global, log: &Log, delta: u32) -> Result<Tally, NoMemory>
    ensures { IfOk result (λ t. t ≡ (judged log.now delta).tally) }
{
    let setting = Setting::new(alloc, log, delta)?;
    let mut kept = Kept::new(alloc, log.key(), log.threads())?;
    let mut driver = driver_of(alloc, log)?;
    let mut tally = Tally::new(alloc);
    judge_items(
        alloc,
        &setting,
        &mut driver,
        &mut kept,
        &mut tally,
        items_of(log),
        log.threads(),
    )?;
    Ok(tally)
}

/// What is found in a log, where a component of a pixel may differ by so many steps. Memory is the one thing that may be wanted.
#[tactic(auto, unfolding(crate::specs::Judgements::judgement))]
pub fn judge(alloc: Global, log: &Log, delta: u32) -> Result<Judgement, NoMemory>
    ensures { IfOk result (λ j. j ≡ judgement log.now delta) }
{
    let tally = tally_of(alloc, log, delta)?;
    let cut = cut_call(alloc, log.cut())?;
    Ok(tally.into_judgement(log.items().len() as u64, cut))
}
