//! What is kept beside our driver.
ghost use Rattle.std.specs.Prelude.{◌≡◌, [], ◌++◌, ◌∷◌, None, replicate, slice_index_or, slice_set, if◌then◌else◌, IfOk, OnOk};
ghost use Rattle.std.specs.Option.{option_or};
ghost use Rattle.driver_judge.specs.Answers.{nothing_stands};
ghost use Rattle.driver_judge.specs.Fronts.{shown_format};
ghost use Rattle.driver_judge.specs.Calls.{goes_by_current};
ghost use Rattle.driver_judge.specs.Judging.{adrift_at, assigned, drifting, fault_of, returned, set_adrift, with_variable};

use crate::answers::Stands;
use crate::calls::{goes_by_current, is_make_current, sets_current};
use crate::fronts::{Formats, shown_format};
use crate::variables::{Variable, lost_in};
use egl_calls::{Kind, NoMemory};
use indexmap::IndexMap;
use keyed_hash::{HashKey, KeyedState};
use pixel_formats::Format;
use std::alloc::Global;
use std::marker::Model;
use trace_reader::Line;

/// What of theirs stands for ours, what each variable stands for, for each thread the line by whose fault it may have another context than ours, and in which format each window's newest surface is stored.
pub struct Kept {
    pub(crate) stands: Stands,
    pub(crate) variables: Vec<Variable>,
    pub(crate) adrift: Vec<Option<u64>>,
    pub(crate) formats: Formats,
}

// Written out, so that no crate above proves the drops of what it owns.
impl Drop for Kept {
    fn drop(self) {
        let Kept {
            stands: _,
            variables: _,
            adrift: _,
            formats: _,
        } = self;
    }
}

impl Model for Kept {
    ghost use Rattle.driver_judge.specs.Judging.{KeptValue};

    ghost Value = { KeptValue };

    ghost view = { λ k. record { stands = k.stands; variables = k.variables.items; adrift = k.adrift.items; formats = k.formats.entries } };
}

/// No thread has another context.
fn none_adrift(alloc: Global, threads: u32) -> Result<Vec<Option<u64>>, NoMemory>
    ensures { IfOk result (λ v. v.items ≡ replicate threads None) }
{
    match vec![in alloc; None; threads as usize] {
        Ok(list) => Ok(list),
        Err(_) => Err(NoMemory),
    }
}

fn push(variables: &mut Vec<Variable>, variable: Variable) -> Result<(), NoMemory>
    ensures { OnOk result (variables.new.items ≡ variables.old.items ++ variable ∷ []) }
{
    match variables.push(variable) {
        Ok(()) => Ok(()),
        Err(_) => Err(NoMemory),
    }
}

#[tactic(auto, using(crate::proofs::ListLaws::set_past))]
fn set_line(list: &mut Vec<Option<u64>>, place: usize, line: Option<u64>)
    ensures { list.new.items ≡ slice_set list.old.items place line }
{
    if place < list.len() {
        list[place] = line;
    }
}

/// A line by whose fault a thread may have another context, for a call that goes by what is current.
#[tactic(auto, using(crate::proofs::ListLaws::none_by_either))]
fn fault_by_current(kind: Kind, adrift: Option<u64>) -> Option<u64>
    ensures { result ≡ (if goes_by_current kind then adrift else None) }
{
    if adrift.is_none() {
        return None;
    }
    if goes_by_current(kind) { adrift } else { None }
}

impl Kept {
    /// What is kept before the first line.
    pub fn new(alloc: Global, key: HashKey, threads: u32) -> Result<Kept, NoMemory>
        ensures { IfOk result (λ k. k ≡ record { stands = nothing_stands; variables = []; adrift = replicate threads None; formats = [] }) }
    {
        Ok(Kept {
            stands: Stands::new(alloc, key),
            variables: Vec::new(alloc),
            adrift: none_adrift(alloc, threads)?,
            formats: IndexMap::with_hasher(alloc, KeyedState::new(key)),
        })
    }

    /// Keeps what the variable of a line stands for, if it assigns one.
    pub fn assign(&mut self, line: &Line, variable: Variable) -> Result<(), NoMemory>
        ensures { OnOk result (self.new ≡ with_variable line.now variable self.old) }
    {
        if line.assigns.is_none() {
            return Ok(());
        }
        push(&mut self.variables, variable)
    }

    /// The format of what a window shows.
    pub fn shown_format(&self, window: i64) -> Format
        ensures { result ≡ shown_format window self.now.formats }
    {
        shown_format(window, &self.formats)
    }

    /// The line by whose fault a thread may have another context.
    pub fn adrift_at(&self, thread: u32) -> Option<u64>
        ensures { result ≡ adrift_at self.now thread }
    {
        match self.adrift.get(thread as usize) {
            Some(line) => *line,
            None => None,
        }
    }

    fn set_adrift(&mut self, thread: u32, line: Option<u64>)
        ensures { self.new ≡ set_adrift thread line self.old }
    {
        set_line(&mut self.adrift, thread as usize, line);
    }

    /// The line by whose fault one can't be played.
    #[tactic(auto, unfolding(crate::specs::Judging::fault_of))]
    pub fn fault_of(&self, line: &Line) -> Option<u64>
        ensures { result ≡ fault_of self.now line.now }
    {
        if let Some(fault) = lost_in(self.variables.as_slice(), line.uses.as_slice()) {
            return Some(fault);
        }
        fault_by_current(line.call.kind(), self.adrift_at(line.thread))
    }

    /// Behind an eglMakeCurrent that isn't played its thread may have another context.
    pub fn drift(&mut self, line: &Line, fault: u64)
        ensures { self.new ≡ drifting line.now fault self.old }
    {
        if is_make_current(line.call.kind()) {
            self.set_adrift(line.thread, Some(fault));
        }
    }

    /// Behind one on which both agree it has ours again.
    pub fn come_back(&mut self, line: &Line)
        ensures { self.new ≡ returned line.now self.old }
    {
        if sets_current(line.call.kind()) {
            self.set_adrift(line.thread, None);
        }
    }
}
