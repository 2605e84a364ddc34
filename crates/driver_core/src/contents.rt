//! What there is: the objects, the valid handles, and what is kept for the threads.
ghost use Rattle.std.specs.Prelude.{◌≡◌, ◌++◌, length, option_copied, OnOk, IfOk};
ghost use Rattle.std.specs.Option.{option_to_list};
ghost use Rattle.driver_core.specs.Contents.{numbered};
ghost use Rattle.driver_facts.specs.Threads.{padded};
ghost use Rattle.egl_model.specs.State.{object_at};

use crate::machine::Driver;
use display_table::{Displays, Handle, HandleKind};
use driver_objects::Object;
use egl_calls::NoMemory;
use egl_model::ThreadRecord;
use std::alloc::Global;

/// The valid handle with a number.
#[tactic(auto, using(crate::proofs::ContentsLaws::found_numbered, crate::proofs::ContentsLaws::last_kind))]
fn handle_numbered(displays: &Displays, number: u32) -> Option<Handle>
    ensures { result ≡ numbered number displays.now.handles }
{
    displays.handles_rise();
    let number = i64::from(number);
    if let Some(handle) = displays.handle_anywhere(number, HandleKind::Context) {
        return Some(handle);
    }
    if let Some(handle) = displays.handle_anywhere(number, HandleKind::Surface) {
        return Some(handle);
    }
    if let Some(handle) = displays.handle_anywhere(number, HandleKind::Image) {
        return Some(handle);
    }
    displays.handle_anywhere(number, HandleKind::Sync)
}

/// Adds a handle, where there is one.
fn push_found(list: &mut Vec<Handle>, found: Option<Handle>) -> Result<(), NoMemory>
    ensures { OnOk result (list.new.items ≡ list.old.items ++ option_to_list found) }
{
    let Some(handle) = found else {
        return Ok(());
    };
    match list.push(handle) {
        Ok(()) => Ok(()),
        Err(_) => Err(NoMemory),
    }
}

impl Driver {
    /// How many objects were ever made: their numbers are those below this one.
    pub fn object_count(&self) -> u64
        ensures { result ≡ length self.now.state.objects }
    {
        self.tables.objects.len()
    }

    /// The object of a number; none where it is gone, and where none has the number yet.
    pub fn object(&self, number: u64) -> Option<&Object>
        ensures { option_copied result ≡ object_at self.now.state number }
    {
        self.tables.objects.object(number)
    }

    /// The valid handles in the order of their making. It looks once for each number that was given.
    #[tactic(auto, using(crate::proofs::ContentsLaws::none_below, crate::proofs::ContentsLaws::all_below))]
    pub fn handles(&self, alloc: Global) -> Result<Vec<Handle>, NoMemory>
        ensures { IfOk result (λ list. list.items ≡ self.now.state.handles) }
    {
        self.tables.displays.handles_rise();
        let mut list = Vec::new(alloc);
        'numbers: for number in 0..self.tables.displays.next_handle() {
            push_found(&mut list, handle_numbered(&self.tables.displays, number))?;
        }
        Ok(list)
    }

    /// What is kept for each thread that was made: its current context and surfaces, and the sync that it waits for. The other numbers for threads have records that hold nothing.
    pub fn records(&self) -> &[ThreadRecord]
        ensures { padded result.now ≡ self.now.state.threads }
    {
        self.tables.threads.as_slice()
    }
}
