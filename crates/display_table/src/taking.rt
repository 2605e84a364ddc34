//! The newest handle of a display, taken out of the tables of both.
ghost use Rattle.display_table.specs.Handles.{Takes};
ghost use Rattle.display_table.specs.Tables.{at_number, handles_in, ArePlaces};

use crate::tables::{Table, take_last};

pub(crate) fn take_first(first: &mut Table, second: &Table, next: u32) -> Option<u64>
    requires { ArePlaces first.old.entries second.now.entries next }
    ensures taken { Takes 1 (handles_in (at_number first.old.entries) (at_number second.now.entries) next) (handles_in (at_number first.new.entries) (at_number second.now.entries) next) result }
    ensures tables { ArePlaces first.new.entries second.now.entries next }
{
    match take_last(first) {
        Some(handle) => Some(handle.object),
        None => None,
    }
}

pub(crate) fn take_second(first: &Table, second: &mut Table, next: u32) -> Option<u64>
    requires { ArePlaces first.now.entries second.old.entries next }
    ensures taken { Takes 2 (handles_in (at_number first.now.entries) (at_number second.old.entries) next) (handles_in (at_number first.now.entries) (at_number second.new.entries) next) result }
    ensures tables { ArePlaces first.now.entries second.new.entries next }
{
    match take_last(second) {
        Some(handle) => Some(handle.object),
        None => None,
    }
}
