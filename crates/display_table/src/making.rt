//! A new handle in the tables of both displays.
ghost use Rattle.std.specs.Prelude.{◌≡◌, ◌+◌, ◌<◌, pos, [], ◌∷◌, ◌++◌, IfOk, IfErr, OnOk, OnErr};
ghost use Rattle.display_table.specs.Tables.{at_number, handles_in, ArePlaces};

use crate::HANDLES_END;
use crate::errors::HandleError;
use crate::handles::{Handle, HandleKind};
use crate::tables::{Table, add};

pub(crate) fn add_first(
    first: &mut Table,
    second: &Table,
    next: &mut u32,
    kind: HandleKind,
    object: u64,
) -> Result<i64, HandleError>
    requires tables { ArePlaces first.old.entries second.now.entries next.old }
    requires fits { next.old < HANDLES_END }
    ensures number { IfOk result (λ n. n ≡ pos next.old) }
    ensures made { OnOk result (handles_in (at_number first.new.entries) (at_number second.now.entries) next.new
        ≡ handles_in (at_number first.old.entries) (at_number second.now.entries) next.old ++ record { number = next.old; display = 1; kind = kind; object = object } ∷ []) }
    ensures next { OnOk result (next.new ≡ next.old + 1) }
    ensures same { OnErr result (handles_in (at_number first.new.entries) (at_number second.now.entries) next.new ≡ handles_in (at_number first.old.entries) (at_number second.now.entries) next.old) }
    ensures same_next { OnErr result (next.new ≡ next.old) }
    ensures cause { IfErr result (λ e. e ≡ HandleError.NoMemory) }
    ensures tables { ArePlaces first.new.entries second.now.entries next.new }
{
    let number = *next;
    let handle = Handle {
        number,
        display: 1,
        kind,
        object,
    };
    add(first, handle)?;
    *next = number + 1;
    Ok(i64::from(number))
}

pub(crate) fn add_second(
    first: &Table,
    second: &mut Table,
    next: &mut u32,
    kind: HandleKind,
    object: u64,
) -> Result<i64, HandleError>
    requires tables { ArePlaces first.now.entries second.old.entries next.old }
    requires fits { next.old < HANDLES_END }
    ensures number { IfOk result (λ n. n ≡ pos next.old) }
    ensures made { OnOk result (handles_in (at_number first.now.entries) (at_number second.new.entries) next.new
        ≡ handles_in (at_number first.now.entries) (at_number second.old.entries) next.old ++ record { number = next.old; display = 2; kind = kind; object = object } ∷ []) }
    ensures next { OnOk result (next.new ≡ next.old + 1) }
    ensures same { OnErr result (handles_in (at_number first.now.entries) (at_number second.new.entries) next.new ≡ handles_in (at_number first.now.entries) (at_number second.old.entries) next.old) }
    ensures same_next { OnErr result (next.new ≡ next.old) }
    ensures cause { IfErr result (λ e. e ≡ HandleError.NoMemory) }
    ensures tables { ArePlaces first.now.entries second.new.entries next.new }
{
    let number = *next;
    let handle = Handle {
        number,
        display: 2,
        kind,
        object,
    };
    add(second, handle)?;
    *next = number + 1;
    Ok(i64::from(number))
}
