//! The objects that there are, each with what leads to it.
ghost use Rattle.std.specs.Prelude.{◌≡◌, ◌++◌, ◌∷◌, [], ◌-◌, length, replicate, OnOk};
ghost use Rattle.egl_explain.specs.Births.{birth_of};

use crate::object_words::{Inventory, put_holders, put_object};
use crate::pages::{Ink, Page};
use crate::references::{Holder, LinkRole, ObjectReference, holders_of, references_in};
use crate::source_lines::put_bar;
use crate::telling::Teller;
use driver_core::Driver;
use driver_objects::ObjectKind;
use egl_calls::arguments::signed;
use egl_calls::places::BOUND_NAME;
use egl_calls::{Entry, NoMemory};
use std::alloc::Global;

/// How many objects are told of at a time, at most.
const MOST_TOLD: u64 = 100;

/// Where an object comes from: the line that made it, and the number that its call has in the place of a name. An object with a name is made by the call that binds it.
#[derive(Clone, Copy, Drop)]
pub struct Birth {
    pub line: u64,
    pub name: i64,
}

fn push(births: &mut Vec<Birth>, birth: Birth) -> Result<(), NoMemory>
    ensures { OnOk result (births.new.items ≡ births.old.items ++ birth ∷ []) }
{
    match births.push(birth) {
        Ok(()) => Ok(()),
        Err(_) => Err(NoMemory),
    }
}

/// Notes that an entry made the objects up to a number.
#[tactic(auto, using(crate::proofs::BirthLaws::one_more))]
pub fn note_births(births: &mut Vec<Birth>, entry: &Entry, count: u64) -> Result<(), NoMemory>
    ensures { OnOk result (births.new.items ≡ births.old.items ++ replicate (count - length births.old.items) (birth_of entry.now)) }
{
    let birth = Birth {
        line: entry.mark,
        name: signed(&entry.call, BOUND_NAME),
    };
    let made = count.saturating_sub(births.len() as u64);
    'each: for _k in 0..made {
        push(births, birth)?;
    }
    Ok(())
}

fn has_handle(holders: &[Holder]) -> bool {
    'each: for holder in holders {
        if matches!(holder, Holder::Handle(_, _)) {
            return true;
        }
    }
    false
}

/// Whether a name leads to an object; 0 is one of a context's own texture.
fn has_name(holders: &[Holder]) -> bool {
    'each: for holder in holders {
        if matches!(
            holder,
            Holder::Object(_, LinkRole::Named | LinkRole::OwnTexture)
        ) {
            return true;
        }
    }
    false
}

/// What no call can name any more lacks a handle or a name, by its kind. Other kinds never have one.
pub fn lack_of(kind: ObjectKind, holders: &[Holder]) -> Option<&'static str> {
    match kind {
        ObjectKind::Context | ObjectKind::Surface | ObjectKind::Image | ObjectKind::Sync => {
            if has_handle(holders) {
                None
            } else {
                Some("no handle")
            }
        }
        ObjectKind::Texture
        | ObjectKind::Buffer
        | ObjectKind::Renderbuffer
        | ObjectKind::Framebuffer => {
            if has_name(holders) {
                None
            } else {
                Some("no name")
            }
        }
        ObjectKind::Group | ObjectKind::Storage => None,
    }
}

/// The mark of what no call can name any more.
fn put_lack(page: &mut Page, driver: &Driver, holders: &[Holder], number: u64) {
    let Some(object) = driver.object(number) else {
        return;
    };
    if let Some(lack) = lack_of(object.kind(), holders) {
        page.put(" (");
        page.put_in(Ink::Fault, lack);
        page.put(")");
    }
}

/// The line of an object, with all that refers to it.
pub fn put_object_line(page: &mut Page, inventory: &Inventory, holders: &[Holder], number: u64) {
    put_bar(page);
    page.put("    ");
    page.begin(Ink::Answer);
    put_object(page, inventory, number);
    page.end();
    put_lack(page, inventory.driver, holders, number);
    page.put(": ");
    put_holders(page, inventory, holders, number);
    page.end_line();
}

/// The objects that references tell of, a hundred at most.
fn put_each<T: Teller>(
    alloc: Global,
    teller: &mut T,
    inventory: &Inventory,
    references: &[ObjectReference],
) -> Result<(), NoMemory> {
    let driver = inventory.driver;
    let mut told = 0u64;
    'each: for number in 0..driver.object_count() {
        if driver.object(number).is_some() {
            if told >= MOST_TOLD {
                teller.more_objects();
                return Ok(());
            }
            told = told.saturating_add(1);
            let holders = holders_of(alloc, references, number)?;
            teller.object(inventory, &holders, number);
        }
    }
    Ok(())
}

/// The objects of a driver, a hundred at most, each with all that refers to it. It answers how many references it looked at, about.
pub fn put_objects<T: Teller>(
    alloc: Global,
    teller: &mut T,
    inventory: &Inventory,
) -> Result<u64, NoMemory> {
    let references = references_in(alloc, inventory.driver)?;
    put_each(alloc, teller, inventory, &references)?;
    let looks = (references.len() as u64).saturating_mul(MOST_TOLD);
    Ok(looks.saturating_add(inventory.driver.object_count()))
}
