//! Attribute lists.
ghost use Rattle.std.specs.Prelude.{◌≡◌, ◌*◌, None, IfOk, OnOk, IfErr};
ghost use Rattle.std.specs.Option.{option_map};
ghost use Rattle.attrib_lists.specs.Lists.{value_of, bad_pair, lone_place, bad_place};
ghost use Rattle.attrib_lists.specs.Places.{capped};

use crate::allowed::{Allowed, is_allowed};
use egl_calls::Numbers;
use std::alloc::Global;
use std::marker::Model;
use thiserror::Error;

/// Why a list is refused.
#[derive(Clone, Copy, Debug, PartialEq, Eq, Drop, Error)]
pub enum AttribError {
    /// The attribute at this place of the list, counted from 0, is not allowed, has a value outside its range, or has none. A place past 4,294,967,295 is given as that number.
    #[error("the attribute at place {place} or its value is not allowed")]
    BadAttribute { place: u32 },
    #[error("out of memory")]
    NoMemory,
}

/// A list of attributes and their values in turn.
#[derive(Drop)]
pub struct AttribList {
    pairs: Numbers,
}

impl Model for AttribList {
    ghost use Rattle.std.specs.Prelude.{ℤ, List};

    ghost Value = { List ℤ };

    ghost view = { λ l. l.pairs };
}

/// The place of the first pair that is not allowed.
fn bad_pair_place(list: &[i64], allowed: Allowed) -> Option<usize>
    ensures { result ≡ option_map (λ k. 2 * k) (bad_pair allowed list.now) }
{
    for k in 0..list.len() / 2 {
        if !is_allowed(allowed, list[2 * k], list[2 * k + 1]) {
            return Some(2 * k);
        }
    }
    None
}

/// The place of the last attribute where the length is odd, so that it has no value.
fn lone_place(list: &[i64]) -> Option<usize>
    ensures { result ≡ lone_place list.now }
{
    if list.len() % 2 == 1 {
        Some(list.len() - 1)
    } else {
        None
    }
}

/// The place of the first attribute that is not allowed, has a value outside its range, or has no value. It takes no memory.
#[tactic(auto, unfolding(crate::specs::Lists::bad_place))]
pub fn bad_place(list: &[i64], allowed: Allowed) -> Option<usize>
    ensures { result ≡ bad_place allowed list.now }
{
    let bad = bad_pair_place(list, allowed);
    if bad.is_some() {
        return bad;
    }
    lone_place(list)
}

fn capped(place: usize) -> u32
    ensures { result ≡ capped place }
{
    place.min(4_294_967_295) as u32
}

/// The value of the last pair with an attribute. It takes no memory.
pub fn value_of(list: &[i64], attribute: i64) -> Option<i64>
    ensures { result ≡ value_of list.now attribute }
{
    let mut left = list.len() / 2;
    'pairs: while left > 0 {
        left -= 1;
        if list[2 * left] == attribute {
            return Some(list[2 * left + 1]);
        }
    }
    None
}

impl AttribList {
    ghost use Rattle.attrib_lists.specs.Causes.{IsCause};

    /// The list, where each of its attributes is allowed, with a value in its range. An attribute may stand in it more than once.
    pub fn read(alloc: Global, list: &Numbers, allowed: &Allowed) -> Result<AttribList, AttribError>
        ensures ok { IfOk result (λ l. l ≡ list.now) }
        ensures allowed { OnOk result (bad_place allowed.now list.now ≡ None) }
        ensures cause { IfErr result (IsCause (bad_place allowed.now list.now)) }
    {
        if let Some(place) = bad_place(list.as_slice(), *allowed) {
            return Err(AttribError::BadAttribute {
                place: capped(place),
            });
        }
        match list.copy(alloc) {
            Ok(pairs) => Ok(AttribList { pairs }),
            Err(_) => Err(AttribError::NoMemory),
        }
    }

    /// The value of the last pair with an attribute.
    pub fn get(&self, attribute: i64) -> Option<i64>
        ensures { result ≡ value_of self.now attribute }
    {
        value_of(self.pairs.as_slice(), attribute)
    }
}
