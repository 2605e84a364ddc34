//! Lists of calls.
ghost use Rattle.std.specs.Prelude.{◌≡◌, [], ◌∷◌, ◌++◌, length, slice_get, All, IfOk, OnOk, option_copied};
ghost use Rattle.egl_calls.specs.Ranges.{AreArguments, IsNumber};
ghost use Rattle.sprite_scene.specs.Calls as values;

use egl_calls::{Call, Kind, NoMemory, Numbers};
use std::alloc::Global;
use std::marker::Model;

/// Calls in the order in which a thread makes them.
pub struct Calls {
    calls: Vec<Call>,
}

// Written out, so that no crate above proves the drops of what it owns.
impl Drop for Calls {
    fn drop(self) {
        let Calls { calls: _ } = self;
    }
}

impl Model for Calls {
    ghost use Rattle.std.specs.Prelude.{List};
    ghost use Rattle.egl_calls.specs.Calls.{CallValue};

    ghost Value = { List CallValue };

    ghost view = { λ c. c.calls.items };
}

impl Calls {
    pub(crate) fn new(alloc: Global) -> Calls
        ensures { result ≡ [] }
    {
        Calls {
            calls: Vec::new(alloc),
        }
    }

    /// How many calls there are.
    pub fn len(&self) -> u64
        ensures { result ≡ length self.now }
    {
        self.calls.len() as u64
    }

    /// The calls, in their order.
    pub fn as_slice(&self) -> &[Call]
        ensures { result.now ≡ self.now }
    {
        self.calls.as_slice()
    }

    /// The call at a place, counted from 0.
    pub fn at(&self, k: u64) -> Option<&Call>
        ensures { option_copied result ≡ slice_get self.now k }
    {
        self.calls.get(k as usize)
    }

    pub(crate) fn push(&mut self, call: Call) -> Result<(), NoMemory>
        ensures { OnOk result (self.new ≡ self.old ++ call ∷ []) }
    {
        match self.calls.push(call) {
            Ok(()) => Ok(()),
            Err(_) => Err(NoMemory),
        }
    }
}

/// A call without a list and bytes.
pub(crate) fn plain(alloc: Global, kind: Kind, args: [i64; 8]) -> Call
    requires { AreArguments kind 0 args }
    ensures { result ≡ values.plain kind args }
{
    Call {
        kind,
        args,
        list: Numbers::new(alloc),
        bytes: None,
    }
}

/// A call with a list.
pub(crate) fn listed(
    alloc: Global,
    kind: Kind,
    args: [i64; 8],
    list: [i64; 4],
) -> Result<Call, NoMemory>
    requires args { AreArguments kind 0 args }
    requires list { All IsNumber list }
    ensures { IfOk result (λ c. c ≡ values.listed kind args list) }
{
    let mut numbers = Numbers::new(alloc);
    numbers.extend(&list)?;
    Ok(Call {
        kind,
        args,
        list: numbers,
        bytes: None,
    })
}
