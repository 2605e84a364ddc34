//! Names of share groups (OpenGL ES 1.1, section 3.7.11).
ghost use Rattle.std.specs.Prelude.{◌≡◌, ◌-◌, ◌<◌, pos, false, length, slice_index_or, IfSome, None, Some};
ghost use Rattle.driver_facts.specs.Groups.{IsGroup};
ghost use Rattle.egl_calls.specs.Ranges.{IsNumber, is_client_wait, unsigned};
ghost use Rattle.egl_model.specs.Arguments.{number};
ghost use Rattle.egl_model.specs.Names.{group_of, name_value, object_named};
ghost use Rattle.driver_facts.specs.Tables.{state_in};

use crate::tables::Tables;
use egl_calls::{Call, unsigned};
use share_group::NameKind;

/// A name, or a number of names, that a call of OpenGL ES gives at a place.
pub fn name_of(call: &Call, place: usize) -> u32
    requires place { place < 8 }
    requires kind { is_client_wait call.now.kind ≡ false }
    ensures { result ≡ number call.now place }
{
    unsigned(call.args[place]) as u32
}

/// A name that a list of a call gives at a place.
pub fn listed_name(call: &Call, k: usize) -> u32
    requires { k < length call.now.list }
    ensures { result ≡ unsigned (slice_index_or call.now.list k (pos 0)) }
{
    unsigned(call.list.as_slice()[k]) as u32
}

impl Tables {
    /// The group of a context; 0 where there is no such context.
    pub fn group_number(&self, context: u64) -> u64
        ensures { result ≡ group_of (state_in self.now) context }
    {
        match self.objects.context(context) {
            Some(context) => context.group,
            None => 0,
        }
    }

    /// The object of a name in the group of a context, where it has one.
    pub fn object_named(&self, context: u64, kind: NameKind, name: u32) -> Option<u64>
        ensures value { result ≡ object_named (state_in self.now) (group_of (state_in self.now) context) kind name }
        ensures there { IfSome result (IsGroup (state_in self.now).objects) }
    {
        self.objects.named(self.group_number(context), kind, name)
    }

    /// 1 where a name has an object, else 0.
    pub fn is_name(&self, context: u64, kind: NameKind, name: u32) -> i64
        ensures value { result ≡ name_value (object_named (state_in self.now) (group_of (state_in self.now) context) kind name) }
        ensures number { IsNumber result }
    {
        match self.object_named(context, kind, name) {
            Some(_) => 1,
            None => 0,
        }
    }
}
