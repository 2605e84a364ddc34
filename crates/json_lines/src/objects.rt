//! Objects in JSON.
ghost use Rattle.std.specs.Prelude.{◌≡◌, false, OnOk, OnErr};
ghost use Rattle.json_lines.specs.Lines.{list_data, number_data};
ghost use Rattle.serde_json.specs.Data.{no_members, number, object, put, string, unsigned};
ghost use Rattle.serde_json.specs.View.{members_view, view};
ghost use Rattle.serde_json.specs.Written.{has_float, members_have_float};

use crate::lists::JsonList;
use egl_calls::NoMemory;
use serde_json::{Map, Value};
use std::alloc::Global;

/// An object without floats: its members in the order of their names, each name once.
pub struct JsonObject {
    alloc: Global,
    members: Map<String, Value>,
    ghost bare: { members_have_float (members_view members.entries) ≡ false },
}

// Written out, so that no crate above proves the drops of what it owns.
impl Drop for JsonObject {
    fn drop(self) {
        let JsonObject {
            alloc: _,
            members: _,
        } = self;
    }
}

impl JsonObject {
    ghost use Rattle.json_lines.specs.Objects.{members_of};
    ghost use Rattle.json_lines.specs.Lists.{items_of_list};

    pub fn new(alloc: Global) -> JsonObject
        ensures { members_of result ≡ no_members }
    {
        JsonObject {
            alloc,
            members: Map::new(alloc),
        }
    }

    /// One member more, or another value of one.
    #[tactic(auto, using(crate::proofs::FloatLaws::member_put))]
    fn put(&mut self, name: &str, value: Value) -> Result<(), NoMemory>
        requires { has_float (view value) ≡ false }
        ensures ok { OnOk result (members_of self.new ≡ put name.now (view value) (members_of self.old)) }
        ensures err { OnErr result (members_of self.new ≡ members_of self.old) }
    {
        match serde_json::put(&mut self.members, self.alloc, name, value) {
            Ok(()) => Ok(()),
            Err(_) => Err(NoMemory),
        }
    }

    #[tactic(auto, using(crate::proofs::FloatLaws::no_text))]
    pub fn put_text(&mut self, name: &str, text: &str) -> Result<(), NoMemory>
        ensures { OnOk result (members_of self.new ≡ put name.now (string text.now) (members_of self.old)) }
    {
        match Value::try_from_str(self.alloc, text) {
            Ok(value) => self.put(name, value),
            Err(_) => Err(NoMemory),
        }
    }

    #[tactic(auto, using(crate::proofs::FloatLaws::no_count))]
    pub fn put_count(&mut self, name: &str, count: u64) -> Result<(), NoMemory>
        ensures { OnOk result (members_of self.new ≡ put name.now (number (unsigned count)) (members_of self.old)) }
    {
        self.put(name, Value::from(count))
    }

    #[tactic(auto, using(crate::proofs::FloatLaws::no_number))]
    pub fn put_number(&mut self, name: &str, number: i64) -> Result<(), NoMemory>
        ensures { OnOk result (members_of self.new ≡ put name.now (number_data number) (members_of self.old)) }
    {
        self.put(name, Value::from(number))
    }

    pub fn put_list(&mut self, name: &str, list: JsonList) -> Result<(), NoMemory>
        ensures { OnOk result (members_of self.new ≡ put name.now (list_data (items_of_list list)) (members_of self.old)) }
    {
        self.put(name, list.into_value())
    }

    pub fn put_object(&mut self, name: &str, part: JsonObject) -> Result<(), NoMemory>
        ensures { OnOk result (members_of self.new ≡ put name.now (object (members_of part)) (members_of self.old)) }
    {
        self.put(name, part.into_value())
    }

    /// The object as a value.
    #[tactic(auto, using(crate::proofs::FloatLaws::object_view, crate::proofs::FloatLaws::object_bare))]
    pub(crate) fn into_value(self) -> Value
        ensures value { view result ≡ object (members_of self) }
        ensures bare { has_float (view result) ≡ false }
    {
        let JsonObject { alloc: _, members } = self;
        Value::Object(members)
    }
}
