//! Lists in JSON.
ghost use Rattle.std.specs.Prelude.{◌≡◌, false, [], ◌∷◌, ◌++◌, map, OnOk, OnErr};
ghost use Rattle.json_lines.specs.Lines.{list_data, number_data};
ghost use Rattle.serde_json.specs.Data.{object, string};
ghost use Rattle.serde_json.specs.View.{view};
ghost use Rattle.serde_json.specs.Written.{has_float};

use crate::objects::JsonObject;
use egl_calls::NoMemory;
use serde_json::Value;
use std::alloc::Global;

/// A list without floats.
pub struct JsonList {
    alloc: Global,
    items: Vec<Value>,
    ghost bare: { has_float (list_data (map view items.items)) ≡ false },
}

// Written out, so that no crate above proves the drops of what it owns.
impl Drop for JsonList {
    fn drop(self) {
        let JsonList { alloc: _, items: _ } = self;
    }
}

impl JsonList {
    ghost use Rattle.json_lines.specs.Lists.{items_of_list};
    ghost use Rattle.json_lines.specs.Objects.{members_of};

    pub fn new(alloc: Global) -> JsonList
        ensures { items_of_list result ≡ [] }
    {
        JsonList {
            alloc,
            items: Vec::new(alloc),
        }
    }

    /// One value more.
    #[tactic(auto, using(crate::proofs::FloatLaws::pushed, crate::proofs::FloatLaws::map_push))]
    fn push(&mut self, value: Value) -> Result<(), NoMemory>
        requires { has_float (view value) ≡ false }
        ensures ok { OnOk result (items_of_list self.new ≡ items_of_list self.old ++ view value ∷ []) }
        ensures err { OnErr result (items_of_list self.new ≡ items_of_list self.old) }
    {
        match self.items.push(value) {
            Ok(()) => Ok(()),
            Err(_) => Err(NoMemory),
        }
    }

    #[tactic(auto, using(crate::proofs::FloatLaws::no_text))]
    pub fn push_text(&mut self, text: &str) -> Result<(), NoMemory>
        ensures { OnOk result (items_of_list self.new ≡ items_of_list self.old ++ string text.now ∷ []) }
    {
        match Value::try_from_str(self.alloc, text) {
            Ok(value) => self.push(value),
            Err(_) => Err(NoMemory),
        }
    }

    #[tactic(auto, using(crate::proofs::FloatLaws::no_number))]
    pub fn push_number(&mut self, number: i64) -> Result<(), NoMemory>
        ensures { OnOk result (items_of_list self.new ≡ items_of_list self.old ++ number_data number ∷ []) }
    {
        self.push(Value::from(number))
    }

    pub fn push_object(&mut self, item: JsonObject) -> Result<(), NoMemory>
        ensures { OnOk result (items_of_list self.new ≡ items_of_list self.old ++ object (members_of item) ∷ []) }
    {
        self.push(item.into_value())
    }

    /// The list as a value.
    #[tactic(auto, using(crate::proofs::FloatLaws::array_view, crate::proofs::FloatLaws::array_bare))]
    pub(crate) fn into_value(self) -> Value
        ensures value { view result ≡ list_data (items_of_list self) }
        ensures bare { has_float (view result) ≡ false }
    {
        let JsonList { alloc: _, items } = self;
        Value::Array(items)
    }
}
