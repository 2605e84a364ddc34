//! Texts of which each line is an object.
ghost use Rattle.std.specs.Prelude.{◌≡◌, ◌++◌, true, false, IfOk, IfErr, OnErr, OnOk};
ghost use Rattle.json_lines.specs.Lines.{AreLines, HasLine, line};
ghost use Rattle.json_lines.specs.Objects.{members_of};

use crate::objects::JsonObject;
use egl_calls::{Bytes, NoMemory};
use std::alloc::Global;
use std::marker::Model;

/// A text that grows line by line. Where memory runs out for a line, the text lacks it, and nobody gets the text.
pub struct JsonLines {
    alloc: Global,
    text: Bytes,
    is_whole: bool,
}

// Written out, so that no crate above proves the drops of what it owns.
impl Drop for JsonLines {
    fn drop(self) {
        let JsonLines {
            alloc: _,
            text: _,
            is_whole: _,
        } = self;
    }
}

impl Model for JsonLines {
    ghost use Rattle.json_lines.specs.Lines.{AreLines, LinesValue};

    ghost Value = { LinesValue };

    ghost view = { λ l. record { text = l.text; is_whole = l.is_whole } };

    ghost invariant = { λ l. AreLines l.text };
}

/// The line of an object: the object without spaces, and a line feed.
fn line_of(alloc: Global, object: JsonObject) -> Result<Vec<u8>, NoMemory>
    ensures { IfOk result (λ b. b.items ≡ line (members_of object)) }
{
    let value = object.into_value();
    let Ok(mut bytes) = value.to_vec(alloc) else {
        return Err(NoMemory);
    };
    match bytes.push(b'\n') {
        Ok(()) => Ok(bytes),
        Err(_) => Err(NoMemory),
    }
}

/// One line more.
fn put_line(alloc: Global, text: &mut Bytes, object: JsonObject) -> Result<(), NoMemory>
    ensures ok { OnOk result (text.new ≡ text.old ++ line (members_of object)) }
    ensures err { OnErr result (text.new ≡ text.old) }
{
    let bytes = line_of(alloc, object)?;
    text.extend(bytes.as_slice())
}

impl JsonLines {
    #[tactic(auto, using(crate::proofs::LineLaws::nothing))]
    pub fn new(alloc: Global) -> JsonLines {
        JsonLines {
            alloc,
            text: Bytes::new(alloc),
            is_whole: true,
        }
    }

    /// What lines are made with.
    pub fn alloc(&self) -> Global {
        self.alloc
    }

    // Notes whether a line was put.
    fn note(&mut self, put: Result<(), NoMemory>)
        ensures ok { IfOk put (λ _. self.new.is_whole ≡ self.old.is_whole) }
        ensures err { IfErr put (λ _. self.new.is_whole ≡ false) }
        ensures text { self.new.text ≡ self.old.text }
    {
        if put.is_err() {
            self.is_whole = false;
        }
    }

    #[tactic(auto, using(crate::proofs::LineLaws::more, crate::proofs::LineLaws::noted))]
    fn put_object(&mut self, object: JsonObject)
        ensures { HasLine self.old (members_of object) self.new }
    {
        let put = put_line(self.alloc, &mut self.text, object);
        self.note(put);
    }

    /// One line more, where there was memory for its object.
    pub fn put(&mut self, object: Result<JsonObject, NoMemory>)
        ensures put { IfOk object (λ o. HasLine self.old (members_of o) self.new) }
        ensures lacks { IfErr object (λ _. self.new.is_whole ≡ false) }
    {
        match object {
            Ok(object) => self.put_object(object),
            Err(NoMemory) => self.is_whole = false,
        }
    }

    /// The text, where there was memory for each line of it.
    pub fn into_text(self) -> Result<Bytes, NoMemory>
        ensures whole { IfOk result (λ t. (self.is_whole ≡ true) × (t ≡ self.text)) }
        ensures lines { IfOk result AreLines }
        ensures lacks { IfErr result (λ _. self.is_whole ≡ false) }
    {
        let JsonLines {
            alloc: _,
            text,
            is_whole,
        } = self;
        if is_whole { Ok(text) } else { Err(NoMemory) }
    }
}
