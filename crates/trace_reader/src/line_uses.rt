//! The references of lines, in little memory.
ghost use Rattle.std.specs.Prelude.{◌≡◌, length, IfOk};

use crate::traces::{Reference, Uses};
use egl_calls::NoMemory;
use std::alloc::Global;
use std::marker::Model;
use std::slice::from_ref;

/// Most lines have no reference, or one.
#[derive(Drop)]
enum Kept {
    Nothing,
    One(Reference),
    Many(Box<Uses>),
}

/// The references of a line.
#[derive(Drop)]
pub struct LineUses {
    kept: Kept,
}

impl Model for LineUses {
    ghost use Rattle.std.specs.Prelude.{List};
    ghost use Rattle.trace_reader.specs.declared.traces.Reference.{Reference as AReference};
    ghost use Rattle.trace_reader.specs.LineUses.{kept_uses};

    ghost Value = { List AReference };

    ghost view = { λ u. kept_uses u.kept };
}

impl LineUses {
    #[tactic(auto, using(crate::proofs::PackLaws::none_is, crate::proofs::PackLaws::one_is))]
    pub(crate) fn new(alloc: Global, uses: Uses) -> Result<LineUses, NoMemory>
        ensures { IfOk result (λ u. u ≡ uses) }
    {
        let list = uses.as_slice();
        if list.len() == 0 {
            let kept = Kept::Nothing;
            return Ok(LineUses { kept });
        }
        if list.len() == 1 {
            let kept = Kept::One(list[0]);
            return Ok(LineUses { kept });
        }
        let Ok(uses) = Box::new(alloc, uses) else {
            return Err(NoMemory);
        };
        let kept = Kept::Many(uses);
        Ok(LineUses { kept })
    }

    pub fn as_slice(&self) -> &[Reference]
        ensures { result.now ≡ self.now }
    {
        match &self.kept {
            Kept::Nothing => &[],
            Kept::One(reference) => from_ref(reference),
            Kept::Many(uses) => uses.as_slice(),
        }
    }

    pub fn len(&self) -> usize
        ensures { result ≡ length self.now }
    {
        self.as_slice().len()
    }
}
