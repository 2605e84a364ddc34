//! The bytes that a call gives.
ghost use Rattle.std.specs.Prelude.{◌≡◌, IfOk};

use crate::lists::Bytes;
use crate::memory::NoMemory;
use std::alloc::Global;
use std::marker::Model;
use std::sync::Arc;

/// The bytes that a call gives: pixels, or the contents of a buffer. They are never written, so all who keep the call, as a trace, a driver and its journal, share them: they stand in memory once.
pub struct Payload {
    bytes: Arc<Bytes>,
}

// Written out, so that no crate above proves the drops of what it owns.
impl Drop for Payload {
    fn drop(self) {
        let Payload { bytes: _ } = self;
    }
}

impl Model for Payload {
    ghost use Rattle.std.specs.Prelude.{ℕ, List};
    ghost use Rattle.std.specs.Arc.{arc_value};

    ghost Value = { List ℕ };

    ghost view = { λ p. arc_value p.bytes };
}

impl Payload {
    /// The payload of these bytes, which stay in their memory.
    pub fn new(alloc: Global, bytes: Bytes) -> Result<Payload, NoMemory>
        ensures { IfOk result (λ p. p ≡ bytes) }
    {
        match Arc::new(alloc, bytes) {
            Ok(bytes) => Ok(Payload { bytes }),
            Err(_) => Err(NoMemory),
        }
    }

    /// The same payload for another call. It takes no memory; it is refused only where so many share it that they can't be counted.
    pub fn share(&self) -> Result<Payload, NoMemory>
        ensures { IfOk result (λ p. p ≡ self.now) }
    {
        match Arc::try_clone(&self.bytes) {
            Ok(bytes) => Ok(Payload { bytes }),
            Err(_) => Err(NoMemory),
        }
    }

    pub fn bytes(&self) -> &Bytes
        ensures { result.now ≡ self.now }
    {
        &self.bytes
    }
}
