//! Sources of bytes.
ghost use Rattle.std.specs.Prelude.{◌≡◌, ℕ, ◌+◌, ◌-◌, ◌<◌, ◌≤◌, List, length, take, Option, IfOk, OnOk, OnErr, IfErr};
ghost use Rattle.egl_flow.specs.Flow.{HasRisen, Gave, AtEnd};
ghost use Rattle.egl_flow.specs.Causes.{HasCause};

use egl_calls::Bytes;
use std::alloc::Global;
use thiserror::Error;

/// A call of a source or of a sink failed.
#[derive(Clone, Copy, Debug, PartialEq, Eq, Drop)]
pub struct Failed;

/// Where bytes come from.
pub trait Source {
    /// The bytes that are still to come, where the source tells them. One that tells them goes on telling.
    ghost left: { Self → Option (List ℕ) };
    /// How often it has failed. Only a call that fails raises the count, and it stands still at the last value of a u64.
    ghost faults: { Self → ℕ };

    /// Takes some bytes into the front of a slice, and says how many. It gives 0 for a slice with places only at the end of the input.
    fn take(&mut self, into: &mut [u8]) -> Result<usize, Failed>
        ensures within { IfOk result (λ n. n ≤ length into.old) }
        ensures moved { IfOk result (λ n. Gave (left self.old) (take n into.new) (left self.new)) }
        ensures ended { IfOk result (λ n. n ≡ 0 → 0 < length into.old → AtEnd (left self.new)) }
        ensures steady { OnOk result (faults self.new ≡ faults self.old) }
        ensures failed { OnErr result (HasRisen (faults self.old) (faults self.new)) }
        ensures count { faults self.old ≤ faults self.new };
}

/// Why not all bytes of a source were read. Some may have been taken from it.
#[derive(Clone, Copy, Debug, PartialEq, Eq, Drop, Error)]
pub enum ReadError {
    #[error("a call of the source failed")]
    ReadFault,
    #[error("the source gave {taken} bytes and there is more than the limit")]
    TooLong { taken: u64 },
    #[error("memory ran out")]
    NoMemory,
}

/// Reads a source to its end, where it has at most `limit` bytes. Memory is asked for only for bytes within the limit.
#[tactic(auto, using(crate::proofs::FlowLaws::gave_more))]
pub fn read_all<S: Source>(alloc: Global, s: &mut S, limit: u64) -> Result<Bytes, ReadError>
    ensures all { IfOk result (λ b. Gave (S.left s.old) b (S.left s.new)) }
    ensures ended { OnOk result (AtEnd (S.left s.new)) }
    ensures within { IfOk result (λ b. length b ≤ limit) }
    ensures steady { OnOk result (S.faults s.new ≡ S.faults s.old) }
    ensures cause { IfErr result (λ e. HasCause (S.left s.old) (S.left s.new) limit (S.faults s.old) (S.faults s.new) e) }
    ensures count { S.faults s.old ≤ S.faults s.new }
{
    let mut bytes = Bytes::new(alloc);
    let mut buffer = [0u8; 8192];
    'pieces: loop {
        let room = (limit - bytes.len()).min(8191) as usize + 1;
        let piece = &mut buffer[..room];
        let n = match s.take(piece) {
            Ok(n) => n,
            Err(_) => return Err(ReadError::ReadFault),
        };
        if n == 0 {
            return Ok(bytes);
        }
        let taken = (bytes.as_slice().len() + n) as u64;
        if taken > limit {
            return Err(ReadError::TooLong { taken });
        }
        if bytes.extend(&buffer[..n]).is_err() {
            return Err(ReadError::NoMemory);
        }
    }
}
