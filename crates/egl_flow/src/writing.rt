//! Sinks of bytes.
ghost use Rattle.std.specs.Prelude.{ℕ, ◌+◌, ◌-◌, ◌<◌, ◌≤◌, List, [], length, take, Option, IfOk, OnOk, OnErr};
ghost use Rattle.egl_flow.specs.Flow.{HasRisen, Took, TookFront};

use crate::reading::Failed;
use egl_calls::Bytes;

/// Where bytes go.
pub trait Sink {
    /// The bytes that it has taken so far, where the sink tells them. One that tells them goes on telling.
    ghost taken: { Self → Option (List ℕ) };
    /// How often it has failed. The count never falls, and stands still at the last value of a u64.
    ghost faults: { Self → ℕ };

    /// Gives it some bytes from the front of a piece, and says how many. Where it would take none of a piece with bytes, it fails.
    fn give(&mut self, piece: &[u8]) -> Result<usize, Failed>
        ensures within { IfOk result (λ n. n ≤ length piece.now) }
        ensures some { IfOk result (λ n. 0 < length piece.now → 0 < n) }
        ensures added { IfOk result (λ n. Took (taken self.old) (take n piece.now) (taken self.new)) }
        ensures kept { OnErr result (Took (taken self.old) [] (taken self.new)) }
        ensures failed { OnErr result (HasRisen (faults self.old) (faults self.new)) }
        ensures count { faults self.old ≤ faults self.new };
}

/// A call of the sink failed. What it took is a prefix of the bytes, and not all of them.
#[derive(Clone, Copy, Debug, PartialEq, Eq, Drop)]
pub struct WriteFault;

/// Gives all bytes of a slice to a sink. It takes no memory.
#[tactic(auto, using(crate::proofs::FlowLaws::took_more))]
pub fn write_slice<K: Sink>(k: &mut K, all: &[u8]) -> Result<(), WriteFault>
    ensures all { OnOk result (Took (K.taken k.old) all.now (K.taken k.new)) }
    ensures front { OnErr result (TookFront (K.taken k.old) all.now (K.taken k.new)) }
    ensures fault { OnErr result (HasRisen (K.faults k.old) (K.faults k.new)) }
    ensures count { K.faults k.old ≤ K.faults k.new }
{
    let mut at = 0;
    'pieces: while at < all.len() {
        let (_, rest) = all.split_at(at);
        match k.give(rest) {
            Ok(n) => at += n,
            Err(_) => return Err(WriteFault),
        }
    }
    Ok(())
}

/// Gives all bytes to a sink. It takes no memory.
pub fn write_all<K: Sink>(k: &mut K, bytes: &Bytes) -> Result<(), WriteFault>
    ensures all { OnOk result (Took (K.taken k.old) bytes.now (K.taken k.new)) }
    ensures front { OnErr result (TookFront (K.taken k.old) bytes.now (K.taken k.new)) }
    ensures fault { OnErr result (HasRisen (K.faults k.old) (K.faults k.new)) }
    ensures count { K.faults k.old ≤ K.faults k.new }
{
    write_slice(k, bytes.as_slice())
}
