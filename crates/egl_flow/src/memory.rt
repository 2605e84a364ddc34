//! A source and a sink in memory, which fail at listed calls.
ghost use Rattle.std.specs.Prelude.{◌≡◌, ◌+◌, ◌-◌, ◌*◌, ◌<◌, ◌≤◌, ◌==◌, ◌||◌, ◌&&◌, not, Some, [], ◌++◌, length, take, drop, min, IfOk, OnOk, OnErr, is_err, vec_len, vec_capacity};
ghost use Rattle.egl_flow.specs.Flow.{HasRisen, Gave, AtEnd, Took};
ghost use Rattle.egl_flow.specs.Memory.{is_listed, raised};

use crate::reading::{Failed, Source};
use crate::writing::Sink;
use egl_calls::{Bytes, NoMemory, Numbers};
use std::alloc::Global;
use std::marker::Model;

/// Whether a call's number, from 0, is in the list of those that fail.
fn is_listed(fails: &[i64], call: u64) -> bool
    ensures { result ≡ is_listed fails.now call }
{
    for z in fails {
        if *z >= 0 && *z as u64 == call {
            return true;
        }
    }
    false
}

fn copy_front(into: &mut [u8], from: &[u8]) -> usize
    ensures count { result ≡ min (length into.old) (length from.now) }
    ensures piece { take result into.new ≡ take result from.now }
{
    let n = into.len().min(from.len());
    into[..n].copy_from_slice(&from[..n]);
    n
}

/// A source over bytes. Each call gives as many bytes as fit, and takes no memory.
pub struct MemorySource {
    bytes: Bytes,
    at: usize,
    fails: Numbers,
    calls: u64,
    faults: u64,
}

// Written out, so that no crate above proves the drops of what it owns.
impl Drop for MemorySource {
    fn drop(self) {
        let MemorySource {
            bytes: _,
            at: _,
            fails: _,
            calls: _,
            faults: _,
        } = self;
    }
}

impl Model for MemorySource {
    ghost use Rattle.std.specs.Prelude.{length, drop, ◌≤◌};
    ghost use Rattle.egl_flow.specs.Memory.{SourceValue};

    ghost Value = { SourceValue };

    ghost view = { λ s. record { left = drop s.at s.bytes; fails = s.fails; calls = s.calls; faults = s.faults } };

    ghost invariant = { λ s. s.at ≤ length s.bytes };
}

impl MemorySource {
    /// `fails` lists the calls of `take`, counted from 0, that fail.
    pub fn new(bytes: Bytes, fails: Numbers) -> MemorySource
        ensures { result ≡ record { left = bytes; fails = fails; calls = 0; faults = 0 } }
    {
        MemorySource {
            bytes,
            at: 0,
            fails,
            calls: 0,
            faults: 0,
        }
    }
}

impl Source for MemorySource {
    ghost left = { λ s. Some s.left };

    ghost faults = { λ s. s.faults };

    fn take(&mut self, into: &mut [u8]) -> Result<usize, Failed>
        ensures within { IfOk result (λ n. n ≤ length into.old) }
        ensures moved { IfOk result (λ n. Gave (Some self.old.left) (take n into.new) (Some self.new.left)) }
        ensures ended { IfOk result (λ n. n ≡ 0 → 0 < length into.old → AtEnd (Some self.new.left)) }
        ensures steady { OnOk result (self.new.faults ≡ self.old.faults) }
        ensures failed { OnErr result (HasRisen self.old.faults self.new.faults) }
        ensures count { self.old.faults ≤ self.new.faults }
        ensures listed { is_err result ≡ is_listed self.old.fails self.old.calls }
        ensures full { IfOk result (λ n. n ≡ min (length into.old) (length self.old.left)) }
        ensures kept { OnErr result (self.new.left ≡ self.old.left) }
        ensures calls { self.new.calls ≡ raised self.old.calls }
        ensures fails { self.new.fails ≡ self.old.fails }
    {
        let call = self.calls;
        self.calls = self.calls.saturating_add(1);
        if is_listed(self.fails.as_slice(), call) {
            self.faults = self.faults.saturating_add(1);
            return Err(Failed);
        }
        let (_, rest) = self.bytes.as_slice().split_at(self.at);
        let n = copy_front(into, rest);
        self.at += n;
        Ok(n)
    }
}

/// A sink with room for some bytes. Each call takes as many bytes as fit, and no memory.
pub struct MemorySink {
    bytes: Vec<u8>,
    room: usize,
    fails: Numbers,
    calls: u64,
    faults: u64,
}

// Written out, so that no crate above proves the drops of what it owns.
impl Drop for MemorySink {
    fn drop(self) {
        let MemorySink {
            bytes: _,
            room: _,
            fails: _,
            calls: _,
            faults: _,
        } = self;
    }
}

impl Model for MemorySink {
    ghost use Rattle.std.specs.Prelude.{vec_len, vec_capacity, ◌+◌, ◌≤◌};
    ghost use Rattle.egl_flow.specs.Memory.{SinkValue};

    ghost Value = { SinkValue };

    ghost view = { λ s. record { taken = s.bytes.items; room = s.room; fails = s.fails; calls = s.calls; faults = s.faults } };

    // The memory for the room is there.
    ghost invariant = { λ s. vec_len s.bytes + s.room ≤ vec_capacity s.bytes };
}

impl MemorySink {
    /// Takes the memory for `room` bytes now. `fails` lists the calls of `give`, counted from 0, that fail.
    pub fn new(alloc: Global, room: u64, fails: Numbers) -> Result<MemorySink, NoMemory>
        ensures { IfOk result (λ s. s ≡ record { taken = []; room = room; fails = fails; calls = 0; faults = 0 }) }
    {
        match Vec::with_capacity(alloc, room as usize) {
            Ok(bytes) => Ok(MemorySink {
                bytes,
                room: room as usize,
                fails,
                calls: 0,
                faults: 0,
            }),
            Err(_) => Err(NoMemory),
        }
    }

    /// What it has taken.
    pub fn taken(&self) -> &[u8]
        ensures { result.now ≡ self.now.taken }
    {
        self.bytes.as_slice()
    }
}

fn put_front(bytes: &mut Vec<u8>, piece: &[u8], room: usize) -> usize
    requires { vec_len bytes.old + room ≤ vec_capacity bytes.old }
    ensures count { result ≡ min (length piece.now) room }
    ensures items { bytes.new.items ≡ bytes.old.items ++ take result piece.now }
    ensures room { vec_len bytes.new + (room - result) ≤ vec_capacity bytes.new }
{
    let n = piece.len().min(room);
    match bytes.extend_from_slice(&piece[..n]) {
        Ok(()) => n,
        Err(_) => unreachable!(),
    }
}

impl Sink for MemorySink {
    ghost taken = { λ s. Some s.taken };

    ghost faults = { λ s. s.faults };

    fn give(&mut self, piece: &[u8]) -> Result<usize, Failed>
        ensures within { IfOk result (λ n. n ≤ length piece.now) }
        ensures some { IfOk result (λ n. 0 < length piece.now → 0 < n) }
        ensures added { IfOk result (λ n. Took (Some self.old.taken) (take n piece.now) (Some self.new.taken)) }
        ensures kept { OnErr result (Took (Some self.old.taken) [] (Some self.new.taken)) }
        ensures failed { OnErr result (HasRisen self.old.faults self.new.faults) }
        ensures count { self.old.faults ≤ self.new.faults }
        ensures refused { is_err result ≡ (is_listed self.old.fails self.old.calls || ((self.old.room == 0) && not (length piece.now == 0))) }
        ensures full { IfOk result (λ n. n ≡ min (length piece.now) self.old.room) }
        ensures room { IfOk result (λ n. self.new.room + n ≡ self.old.room) }
        ensures calls { self.new.calls ≡ raised self.old.calls }
        ensures fails { self.new.fails ≡ self.old.fails }
    {
        let call = self.calls;
        self.calls = self.calls.saturating_add(1);
        if is_listed(self.fails.as_slice(), call) {
            self.faults = self.faults.saturating_add(1);
            return Err(Failed);
        }
        if self.room == 0 && !piece.is_empty() {
            self.faults = self.faults.saturating_add(1);
            return Err(Failed);
        }
        let n = put_front(&mut self.bytes, piece, self.room);
        self.room -= n;
        Ok(n)
    }
}
