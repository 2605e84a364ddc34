//! Calls whose payloads aren't in memory yet.
ghost use Rattle.std.specs.Prelude.{◌≡◌, ◌≤◌, IfOk};
ghost use Rattle.trace_reader.specs.Payloads.{most_line_payload, payload_bytes};

use crate::line_calls::LineCall;
use crate::payloads::PayloadWord;
use egl_calls::{Kind, NoMemory, Numbers};
use std::alloc::Global;
use std::marker::Model;

/// A call as a line says it, with how many numbers it has. Its value is the call; its payload isn't in memory yet.
#[derive(Drop)]
pub struct Draft<'a> {
    pub kind: Kind,
    pub args: [i64; 8],
    pub count: usize,
    pub list: Numbers,
    pub payload: PayloadWord<'a>,
}

impl<'a> Model for Draft<'a> {
    ghost use Rattle.std.specs.Prelude.{◌≡◌, ◌≤◌, All, take};
    ghost use Rattle.egl_calls.specs.Calls.{CallValue};
    ghost use Rattle.egl_calls.specs.Ranges.{IsNumber, AreArguments};
    ghost use Rattle.trace_reader.specs.Arguments.{padded};

    ghost Value = { CallValue };

    ghost view = { λ d. record { kind = d.kind; args = d.args; list = d.list; bytes = d.payload } };

    ghost invariant = { λ d. AreArguments d.kind 0 d.args × All IsNumber d.list × (d.count ≤ 8) × (d.args ≡ padded (take d.count d.args)) };
}

impl<'a> Draft<'a> {
    /// How many bytes the payload has.
    pub fn payload_size(&self) -> u128
        ensures { result ≡ payload_bytes self.now }
    {
        self.payload.size()
    }

    /// The call, with its payload in memory.
    pub fn into_call(self, alloc: Global) -> Result<LineCall, NoMemory>
        requires { payload_bytes self ≤ most_line_payload }
        ensures { IfOk result (λ c. c ≡ self.entry) }
    {
        let bytes = self.payload.into_payload(alloc)?;
        let list = self.list.as_slice();
        LineCall::new(alloc, self.kind, &self.args, self.count, list, bytes)
    }
}
