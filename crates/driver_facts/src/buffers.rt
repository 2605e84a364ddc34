//! Buffers (OpenGL ES 1.1, sections 2.9 and 6.1.12).
ghost use Rattle.std.specs.Prelude.{◌≡◌, ◌<◌, None, IfOk, Some, is_some, length, option_copied, pos, unwrap_or};
ghost use Rattle.std.specs.Option.{option_map_or};
ghost use Rattle.egl_calls.specs.Ranges.{IsNumber};
ghost use Rattle.egl_calls.specs.declared.kinds.Kind.TheVariants.{Own as OwnCall};
ghost use Rattle.egl_calls.specs.declared.kinds.OwnKind.TheVariants.{ReadBuffer};
ghost use Rattle.egl_model.specs.Buffers.{buffer_of, buffer_parameter, part_read, target_buffer};
ghost use Rattle.egl_model.specs.OwnCalls.{buffer_refusal};
ghost use Rattle.driver_facts.specs.Tables.{state_in};

use crate::tables::Tables;
use buffer_objects::Buffer;
use driver_objects::buffer_target;
use egl_calls::arguments::{number, signed};
use egl_calls::places::{BOUND_PNAME, TARGET};
use egl_calls::{Bytes, Call, GlError, NoMemory};
use std::alloc::Global;

impl Tables {
    /// The number of the buffer on which a call works: of what the context has bound to the call's target.
    pub fn target_buffer(&self, context: u64, call: &Call) -> Option<u64>
        ensures { result ≡ target_buffer (state_in self.now) context call.now }
    {
        match self.objects.context(context) {
            Some(context) => buffer_target(number(call, TARGET)).bound(&context.bound),
            None => None,
        }
    }

    /// That buffer.
    fn buffer_of(&self, context: u64, call: &Call) -> Option<&Buffer>
        ensures { option_copied result ≡ buffer_of (state_in self.now) context call.now }
    {
        match self.target_buffer(context, call) {
            Some(buffer) => self.objects.buffer(buffer),
            None => None,
        }
    }

    /// Whether there is one.
    pub(crate) fn is_buffer_bound(&self, context: u64, call: &Call) -> bool
        ensures { result ≡ is_some (buffer_of (state_in self.now) context call.now) }
    {
        self.buffer_of(context, call).is_some()
    }

    /// How many bytes it has; 0 where there is none.
    pub(crate) fn buffer_size(&self, context: u64, call: &Call) -> u64
        ensures { result ≡ option_map_or (λ b. length b.contents) (buffer_of (state_in self.now) context call.now) 0 }
    {
        match self.buffer_of(context, call) {
            Some(buffer) => buffer.size(),
            None => 0,
        }
    }

    /// The value of a parameter of the buffer on which a call works; 0 where there is none.
    pub fn buffer_parameter(&self, context: u64, call: &Call) -> i64
        ensures value { result ≡ unwrap_or (buffer_parameter call.now (buffer_of (state_in self.now) context call.now)) (pos 0) }
        ensures number { IsNumber result }
    {
        match self.buffer_of(context, call) {
            Some(buffer) => buffer.parameter(signed(call, BOUND_PNAME)).unwrap_or(0),
            None => 0,
        }
    }

    /// The error by which a `readBuffer` is refused.
    #[tactic(auto, using(crate::proofs::Asked::buffer_judged))]
    pub fn buffer_refusal(&self, thread: u32, context: u64, call: &Call) -> Option<GlError>
        requires made { thread < self.now.threads.made }
        requires kind { call.now.kind ≡ OwnCall ReadBuffer }
        ensures { result ≡ buffer_refusal (state_in self.now) thread context call.now }
    {
        self.gl_verdict(thread, context, call)
    }

    /// The part of a buffer's contents that a `readBuffer` asks for.
    pub fn part_read(
        &self,
        alloc: Global,
        thread: u32,
        context: u64,
        call: &Call,
    ) -> Result<Bytes, NoMemory>
        requires kind { call.now.kind ≡ OwnCall ReadBuffer }
        requires allowed { buffer_refusal (state_in self.now) thread context call.now ≡ None }
        ensures { IfOk result (λ b. b ≡ part_read call.now (buffer_of (state_in self.now) context call.now)) }
    {
        let _ = thread;
        match self.target_buffer(context, call) {
            Some(buffer) => self.objects.read_part(alloc, buffer, call),
            None => Ok(Bytes::new(alloc)),
        }
    }
}
