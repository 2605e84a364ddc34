//! What is asked of the driver, and what it keeps tells.
ghost use Rattle.std.specs.Prelude.{◌≡◌, ◌<◌, true, IfOk, IsOk};
ghost use Rattle.egl_calls.specs.declared.kinds.Kind.TheVariants.{Egl as EglCall, Gl as GlCall, Own as OwnCall};
ghost use Rattle.egl_calls.specs.declared.kinds.OwnKind.TheVariants.{ReadBuffer};
ghost use Rattle.egl_model.specs.Currents.{current_context, part_of_context};
ghost use Rattle.egl_model.specs.EglCalls.{egl_refusal};
ghost use Rattle.egl_model.specs.GlCalls.{gl_refusal};
ghost use Rattle.egl_model.specs.OwnCalls.{buffer_refusal};
ghost use Rattle.egl_model.specs.State.{record_of};
ghost use Rattle.egl_model.specs.Waits.{is_ready};
ghost use Rattle.driver_facts.specs.Memory.{is_bare};
ghost use Rattle.driver_facts.specs.Touches.{touches_of};
ghost use Rattle.driver_facts.specs.Verdicts.{refusals};
ghost use Rattle.driver_facts.specs.Found.{IsFound};

use crate::machine::Driver;
use context_state::ContextPart;
use driver_facts::{EglFound, Refusals, Touches};
use egl_calls::{Call, EglError, EglKind, GlError, GlKind, NoMemory};
use egl_model::ThreadRecord;
use std::alloc::Global;

impl Driver {
    /// Which rows of a call's table hold as the driver stands. The first of them is what refuses the call; where none holds it isn't refused. It takes no memory and changes nothing.
    pub fn refusals(&self, thread: u32, call: &Call) -> Refusals
        requires { thread < self.now.made }
        ensures { result ≡ refusals self.now.state thread call.now }
    {
        self.tables.refusals(thread, call)
    }

    /// What a call of a thread reads and writes, as the driver is before it. A call that would be refused or would wait touches nothing. It changes nothing, and memory is wanted for the lists alone.
    pub fn touches(&self, alloc: Global, thread: u32, call: &Call) -> Result<Touches, NoMemory>
        requires { thread < self.now.made }
        ensures touched { IfOk result (λ x. x ≡ touches_of self.now.state thread call.now) }
        ensures bare { is_bare self.now.state thread call.now.kind call.now ≡ true → IsOk result }
    {
        self.tables.touches(alloc, thread, call)
    }

    /// Whether a thread waits for a sync that is signalled, so that its wait can end.
    pub fn wait_ready(&self, thread: u32) -> bool
        requires { thread < self.now.made }
        ensures { result ≡ is_ready self.now.state thread }
    {
        self.tables.wait_ready(thread)
    }

    /// What is kept for a thread.
    pub(crate) fn record(&self, thread: u32) -> ThreadRecord
        requires { thread < self.now.made }
        ensures { result ≡ record_of self.now.state thread }
    {
        self.tables.record(thread)
    }

    /// The object of the current context.
    pub(crate) fn current_context(&self, thread: u32) -> Option<u64>
        requires { thread < self.now.made }
        ensures { result ≡ current_context self.now.state thread }
    {
        self.tables.current_context(thread)
    }

    /// What a context keeps for itself.
    pub(crate) fn context_part(&self, context: u64) -> Option<ContextPart>
        ensures { result ≡ part_of_context self.now.state context }
    {
        self.tables.context_part(context)
    }

    /// The error by which a call of EGL is refused.
    pub(crate) fn egl_refusal(
        &self,
        thread: u32,
        kind: EglKind,
        call: &Call,
        found: &EglFound,
    ) -> Option<EglError>
        requires made { thread < self.now.made }
        requires kind { call.now.kind ≡ EglCall kind }
        requires found { IsFound self.now.state call.now found.now }
        ensures { result ≡ egl_refusal self.now.state thread kind call.now }
    {
        self.tables.egl_refusal(thread, kind, call, found)
    }

    /// The error by which a call of OpenGL ES is refused.
    pub(crate) fn gl_refusal(
        &self,
        thread: u32,
        context: u64,
        kind: GlKind,
        call: &Call,
    ) -> Option<GlError>
        requires made { thread < self.now.made }
        requires kind { call.now.kind ≡ GlCall kind }
        ensures { result ≡ gl_refusal self.now.state thread context kind call.now }
    {
        self.tables.gl_refusal(thread, context, kind, call)
    }

    /// The error by which a `readBuffer` is refused.
    pub(crate) fn buffer_refusal(&self, thread: u32, context: u64, call: &Call) -> Option<GlError>
        requires made { thread < self.now.made }
        requires kind { call.now.kind ≡ OwnCall ReadBuffer }
        ensures { result ≡ buffer_refusal self.now.state thread context call.now }
    {
        self.tables.buffer_refusal(thread, context, call)
    }
}
