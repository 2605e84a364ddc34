//! The calls of a context's own state, and glClear and glReadPixels (OpenGL ES 1.1, sections 4.2.3 and 4.3.1).
ghost use Rattle.std.specs.Prelude.{◌≡◌, ◌<◌, None, IfOk};
ghost use Rattle.egl_calls.specs.declared.kinds.Kind.TheVariants.{Gl as GlCall};
ghost use Rattle.egl_calls.specs.declared.kinds.GlKind.TheVariants.{ReadPixels};
ghost use Rattle.egl_model.specs.GlCalls.{gl_refusal};
ghost use Rattle.egl_model.specs.Currents.{part_of_context};
ghost use Rattle.egl_model.specs.Drawing.{read_pixels};
ghost use Rattle.driver_facts.specs.Tables.{state_in};

use crate::tables::Tables;
use context_state::ContextPart;
use egl_calls::{Bytes, Call, NoMemory};
use std::alloc::Global;
use thread_part::{read_form, read_rect};

impl Tables {
    pub fn context_part(&self, context: u64) -> Option<ContextPart>
        ensures { result ≡ part_of_context (state_in self.now) context }
    {
        self.objects.part(context)
    }

    /// Reads what the thread reads from.
    pub fn read_pixels(
        &self,
        alloc: Global,
        thread: u32,
        context: u64,
        call: &Call,
    ) -> Result<Bytes, NoMemory>
        requires made { thread < self.now.threads.made }
        requires kind { call.now.kind ≡ GlCall ReadPixels }
        requires allowed { gl_refusal (state_in self.now) thread context ReadPixels call.now ≡ None }
        ensures { IfOk result (λ b. b ≡ read_pixels (state_in self.now) thread context call.now) }
    {
        match self.bound_framebuffer(thread).read {
            Some(storage) => self.objects.read(
                alloc,
                storage,
                read_rect(call),
                read_form(call),
                self.objects.alignments(context).pack,
            ),
            None => Ok(Bytes::new(alloc)),
        }
    }
}
