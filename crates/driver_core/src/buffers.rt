//! Buffers (OpenGL ES 1.1, sections 2.9 and 6.1.12).
ghost use Rattle.std.specs.Prelude.{◌≡◌, ◌<◌, None, IfOk, OnErr, OnOk, Some};
ghost use Rattle.egl_calls.specs.declared.kinds.Kind.TheVariants.{Gl as GlCall, Own as OwnCall};
ghost use Rattle.egl_calls.specs.declared.kinds.GlKind.TheVariants.{BufferSubData};
ghost use Rattle.egl_calls.specs.declared.kinds.OwnKind.TheVariants.{ReadBuffer};
ghost use Rattle.egl_model.specs.Buffers.{set_data, set_part_of, target_buffer};
ghost use Rattle.egl_model.specs.GlCalls.{gl_refusal};
ghost use Rattle.egl_model.specs.Step.{own_step};
ghost use Rattle.driver_core.specs.Uploads.{refilled};

use crate::machine::Driver;
use buffer_objects::Buffer;
use egl_calls::{Call, NoMemory, Outcome};
use std::alloc::Global;
use thread_part::{Replies, bare, new_contents, read};

impl Driver {
    fn put_contents_of(&mut self, buffer: u64, contents: Buffer)
        ensures { self.new ≡ record self.old { state = refilled contents (Some buffer) self.old.state } }
    {
        self.tables.objects.put_contents(buffer, contents);
    }

    /// Makes the buffer on which a glBufferData works what that leaves. It takes no memory.
    pub(crate) fn put_contents(&mut self, context: u64, call: &Call, contents: Buffer)
        ensures { self.new ≡ record self.old { state = refilled contents (target_buffer self.old.state context call.now) self.old.state } }
    {
        match self.tables.target_buffer(context, call) {
            Some(buffer) => self.put_contents_of(buffer, contents),
            None => (),
        }
    }

    /// Gives the buffer on which a glBufferData works its contents.
    pub(crate) fn set_data(
        &mut self,
        alloc: Global,
        context: u64,
        call: &Call,
    ) -> Result<(), NoMemory>
        ensures ok { OnOk result (self.new ≡ record self.old { state = set_data call.now (target_buffer self.old.state context call.now) self.old.state }) }
        ensures err { OnErr result (self.new ≡ self.old) }
    {
        let contents = new_contents(alloc, call)?;
        self.put_contents(context, call, contents);
        Ok(())
    }

    /// Writes the part of a buffer's contents that a glBufferSubData gives.
    pub(crate) fn set_part_of(&mut self, thread: u32, context: u64, call: &Call)
        requires kind { call.now.kind ≡ GlCall BufferSubData }
        requires allowed { gl_refusal self.old.state thread context BufferSubData call.now ≡ None }
        ensures { self.new ≡ record self.old { state = set_part_of call.now (target_buffer self.old.state context call.now) self.old.state } }
    {
        let _ = thread;
        match self.tables.target_buffer(context, call) {
            Some(buffer) => self.tables.objects.set_part_of(buffer, call),
            None => (),
        }
    }

    /// Does a `readBuffer`: it changes nothing, but a refusal is kept as one of OpenGL ES.
    #[tactic(auto, using(model_laws::proofs::Steps::StepLaws::buffer_refused, model_laws::proofs::Steps::StepLaws::buffer_done, model_laws::proofs::Steps::StepLaws::buffer_without_context))]
    pub(crate) fn read_buffer<R: Replies>(
        &mut self,
        alloc: Global,
        thread: u32,
        call: &Call,
    ) -> Result<R, NoMemory>
        requires made { thread < self.old.made }
        requires kind { call.now.kind ≡ OwnCall ReadBuffer }
        ensures reply { IfOk result (λ r. R.reply r ≡ (own_step self.old.state thread ReadBuffer call.now).reply) }
        ensures state { OnOk result (self.new ≡ record self.old { state = (own_step self.old.state thread ReadBuffer call.now).state }) }
        ensures err { OnErr result (self.new ≡ self.old) }
    {
        let Some(context) = self.current_context(thread) else {
            return Ok(bare(alloc, Outcome::Done));
        };
        match self.buffer_refusal(thread, context, call) {
            Some(error) => {
                self.note_error(context, error);
                Ok(bare(alloc, Outcome::Gl(error)))
            }
            None => {
                self.settled();
                read(alloc, self.tables.part_read(alloc, thread, context, call)?)
            }
        }
    }
}
