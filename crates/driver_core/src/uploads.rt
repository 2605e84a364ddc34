//! Calls that give a texture or a buffer what was made before their turn (OpenGL ES 1.1, sections 2.9, 3.7.1 and 3.7.2).
ghost use Rattle.std.specs.Prelude.{◌≡◌, ◌<◌, true, Some, IfOk, IsOk, OnOk, OnErr};
ghost use Rattle.egl_calls.specs.declared.kinds.Kind.TheVariants.{Gl as GlCall};
ghost use Rattle.egl_model.specs.Currents.{current_context};
ghost use Rattle.egl_model.specs.GlCalls.{gl_effect};
ghost use Rattle.egl_model.specs.Parts.{part_of};
ghost use Rattle.egl_model.specs.Step.{done, gl_step, step};
ghost use Rattle.egl_model.specs.Sweep.{sweep};
ghost use Rattle.thread_part.specs.Uploads.{upload_of};
ghost use Rattle.driver_core.specs.Costs.{IsCheap};
ghost use Rattle.driver_facts.specs.Memory.{is_bare, is_bare_on};

use crate::machine::Driver;
use egl_calls::arguments::number;
use egl_calls::places::LEVEL;
use egl_calls::{Call, GlKind, Kind, NoMemory, Outcome};
use ref_store::Steps;
use std::alloc::Global;
use std::sync::ledger::Ledger;
use thread_part::{Replies, Upload, bare, valued};

impl Driver {
    /// Does a call that no rule refuses, by what it gives.
    fn give_upload<L: Ledger, R: Replies>(
        &mut self,
        alloc: Global,
        thread: u32,
        context: u64,
        kind: GlKind,
        call: &Call,
        upload: Upload,
        steps: &mut Steps<L>,
    ) -> Result<R, NoMemory>
        requires kind { call.now.kind ≡ GlCall kind }
        requires current { current_context self.old.state thread ≡ Some context }
        requires upload { upload_of (part_of self.old.state thread) call.now ≡ Some upload }
        ensures reply { IfOk result (λ r. R.reply r ≡ done (gl_effect self.old.state thread context kind call.now)) }
        ensures state { OnOk result (self.new ≡ record self.old { state = sweep (gl_effect self.old.state thread context kind call.now).state }) }
        ensures steps { IsCheap self.old.state self.new.state steps.old steps.new }
        ensures err { OnErr result (self.new ≡ self.old) }
    {
        let _ = (thread, kind);
        match upload {
            Upload::Pixels(storage) => {
                self.give_level(context, number(call, LEVEL), Some(storage), steps)?;
                Ok(valued(alloc, 0))
            }
            Upload::Contents(contents) => {
                self.put_contents(context, call, contents);
                self.settled();
                Ok(valued(alloc, 0))
            }
        }
    }

    #[tactic(auto, using(model_laws::proofs::Steps::StepLaws::gl_refused, model_laws::proofs::Steps::StepLaws::gl_done, model_laws::proofs::Steps::StepLaws::gl_without_context))]
    fn gl_step_with_upload<L: Ledger, R: Replies>(
        &mut self,
        alloc: Global,
        thread: u32,
        kind: GlKind,
        call: &Call,
        upload: Upload,
        steps: &mut Steps<L>,
    ) -> Result<R, NoMemory>
        requires made { thread < self.old.made }
        requires kind { call.now.kind ≡ GlCall kind }
        requires upload { upload_of (part_of self.old.state thread) call.now ≡ Some upload }
        ensures reply { IfOk result (λ r. R.reply r ≡ (gl_step self.old.state thread kind call.now).reply) }
        ensures state { OnOk result (self.new ≡ record self.old { state = (gl_step self.old.state thread kind call.now).state }) }
        ensures steps { IsCheap self.old.state self.new.state steps.old steps.new }
        ensures err { OnErr result (self.new ≡ self.old) }
        ensures bare { is_bare_on self.old.state thread (current_context self.old.state thread) kind call.now ≡ true → IsOk result }
    {
        let Some(context) = self.current_context(thread) else {
            return Ok(bare(alloc, Outcome::Done));
        };
        match self.gl_refusal(thread, context, kind, call) {
            Some(error) => {
                self.note_error(context, error);
                Ok(bare(alloc, Outcome::Gl(error)))
            }
            None => self.give_upload(alloc, thread, context, kind, call, upload, steps),
        }
    }

    /// The same of a call of any kind that gives something.
    pub(crate) fn step_in_with_upload<L: Ledger, R: Replies>(
        &mut self,
        alloc: Global,
        thread: u32,
        call: &Call,
        upload: Upload,
        steps: &mut Steps<L>,
    ) -> Result<R, NoMemory>
        requires made { thread < self.old.made }
        requires upload { upload_of (part_of self.old.state thread) call.now ≡ Some upload }
        ensures reply { IfOk result (λ r. R.reply r ≡ (step self.old.state thread call.now).reply) }
        ensures state { OnOk result (self.new ≡ record self.old { state = (step self.old.state thread call.now).state }) }
        ensures steps { IsCheap self.old.state self.new.state steps.old steps.new }
        ensures err { OnErr result (self.new ≡ self.old) }
        ensures bare { is_bare self.old.state thread call.now.kind call.now ≡ true → IsOk result }
    {
        let Kind::Gl(kind) = call.kind else {
            unreachable!()
        };
        self.gl_step_with_upload(alloc, thread, kind, call, upload, steps)
    }
}
