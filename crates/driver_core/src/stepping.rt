//! One call of one thread.
ghost use Rattle.std.specs.Prelude.{◌≡◌, ◌<◌, true, None, Some, is_none, is_some, IfOk, IfSome, IsOk, OnOk, OnErr, false, All, slice_index_or};
ghost use Rattle.driver_core.specs.Costs.{IsCheap, IsBounded};
ghost use Rattle.driver_core.specs.Releases.{links, releases, tells_effect};
ghost use Rattle.call_table.specs.Roles.{destroyed};
ghost use Rattle.call_table.specs.Rows.{egl_role, gl_role};
ghost use Rattle.egl_model.specs.Sweep.{sweep};
ghost use Rattle.thread_part.specs.Memory.{clears_nothing};
ghost use Rattle.thread_part.specs.Uploads.{upload_of};
ghost use Rattle.driver_facts.specs.Found.{IsFound};
ghost use Rattle.driver_facts.specs.Memory.{clears_own, egl_takes_no_memory, gl_clears_own, gl_takes_no_memory, takes_no_memory, is_bare, is_bare_on};
ghost use Rattle.context_state.specs.Kinds.{context_gl_call};
ghost use Rattle.egl_calls.specs.declared.kinds.Kind.TheVariants.{Egl as EglCall, Gl as GlCall};
ghost use Rattle.egl_calls.specs.Ranges.{IsNumber};
ghost use Rattle.attrib_lists.specs.Lists.{bad_place};
ghost use Rattle.attrib_lists.specs.declared.allowed.Allowed.TheVariants.{Config};
ghost use Rattle.config_match.specs.Configs.{chosen};
ghost use Rattle.egl_model.specs.EglCalls.{egl_refusal, egl_effect};
ghost use Rattle.egl_model.specs.GlCalls.{gl_refusal, gl_effect, object_effect};
ghost use Rattle.egl_model.specs.Step.{egl_step, gl_step, step, step_by, done};
ghost use Rattle.egl_model.specs.Currents.{current_context};
ghost use Rattle.egl_model.specs.Parts.{part_of};
ghost use Rattle.egl_model.specs.State.{State, record_of};
ghost use Rattle.model_laws.specs.Sound.{IsSound};
ghost use Rattle.model_laws.specs.Hidden.{hide};
ghost use Rattle.driver_core.specs.Machine.{outs};

use crate::machine::Driver;
use attrib_lists::AttribError;
use call_table::{Role, egl_role, gl_role};
use config_match::Configs;
use context_state::context_gl_call;
use driver_facts::{EglFound, attribute_value, name_of};
use driver_objects::target_of;
use egl_calls::arguments::number;
use egl_calls::places::{ASKED_NAME, TARGET};
use egl_calls::{
    Call, EglError, EglKind, GlKind, Kind, NoMemory, Numbers, Outcome, OwnKind, Reply, ReplyPair,
};
use ref_store::Steps;
use share_group::NameKind;
use std::alloc::Global;
use std::sync::ledger::Ledger;
use thread_part::{Replies, Upload, answered, api_code, bare, display_of, read, valued};

/// The ids of the configs that a list chooses, where the list is allowed.
fn chosen(alloc: Global, call: &Call) -> Result<Numbers, NoMemory>
    requires { bad_place Config call.now.list ≡ None }
    ensures ids { IfOk result (λ ids. ids ≡ chosen call.now.list) }
    ensures numbers { IfOk result (λ ids. All IsNumber ids) }
{
    match Configs::standard().choose(alloc, &call.list) {
        Ok(ids) => Ok(ids),
        Err(AttribError::NoMemory) => Err(NoMemory),
        Err(AttribError::BadAttribute { place: _ }) => unreachable!(),
    }
}

impl Driver {
    /// Does a call of EGL that no rule refuses and that releases nothing.
    #[tactic(auto, using(driver_facts::proofs::Allowed::initialize_display, driver_facts::proofs::Allowed::choice_list, driver_facts::proofs::Allowed::window_display, driver_facts::proofs::Allowed::window_numbers, driver_facts::proofs::Allowed::window_range, driver_facts::proofs::Allowed::window_place, driver_facts::proofs::Allowed::pbuffer_display, driver_facts::proofs::Allowed::pbuffer_numbers, driver_facts::proofs::Allowed::pbuffer_range, driver_facts::proofs::Allowed::context_display, driver_facts::proofs::Allowed::context_numbers, driver_facts::proofs::Allowed::context_range, model_laws::proofs::Waits::NewSyncLaws::sync_display, model_laws::proofs::Waits::NewSyncLaws::sync_current, model_laws::proofs::Waits::NewSyncLaws::sync_numbers, driver_facts::proofs::ImageLaws::image_display, driver_facts::proofs::ImageLaws::image_numbers, driver_facts::proofs::ImageLaws::image_source))]
    fn egl_effect_keeping_holds<R: Replies>(
        &mut self,
        alloc: Global,
        thread: u32,
        kind: EglKind,
        call: &Call,
        found: &EglFound,
    ) -> Result<R, NoMemory>
        requires made { thread < self.old.made }
        requires kind { call.now.kind ≡ EglCall kind }
        requires found { IsFound self.old.state call.now found.now }
        requires allowed { egl_refusal self.old.state thread kind call.now ≡ None }
        requires keeps { releases kind ≡ false }
        requires goes { (record_of self.old.state thread).wait ≡ None }
        ensures reply { IfOk result (λ r. R.reply r ≡ done (egl_effect self.old.state thread kind call.now)) }
        ensures state { OnOk result (self.new ≡ record self.old { state = (egl_effect self.old.state thread kind call.now).state }) }
        ensures err { OnErr result (self.new ≡ self.old) }
        ensures memory { egl_takes_no_memory kind ≡ true → IsOk result }
    {
        match kind {
            EglKind::GetError => Ok(valued(alloc, i64::from(self.record(thread).error.code()))),
            EglKind::GetDisplay => Ok(valued(alloc, display_of(call))),
            EglKind::Initialize => {
                self.initialize(call);
                Ok(valued(alloc, 1))
            }
            EglKind::GetConfigs => answered(alloc, 1, Configs::standard().all(alloc)?),
            EglKind::ChooseConfig => answered(alloc, 1, chosen(alloc, call)?),
            EglKind::GetConfigAttrib => Ok(valued(alloc, attribute_value(call))),
            EglKind::CreateWindowSurface => Ok(valued(alloc, self.create_window(alloc, call)?)),
            EglKind::CreatePbufferSurface => Ok(valued(alloc, self.create_pbuffer(alloc, call)?)),
            EglKind::QuerySurface => Ok(valued(
                alloc,
                self.tables.surface_value(call).unwrap_or(0),
            )),
            EglKind::SurfaceAttrib => {
                self.set_attribute(call);
                Ok(valued(alloc, 1))
            }
            EglKind::BindApi => Ok(valued(alloc, 1)),
            EglKind::QueryApi => Ok(valued(alloc, api_code(self.record(thread).api))),
            EglKind::CreateContext => Ok(valued(alloc, self.create_context(alloc, call)?)),
            EglKind::GetCurrentContext => Ok(valued(alloc, self.tables.current_number(thread))),
            EglKind::GetCurrentSurface => Ok(valued(
                alloc,
                self.tables.surface_number(thread, call),
            )),
            EglKind::GetCurrentDisplay => Ok(valued(alloc, self.tables.current_display(thread))),
            EglKind::QueryContext => Ok(valued(
                alloc,
                self.tables.context_value(call).unwrap_or(0),
            )),
            EglKind::SwapBuffers => {
                self.swap(thread);
                self.flush(thread);
                Ok(valued(alloc, 1))
            }
            EglKind::WaitClient => {
                self.flush(thread);
                Ok(valued(alloc, 1))
            }
            EglKind::CreateSync => Ok(valued(alloc, self.create_sync(thread, call)?)),
            EglKind::ClientWaitSync => Ok(self.client_wait(alloc, thread, call)),
            EglKind::WaitSync => {
                self.serve(call);
                Ok(valued(alloc, 1))
            }
            EglKind::GetSyncAttrib => Ok(valued(alloc, self.tables.sync_value(call).unwrap_or(0))),
            EglKind::CreateImage => Ok(valued(alloc, self.create_image(call, found)?)),
            _ => unreachable!(),
        }
    }

    /// Does a call of EGL that makes current, or that lets go of all.
    #[tactic(auto, using(driver_facts::proofs::Allowed::terminate_display))]
    fn let_go<L: Ledger, R: Replies>(
        &mut self,
        alloc: Global,
        thread: u32,
        kind: EglKind,
        call: &Call,
        found: &EglFound,
        steps: &mut Steps<L>,
    ) -> R
        requires made { thread < self.old.made }
        requires kind { call.now.kind ≡ EglCall kind }
        requires found { IsFound self.old.state call.now found.now }
        requires allowed { egl_refusal self.old.state thread kind call.now ≡ None }
        requires goes { (record_of self.old.state thread).wait ≡ None }
        requires releases { releases kind ≡ true }
        requires keeps { is_none (destroyed (egl_role kind)) ≡ true }
        ensures reply { R.reply result ≡ done (egl_effect self.old.state thread kind call.now) }
        ensures state { self.new ≡ record self.old { state = sweep (egl_effect self.old.state thread kind call.now).state } }
        ensures steps { IsCheap self.old.state self.new.state steps.old steps.new }
    {
        match kind {
            EglKind::Terminate => self.terminate(call, steps),
            EglKind::MakeCurrent => self.make_current(thread, call, found, steps),
            EglKind::ReleaseThread => self.release(thread, steps),
            _ => unreachable!(),
        }
        valued(alloc, 1)
    }

    /// Does a call of EGL that no rule refuses. What nothing reaches any more is gone then.
    fn egl_effect<L: Ledger, R: Replies>(
        &mut self,
        alloc: Global,
        thread: u32,
        kind: EglKind,
        call: &Call,
        found: &EglFound,
        steps: &mut Steps<L>,
    ) -> Result<R, NoMemory>
        requires made { thread < self.old.made }
        requires kind { call.now.kind ≡ EglCall kind }
        requires found { IsFound self.old.state call.now found.now }
        requires allowed { egl_refusal self.old.state thread kind call.now ≡ None }
        requires goes { (record_of self.old.state thread).wait ≡ None }
        ensures reply { IfOk result (λ r. R.reply r ≡ done (egl_effect self.old.state thread kind call.now)) }
        ensures state { OnOk result (self.new ≡ record self.old { state = sweep (egl_effect self.old.state thread kind call.now).state }) }
        ensures steps { IsCheap self.old.state self.new.state steps.old steps.new }
        ensures err { OnErr result (self.new ≡ self.old) }
        ensures memory { egl_takes_no_memory kind ≡ true → IsOk result }
    {
        match egl_role(kind) {
            Role::Destroys(handle) => {
                self.destroy(call, handle, found, steps);
                Ok(valued(alloc, 1))
            }
            Role::MakesCurrent | Role::Releases => {
                Ok(self.let_go(alloc, thread, kind, call, found, steps))
            }
            _ => {
                let reply = self.egl_effect_keeping_holds(alloc, thread, kind, call, found)?;
                self.settled();
                Ok(reply)
            }
        }
    }

    #[tactic(auto, using(model_laws::proofs::Steps::StepLaws::egl_refused, crate::proofs::StepLaws::egl_done_swept))]
    fn egl_step<L: Ledger, R: Replies>(
        &mut self,
        alloc: Global,
        thread: u32,
        kind: EglKind,
        call: &Call,
        steps: &mut Steps<L>,
    ) -> Result<R, NoMemory>
        requires made { thread < self.old.made }
        requires kind { call.now.kind ≡ EglCall kind }
        requires goes { (record_of self.old.state thread).wait ≡ None }
        ensures reply { IfOk result (λ r. R.reply r ≡ (egl_step self.old.state thread kind call.now).reply) }
        ensures state { OnOk result (self.new ≡ record self.old { state = (egl_step self.old.state thread kind call.now).state }) }
        ensures steps { IsCheap self.old.state self.new.state steps.old steps.new }
        ensures err { OnErr result (self.new ≡ self.old) }
        ensures memory { egl_takes_no_memory kind ≡ true → IsOk result }
        ensures bare { is_some (egl_refusal self.old.state thread kind call.now) ≡ true → IsOk result }
    {
        let found = self.tables.egl_found(call);
        match self.egl_refusal(thread, kind, call, &found) {
            Some(error) => {
                self.set_error(thread, error);
                Ok(bare(alloc, Outcome::Egl(error)))
            }
            None => {
                let reply = self.egl_effect(alloc, thread, kind, call, &found, steps)?;
                self.set_error(thread, EglError::Success);
                Ok(reply)
            }
        }
    }

    /// Does one whose role doesn't tell what it does, and that sets no references.
    fn plain_effect<R: Replies>(
        &mut self,
        alloc: Global,
        thread: u32,
        context: u64,
        kind: GlKind,
        call: &Call,
    ) -> Result<R, NoMemory>
        requires made { thread < self.old.made }
        requires kind { call.now.kind ≡ GlCall kind }
        requires object { context_gl_call kind ≡ None }
        requires plain { tells_effect (gl_role kind) ≡ false }
        requires allowed { gl_refusal self.old.state thread context kind call.now ≡ None }
        requires keeps { links kind ≡ false }
        ensures reply { IfOk result (λ r. R.reply r ≡ done (object_effect self.old.state thread context kind call.now)) }
        ensures state { OnOk result (self.new ≡ record self.old { state = (object_effect self.old.state thread context kind call.now).state }) }
        ensures err { OnErr result (self.new ≡ self.old) }
        ensures memory { gl_takes_no_memory kind ≡ true → IsOk result }
        ensures nothing { clears_nothing kind call.now ≡ true → IsOk result }
        ensures room { gl_clears_own self.old.state thread kind ≡ true → IsOk result }
    {
        match kind {
            GlKind::ReadPixels => read(
                alloc,
                self.tables.read_pixels(alloc, thread, context, call)?,
            ),
            GlKind::TexParameterx => {
                self.set_parameter(context, call);
                Ok(valued(alloc, 0))
            }
            GlKind::TexParameteriv => {
                self.set_crop(thread, context, call);
                Ok(valued(alloc, 0))
            }
            GlKind::TexSubImage2d => {
                self.rewrite_part(alloc, thread, context, call)?;
                Ok(valued(alloc, 0))
            }
            GlKind::CopyTexSubImage2d => {
                self.copy_part(thread, context, call)?;
                Ok(valued(alloc, 0))
            }
            GlKind::BufferData => {
                self.set_data(alloc, context, call)?;
                Ok(valued(alloc, 0))
            }
            GlKind::BufferSubData => {
                self.set_part_of(thread, context, call);
                Ok(valued(alloc, 0))
            }
            GlKind::GetBufferParameteriv => {
                Ok(valued(alloc, self.tables.buffer_parameter(context, call)))
            }
            GlKind::GetRenderbufferParameteriv => {
                Ok(valued(alloc, self.tables.renderbuffer_parameter(context, call)))
            }
            GlKind::CheckFramebufferStatus => Ok(valued(
                alloc,
                self.tables.framebuffer_status(thread),
            )),
            GlKind::GetFramebufferAttachmentParameteriv => {
                Ok(valued(alloc, self.tables.attachment_parameter(context, call)))
            }
            _ => unreachable!(),
        }
    }

    /// Does one that asks or changes more than its context's own state, and that sets no references.
    fn object_effect_keeping_holds<R: Replies>(
        &mut self,
        alloc: Global,
        thread: u32,
        context: u64,
        kind: GlKind,
        call: &Call,
    ) -> Result<R, NoMemory>
        requires made { thread < self.old.made }
        requires kind { call.now.kind ≡ GlCall kind }
        requires object { context_gl_call kind ≡ None }
        requires allowed { gl_refusal self.old.state thread context kind call.now ≡ None }
        requires keeps { links kind ≡ false }
        ensures reply { IfOk result (λ r. R.reply r ≡ done (object_effect self.old.state thread context kind call.now)) }
        ensures state { OnOk result (self.new ≡ record self.old { state = (object_effect self.old.state thread context kind call.now).state }) }
        ensures err { OnErr result (self.new ≡ self.old) }
        ensures memory { gl_takes_no_memory kind ≡ true → IsOk result }
        ensures nothing { clears_nothing kind call.now ≡ true → IsOk result }
        ensures room { gl_clears_own self.old.state thread kind ≡ true → IsOk result }
    {
        match gl_role(kind) {
            Role::Flushes => {
                self.flush_context(context);
                Ok(valued(alloc, 0))
            }
            Role::Clears => {
                self.clear(thread, context, call)?;
                Ok(valued(alloc, 0))
            }
            Role::Draws => {
                self.draw(thread, context, kind, call)?;
                Ok(valued(alloc, 0))
            }
            Role::Generates(names) => self.generate(alloc, context, names, call),
            Role::Asks(names) => {
                let name = name_of(call, ASKED_NAME);
                Ok(valued(alloc, self.tables.is_name(context, names, name)))
            }
            _ => self.plain_effect(alloc, thread, context, kind, call),
        }
    }

    /// Does one that gives what is bound other pixels.
    fn specify<L: Ledger, R: Replies>(
        &mut self,
        alloc: Global,
        thread: u32,
        context: u64,
        kind: GlKind,
        call: &Call,
        steps: &mut Steps<L>,
    ) -> Result<R, NoMemory>
        requires made { thread < self.old.made }
        requires kind { call.now.kind ≡ GlCall kind }
        requires plain { tells_effect (gl_role kind) ≡ false }
        requires allowed { gl_refusal self.old.state thread context kind call.now ≡ None }
        requires links { links kind ≡ true }
        ensures reply { IfOk result (λ r. R.reply r ≡ done (object_effect self.old.state thread context kind call.now)) }
        ensures state { OnOk result (self.new ≡ record self.old { state = sweep (object_effect self.old.state thread context kind call.now).state }) }
        ensures steps { IsCheap self.old.state self.new.state steps.old steps.new }
        ensures err { OnErr result (self.new ≡ self.old) }
        ensures memory { gl_takes_no_memory kind ≡ true → IsOk result }
    {
        match kind {
            GlKind::RenderbufferStorage => {
                self.set_storage(alloc, thread, context, call, steps)?;
            }
            GlKind::ImageTargetTexture2d => self.target_texture_image(context, call, steps),
            GlKind::ImageTargetRenderbufferStorage => {
                self.target_renderbuffer_image(thread, context, call, steps);
            }
            GlKind::TexImage2d => self.set_level(alloc, thread, context, call, steps)?,
            GlKind::CopyTexImage2d => self.copy_level(alloc, thread, context, call, steps)?,
            _ => unreachable!(),
        }
        Ok(valued(alloc, 0))
    }

    /// Does one that asks or changes more than its context's own state. What nothing reaches any more is gone then.
    fn object_effect<L: Ledger, R: Replies>(
        &mut self,
        alloc: Global,
        thread: u32,
        context: u64,
        kind: GlKind,
        call: &Call,
        steps: &mut Steps<L>,
    ) -> Result<R, NoMemory>
        requires made { thread < self.old.made }
        requires kind { call.now.kind ≡ GlCall kind }
        requires object { context_gl_call kind ≡ None }
        requires allowed { gl_refusal self.old.state thread context kind call.now ≡ None }
        ensures reply { IfOk result (λ r. R.reply r ≡ done (object_effect self.old.state thread context kind call.now)) }
        ensures state { OnOk result (self.new ≡ record self.old { state = sweep (object_effect self.old.state thread context kind call.now).state }) }
        ensures steps { IsCheap self.old.state self.new.state steps.old steps.new }
        ensures err { OnErr result (self.new ≡ self.old) }
        ensures memory { gl_takes_no_memory kind ≡ true → IsOk result }
        ensures nothing { clears_nothing kind call.now ≡ true → IsOk result }
        ensures room { gl_clears_own self.old.state thread kind ≡ true → IsOk result }
    {
        match gl_role(kind) {
            Role::Binds(names) => {
                let target = target_of(names, number(call, TARGET));
                self.bind_name(alloc, context, target, call, steps)?;
                Ok(valued(alloc, 0))
            }
            Role::Deletes(names) => {
                self.delete_names(context, names, call, steps);
                Ok(valued(alloc, 0))
            }
            Role::Attaches(names) => {
                self.attach(context, names, call, steps);
                Ok(valued(alloc, 0))
            }
            Role::Specifies(NameKind::Texture)
            | Role::Specifies(NameKind::Renderbuffer)
            | Role::TakesImage(_)
            | Role::Copies => self.specify(alloc, thread, context, kind, call, steps),
            _ => {
                let reply = self.object_effect_keeping_holds(alloc, thread, context, kind, call)?;
                self.settled();
                Ok(reply)
            }
        }
    }

    /// Does a call of OpenGL ES that no rule refuses. What nothing reaches any more is gone then.
    fn gl_effect<L: Ledger, R: Replies>(
        &mut self,
        alloc: Global,
        thread: u32,
        context: u64,
        kind: GlKind,
        call: &Call,
        steps: &mut Steps<L>,
    ) -> Result<R, NoMemory>
        requires made { thread < self.old.made }
        requires kind { call.now.kind ≡ GlCall kind }
        requires allowed { gl_refusal self.old.state thread context kind call.now ≡ None }
        ensures reply { IfOk result (λ r. R.reply r ≡ done (gl_effect self.old.state thread context kind call.now)) }
        ensures state { OnOk result (self.new ≡ record self.old { state = sweep (gl_effect self.old.state thread context kind call.now).state }) }
        ensures steps { IsCheap self.old.state self.new.state steps.old steps.new }
        ensures err { OnErr result (self.new ≡ self.old) }
        ensures memory { gl_takes_no_memory kind ≡ true → IsOk result }
        ensures nothing { clears_nothing kind call.now ≡ true → IsOk result }
        ensures room { gl_clears_own self.old.state thread kind ≡ true → IsOk result }
    {
        match context_gl_call(kind) {
            Some(_) => {
                let value = self.apply(alloc, context, call);
                self.settled();
                Ok(valued(alloc, value))
            }
            None => self.object_effect(alloc, thread, context, kind, call, steps),
        }
    }

    #[tactic(auto, using(model_laws::proofs::Steps::StepLaws::gl_refused, model_laws::proofs::Steps::StepLaws::gl_done, model_laws::proofs::Steps::StepLaws::gl_without_context))]
    fn gl_step<L: Ledger, R: Replies>(
        &mut self,
        alloc: Global,
        thread: u32,
        kind: GlKind,
        call: &Call,
        steps: &mut Steps<L>,
    ) -> Result<R, NoMemory>
        requires made { thread < self.old.made }
        requires kind { call.now.kind ≡ GlCall kind }
        ensures reply { IfOk result (λ r. R.reply r ≡ (gl_step self.old.state thread kind call.now).reply) }
        ensures state { OnOk result (self.new ≡ record self.old { state = (gl_step self.old.state thread kind call.now).state }) }
        ensures steps { IsCheap self.old.state self.new.state steps.old steps.new }
        ensures err { OnErr result (self.new ≡ self.old) }
        ensures memory { gl_takes_no_memory kind ≡ true → IsOk result }
        ensures bare { is_bare_on self.old.state thread (current_context self.old.state thread) kind call.now ≡ true → IsOk result }
        ensures room { gl_clears_own self.old.state thread kind ≡ true → IsOk result }
    {
        let Some(context) = self.current_context(thread) else {
            return Ok(bare(alloc, Outcome::Done));
        };
        match self.gl_refusal(thread, context, kind, call) {
            Some(error) => {
                self.note_error(context, error);
                Ok(bare(alloc, Outcome::Gl(error)))
            }
            None => self.gl_effect(alloc, thread, context, kind, call, steps),
        }
    }

    /// Does a call of a thread that doesn't wait.
    fn step_by<L: Ledger, R: Replies>(
        &mut self,
        alloc: Global,
        thread: u32,
        call: &Call,
        steps: &mut Steps<L>,
    ) -> Result<R, NoMemory>
        requires made { thread < self.old.made }
        requires goes { (record_of self.old.state thread).wait ≡ None }
        ensures reply { IfOk result (λ r. R.reply r ≡ (step_by self.old.state thread call.now.kind call.now).reply) }
        ensures state { OnOk result (self.new ≡ record self.old { state = (step_by self.old.state thread call.now.kind call.now).state }) }
        ensures steps { IsCheap self.old.state self.new.state steps.old steps.new }
        ensures err { OnErr result (self.new ≡ self.old) }
        ensures memory { takes_no_memory call.now.kind ≡ true → IsOk result }
        ensures bare { is_bare self.old.state thread call.now.kind call.now ≡ true → IsOk result }
        ensures room { clears_own self.old.state thread call.now.kind ≡ true → IsOk result }
    {
        match call.kind {
            Kind::Egl(kind) => self.egl_step(alloc, thread, kind, call, steps),
            Kind::Gl(kind) => self.gl_step(alloc, thread, kind, call, steps),
            Kind::Own(OwnKind::ReadBuffer) => self.read_buffer(alloc, thread, call),
            Kind::Own(kind) => self.own_step(alloc, thread, kind, call),
        }
    }

    /// The same of any thread.
    #[tactic(auto, using(model_laws::proofs::Steps::StepLaws::step_waits, model_laws::proofs::Steps::StepLaws::step_goes))]
    fn step_in<L: Ledger, R: Replies>(
        &mut self,
        alloc: Global,
        thread: u32,
        call: &Call,
        steps: &mut Steps<L>,
    ) -> Result<R, NoMemory>
        requires made { thread < self.old.made }
        ensures reply { IfOk result (λ r. R.reply r ≡ (step self.old.state thread call.now).reply) }
        ensures state { OnOk result (self.new ≡ record self.old { state = (step self.old.state thread call.now).state }) }
        ensures steps { IsCheap self.old.state self.new.state steps.old steps.new }
        ensures err { OnErr result (self.new ≡ self.old) }
        ensures memory { takes_no_memory call.now.kind ≡ true → IsOk result }
        ensures bare { is_bare self.old.state thread call.now.kind call.now ≡ true → IsOk result }
        ensures room { clears_own self.old.state thread call.now.kind ≡ true → IsOk result }
        ensures waits { is_some (record_of self.old.state thread).wait ≡ true → IsOk result }
    {
        match self.record(thread).wait {
            Some(sync) => Ok(self.wait_step(alloc, thread, sync, call, steps)),
            None => self.step_by(alloc, thread, call, steps),
        }
    }

    /// The same with what the call gives, if that was made before.
    fn step_given<L: Ledger, R: Replies>(
        &mut self,
        alloc: Global,
        thread: u32,
        call: &Call,
        upload: Option<Upload>,
        steps: &mut Steps<L>,
    ) -> Result<R, NoMemory>
        requires made { thread < self.old.made }
        requires upload { IfSome upload (λ u. upload_of (part_of self.old.state thread) call.now ≡ Some u) }
        ensures reply { IfOk result (λ r. R.reply r ≡ (step self.old.state thread call.now).reply) }
        ensures state { OnOk result (self.new ≡ record self.old { state = (step self.old.state thread call.now).state }) }
        ensures steps { IsCheap self.old.state self.new.state steps.old steps.new }
        ensures err { OnErr result (self.new ≡ self.old) }
        ensures memory { upload ≡ None → takes_no_memory call.now.kind ≡ true → IsOk result }
        ensures bare { is_bare self.old.state thread call.now.kind call.now ≡ true → IsOk result }
        ensures room { upload ≡ None → clears_own self.old.state thread call.now.kind ≡ true → IsOk result }
        ensures waits { upload ≡ None → is_some (record_of self.old.state thread).wait ≡ true → IsOk result }
    {
        match upload {
            Some(upload) => self.step_in_with_upload(alloc, thread, call, upload, steps),
            None => self.step_in(alloc, thread, call, steps),
        }
    }

    /// Plays one call of a thread, and answers as many equal replies as its caller keeps. Every refusal of the standard is a reply, and takes no memory. Where memory runs out nothing has changed.
    ///
    /// Pixels or contents that the call gives may have been made before, from its thread's part as it is now. They are attached, or dropped where a rule refuses the call.
    ///
    /// Where the driver stands for a sound state outside the parts of some threads, and the thread isn't one of these, the reply is the step's from that state, and the driver then stands for the state after it outside the same parts.
    pub fn step_as<L: Ledger, R: Replies>(
        &mut self,
        alloc: Global,
        thread: u32,
        call: &Call,
        upload: Option<Upload>,
        steps: &mut Steps<L>,
    ) -> Result<R, NoMemory>
        requires made { thread < self.old.made }
        requires upload { IfSome upload (λ u. upload_of (part_of self.old.state thread) call.now ≡ Some u) }
        ensures reply { IfOk result (λ r. R.reply r ≡ (step self.old.state thread call.now).reply) }
        ensures state { OnOk result (self.new ≡ record self.old { state = (step self.old.state thread call.now).state }) }
        ensures outside { (s : State) → IsSound s → slice_index_or self.old.away thread false ≡ false → self.old.state ≡ hide (outs self.old.away) s → IfOk result (λ r. R.reply r ≡ (step s thread call.now).reply) × OnOk result (self.new ≡ record self.old { state = hide (outs self.old.away) (step s thread call.now).state }) }
        ensures steps { IsCheap self.old.state self.new.state steps.old steps.new }
        ensures bound { IsBounded self.old.state self.new.state steps.old steps.new }
        ensures err { OnErr result (self.new ≡ self.old) }
        ensures memory { upload ≡ None → takes_no_memory call.now.kind ≡ true → IsOk result }
        ensures bare { is_bare self.old.state thread call.now.kind call.now ≡ true → IsOk result }
        ensures room { upload ≡ None → clears_own self.old.state thread call.now.kind ≡ true → IsOk result }
        ensures waits { upload ≡ None → is_some (record_of self.old.state thread).wait ≡ true → IsOk result }
    {
        self.apart();
        self.names_apart();
        self.step_given(alloc, thread, call, upload, steps)
    }

    /// Plays one call of a thread, and answers its reply.
    pub fn step<L: Ledger>(
        &mut self,
        alloc: Global,
        thread: u32,
        call: &Call,
        steps: &mut Steps<L>,
    ) -> Result<Reply, NoMemory>
        requires made { thread < self.old.made }
        ensures reply { IfOk result (λ r. r ≡ (step self.old.state thread call.now).reply) }
        ensures state { OnOk result (self.new ≡ record self.old { state = (step self.old.state thread call.now).state }) }
        ensures outside { (s : State) → IsSound s → slice_index_or self.old.away thread false ≡ false → self.old.state ≡ hide (outs self.old.away) s → IfOk result (λ r. r ≡ (step s thread call.now).reply) × OnOk result (self.new ≡ record self.old { state = hide (outs self.old.away) (step s thread call.now).state }) }
        ensures steps { IsCheap self.old.state self.new.state steps.old steps.new }
        ensures bound { IsBounded self.old.state self.new.state steps.old steps.new }
        ensures err { OnErr result (self.new ≡ self.old) }
        ensures memory { takes_no_memory call.now.kind ≡ true → IsOk result }
        ensures bare { is_bare self.old.state thread call.now.kind call.now ≡ true → IsOk result }
        ensures room { clears_own self.old.state thread call.now.kind ≡ true → IsOk result }
        ensures waits { is_some (record_of self.old.state thread).wait ≡ true → IsOk result }
    {
        self.step_as(alloc, thread, call, None, steps)
    }

    /// The same with two equal replies.
    pub fn step_with_copy<L: Ledger>(
        &mut self,
        alloc: Global,
        thread: u32,
        call: &Call,
        steps: &mut Steps<L>,
    ) -> Result<ReplyPair, NoMemory>
        requires made { thread < self.old.made }
        ensures reply { IfOk result (λ r. r.reply ≡ (step self.old.state thread call.now).reply) }
        ensures state { OnOk result (self.new ≡ record self.old { state = (step self.old.state thread call.now).state }) }
        ensures outside { (s : State) → IsSound s → slice_index_or self.old.away thread false ≡ false → self.old.state ≡ hide (outs self.old.away) s → IfOk result (λ r. r.reply ≡ (step s thread call.now).reply) × OnOk result (self.new ≡ record self.old { state = hide (outs self.old.away) (step s thread call.now).state }) }
        ensures steps { IsCheap self.old.state self.new.state steps.old steps.new }
        ensures bound { IsBounded self.old.state self.new.state steps.old steps.new }
        ensures err { OnErr result (self.new ≡ self.old) }
        ensures memory { takes_no_memory call.now.kind ≡ true → IsOk result }
        ensures bare { is_bare self.old.state thread call.now.kind call.now ≡ true → IsOk result }
        ensures room { clears_own self.old.state thread call.now.kind ≡ true → IsOk result }
        ensures waits { is_some (record_of self.old.state thread).wait ≡ true → IsOk result }
    {
        self.step_as(alloc, thread, call, None, steps)
    }
}
