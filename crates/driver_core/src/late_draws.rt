//! Draws to a thread's own surface, whose pixels may be drawn once its part is out (OES_draw_texture).
ghost use Rattle.std.specs.Prelude.{◌≡◌, ◌<◌, true, false, None, Some, IfOk, IfSome, OnErr, slice_index_or};
ghost use Rattle.egl_calls.specs.declared.kinds.Kind.TheVariants.{Gl as GlCall};
ghost use Rattle.driver_objects.specs.Storages.{IsDrawnRect};
ghost use Rattle.rect_pipeline.specs.Samplers.{HasSides, sampled};
ghost use Rattle.egl_model.specs.Currents.{current_context, part_of_context};
ghost use Rattle.egl_model.specs.Draws.{sampler};
ghost use Rattle.egl_model.specs.GlCalls.{gl_refusal};
ghost use Rattle.egl_model.specs.Parts.{own_of, part_of};
ghost use Rattle.egl_model.specs.State.{State};
ghost use Rattle.egl_model.specs.Step.{step};
ghost use Rattle.model_laws.specs.Frame.{IsReady};
ghost use Rattle.model_laws.specs.Hidden.{hide};
ghost use Rattle.model_laws.specs.Late.{drawing, draws_to_surface, is_late, late_rect, late_sampler, sampled_by};
ghost use Rattle.driver_core.specs.Draws.{is_draw};
ghost use Rattle.driver_core.specs.LateDraws.{IsLeft, drawn_late, sampler_of};
ghost use Rattle.driver_core.specs.Machine.{outs};

use crate::drawings::{Drawing, LateDraw};
use crate::draws::drawn_rect;
use crate::machine::Driver;
use call_table::gl_role;
use egl_calls::{Call, GlKind, Kind, NoMemory, Outcome, ReplyPair};
use object_table::Sampled;
use pixel_rows::Rect;
use std::alloc::Global;
use thread_part::bare;

/// What came of a call that leaves nothing to be drawn.
fn undrawn(replies: ReplyPair) -> LateDraw
    ensures reply { result.reply ≡ replies.reply }
    ensures drawing { result.drawing ≡ None }
{
    let ReplyPair { reply, copy } = replies;
    LateDraw {
        reply,
        copy,
        drawing: None,
    }
}

impl Driver {
    /// Whether the context of a thread has the framebuffer of the window system bound, whose name is 0.
    fn draws_to_surface(&self, thread: u32) -> bool
        requires { thread < self.now.made }
        ensures { result ≡ draws_to_surface (own_of self.now.state thread).context }
    {
        let Some(context) = self.current_context(thread) else {
            return false;
        };
        match self.context_part(context) {
            Some(part) => part.framebuffer() == 0,
            None => false,
        }
    }

    /// Whether a call is a draw to the thread's own surface, which may be drawn once its part is out.
    pub fn is_late(&self, thread: u32, call: &Call) -> bool
        requires { thread < self.now.made }
        ensures { result ≡ is_late (part_of self.now.state thread) call.now }
    {
        match call.kind {
            Kind::Gl(kind) => {
                gl_role(kind).draws()
                    && self.record(thread).wait.is_none()
                    && self.draws_to_surface(thread)
            }
            _ => false,
        }
    }

    /// What a draw of a rectangle samples of the texture on which the calls of a context work, where that has enabled GL_TEXTURE_2D.
    fn sample_by_context(&self, context: u64, rect: Rect) -> Result<Option<Sampled>, NoMemory>
        requires { IsDrawnRect rect }
        ensures value { IfOk result (λ o. sampler_of o ≡ sampled_by (part_of_context self.now.state context) (sampler self.now.state context rect)) }
        ensures sides { IfOk result (λ o. IfSome o (λ s. HasSides (sampled s.image s.texture s.base_w s.base_h))) }
    {
        match self.context_part(context) {
            Some(part) => self.tables.sample_if_textured(context, &part, rect),
            None => Ok(None),
        }
    }

    /// What a draw that no rule refuses leaves to be drawn.
    fn left_to_draw(
        &self,
        thread: u32,
        context: u64,
        kind: GlKind,
        call: &Call,
    ) -> Result<Drawing, NoMemory>
        requires made { thread < self.now.made }
        requires kind { call.now.kind ≡ GlCall kind }
        requires draws { is_draw kind ≡ true }
        requires current { current_context self.now.state thread ≡ Some context }
        requires allowed { gl_refusal self.now.state thread context kind call.now ≡ None }
        ensures from { IfOk result (λ d. sampler_of d.from ≡ late_sampler self.now.state thread call.now) }
        ensures rect { IfOk result (λ d. d.rect ≡ late_rect call.now.kind call.now) }
    {
        let rect = drawn_rect(kind, call);
        let from = self.sample_by_context(context, rect)?;
        Ok(Drawing { from, rect })
    }

    /// Plays a draw to the thread's own surface but for its pixels, and answers its reply twice, with what is left to be drawn. Where memory runs out nothing has changed. It frees nothing.
    ///
    /// Where a rule refuses it, the driver then stands for the state after it. Where it is done, the driver stands for the state before it, as it did, and that state once what is left is drawn on the thread's own pixels is the state after it.
    pub fn step_late_draw(
        &mut self,
        alloc: Global,
        thread: u32,
        call: &Call,
    ) -> Result<LateDraw, NoMemory>
        requires made { thread < self.old.made }
        requires late { is_late (part_of self.old.state thread) call.now ≡ true }
        ensures reply { IfOk result (λ d. d.reply ≡ (step self.old.state thread call.now).reply) }
        ensures state { IfOk result (λ d. (step self.old.state thread call.now).state ≡ drawn_late self.new.state thread d.drawing) }
        ensures left { IfOk result (λ d. IsLeft self.old thread call.now d.drawing self.new) }
        ensures outside { (s : State) → IsReady s thread → slice_index_or self.old.away thread false ≡ false → self.old.state ≡ hide (outs self.old.away) s → IfOk result (λ d. IfSome d.drawing (λ g. (step s thread call.now).state ≡ drawn_late s thread (Some g))) }
        ensures err { OnErr result (self.new ≡ self.old) }
    {
        self.settled();
        let Kind::Gl(kind) = call.kind else {
            unreachable!()
        };
        let Some(context) = self.current_context(thread) else {
            unreachable!()
        };
        match self.gl_refusal(thread, context, kind, call) {
            Some(error) => {
                self.note_error(context, error);
                Ok(undrawn(bare(alloc, Outcome::Gl(error))))
            }
            None => {
                let drawing = self.left_to_draw(thread, context, kind, call)?;
                let ReplyPair { reply, copy } = bare(alloc, Outcome::Done);
                Ok(LateDraw {
                    reply,
                    copy,
                    drawing: Some(drawing),
                })
            }
        }
    }
}
