//! glDrawTexiOES and glDrawTexxOES (OES_draw_texture).
ghost use Rattle.std.specs.Prelude.{◌≡◌, ◌<◌, true, false, None, IfSome, OnErr, OnOk};
ghost use Rattle.std.specs.Option.{option_map};
ghost use Rattle.egl_calls.specs.declared.kinds.Kind.TheVariants.{Gl as GlCall};
ghost use Rattle.egl_calls.specs.Arguments.{signed};
ghost use Rattle.egl_calls.specs.Ranges.{IsNumber, is_client_wait};
ghost use Rattle.rect_pipeline.specs.Signed.{IsDrawNumber};
ghost use Rattle.call_rules.specs.GlRules.{draws_nothing};
ghost use Rattle.rect_pipeline.specs.Samplers as samplers;
ghost use Rattle.rect_pipeline.specs.Samplers.{HasSides};
ghost use Rattle.driver_objects.specs.Storages.{drawn_storage, IsDrawnRect};
ghost use Rattle.egl_model.specs.Draws.{drawn, drawn_rect, fixed, sampler};
ghost use Rattle.egl_model.specs.GlCalls.{gl_refusal};
ghost use Rattle.egl_model.specs.Objects.{change_storage};
ghost use Rattle.driver_core.specs.Draws.{is_draw};

use crate::machine::Driver;
use context_state::ContextPart;
use egl_calls::places::{DRAWN_HEIGHT, DRAWN_WIDTH, X, Y};
use egl_calls::{Call, GlKind, NoMemory};
use object_table::Sampled;
use pixel_rows::Rect;
use rect_pipeline::Sampler;

/// 1 in 16.16 fixed point.
const ONE: i64 = 65_536;

/// A number of a call that isn't a wait of the client has 32 bits.
fn number_at(call: &Call, place: usize) -> i64
    requires place { place < 8 }
    requires kind { is_client_wait call.now.kind ≡ false }
    ensures value { result ≡ signed call.now place }
    ensures number { IsNumber result }
{
    call.args[place]
}

/// A number of a draw in 16.16 fixed point: those of glDrawTexiOES are whole.
fn fixed(kind: GlKind, number: i64) -> i64
    requires { IsNumber number }
    ensures value { result ≡ fixed kind number }
    ensures number { IsDrawNumber result }
{
    match kind {
        GlKind::DrawTexi => number * ONE,
        _ => number,
    }
}

/// Left, bottom, width and height of a draw in 16.16 fixed point.
pub(crate) fn drawn_rect(kind: GlKind, call: &Call) -> Rect
    requires kind { call.now.kind ≡ GlCall kind }
    requires some { draws_nothing call.now ≡ false }
    ensures value { result ≡ drawn_rect kind call.now }
    ensures drawn { IsDrawnRect result }
{
    Rect {
        x: fixed(kind, number_at(call, X)),
        y: fixed(kind, number_at(call, Y)),
        w: fixed(kind, number_at(call, DRAWN_WIDTH)),
        h: fixed(kind, number_at(call, DRAWN_HEIGHT)),
    }
}

impl Driver {
    fn draw_storage_with(
        &mut self,
        storage: u64,
        part: &ContextPart,
        sampled: &Option<Sampled>,
        rect: Rect,
    ) -> Result<(), NoMemory>
        requires rect { IsDrawnRect rect }
        requires sides { IfSome sampled.now (λ s. HasSides (samplers.sampled s.image s.texture s.base_w s.base_h)) }
        ensures ok { OnOk result (self.new ≡ record self.old { state = record self.old.state { objects = change_storage (drawn_storage part.now (option_map (λ s. samplers.sampled s.image s.texture s.base_w s.base_h) sampled.now) rect) storage self.old.state.objects } }) }
        ensures err { OnErr result (self.new ≡ self.old) }
    {
        match sampled {
            Some(sampled) => {
                let sampler = Sampler {
                    image: &sampled.image,
                    texture: &sampled.texture,
                    base_w: sampled.base_w,
                    base_h: sampled.base_h,
                };
                self.tables.objects.draw(storage, part, Some(sampler), rect)
            }
            None => self.tables.objects.draw(storage, part, None, rect),
        }
    }

    /// Draws the rectangle of a call into what the thread draws to by the context, with what it samples of its texture.
    pub(crate) fn draw(
        &mut self,
        thread: u32,
        context: u64,
        kind: GlKind,
        call: &Call,
    ) -> Result<(), NoMemory>
        requires made { thread < self.old.made }
        requires kind { call.now.kind ≡ GlCall kind }
        requires draws { is_draw kind ≡ true }
        requires allowed { gl_refusal self.old.state thread context kind call.now ≡ None }
        ensures ok { OnOk result (self.new ≡ record self.old { state = drawn self.old.state thread context kind call.now }) }
        ensures err { OnErr result (self.new ≡ self.old) }
    {
        let rect = drawn_rect(kind, call);
        let Some(part) = self.context_part(context) else {
            return Ok(());
        };
        let Some(storage) = self.tables.bound_framebuffer(thread).draw else {
            return Ok(());
        };
        let sampled = self.tables.sample_if_textured(context, &part, rect)?;
        self.draw_storage_with(storage, &part, &sampled, rect)
    }
}
