//! Draws on a thread's own pixels.
ghost use Rattle.std.specs.Prelude.{◌≡◌, true, IfSome};
ghost use Rattle.std.specs.Option.{option_map};
ghost use Rattle.driver_objects.specs.Storages.{drawn_image, IsDrawnRect};
ghost use Rattle.model_laws.specs.Late.{drawing, drawn_part, draws_to_surface, is_draw, is_late};
ghost use Rattle.rect_pipeline.specs.Samplers.{HasSides, sampled};

use crate::parts::Parts;
use call_table::gl_role;
use context_state::ContextPart;
use driver_objects::draw_image;
use egl_calls::{Call, Kind};
use pixel_rows::{Image, Rect};
use rect_pipeline::Sampler;

fn is_draw(kind: Kind) -> bool
    ensures { result ≡ is_draw kind }
{
    match kind {
        Kind::Gl(kind) => gl_role(kind).draws(),
        _ => false,
    }
}

/// Whether a context is current, and has the framebuffer of the window system bound, whose name is 0.
fn draws_to_surface(part: &Option<ContextPart>) -> bool
    ensures { result ≡ draws_to_surface part.now }
{
    match part {
        Some(part) => part.framebuffer() == 0,
        None => false,
    }
}

/// Draws on the pixels of a surface, if there are any.
fn draw_surface(image: &mut Option<Image>, part: &ContextPart, from: Option<Sampler>, rect: Rect)
    requires rect { IsDrawnRect rect }
    requires sides { IfSome from (λ s. HasSides (sampled s.image.now s.texture.now s.base_w s.base_h)) }
    requires owned { IfSome image.old (λ i. i.owned ≡ true) }
    ensures { image.new ≡ option_map (drawn_image part.now (option_map (λ s. sampled s.image.now s.texture.now s.base_w s.base_h) from.entry) rect) image.old }
{
    if let Some(image) = image {
        let Ok(()) = draw_image(image, part, from, rect) else {
            unreachable!()
        };
    }
}

impl Parts {
    pub(crate) fn is_late(&self, call: &Call) -> bool
        ensures { result ≡ is_late self.now call.now }
    {
        is_draw(call.kind) && !self.waiting && draws_to_surface(&self.context)
    }

    pub(crate) fn draw(&mut self, from: Option<Sampler>, rect: Rect)
        requires rect { IsDrawnRect rect }
        requires sides { IfSome from (λ s. HasSides (sampled s.image.now s.texture.now s.base_w s.base_h)) }
        requires owned { IfSome self.old.own.draw (λ i. i.owned ≡ true) }
        ensures { self.new ≡ drawn_part (drawing self.old.own.context (option_map (λ s. sampled s.image.now s.texture.now s.base_w s.base_h) from.entry) rect) self.old }
    {
        if let Some(part) = &self.context {
            draw_surface(&mut self.draw, part, from, rect);
        }
    }
}
