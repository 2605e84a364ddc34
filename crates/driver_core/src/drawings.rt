//! What is left to be drawn.
ghost use Rattle.std.specs.Prelude.{◌≡◌, IfSome};
ghost use Rattle.std.proofs.Props.{props};
ghost use Rattle.driver_objects.specs.Storages.{IsDrawnRect};
ghost use Rattle.rect_pipeline.specs.Samplers.{HasSides, sampled};

use egl_calls::Reply;
use object_table::Sampled;
use pixel_rows::Rect;

/// What a draw that is done leaves to be drawn on its thread's own pixels: a rectangle in 16.16 fixed point, with what it samples.
#[derive(Drop)]
pub struct Drawing {
    pub from: Option<Sampled>,
    pub rect: Rect,
    ghost drawn: { IsDrawnRect rect },
    ghost sides: { IfSome from (λ s. HasSides (sampled s.image s.texture s.base_w s.base_h)) } by { Prim.hlevel props },
}

/// What came of a call that may be a late draw: its reply twice, and what is left to be drawn, where it is one and is done.
#[derive(Drop)]
pub struct LateDraw {
    pub reply: Reply,
    pub copy: Reply,
    pub drawing: Option<Drawing>,
    ghost same: { copy ≡ reply },
}
