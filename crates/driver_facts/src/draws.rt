//! glDrawTexiOES and glDrawTexxOES (OES_draw_texture).
ghost use Rattle.std.specs.Prelude.{◌≡◌, ◌<◌, None, IfOk, IfSome, if◌then◌else◌};
ghost use Rattle.std.specs.Option.{option_map};
ghost use Rattle.rect_pipeline.specs.Samplers as samplers;
ghost use Rattle.rect_pipeline.specs.Samplers.{HasSides};
ghost use Rattle.driver_objects.specs.Storages.{IsDrawnRect};
ghost use Rattle.egl_model.specs.Draws.{sampler};
ghost use Rattle.driver_facts.specs.Tables.{state_in};

use crate::tables::Tables;
use context_state::ContextPart;
use egl_calls::NoMemory;
use object_table::Sampled;
use pixel_rows::Rect;

impl Tables {
    /// What a draw of a rectangle samples of the texture on which calls work.
    fn sample(&self, context: u64, rect: Rect) -> Result<Option<Sampled>, NoMemory>
        requires { IsDrawnRect rect }
        ensures value { IfOk result (λ o. option_map (λ s. samplers.sampled s.image s.texture s.base_w s.base_h) o ≡ sampler (state_in self.now) context rect) }
        ensures sides { IfOk result (λ o. IfSome o (λ s. HasSides (samplers.sampled s.image s.texture s.base_w s.base_h))) }
    {
        match self.target_texture(context) {
            Some(texture) => self.objects.sample(texture, rect),
            None => Ok(None),
        }
    }

    /// The same, where GL_TEXTURE_2D is enabled.
    pub fn sample_if_textured(
        &self,
        context: u64,
        part: &ContextPart,
        rect: Rect,
    ) -> Result<Option<Sampled>, NoMemory>
        requires { IsDrawnRect rect }
        ensures value { IfOk result (λ o. option_map (λ s. samplers.sampled s.image s.texture s.base_w s.base_h) o ≡ (if part.now.is_texture_enabled then sampler (state_in self.now) context rect else None)) }
        ensures sides { IfOk result (λ o. IfSome o (λ s. HasSides (samplers.sampled s.image s.texture s.base_w s.base_h))) }
    {
        if part.textured() {
            self.sample(context, rect)
        } else {
            Ok(None)
        }
    }
}
