//! Textures (OpenGL ES 1.1, section 3.7).
ghost use Rattle.std.specs.Prelude.{◌≡◌, ◌<◌, None, Some};
ghost use Rattle.egl_model.specs.Textures.{level_storage, target_texture};
ghost use Rattle.driver_facts.specs.Tables.{state_in};

use crate::tables::Tables;

impl Tables {
    /// The texture on which calls work: what the context has bound, or its texture 0.
    pub fn target_texture(&self, context: u64) -> Option<u64>
        ensures { result ≡ target_texture (state_in self.now) context }
    {
        match self.objects.context(context) {
            Some(context) => match context.bound.texture {
                Some(texture) => Some(texture),
                None => Some(context.texture),
            },
            None => None,
        }
    }

    /// The storage of a level of the texture on which calls work, where it has one.
    pub fn level_storage(&self, context: u64, level: u64) -> Option<u64>
        ensures { result ≡ level_storage (state_in self.now) context level }
    {
        match self.target_texture(context) {
            Some(texture) => self.objects.level(texture, level),
            None => None,
        }
    }
}
