//! glCopyTexImage2D and glCopyTexSubImage2D (OpenGL ES 1.1, section 3.7.2).
ghost use Rattle.std.specs.Prelude.{◌≡◌, ◌<◌, Some, None, IfOk};
ghost use Rattle.std.specs.Option.{option_map};
ghost use Rattle.egl_calls.specs.declared.kinds.Kind.TheVariants.{Gl as GlCall};
ghost use Rattle.egl_calls.specs.declared.kinds.GlKind.TheVariants.{CopyTexImage2d};
ghost use Rattle.egl_model.specs.Copies.{copied_bytes, copied_level, read_image};
ghost use Rattle.egl_model.specs.GlCalls.{gl_refusal};
ghost use Rattle.egl_model.specs.GlFacts.{has_read_alpha, has_stored_alpha};
ghost use Rattle.egl_model.specs.Objects.{storage_in};
ghost use Rattle.driver_facts.specs.Tables.{state_in};

use crate::tables::Tables;
use call_rules::has_alpha;
use driver_objects::Storage;
use egl_calls::arguments::number;
use egl_calls::limits::LONGEST_TEXTURE_SIDE;
use egl_calls::places::{COPIED_HEIGHT, COPIED_WIDTH};
use egl_calls::{Call, NoMemory};
use pixel_formats::bytes_of;
use std::alloc::Global;
use texture_objects::base_code;
use thread_part::{copied_format, copied_rect};

/// The bytes of the level that a glCopyTexImage2D gives; a longer side is another refusal's.
pub(crate) fn copied_bytes(call: &Call) -> u64
    ensures { result ≡ copied_bytes call.now }
{
    number(call, COPIED_WIDTH).min(LONGEST_TEXTURE_SIDE)
        * number(call, COPIED_HEIGHT).min(LONGEST_TEXTURE_SIDE)
        * bytes_of(copied_format(call)) as u64
}

impl Tables {
    fn has_stored_alpha(&self, storage: u64) -> bool
        ensures { result ≡ has_stored_alpha (storage_in (state_in self.now).objects storage) }
    {
        match self.objects.storage(storage) {
            Some(storage) => has_alpha(base_code(storage.format())),
            None => false,
        }
    }

    /// Whether the pixels that a thread reads have alpha.
    pub(crate) fn has_read_alpha(&self, thread: u32) -> bool
        requires { thread < self.now.threads.made }
        ensures { result ≡ has_read_alpha (state_in self.now) thread }
    {
        match self.bound_framebuffer(thread).read {
            Some(storage) => self.has_stored_alpha(storage),
            None => false,
        }
    }

    /// The storage that a glCopyTexImage2D gives a level, and none where the pixels that are read are out of the driver.
    pub fn copied_level(
        &self,
        alloc: Global,
        thread: u32,
        context: u64,
        call: &Call,
    ) -> Result<Option<Storage>, NoMemory>
        requires made { thread < self.now.threads.made }
        requires kind { call.now.kind ≡ GlCall CopyTexImage2d }
        requires allowed { gl_refusal (state_in self.now) thread context CopyTexImage2d call.now ≡ None }
        ensures { IfOk result (λ o. o ≡ option_map (λ i. copied_level call.now i) (read_image (state_in self.now) thread)) }
    {
        let _ = context;
        match self.bound_framebuffer(thread).read {
            Some(storage) => {
                self.objects
                    .copied(alloc, storage, copied_format(call), copied_rect(call))
            }
            None => Ok(None),
        }
    }
}
