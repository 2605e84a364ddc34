//! EGL images (EGL 1.5, section 3.9; OES_EGL_image).
ghost use Rattle.std.specs.Prelude.{◌≡◌, ◌<◌, false, None, Some, IfSome, IsSome};
ghost use Rattle.std.specs.Option.{option_and_then};
ghost use Rattle.egl_calls.specs.Ranges.{unsigned};
ghost use Rattle.egl_model.specs.Arguments.{number};
ghost use Rattle.egl_model.specs.Images.{asked_level, has_pixels, image_storage, is_incomplete_in, is_renderable, is_sibling, is_source_in, level_pixels, source_context, source_kind, target_handle, target_image, with_pixels_in};
ghost use Rattle.egl_model.specs.Names.{group_of, object_named};
ghost use Rattle.egl_model.specs.Objects.{storage_in};
ghost use Rattle.egl_model.specs.State.{object_at};
ghost use Rattle.driver_facts.specs.Groups.{IsPixels};
ghost use Rattle.driver_facts.specs.Tables.{KnowsRoots, state_in};

use crate::names::name_of;
use crate::tables::Tables;
use attrib_lists::value_of;
use display_table::{Handle, HandleKind};
use egl_calls::arguments::{number, signed};
use egl_calls::places::{CLIENT_BUFFER, IMAGE_SOURCE, NAMED, TARGET_IMAGE};
use egl_calls::{Call, EglKind, Kind, unsigned};
use egl_image::{EglImage, may_create, may_target_renderbuffer};
use egl_names::codes::{EGL_GL_TEXTURE_2D, EGL_GL_TEXTURE_LEVEL};
use framebuffer_objects::Renderbuffer;
use share_group::NameKind;

/// The kind of the names of which an eglCreateImage gives one.
fn source_kind(call: &Call) -> NameKind
    ensures { result ≡ source_kind call.now }
{
    if number(call, IMAGE_SOURCE) == EGL_GL_TEXTURE_2D {
        NameKind::Texture
    } else {
        NameKind::Renderbuffer
    }
}

/// The level that its list names.
fn asked_level(call: &Call) -> i64
    ensures { result ≡ asked_level call.now }
{
    value_of(call.list.as_slice(), EGL_GL_TEXTURE_LEVEL as i64).unwrap_or(0)
}

impl Tables {
    /// What has the name that an eglCreateImage gives, in the group of the context that it names.
    pub fn image_source(&self, call: &Call) -> Option<u64>
        ensures { result ≡ option_and_then (λ h. object_named (state_in self.now) (group_of (state_in self.now) h.object) (source_kind call.now) (number call.now 3)) (source_context (state_in self.now) call.now) }
    {
        if matches!(call.kind, Kind::Egl(EglKind::ClientWaitSync)) {
            return None;
        }
        match self.handle_at(call, NAMED, HandleKind::Context) {
            Some(context) => {
                let name = name_of(call, CLIENT_BUFFER);
                self.object_named(context.object, source_kind(call), name)
            }
            None => None,
        }
    }

    /// Whether it has pixels.
    pub(crate) fn is_source(&self, source: Option<u64>) -> bool
        ensures { result ≡ is_source_in (state_in self.now).objects (option_and_then (object_at (state_in self.now)) source) }
    {
        match source {
            Some(object) => self.objects.is_source(object),
            None => false,
        }
    }

    /// Whether it is a texture with a level above 0 that isn't complete.
    pub(crate) fn is_incomplete(&self, source: Option<u64>) -> bool
        ensures { result ≡ is_incomplete_in (state_in self.now).objects (option_and_then (object_at (state_in self.now)) source) }
    {
        match source {
            Some(object) => self.objects.is_incomplete(object),
            None => false,
        }
    }

    /// The storage of a level; no level has a negative number.
    #[tactic(auto, using(crate::proofs::ImageLaws::no_negative, crate::proofs::ImageLaws::some_level))]
    fn level_pixels(&self, object: u64, level: i64) -> Option<u64>
        ensures { result ≡ level_pixels level (object_at (state_in self.now) object) }
    {
        if level < 0 {
            return None;
        }
        self.objects.pixels(object, unsigned(level))
    }

    fn has_pixels(&self, storage: u64) -> bool
        ensures { result ≡ has_pixels (storage_in (state_in self.now).objects storage) }
    {
        match self.objects.storage(storage) {
            Some(storage) => storage.width() > 0 && storage.height() > 0,
            None => false,
        }
    }

    /// A storage with sides above 0.
    #[tactic(auto, using(crate::proofs::ImageLaws::pixels_stored))]
    fn with_pixels(&self, storage: Option<u64>) -> Option<u64>
        ensures value { result ≡ with_pixels_in (state_in self.now).objects storage }
        ensures there { IfSome result (λ k. IsSome (storage_in (state_in self.now).objects k)) }
    {
        match storage {
            Some(storage) => {
                if self.has_pixels(storage) {
                    Some(storage)
                } else {
                    None
                }
            }
            None => None,
        }
    }

    /// The storage of the level that an eglCreateImage names.
    #[tactic(auto, using(crate::proofs::ImageLaws::no_source))]
    pub fn level_of_source(&self, source: Option<u64>, call: &Call) -> Option<u64>
        ensures value { result ≡ with_pixels_in (state_in self.now).objects (level_pixels (asked_level call.now) (option_and_then (object_at (state_in self.now)) source)) }
        ensures there { IfSome result (λ k. IsSome (storage_in (state_in self.now).objects k)) }
    {
        match source {
            Some(object) => self.with_pixels(self.level_pixels(object, asked_level(call))),
            None => None,
        }
    }

    /// Whether something besides a texture or a renderbuffer refers to a storage.
    #[tactic(auto, using(crate::proofs::CountLaws::references_counted))]
    pub(crate) fn is_sibling(&self, storage: Option<u64>) -> bool
        requires { KnowsRoots self.now }
        ensures { result ≡ is_sibling (state_in self.now) storage }
    {
        match storage {
            Some(storage) => !may_create(self.references(storage)),
            None => false,
        }
    }

    /// The handle of the image that a call of OpenGL ES names: one of its context's display.
    pub(crate) fn target_handle(&self, context: u64, call: &Call) -> Option<Handle>
        ensures { result ≡ target_handle (state_in self.now) context call.now }
    {
        let display = i64::from(self.display_at(Some(context)));
        self.displays
            .handle(display, signed(call, TARGET_IMAGE), HandleKind::Image)
    }

    /// That image.
    #[tactic(auto, using(crate::proofs::ImageLaws::image_pixels))]
    pub fn target_image(&self, context: u64, call: &Call) -> Option<EglImage>
        ensures value { result ≡ target_image (state_in self.now) context call.now }
        ensures there { IfSome result (λ i. IsPixels (state_in self.now).objects i.storage) }
    {
        self.objects.leads_down();
        match self.target_handle(context, call) {
            Some(handle) => self.objects.image(handle.object),
            None => None,
        }
    }

    /// Whether a renderbuffer may have the pixels of an image.
    pub(crate) fn is_renderable(&self, image: Option<EglImage>) -> bool
        ensures { result ≡ is_renderable (image_storage (state_in self.now).objects image) }
    {
        match image {
            Some(image) => match self.objects.storage(image.storage) {
                Some(storage) => may_target_renderbuffer(storage.format()),
                None => false,
            },
            None => false,
        }
    }
}
