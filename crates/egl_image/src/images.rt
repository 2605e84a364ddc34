//! EGL images, and where there may be one.
ghost use Rattle.std.specs.Prelude.{◌≡◌};
ghost use Rattle.egl_image.specs.Images.{may_create, may_target_renderbuffer};

use framebuffer_objects::is_color_renderable;
use pixel_formats::Format;

/// An EGL image: the number of the pixel storage that its siblings share.
#[derive(Clone, Copy, Debug, PartialEq, Eq, Drop)]
pub struct EglImage {
    pub storage: u64,
}

/// Whether an image may be made of a storage that so many references lead to: exactly where only its texture or renderbuffer refers to it, so that it is no sibling yet (EGL 1.5, section 3.9).
pub fn may_create(references: u64) -> bool
    ensures { result ≡ may_create references }
{
    references == 1
}

/// Whether a renderbuffer may take over pixels of this format: those that have red, green and blue (OES_EGL_image; OES_framebuffer_object, "Renderbuffer Objects").
pub fn may_target_renderbuffer(format: Format) -> bool
    ensures { result ≡ may_target_renderbuffer format }
{
    is_color_renderable(format)
}
