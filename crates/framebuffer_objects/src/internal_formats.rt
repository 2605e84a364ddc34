//! The internal formats of renderbuffers.
ghost use Rattle.std.specs.Prelude.{◌≡◌};
ghost use Rattle.framebuffer_objects.specs.InternalFormats.{format_of, is_internal, point_of};

use crate::points::Point;
use egl_names::codes::{
    GL_DEPTH_COMPONENT16_OES, GL_RGB5_A1_OES, GL_RGB565_OES, GL_RGBA4_OES, GL_RGBA8_OES,
    GL_STENCIL_INDEX8_OES,
};
use pixel_formats::Format;

/// Whether a code is that of an internal format of renderbuffers: GL_RGB565_OES, GL_RGBA4_OES, GL_RGB5_A1_OES, GL_RGBA8_OES, GL_DEPTH_COMPONENT16_OES or GL_STENCIL_INDEX8_OES (OES_framebuffer_object).
pub fn is_internal(format: u64) -> bool
    ensures { result ≡ is_internal format }
{
    format == GL_RGB565_OES
        || format == GL_RGBA4_OES
        || format == GL_RGB5_A1_OES
        || format == GL_RGBA8_OES
        || format == GL_DEPTH_COMPONENT16_OES
        || format == GL_STENCIL_INDEX8_OES
}

/// The format of the pixels of an internal format, and none for depth and stencil, which hold no values.
pub fn format_of(internal: u64) -> Option<Format>
    ensures { result ≡ format_of internal }
{
    if internal == GL_RGB565_OES {
        return Some(Format::Rgb565);
    }
    if internal == GL_RGBA4_OES {
        return Some(Format::Rgba4444);
    }
    if internal == GL_RGB5_A1_OES {
        return Some(Format::Rgba5551);
    }
    if internal == GL_RGBA8_OES {
        return Some(Format::Rgba8888);
    }
    None
}

/// The point that a renderbuffer of an internal format is for.
pub(crate) fn point_of(internal: u64) -> Point
    ensures { result ≡ point_of internal }
{
    if internal == GL_DEPTH_COMPONENT16_OES {
        return Point::Depth;
    }
    if internal == GL_STENCIL_INDEX8_OES {
        return Point::Stencil;
    }
    Point::Color
}
