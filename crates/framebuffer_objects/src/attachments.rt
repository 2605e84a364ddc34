//! The names of attachment points.
ghost use Rattle.std.specs.Prelude.{◌≡◌};
ghost use Rattle.framebuffer_objects.specs.Attachments.{attachment_point, is_attachment};

use crate::points::Point;
use egl_names::codes::{
    GL_COLOR_ATTACHMENT0_OES, GL_DEPTH_ATTACHMENT_OES, GL_STENCIL_ATTACHMENT_OES,
};

/// Whether a code is that of an attachment point: GL_COLOR_ATTACHMENT0_OES, GL_DEPTH_ATTACHMENT_OES or GL_STENCIL_ATTACHMENT_OES (OES_framebuffer_object).
pub fn is_attachment(code: u64) -> bool
    ensures { result ≡ is_attachment code }
{
    code == GL_COLOR_ATTACHMENT0_OES
        || code == GL_DEPTH_ATTACHMENT_OES
        || code == GL_STENCIL_ATTACHMENT_OES
}

/// The point of such a code; any other number stands for colour.
pub fn attachment_point(code: u64) -> Point
    ensures { result ≡ attachment_point code }
{
    if code == GL_DEPTH_ATTACHMENT_OES {
        return Point::Depth;
    }
    if code == GL_STENCIL_ATTACHMENT_OES {
        return Point::Stencil;
    }
    Point::Color
}
