//! What the conditions of the calls on renderbuffers ask (OES_framebuffer_object).
ghost use Rattle.std.specs.Prelude.{◌≡◌};
ghost use Rattle.call_rules.specs.RenderbufferRules.{is_no_side, is_renderbuffer_parameter};

use egl_names::codes::{GL_RENDERBUFFER_HEIGHT_OES, GL_RENDERBUFFER_WIDTH_OES};

pub(crate) fn is_renderbuffer_parameter(pname: u64) -> bool
    ensures { result ≡ is_renderbuffer_parameter pname }
{
    pname == GL_RENDERBUFFER_WIDTH_OES || pname == GL_RENDERBUFFER_HEIGHT_OES
}

/// A renderbuffer's sides, and those of pixels that are read, are at most 2,048.
pub(crate) fn is_no_side(side: i64) -> bool
    ensures { result ≡ is_no_side side }
{
    side < 0 || side > 2_048
}
