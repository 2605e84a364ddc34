//! What the conditions of the calls that copy pixels into a texture ask (OpenGL ES 1.1, sections 3.7.1 and 3.7.2).
ghost use Rattle.std.specs.Prelude.{◌≡◌};
ghost use Rattle.call_rules.specs.CopyRules.{has_alpha};

use egl_names::codes::{GL_ALPHA, GL_LUMINANCE_ALPHA, GL_RGBA};

/// Whether a base format has alpha.
pub fn has_alpha(format: u64) -> bool
    ensures { result ≡ has_alpha format }
{
    format == GL_RGBA || format == GL_ALPHA || format == GL_LUMINANCE_ALPHA
}
