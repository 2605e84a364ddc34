//! The forms of transferred data.
ghost use Rattle.std.specs.Prelude.{◌≡◌};
ghost use Rattle.egl_calls.specs.Ranges.{unsigned};
ghost use Rattle.texture_objects.specs.Forms as forms;

use egl_calls::unsigned;
use egl_names::codes::{
    GL_ALPHA, GL_LUMINANCE, GL_LUMINANCE_ALPHA, GL_RGB, GL_RGBA, GL_UNSIGNED_BYTE,
    GL_UNSIGNED_SHORT_4_4_4_4, GL_UNSIGNED_SHORT_5_5_5_1, GL_UNSIGNED_SHORT_5_6_5,
};
use pixel_formats::{Base, Format, base_of};

/// A byte for each component of a format.
fn byte_form(format: u64) -> Option<Format>
    ensures { result ≡ forms.byte_form format }
{
    if format == GL_RGB {
        return Some(Format::Rgb888);
    }
    if format == GL_RGBA {
        return Some(Format::Rgba8888);
    }
    if format == GL_ALPHA {
        return Some(Format::A8);
    }
    if format == GL_LUMINANCE {
        return Some(Format::L8);
    }
    if format == GL_LUMINANCE_ALPHA {
        return Some(Format::La88);
    }
    None
}

/// The form of pixels with a format and a type, both by their codes; none where the two don't go together (OpenGL ES 1.1, "Unpacking").
pub fn form_of(format: i64, kind: i64) -> Option<Format>
    ensures { result ≡ forms.form_of (unsigned format) (unsigned kind) }
{
    let format = unsigned(format);
    let kind = unsigned(kind);
    if kind == GL_UNSIGNED_BYTE {
        return byte_form(format);
    }
    if kind == GL_UNSIGNED_SHORT_5_6_5 && format == GL_RGB {
        return Some(Format::Rgb565);
    }
    if kind == GL_UNSIGNED_SHORT_4_4_4_4 && format == GL_RGBA {
        return Some(Format::Rgba4444);
    }
    if kind == GL_UNSIGNED_SHORT_5_5_5_1 && format == GL_RGBA {
        return Some(Format::Rgba5551);
    }
    None
}

/// The code of the base format of a storage format (OpenGL ES 1.1, "Texture Image Specification").
pub fn base_code(format: Format) -> u64
    ensures { result ≡ forms.base_code format }
{
    match base_of(format) {
        Base::Rgb => GL_RGB,
        Base::Rgba => GL_RGBA,
        Base::Alpha => GL_ALPHA,
        Base::Luminance => GL_LUMINANCE,
        Base::LuminanceAlpha => GL_LUMINANCE_ALPHA,
    }
}
