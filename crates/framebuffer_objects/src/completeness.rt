//! Whether a framebuffer is complete.
ghost use Rattle.std.specs.Prelude.{◌≡◌, pos};
ghost use Rattle.egl_calls.specs.Ranges.{IsNumber};
ghost use Rattle.framebuffer_objects.specs.Completeness.{color_part, differ, is_color_renderable, is_incomplete, no_part, part_at, status, unattachable};

use egl_names::codes::{
    GL_FRAMEBUFFER_COMPLETE_OES, GL_FRAMEBUFFER_INCOMPLETE_ATTACHMENT_OES,
    GL_FRAMEBUFFER_INCOMPLETE_DIMENSIONS_OES, GL_FRAMEBUFFER_INCOMPLETE_MISSING_ATTACHMENT_OES,
    GL_FRAMEBUFFER_UNSUPPORTED_OES,
};
use pixel_formats::{Base, Format, base_of};

/// What stands at a point of a framebuffer: whether anything is attached there, whether that may be there, and its sides in pixels. Where nothing is attached only `present` counts.
#[derive(Clone, Copy, Debug, PartialEq, Eq, Drop)]
pub struct Part {
    pub present: bool,
    pub attachable: bool,
    pub w: u32,
    pub h: u32,
}

/// Whether a colour attachment may have pixels of this format: those that have red, green and blue.
pub fn is_color_renderable(format: Format) -> bool
    ensures { result ≡ is_color_renderable format }
{
    match base_of(format) {
        Base::Rgb | Base::Rgba => true,
        Base::Alpha | Base::Luminance | Base::LuminanceAlpha => false,
    }
}

impl Part {
    /// Nothing is attached.
    pub const fn none() -> Part
        ensures { result ≡ no_part }
    {
        Part {
            present: false,
            attachable: false,
            w: 0,
            h: 0,
        }
    }

    /// Something is attached that may not be there, such as a texture without storage.
    pub const fn unattachable() -> Part
        ensures { result ≡ unattachable }
    {
        Part {
            present: true,
            attachable: false,
            w: 0,
            h: 0,
        }
    }

    /// Pixels of a format with these sides are attached as colour.
    pub fn color(format: Format, w: u32, h: u32) -> Part
        ensures { result ≡ color_part format w h }
    {
        Part {
            present: true,
            attachable: is_color_renderable(format) && w > 0 && h > 0,
            w,
            h,
        }
    }
}

fn is_incomplete(part: Part) -> bool
    ensures { result ≡ is_incomplete part }
{
    part.present && !part.attachable
}

fn differ(one: Part, other: Part) -> bool
    ensures { result ≡ differ one other }
{
    one.present && other.present && (one.w != other.w || one.h != other.h)
}

/// The status of a framebuffer other than that of the window system, from the parts at its points in the order colour, depth, stencil: the code of the first that holds (OES_framebuffer_object, "Framebuffer Completeness").
pub fn status(parts: &[Part; 3]) -> i64
    ensures value { result ≡ pos (status (part_at parts.now 0) (part_at parts.now 1) (part_at parts.now 2)) }
    ensures number { IsNumber result }
{
    let [color, depth, stencil] = *parts;
    if is_incomplete(color) || is_incomplete(depth) || is_incomplete(stencil) {
        return GL_FRAMEBUFFER_INCOMPLETE_ATTACHMENT_OES as i64;
    }
    if !color.present && !depth.present && !stencil.present {
        return GL_FRAMEBUFFER_INCOMPLETE_MISSING_ATTACHMENT_OES as i64;
    }
    if differ(color, depth) || differ(color, stencil) || differ(depth, stencil) {
        return GL_FRAMEBUFFER_INCOMPLETE_DIMENSIONS_OES as i64;
    }
    if !color.present {
        return GL_FRAMEBUFFER_UNSUPPORTED_OES as i64;
    }
    GL_FRAMEBUFFER_COMPLETE_OES as i64
}
