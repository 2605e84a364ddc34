//! Calls that write an image at its whole, up to the largest sides.
ghost use Rattle.texture_objects.specs.Uploads.{IsPartCall};

use crate::images::{CLEAR, RED, SIDE, corners, frozen, red, shared};
use context_state::ContextPart;
use egl_calls::{Call, GlKind, Kind, Numbers};
use egl_names::codes::{GL_RGBA, GL_TEXTURE_2D, GL_UNSIGNED_BYTE};
use pixel_rows::Image;
use rect_pipeline::clear;
use std::alloc::Global;
use std::process::Abort;
use texture_objects::{form_of, tex_sub_image};

/// A glTexSubImage2D of a whole image, by the null pointer.
fn whole_call<R: Abort>(rt: &R, alloc: Global, into: &Image) -> Call
    ensures { IsPartCall result into.now }
{
    let (format, kind) = (GL_RGBA as i64, GL_UNSIGNED_BYTE as i64);
    assert!(rt; form_of(format, kind).is_some());
    let (w, h) = (i64::from(into.width()), i64::from(into.height()));
    Call {
        kind: Kind::Gl(GlKind::TexSubImage2d),
        args: [GL_TEXTURE_2D as i64, 0, 0, 0, w, h, format, kind],
        list: Numbers::new(alloc),
        bytes: None,
    }
}

#[test]
fn the_widest_uploads_find_memory(rt: HostRuntime) {
    let first = frozen(&rt, red(&rt, rt.alloc(), 1_024));
    let mut second = shared(&rt, &first);
    let call = whole_call(&rt, rt.alloc(), &second);
    tex_sub_image(rt.alloc(), &mut second, &call, 8).expect(&rt, "memory");
    assert!(rt; (corners(&rt, &first), corners(&rt, &second)) == ([RED; 2], [CLEAR; 2]));
}

/// The bits of buffers, and whether the colours are cleared.
static MASKS: [(i64, bool); 5] = [(0, false), (6, false), (-2, false), (1, true), (7, true)];

#[test]
fn a_clear_of_the_largest_image_is_one_of_its_colours(rt: HostRuntime) {
    for (mask, is_cleared) in MASKS.iter() {
        let mut image = frozen(&rt, red(&rt, rt.alloc(), SIDE));
        clear(&mut image, &ContextPart::new(), *mask).expect(&rt, "memory");
        let left = if *is_cleared { CLEAR } else { RED };
        assert!(rt; corners(&rt, &image) == [left; 2], "{mask}");
    }
}
