//! eglCreatePbufferSurface (EGL 1.5, section 3.5.2), eglQuerySurface and eglSurfaceAttrib (section 3.5.6).
ghost use Rattle.std.specs.Prelude.{◌≡◌, ◌<◌, ◌≤◌, IfSome, option_copied};
ghost use Rattle.egl_calls.specs.Ranges.{IsNumber};
ghost use Rattle.egl_calls.specs.Arguments.{signed};
ghost use Rattle.surface_store.specs.Formats.{format_of};
ghost use Rattle.surface_store.specs.Surfaces.{pbuffer};
ghost use Rattle.egl_model.specs.Surfaces.{side_of, surface_bytes, surface_value, value_of_surface};
ghost use Rattle.egl_model.specs.Arguments.{number};
ghost use Rattle.egl_model.specs.Facts.{is_surface_attribute};
ghost use Rattle.egl_model.specs.Objects.{surface_of};
ghost use Rattle.driver_facts.specs.Tables.{state_in};

use crate::tables::Tables;
use display_table::{Handle, HandleKind};
use driver_objects::BackedSurface;
use egl_calls::arguments::{number, signed};
use egl_calls::places::{ATTRIBUTE, NAMED};
use egl_calls::{Call, unsigned};
use egl_names::codes::{
    EGL_CONFIG_ID, EGL_HEIGHT, EGL_LARGEST_PBUFFER, EGL_RENDER_BUFFER, EGL_SWAP_BEHAVIOR, EGL_WIDTH,
};
use pixel_formats::bytes_of;
use surface_store::{Surface, format_of};

/// The side that a pbuffer gets.
pub fn side_of(asked: i64) -> u32
    ensures value { result ≡ side_of asked }
    ensures within { result ≤ 2048 }
{
    unsigned(asked).min(2048) as u32
}

/// The bytes of a surface's pixels.
pub(crate) fn surface_bytes(config: i64, w: u32, h: u32) -> u64
    requires { (w ≤ 2048) × (h ≤ 2048) }
    ensures { result ≡ surface_bytes config w h }
{
    w as u64 * h as u64 * bytes_of(format_of(config)) as u64
}

/// Whether surfaces have an attribute: all have the same.
pub(crate) fn is_surface_attribute(attribute: i64) -> bool
    ensures { result ≡ is_surface_attribute attribute }
{
    match unsigned(attribute) {
        EGL_CONFIG_ID | EGL_WIDTH | EGL_HEIGHT => true,
        EGL_SWAP_BEHAVIOR | EGL_RENDER_BUFFER | EGL_LARGEST_PBUFFER => true,
        _ => false,
    }
}

impl Tables {
    /// The surface that a handle names.
    fn surface_of(&self, handle: Option<Handle>) -> Option<&BackedSurface>
        ensures { option_copied result ≡ surface_of (state_in self.now) handle }
    {
        self.objects.surface(handle?.object)
    }

    /// The value of the attribute that a call asks for, of the surface that a handle names.
    fn attribute_of(&self, handle: Option<Handle>, call: &Call) -> Option<i64>
        ensures value { result ≡ value_of_surface (signed call.now 2) (surface_of (state_in self.now) handle) }
        ensures number { IfSome result IsNumber }
    {
        self.surface_of(handle)?
            .surface
            .query(signed(call, ATTRIBUTE))
    }

    /// The value of an attribute of the surface that a call names after its display.
    pub fn surface_value(&self, call: &Call) -> Option<i64>
        ensures value { result ≡ surface_value (state_in self.now) call.now }
        ensures number { IfSome result IsNumber }
    {
        let handle = self.handle_at(call, NAMED, HandleKind::Surface);
        self.attribute_of(handle, call)
    }
}
