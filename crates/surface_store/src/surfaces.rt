//! Surfaces: of windows and of no window.

ghost use Rattle.std.specs.Prelude.{◌≡◌, ◌≤◌, pos, ◌≤ℤ◌, IfOk, IfSome};
ghost use Rattle.egl_calls.specs.Ranges.{IsNumber};
ghost use Rattle.surface_store.specs.Surfaces as values;
ghost use Rattle.surface_store.specs.Surfaces.{IsBackOf};

use crate::formats::format_of;
use crate::windows::WindowSpec;
use egl_calls::{NoMemory, unsigned};
use egl_names::codes::{
    EGL_BACK_BUFFER, EGL_BUFFER_DESTROYED, EGL_BUFFER_PRESERVED, EGL_CONFIG_ID, EGL_HEIGHT,
    EGL_LARGEST_PBUFFER, EGL_RENDER_BUFFER, EGL_SINGLE_BUFFER, EGL_SWAP_BEHAVIOR, EGL_WIDTH,
};
use pixel_rows::Image;
use std::alloc::Global;
use std::marker::Model;

/// A surface of a config. Its sides are at most 2,048 pixels.
///
/// It is made with an image of the config's format and keeps it until that is taken out.
#[derive(Drop)]
pub struct Surface {
    config: i64,
    width: u32,
    height: u32,
    is_largest: bool,
    back: Option<Image>,
    window: Option<i64>,
    single: bool,
    preserve: bool,
}

impl Model for Surface {
    ghost use Rattle.surface_store.specs.Surfaces.{SurfaceValue, IsMade};

    ghost Value = { SurfaceValue };

    ghost view = { λ s. record { config = s.config; width = s.width; height = s.height; is_largest = s.is_largest; back = s.back; window = s.window; single = s.single; preserve = s.preserve } };

    ghost invariant = { λ s. IsMade s.config s.width s.height s.back };
}

impl Surface {
    /// A pbuffer whose stored components are all 0 (EGL 1.5, section 3.5.2). `largest` is what
    /// EGL_LARGEST_PBUFFER asked for.
    pub fn pbuffer(
        alloc: Global,
        config: i64,
        w: u32,
        h: u32,
        largest: bool,
    ) -> Result<Surface, NoMemory>
        requires config { (pos 1 ≤ℤ config) × (config ≤ℤ pos 8) }
        requires sides { (w ≤ 2048) × (h ≤ 2048) }
        ensures { IfOk result (λ s. s ≡ values.pbuffer config w h largest) }
    {
        let image = Image::new(alloc, format_of(config), w, h)?;
        Ok(Surface {
            config,
            width: w,
            height: h,
            is_largest: largest,
            back: Some(image),
            window: None,
            single: false,
            preserve: true,
        })
    }

    /// A surface of a window, whose stored components are all 0 and whose swaps preserve them
    /// (EGL 1.5, section 3.5.1). `single` says that EGL_SINGLE_BUFFER was asked for.
    pub fn for_window(
        alloc: Global,
        config: i64,
        spec: WindowSpec,
        single: bool,
    ) -> Result<Surface, NoMemory>
        requires config { (pos 1 ≤ℤ config) × (config ≤ℤ pos 8) }
        requires wide { (1 ≤ spec.w) × (spec.w ≤ 2048) }
        requires high { (1 ≤ spec.h) × (spec.h ≤ 2048) }
        ensures { IfOk result (λ s. s ≡ values.for_window config spec single) }
    {
        let image = Image::new(alloc, format_of(config), spec.w, spec.h)?;
        Ok(Surface {
            config,
            width: spec.w,
            height: spec.h,
            is_largest: false,
            back: Some(image),
            window: Some(spec.id),
            single,
            preserve: true,
        })
    }

    /// Hands out the pixels that the surface was made with; none where they were taken out before.
    pub fn take_back(&mut self) -> Option<Image>
        ensures pixels { result ≡ self.old.back }
        ensures fits { IfSome result (IsBackOf self.old.config self.old.width self.old.height) }
        ensures taken { self.new ≡ values.taken self.old }
    {
        self.back.take()
    }

    /// The id of the config that the surface was made with.
    pub fn config(&self) -> i64
        ensures config { result ≡ self.now.config }
        ensures first { pos 1 ≤ℤ result }
        ensures last { result ≤ℤ pos 8 }
    {
        self.config
    }

    /// How many pixels a row has.
    pub fn width(&self) -> u32
        ensures width { result ≡ self.now.width }
        ensures within { result ≤ 2048 }
    {
        self.width
    }

    /// How many rows there are.
    pub fn height(&self) -> u32
        ensures height { result ≡ self.now.height }
        ensures within { result ≤ 2048 }
    {
        self.height
    }

    /// The id of the surface's window; none for a pbuffer.
    pub fn window(&self) -> Option<i64>
        ensures { result ≡ self.now.window }
    {
        self.window
    }

    /// Whether a swap preserves the back buffer: true at the start, and then as it was set.
    pub fn preserves(&self) -> bool
        ensures { result ≡ self.now.preserve }
    {
        self.preserve
    }

    /// Sets whether a swap preserves the back buffer (EGL 1.5, section 3.5.6, EGL_SWAP_BEHAVIOR).
    pub fn set_swap_behavior(&mut self, preserve: bool)
        ensures { self.new ≡ record self.old { preserve = preserve } }
    {
        self.preserve = preserve;
    }

    /// The value of an attribute; none where the number is no attribute of a surface
    /// (EGL 1.5, section 3.5.6).
    pub fn query(&self, attribute: i64) -> Option<i64>
        ensures value { result ≡ values.query self.now attribute }
        ensures number { IfSome result IsNumber }
    {
        let code = unsigned(attribute);
        if code == EGL_CONFIG_ID {
            Some(self.config)
        } else if code == EGL_WIDTH {
            Some(self.width as i64)
        } else if code == EGL_HEIGHT {
            Some(self.height as i64)
        } else if code == EGL_SWAP_BEHAVIOR {
            Some(if self.preserve {
                EGL_BUFFER_PRESERVED as i64
            } else {
                EGL_BUFFER_DESTROYED as i64
            })
        } else if code == EGL_RENDER_BUFFER {
            Some(if self.single {
                EGL_SINGLE_BUFFER as i64
            } else {
                EGL_BACK_BUFFER as i64
            })
        } else if code == EGL_LARGEST_PBUFFER {
            Some(if self.is_largest { 1 } else { 0 })
        } else {
            None
        }
    }
}
