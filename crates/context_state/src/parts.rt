//! What a context keeps for itself.
ghost use Rattle.std.specs.Prelude.{◌≡◌, true, if◌then◌else◌, Some, None, IfSome};
ghost use Rattle.egl_calls.specs.Ranges.{unsigned};
ghost use Rattle.context_state.specs.Bindings.{is_binding, name_bound, with_name};
ghost use Rattle.context_state.specs.Parts.{AreClamped, IsAlignment, IsBox, fresh, first_current, noted};

use crate::bindings::{Bindings, name_bound};
use egl_calls::{GlError, unsigned};
use std::marker::Model;

/// What a context of OpenGL ES keeps for itself: the error that glGetError answers next, its colours, boxes, switches and alignments, and the names that it has bound. It keeps no object.
///
/// None of its calls takes memory.
#[derive(Drop)]
pub struct ContextPart {
    pub(crate) error: GlError,
    // red, green, blue and alpha, in 16.16 fixed point from 0 to 1
    pub(crate) clear_color: [i64; 4],
    pub(crate) color: [i64; 4],
    // which of red, green, blue and alpha are written
    pub(crate) mask: [bool; 4],
    // left, bottom, width and height
    pub(crate) viewport: [i64; 4],
    pub(crate) scissor_box: [i64; 4],
    pub(crate) is_scissor_enabled: bool,
    pub(crate) is_texture_enabled: bool,
    pub(crate) is_replacing: bool,
    // in bytes
    pub(crate) pack_alignment: u32,
    pub(crate) unpack_alignment: u32,
    pub(crate) bound: Bindings,
    pub(crate) was_current: bool,
}

impl Model for ContextPart {
    ghost use Rattle.context_state.specs.Parts.{PartValue, AreInRange};

    ghost Value = { PartValue };

    ghost view = { λ p. record { error = p.error; clear_color = p.clear_color; color = p.color; mask = p.mask; viewport = p.viewport; scissor_box = p.scissor_box; is_scissor_enabled = p.is_scissor_enabled; is_texture_enabled = p.is_texture_enabled; is_replacing = p.is_replacing; pack_alignment = p.pack_alignment; unpack_alignment = p.unpack_alignment; bound = p.bound; was_current = p.was_current } };

    ghost invariant = { λ p. AreInRange p.clear_color p.color p.viewport p.scissor_box p.pack_alignment p.unpack_alignment };
}

/// 1 in 16.16 fixed point.
pub(crate) const ONE: i64 = 65_536;

/// The initial alignment of rows, in bytes (OpenGL ES 1.1, sections 3.6.1 and 4.3.1).
const INITIAL_ALIGNMENT: u32 = 4;

impl ContextPart {
    /// The state of a new context: no error, zeros as its clear colour, ones as its colour, all components written, nothing enabled, GL_MODULATE as its texture environment, alignments of 4 bytes, no viewport yet, and nothing bound.
    pub fn new() -> ContextPart
        ensures { result ≡ fresh }
    {
        ContextPart {
            error: GlError::NoError,
            clear_color: [0; 4],
            color: [ONE; 4],
            mask: [true; 4],
            viewport: [0; 4],
            scissor_box: [0; 4],
            is_scissor_enabled: false,
            is_texture_enabled: false,
            is_replacing: false,
            pack_alignment: INITIAL_ALIGNMENT,
            unpack_alignment: INITIAL_ALIGNMENT,
            bound: Bindings::new(),
            was_current: false,
        }
    }

    /// A second copy of it. It takes no memory.
    pub fn copy(&self) -> ContextPart
        ensures { result ≡ self.now }
    {
        ContextPart {
            error: self.error,
            clear_color: self.clear_color,
            color: self.color,
            mask: self.mask,
            viewport: self.viewport,
            scissor_box: self.scissor_box,
            is_scissor_enabled: self.is_scissor_enabled,
            is_texture_enabled: self.is_texture_enabled,
            is_replacing: self.is_replacing,
            pack_alignment: self.pack_alignment,
            unpack_alignment: self.unpack_alignment,
            bound: self.bound,
            was_current: self.was_current,
        }
    }

    /// The context is made current with a draw surface of these sides. The first time, its viewport and its scissor box become the surface (EGL 1.5, section 3.7.3).
    pub fn first_current(&mut self, w: u32, h: u32)
        ensures { self.new ≡ first_current w h self.old }
    {
        if self.was_current {
            return;
        }
        let whole = [0, 0, i64::from(w), i64::from(h)];
        self.viewport = whole;
        self.scissor_box = whole;
        self.was_current = true;
    }

    /// Keeps an error until glGetError reads it. Where one is kept already, the further one is lost (OpenGL ES 1.1, section 2.5).
    pub fn note_error(&mut self, e: GlError)
        ensures { self.new ≡ noted e self.old }
    {
        if let GlError::NoError = self.error {
            self.error = e;
        }
    }

    /// The name of the bound framebuffer, 0 for that of the window system.
    pub fn framebuffer(&self) -> u32
        ensures { result ≡ self.now.bound.framebuffer }
    {
        self.bound.framebuffer
    }

    /// Binds a name, 0 for none. `which` is the code of one of the five names of bindings, GL_TEXTURE_BINDING_2D, GL_ARRAY_BUFFER_BINDING, GL_ELEMENT_ARRAY_BUFFER_BINDING, GL_RENDERBUFFER_BINDING_OES and GL_FRAMEBUFFER_BINDING_OES.
    pub fn set_binding(&mut self, which: i64, name: u32)
        requires { is_binding which ≡ true }
        ensures { self.new ≡ record self.old { bound = with_name (unsigned which) name self.old.bound } }
    {
        self.bind(unsigned(which), name);
    }

    /// The same for any number: only the code of a binding's name changes anything.
    pub fn bind(&mut self, which: u64, name: u32)
        ensures { self.new ≡ record self.old { bound = with_name which name self.old.bound } }
    {
        self.bound.set(which, name);
    }

    /// The name that is bound, as glGetIntegerv answers it for `which`, the code of one of the five names of bindings.
    pub fn binding(&self, which: i64) -> u32
        requires { is_binding which ≡ true }
        ensures { result ≡ name_bound (unsigned which) self.now.bound }
    {
        name_bound(unsigned(which), &self.bound)
    }

    /// Red, green, blue and alpha of a clear, in 16.16 fixed point, each from 0 to 65,536 (OpenGL ES 1.1, section 4.2.3).
    pub fn clear_color(&self) -> [i64; 4]
        ensures value { result ≡ self.now.clear_color }
        ensures clamped { AreClamped result }
    {
        self.clear_color
    }

    /// Red, green, blue and alpha of a draw, in 16.16 fixed point, each from 0 to 65,536 (OpenGL ES 1.1, section 2.7).
    pub fn color(&self) -> [i64; 4]
        ensures value { result ≡ self.now.color }
        ensures clamped { AreClamped result }
    {
        self.color
    }

    /// Which of red, green, blue and alpha clears and draws write (OpenGL ES 1.1, section 4.2.2).
    pub fn mask(&self) -> [bool; 4]
        ensures { result ≡ self.now.mask }
    {
        self.mask
    }

    /// Left, bottom, width and height of the scissor box, in pixels, where GL_SCISSOR_TEST is enabled (OpenGL ES 1.1, section 4.1.2).
    pub fn scissor(&self) -> Option<[i64; 4]>
        ensures value { result ≡ (if self.now.is_scissor_enabled then Some self.now.scissor_box else None) }
        ensures in_range { IfSome result IsBox }
    {
        if self.is_scissor_enabled {
            Some(self.scissor_box)
        } else {
            None
        }
    }

    /// Whether GL_TEXTURE_2D is enabled.
    pub fn textured(&self) -> bool
        ensures { result ≡ self.now.is_texture_enabled }
    {
        self.is_texture_enabled
    }

    /// Whether the texture environment is GL_REPLACE, and not GL_MODULATE (OpenGL ES 1.1, section 3.7.12).
    pub fn replaces(&self) -> bool
        ensures { result ≡ self.now.is_replacing }
    {
        self.is_replacing
    }

    /// The alignment of rows that are read, in bytes (OpenGL ES 1.1, section 4.3.1).
    pub fn pack_align(&self) -> u32
        ensures value { result ≡ self.now.pack_alignment }
        ensures alignment { IsAlignment result }
    {
        self.pack_alignment
    }

    /// The alignment of rows that are given, in bytes (OpenGL ES 1.1, section 3.6.1).
    pub fn unpack_align(&self) -> u32
        ensures value { result ≡ self.now.unpack_alignment }
        ensures alignment { IsAlignment result }
    {
        self.unpack_alignment
    }
}
