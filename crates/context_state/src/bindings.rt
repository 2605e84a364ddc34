//! The names that a context has bound.
ghost use Rattle.std.specs.Prelude.{◌≡◌};
ghost use Rattle.context_state.specs.Bindings.{is_binding_code, name_bound, no_bindings, with_name};

use egl_names::codes::{
    GL_ARRAY_BUFFER_BINDING, GL_ELEMENT_ARRAY_BUFFER_BINDING, GL_FRAMEBUFFER_BINDING_OES,
    GL_RENDERBUFFER_BINDING_OES, GL_TEXTURE_BINDING_2D,
};

/// The names under which a context has objects bound; 0 where it has none, and for a texture its own texture 0.
#[derive(Clone, Copy, Debug, PartialEq, Eq)]
pub struct Bindings {
    pub texture: u32,
    pub array_buffer: u32,
    pub element_array_buffer: u32,
    pub renderbuffer: u32,
    pub framebuffer: u32,
}

impl Bindings {
    /// What a new context has bound.
    pub(crate) const fn new() -> Bindings
        ensures { result ≡ no_bindings }
    {
        Bindings {
            texture: 0,
            array_buffer: 0,
            element_array_buffer: 0,
            renderbuffer: 0,
            framebuffer: 0,
        }
    }

    /// Sets the name that is bound there, by the code of a binding's name: GL_TEXTURE_BINDING_2D, GL_ARRAY_BUFFER_BINDING, GL_ELEMENT_ARRAY_BUFFER_BINDING, GL_RENDERBUFFER_BINDING_OES or GL_FRAMEBUFFER_BINDING_OES. For another number nothing changes.
    pub fn set(&mut self, which: u64, name: u32)
        ensures { self.new ≡ with_name which name self.old }
    {
        if which == GL_TEXTURE_BINDING_2D {
            self.texture = name;
        }
        if which == GL_ARRAY_BUFFER_BINDING {
            self.array_buffer = name;
        }
        if which == GL_ELEMENT_ARRAY_BUFFER_BINDING {
            self.element_array_buffer = name;
        }
        if which == GL_RENDERBUFFER_BINDING_OES {
            self.renderbuffer = name;
        }
        if which == GL_FRAMEBUFFER_BINDING_OES {
            self.framebuffer = name;
        }
    }
}

/// Whether a code is that of a binding's name.
pub(crate) fn is_binding_code(which: u64) -> bool
    ensures { result ≡ is_binding_code which }
{
    which == GL_TEXTURE_BINDING_2D
        || which == GL_ARRAY_BUFFER_BINDING
        || which == GL_ELEMENT_ARRAY_BUFFER_BINDING
        || which == GL_RENDERBUFFER_BINDING_OES
        || which == GL_FRAMEBUFFER_BINDING_OES
}

/// The name bound there, by the code of a binding's name.
pub(crate) fn name_bound(which: u64, bound: &Bindings) -> u32
    ensures { result ≡ name_bound which bound.now }
{
    if which == GL_TEXTURE_BINDING_2D {
        return bound.texture;
    }
    if which == GL_ARRAY_BUFFER_BINDING {
        return bound.array_buffer;
    }
    if which == GL_ELEMENT_ARRAY_BUFFER_BINDING {
        return bound.element_array_buffer;
    }
    if which == GL_RENDERBUFFER_BINDING_OES {
        return bound.renderbuffer;
    }
    if which == GL_FRAMEBUFFER_BINDING_OES {
        return bound.framebuffer;
    }
    0
}
