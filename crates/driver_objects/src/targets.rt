//! What a context binds objects to.
ghost use Rattle.std.specs.Prelude.{◌≡◌, ◌<◌};
ghost use Rattle.driver_objects.specs.Links.{bound_in};
ghost use Rattle.driver_objects.specs.Targets.{binding_of, buffer_target, name_kind, slot_of, target_of};

use crate::contexts::BoundObjects;
use egl_names::codes::{
    GL_ARRAY_BUFFER_BINDING, GL_ELEMENT_ARRAY_BUFFER, GL_ELEMENT_ARRAY_BUFFER_BINDING,
    GL_FRAMEBUFFER_BINDING_OES, GL_RENDERBUFFER_BINDING_OES, GL_TEXTURE_BINDING_2D,
};
use share_group::NameKind;

/// What a context binds objects with names to (OpenGL ES 1.1, sections 2.9 and 3.7.11; OES_framebuffer_object).
#[derive(Clone, Copy, Debug, PartialEq, Eq, Drop)]
pub enum BindTarget {
    Texture,
    ArrayBuffer,
    ElementArrayBuffer,
    Renderbuffer,
    Framebuffer,
}

impl BindTarget {
    /// The slot of a context for what it has bound there.
    pub fn slot(self) -> u64
        ensures value { result ≡ slot_of self }
        ensures within { (1 < result) × (result < 7) }
    {
        match self {
            BindTarget::Texture => 2,
            BindTarget::ArrayBuffer => 3,
            BindTarget::ElementArrayBuffer => 4,
            BindTarget::Renderbuffer => 5,
            BindTarget::Framebuffer => 6,
        }
    }

    /// The code of the name by which the binding is asked for (section 6.1).
    pub fn binding(self) -> u64
        ensures { result ≡ binding_of self }
    {
        match self {
            BindTarget::Texture => GL_TEXTURE_BINDING_2D,
            BindTarget::ArrayBuffer => GL_ARRAY_BUFFER_BINDING,
            BindTarget::ElementArrayBuffer => GL_ELEMENT_ARRAY_BUFFER_BINDING,
            BindTarget::Renderbuffer => GL_RENDERBUFFER_BINDING_OES,
            BindTarget::Framebuffer => GL_FRAMEBUFFER_BINDING_OES,
        }
    }

    /// The kind of the names of what is bound there.
    pub fn names(self) -> NameKind
        ensures { result ≡ name_kind self }
    {
        match self {
            BindTarget::Texture => NameKind::Texture,
            BindTarget::ArrayBuffer | BindTarget::ElementArrayBuffer => NameKind::Buffer,
            BindTarget::Renderbuffer => NameKind::Renderbuffer,
            BindTarget::Framebuffer => NameKind::Framebuffer,
        }
    }

    /// What is bound there.
    pub fn bound(self, bound: &BoundObjects) -> Option<u64>
        ensures { result ≡ bound_in (slot_of self) bound.now }
    {
        match self {
            BindTarget::Texture => bound.texture,
            BindTarget::ArrayBuffer => bound.array_buffer,
            BindTarget::ElementArrayBuffer => bound.element_array_buffer,
            BindTarget::Renderbuffer => bound.renderbuffer,
            BindTarget::Framebuffer => bound.framebuffer,
        }
    }
}

/// The target of buffers by its code: GL_ELEMENT_ARRAY_BUFFER, or else GL_ARRAY_BUFFER.
pub fn buffer_target(code: u64) -> BindTarget
    ensures { result ≡ buffer_target code }
{
    if code == GL_ELEMENT_ARRAY_BUFFER {
        BindTarget::ElementArrayBuffer
    } else {
        BindTarget::ArrayBuffer
    }
}

/// The target of the objects with names of a kind, by its code.
pub fn target_of(names: NameKind, code: u64) -> BindTarget
    ensures { result ≡ target_of names code }
{
    match names {
        NameKind::Texture => BindTarget::Texture,
        NameKind::Buffer => buffer_target(code),
        NameKind::Renderbuffer => BindTarget::Renderbuffer,
        NameKind::Framebuffer => BindTarget::Framebuffer,
    }
}
