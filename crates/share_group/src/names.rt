//! Names.

/// What a name of a share group may name.
#[derive(Clone, Copy, Debug, PartialEq, Eq, Drop)]
pub enum NameKind {
    Texture,
    Buffer,
    Renderbuffer,
    Framebuffer,
}

/// A used name, and its object once it was bound (OpenGL ES 1.1, section 3.7.11).
#[derive(Clone, Copy, Debug, PartialEq, Eq, Drop)]
pub struct Name {
    pub name: u32,
    pub object: Option<u64>,
}
