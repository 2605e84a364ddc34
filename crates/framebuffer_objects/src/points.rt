//! The points at which a framebuffer has something attached.

/// An attachment point of a framebuffer, and the kind of a renderbuffer's storage.
#[derive(Clone, Copy, Debug, PartialEq, Eq, Drop)]
pub enum Point {
    Color,
    Depth,
    Stencil,
}
