//! Renderbuffers.
use framebuffer_objects::Renderbuffer;

/// A renderbuffer, and the storage of its pixels; none before it has any, and for depth and stencil.
#[derive(Drop)]
pub struct BackedRenderbuffer {
    pub renderbuffer: Renderbuffer,
    pub storage: Option<u64>,
}
