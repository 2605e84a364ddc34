//! What the rules of OpenGL ES ask about a state.
ghost use Rattle.std.specs.Prelude.{◌≡◌};
ghost use Rattle.call_rules.specs.GlRules.{no_gl_facts};

/// What a call of OpenGL ES is judged by, besides its own numbers. Each call asks for some of it; the rest is as in `none`.
#[derive(Clone, Copy, Debug, PartialEq, Eq, Drop)]
pub struct GlFacts {
    /// The bytes of all pixels and buffers.
    pub live_bytes: u64,
    /// glTexImage2D: the bytes of the new level.
    pub image_bytes: u64,
    /// glCopyTexImage2D: the bytes of the new level.
    pub copied_bytes: u64,
    /// glBufferData: the bytes of the new contents.
    pub data_bytes: u64,
    /// glRenderbufferStorageOES: the bytes of the new pixels.
    pub storage_bytes: u64,
    /// How many bytes there may be.
    pub video_limit: u64,
    /// The framebuffer that is drawn to and read from is complete (OES_framebuffer_object).
    pub is_framebuffer_complete: bool,
    /// The pixels that are read have alpha.
    pub has_read_alpha: bool,
    /// glTexSubImage2D and glCopyTexSubImage2D: the level has storage.
    pub is_stored: bool,
    /// The width of that storage, in pixels.
    pub stored_width: u64,
    /// Its height, in pixels.
    pub stored_height: u64,
    /// The code of its base format.
    pub stored_base: u64,
    /// What is bound to the call's target of buffers isn't the name 0.
    pub is_buffer_bound: bool,
    /// The same of renderbuffers.
    pub is_renderbuffer_bound: bool,
    /// The same of framebuffers.
    pub is_framebuffer_bound: bool,
    /// How many bytes the buffer has that is bound to the call's target.
    pub buffer_size: u64,
    /// glFramebufferTexture2DOES: the name has a texture.
    pub is_texture_named: bool,
    /// glFramebufferRenderbufferOES: the name has a renderbuffer.
    pub is_renderbuffer_named: bool,
    /// glGetFramebufferAttachmentParameterivOES: something is attached at the point.
    pub is_attached: bool,
    /// The calls that take over an image's pixels: it is a valid image of the context's display.
    pub is_image: bool,
    /// The format of those pixels is one that a renderbuffer may have.
    pub is_renderable: bool,
}

impl GlFacts {
    /// No fact holds, and each number is 0.
    pub const fn none() -> GlFacts
        ensures { result ≡ no_gl_facts }
    {
        GlFacts {
            live_bytes: 0,
            image_bytes: 0,
            copied_bytes: 0,
            data_bytes: 0,
            storage_bytes: 0,
            video_limit: 0,
            is_framebuffer_complete: false,
            has_read_alpha: false,
            is_stored: false,
            stored_width: 0,
            stored_height: 0,
            stored_base: 0,
            is_buffer_bound: false,
            is_renderbuffer_bound: false,
            is_framebuffer_bound: false,
            buffer_size: 0,
            is_texture_named: false,
            is_renderbuffer_named: false,
            is_attached: false,
            is_image: false,
            is_renderable: false,
        }
    }
}
