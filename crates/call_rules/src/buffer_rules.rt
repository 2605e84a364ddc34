//! What the conditions of the calls on buffers ask (OpenGL ES 1.1, sections 2.9 and 6.1.12).
ghost use Rattle.std.specs.Prelude.{◌≡◌};
ghost use Rattle.call_rules.specs.BufferRules.{is_buffer_parameter, is_buffer_target, is_usage};

use egl_names::codes::{
    GL_ARRAY_BUFFER, GL_BUFFER_SIZE, GL_BUFFER_USAGE, GL_DYNAMIC_DRAW, GL_ELEMENT_ARRAY_BUFFER,
    GL_STATIC_DRAW,
};

pub(crate) fn is_buffer_target(target: u64) -> bool
    ensures { result ≡ is_buffer_target target }
{
    target == GL_ARRAY_BUFFER || target == GL_ELEMENT_ARRAY_BUFFER
}

pub(crate) fn is_buffer_parameter(pname: u64) -> bool
    ensures { result ≡ is_buffer_parameter pname }
{
    pname == GL_BUFFER_SIZE || pname == GL_BUFFER_USAGE
}

pub(crate) fn is_usage(usage: u64) -> bool
    ensures { result ≡ is_usage usage }
{
    usage == GL_STATIC_DRAW || usage == GL_DYNAMIC_DRAW
}
