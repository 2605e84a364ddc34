//! What the contents of a buffer are meant for.
ghost use Rattle.std.specs.Prelude.{◌≡◌, pos};
ghost use Rattle.egl_calls.specs.Ranges.{IsNumber};
ghost use Rattle.buffer_objects.specs.Usages.{usage_code, usage_of};

use egl_names::codes::{GL_DYNAMIC_DRAW, GL_STATIC_DRAW};

/// How often the contents of a buffer change. It changes nothing that can be seen, but for the answer to GL_BUFFER_USAGE.
#[derive(Clone, Copy, Debug, PartialEq, Eq, Drop)]
pub enum Usage {
    StaticDraw,
    DynamicDraw,
}

/// The usage of a name's code, GL_DYNAMIC_DRAW or else GL_STATIC_DRAW.
pub(crate) fn usage_of(code: u64) -> Usage
    ensures { result ≡ usage_of code }
{
    if code == GL_DYNAMIC_DRAW {
        Usage::DynamicDraw
    } else {
        Usage::StaticDraw
    }
}

/// The code of a usage's name.
pub(crate) fn usage_code(usage: Usage) -> u64
    ensures value { result ≡ usage_code usage }
    ensures number { IsNumber (pos result) }
{
    match usage {
        Usage::StaticDraw => GL_STATIC_DRAW,
        Usage::DynamicDraw => GL_DYNAMIC_DRAW,
    }
}
