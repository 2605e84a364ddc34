//! Which attributes and values a list may have.
ghost use Rattle.std.specs.Prelude.{◌≡◌, [], ◌∷◌};
ghost use Rattle.attrib_lists.specs.Ranges.{has_code, is_dont_care, is_size, is_choice, is_flag, size_attributes, choice_attributes, other_attributes, is_allowed, is_allowed_code, rows};

use egl_calls::unsigned;
use egl_names::codes::{
    EGL_ALPHA_MASK_SIZE, EGL_ALPHA_SIZE, EGL_BACK_BUFFER, EGL_BIND_TO_TEXTURE_RGB,
    EGL_BIND_TO_TEXTURE_RGBA, EGL_BLUE_SIZE, EGL_BUFFER_SIZE, EGL_COLOR_BUFFER_TYPE,
    EGL_CONFIG_CAVEAT, EGL_CONFIG_ID, EGL_CONFORMANT, EGL_CONTEXT_CLIENT_VERSION,
    EGL_CONTEXT_MINOR_VERSION, EGL_DEPTH_SIZE, EGL_DONT_CARE, EGL_GL_TEXTURE_LEVEL, EGL_GREEN_SIZE,
    EGL_HEIGHT, EGL_IMAGE_PRESERVED, EGL_LARGEST_PBUFFER, EGL_LEVEL, EGL_LUMINANCE_BUFFER,
    EGL_LUMINANCE_SIZE, EGL_MAX_PBUFFER_HEIGHT, EGL_MAX_PBUFFER_PIXELS, EGL_MAX_PBUFFER_WIDTH,
    EGL_MAX_SWAP_INTERVAL, EGL_MIN_SWAP_INTERVAL, EGL_NATIVE_RENDERABLE, EGL_NATIVE_VISUAL_ID,
    EGL_NATIVE_VISUAL_TYPE, EGL_NON_CONFORMANT_CONFIG, EGL_NONE, EGL_RED_SIZE, EGL_RENDER_BUFFER,
    EGL_RENDERABLE_TYPE, EGL_RGB_BUFFER, EGL_SAMPLE_BUFFERS, EGL_SAMPLES, EGL_SINGLE_BUFFER,
    EGL_SLOW_CONFIG, EGL_STENCIL_SIZE, EGL_SURFACE_TYPE, EGL_TRANSPARENT_BLUE_VALUE,
    EGL_TRANSPARENT_GREEN_VALUE, EGL_TRANSPARENT_RED_VALUE, EGL_TRANSPARENT_RGB,
    EGL_TRANSPARENT_TYPE, EGL_WIDTH,
};

/// The calls whose attribute lists are read: eglChooseConfig, eglCreateWindowSurface, eglCreatePbufferSurface, eglCreateContext and eglCreateImage.
#[derive(Clone, Copy, Debug, PartialEq, Eq, Drop)]
pub enum Allowed {
    Config,
    Window,
    Pbuffer,
    Context,
    Image,
}

fn is_size_attribute(code: u64) -> bool
    ensures { result ≡ has_code size_attributes code }
{
    match code {
        EGL_BUFFER_SIZE
        | EGL_RED_SIZE
        | EGL_GREEN_SIZE
        | EGL_BLUE_SIZE
        | EGL_ALPHA_SIZE
        | EGL_LUMINANCE_SIZE
        | EGL_ALPHA_MASK_SIZE
        | EGL_DEPTH_SIZE
        | EGL_STENCIL_SIZE
        | EGL_SAMPLE_BUFFERS
        | EGL_SAMPLES
        | EGL_SURFACE_TYPE
        | EGL_RENDERABLE_TYPE
        | EGL_CONFORMANT => true,
        _ => false,
    }
}

fn is_choice_attribute(code: u64) -> bool
    ensures { result ≡ has_code choice_attributes code }
{
    match code {
        EGL_BIND_TO_TEXTURE_RGB | EGL_BIND_TO_TEXTURE_RGBA | EGL_NATIVE_RENDERABLE => true,
        _ => false,
    }
}

fn is_other_attribute(code: u64) -> bool
    ensures { result ≡ has_code other_attributes code }
{
    match code {
        EGL_CONFIG_ID
        | EGL_MAX_SWAP_INTERVAL
        | EGL_MIN_SWAP_INTERVAL
        | EGL_NATIVE_VISUAL_ID
        | EGL_NATIVE_VISUAL_TYPE
        | EGL_TRANSPARENT_RED_VALUE
        | EGL_TRANSPARENT_GREEN_VALUE
        | EGL_TRANSPARENT_BLUE_VALUE
        | EGL_LEVEL
        | EGL_MAX_PBUFFER_WIDTH
        | EGL_MAX_PBUFFER_HEIGHT
        | EGL_MAX_PBUFFER_PIXELS => true,
        _ => false,
    }
}

fn is_caveat(code: u64) -> bool
    ensures { result ≡ has_code (EGL_NONE ∷ EGL_SLOW_CONFIG ∷ EGL_NON_CONFORMANT_CONFIG ∷ []) code }
{
    code == EGL_NONE || code == EGL_SLOW_CONFIG || code == EGL_NON_CONFORMANT_CONFIG
}

fn is_buffer_type(code: u64) -> bool
    ensures { result ≡ has_code (EGL_RGB_BUFFER ∷ EGL_LUMINANCE_BUFFER ∷ []) code }
{
    code == EGL_RGB_BUFFER || code == EGL_LUMINANCE_BUFFER
}

fn is_transparency(code: u64) -> bool
    ensures { result ≡ has_code (EGL_NONE ∷ EGL_TRANSPARENT_RGB ∷ []) code }
{
    code == EGL_NONE || code == EGL_TRANSPARENT_RGB
}

/// Whether a value is EGL_DONT_CARE.
pub fn is_dont_care(value: i64) -> bool
    ensures { result ≡ is_dont_care value }
{
    value == EGL_DONT_CARE
}

fn is_size(value: i64) -> bool
    ensures { result ≡ is_size value }
{
    value >= -1 && value <= 2_147_483_647
}

fn is_choice(value: i64) -> bool
    ensures { result ≡ is_choice value }
{
    value >= -1 && value <= 1
}

fn is_flag(value: i64) -> bool
    ensures { result ≡ is_flag value }
{
    value >= 0 && value <= 1
}

fn is_allowed_for_config(attribute: u64, value: i64) -> bool
    ensures { result ≡ is_allowed_code (rows Allowed.Config) attribute value }
{
    if is_size_attribute(attribute) {
        return is_size(value);
    }
    if is_choice_attribute(attribute) {
        return is_choice(value);
    }
    match attribute {
        EGL_CONFIG_CAVEAT => is_dont_care(value) || is_caveat(unsigned(value)),
        EGL_COLOR_BUFFER_TYPE => is_dont_care(value) || is_buffer_type(unsigned(value)),
        EGL_TRANSPARENT_TYPE => is_dont_care(value) || is_transparency(unsigned(value)),
        _ => is_other_attribute(attribute),
    }
}

fn is_allowed_for_window(attribute: u64, value: i64) -> bool
    ensures { result ≡ is_allowed_code (rows Allowed.Window) attribute value }
{
    match attribute {
        EGL_RENDER_BUFFER => {
            let code = unsigned(value);
            code == EGL_BACK_BUFFER || code == EGL_SINGLE_BUFFER
        }
        _ => false,
    }
}

fn is_allowed_for_pbuffer(attribute: u64, value: i64) -> bool
    ensures { result ≡ is_allowed_code (rows Allowed.Pbuffer) attribute value }
{
    match attribute {
        EGL_WIDTH | EGL_HEIGHT => true,
        EGL_LARGEST_PBUFFER => is_flag(value),
        _ => false,
    }
}

fn is_allowed_for_context(attribute: u64) -> bool
    ensures { result ≡ has_code (EGL_CONTEXT_CLIENT_VERSION ∷ EGL_CONTEXT_MINOR_VERSION ∷ []) attribute }
{
    attribute == EGL_CONTEXT_CLIENT_VERSION || attribute == EGL_CONTEXT_MINOR_VERSION
}

fn is_allowed_for_image(attribute: u64, value: i64) -> bool
    ensures { result ≡ is_allowed_code (rows Allowed.Image) attribute value }
{
    match attribute {
        EGL_IMAGE_PRESERVED => is_flag(value),
        EGL_GL_TEXTURE_LEVEL => true,
        _ => false,
    }
}

/// Whether a list of this kind may have the attribute with the value.
#[tactic(auto, unfolding(crate::specs::Ranges::is_allowed))]
pub fn is_allowed(allowed: Allowed, attribute: i64, value: i64) -> bool
    ensures { result ≡ is_allowed allowed attribute value }
{
    let code = unsigned(attribute);
    match allowed {
        Allowed::Config => is_allowed_for_config(code, value),
        Allowed::Window => is_allowed_for_window(code, value),
        Allowed::Pbuffer => is_allowed_for_pbuffer(code, value),
        Allowed::Context => is_allowed_for_context(code),
        Allowed::Image => is_allowed_for_image(code, value),
    }
}
