//! The names of EGL and OpenGL ES and their codes.
ghost use Rattle.std.specs.Prelude.{◌≡◌, ◌+◌, ◌<◌, map, length};
ghost use Rattle.std.specs.Option.{option_copied};
ghost use Rattle.egl_names.specs.Names.{name_at, name_of, code_of, place_of};
ghost use Rattle.egl_names.specs.Rows.{stands_at, first_at, AreByLength};

use egl_calls::{Text, unsigned};

/// Every name, in the order of the codes.
pub static NAMES: [&str; 164] = [
    // The errors of EGL and of OpenGL ES.
    "EGL_SUCCESS",
    "EGL_NOT_INITIALIZED",
    "EGL_BAD_ACCESS",
    "EGL_BAD_ALLOC",
    "EGL_BAD_ATTRIBUTE",
    "EGL_BAD_CONFIG",
    "EGL_BAD_CONTEXT",
    "EGL_BAD_CURRENT_SURFACE",
    "EGL_BAD_DISPLAY",
    "EGL_BAD_MATCH",
    "EGL_BAD_NATIVE_PIXMAP",
    "EGL_BAD_NATIVE_WINDOW",
    "EGL_BAD_PARAMETER",
    "EGL_BAD_SURFACE",
    "EGL_CONTEXT_LOST",
    "GL_NO_ERROR",
    "GL_INVALID_ENUM",
    "GL_INVALID_VALUE",
    "GL_INVALID_OPERATION",
    "GL_OUT_OF_MEMORY",
    "GL_INVALID_FRAMEBUFFER_OPERATION_OES",
    // The attributes of a config.
    "EGL_BUFFER_SIZE",
    "EGL_RED_SIZE",
    "EGL_GREEN_SIZE",
    "EGL_BLUE_SIZE",
    "EGL_ALPHA_SIZE",
    "EGL_LUMINANCE_SIZE",
    "EGL_ALPHA_MASK_SIZE",
    "EGL_DEPTH_SIZE",
    "EGL_STENCIL_SIZE",
    "EGL_SAMPLE_BUFFERS",
    "EGL_SAMPLES",
    "EGL_BIND_TO_TEXTURE_RGB",
    "EGL_BIND_TO_TEXTURE_RGBA",
    "EGL_CONFIG_CAVEAT",
    "EGL_CONFIG_ID",
    "EGL_MAX_SWAP_INTERVAL",
    "EGL_MIN_SWAP_INTERVAL",
    "EGL_NATIVE_RENDERABLE",
    "EGL_NATIVE_VISUAL_ID",
    "EGL_NATIVE_VISUAL_TYPE",
    "EGL_TRANSPARENT_TYPE",
    "EGL_TRANSPARENT_RED_VALUE",
    "EGL_TRANSPARENT_GREEN_VALUE",
    "EGL_TRANSPARENT_BLUE_VALUE",
    "EGL_COLOR_BUFFER_TYPE",
    "EGL_LEVEL",
    "EGL_SURFACE_TYPE",
    "EGL_RENDERABLE_TYPE",
    "EGL_CONFORMANT",
    "EGL_MAX_PBUFFER_WIDTH",
    "EGL_MAX_PBUFFER_HEIGHT",
    "EGL_MAX_PBUFFER_PIXELS",
    // The other names of EGL.
    "EGL_NONE",
    "EGL_SLOW_CONFIG",
    "EGL_NON_CONFORMANT_CONFIG",
    "EGL_RGB_BUFFER",
    "EGL_LUMINANCE_BUFFER",
    "EGL_TRANSPARENT_RGB",
    "EGL_WIDTH",
    "EGL_HEIGHT",
    "EGL_LARGEST_PBUFFER",
    "EGL_RENDER_BUFFER",
    "EGL_BACK_BUFFER",
    "EGL_SINGLE_BUFFER",
    "EGL_SWAP_BEHAVIOR",
    "EGL_BUFFER_PRESERVED",
    "EGL_BUFFER_DESTROYED",
    "EGL_DRAW",
    "EGL_READ",
    "EGL_OPENGL_ES_API",
    "EGL_OPENVG_API",
    "EGL_OPENGL_API",
    "EGL_CONTEXT_CLIENT_TYPE",
    "EGL_CONTEXT_CLIENT_VERSION",
    "EGL_CONTEXT_MINOR_VERSION",
    "EGL_SYNC_FENCE",
    "EGL_SYNC_TYPE",
    "EGL_SYNC_STATUS",
    "EGL_SYNC_CONDITION",
    "EGL_SYNC_PRIOR_COMMANDS_COMPLETE",
    "EGL_SIGNALED",
    "EGL_UNSIGNALED",
    "EGL_CONDITION_SATISFIED",
    "EGL_TIMEOUT_EXPIRED",
    "EGL_GL_TEXTURE_2D",
    "EGL_GL_RENDERBUFFER",
    "EGL_GL_TEXTURE_LEVEL",
    "EGL_IMAGE_PRESERVED",
    // The names of OpenGL ES.
    "GL_TEXTURE_2D",
    "GL_SCISSOR_TEST",
    "GL_DITHER",
    "GL_BLEND",
    "GL_DEPTH_TEST",
    "GL_ALPHA_TEST",
    "GL_STENCIL_TEST",
    "GL_CULL_FACE",
    "GL_LIGHTING",
    "GL_FOG",
    "GL_TEXTURE_ENV",
    "GL_TEXTURE_ENV_MODE",
    "GL_MODULATE",
    "GL_REPLACE",
    "GL_UNPACK_ALIGNMENT",
    "GL_PACK_ALIGNMENT",
    "GL_TEXTURE_MIN_FILTER",
    "GL_TEXTURE_MAG_FILTER",
    "GL_TEXTURE_WRAP_S",
    "GL_TEXTURE_WRAP_T",
    "GL_NEAREST",
    "GL_LINEAR",
    "GL_NEAREST_MIPMAP_NEAREST",
    "GL_LINEAR_MIPMAP_NEAREST",
    "GL_NEAREST_MIPMAP_LINEAR",
    "GL_LINEAR_MIPMAP_LINEAR",
    "GL_REPEAT",
    "GL_CLAMP_TO_EDGE",
    "GL_TEXTURE_CROP_RECT_OES",
    "GL_ALPHA",
    "GL_RGB",
    "GL_RGBA",
    "GL_LUMINANCE",
    "GL_LUMINANCE_ALPHA",
    "GL_UNSIGNED_BYTE",
    "GL_UNSIGNED_SHORT_5_6_5",
    "GL_UNSIGNED_SHORT_4_4_4_4",
    "GL_UNSIGNED_SHORT_5_5_5_1",
    "GL_ARRAY_BUFFER",
    "GL_ELEMENT_ARRAY_BUFFER",
    "GL_STATIC_DRAW",
    "GL_DYNAMIC_DRAW",
    "GL_BUFFER_SIZE",
    "GL_BUFFER_USAGE",
    "GL_FRAMEBUFFER_OES",
    "GL_RENDERBUFFER_OES",
    "GL_RGB565_OES",
    "GL_RGBA4_OES",
    "GL_RGB5_A1_OES",
    "GL_RGBA8_OES",
    "GL_DEPTH_COMPONENT16_OES",
    "GL_STENCIL_INDEX8_OES",
    "GL_COLOR_ATTACHMENT0_OES",
    "GL_DEPTH_ATTACHMENT_OES",
    "GL_STENCIL_ATTACHMENT_OES",
    "GL_FRAMEBUFFER_COMPLETE_OES",
    "GL_FRAMEBUFFER_INCOMPLETE_ATTACHMENT_OES",
    "GL_FRAMEBUFFER_INCOMPLETE_MISSING_ATTACHMENT_OES",
    "GL_FRAMEBUFFER_INCOMPLETE_DIMENSIONS_OES",
    "GL_FRAMEBUFFER_UNSUPPORTED_OES",
    "GL_FRAMEBUFFER_ATTACHMENT_OBJECT_TYPE_OES",
    "GL_FRAMEBUFFER_ATTACHMENT_OBJECT_NAME_OES",
    "GL_NONE_OES",
    "GL_TEXTURE",
    "GL_RENDERBUFFER_WIDTH_OES",
    "GL_RENDERBUFFER_HEIGHT_OES",
    "GL_TEXTURE_BINDING_2D",
    "GL_ARRAY_BUFFER_BINDING",
    "GL_ELEMENT_ARRAY_BUFFER_BINDING",
    "GL_FRAMEBUFFER_BINDING_OES",
    "GL_RENDERBUFFER_BINDING_OES",
    "GL_VIEWPORT",
    "GL_SCISSOR_BOX",
    "GL_MAX_TEXTURE_SIZE",
    "GL_FRAMEBUFFER_UNDEFINED_OES",
];

/// The places in `NAMES` of the names of each length.
static NAMES_BY_LENGTH: [&[u8]; 49] = [
    &[],
    &[],
    &[],
    &[],
    &[],
    &[],
    &[98, 119],
    &[120],
    &[53, 68, 69, 92, 118],
    &[46, 59, 91, 110, 115],
    &[60, 102, 109, 152],
    &[0, 15, 31, 97, 101, 151, 160],
    &[22, 81, 96, 121, 136, 138],
    &[3, 9, 24, 35, 77, 89, 93, 94, 135],
    &[
        2, 5, 23, 25, 28, 49, 56, 71, 72, 76, 82, 99, 129, 131, 137, 161,
    ],
    &[6, 8, 13, 16, 21, 54, 63, 78, 90, 95, 127, 130, 132],
    &[14, 17, 19, 29, 47, 116, 123],
    &[4, 12, 34, 62, 64, 65, 70, 85, 104, 107, 108],
    &[26, 30, 79, 122, 133],
    &[1, 27, 48, 58, 61, 84, 86, 88, 100, 103, 134, 162],
    &[18, 39, 41, 57, 66, 67, 87],
    &[10, 11, 36, 37, 38, 45, 50, 105, 106, 140, 155],
    &[40, 51, 52],
    &[7, 32, 73, 83, 114, 124, 128, 142, 156],
    &[33, 112, 113, 117, 139, 141],
    &[42, 55, 75, 111, 125, 126, 143, 153],
    &[44, 74, 154, 158],
    &[43, 144, 159],
    &[163],
    &[],
    &[148],
    &[157],
    &[80],
    &[],
    &[],
    &[],
    &[20],
    &[],
    &[],
    &[],
    &[145, 147],
    &[149, 150],
    &[],
    &[],
    &[],
    &[],
    &[],
    &[],
    &[146],
];

/// The code of the first name.
const FIRST_CODE: u32 = 3_000_000_000;

/// Whether a text stands in a list at a place.
fn stands_at(list: &[&str], text: &[u8], place: u8) -> bool
    ensures { result ≡ stands_at (map (λ s. s.now) list.now) text.now place }
{
    match list.get(place as usize) {
        Some(name) => name.as_bytes() == text,
        None => false,
    }
}

/// The first of some places at which a text stands in a list.
fn first_at(list: &[&str], places: &[u8], text: &[u8]) -> Option<u8>
    ensures { result ≡ first_at (map (λ s. s.now) list.now) places.now text.now }
{
    for place in places {
        if stands_at(list, text, *place) {
            return Some(*place);
        }
    }
    None
}

/// The place of a text in a list, of which the places are known for each length.
fn place_of(list: &[&str], rows: &[&[u8]], text: &[u8]) -> Option<u8>
    requires { AreByLength (map (λ s. s.now) list.now) (map (λ r. r.now) rows.now) }
    ensures { result ≡ place_of (map (λ s. s.now) list.now) text.now }
{
    match rows.get(text.len()) {
        Some(places) => first_at(list, places, text),
        None => None,
    }
}

/// The code of a name: 3,000,000,000 and its place in the list of names.
pub fn code_of_word(word: &[u8]) -> Option<u32>
    ensures { result ≡ code_of word.now }
{
    match place_of(&NAMES, &NAMES_BY_LENGTH, word) {
        Some(place) => Some(FIRST_CODE + place as u32),
        None => None,
    }
}

/// The code of a name: 3,000,000,000 and its place in the list of names.
pub fn code_of(text: &Text) -> Option<u32>
    ensures { result ≡ code_of text.now }
{
    code_of_word(text.as_slice())
}

/// The item of a list of names at a code.
fn name_at(list: &[&'static str], code: u64) -> Option<&'static str>
    ensures { option_copied result ≡ name_at (map (λ s. s.now) list.now) code }
{
    if code < FIRST_CODE as u64 {
        return None;
    }
    list.get((code - FIRST_CODE as u64) as usize).copied()
}

/// The name with a code. No code is 0 or negative.
pub fn name_of(code: i64) -> Option<&'static str>
    ensures { option_copied result ≡ name_of code }
{
    name_at(&NAMES, unsigned(code))
}
