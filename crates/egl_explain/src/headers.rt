//! What EGL and OpenGL ES have beside what a trace may say: the numbers of their headers for names that a trace writes, and calls that aren't played.

use trace_reader::hexadecimals::{hex_digit, is_hex_digit};
use trace_reader::lists::{inside, is_bracketed};
use trace_reader::numerals::numeral;

/// The least number of a name in the headers, of those below.
const LEAST_NUMBER: i64 = 0x0b44;

/// No name below has a greater one.
const MOST_NUMBER: u64 = 0xffff;

/// The numbers of names in the headers of EGL 1.5 and OpenGL ES 1.1. None is that of an error, which no call takes, and none may be a width or a height.
static HEADER_NUMBERS: [(u16, &'static str); 143] = [
    (0x3020, "EGL_BUFFER_SIZE"),
    (0x3024, "EGL_RED_SIZE"),
    (0x3023, "EGL_GREEN_SIZE"),
    (0x3022, "EGL_BLUE_SIZE"),
    (0x3021, "EGL_ALPHA_SIZE"),
    (0x303d, "EGL_LUMINANCE_SIZE"),
    (0x303e, "EGL_ALPHA_MASK_SIZE"),
    (0x3025, "EGL_DEPTH_SIZE"),
    (0x3026, "EGL_STENCIL_SIZE"),
    (0x3032, "EGL_SAMPLE_BUFFERS"),
    (0x3031, "EGL_SAMPLES"),
    (0x3039, "EGL_BIND_TO_TEXTURE_RGB"),
    (0x303a, "EGL_BIND_TO_TEXTURE_RGBA"),
    (0x3027, "EGL_CONFIG_CAVEAT"),
    (0x3028, "EGL_CONFIG_ID"),
    (0x303c, "EGL_MAX_SWAP_INTERVAL"),
    (0x303b, "EGL_MIN_SWAP_INTERVAL"),
    (0x302d, "EGL_NATIVE_RENDERABLE"),
    (0x302e, "EGL_NATIVE_VISUAL_ID"),
    (0x302f, "EGL_NATIVE_VISUAL_TYPE"),
    (0x3034, "EGL_TRANSPARENT_TYPE"),
    (0x3037, "EGL_TRANSPARENT_RED_VALUE"),
    (0x3036, "EGL_TRANSPARENT_GREEN_VALUE"),
    (0x3035, "EGL_TRANSPARENT_BLUE_VALUE"),
    (0x303f, "EGL_COLOR_BUFFER_TYPE"),
    (0x3029, "EGL_LEVEL"),
    (0x3033, "EGL_SURFACE_TYPE"),
    (0x3040, "EGL_RENDERABLE_TYPE"),
    (0x3042, "EGL_CONFORMANT"),
    (0x302c, "EGL_MAX_PBUFFER_WIDTH"),
    (0x302a, "EGL_MAX_PBUFFER_HEIGHT"),
    (0x302b, "EGL_MAX_PBUFFER_PIXELS"),
    (0x3038, "EGL_NONE"),
    (0x3050, "EGL_SLOW_CONFIG"),
    (0x3051, "EGL_NON_CONFORMANT_CONFIG"),
    (0x308e, "EGL_RGB_BUFFER"),
    (0x308f, "EGL_LUMINANCE_BUFFER"),
    (0x3052, "EGL_TRANSPARENT_RGB"),
    (0x3057, "EGL_WIDTH"),
    (0x3056, "EGL_HEIGHT"),
    (0x3058, "EGL_LARGEST_PBUFFER"),
    (0x3086, "EGL_RENDER_BUFFER"),
    (0x3084, "EGL_BACK_BUFFER"),
    (0x3085, "EGL_SINGLE_BUFFER"),
    (0x3093, "EGL_SWAP_BEHAVIOR"),
    (0x3094, "EGL_BUFFER_PRESERVED"),
    (0x3095, "EGL_BUFFER_DESTROYED"),
    (0x3059, "EGL_DRAW"),
    (0x305a, "EGL_READ"),
    (0x30a0, "EGL_OPENGL_ES_API"),
    (0x30a1, "EGL_OPENVG_API"),
    (0x30a2, "EGL_OPENGL_API"),
    (0x3097, "EGL_CONTEXT_CLIENT_TYPE"),
    (0x3098, "EGL_CONTEXT_CLIENT_VERSION"),
    (0x30fb, "EGL_CONTEXT_MINOR_VERSION"),
    (0x30f9, "EGL_SYNC_FENCE"),
    (0x30f7, "EGL_SYNC_TYPE"),
    (0x30f1, "EGL_SYNC_STATUS"),
    (0x30f8, "EGL_SYNC_CONDITION"),
    (0x30f0, "EGL_SYNC_PRIOR_COMMANDS_COMPLETE"),
    (0x30f2, "EGL_SIGNALED"),
    (0x30f3, "EGL_UNSIGNALED"),
    (0x30f6, "EGL_CONDITION_SATISFIED"),
    (0x30f5, "EGL_TIMEOUT_EXPIRED"),
    (0x30b1, "EGL_GL_TEXTURE_2D"),
    (0x30b9, "EGL_GL_RENDERBUFFER"),
    (0x30bc, "EGL_GL_TEXTURE_LEVEL"),
    (0x30d2, "EGL_IMAGE_PRESERVED"),
    (0x4000, "GL_COLOR_BUFFER_BIT"),
    (0x0de1, "GL_TEXTURE_2D"),
    (0x0c11, "GL_SCISSOR_TEST"),
    (0x0bd0, "GL_DITHER"),
    (0x0be2, "GL_BLEND"),
    (0x0b71, "GL_DEPTH_TEST"),
    (0x0bc0, "GL_ALPHA_TEST"),
    (0x0b90, "GL_STENCIL_TEST"),
    (0x0b44, "GL_CULL_FACE"),
    (0x0b50, "GL_LIGHTING"),
    (0x0b60, "GL_FOG"),
    (0x2300, "GL_TEXTURE_ENV"),
    (0x2200, "GL_TEXTURE_ENV_MODE"),
    (0x2100, "GL_MODULATE"),
    (0x1e01, "GL_REPLACE"),
    (0x0cf5, "GL_UNPACK_ALIGNMENT"),
    (0x0d05, "GL_PACK_ALIGNMENT"),
    (0x2801, "GL_TEXTURE_MIN_FILTER"),
    (0x2800, "GL_TEXTURE_MAG_FILTER"),
    (0x2802, "GL_TEXTURE_WRAP_S"),
    (0x2803, "GL_TEXTURE_WRAP_T"),
    (0x2600, "GL_NEAREST"),
    (0x2601, "GL_LINEAR"),
    (0x2700, "GL_NEAREST_MIPMAP_NEAREST"),
    (0x2701, "GL_LINEAR_MIPMAP_NEAREST"),
    (0x2702, "GL_NEAREST_MIPMAP_LINEAR"),
    (0x2703, "GL_LINEAR_MIPMAP_LINEAR"),
    (0x2901, "GL_REPEAT"),
    (0x812f, "GL_CLAMP_TO_EDGE"),
    (0x8b9d, "GL_TEXTURE_CROP_RECT_OES"),
    (0x1906, "GL_ALPHA"),
    (0x1907, "GL_RGB"),
    (0x1908, "GL_RGBA"),
    (0x1909, "GL_LUMINANCE"),
    (0x190a, "GL_LUMINANCE_ALPHA"),
    (0x1401, "GL_UNSIGNED_BYTE"),
    (0x8363, "GL_UNSIGNED_SHORT_5_6_5"),
    (0x8033, "GL_UNSIGNED_SHORT_4_4_4_4"),
    (0x8034, "GL_UNSIGNED_SHORT_5_5_5_1"),
    (0x8892, "GL_ARRAY_BUFFER"),
    (0x8893, "GL_ELEMENT_ARRAY_BUFFER"),
    (0x88e4, "GL_STATIC_DRAW"),
    (0x88e8, "GL_DYNAMIC_DRAW"),
    (0x8764, "GL_BUFFER_SIZE"),
    (0x8765, "GL_BUFFER_USAGE"),
    (0x8d40, "GL_FRAMEBUFFER_OES"),
    (0x8d41, "GL_RENDERBUFFER_OES"),
    (0x8d62, "GL_RGB565_OES"),
    (0x8056, "GL_RGBA4_OES"),
    (0x8057, "GL_RGB5_A1_OES"),
    (0x8058, "GL_RGBA8_OES"),
    (0x81a5, "GL_DEPTH_COMPONENT16_OES"),
    (0x8d48, "GL_STENCIL_INDEX8_OES"),
    (0x8ce0, "GL_COLOR_ATTACHMENT0_OES"),
    (0x8d00, "GL_DEPTH_ATTACHMENT_OES"),
    (0x8d20, "GL_STENCIL_ATTACHMENT_OES"),
    (0x8cd5, "GL_FRAMEBUFFER_COMPLETE_OES"),
    (0x8cd6, "GL_FRAMEBUFFER_INCOMPLETE_ATTACHMENT_OES"),
    (0x8cd7, "GL_FRAMEBUFFER_INCOMPLETE_MISSING_ATTACHMENT_OES"),
    (0x8cd9, "GL_FRAMEBUFFER_INCOMPLETE_DIMENSIONS_OES"),
    (0x8cdd, "GL_FRAMEBUFFER_UNSUPPORTED_OES"),
    (0x8cd0, "GL_FRAMEBUFFER_ATTACHMENT_OBJECT_TYPE_OES"),
    (0x8cd1, "GL_FRAMEBUFFER_ATTACHMENT_OBJECT_NAME_OES"),
    (0x1702, "GL_TEXTURE"),
    (0x8d42, "GL_RENDERBUFFER_WIDTH_OES"),
    (0x8d43, "GL_RENDERBUFFER_HEIGHT_OES"),
    (0x8069, "GL_TEXTURE_BINDING_2D"),
    (0x8894, "GL_ARRAY_BUFFER_BINDING"),
    (0x8895, "GL_ELEMENT_ARRAY_BUFFER_BINDING"),
    (0x8ca6, "GL_FRAMEBUFFER_BINDING_OES"),
    (0x8ca7, "GL_RENDERBUFFER_BINDING_OES"),
    (0x0ba2, "GL_VIEWPORT"),
    (0x0c10, "GL_SCISSOR_BOX"),
    (0x0d33, "GL_MAX_TEXTURE_SIZE"),
    (0x8219, "GL_FRAMEBUFFER_UNDEFINED_OES"),
];

/// The calls of EGL 1.5, of OpenGL ES 1.1 and of the extensions that are played in part which aren't played.
static OTHER_CALLS: [&'static str; 131] = [
    "eglCopyBuffers",
    "eglCreatePixmapSurface",
    "eglGetProcAddress",
    "eglQueryString",
    "eglWaitGL",
    "eglWaitNative",
    "eglBindTexImage",
    "eglReleaseTexImage",
    "eglSwapInterval",
    "eglCreatePbufferFromClientBuffer",
    "eglGetPlatformDisplay",
    "eglCreatePlatformWindowSurface",
    "eglCreatePlatformPixmapSurface",
    "glAlphaFunc",
    "glClearColor",
    "glClearDepthf",
    "glClipPlanef",
    "glColor4f",
    "glDepthRangef",
    "glFogf",
    "glFogfv",
    "glFrustumf",
    "glGetClipPlanef",
    "glGetFloatv",
    "glGetLightfv",
    "glGetMaterialfv",
    "glGetTexEnvfv",
    "glGetTexParameterfv",
    "glLightModelf",
    "glLightModelfv",
    "glLightf",
    "glLightfv",
    "glLineWidth",
    "glLoadMatrixf",
    "glMaterialf",
    "glMaterialfv",
    "glMultMatrixf",
    "glMultiTexCoord4f",
    "glNormal3f",
    "glOrthof",
    "glPointParameterf",
    "glPointParameterfv",
    "glPointSize",
    "glPolygonOffset",
    "glRotatef",
    "glScalef",
    "glTexEnvf",
    "glTexEnvfv",
    "glTexParameterf",
    "glTexParameterfv",
    "glTranslatef",
    "glActiveTexture",
    "glAlphaFuncx",
    "glBlendFunc",
    "glClientActiveTexture",
    "glClipPlanex",
    "glColor4ub",
    "glColorPointer",
    "glCompressedTexImage2D",
    "glCompressedTexSubImage2D",
    "glCullFace",
    "glDepthFunc",
    "glDepthMask",
    "glDepthRangex",
    "glDisableClientState",
    "glDrawArrays",
    "glDrawElements",
    "glEnableClientState",
    "glFogx",
    "glFogxv",
    "glFrontFace",
    "glFrustumx",
    "glGetBooleanv",
    "glGetClipPlanex",
    "glGetFixedv",
    "glGetLightxv",
    "glGetMaterialxv",
    "glGetPointerv",
    "glGetString",
    "glGetTexEnviv",
    "glGetTexEnvxv",
    "glGetTexParameteriv",
    "glGetTexParameterxv",
    "glHint",
    "glIsEnabled",
    "glLightModelx",
    "glLightModelxv",
    "glLightx",
    "glLightxv",
    "glLineWidthx",
    "glLoadIdentity",
    "glLoadMatrixx",
    "glLogicOp",
    "glMaterialx",
    "glMaterialxv",
    "glMatrixMode",
    "glMultMatrixx",
    "glMultiTexCoord4x",
    "glNormal3x",
    "glNormalPointer",
    "glOrthox",
    "glPointParameterx",
    "glPointParameterxv",
    "glPointSizex",
    "glPolygonOffsetx",
    "glPopMatrix",
    "glPushMatrix",
    "glRotatex",
    "glSampleCoverage",
    "glSampleCoveragex",
    "glScalex",
    "glShadeModel",
    "glStencilFunc",
    "glStencilMask",
    "glStencilOp",
    "glTexCoordPointer",
    "glTexEnvi",
    "glTexEnviv",
    "glTexEnvxv",
    "glTexParameteri",
    "glTexParameterxv",
    "glTranslatex",
    "glVertexPointer",
    "glPointSizePointerOES",
    "glDrawTexfOES",
    "glDrawTexfvOES",
    "glDrawTexivOES",
    "glDrawTexsOES",
    "glDrawTexsvOES",
    "glDrawTexxvOES",
    "glGenerateMipmapOES",
];

/// The name that has a number in the headers.
pub fn name_with(number: i64) -> Option<&'static str> {
    if number < LEAST_NUMBER || number > i64::from(u16::MAX) {
        return None;
    }
    'each: for (other, name) in HEADER_NUMBERS.iter() {
        if i64::from(*other) == number {
            return Some(name);
        }
    }
    None
}

/// The number that digits of either case spell in hexadecimal; none where they don't, or where it is greater than each of the headers.
fn hexadecimal_of(digits: &[u8]) -> Option<u64> {
    let mut number = 0u64;
    'each: for digit in digits {
        let digit = digit.to_ascii_lowercase();
        if !is_hex_digit(digit) || number > MOST_NUMBER {
            return None;
        }
        number = number
            .saturating_mul(16)
            .saturating_add(u64::from(hex_digit(digit)));
    }
    Some(number)
}

/// The number that a word spells, also in capitals.
fn number_spelled(word: &[u8]) -> Option<u64> {
    match word {
        [b'0', b'x' | b'X', digits @ ..] => hexadecimal_of(digits),
        _ => numeral(MOST_NUMBER, word),
    }
}

/// The name whose number in the headers a word spells.
fn name_spelled(word: &[u8]) -> Option<&'static str> {
    let number = number_spelled(word)?;
    if number > MOST_NUMBER {
        return None;
    }
    name_with(number as i64)
}

/// The first word, of this one or of the items of a list, that spells the number of a name in the headers, and the name.
pub fn header_number_in(word: &[u8]) -> Option<(&[u8], &'static str)> {
    let text = if is_bracketed(word) {
        inside(word)
    } else {
        word
    };
    'items: for item in text.split(|b| *b == b',') {
        if let Some(name) = name_spelled(item) {
            return Some((item, name));
        }
    }
    None
}

/// Whether a word is a call that isn't played.
pub fn is_other_call(word: &[u8]) -> bool {
    'each: for name in OTHER_CALLS.iter() {
        if name.as_bytes() == word {
            return true;
        }
    }
    false
}
