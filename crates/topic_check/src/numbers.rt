//! Numbers that no line of a trace has: the registry's numbers of errors, sizes past those of a call, and codes of calls that a context doesn't keep.
use buffer_objects::Buffer;
use context_state::is_context_call;
use egl_calls::{EglError, EglKind, GlError, GlKind, Kind, NoMemory, OwnKind};
use egl_names::codes::{GL_BUFFER_USAGE, GL_DYNAMIC_DRAW, GL_STATIC_DRAW};

/// An error, and its number in the registry of Khronos.
static EGL_ERRORS: [(EglError, u32); 15] = [
    (EglError::Success, 12288),
    (EglError::NotInitialized, 12289),
    (EglError::BadAccess, 12290),
    (EglError::BadAlloc, 12291),
    (EglError::BadAttribute, 12292),
    (EglError::BadConfig, 12293),
    (EglError::BadContext, 12294),
    (EglError::BadCurrentSurface, 12295),
    (EglError::BadDisplay, 12296),
    (EglError::BadMatch, 12297),
    (EglError::BadNativePixmap, 12298),
    (EglError::BadNativeWindow, 12299),
    (EglError::BadParameter, 12300),
    (EglError::BadSurface, 12301),
    (EglError::ContextLost, 12302),
];

#[test]
fn egl_errors_have_the_numbers_of_the_khronos_registry(rt: HostRuntime) {
    for (error, number) in &EGL_ERRORS {
        assert!(rt; error.number() == *number, "{error:?}");
    }
}

static GL_ERRORS: [(GlError, u32); 6] = [
    (GlError::NoError, 0),
    (GlError::InvalidEnum, 1280),
    (GlError::InvalidValue, 1281),
    (GlError::InvalidOperation, 1282),
    (GlError::OutOfMemory, 1285),
    (GlError::InvalidFramebufferOperation, 1286),
];

#[test]
fn gl_errors_have_the_numbers_of_the_khronos_registry(rt: HostRuntime) {
    for (error, number) in &GL_ERRORS {
        assert!(rt; error.number() == *number, "{error:?}");
    }
}

const USAGE: i64 = GL_BUFFER_USAGE as i64;

const STATIC: i64 = GL_STATIC_DRAW as i64;

const DYNAMIC: i64 = GL_DYNAMIC_DRAW as i64;

#[test]
fn other_usages_are_taken_for_the_first(rt: HostRuntime) {
    let mut buffer = Buffer::new(rt.alloc());
    for (usage, expected) in [(DYNAMIC, DYNAMIC), (7, STATIC), (STATIC, STATIC)] {
        buffer.data(1, usage, None).expect(&rt, "memory is ample");
        assert!(rt; buffer.parameter(USAGE) == Some(expected), "{usage}");
    }
}

#[test]
fn too_many_bytes_change_nothing(rt: HostRuntime) {
    let mut buffer = Buffer::new(rt.alloc());
    buffer.data(2, DYNAMIC, None).expect(&rt, "memory is ample");
    for size in [4_294_967_296, u64::MAX] {
        assert!(rt; buffer.data(size, STATIC, None) == Err(NoMemory), "{size}");
    }
    assert!(rt; buffer.size() == 2 && buffer.parameter(USAGE) == Some(DYNAMIC));
}

static NO_CONTEXT_CALLS: [Kind; 7] = [
    Kind::Gl(GlKind::Clear),
    Kind::Gl(GlKind::ReadPixels),
    Kind::Gl(GlKind::Flush),
    Kind::Gl(GlKind::BindTexture),
    Kind::Gl(GlKind::TexParameterx),
    Kind::Egl(EglKind::GetError),
    Kind::Own(OwnKind::Census),
];

#[test]
fn other_calls_are_no_context_calls(rt: HostRuntime) {
    for kind in &NO_CONTEXT_CALLS {
        assert!(rt; !is_context_call(*kind), "{kind:?}");
    }
}
