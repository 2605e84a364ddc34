//! Refusals to which no trace comes: the last handle is given, or the bytes of pixels have a number of 64 bits.
use call_rules::{EglFacts, GlFacts, egl_refusal, gl_refusal};
use egl_calls::{Call, EglError, EglKind, GlKind, Kind, Numbers};
use egl_names::codes::{EGL_GL_TEXTURE_2D, EGL_SYNC_FENCE};
use std::alloc::Global;
use std::process::Abort;

/// What is wrong beside the handles.
#[derive(Clone, Copy, Debug, Drop)]
enum But {
    Nothing,
    BadList,
    NoWindow,
    Height(i64),
    NewBytes(u64),
    Version(i64, i64),
    NoneCurrentHere,
    NoLevel,
    Sibling,
}

use But::{
    BadList, Height, NewBytes, NoLevel, NoWindow, NoneCurrentHere, Nothing, Sibling, Version,
};

/// Facts with which nothing is refused while there are handles.
fn valid() -> EglFacts {
    EglFacts {
        is_display: true,
        is_initialized: true,
        is_config: true,
        is_window_list: true,
        is_pbuffer_list: true,
        is_context_list: true,
        is_image_list: true,
        is_share: true,
        is_share_here: true,
        version: 1,
        is_window_config: true,
        is_window: true,
        is_context: true,
        is_current_here: true,
        is_source: true,
        is_level: true,
        live_bytes: 100,
        video_limit: 132,
        ..EglFacts::none()
    }
}

fn facts_but(but: But) -> EglFacts {
    let mut facts = valid();
    match but {
        Nothing => (),
        BadList => facts.is_pbuffer_list = false,
        NoWindow => facts.is_window = false,
        Height(height) => facts.height = height,
        NewBytes(bytes) => {
            facts.window_bytes = bytes;
            facts.pbuffer_bytes = bytes;
        }
        Version(version, minor) => {
            facts.version = version;
            facts.minor_version = minor;
        }
        NoneCurrentHere => facts.is_current_here = false,
        NoLevel => facts.is_level = false,
        Sibling => facts.is_sibling = true,
    }
    facts
}

/// A call on display 1 whose second and third numbers are the same.
fn call_of(alloc: Global, kind: Kind, number: u32) -> Call {
    let number = i64::from(number);
    Call {
        kind,
        args: [1, number, number, 0, 0, 0, 0, 0],
        list: Numbers::new(alloc),
        bytes: None,
    }
}

const IMAGE: u32 = EGL_GL_TEXTURE_2D as u32;

const FENCE: u32 = EGL_SYNC_FENCE as u32;

/// A creation behind the last handle, with the number that tells its kind, what else is wrong, and the error.
static CREATIONS: [(EglKind, u32, But, EglError); 17] = [
    (EglKind::CreateWindowSurface, 1, Nothing, EglError::BadAlloc),
    (
        EglKind::CreateWindowSurface,
        1,
        NoWindow,
        EglError::BadNativeWindow,
    ),
    (
        EglKind::CreateWindowSurface,
        1,
        NewBytes(33),
        EglError::BadAlloc,
    ),
    (
        EglKind::CreatePbufferSurface,
        1,
        Nothing,
        EglError::BadAlloc,
    ),
    (
        EglKind::CreatePbufferSurface,
        1,
        BadList,
        EglError::BadAttribute,
    ),
    (
        EglKind::CreatePbufferSurface,
        1,
        Height(-1),
        EglError::BadParameter,
    ),
    (
        EglKind::CreatePbufferSurface,
        1,
        NewBytes(u64::MAX),
        EglError::BadAlloc,
    ),
    (EglKind::CreateContext, 1, Nothing, EglError::BadAlloc),
    (
        EglKind::CreateContext,
        1,
        Version(3, 2),
        EglError::BadConfig,
    ),
    (EglKind::CreateContext, 1, Version(1, 2), EglError::BadMatch),
    (EglKind::CreateSync, FENCE, Nothing, EglError::BadAlloc),
    (
        EglKind::CreateSync,
        FENCE,
        NoneCurrentHere,
        EglError::BadMatch,
    ),
    (EglKind::CreateSync, 0, Nothing, EglError::BadAttribute),
    (EglKind::CreateImage, IMAGE, Nothing, EglError::BadAlloc),
    (EglKind::CreateImage, IMAGE, Sibling, EglError::BadAccess),
    (EglKind::CreateImage, IMAGE, NoLevel, EglError::BadMatch),
    (EglKind::CreateImage, 0, Nothing, EglError::BadParameter),
];

#[test]
fn a_creation_behind_the_last_handle_is_refused_last(rt: HostRuntime) {
    for (kind, number, but, error) in &CREATIONS {
        let call = call_of(rt.alloc(), Kind::Egl(*kind), *number);
        let mut facts = facts_but(*but);
        facts.are_handles_used_up = true;
        assert!(rt;
            egl_refusal(&call, &facts) == Some(*error),
            "{kind:?} {but:?}"
        );
    }
}

#[test]
fn bytes_that_pass_all_numbers_are_too_many(rt: HostRuntime) {
    for kind in [EglKind::CreateWindowSurface, EglKind::CreatePbufferSurface] {
        let call = call_of(rt.alloc(), Kind::Egl(kind), 1);
        for (bytes, error) in [(32, None), (u64::MAX, Some(EglError::BadAlloc))] {
            assert!(rt; egl_refusal(&call, &facts_but(NewBytes(bytes))) == error);
        }
    }
}

#[test]
fn kinds_of_the_other_interface_are_not_refused(rt: HostRuntime) {
    let call = call_of(rt.alloc(), Kind::Egl(EglKind::Initialize), 0);
    assert!(rt; gl_refusal(&call, &GlFacts::none()).is_none());
    let call = call_of(rt.alloc(), Kind::Gl(GlKind::Clear), 8);
    assert!(rt; egl_refusal(&call, &EglFacts::none()).is_none());
}
