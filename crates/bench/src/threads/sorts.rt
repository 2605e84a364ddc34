//! The calls that are timed, and those that go before.
use crate::calls::lines_of;
use anyhow::Result;
use std::alloc::Global;
use trace_reader::Trace;

/// Who answers a call.
#[derive(Clone, Copy, PartialEq, Eq, Drop)]
pub enum Way {
    /// The driver, in a turn of the lock.
    Turn,
    /// The thread's private part, in all places that there are; once they are taken a call gives them back in a turn.
    Part,
}

/// A sort of call.
#[derive(Clone, Copy, Drop)]
pub struct Sort {
    pub name: &'static str,
    /// The lines of the calls, which are made by turns.
    pub calls: &'static str,
    /// How many calls go before, for each thread: those that make a surface and a context current, and those that make a texture.
    pub before: u64,
    /// The sides of the surface.
    side: u32,
    /// Whether each thread has a texture of its own; else one is all threads'.
    has_texture: bool,
    /// How many calls are timed.
    pub timed: u32,
    /// Whether the threads' own parts make it too.
    pub is_local: bool,
}

const CURRENT: u64 = 4;

const TEXTURED: u64 = 11;

pub static SORTS: [Sort; 7] = [
    Sort {
        name: "eglGetDisplay",
        calls: "0 eglGetDisplay 0",
        before: CURRENT,
        side: 64,
        has_texture: false,
        timed: 100_000,
        is_local: false,
    },
    Sort {
        name: "eglGetError",
        calls: "0 eglGetError",
        before: CURRENT,
        side: 64,
        has_texture: false,
        timed: 100_000,
        is_local: false,
    },
    Sort {
        name: "glClear of 64 by 64",
        calls: "0 glClear GL_COLOR_BUFFER_BIT",
        before: CURRENT,
        side: 64,
        has_texture: false,
        timed: 100_000,
        is_local: true,
    },
    Sort {
        name: "glClearColorx",
        calls: "0 glClearColorx 65536 0 0 0",
        before: CURRENT,
        side: 64,
        has_texture: false,
        timed: 100_000,
        is_local: true,
    },
    Sort {
        name: "glClearColorx and glClear by turns",
        calls: "0 glClearColorx 65536 0 0 0\n0 glClear GL_COLOR_BUFFER_BIT",
        before: CURRENT,
        side: 64,
        has_texture: false,
        timed: 100_000,
        is_local: true,
    },
    Sort {
        name: "glDrawTexiOES of 256 by 256 from one texture",
        calls: "0 glDrawTexiOES 0 0 0 256 256",
        before: TEXTURED,
        side: 256,
        has_texture: false,
        timed: 16_000,
        is_local: false,
    },
    Sort {
        name: "glTexImage2D of 256 by 256 to a texture each",
        calls: "0 glTexImage2D GL_TEXTURE_2D 0 GL_RGBA 256 256 0 GL_RGBA GL_UNSIGNED_BYTE *262144:ff",
        before: TEXTURED,
        side: 64,
        has_texture: true,
        timed: 16_000,
        is_local: false,
    },
];

/// The calls that make a surface and a context current to the thread at a place, and then a texture. All contexts share with the first, and the numbers are those that a driver gives where the threads make them in order.
pub fn before(alloc: Global, sort: &Sort, place: u16) -> Result<Trace> {
    let side = sort.side;
    let surface = 3 + 2 * u32::from(place);
    let context = surface + 1;
    let share = if place == 0 { 0 } else { 4 };
    let texture = if sort.has_texture {
        1 + u32::from(place)
    } else {
        1
    };
    let text = format!(in alloc;
        "0 eglInitialize 1\n0 eglCreatePbufferSurface 1 4 [EGL_WIDTH,{side},EGL_HEIGHT,{side}]\n0 eglCreateContext 1 4 {share} []\n0 eglMakeCurrent 1 {surface} {surface} {context}\n0 glGenTextures 1\n0 glBindTexture GL_TEXTURE_2D {texture}\n0 glTexParameterx GL_TEXTURE_2D GL_TEXTURE_MIN_FILTER GL_NEAREST\n0 glTexEnvx GL_TEXTURE_ENV GL_TEXTURE_ENV_MODE GL_REPLACE\n0 glTexParameteriv GL_TEXTURE_2D GL_TEXTURE_CROP_RECT_OES [0,0,256,256]\n0 glTexImage2D GL_TEXTURE_2D 0 GL_RGBA 256 256 0 GL_RGBA GL_UNSIGNED_BYTE -\n0 glEnable GL_TEXTURE_2D\n"
    )?;
    lines_of(alloc, &text)
}
