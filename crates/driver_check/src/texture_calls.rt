//! Calls that make a surface and a texture, and draw the one on the other.
ghost use Rattle.std.specs.Prelude.{◌≡◌, false};
ghost use Rattle.egl_model.specs.Waits.{is_wait_end};
ghost use Rattle.shared_driver.specs.Tokens.{IsOf};

use crate::draws::{call_with, egl, surface_list};
use crate::sides::played;
use egl_calls::{Bytes, Call, EglKind, GlKind, Kind, Numbers, Payload};
use egl_names::codes::{
    GL_NEAREST, GL_REPLACE, GL_RGBA, GL_TEXTURE_2D, GL_TEXTURE_CROP_RECT_OES, GL_TEXTURE_ENV,
    GL_TEXTURE_ENV_MODE, GL_TEXTURE_MIN_FILTER, GL_UNSIGNED_BYTE,
};
use shared_driver::{Shared, Thread};
use std::alloc::Global;
use std::process::Abort;
use std::sync::Wait;

// The numbers that the driver gives first: a surface, a context, and the texture's name.
pub const DISPLAY: u32 = 1;

pub const CONFIG: u32 = 4;

const SURFACE: u32 = 3;

pub const CONTEXT: u32 = 4;

pub const TEXTURE: u32 = 1;

/// How many calls make a surface current, and a texture bound and enabled.
const BEFORE: u32 = 10;

pub fn gl(alloc: Global, kind: GlKind, numbers: [u32; 8]) -> Call
    ensures { is_wait_end result.kind ≡ false }
{
    call_with(Kind::Gl(kind), numbers, Numbers::new(alloc))
}

/// A payload, or none where memory runs out.
pub fn payload(alloc: Global, bytes: &[u8]) -> Option<Payload> {
    match Vec::from_slice(alloc, bytes) {
        Ok(items) => Payload::new(alloc, Bytes::from_vec(items)).ok(),
        Err(_) => None,
    }
}

/// A call of OpenGL ES that gives bytes.
pub fn giving(alloc: Global, kind: GlKind, numbers: [u32; 8], bytes: Option<Payload>) -> Call
    ensures { is_wait_end result.kind ≡ false }
{
    let Call {
        kind,
        args,
        list,
        bytes: _,
    } = gl(alloc, kind, numbers);
    Call {
        kind,
        args,
        list,
        bytes,
    }
}

/// eglCreatePbufferSurface.
pub fn create_pbuffer(alloc: Global, side: u32) -> Call
    ensures { is_wait_end result.kind ≡ false }
{
    call_with(
        Kind::Egl(EglKind::CreatePbufferSurface),
        [DISPLAY, CONFIG, 0, 0, 0, 0, 0, 0],
        surface_list(alloc, side, side),
    )
}

/// glTexImage2D of so many rows and columns; the null pointer gives zeros.
pub fn upload(alloc: Global, side: u32, bytes: Option<Payload>) -> Call
    ensures { is_wait_end result.kind ≡ false }
{
    let [target, format] = [GL_TEXTURE_2D as u32, GL_RGBA as u32];
    let numbers = [
        target,
        0,
        format,
        side,
        side,
        0,
        format,
        GL_UNSIGNED_BYTE as u32,
    ];
    giving(alloc, GlKind::TexImage2d, numbers, bytes)
}

/// glDrawTexiOES over a surface of these sides.
pub fn draw(alloc: Global, side: u32) -> Call
    ensures { is_wait_end result.kind ≡ false }
{
    gl(alloc, GlKind::DrawTexi, [0, 0, 0, side, side, 0, 0, 0])
}

/// glReadPixels of such a surface.
pub fn read(alloc: Global, side: u32) -> Call
    ensures { is_wait_end result.kind ≡ false }
{
    let [format, kind] = [GL_RGBA as u32, GL_UNSIGNED_BYTE as u32];
    gl(
        alloc,
        GlKind::ReadPixels,
        [0, 0, side, side, format, kind, 0, 0],
    )
}

// glTexParameteriv: the crop rectangle is the whole texture.
fn crop(alloc: Global, texels: u32) -> Call
    ensures { is_wait_end result.kind ≡ false }
{
    let side = i64::from(texels);
    let list = match Vec::from_slice(alloc, &[0, 0, side, side]) {
        Ok(items) => Numbers::from_vec(items),
        Err(_) => Numbers::new(alloc),
    };
    let [target, pname] = [GL_TEXTURE_2D as u32, GL_TEXTURE_CROP_RECT_OES as u32];
    let kind = Kind::Gl(GlKind::TexParameteriv);
    call_with(kind, [target, pname, 0, 0, 0, 0, 0, 0], list)
}

// glTexParameterx and glTexEnvx: texels replace what is drawn on, each where it is nearest.
fn texture_state(alloc: Global, kind: GlKind) -> Call
    ensures { is_wait_end result.kind ≡ false }
{
    let [target, name, value] = match kind {
        GlKind::TexEnvx => [GL_TEXTURE_ENV, GL_TEXTURE_ENV_MODE, GL_REPLACE],
        _ => [GL_TEXTURE_2D, GL_TEXTURE_MIN_FILTER, GL_NEAREST],
    };
    let numbers = [target as u32, name as u32, value as u32, 0, 0, 0, 0, 0];
    gl(alloc, kind, numbers)
}

// What makes a surface and a texture of these sides, by its order.
fn before(alloc: Global, side: u32, texels: u32, step: u32) -> Call
    ensures { is_wait_end result.kind ≡ false }
{
    let target = GL_TEXTURE_2D as u32;
    match step {
        0 => egl(alloc, EglKind::Initialize, [DISPLAY, 0, 0, 0]),
        1 => create_pbuffer(alloc, side),
        2 => egl(alloc, EglKind::CreateContext, [DISPLAY, CONFIG, 0, 0]),
        3 => egl(
            alloc,
            EglKind::MakeCurrent,
            [DISPLAY, SURFACE, SURFACE, CONTEXT],
        ),
        4 => gl(alloc, GlKind::GenTextures, [1, 0, 0, 0, 0, 0, 0, 0]),
        5 => gl(
            alloc,
            GlKind::BindTexture,
            [target, TEXTURE, 0, 0, 0, 0, 0, 0],
        ),
        6 => texture_state(alloc, GlKind::TexParameterx),
        7 => texture_state(alloc, GlKind::TexEnvx),
        8 => crop(alloc, texels),
        _ => gl(alloc, GlKind::Enable, [target, 0, 0, 0, 0, 0, 0, 0]),
    }
}

/// Makes a surface current, and a texture without pixels that draws on it replace it by.
pub fn prepare<R: Abort + Wait>(
    rt: &R,
    alloc: Global,
    shared: &Shared,
    thread: &mut Thread,
    side: u32,
    texels: u32,
)
    requires { IsOf shared.now thread.old }
    ensures { IsOf shared.now thread.new }
{
    'steps: for step in 0..BEFORE {
        let call = before(alloc, side, texels, step);
        played(rt, alloc, shared, thread, 0, call);
    }
}
