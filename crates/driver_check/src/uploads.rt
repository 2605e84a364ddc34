//! What calls give textures and buffers, made before their turn, is there behind it.
ghost use Rattle.shared_driver.specs.Tokens.{IsOf};

use crate::crowds::{finish, opened};
use crate::sides::played;
use crate::texture_calls::{draw, giving, gl, payload, prepare, read, upload};
use egl_calls::{Call, GlKind, Kind, Numbers, OwnKind, Reply};
use egl_names::codes::{
    GL_ARRAY_BUFFER, GL_COLOR_BUFFER_BIT, GL_RGBA, GL_STATIC_DRAW, GL_TEXTURE_2D,
};
use shared_driver::{Opened, Shared, Thread};
use std::alloc::Global;
use std::process::Abort;
use std::sync::Wait;

/// How many bytes of pixels and of buffers there may be.
const VIDEO: u64 = 4096;

/// The sides of the surface and of the texture.
const SIDE: u32 = 2;

/// Four pixels.
static TEXELS: [u8; 16] = [1, 2, 3, 4, 5, 6, 7, 8, 9, 10, 11, 12, 13, 14, 15, 16];

static RED: [u8; 16] = [
    255, 0, 0, 255, 255, 0, 0, 255, 255, 0, 0, 255, 255, 0, 0, 255,
];

/// Contents of a buffer of six bytes, of which four are given.
static GIVEN: [u8; 4] = [1, 2, 3, 4];

static CONTENTS: [u8; 6] = [1, 2, 3, 4, 0, 0];

// Draws the texture, and reads what is drawn.
fn drawn<R: Abort + Wait>(rt: &R, alloc: Global, shared: &Shared, thread: &mut Thread) -> Reply
    requires { IsOf shared.now thread.old }
    ensures { IsOf shared.now thread.new }
{
    let call = draw(alloc, SIDE);
    played(rt, alloc, shared, thread, 0, call);
    let call = read(alloc, SIDE);
    played(rt, alloc, shared, thread, 0, call)
}

// Clears the surface to red or to nothing.
fn clear<R: Abort + Wait>(rt: &R, alloc: Global, shared: &Shared, thread: &mut Thread, red: u32)
    requires { IsOf shared.now thread.old }
    ensures { IsOf shared.now thread.new }
{
    let call = gl(alloc, GlKind::ClearColorx, [red, 0, 0, red, 0, 0, 0, 0]);
    played(rt, alloc, shared, thread, 0, call);
    let bits = GL_COLOR_BUFFER_BIT as u32;
    let call = gl(alloc, GlKind::Clear, [bits, 0, 0, 0, 0, 0, 0, 0]);
    played(rt, alloc, shared, thread, 0, call);
}

// Whether pixels that a glTexImage2D gives are drawn.
fn gives_pixels<R: Abort + Wait>(
    rt: &R,
    alloc: Global,
    shared: &Shared,
    thread: &mut Thread,
) -> bool
    requires { IsOf shared.now thread.old }
    ensures { IsOf shared.now thread.new }
{
    let call = upload(alloc, SIDE, payload(alloc, &TEXELS));
    played(rt, alloc, shared, thread, 0, call);
    drawn(rt, alloc, shared, thread).bytes.as_slice() == TEXELS.as_slice()
}

// Whether pixels that a glCopyTexImage2D takes from the surface are drawn.
fn copies_pixels<R: Abort + Wait>(
    rt: &R,
    alloc: Global,
    shared: &Shared,
    thread: &mut Thread,
) -> bool
    requires { IsOf shared.now thread.old }
    ensures { IsOf shared.now thread.new }
{
    clear(rt, alloc, shared, thread, 65_536);
    let [target, format] = [GL_TEXTURE_2D as u32, GL_RGBA as u32];
    let call = gl(
        alloc,
        GlKind::CopyTexImage2d,
        [target, 0, format, 0, 0, SIDE, SIDE, 0],
    );
    played(rt, alloc, shared, thread, 0, call);
    clear(rt, alloc, shared, thread, 0);
    drawn(rt, alloc, shared, thread).bytes.as_slice() == RED.as_slice()
}

// Whether a buffer has the contents that a glBufferData gives.
fn gives_contents<R: Abort + Wait>(
    rt: &R,
    alloc: Global,
    shared: &Shared,
    thread: &mut Thread,
) -> bool
    requires { IsOf shared.now thread.old }
    ensures { IsOf shared.now thread.new }
{
    let target = GL_ARRAY_BUFFER as u32;
    let call = gl(alloc, GlKind::BindBuffer, [target, 1, 0, 0, 0, 0, 0, 0]);
    played(rt, alloc, shared, thread, 0, call);
    let numbers = [target, 6, GL_STATIC_DRAW as u32, 0, 0, 0, 0, 0];
    let call = giving(alloc, GlKind::BufferData, numbers, payload(alloc, &GIVEN));
    played(rt, alloc, shared, thread, 0, call);
    let call = Call {
        kind: Kind::Own(OwnKind::ReadBuffer),
        args: [GL_ARRAY_BUFFER as i64, 0, 6, 0, 0, 0, 0, 0],
        list: Numbers::new(alloc),
        bytes: None,
    };
    let reply = played(rt, alloc, shared, thread, 0, call);
    reply.bytes.as_slice() == CONTENTS.as_slice()
}

#[test]
fn what_is_made_before_a_turn_is_there_behind_it(rt: HostRuntime) {
    let alloc = rt.alloc();
    let Opened { shared, mut thread } = opened(&rt, alloc, VIDEO);
    prepare(&rt, alloc, &shared, &mut thread, SIDE, SIDE);
    let given = gives_pixels(&rt, alloc, &shared, &mut thread);
    let copied = copies_pixels(&rt, alloc, &shared, &mut thread);
    let contents = gives_contents(&rt, alloc, &shared, &mut thread);
    let _run = finish(&rt, shared, thread);
    assert!(rt; given, "other pixels were given");
    assert!(rt; copied, "other pixels were copied");
    assert!(rt; contents, "other contents were given");
}
