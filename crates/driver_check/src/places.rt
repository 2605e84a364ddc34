//! Calls that a thread's private part answers, and the places that they take.
ghost use Rattle.shared_driver.specs.Tokens.{IsOf};

use crate::crowds::{finish, opened};
use crate::readings::call_of;
use crate::sides::played;
use shared_driver::{Opened, Shared, Thread};
use std::alloc::Global;
use std::process::Abort;
use std::sync::Wait;

/// A call that takes a place in the thread's part.
const QUERY: &str = "eglQueryAPI";

/// So many local calls and a shared one, if there is one: then there is no place. After the last call there is.
pub type Row = (u64, Option<&'static str>, &'static str);

/// All places that local calls may take, and those that leave one for each kind of call that takes one in a turn.
pub static ROWS: [Row; 16] = [
    (256, None, "census"),
    (255, Some("glFlush"), "glFlush"),
    (255, Some("eglTerminate 0"), "census"),
    (255, Some("eglDestroySurface 0 0"), "census"),
    (255, Some("eglDestroyContext 0 0"), "census"),
    (255, Some("eglDestroySync 0 0"), "census"),
    (255, Some("eglDestroyImage 0 0"), "census"),
    (255, Some("eglReleaseThread"), "census"),
    (255, Some("eglWaitClient"), "census"),
    (255, Some("glFlush"), "census"),
    (255, Some("glFinish"), "census"),
    (255, Some("glDeleteTextures []"), "census"),
    (255, Some("glDeleteBuffers []"), "census"),
    (255, Some("glDeleteRenderbuffersOES []"), "census"),
    (255, Some("glDeleteFramebuffersOES []"), "census"),
    (255, Some("halt"), "census"),
];

/// Makes a local call if there is a place for one, and tells whether it did.
fn queried<R: Abort>(rt: &R, alloc: Global, shared: &Shared, thread: &mut Thread, mark: u64) -> bool
    requires { IsOf shared.now thread.old }
    ensures { IsOf shared.now thread.new }
{
    let call = call_of(rt, alloc, QUERY);
    thread.is_local(&call) && thread.local(alloc, mark, call).is_ok()
}

/// Makes so many local calls, as long as there is a place, and answers how many.
pub fn queries<R: Abort>(
    rt: &R,
    alloc: Global,
    shared: &Shared,
    thread: &mut Thread,
    count: u64,
) -> u64
    requires { IsOf shared.now thread.old }
    ensures { IsOf shared.now thread.new }
{
    let mut made = 0u64;
    'querying: for mark in 0..count {
        if queried(rt, alloc, shared, thread, mark) {
            made = made.wrapping_add(1);
        }
    }
    made
}

// Plays a call in a turn, and tells whether there is a place for a local one behind it.
fn is_free_behind<R: Abort + Wait>(
    rt: &R,
    alloc: Global,
    shared: &Shared,
    thread: &mut Thread,
    text: &str,
) -> bool
    requires { IsOf shared.now thread.old }
    ensures { IsOf shared.now thread.new }
{
    played(rt, alloc, shared, thread, 0, call_of(rt, alloc, text));
    thread.is_local(&call_of(rt, alloc, QUERY))
}

// Whether there is no place, behind a call in a turn that took the last, or before it.
fn is_full<R: Abort + Wait>(
    rt: &R,
    alloc: Global,
    shared: &Shared,
    thread: &mut Thread,
    before: Option<&str>,
) -> bool
    requires { IsOf shared.now thread.old }
    ensures { IsOf shared.now thread.new }
{
    let free = thread.is_local(&call_of(rt, alloc, QUERY));
    match before {
        Some(text) => free & !is_free_behind(rt, alloc, shared, thread, text),
        None => !free,
    }
}

/// Whether a row holds; the journal then has all of its calls, 257.
pub fn holds<R: Abort + Wait>(rt: &R, alloc: Global, row: &Row) -> bool {
    let (local, before, last) = *row;
    let Opened { shared, mut thread } = opened(rt, alloc, 1000);
    let made = queries(rt, alloc, &shared, &mut thread, local);
    let full = is_full(rt, alloc, &shared, &mut thread, before);
    let free = is_free_behind(rt, alloc, &shared, &mut thread, last);
    let run = finish(rt, shared, thread);
    made == local && full && free && run.journal.len() == 257
}
