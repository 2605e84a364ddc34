//! Two threads at one driver: what a thread that waits is answered. A trace shows nothing of it, since its threads make no call while they wait.
ghost use Rattle.std.specs.Prelude.{◌≡◌, ◌<◌};

use crate::readings::{call_of, own_call};
use driver_core::Driver;
use egl_calls::{Call, OwnKind};
use std::alloc::Global;
use std::process::Abort;

const WAITING: u32 = 0;

const DRAWING: u32 = 1;

/// A thread, its call (`end` is the end of a wait), the outcome and the value, and whether the waiting thread's wait can end then.
type Row = (u32, &'static str, &'static str, bool);

static ROWS: [Row; 26] = [
    (DRAWING, "eglGetDisplay 0", "Done 1", false),
    (DRAWING, "eglInitialize 1", "Done 1", false),
    (DRAWING, "eglCreatePbufferSurface 1 4 []", "Done 3", false),
    (DRAWING, "eglCreateContext 1 4 0 []", "Done 4", false),
    (DRAWING, "eglMakeCurrent 1 3 3 4", "Done 1", false),
    (
        DRAWING,
        "eglCreateSync 1 EGL_SYNC_FENCE []",
        "Done 5",
        false,
    ),
    (WAITING, "end", "NoWait 0", false),
    (
        WAITING,
        "eglClientWaitSync 1 5 0 0",
        "Done 3000000084",
        false,
    ),
    (
        WAITING,
        "eglClientWaitSync 1 5 0 EGL_FOREVER",
        "Waiting 0",
        false,
    ),
    (WAITING, "eglGetError", "InWait 0", false),
    (WAITING, "eglClientWaitSync 1 5 1 0", "InWait 0", false),
    (WAITING, "glFlush", "InWait 0", false),
    (WAITING, "halt", "InWait 0", false),
    (WAITING, "end", "Waiting 0", false),
    (DRAWING, "eglDestroySync 1 5", "Done 1", false),
    (DRAWING, "eglDestroyContext 1 4", "Done 1", false),
    (DRAWING, "end", "NoWait 0", false),
    (WAITING, "end", "Waiting 0", false),
    (DRAWING, "eglReleaseThread", "Done 1", true),
    (WAITING, "eglGetError", "InWait 0", true),
    (DRAWING, "eglTerminate 1", "Done 1", true),
    (WAITING, "end", "Done 3000000083", false),
    (WAITING, "end", "NoWait 0", false),
    (WAITING, "eglGetError", "Done 3000000000", false),
    (WAITING, "halt", "Done 0", false),
    (
        WAITING,
        "eglClientWaitSync 1 5 0 EGL_FOREVER",
        "Egl(NotInitialized) 0",
        false,
    ),
];

/// A driver of two threads.
fn opened(rt: &impl Abort, alloc: Global) -> Driver
    ensures { result.made ≡ 2 }
{
    let Ok(mut driver) = Driver::new(alloc, &[], 67_108_864) else {
        panic!(rt; "memory");
    };
    let Ok(_) = driver.add_thread() else {
        panic!(rt; "memory");
    };
    driver
}

/// What a thread's call is answered: the outcome and the value. What the reply is isn't told, so that the proofs below stay short.
fn answer(rt: &impl Abort, alloc: Global, driver: &mut Driver, thread: u32, call: &Call) -> String
    requires made { thread < driver.old.made }
    ensures made { driver.new.made ≡ driver.old.made }
{
    let Ok(reply) = driver.play(alloc, thread, call) else {
        panic!(rt; "memory");
    };
    format!(in alloc; "{:?} {}", reply.outcome, reply.value).expect(rt, "memory")
}

fn expect_row(rt: &impl Abort, alloc: Global, driver: &mut Driver, row: &Row)
    requires made { driver.old.made ≡ 2 }
    ensures made { driver.new.made ≡ 2 }
{
    let (thread, text, wanted, is_ready) = *row;
    assert!(rt; thread <= DRAWING);
    let call = match text {
        "end" => own_call(alloc, OwnKind::WaitEnd),
        _ => call_of(rt, alloc, text),
    };
    let found = answer(rt, alloc, driver, thread, &call);
    let ready = driver.wait_ready(WAITING);
    assert_eq!(rt;
        (found.as_str(), ready),
        (wanted, is_ready),
        "{thread} {text}"
    );
}

fn expect_rows(rt: &impl Abort, alloc: Global, driver: &mut Driver)
    requires { driver.old.made ≡ 2 }
{
    'each: for row in &ROWS {
        expect_row(rt, alloc, driver, row);
    }
    assert_eq!(rt; driver.census(), [0; 11]);
}

#[test]
fn a_thread_that_waits_makes_no_call_but_the_end_of_its_wait(rt: HostRuntime) {
    let mut driver = opened(&rt, rt.alloc());
    expect_rows(&rt, rt.alloc(), &mut driver);
}
