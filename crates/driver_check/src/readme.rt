//! The calls that the first page shows to those who use the driver as a library, line for line.
ghost use Rattle.std.specs.Prelude.{◌≡◌, ◌<◌};

use driver_core::Driver;
use egl_calls::{Call, EglKind, Kind, NoMemory, Numbers, Outcome, Reply};
use std::alloc::Global;

/// What eglGetDisplay answers a new driver.
fn first_reply(alloc: Global) -> Result<Reply, NoMemory> {
    let mut driver = Driver::new(alloc, &[], 67_108_864)?;
    let call = Call {
        kind: Kind::Egl(EglKind::GetDisplay),
        args: [0; 8],
        list: Numbers::new(alloc),
        bytes: None,
    };
    let reply = driver.play(alloc, 0, &call)?;
    Ok(reply)
}

#[test]
fn the_first_page_plays_a_call(rt: HostRuntime) {
    let reply = first_reply(rt.alloc()).expect(&rt, "memory");
    assert!(rt; reply.outcome == Outcome::Done && reply.value == 1);
}
