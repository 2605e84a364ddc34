//! Calls that count the steps of freeing, beside one that counts none, on a run that lets go of many objects at once. A counter is a ghost, which no run can read: that the steps are few is proved, and what stands here is that such calls answer and leave what `play` does.
ghost use Rattle.std.specs.Prelude.{◌≡◌, ◌<◌};

use crate::readings::call_of;
use crate::replays::is_same;
use driver_core::Driver;
use egl_calls::{Call, Reply, ReplyPair};
use ref_store::Steps;
use std::alloc::Global;
use std::marker::Brand;
use std::process::Abort;
use std::sync::ledger::{Blank, Ledger};

/// A context that is current, with names for a hundred textures.
const BEFORE: &str =
    "eglGetDisplay 0\neglInitialize 1\neglCreatePbufferSurface 1 4 [EGL_WIDTH,4,EGL_HEIGHT,4]\neglCreateContext 1 4 0 []\neglMakeCurrent 1 3 3 4\nglGenTextures 100";

/// What each texture is given.
const UPLOAD: &str =
    "glTexImage2D GL_TEXTURE_2D 0 GL_RGBA 1 1 0 GL_RGBA GL_UNSIGNED_BYTE #01020304";

/// What is there while the context is current without a handle, and what once it isn't.
static CENSUSES: [[i64; 11]; 2] = [
    [1, 1, 101, 0, 0, 0, 1, 101, 0, 0, 464],
    [0, 0, 0, 0, 0, 0, 1, 1, 0, 0, 64],
];

/// The calls up to the one that takes the context's handle.
fn lines(rt: &impl Abort, alloc: Global) -> String {
    let mut text = String::from_str(alloc, BEFORE).expect(rt, "memory");
    for name in 1..101 {
        let texture = format!(in alloc; "\nglBindTexture GL_TEXTURE_2D {name}\n{UPLOAD}");
        text.push_str(&texture.expect(rt, "memory"))
            .expect(rt, "memory");
    }
    text.push_str("\neglDestroyContext 1 4")
        .expect(rt, "memory");
    text
}

fn opened(rt: &impl Abort, alloc: Global) -> Driver
    ensures { 0 < result.made }
{
    match Driver::new(alloc, &[], 67_108_864) {
        Ok(driver) => driver,
        Err(_) => panic!(rt; "memory"),
    }
}

fn played(rt: &impl Abort, alloc: Global, driver: &mut Driver, call: &Call) -> Reply
    requires made { 0 < driver.old.made }
    ensures made { driver.new.made ≡ driver.old.made }
{
    match driver.play(alloc, 0, call) {
        Ok(reply) => reply,
        Err(_) => panic!(rt; "memory"),
    }
}

fn stepped<L: Ledger>(
    rt: &impl Abort,
    alloc: Global,
    driver: &mut Driver,
    call: &Call,
    steps: &mut Steps<L>,
) -> Reply
    requires made { 0 < driver.old.made }
    ensures made { driver.new.made ≡ driver.old.made }
{
    match driver.step(alloc, 0, call, steps) {
        Ok(reply) => reply,
        Err(_) => panic!(rt; "memory"),
    }
}

fn copied<L: Ledger>(
    rt: &impl Abort,
    alloc: Global,
    driver: &mut Driver,
    call: &Call,
    steps: &mut Steps<L>,
) -> ReplyPair
    requires made { 0 < driver.old.made }
    ensures made { driver.new.made ≡ driver.old.made }
{
    match driver.step_with_copy(alloc, 0, call, steps) {
        Ok(pair) => pair,
        Err(_) => panic!(rt; "memory"),
    }
}

/// Makes one call by each of three drivers, and answers the reply that they share.
fn same_reply<L: Ledger>(
    rt: &impl Abort,
    alloc: Global,
    first: &mut Driver,
    second: &mut Driver,
    third: &mut Driver,
    steps: &mut Steps<L>,
    text: &str,
) -> Reply
    requires first { 0 < first.old.made }
    requires second { 0 < second.old.made }
    requires third { 0 < third.old.made }
    ensures first { 0 < first.new.made }
    ensures second { 0 < second.new.made }
    ensures third { 0 < third.new.made }
{
    let call = call_of(rt, alloc, text);
    let reply = played(rt, alloc, first, &call);
    let once = stepped(rt, alloc, second, &call, steps);
    let twice = copied(rt, alloc, third, &call, steps);
    assert!(rt; is_same(&once, &reply), "{text}");
    assert!(rt;
        is_same(&twice.reply, &reply) && is_same(&twice.copy, &reply),
        "{text}"
    );
    reply
}

fn expect_same<R: Abort, L: Ledger>(
    rt: &R,
    alloc: Global,
    first: &mut Driver,
    second: &mut Driver,
    third: &mut Driver,
    blank: Blank,
)
    requires name { blank.name ≡ L.name }
    requires parts { blank.parts ≡ L.parts }
    requires some { 0 < blank.parts }
    requires first { 0 < first.old.made }
    requires second { 0 < second.old.made }
    requires third { 0 < third.old.made }
{
    let mut steps: Steps<L> = Steps::open(blank);
    let text = lines(rt, alloc);
    'lines: for line in text.split('\n') {
        same_reply(rt, alloc, first, second, third, &mut steps, line);
    }
    let current = same_reply(rt, alloc, first, second, third, &mut steps, "census");
    same_reply(
        rt,
        alloc,
        first,
        second,
        third,
        &mut steps,
        "eglReleaseThread",
    );
    let released = same_reply(rt, alloc, first, second, third, &mut steps, "census");
    let [wanted, left] = CENSUSES;
    assert_eq!(rt; current.list.as_slice(), wanted.as_slice());
    assert_eq!(rt; released.list.as_slice(), left.as_slice());
}

#[test]
fn calls_that_count_steps_leave_what_play_does(rt: HostRuntime) {
    let alloc = rt.alloc();
    let mut first = opened(&rt, alloc);
    let mut second = opened(&rt, alloc);
    let mut third = opened(&rt, alloc);
    expect_same::<_, Brand>(
        &rt,
        alloc,
        &mut first,
        &mut second,
        &mut third,
        Blank::new(1),
    );
}
