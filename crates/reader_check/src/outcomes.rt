//! Every outcome of a trace: how many are listed, and what is said of them.
use egl_flow::{MOST_INPUT, Status};
use egl_outcomes::answer_bytes;
use std::process::Abort;
use trace_outcomes::list_outcomes;
use trace_reader::Trace;

/// One thread destroys a surface beside another that asks for its width.
static DESTROYED: &str = "\
egl-trace 1 2
# The line of thread 1 can stand before that of thread 0, or behind it.
0 $d = eglGetDisplay 0
0 eglInitialize $d
0 $s = eglCreatePbufferSurface $d 4 [EGL_WIDTH,4,EGL_HEIGHT,2]
0 eglDestroySurface $d $s
0 eglGetError
1 eglQuerySurface $d $s EGL_WIDTH
1 eglGetError
1 eglGetError
";

/// Each wait is ended by nothing, and neither thread posts before its own.
static STALLED: &str = "\
egl-trace 1 2
0 await 1
0 post 2
1 await 2
1 post 1
";

static STALLED_TEXT: &str = "\
outcomes 1 of 1 histories

outcome 1 stalled
  order

each line
  2 none
  3 none
  4 none
  5 none
";

/// The surface's handle is 3 in a run here, and 77 in this recording.
static RECORDED: &str = "\
egl-trace 1 1
0 eglInitialize 1
0 $s = eglCreatePbufferSurface 1 4 [EGL_WIDTH,4,EGL_HEIGHT,2]
0 eglQuerySurface 1 $s EGL_WIDTH
recording
0 2 ok 1 [] -
0 3 ok 77 [] -
0 4 ok 4 [] -
census 0 0 0 0 0 0 1 1 0 0 32
end
";

static RECORDED_TEXT: &str = "\
outcomes 1 of 1 histories

outcome 1
  order 2 3 4

each line
  2 ok 1 [] -
  3 ok @3 [] -
  4 ok 4 [] -

the recording has outcome 1
";

fn expect_answer<R: AllocGlobal + Abort>(rt: &R, trace: &str, status: Status, text: &str) {
    if trace.len() as u64 > MOST_INPUT {
        panic!(rt; "the input is too long");
    }
    let Ok(answer) = answer_bytes(rt.alloc(), trace.as_bytes()) else {
        panic!(rt; "no memory");
    };
    assert_eq!(rt; answer.status.number(), status.number());
    assert_eq!(rt; answer.text.as_slice(), text.as_bytes());
}

#[test]
fn orders_that_answer_the_same_have_one_outcome(rt: HostRuntime) {
    let Ok(trace) = Trace::read_slice(rt.alloc(), DESTROYED.as_bytes()) else {
        panic!(rt; "no trace");
    };
    let Ok(Some(listing)) = list_outcomes(rt.alloc(), &trace) else {
        panic!(rt; "nothing is listed");
    };
    assert_eq!(rt; (listing.outcomes.len(), listing.histories), (2, 10));
}

#[test]
fn what_is_said_of_a_trace(rt: HostRuntime) {
    expect_answer(&rt, STALLED, Status::Ok, STALLED_TEXT);
    expect_answer(&rt, RECORDED, Status::Ok, RECORDED_TEXT);
    expect_answer(
        &rt,
        "egl-trace 1 9\n",
        Status::Malformed,
        "malformed 1 Limit\n",
    );
}
