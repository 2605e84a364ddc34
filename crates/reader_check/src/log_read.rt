//! A text that is a log, and what it says.
use crate::log_texts::log;
use log_reader::{Called, Cut, Item, LogConfig, Shown};
use std::alloc::{AllocError, Global};
use std::process::Abort;

static ALL: &str = "\
egl-log 1 2\r
# a driver's log
video 4096

window 7 2 1
config 99999999999999999999 8 8 8 8 24 8
config 3 5 6 5 0 0 0
0 $d = eglGetDisplay 0 => ok 18446744073709551615
 0   eglInitialize   $d   =>   ok   1
1 post 5
0 $k = eglGetConfigs $d => ok 1 [99999999999999999999,3] -\r
1 await 5 => ok 0 [] -
0 eglGetConfigAttrib $d $k.1 EGL_CONFIG_ID => ok 3
front 1 7 00ff0000000000ff
1 glClear 0 => GL_INVALID_VALUE -7 [5,-1] 0a
1 eglTerminate 9 => EGL_BAD_DISPLAY
1 eglTerminate 9 => 12345
0 eglInitialize $d
# it ends here
front 0 7 -
crash SIGSEGV
# no more
";

/// What is read of each line: its number and its thread, the variable that it assigns, how many variables it uses, and its answer.
static ITEMS: &str = "\
8 0 Some(0) 0 Done 18446744073709551615 [] []
9 0 None 1 Done 1 [] []
10 1 None 0 Done 0 [] []
11 0 Some(1) 1 Done 1 [99999999999999999999, 3] []
12 1 None 0 Done 0 [] []
13 0 None 2 Done 3 [] []
front 14 1 7 [0, 255, 0, 0, 0, 0, 0, 255]
15 1 None 0 Gl(InvalidValue) -7 [5, -1] [10]
16 1 None 0 Egl(BadDisplay) 0 [] []
17 1 None 0 Unnamed(12345) 0 [] []
front 20 0 7 []
";

fn config_text(alloc: Global, c: &LogConfig) -> Result<String, AllocError> {
    format!(in alloc;
        "config {} {} {} {} {} {} {}",
        c.id, c.red, c.green, c.blue, c.alpha, c.depth, c.stencil
    )
}

fn call_text(alloc: Global, called: &Called) -> Result<String, AllocError> {
    let line = &called.line;
    let answer = &called.answer;
    format!(in alloc;
        "{} {} {:?} {} {:?} {} {:?} {:?}",
        line.number,
        line.thread,
        line.assigns,
        line.uses.len(),
        answer.outcome,
        answer.value,
        answer.list.as_slice(),
        answer.bytes.as_slice()
    )
}

fn front_text(alloc: Global, shown: &Shown) -> Result<String, AllocError> {
    format!(in alloc;
        "front {} {} {} {:?}",
        shown.number,
        shown.thread,
        shown.window,
        shown.bytes.as_slice()
    )
}

fn item_text(alloc: Global, item: &Item) -> Result<String, AllocError> {
    match item {
        Item::Call(called) => call_text(alloc, called),
        Item::Front(shown) => front_text(alloc, shown),
    }
}

fn expect_cut(rt: &impl Abort, cut: Option<&Cut>, line: u64, is_told: bool) {
    match cut {
        Some(cut) => {
            assert_eq!(rt; cut.line.number, line);
            assert_eq!(rt; cut.word.is_some(), is_told);
        }
        None => panic!(rt; "it is whole"),
    }
}

#[test]
fn the_head_is_read(rt: HostRuntime) {
    let log = log(&rt, rt.alloc(), ALL);
    assert_eq!(rt; log.threads(), 2);
    assert_eq!(rt; log.video(), 4_096);
    for window in log.windows() {
        assert_eq!(rt; (window.id, window.w, window.h), (7, 2, 1));
    }
    let mut text = String::new(rt.alloc());
    for config in log.configs() {
        let line = config_text(rt.alloc(), config).expect(&rt, "memory");
        text.push_str(line.as_str()).expect(&rt, "memory");
        text.push_str("\n").expect(&rt, "memory");
    }
    assert_eq!(rt;
        text.as_str(),
        "config 99999999999999999999 8 8 8 8 24 8\nconfig 3 5 6 5 0 0 0\n"
    );
}

#[test]
fn each_answer_is_read(rt: HostRuntime) {
    let log = log(&rt, rt.alloc(), ALL);
    let mut text = String::new(rt.alloc());
    for item in log.items() {
        let line = item_text(rt.alloc(), item).expect(&rt, "memory");
        text.push_str(line.as_str()).expect(&rt, "memory");
        text.push_str("\n").expect(&rt, "memory");
    }
    assert_eq!(rt; text.as_str(), ITEMS);
    expect_cut(&rt, log.cut(), 18, true);
}

#[test]
fn a_call_may_be_left_open(rt: HostRuntime) {
    let whole = log(&rt, rt.alloc(), "egl-log 1 1\n0 glFinish => ok\n");
    assert_eq!(rt; whole.cut().is_none(), true);
    let open = log(&rt, rt.alloc(), "egl-log 1 1\n0 glFinish");
    expect_cut(&rt, open.cut(), 2, false);
}
