//! Texts that are no log: below a heading the lines of one, and behind two exclamation marks what is wrong with a line that comes next.
use crate::log_texts::{log, name, read};
use crate::texts::add_lines;
use log_reader::LogError;
use std::alloc::Global;
use std::process::Abort;

static REFUSED: &str = "\
# the first line is missing or has another form
 !! malformed 1 Header
egl-log 1 !! malformed 1 Header
egl-log 1 1 1 !! malformed 1 Header
egl-log 2 1 !! malformed 1 Header
egl-trace 1 1 !! malformed 1 Header
egl-log 1 01 !! malformed 1 Header
#egl-log 1 1 !! malformed 1 Header
egl-log 1 0 !! malformed 1 Limit
egl-log 1 17 !! malformed 1 Limit
# the lines of a trace's head
egl-log 1 1
video x !! malformed 2 Window
video 1073741825 !! malformed 2 Limit
window 1 0 4 !! malformed 2 Limit
window 0 4 4 !! malformed 2 Window
# the bytes stand before all windows, and both before all configs
egl-log 1 1
window 1 4 4
window 1 4 4 !! malformed 3 Window
video 1 !! malformed 3 Thread
config 1 8 8 8 8 0 0
window 2 4 4 !! malformed 4 Thread
video 1 !! malformed 4 Thread
# configs in another form
egl-log 1 1
config !! malformed 2 Window
config 1 8 8 8 8 0 !! malformed 2 Window
config 1 8 8 8 8 0 0 0 !! malformed 2 Window
config x 8 8 8 8 0 0 !! malformed 2 Window
config -1 8 8 8 8 0 0 !! malformed 2 Window
config 0x1 8 8 8 8 0 0 !! malformed 2 Window
config 1 8 8 8 08 0 0 !! malformed 2 Window
config 100000000000000000000 8 8 8 8 0 0 !! malformed 2 Window
config 1 8 8 8 8 0 4294967296 !! malformed 2 Limit
config 99999999999999999999 8 8 8 8 0 0
config 99999999999999999999 8 8 8 8 24 8 !! malformed 3 Window
# what stands in front of the arrow has the defects of a trace
egl-log 1 2
2 glFlush => ok !! malformed 2 Thread
x glFlush => ok !! malformed 2 Thread
=> ok !! malformed 2 Thread
0 glFlash => ok !! malformed 2 Name
0 glFlush 1 => ok !! malformed 2 Argument
0 glClear => ok !! malformed 2 Argument
0 glClear EGL_NOTHING => ok !! malformed 2 Name
0 $A = eglGetDisplay 0 => ok !! malformed 2 Variable
0 glBufferData GL_ARRAY_BUFFER 1 GL_STATIC_DRAW *8388609:00 => ok !! malformed 2 Limit
# no call looks into a driver
egl-log 1 1
window 1 4 4
0 census => ok !! malformed 3 Name
0 readFront 1 => ok !! malformed 3 Name
0 readBuffer GL_ARRAY_BUFFER 0 1 => ok !! malformed 3 Name
# a variable is used behind the line that assigns it
egl-log 1 1
0 eglInitialize $d => ok 1 !! malformed 2 Variable
0 $d = eglInitialize $d => ok 1 !! malformed 2 Variable
0 $d = eglGetDisplay 0 => ok 94
0 $d = eglGetDisplay 0 => ok 94 !! malformed 3 Variable
0 eglInitialize $e => ok 1 !! malformed 3 Variable
0 eglInitialize $d.x => ok 1 !! malformed 3 Variable
# a variable stands for a config, and for no other number
egl-log 1 1
0 $d = eglGetDisplay 0 => ok 94
0 $k = eglGetConfigs $d => ok 1 [7,9]
0 eglGetConfigAttrib $d $k.0 $k.1 => ok 1 !! malformed 4 Argument
0 eglCreateWindowSurface $d $k.0 $k.0 [] => ok 1 !! malformed 4 Argument
0 glClear $k.0 => ok !! malformed 4 Argument
# answers in another form
egl-log 1 1
0 eglGetDisplay 0 => !! malformed 2 Answer
0 eglGetDisplay 0 => yes !! malformed 2 Answer
0 eglGetDisplay 0 => waiting !! malformed 2 Answer
0 eglGetDisplay 0 => EGL_SUCCESS !! malformed 2 Answer
0 eglGetDisplay 0 => EGL_WIDTH !! malformed 2 Answer
0 eglGetDisplay 0 => ok x !! malformed 2 Answer
0 eglGetDisplay 0 => ok 01 !! malformed 2 Answer
0 eglGetDisplay 0 => ok -0 !! malformed 2 Answer
0 eglGetDisplay 0 => ok 0x5 !! malformed 2 Answer
0 eglGetDisplay 0 => ok 100000000000000000000 !! malformed 2 Answer
0 eglGetDisplay 0 => ok [] !! malformed 2 Answer
0 eglGetDisplay 0 => ok 1 1 !! malformed 2 Answer
0 eglGetDisplay 0 => ok 1 [,] !! malformed 2 Answer
0 eglGetDisplay 0 => ok 1 [1,] !! malformed 2 Answer
0 eglGetDisplay 0 => ok 1 [] 0 !! malformed 2 Answer
0 eglGetDisplay 0 => ok 1 [] 0g !! malformed 2 Answer
0 eglGetDisplay 0 => ok 1 [] FF !! malformed 2 Answer
0 eglGetDisplay 0 => ok 1 [] #00 !! malformed 2 Answer
0 eglGetDisplay 0 => ok 1 [] 00 00 !! malformed 2 Answer
0 eglGetDisplay 0 => ok => ok !! malformed 2 Answer
# fronts in another form
egl-log 1 1
window 7 1 1
front !! malformed 3 Argument
front 0 7 !! malformed 3 Argument
front 0 7 00 00 !! malformed 3 Argument
front 1 7 00000000 !! malformed 3 Thread
front 0 8 00000000 !! malformed 3 Window
front 0 x 00000000 !! malformed 3 Window
front 0 7 000 !! malformed 3 Answer
# only the last call may lack its answer
egl-log 1 1
0 eglGetDisplay 0
0 eglGetDisplay 0 => ok 94 !! malformed 2 Answer
crash !! malformed 2 Answer
crash SIGSEGV SIGBUS !! malformed 2 Answer
crash SIGSEGV
crash SIGSEGV !! malformed 2 Answer
0 foo !! malformed 2 Answer
";

/// Reads a text with one more line, which has this defect.
fn expect_defect(rt: &impl Abort, alloc: Global, front: &str, line: &str, defect: &str) {
    let text = format!(in alloc; "{front}{line}").expect(rt, "memory");
    match read(rt, alloc, &text) {
        Err(LogError::Malformed { line, reason }) => {
            let word = name(reason);
            let found = format!(in alloc; "malformed {line} {word}").expect(rt, "memory");
            assert_eq!(rt; found.as_str(), defect, "{text}");
        }
        Err(LogError::NoMemory) => panic!(rt; "memory"),
        Ok(_) => panic!(rt; "{text} is a log"),
    }
}

/// A line, where what is said of it doesn't stand behind.
fn add_line(rt: &impl Abort, alloc: Global, front: &mut String, line: &str) {
    match line.split_once(" !! ") {
        Some((line, defect)) => expect_defect(rt, alloc, front, line, defect),
        None => {
            front.push_str(line).expect(rt, "memory");
            front.push_str("\n").expect(rt, "memory");
        }
    }
}

#[test]
fn the_first_defect_is_answered(rt: HostRuntime) {
    let mut front = String::new(rt.alloc());
    for line in REFUSED.lines() {
        if line.starts_with("# ") {
            front.clear();
        } else {
            add_line(&rt, rt.alloc(), &mut front, line);
        }
    }
}

#[test]
fn the_513th_config_passes_the_limit(rt: HostRuntime) {
    let mut text = String::from_str(rt.alloc(), "egl-log 1 1\n").expect(&rt, "memory");
    for id in 0..512u32 {
        let line = format!(in rt.alloc(); "config {id} 8 8 8 8 0 0\n").expect(&rt, "memory");
        text.push_str(line.as_str()).expect(&rt, "memory");
    }
    let _ = log(&rt, rt.alloc(), &text);
    expect_defect(
        &rt,
        rt.alloc(),
        &text,
        "config 512 8 8 8 8 0 0",
        "malformed 514 Limit",
    );
}

#[test]
fn the_100001st_call_passes_the_limit(rt: HostRuntime) {
    let mut text = String::from_str(rt.alloc(), "egl-log 1 1\n").expect(&rt, "memory");
    add_lines(&rt, &mut text, "0 glFlush => ok\n", 100_000);
    expect_defect(
        &rt,
        rt.alloc(),
        &text,
        "0 glFlush => x",
        "malformed 100002 Limit",
    );
}
