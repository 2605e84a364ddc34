//! Logs of a driver, and of how many of their lines something is told.
use crate::log_texts::log;
use driver_judge::judge;
use egl_judge::judgement_text;

/// A log; how many of its lines agree, how many of these with a value that is the driver's own, and how many don't.
type Row = (&'static str, u64, u64, u64);

static JUDGED: [Row; 5] = [
    // Handles may be any numbers.
    (
        "egl-log 1 1\n0 $d = eglGetDisplay 0 => ok 94217\n0 eglInitialize $d => ok 1\n0 $c = eglCreateContext $d 4 0 [] => ok 7\n0 eglDestroyContext $d $c => ok 1\n",
        4,
        0,
        0,
    ),
    // No row of the call holds by which it is refused.
    ("egl-log 1 1\n0 eglTerminate 9 => ok 1\n", 0, 0, 1),
    // Each error of a row that holds agrees, and is the thread's then.
    (
        "egl-log 1 1\n0 eglDestroySurface 9 9 => EGL_BAD_SURFACE\n0 eglGetError => ok EGL_BAD_SURFACE\n",
        2,
        0,
        0,
    ),
    // What was refused made no handle.
    (
        "egl-log 1 1\n0 $d = eglGetDisplay 0 => ok 1\n0 eglInitialize $d => ok 1\n0 $c = eglCreateContext $d 4 0 [] => EGL_BAD_ALLOC\n0 eglDestroyContext $d $c => ok 1\n",
        2,
        0,
        2,
    ),
    // A visual is the driver's own.
    (
        "egl-log 1 1\n0 $d = eglGetDisplay 0 => ok 1\n0 eglInitialize $d => ok 1\n0 eglGetConfigAttrib $d 4 EGL_NATIVE_VISUAL_ID => ok 33\n",
        3,
        1,
        0,
    ),
];

#[test]
fn lines_agree_or_are_told(rt: HostRuntime) {
    for (text, agreed, own, told) in &JUDGED {
        let log = log(&rt, rt.alloc(), text);
        let Ok(judgement) = judge(rt.alloc(), &log, 0) else {
            panic!(rt; "no memory");
        };
        assert_eq!(rt;
            (
                judgement.agreed(),
                judgement.own(),
                judgement.notes().len() as u64,
            ),
            (*agreed, *own, *told),
            "{text}"
        );
    }
}

/// A call that was carried out and should have been refused, and the call that was under way at the end.
static DIFFERS: &str = "egl-log 1 1\n0 eglTerminate 9 => ok 1\n0 eglGetDisplay 0\ncrash SIGSEGV\n";

static DIFFERS_TEXT: &str = "\
judged 1 agreed 0 differences 1 after 0 unjudged 0 own 0 cut
difference 2 outcome EGL_BAD_DISPLAY ok
cut 3 eglGetDisplay SIGSEGV
end
";

#[test]
fn what_is_told_of_a_log(rt: HostRuntime) {
    let log = log(&rt, rt.alloc(), DIFFERS);
    let Ok(judgement) = judge(rt.alloc(), &log, 0) else {
        panic!(rt; "no memory");
    };
    let Ok(text) = judgement_text(rt.alloc(), &judgement) else {
        panic!(rt; "no memory");
    };
    assert_eq!(rt; text.as_slice(), DIFFERS_TEXT.as_bytes());
}
