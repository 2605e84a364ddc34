//! Texts that are no scene: below a heading the lines of one, and behind an arrow what is wrong with a line that comes next.
use crate::texts::{add_lines, read};
use std::alloc::Global;
use std::process::Abort;
use trace_reader::TraceError;

static REFUSED: &str = "\
# the first line is missing or has another form
 => malformed 1 Header
egl-scene 1 4 => malformed 1 Header
egl-scene 1 4 1 1 => malformed 1 Header
egl-scene 2 4 1 => malformed 1 Header
egl-trace 1 4 1 => malformed 1 Header
egl-scene 1 04 1 => malformed 1 Header
egl-scene 1 0x4 1 => malformed 1 Header
#egl-scene 1 4 1 => malformed 1 Header
# sides that no scene has
egl-scene 1 0 1 => malformed 1 Header
egl-scene 1 1 0 => malformed 1 Header
egl-scene 1 2049 1 => malformed 1 Header
egl-scene 1 1 2049 => malformed 1 Header
egl-scene 1 99999999999999999999 1 => malformed 1 Header
# lines that there are not, and empty ones that count
egl-scene 1 2048 2048

rect 1 => malformed 3 Name
0 sprite => malformed 3 Name
Sprite 1 0 0 1 1 0 0 1 1 => malformed 3 Name
egl-scene 1 4 1 => malformed 3 Name
# an atlas in another form
egl-scene 1 4 1
atlas => malformed 2 Argument
atlas 1 1 1 => malformed 2 Argument
atlas 1 1 1 #00000000 1 => malformed 2 Argument
atlas 1 1 1 00000000 => malformed 2 Argument
atlas 1 1 1 #0000000 => malformed 2 Argument
atlas 1 1 1 #0000000G => malformed 2 Argument
atlas 1 1 1 - => malformed 2 Argument
atlas 1 1 1 # => malformed 2 Argument
atlas 1 1 1 #000000 => malformed 2 Argument
atlas 1 1 1 #0000000000 => malformed 2 Argument
atlas 1 2 2 *3:00000000 => malformed 2 Argument
atlas 1 2 2 *4294967295:00000000 => malformed 2 Argument
# an atlas that there can't be
egl-scene 1 4 1
atlas 0 1 1 #00000000 => malformed 2 Argument
atlas 65 1 1 #00000000 => malformed 2 Argument
atlas 01 1 1 #00000000 => malformed 2 Argument
atlas x 1 1 #00000000 => malformed 2 Argument
atlas 0x1 1 1 #00000000 => malformed 2 Argument
atlas 1 0 1 # => malformed 2 Argument
atlas 1 3 1 *3:00000000 => malformed 2 Argument
atlas 1 1 6 *6:00000000 => malformed 2 Argument
atlas 1 2048 1 *2048:00000000 => malformed 2 Argument
atlas 1 4294967296 1 #00000000 => malformed 2 Argument
# a second atlas of an id
egl-scene 1 4 1
atlas 1 1 1 #00000000
atlas 2 1 1 #00000000
atlas 1 1 1 #00000000 => malformed 4 Argument
# parts outside the atlas, and of an atlas that there isn't yet
egl-scene 1 4 1
atlas 64 4 2 *8:00000000
sprite 64 0 0 5 1 0 0 1 1 => malformed 3 Argument
sprite 64 0 0 1 3 0 0 1 1 => malformed 3 Argument
sprite 64 4 0 1 1 0 0 1 1 => malformed 3 Argument
sprite 64 0 2 1 1 0 0 1 1 => malformed 3 Argument
sprite 64 0 0 0 1 0 0 1 1 => malformed 3 Argument
sprite 64 0 0 1 0 0 0 1 1 => malformed 3 Argument
sprite 64 4294967295 0 1 1 0 0 1 1 => malformed 3 Argument
sprite 63 0 0 1 1 0 0 1 1 => malformed 3 Argument
smooth 64 2 0 3 1 0 0 1 1 => malformed 3 Argument
smooth 63 0 0 1 1 0 0 1 1 => malformed 3 Argument
tile 64 0 1 1 2 0 0 1 1 => malformed 3 Argument
tile 63 0 0 1 1 0 0 1 1 => malformed 3 Argument
# parts in another form, or drawn where or as they can't be
egl-scene 1 4 1
atlas 1 4 4 *16:00000000
sprite 1 0 0 1 1 0 0 1 => malformed 3 Argument
sprite 1 0 0 1 1 0 0 1 1 1 => malformed 3 Argument
sprite 1 -1 0 1 1 0 0 1 1 => malformed 3 Argument
sprite 1 0 0 1 1 -65537 0 1 1 => malformed 3 Argument
sprite 1 0 0 1 1 65536 0 1 1 => malformed 3 Argument
sprite 1 0 0 1 1 0 -65537 1 1 => malformed 3 Argument
sprite 1 0 0 1 1 0 65536 1 1 => malformed 3 Argument
sprite 1 0 0 1 1 -0 0 1 1 => malformed 3 Argument
sprite 1 0 0 1 1 0x1 0 1 1 => malformed 3 Argument
sprite 1 0 0 1 1 0 0 0 1 => malformed 3 Argument
sprite 1 0 0 1 1 0 0 1 1025 => malformed 3 Argument
smooth 1 0 0 1 1 0 0 1025 1 => malformed 3 Argument
smooth 1 0 0 1 1 0 0 1 0 => malformed 3 Argument
tile 1 0 0 1 1 0 0 0 1 => malformed 3 Argument
tile 1 0 0 1 1 0 0 1 1025 => malformed 3 Argument
tile 1 0 0 1 1 0 0 1 => malformed 3 Argument
# clips in another form, or larger than they can be
egl-scene 1 4 1
clip 0 0 1 => malformed 2 Argument
clip 0 0 1 1 1 => malformed 2 Argument
clip -65537 0 1 1 => malformed 2 Argument
clip 0 65536 1 1 => malformed 2 Argument
clip 0 0 65536 1 => malformed 2 Argument
clip 0 0 1 -1 => malformed 2 Argument
noclip 0 => malformed 2 Argument
# more draws than there may be, and in a line with another defect
egl-scene 1 4 1
atlas 1 1 1 #00000000
tile 1 0 0 1 1 0 0 1000 20
noclip
sprite 1 0 0 1 1 0 0 1 1 => malformed 5 Limit
smooth 1 0 0 1 1 0 0 1 1 => malformed 5 Limit
tile 1 0 0 1 1 0 0 1 1 => malformed 5 Limit
tile 1 0 0 1 1 0 0 1024 1024 => malformed 5 Limit
tile 1 0 0 1 2 0 0 1 1 => malformed 5 Argument
# more bytes of textures than there may be
egl-scene 1 4 1
atlas 1 1024 1024 *1048576:00000000
smooth 1 0 0 1 1 0 0 513 1024
sprite 1 0 0 1 1 0 0 1024 1024
atlas 2 1 1 #00000000 => malformed 5 Limit
smooth 1 0 0 1 1 0 0 1 1 => malformed 5 Limit
";

/// Reads a text with one more line, which has this defect.
fn expect_defect(rt: &impl Abort, alloc: Global, front: &str, line: &str, defect: &str) {
    let text = format!(in alloc; "{front}{line}").expect(rt, "memory");
    match read(rt, alloc, &text) {
        Err(TraceError::Malformed { line, reason }) => {
            let found = format!(in alloc; "malformed {line} {reason:?}").expect(rt, "memory");
            assert_eq!(rt; found.as_str(), defect, "{text}");
        }
        Err(TraceError::NoMemory) => panic!(rt; "memory"),
        Ok(_) => panic!(rt; "{text} is a scene"),
    }
}

/// A line, where what is said of it doesn't stand behind.
fn add_line(rt: &impl Abort, alloc: Global, front: &mut String, line: &str) {
    match line.split_once(" => ") {
        Some((line, defect)) => expect_defect(rt, alloc, front, line, defect),
        None => {
            front.push_str(line).expect(rt, "memory");
            front.push_str("\n").expect(rt, "memory");
        }
    }
}

#[test]
fn the_first_defect_is_answered(rt: HostRuntime) {
    let mut front = String::new(rt.alloc());
    for line in REFUSED.lines() {
        if line.starts_with("# ") {
            front.clear();
        } else {
            add_line(&rt, rt.alloc(), &mut front, line);
        }
    }
}

#[test]
fn the_4001st_item_passes_the_limit(rt: HostRuntime) {
    let mut text = String::from_str(rt.alloc(), "egl-scene 1 4 1\n").expect(&rt, "memory");
    add_lines(&rt, &mut text, "noclip\n# no item\n", 4_000);
    expect_defect(&rt, rt.alloc(), &text, "noclip", "malformed 8002 Limit");
    expect_defect(
        &rt,
        rt.alloc(),
        &text,
        "noclip 0",
        "malformed 8002 Argument",
    );
}
