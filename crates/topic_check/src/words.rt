//! Words that are texts of their own, lists of attributes of any length, and a journal in which a thread gave up.
use attrib_lists::{Allowed, AttribError, AttribList};
use egl_calls::{
    Bytes, Call, EglKind, Entry, Journal, Kind, Numbers, Outcome, OwnKind, Reply, Text,
};
use egl_names::{code_of, codes, number_word};
use std::alloc::Global;
use std::process::Abort;

/// A word, the code of which it is the name, and the number for which it stands.
static WORDS: [(&str, Option<u32>, Option<i64>); 5] = [
    ("EGL_SUCCESS", Some(3_000_000_000), None),
    ("GL_FRAMEBUFFER_UNDEFINED_OES", Some(3_000_000_163), None),
    ("EGL_DONT_CARE", None, Some(-1)),
    ("GL_STENCIL_BUFFER_BIT", None, Some(4)),
    ("", None, None),
];

#[test]
fn texts_have_a_code_or_stand_for_a_number(rt: HostRuntime) {
    for (word, code, number) in &WORDS {
        let bytes = word.as_bytes().to_vec(rt.alloc());
        let text = Text::from_vec(bytes.expect(&rt, "memory is ample"));
        assert!(rt;
            code_of(&text) == *code && number_word(&text) == *number,
            "{word}"
        );
    }
}

/// The code of a name.
macro_rules! code {
    ($name:ident) => {
        codes::$name as i64
    };
}

/// Lists that are refused, and the place of the bad attribute.
static BAD: [(&[i64], Allowed, u32); 10] = [
    (&[code!(EGL_WIDTH), 1], Allowed::Config, 0),
    (&[-1, 0], Allowed::Config, 0),
    (
        &[code!(EGL_RED_SIZE), 1, code!(EGL_DEPTH_SIZE), -2],
        Allowed::Config,
        2,
    ),
    (
        &[code!(EGL_RED_SIZE), -2, code!(EGL_WIDTH), 1],
        Allowed::Config,
        0,
    ),
    (&[code!(EGL_RED_SIZE)], Allowed::Config, 0),
    (
        &[code!(EGL_RED_SIZE), 1, code!(EGL_ALPHA_SIZE)],
        Allowed::Config,
        2,
    ),
    (
        &[code!(EGL_RED_SIZE), 1, code!(EGL_WIDTH), 1, 5],
        Allowed::Config,
        2,
    ),
    (
        &[code!(EGL_RED_SIZE), 1, code!(EGL_NONE), 0],
        Allowed::Config,
        2,
    ),
    (
        &[code!(EGL_WIDTH), 4, code!(EGL_LARGEST_PBUFFER), 2],
        Allowed::Pbuffer,
        2,
    ),
    (
        &[
            code!(EGL_IMAGE_PRESERVED),
            0,
            code!(EGL_IMAGE_PRESERVED),
            -1,
        ],
        Allowed::Image,
        2,
    ),
];

fn read(
    rt: &impl Abort,
    alloc: Global,
    items: &[i64],
    allowed: Allowed,
) -> Result<AttribList, AttribError> {
    let items = items.to_vec(alloc).expect(rt, "memory is ample");
    AttribList::read(alloc, &Numbers::from_vec(items), &allowed)
}

fn bad_place(rt: &impl Abort, alloc: Global, items: &[i64], allowed: Allowed) -> Option<u32> {
    match read(rt, alloc, items, allowed) {
        Err(AttribError::BadAttribute { place }) => Some(place),
        _ => None,
    }
}

#[test]
fn the_first_bad_attribute(rt: HostRuntime) {
    for (items, allowed, place) in &BAD {
        let found = bad_place(&rt, rt.alloc(), items, *allowed);
        assert!(rt; found == Some(*place), "{items:?}");
    }
}

fn entry(alloc: Global, kind: Kind) -> Entry {
    Entry {
        thread: 0,
        mark: 0,
        call: Call {
            kind,
            args: [0; 8],
            list: Numbers::new(alloc),
            bytes: None,
        },
        reply: Reply {
            outcome: Outcome::Done,
            value: 1,
            list: Numbers::new(alloc),
            bytes: Bytes::new(alloc),
        },
    }
}

const QUERY: Kind = Kind::Egl(EglKind::GetError);

const HALT: Kind = Kind::Own(OwnKind::Halt);

#[test]
fn a_journal_knows_that_a_thread_gave_up(rt: HostRuntime) {
    let mut journal = Journal::new(rt.alloc());
    for (kind, is_halted) in [(QUERY, false), (HALT, true), (QUERY, true)] {
        journal.reserve(1).expect(&rt, "memory is ample");
        journal.push(entry(rt.alloc(), kind));
        assert!(rt; journal.is_halted() == is_halted);
    }
}
