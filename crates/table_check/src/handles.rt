//! Handles of two displays: the order in which they go, the last one, and numbers that name none.
ghost use Rattle.std.specs.Prelude.{◌≡◌, true};
ghost use Rattle.egl_calls.specs.Ranges.{unsigned};
ghost use Rattle.display_table.specs.Handles.{is_display};

use display_table::{Displays, HANDLES_END, HandleError, HandleKind};
use keyed_hash::HashKey;
use std::alloc::Global;
use std::process::Abort;

/// Makes a handle, and answers its number.
fn make(
    rt: &impl Abort,
    displays: &mut Displays,
    display: i64,
    kind: HandleKind,
    object: u64,
) -> i64
    requires { is_display (unsigned display) ≡ true }
{
    displays
        .new_handle(display, kind, object)
        .expect(rt, "numbers are left, and memory is ample")
}

#[test]
fn the_newest_goes_first_and_the_other_display_stays(rt: HostRuntime) {
    let mut displays = Displays::new(rt.alloc());
    for (object, later) in [(20, 21), (22, 23), (24, 25)] {
        make(&rt, &mut displays, 1, HandleKind::Image, object);
        make(&rt, &mut displays, 2, HandleKind::Image, later);
    }
    displays.remove(5);
    for object in [Some(24), Some(20), None, None] {
        assert!(rt; displays.take_handle(1) == object);
    }
    assert!(rt; displays.valid(2, 6, HandleKind::Image) == Some(23));
    assert!(rt; make(&rt, &mut displays, 2, HandleKind::Image, 26) == 9);
    displays.handles_rise();
}

/// A context, 3, of display 1, and a surface, 4, of display 2, under a key of some bytes.
fn one_each(rt: &impl Abort, alloc: Global) -> Displays {
    let mut displays = Displays::with_key(alloc, HashKey::of(b"egl-trace 1 1"));
    make(rt, &mut displays, 1, HandleKind::Context, 7);
    make(rt, &mut displays, 2, HandleKind::Surface, 8);
    displays
}

/// A display, a number and a kind, and the object of the handle that they name.
static NAMED: [(i64, i64, HandleKind, Option<u64>); 15] = [
    (1, 3, HandleKind::Context, Some(7)),
    (2, 4, HandleKind::Surface, Some(8)),
    (2, 3, HandleKind::Context, None),
    (1, 3, HandleKind::Surface, None),
    (2, 4, HandleKind::Sync, None),
    (1, 5, HandleKind::Context, None),
    (1, 2, HandleKind::Image, None),
    (1, -3, HandleKind::Context, None),
    (1, 4_294_967_299, HandleKind::Context, None),
    (2, i64::MAX, HandleKind::Surface, None),
    (2, i64::MIN, HandleKind::Surface, None),
    (0, 3, HandleKind::Context, None),
    (-1, 3, HandleKind::Context, None),
    (4_294_967_297, 3, HandleKind::Context, None),
    (i64::MIN, 3, HandleKind::Context, None),
];

#[test]
fn wrong_names_name_nothing(rt: HostRuntime) {
    let displays = one_each(&rt, rt.alloc());
    for (display, handle, kind, object) in &NAMED {
        let found = displays.valid(*display, *handle, *kind);
        assert!(rt; found == *object, "{display} {handle}");
        assert!(rt; !displays.is_init(*display), "{display}");
    }
}

#[test]
fn removing_other_numbers_changes_nothing(rt: HostRuntime) {
    let mut displays = one_each(&rt, rt.alloc());
    for handle in [0, -3, 5, i64::MAX] {
        displays.remove(handle);
    }
    assert!(rt; displays.valid(1, 3, HandleKind::Context) == Some(7));
}

#[test]
fn the_last_number_is_given_and_none_after_it(rt: HostRuntime) {
    let mut displays = Displays::starting_at(rt.alloc(), HANDLES_END - 1);
    assert!(rt; make(&rt, &mut displays, 2, HandleKind::Sync, 1) == 2_147_483_647);
    let refused = displays.new_handle(1, HandleKind::Sync, 2);
    assert!(rt; refused == Err(HandleError::Limit));
    assert!(rt; displays.valid(2, 2_147_483_647, HandleKind::Sync) == Some(1));
    assert!(rt; displays.next_handle() == 2_147_483_648);
}
