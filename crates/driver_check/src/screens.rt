//! What a screen shows of windows.

use crate::scenes::{fronts, picture, placed, screen, window};
use pixel_formats::Pixel;
use screen_compose::screen_ok;

const RED: Pixel = Pixel {
    r: 255,
    g: 0,
    b: 0,
    a: 255,
};

// Half of it lets through what lies below.
const GREEN: Pixel = Pixel {
    r: 0,
    g: 255,
    b: 0,
    a: 128,
};

#[test]
fn windows_lie_over_one_another(rt: HostRuntime) {
    let list = [placed(1, 0, 0), placed(2, 0, 0)];
    let windows = [
        window(&rt, rt.alloc(), 1, RED),
        window(&rt, rt.alloc(), 2, GREEN),
    ];
    let mut screen = screen(&rt, rt.alloc(), 1, 1, &list);
    let before = picture(&rt, rt.alloc(), &screen);
    let first = screen.show(fronts(&rt, rt.alloc(), &windows, &list, 1));
    let second = screen.show(fronts(&rt, rt.alloc(), &windows, &list, 2));
    let after = picture(&rt, rt.alloc(), &screen);
    assert!(rt; before.as_slice() == [0, 0, 0, 255].as_slice());
    assert_eq!(rt; first, 1);
    assert_eq!(rt; second, 0);
    assert!(rt; after.as_slice() == [0x7f, 0x80, 0, 0xff].as_slice());
}

#[test]
fn a_window_may_lie_past_an_edge(rt: HostRuntime) {
    let list = [placed(1, 1, 1), placed(2, -1, 0), placed(9, 0, 0)];
    let windows = [
        window(&rt, rt.alloc(), 1, RED),
        window(&rt, rt.alloc(), 2, GREEN),
    ];
    let mut screen = screen(&rt, rt.alloc(), 2, 2, &list);
    let changed = screen.show(fronts(&rt, rt.alloc(), &windows, &list, 1));
    let shown = picture(&rt, rt.alloc(), &screen);
    let black = [0, 0, 0, 255];
    assert_eq!(rt; changed, 2);
    assert!(rt; shown.as_slice().starts_with(&black));
    assert!(rt; shown.as_slice().ends_with(&[255, 0, 0, 255]));
}

#[test]
fn which_screens_there_may_be(rt: HostRuntime) {
    let one = placed(1, -2_147_483_648, 2_147_483_647);
    assert!(rt; screen_ok(1, 2_048, &[one]));
    assert!(rt; !screen_ok(0, 1, &[]));
    assert!(rt; !screen_ok(1, 2_049, &[]));
    assert!(rt; !screen_ok(1, 1, &[one, one]));
    assert!(rt; !screen_ok(1, 1, &[placed(2, 2_147_483_648, 0)]));
}
