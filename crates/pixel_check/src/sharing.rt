//! Images that share their bytes, up to the largest: each write to one of them finds the memory for a copy, and leaves the others.
use crate::images::{ALL, BLUE, RED, SIDE, corners, fill, frozen, red, shared};
use pixel_rows::Image;
use std::process::Abort;

/// What is written to an image in blue.
#[derive(Clone, Copy, Drop)]
enum Part {
    LastPixel,
    LastRow,
    Whole,
}

fn write<R: Abort>(rt: &R, image: &mut Image, part: Part) {
    let (w, h) = (image.width(), image.height());
    assert!(rt; 0 < w && w <= SIDE && 0 < h);
    let row = [BLUE; 2_048];
    match part {
        Part::LastPixel => image.put(w - 1, h - 1, BLUE, ALL).expect(rt, "memory"),
        Part::LastRow => image
            .put_row(0, h - 1, &row[..w as usize], ALL)
            .expect(rt, "memory"),
        Part::Whole => fill(rt, image, BLUE),
    }
}

/// A write to an image that shares the bytes of a red one.
fn expect_apart<R: Abort>(rt: &R, first: &Image, part: Part) {
    let mut second = shared(rt, first);
    assert!(rt; !second.is_owned());
    write(rt, &mut second, part);
    assert!(rt; second.is_owned() && !first.is_owned());
    let [_, last] = corners(rt, &second);
    assert!(rt; last == BLUE);
    assert!(rt; corners(rt, first) == [RED; 2]);
}

#[test]
fn the_largest_images_are_copied_where_they_are_shared(rt: HostRuntime) {
    let first = frozen(&rt, red(&rt, rt.alloc(), SIDE));
    for part in [Part::LastPixel, Part::LastRow, Part::Whole] {
        expect_apart(&rt, &first, part);
    }
}

#[test]
fn a_copy_of_an_image_is_owned(rt: HostRuntime) {
    let owned = red(&rt, rt.alloc(), 2);
    let copy = shared(&rt, &owned);
    assert!(rt; owned.is_owned() && copy.is_owned());
    let mut first = frozen(&rt, owned);
    write(&rt, &mut first, Part::Whole);
    assert!(rt; corners(&rt, &copy) == [RED; 2]);
}

#[test]
fn a_written_image_is_frozen_again(rt: HostRuntime) {
    let mut first = frozen(&rt, red(&rt, rt.alloc(), 2));
    let second = shared(&rt, &first);
    write(&rt, &mut first, Part::LastPixel);
    first.refreeze();
    assert!(rt; !first.is_owned());
    let third = shared(&rt, &first);
    write(&rt, &mut first, Part::Whole);
    assert!(rt; corners(&rt, &first) == [BLUE; 2]);
    assert!(rt; corners(&rt, &second) == [RED; 2]);
    assert!(rt; corners(&rt, &third) == [RED, BLUE]);
}
