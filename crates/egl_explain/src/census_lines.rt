//! The census by names.
use crate::pages::{Ink, Page};
use crate::source_lines::put_bar;

/// The name of one object of each kind, and of more, in the order of the census.
const NAMES: [(&str, &str); 10] = [
    ("context", "contexts"),
    ("share group", "share groups"),
    ("texture", "textures"),
    ("buffer", "buffers"),
    ("renderbuffer", "renderbuffers"),
    ("framebuffer", "framebuffers"),
    ("surface", "surfaces"),
    ("pixel storage", "pixel storages"),
    ("EGL image", "EGL images"),
    ("sync", "syncs"),
];

/// How many objects of a kind there are.
fn put_count(page: &mut Page, count: u64, one: &str, more: &str) {
    page.put_decimal(count);
    page.put(" ");
    if count == 1 {
        page.put(one)
    } else {
        page.put(more)
    }
}

/// Those kinds of which there are objects.
fn put_counts(page: &mut Page, counts: &[u64]) -> bool {
    let mut some = false;
    'each: for (count, (one, more)) in counts.iter().zip(NAMES.iter()) {
        if *count > 0 {
            if some {
                page.put(", ");
            }
            put_count(page, *count, one, more);
            some = true;
        }
    }
    some
}

/// The line of a census: what there is, and the bytes of pixels and buffers.
pub fn put_census(page: &mut Page, census: &[u64; 11]) {
    put_bar(page);
    page.put_in(Ink::Pale, "  there are: ");
    if put_counts(page, census.as_slice()) {
        page.put("; ");
        put_count(
            page,
            census[10],
            "byte of pixels and buffers",
            "bytes of pixels and buffers",
        );
    } else {
        page.put("no objects");
    }
    page.end_line();
}
