//! How the bytes of one line of a recording differ from those of another: as pixels where it is known how they lie.
use crate::pages::{Ink, Page};
use crate::source_lines::put_bar;
use call_table::{Role, gl_role};
use driver_core::Driver;
use egl_calls::arguments::{number, signed};
use egl_calls::places::{FORMAT, FRONT, HEIGHT, WIDTH};
use egl_calls::{Entry, Kind, OwnKind};
use egl_names::codes::GL_RGBA;
use trace_reader::hexadecimals::{are_hex_digits, hex_digit};

/// How many bytes of a line are shown, at most.
pub const MOST_SHOWN: usize = 32;

/// How many bytes a pixel of a front has, and one of GL_RGBA.
const WIDE_PIXEL: u64 = 4;

/// How many bytes another pixel has that is read: one of 5, 6 and 5 bits.
const NARROW_PIXEL: u64 = 2;

/// How bytes lie: how many a pixel has, how many pixels a row, from which byte of one row to that of the next, and the number of the first row.
#[derive(Clone, Copy, Debug, PartialEq, Eq, Drop)]
pub struct Layout {
    pixel: u64,
    width: u64,
    stride: u64,
    row: u64,
}

impl Layout {
    /// That of a row of a front.
    pub fn of_row(digits: &[u8], row: u64) -> Layout {
        let stride = byte_count(digits);
        Layout {
            pixel: WIDE_PIXEL,
            width: stride / WIDE_PIXEL,
            stride,
            row,
        }
    }

    /// That of a rectangle that is read.
    fn of_rectangle(entry: &Entry) -> Layout {
        let call = &entry.call;
        let pixel = if number(call, FORMAT) == GL_RGBA {
            WIDE_PIXEL
        } else {
            NARROW_PIXEL
        };
        let (stride, _) = divided(entry.reply.bytes.len() as u64, number(call, HEIGHT));
        Layout {
            pixel,
            width: number(call, WIDTH),
            stride,
            row: 0,
        }
    }

    /// That of the pixels that an entry answers.
    pub fn of_entry(driver: &Driver, entry: &Entry) -> Option<Layout> {
        let call = &entry.call;
        match call.kind {
            Kind::Gl(kind) => match gl_role(kind) {
                Role::ReadsPixels => Some(Layout::of_rectangle(entry)),
                _ => None,
            },
            Kind::Own(OwnKind::ReadFront) => {
                let width = u64::from(driver.front(signed(call, FRONT))?.width());
                Some(Layout {
                    pixel: WIDE_PIXEL,
                    width,
                    stride: width.saturating_mul(WIDE_PIXEL),
                    row: 0,
                })
            }
            _ => None,
        }
    }

    /// The place of a pixel's first byte.
    fn place(&self, column: u64, row: u64) -> u64 {
        let before = row.saturating_mul(self.stride);
        before.saturating_add(column.saturating_mul(self.pixel))
    }
}

/// How often one number goes into another, and what is left; never, where it is 0.
fn divided(number: u64, by: u64) -> (u64, u64) {
    if by == 0 {
        return (0, number);
    }
    (number / by, number % by)
}

/// How many bytes digits spell.
fn byte_count(digits: &[u8]) -> u64 {
    digits.len() as u64 / 2
}

/// The byte that two digits spell.
fn byte_at(digits: &[u8], place: u64) -> u8 {
    let at = (place as usize).saturating_mul(2);
    match (digits.get(at), digits.get(at.saturating_add(1))) {
        (Some(high), Some(low)) => hex_digit(*high)
            .saturating_mul(16)
            .saturating_add(hex_digit(*low)),
        _ => 0,
    }
}

/// The word of two bytes, of which the second is the higher.
fn word_at(digits: &[u8], place: u64) -> u16 {
    let high = u16::from(byte_at(digits, place.saturating_add(1)));
    high.saturating_mul(256)
        .saturating_add(u16::from(byte_at(digits, place)))
}

/// How far the components of 5, 6 and 5 bits lie apart at most.
fn narrow_step(some: u16, other: u16) -> u64 {
    let red = (some / 2048).abs_diff(other / 2048);
    let green = (some / 32 % 64).abs_diff(other / 32 % 64);
    let blue = (some % 32).abs_diff(other % 32);
    u64::from(red.max(green).max(blue))
}

/// How far bytes lie apart at most.
fn wide_step(some: &[u8], other: &[u8], place: u64, count: u64) -> u64 {
    let mut most = 0u64;
    'each: for k in 0..count {
        let at = place.saturating_add(k);
        let step = byte_at(some, at).abs_diff(byte_at(other, at));
        most = most.max(u64::from(step));
    }
    most
}

/// The largest step between the components of two pixels.
fn step_at(some: &[u8], other: &[u8], place: u64, pixel: u64) -> u64 {
    if pixel == NARROW_PIXEL {
        return narrow_step(word_at(some, place), word_at(other, place));
    }
    wide_step(some, other, place, pixel)
}

/// The pixels that differ: how many, the first, the box around them, and the largest step of a component.
#[derive(Clone, Copy, Debug, PartialEq, Eq, Drop)]
struct Differing {
    count: u64,
    first: (u64, u64),
    columns: (u64, u64),
    rows: (u64, u64),
    step: u64,
}

impl Differing {
    fn none() -> Differing {
        Differing {
            count: 0,
            first: (0, 0),
            columns: (u64::MAX, 0),
            rows: (u64::MAX, 0),
            step: 0,
        }
    }

    /// Takes one more, where it differs.
    fn take(&mut self, column: u64, row: u64, step: u64) {
        if step == 0 {
            return;
        }
        if self.count == 0 {
            self.first = (column, row);
        }
        self.count = self.count.saturating_add(1);
        self.columns = (self.columns.0.min(column), self.columns.1.max(column));
        self.rows = (self.rows.0.min(row), self.rows.1.max(row));
        self.step = self.step.max(step);
    }
}

/// The pixels that differ, of so many.
fn compared(expected: &[u8], found: &[u8], layout: &Layout, count: u64) -> Differing {
    let mut differing = Differing::none();
    'each: for k in 0..count {
        let (row, column) = divided(k, layout.width);
        let place = layout.place(column, row);
        differing.take(column, row, step_at(expected, found, place, layout.pixel));
    }
    differing
}

/// One number, or the first and the last.
fn put_range(page: &mut Page, one: &str, more: &str, range: (u64, u64)) {
    let (first, last) = range;
    if first == last {
        page.put(one);
        page.put_decimal(first);
    } else {
        page.put(more);
        page.put_decimal(first);
        page.put(" to ");
        page.put_decimal(last);
    }
}

/// The digits of some bytes.
fn put_part(page: &mut Page, ink: Ink, digits: &[u8], place: u64, count: u64) {
    let from = (place as usize).saturating_mul(2).min(digits.len());
    let (_, rest) = digits.split_at(from);
    let (part, _) = rest.split_at((count as usize).saturating_mul(2).min(rest.len()));
    page.begin(ink);
    page.put_bytes(part);
    page.end();
}

/// How many pixels differ, where, and how much.
fn put_box(page: &mut Page, differing: &Differing, layout: &Layout, count: u64) {
    put_bar(page);
    page.put("  ");
    page.put_decimal(differing.count);
    page.put(" of ");
    page.put_decimal(count);
    page.put(" pixels differ, in ");
    put_range(page, "column ", "columns ", differing.columns);
    page.put(" and ");
    put_range(
        page,
        "row ",
        "rows ",
        (
            differing.rows.0.saturating_add(layout.row),
            differing.rows.1.saturating_add(layout.row),
        ),
    );
    page.put("; the largest step of a component is ");
    page.put_decimal(differing.step);
    page.end_line();
}

/// The first pixel that differs, with both values.
fn put_first(page: &mut Page, expected: &[u8], found: &[u8], layout: &Layout, first: (u64, u64)) {
    let (column, row) = first;
    let place = layout.place(column, row);
    put_bar(page);
    page.put("  first in column ");
    page.put_decimal(column);
    page.put(" of row ");
    page.put_decimal(row.saturating_add(layout.row));
    page.put(": found ");
    put_part(page, Ink::Fault, found, place, layout.pixel);
    page.put(", expected ");
    put_part(page, Ink::Answer, expected, place, layout.pixel);
    page.end_line();
}

/// Where pixels differ.
fn put_pixels(page: &mut Page, expected: &[u8], found: &[u8], layout: &Layout) {
    let (rows, _) = divided(byte_count(expected), layout.stride);
    let count = rows.saturating_mul(layout.width);
    let differing = compared(expected, found, layout, count);
    if differing.count > 0 {
        put_box(page, &differing, layout, count);
        put_first(page, expected, found, layout, differing.first);
    }
}

/// Where bytes differ of which nothing is known.
fn put_bytes(page: &mut Page, expected: &[u8], found: &[u8]) {
    let count = byte_count(expected);
    let layout = Layout {
        pixel: 1,
        width: count,
        stride: count,
        row: 0,
    };
    let differing = compared(expected, found, &layout, count);
    if differing.count == 0 {
        return;
    }
    put_bar(page);
    page.put("  ");
    page.put_decimal(differing.count);
    page.put(" of ");
    page.put_decimal(count);
    page.put(" bytes differ, ");
    put_range(page, "at ", "from ", differing.columns);
    page.put("; the largest step is ");
    page.put_decimal(differing.step);
    page.put("; first found ");
    put_part(page, Ink::Fault, found, differing.first.0, 1);
    page.put(", expected ");
    put_part(page, Ink::Answer, expected, differing.first.0, 1);
    page.end_line();
}

/// The place behind the last space of a line.
fn last_word_of(line: &[u8]) -> usize {
    let mut at = 0usize;
    'each: for (k, byte) in line.iter().enumerate() {
        if *byte == b' ' {
            at = k.saturating_add(1);
        }
    }
    at.min(line.len())
}

/// The front of a line, and its last word where that spells bytes.
pub fn cut_digits(line: &[u8]) -> (&[u8], &[u8]) {
    let at = last_word_of(line).min(line.len());
    let (front, digits) = line.split_at(at);
    if digits.len() % 2 == 0 && are_hex_digits(digits) {
        (front, digits)
    } else {
        (line, b"")
    }
}

/// A line of a recording. Of more than a few bytes it says how many there are.
pub fn put_shortened(page: &mut Page, line: &[u8]) {
    let (front, digits) = cut_digits(line);
    if digits.len() / 2 <= MOST_SHOWN {
        return page.put_bytes(line);
    }
    page.put_bytes(front);
    page.put("(");
    page.put_decimal(byte_count(digits));
    page.put(" bytes)");
}

/// Where the bytes of two lines differ that say the same but for these.
pub fn put_difference(page: &mut Page, expected: &[u8], found: &[u8], layout: Option<Layout>) {
    let (expected_front, expected) = cut_digits(expected);
    let (found_front, found) = cut_digits(found);
    if expected_front != found_front || expected.is_empty() || found.is_empty() {
        return;
    }
    if expected.len() != found.len() {
        put_bar(page);
        page.put("  found ");
        page.put_decimal(byte_count(found));
        page.put(" bytes, expected ");
        page.put_decimal(byte_count(expected));
        return page.end_line();
    }
    match layout {
        Some(layout) => put_pixels(page, expected, found, &layout),
        None => put_bytes(page, expected, found),
    }
}
