//! How near pixels of another driver are to ours.
ghost use Rattle.std.specs.Prelude.{◌≡◌, ◌*◌, ◌^◌, ◌≤◌, ◌<◌, take, drop, slice_index_or, IfOk, OnOk};
ghost use Rattle.egl_model.specs.Currents.{current_context};
ghost use Rattle.pixel_formats.specs.Bounds.{IsWithinFour};
ghost use Rattle.driver_judge.specs.Pixels.{are_equal, bytes_behind, cell, cell_at, cell_length, cell_steps, common_bits, counted, counted_row, first_cell, four, front_grid, further_cell, grid_of, level, level_above, level_below, no_grid, pixel_difference, pixel_steps, pixel_steps_in, read_grid, row_length, side, steps_between};

use crate::differences::PixelDifference;
use crate::facts::{current_context, pack_alignment, stored_format};
use driver_core::Driver;
use egl_calls::{Bytes, Call, NoMemory, unsigned};
use pixel_formats::{Format, Layout, Pixel, Place, bytes_of, layout_of, unpack, widen};
use std::alloc::Global;
use thread_part::{read_form, read_rect};

/// The most that the allowed step may be.
pub const MOST_DELTA: u32 = 255;

/// Rows of pixels as bytes: so many columns and rows in a form, each row with so many bytes behind it, of an image that is stored in a format.
#[derive(Clone, Copy, Debug, PartialEq, Eq, Drop)]
pub struct Grid {
    pub columns: u32,
    pub rows: u32,
    pub form: Format,
    pub stored: Format,
    pub behind: u32,
}

/// A component of 8 bits as the nearest one of so many.
fn level(bits: u32, component: u8) -> u32
    requires some { 1 ≤ bits }
    requires few { bits ≤ 8 }
    ensures level { result ≡ level bits component }
    ensures fits { result < 2 ^ bits }
    ensures byte { result ≤ 255 }
{
    let level = widen(u32::from(component), 8, bits);
    level.min(255)
}

/// The least level that reads as much at least.
fn level_above(bits: u32, component: u8) -> u32
    requires some { 1 ≤ bits }
    requires few { bits ≤ 8 }
    ensures { result ≡ level_above bits component }
{
    let nearest = level(bits, component);
    if widen(nearest, bits, 8) < u32::from(component) {
        nearest + 1
    } else {
        nearest
    }
}

/// The greatest level that reads as much at most.
fn level_below(bits: u32, component: u8) -> u32
    requires some { 1 ≤ bits }
    requires few { bits ≤ 8 }
    ensures { result ≡ level_below bits component }
{
    let nearest = level(bits, component);
    if u32::from(component) < widen(nearest, bits, 8) {
        nearest.saturating_sub(1)
    } else {
        nearest
    }
}

/// The steps between two components.
#[tactic(auto, unfolding(crate::specs::Pixels::steps_between))]
fn steps_between(bits: u32, ours: u8, theirs: u8) -> u32
    requires { bits ≤ 8 }
    ensures { result ≡ steps_between bits ours theirs }
{
    if ours == theirs {
        return 0;
    }
    if bits == 0 {
        return MOST_DELTA + 1;
    }
    let middle = level(bits, ours);
    let up = level_above(bits, theirs).saturating_sub(middle);
    let down = middle.saturating_sub(level_below(bits, theirs));
    up.max(down)
}

fn common_bits(form: Place, stored: Place) -> u32
    requires { form.bits ≤ 8 }
    ensures value { result ≡ common_bits form stored }
    ensures few { result ≤ 8 }
{
    form.bits.min(stored.bits)
}

#[tactic(auto, unfolding(crate::specs::Pixels::pixel_steps_in))]
fn pixel_steps_in(form: Layout, stored: Layout, ours: Pixel, theirs: Pixel) -> u32
    requires { IsWithinFour form }
    ensures { result ≡ pixel_steps_in form stored ours theirs }
{
    let red = steps_between(common_bits(form.r, stored.r), ours.r, theirs.r);
    let green = steps_between(common_bits(form.g, stored.g), ours.g, theirs.g);
    let blue = steps_between(common_bits(form.b, stored.b), ours.b, theirs.b);
    let alpha = steps_between(common_bits(form.a, stored.a), ours.a, theirs.a);
    red.max(green).max(blue.max(alpha))
}

fn byte_at(bytes: &[u8], place: usize) -> u8
    ensures { result ≡ slice_index_or bytes.now place 0 }
{
    if place < bytes.len() { bytes[place] } else { 0 }
}

/// Four bytes; those that aren't there are 0.
#[tactic(auto, using(crate::proofs::PixelLaws::four_are))]
fn four(bytes: &[u8]) -> [u8; 4]
    ensures { result ≡ four bytes.now }
{
    [
        byte_at(bytes, 0),
        byte_at(bytes, 1),
        byte_at(bytes, 2),
        byte_at(bytes, 3),
    ]
}

#[tactic(auto, unfolding(crate::specs::Pixels::pixel_steps))]
fn pixel_steps(form: Format, stored: Format, ours: &[u8], theirs: &[u8]) -> u32
    ensures { result ≡ pixel_steps form stored ours.now theirs.now }
{
    let ours = unpack(form, four(ours));
    let theirs = unpack(form, four(theirs));
    pixel_steps_in(layout_of(form), layout_of(stored), ours, theirs)
}

fn product(first: u64, second: u64) -> u128
    ensures { result ≡ first * second }
{
    first as u128 * second as u128
}

fn row_length(grid: Grid) -> u64
    ensures value { result ≡ row_length grid }
    ensures few { result < 2 ^ 36 }
{
    u64::from(grid.columns) * u64::from(bytes_of(grid.form)) + u64::from(grid.behind)
}

fn cell_length(grid: Grid, x: u64) -> usize
    ensures { result ≡ cell_length grid x }
{
    if x < u64::from(grid.columns) {
        bytes_of(grid.form) as usize
    } else {
        grid.behind as usize
    }
}

fn cell_at(grid: Grid, x: u64, y: u64) -> u128
    requires column { x ≤ 4294967296 }
    requires row { y ≤ 4294967296 }
    ensures { result ≡ cell_at grid x y }
{
    product(y, row_length(grid)) + product(x, u64::from(bytes_of(grid.form)))
}

/// The bytes behind so many.
#[tactic(auto, using(crate::proofs::PixelLaws::none_past))]
fn behind(bytes: &[u8], count: u128) -> &[u8]
    ensures { result.now ≡ drop count bytes.now }
{
    match usize::try_from(count) {
        Ok(count) => {
            if count <= bytes.len() {
                bytes.split_at(count).1
            } else {
                &[]
            }
        }
        Err(_) => &[],
    }
}

/// So many bytes at most.
#[tactic(auto, using(crate::proofs::PixelLaws::all_of))]
fn at_most(bytes: &[u8], count: usize) -> &[u8]
    ensures { result.now ≡ take count bytes.now }
{
    if count <= bytes.len() {
        bytes.split_at(count).0
    } else {
        bytes
    }
}

/// The bytes of the pixel in a column and a row, or those behind a row.
fn cell(grid: Grid, bytes: &[u8], x: u64, y: u64) -> &[u8]
    requires column { x ≤ 4294967296 }
    requires row { y ≤ 4294967296 }
    ensures { result.now ≡ cell grid bytes.now x y }
{
    at_most(behind(bytes, cell_at(grid, x, y)), cell_length(grid, x))
}

fn are_equal(ours: &[u8], theirs: &[u8]) -> bool
    ensures { result ≡ are_equal ours.now theirs.now }
{
    ours == theirs
}

#[tactic(auto, unfolding(crate::specs::Pixels::cell_steps))]
fn cell_steps(grid: Grid, x: u64, ours: &[u8], theirs: &[u8]) -> u32
    ensures { result ≡ cell_steps grid x ours.now theirs.now }
{
    if are_equal(ours, theirs) {
        return 0;
    }
    if x < u64::from(grid.columns) {
        return pixel_steps(grid.form, grid.stored, ours, theirs);
    }
    MOST_DELTA + 1
}

fn bytes_of_cell(alloc: Global, cell: &[u8]) -> Result<Bytes, NoMemory>
    ensures { IfOk result (λ b. b ≡ cell.now) }
{
    match Vec::from_slice(alloc, cell) {
        Ok(bytes) => Ok(Bytes::from_vec(bytes)),
        Err(_) => Err(NoMemory),
    }
}

fn first_cell(
    alloc: Global,
    grid: Grid,
    x: u64,
    y: u64,
    steps: u32,
    ours: &[u8],
    theirs: &[u8],
) -> Result<PixelDifference, NoMemory>
    ensures { IfOk result (λ d. d ≡ first_cell grid x y steps ours.now theirs.now) }
{
    Ok(PixelDifference {
        count: 1,
        of: u64::from(grid.columns) * u64::from(grid.rows),
        largest: u64::from(steps),
        left: x,
        bottom: y,
        right: x,
        top: y,
        x,
        y,
        expected: bytes_of_cell(alloc, ours)?,
        found: bytes_of_cell(alloc, theirs)?,
    })
}

fn add_cell(difference: &mut PixelDifference, x: u64, y: u64, steps: u32)
    ensures { difference.new ≡ further_cell difference.old x y steps }
{
    difference.count = difference.count.saturating_add(1);
    difference.largest = difference.largest.max(u64::from(steps));
    difference.left = difference.left.min(x);
    difference.bottom = difference.bottom.min(y);
    difference.right = difference.right.max(x);
    difference.top = difference.top.max(y);
}

/// Counts a cell that differs by more than the allowed step.
#[tactic(auto, unfolding(crate::specs::Pixels::counted))]
fn count(
    alloc: Global,
    delta: u32,
    grid: Grid,
    ours: &[u8],
    theirs: &[u8],
    y: u64,
    found: &mut Option<PixelDifference>,
    x: u64,
) -> Result<(), NoMemory>
    requires column { x ≤ 4294967296 }
    requires row { y ≤ 4294967296 }
    ensures { OnOk result (found.new ≡ counted delta grid ours.now theirs.now y found.old x) }
{
    let ours = cell(grid, ours, x, y);
    let theirs = cell(grid, theirs, x, y);
    let steps = cell_steps(grid, x, ours, theirs);
    if steps <= delta {
        return Ok(());
    }
    match found {
        Some(difference) => add_cell(difference, x, y, steps),
        None => *found = Some(first_cell(alloc, grid, x, y, steps, ours, theirs)?),
    }
    Ok(())
}

/// Counts those of a row.
#[tactic(auto, unfolding(crate::specs::Pixels::counted_row), using(crate::proofs::PixelLaws::next_column))]
fn count_row(
    alloc: Global,
    delta: u32,
    grid: Grid,
    ours: &[u8],
    theirs: &[u8],
    found: &mut Option<PixelDifference>,
    y: u64,
) -> Result<(), NoMemory>
    requires { y ≤ 4294967296 }
    ensures { OnOk result (found.new ≡ counted_row delta grid ours.now theirs.now found.old y) }
{
    'columns: for x in 0..u64::from(grid.columns) + 1 {
        count(alloc, delta, grid, ours, theirs, y, found, x)?;
    }
    Ok(())
}

/// How as many bytes of theirs differ from ours by more than the allowed step.
#[tactic(auto, unfolding(crate::specs::Pixels::pixel_difference), using(crate::proofs::PixelLaws::equal_agree, crate::proofs::PixelLaws::next_row))]
pub fn pixel_difference(
    alloc: Global,
    delta: u32,
    grid: Grid,
    ours: &[u8],
    theirs: &[u8],
) -> Result<Option<PixelDifference>, NoMemory>
    ensures { IfOk result (λ d. d ≡ pixel_difference delta grid ours.now theirs.now) }
{
    if are_equal(ours, theirs) {
        return Ok(None);
    }
    let mut found = None;
    'rows: for y in 0..u64::from(grid.rows) {
        count_row(alloc, delta, grid, ours, theirs, &mut found, y)?;
    }
    Ok(found)
}

fn side(asked: i64) -> u32
    ensures { result ≡ side asked }
{
    unsigned(asked).min(4_294_967_295) as u32
}

fn bytes_behind(length: u64, align: u32) -> u32
    ensures { result ≡ bytes_behind length align }
{
    if align == 0 {
        return 0;
    }
    let over = (length % u64::from(align)) as u32;
    (align - over) % align
}

/// The pixels that a thread reads by a call, whose current context is there.
#[tactic(auto, unfolding(crate::specs::Pixels::read_grid))]
fn read_grid(driver: &Driver, thread: u32, context: u64, call: &Call) -> Grid
    ensures { result ≡ read_grid driver.now.state thread context call.now }
{
    let rect = read_rect(call);
    let form = read_form(call);
    let columns = side(rect.w);
    let length = u64::from(columns) * u64::from(bytes_of(form));
    Grid {
        columns,
        rows: side(rect.h),
        form,
        stored: stored_format(driver, thread),
        behind: bytes_behind(length, pack_alignment(driver, context)),
    }
}

/// A grid without pixels.
pub fn no_grid() -> Grid
    ensures { result ≡ no_grid }
{
    Grid {
        columns: 0,
        rows: 0,
        form: Format::Rgba8888,
        stored: Format::Rgba8888,
        behind: 0,
    }
}

/// The pixels that a thread reads by a call.
pub fn grid_of(driver: &Driver, thread: u32, call: &Call) -> Grid
    ensures { result ≡ grid_of driver.now.state thread (current_context driver.now.state thread) call.now }
{
    match current_context(driver, thread) {
        Some(context) => read_grid(driver, thread, context, call),
        None => no_grid(),
    }
}

/// The pixels of what a window shows.
pub fn front_grid(width: u32, height: u32, stored: Format) -> Grid
    ensures { result ≡ front_grid width height stored }
{
    Grid {
        columns: width,
        rows: height,
        form: Format::Rgba8888,
        stored,
        behind: 0,
    }
}
