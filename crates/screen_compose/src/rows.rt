//! Rows of pixels, and how one of a screen is composed. Nothing else writes a row.
ghost use Rattle.std.specs.Prelude.{◌≡◌, ◌+◌, ◌-ℤ◌, ◌<◌, ℕ, pos, length, replicate, slice_index_or, IfOk, IfSome};
ghost use Rattle.pixel_rows.specs.Images.{no_pixel};
ghost use Rattle.pixel_rows.specs.Transfers as transfers;
ghost use Rattle.screen_compose.specs.Changes as changes;
ghost use Rattle.screen_compose.specs.Composing as values;
ghost use Rattle.screen_compose.specs.Fronts as fronts;

use crate::fronts::Fronts;
use crate::layers::Layer;
use egl_calls::NoMemory;
use pixel_formats::Pixel;
use pixel_rows::Image;
use ref_store::Steps;
use std::alloc::Global;
use std::marker::Model;
use std::sync::ledger::Ledger;

/// Pixels from left to right.
#[derive(Drop)]
pub struct Row {
    pixels: Vec<Pixel>,
}

impl Model for Row {
    ghost use Rattle.std.specs.Prelude.{List};
    ghost use Rattle.pixel_formats.specs.declared.pixels.Pixel.{Pixel};

    ghost Value = { List Pixel };

    ghost view = { λ r. r.pixels.items };
}

/// Where no window lies.
const BLACK: Pixel = Pixel {
    r: 0,
    g: 0,
    b: 0,
    a: 255,
};

/// A component with this alpha over another, rounded to the nearest.
#[tactic(auto, using(crate::proofs::Blending::blend_small), unfolding(crate::specs::Composing::over))]
fn over(s: u8, alpha: u8, c: u8) -> u8
    ensures { result ≡ values.over s alpha c }
{
    let sum = u32::from(s) * u32::from(alpha) + u32::from(c) * u32::from(255 - alpha);
    ((2 * sum + 255) / 510) as u8
}

fn pixel_over(p: Pixel, c: Pixel) -> Pixel
    ensures { result ≡ values.pixel_over p c }
{
    Pixel {
        r: over(p.r, p.a, c.r),
        g: over(p.g, p.a, c.g),
        b: over(p.b, p.a, c.b),
        a: 255,
    }
}

/// How far a column or row of the screen lies behind the one at `start`.
fn distance(at: usize, start: i64) -> i128
    ensures { result ≡ pos at -ℤ start }
{
    at as i128 - i128::from(start)
}

/// The place at a distance from the first of so many.
fn place_at(count: usize, distance: i128) -> Option<usize>
    ensures value { result ≡ transfers.place_in count distance }
    ensures within { IfSome result (λ k. k < count) }
{
    if distance < 0 {
        return None;
    }
    let place = distance as u128;
    if place < count as u128 {
        Some(place as usize)
    } else {
        None
    }
}

/// Which of so many places a column or row of the screen is, where the first of them lies at `start`.
pub(crate) fn place_in(count: usize, at: usize, start: i64) -> Option<usize>
    ensures value { result ≡ transfers.place_in count (pos at -ℤ start) }
    ensures within { IfSome result (λ k. k < count) }
{
    place_at(count, distance(at, start))
}

fn is_same_pixel(p: Pixel, q: Pixel) -> bool
    ensures { result ≡ changes.is_same_pixel p q }
{
    p.r == q.r && p.g == q.g && p.b == q.b && p.a == q.a
}

impl Row {
    /// A row of so many pixels of a screen without windows.
    pub(crate) fn black(alloc: Global, width: u32) -> Result<Row, NoMemory>
        ensures { IfOk result (λ r. r ≡ replicate width values.black) }
    {
        match Vec::from_elem(alloc, BLACK, width as usize) {
            Ok(pixels) => Ok(Row { pixels }),
            Err(_) => Err(NoMemory),
        }
    }

    /// A row of an image.
    #[tactic(auto, using(crate::proofs::RowLaws::pixel_more, crate::proofs::RowLaws::no_pixels))]
    pub(crate) fn of(alloc: Global, image: &Image, y: u32) -> Result<Row, NoMemory>
        requires { y < image.now.height }
        ensures { IfOk result (λ r. r ≡ fronts.row_in image.now y) }
    {
        let mut pixels = Vec::new(alloc);
        'each: for x in 0..image.width() {
            let Ok(()) = pixels.push(image.at(x, y)) else {
                return Err(NoMemory);
            };
        }
        Ok(Row { pixels })
    }

    /// The pixels from left to right.
    pub fn as_slice(&self) -> &[Pixel]
        ensures { result.now ≡ self.now }
    {
        &self.pixels
    }

    /// Whether two rows have the same pixels.
    pub(crate) fn is_same(&self, other: &Row) -> bool
        ensures { result ≡ changes.are_same_pixels self.now other.now }
    {
        are_same_pixels(&self.pixels, &other.pixels)
    }

    /// Makes each pixel that of a screen without windows.
    fn clear(&mut self)
        ensures { self.new ≡ replicate (length self.old) values.black }
    {
        clear(&mut self.pixels);
    }

    /// Lays a row over it, which begins in the column `start`.
    fn cover(&mut self, start: i64, from: &Row)
        ensures long { length self.new ≡ length self.old }
        ensures pixels { (x : ℕ) → x < length self.old → slice_index_or self.new x no_pixel ≡ values.under (values.pixel_in start from.now x) (slice_index_or self.old x no_pixel) }
    {
        cover(&mut self.pixels, start, &from.pixels);
    }
}

#[tactic(auto, using(crate::proofs::RowLaws::other_length))]
fn are_same_pixels(a: &[Pixel], b: &[Pixel]) -> bool
    ensures { result ≡ changes.are_same_pixels a.now b.now }
{
    if a.len() != b.len() {
        return false;
    }
    'each: for x in 0..a.len() {
        if !is_same_pixel(a[x], b[x]) {
            return false;
        }
    }
    true
}

fn clear(pixels: &mut Vec<Pixel>)
    ensures { pixels.new.items ≡ replicate (length pixels.old.items) values.black }
{
    'each: for x in 0..pixels.len() {
        pixels[x] = BLACK;
    }
}

fn cover(pixels: &mut Vec<Pixel>, start: i64, from: &[Pixel])
    ensures long { length pixels.new.items ≡ length pixels.old.items }
    ensures pixels { (x : ℕ) → x < length pixels.old.items → slice_index_or pixels.new.items x no_pixel ≡ values.under (values.pixel_in start from.now x) (slice_index_or pixels.old.items x no_pixel) }
{
    'each: for x in 0..pixels.len() {
        if let Some(k) = place_in(from.len(), x, start) {
            pixels[x] = pixel_over(from[k], pixels[x]);
        }
    }
}

/// Lays what lies of a layer in row `y` over that row of the screen.
fn cover_layer(row: &mut Row, y: u32, layer: &Layer)
    ensures long { length row.new ≡ length row.old }
    ensures pixels { (x : ℕ) → x < length row.old → slice_index_or row.new x no_pixel ≡ values.covered layer.now.placed.x (values.row_at layer.now y) x (slice_index_or row.old x no_pixel) }
{
    match layer.row_at(y) {
        Some(from) => row.cover(layer.start(), from),
        None => {}
    }
}

/// Lays each layer over a row of the screen, the lowest first.
fn cover_by(row: &mut Row, y: u32, layers: &[Layer])
    ensures long { length row.new ≡ length row.old }
    ensures pixels { (x : ℕ) → x < length row.old → slice_index_or row.new x no_pixel ≡ values.covered_by layers.now x y (slice_index_or row.old x no_pixel) }
{
    'each: for layer in layers {
        cover_layer(row, y, layer);
    }
}

/// Composes row `y` of a screen anew: black, and over it what each placed window shows there, in their order. It counts one step, and takes no memory.
pub fn compose_row<L: Ledger>(row: &mut Row, y: u32, fronts: &Fronts, steps: &mut Steps<L>)
    ensures row { row.new ≡ values.composed_row fronts.now.layers (length row.old) y }
    ensures steps { steps.new ≡ steps.old + 1 }
{
    steps.tick();
    row.clear();
    cover_by(row, y, fronts.layers());
}
