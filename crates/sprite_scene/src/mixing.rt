//! Smooth pixels: means of four texels by how near they are.
ghost use Rattle.std.specs.Prelude.{◌≡◌, ◌≤◌, ◌<◌, ◌+◌, ◌-◌, ◌*◌, ◌^◌, ℕ, slice_index};
ghost use Rattle.sprite_scene.specs.Samples as values;

use pixel_formats::Pixel;

/// The two texels between whose middles a place lies, and how far the second weighs, of twice as many as there are pixels.
#[derive(Clone, Copy, Drop)]
pub struct Taps {
    pub first: u32,
    pub second: u32,
    pub weight: u32,
}

/// A texel, held in a part of `size` ones from `start` on.
fn held(start: u32, size: u32, texel: i64) -> u32
    requires size { 1 ≤ size }
    requires end { start + size ≤ 1024 }
    ensures value { result ≡ values.held start size texel }
    ensures end { result < start + size }
{
    let last = start + size - 1;
    if texel <= i64::from(start) {
        start
    } else if texel >= i64::from(last) {
        last
    } else {
        texel as u32
    }
}

/// Where the middle of pixel `i` lies in a part of `size` texels from `start` on that is drawn over `drawn` pixels.
#[tactic(auto, using(crate::proofs::Products::product_small))]
pub(crate) fn middle(start: u32, size: u32, drawn: u32, i: u32) -> u64
    requires end { start + size ≤ 1024 }
    requires drawn { drawn ≤ 1024 }
    requires pixel { i < 1024 }
    ensures value { result ≡ values.middle start size drawn i }
    ensures small { result ≤ 2 ^ 32 }
{
    2 * u64::from(drawn) * u64::from(start) + (2 * u64::from(i) + 1) * u64::from(size)
}

pub(crate) fn taps_at(start: u32, size: u32, drawn: u32, i: u32) -> Taps
    requires size { 1 ≤ size }
    requires end { start + size ≤ 1024 }
    requires some { 1 ≤ drawn }
    requires drawn { drawn ≤ 1024 }
    requires pixel { i < 1024 }
    ensures value { result ≡ values.taps start size drawn i }
    ensures first { result.first < start + size }
    ensures second { result.second < start + size }
    ensures weight { result.weight ≤ 2 * drawn }
{
    let place = middle(start, size, drawn, i) as i64 - i64::from(drawn);
    let whole = 2 * i64::from(drawn);
    let texel = place.div_euclid(whole);
    Taps {
        first: held(start, size, texel),
        second: held(start, size, texel + 1),
        weight: place.rem_euclid(whole) as u32,
    }
}

/// Two numbers by their weights, which are `whole` together.
#[tactic(auto, using(crate::proofs::Products::product_small, crate::proofs::SmoothLaws::mean_most))]
fn mean(whole: u64, weight: u64, first: u64, second: u64) -> u64
    requires whole { whole ≤ 2048 }
    requires weight { weight ≤ whole }
    requires first { first ≤ 2 ^ 20 }
    requires second { second ≤ 2 ^ 20 }
    ensures value { result ≡ (whole - weight) * first + weight * second }
    ensures most { (most : ℕ) → first ≤ most → second ≤ most → result ≤ whole * most }
{
    (whole - weight) * first + weight * second
}

/// A component of four texels, for a part that is drawn over `w` by `h` pixels.
#[tactic(auto, using(crate::proofs::Products::mixed_by, crate::proofs::Products::area_small, crate::proofs::Products::area_some))]
fn component(w: u32, h: u32, f: u32, g: u32, texels: [u8; 4]) -> u8
    requires wide { (1 ≤ w) × (w ≤ 1024) }
    requires high { (1 ≤ h) × (h ≤ 1024) }
    requires weights { (f ≤ 2 * w) × (g ≤ 2 * h) }
    ensures { result ≡ values.rounded w h (values.weighted w h f g (slice_index texels 0) (slice_index texels 1) (slice_index texels 2) (slice_index texels 3)) }
{
    let [a, b, c, d] = texels;
    let (wide, high) = (2 * u64::from(w), 2 * u64::from(h));
    let left = mean(high, u64::from(g), u64::from(a), u64::from(c));
    let right = mean(high, u64::from(g), u64::from(b), u64::from(d));
    let sum = mean(wide, u64::from(f), left, right);
    let whole = wide * high;
    ((2 * sum + whole) / (2 * whole)) as u8
}

/// Four texels by the weights of the columns and rows between whose middles the pixel lies.
pub(crate) fn mixed(w: u32, h: u32, f: u32, g: u32, a: Pixel, b: Pixel, c: Pixel, d: Pixel) -> Pixel
    requires wide { (1 ≤ w) × (w ≤ 1024) }
    requires high { (1 ≤ h) × (h ≤ 1024) }
    requires weights { (f ≤ 2 * w) × (g ≤ 2 * h) }
    ensures { result ≡ values.mixed w h f g a b c d }
{
    Pixel {
        r: component(w, h, f, g, [a.r, b.r, c.r, d.r]),
        g: component(w, h, f, g, [a.g, b.g, c.g, d.g]),
        b: component(w, h, f, g, [a.b, b.b, c.b, d.b]),
        a: component(w, h, f, g, [a.a, b.a, c.a, d.a]),
    }
}
