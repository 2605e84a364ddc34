//! Components as numbers of so many bits.

ghost use Rattle.std.specs.Prelude.{◌≡◌, ◌<◌, ◌≤◌, ◌-◌, ◌^◌};
ghost use Rattle.pixel_formats.specs.Components as numbers;

/// The largest component of so many bits.
#[inline(always)]
pub(crate) fn top(bits: u32) -> u32
    requires { bits ≤ 8 }
    ensures value { result ≡ 2 ^ bits - 1 }
    ensures positive { 1 ≤ bits → 1 ≤ result }
    ensures small { result ≤ 255 }
{
    match bits {
        0 => 0,
        1 => 1,
        2 => 3,
        3 => 7,
        4 => 15,
        5 => 31,
        6 => 63,
        7 => 127,
        8 => 255,
        _ => unreachable!(),
    }
}

/// The component `c` of `from` bits as the nearest one of `to` bits.
#[inline(always)]
pub fn widen(c: u32, from: u32, to: u32) -> u32
    requires from_bits { (1 ≤ from) × (from ≤ 8) }
    requires to_bits { (1 ≤ to) × (to ≤ 8) }
    requires within { c < 2 ^ from }
    ensures value { result ≡ numbers.widen c from to }
    ensures fits { result < 2 ^ to }
{
    let most = top(from);
    (2 * c * top(to) + most) / (2 * most)
}

/// The 8-bit component `c` as the nearest one of `bits` bits, which is 0 where there are none.
#[inline(always)]
pub(crate) fn narrow(c: u8, bits: u32) -> u32
    requires { bits ≤ 8 }
    ensures value { result ≡ numbers.widen c 8 bits }
    ensures fits { result < 2 ^ bits }
{
    (2 * c as u32 * top(bits) + 255) / 510
}

/// A fixed-point number held between 0 and 1, where 1 is 65,536.
fn clamped(c: i64) -> u32
    ensures value { result ≡ numbers.clamped c }
    ensures within { result ≤ 65536 }
{
    if c < 0 {
        0
    } else if c > 65_536 {
        65_536
    } else {
        c as u32
    }
}

/// The 16.16 fixed-point number `c`, held between 0 and 1, as the nearest component of `bits` bits
/// (OpenGL ES 1.1, "Clearing the Buffers").
pub fn clear_value(c: i64, bits: u32) -> u32
    requires { (1 ≤ bits) × (bits ≤ 8) }
    ensures value { result ≡ numbers.clear_value c bits }
    ensures fits { result < 2 ^ bits }
{
    (clamped(c) * top(bits) + 32_768) / 65_536
}
