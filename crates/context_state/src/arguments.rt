//! The numbers of a call.
ghost use Rattle.std.specs.Prelude.{◌≡◌, ◌<◌, true, false};
ghost use Rattle.context_state.specs.Arguments.{box, colour, has_negative_side, is_set, mask};
ghost use Rattle.context_state.specs.Kinds.{is_context_call};
ghost use Rattle.context_state.specs.Parts.{AreClamped, IsBox, IsClamped, clamped};

use crate::parts::ONE;
use egl_calls::Call;
use egl_calls::places::{ALPHA, BLUE, GREEN, RED};

/// Whether the width or the height of a box is negative.
pub(crate) fn has_negative_side(call: &Call) -> bool
    ensures { result ≡ has_negative_side call.now }
{
    let [_, _, w, h, ..] = call.args;
    w < 0 || h < 0
}

/// Left, bottom, width and height.
pub(crate) fn box_of(call: &Call) -> [i64; 4]
    requires kind { is_context_call call.now.kind ≡ true }
    requires sides { has_negative_side call.now ≡ false }
    ensures value { result ≡ box call.now }
    ensures in_range { IsBox result }
{
    let [x, y, w, h, ..] = call.args;
    [x, y, w, h]
}

fn clamped(z: i64) -> i64
    ensures value { result ≡ clamped z }
    ensures within { IsClamped result }
{
    if z < 0 {
        0
    } else if z > ONE {
        ONE
    } else {
        z
    }
}

/// Red, green, blue and alpha, each held between 0 and 1.
pub(crate) fn colour(call: &Call) -> [i64; 4]
    ensures value { result ≡ colour call.now }
    ensures clamped { AreClamped result }
{
    let [r, g, b, a, ..] = call.args;
    [clamped(r), clamped(g), clamped(b), clamped(a)]
}

fn is_set(call: &Call, place: usize) -> bool
    requires { place < 8 }
    ensures { result ≡ is_set call.now place }
{
    call.args[place] != 0
}

/// Which of red, green, blue and alpha are set.
pub(crate) fn mask(call: &Call) -> [bool; 4]
    ensures { result ≡ mask call.now }
{
    [
        is_set(call, RED),
        is_set(call, GREEN),
        is_set(call, BLUE),
        is_set(call, ALPHA),
    ]
}
