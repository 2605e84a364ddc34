//! Where windows lie on a screen.
ghost use Rattle.std.specs.Prelude.{◌≡◌};
ghost use Rattle.screen_compose.specs.Placing as values;

use egl_calls::limits::LONGEST_SIDE;

/// The most windows that may be placed on a screen.
const MOST_PLACED: usize = 64;

/// The first and the last column or row in which a window may begin.
const FIRST_PLACE: i64 = -2_147_483_648;

const LAST_PLACE: i64 = 2_147_483_647;

/// A window on a screen, by its id: the column and the row of the screen in which its lowest row begins. A window may lie past each edge.
#[derive(Clone, Copy, Debug, PartialEq, Eq, Drop)]
pub struct Placed {
    pub window: i64,
    pub x: i64,
    pub y: i64,
}

/// Whether a list places a window.
fn places(list: &[Placed], window: i64) -> bool
    ensures { result ≡ values.places window list.now }
{
    'each: for placed in list {
        if placed.window == window {
            return true;
        }
    }
    false
}

fn is_near(place: i64) -> bool
    ensures { result ≡ values.is_near place }
{
    FIRST_PLACE <= place && place <= LAST_PLACE
}

fn lies_near(placed: Placed) -> bool
    ensures { result ≡ values.lies_near placed }
{
    is_near(placed.x) && is_near(placed.y)
}

/// Whether each window lies within the range of 32 bits, and none is placed twice.
fn are_placed(list: &[Placed]) -> bool
    ensures { result ≡ values.are_placed list.now }
{
    'each: for k in 0..list.len() {
        let (_, rest) = list.split_at(k + 1);
        if !lies_near(list[k]) || places(rest, list[k].window) {
            return false;
        }
    }
    true
}

fn is_side(side: u32) -> bool
    ensures { result ≡ values.is_side side }
{
    1 <= side && side as u64 <= LONGEST_SIDE
}

/// Whether there may be a screen of these sides with these windows: sides from 1 to 2,048, and at most 64 distinct windows, each from -2,147,483,648 to 2,147,483,647.
pub fn screen_ok(w: u32, h: u32, placed: &[Placed]) -> bool
    ensures { result ≡ values.screen_ok w h placed.now }
{
    is_side(w) && is_side(h) && placed.len() <= MOST_PLACED && are_placed(placed)
}
