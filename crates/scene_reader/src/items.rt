//! The items of a scene.
use egl_calls::Payload;

/// A picture of which parts are drawn: its id, its sides in texels, and its texels as RGBA bytes, row 0 first.
#[derive(Drop)]
pub struct Atlas {
    pub id: u32,
    pub width: u32,
    pub height: u32,
    pub texels: Payload,
}

/// A part of an atlas, by the atlas's id: the column and the row in which it begins, and its sides, all in texels.
#[derive(Clone, Copy, Debug, PartialEq, Eq, Drop)]
pub struct Part {
    pub atlas: u32,
    pub u: u32,
    pub v: u32,
    pub width: u32,
    pub height: u32,
}

/// A part that is drawn scaled: the column and the row of the scene in which it begins, and its sides there, in pixels.
#[derive(Clone, Copy, Debug, PartialEq, Eq, Drop)]
pub struct ScaledPart {
    pub part: Part,
    pub x: i64,
    pub y: i64,
    pub width: u32,
    pub height: u32,
}

/// A part that is drawn unscaled in columns and rows, side by side: the column and the row of the scene in which the first begins, and how many there are.
#[derive(Clone, Copy, Debug, PartialEq, Eq, Drop)]
pub struct TiledPart {
    pub part: Part,
    pub x: i64,
    pub y: i64,
    pub columns: u32,
    pub rows: u32,
}

/// The pixels that draws may write, from then on: the column and the row in which they begin, and how many columns and rows there are.
#[derive(Clone, Copy, Debug, PartialEq, Eq, Drop)]
pub struct ClipBox {
    pub x: i64,
    pub y: i64,
    pub width: u32,
    pub height: u32,
}

/// What a line of a scene says.
#[derive(Drop)]
pub enum Item {
    Atlas(Atlas),
    /// Each pixel has the texel in which its middle lies.
    Sprite(ScaledPart),
    /// Each pixel has the mean of the four texels around its middle, by how near they are.
    Smooth(ScaledPart),
    Tile(TiledPart),
    Clip(ClipBox),
    NoClip,
}
