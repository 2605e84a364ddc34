//! Limits that several topics share.

/// The longest side of a window, a pbuffer, a renderbuffer, a screen and a rectangle that is read, in pixels.
pub const LONGEST_SIDE: u64 = 2_048;

/// The longest side of a texture's level 0, in pixels.
pub const LONGEST_TEXTURE_SIDE: u64 = 1_024;

/// The largest id of a window.
pub const LAST_WINDOW: u64 = 2_147_483_647;
