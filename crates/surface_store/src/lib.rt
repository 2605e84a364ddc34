//! Surfaces of windows and pbuffers, with the config, the sides and the pixels that they are made with,
//! and windows with the pixels that they show.
//!
//! It knows no handle, no thread and no driver.
//!
//! Its tests are in `pixel_check`.
#![tactic(auto)]

mod formats;
mod laws;
mod surfaces;
mod window_tables;
mod windows;

pub use formats::format_of;
pub use laws::{compatible_store_alike, formats_have_sizes, pbuffers_fit, taken_fits};
pub use surfaces::Surface;
pub use window_tables::WindowTable;
pub use windows::{MOST_WINDOWS, Window, WindowSpec, swap, windows_ok};
