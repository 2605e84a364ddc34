//! The facts and the refusals of calls, and the values that they answer: all that only reads what a driver keeps.
//!
//! It changes nothing: all that only reads what a driver keeps.
//!
//! Its tests are in `driver_check`.
#![tactic(auto)]

mod attributes;
mod buffers;
mod configs;
mod contexts;
mod copies;
mod currents;
mod displays;
mod drawing;
mod draws;
mod egl_asked;
mod egl_found;
mod framebuffers;
mod gl_asked;
mod handles;
mod images;
mod make_current;
mod names;
mod refusals;
mod renderbuffers;
mod surfaces;
mod syncs;
mod tables;
mod textures;
mod threads;
mod touches;
mod verdicts;
mod waits;
mod windows;

pub use attributes::{PbufferAttributes, WindowAttributes};
pub use configs::attribute_value;
pub use currents::handle_of;
pub use egl_found::EglFound;
pub use framebuffers::{BoundFramebuffer, called_point};
pub use names::{listed_name, name_of};
pub use surfaces::side_of;
pub use tables::Tables;
pub use threads::ThreadTable;
pub use touches::Touches;
pub use verdicts::Refusals;
