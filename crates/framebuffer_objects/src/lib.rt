//! Renderbuffers and framebuffers (OES_framebuffer_object).
//!
//! It knows no object: what is attached is a number, and what it is at a point its caller says.
//!
//! Its tests are in `pixel_check`.
#![tactic(auto)]

mod attachments;
mod completeness;
mod framebuffers;
mod internal_formats;
mod points;
mod renderbuffers;

pub use attachments::{attachment_point, is_attachment};
pub use completeness::{Part, is_color_renderable, status};
pub use framebuffers::{Attached, Framebuffer};
pub use internal_formats::{format_of, is_internal};
pub use points::Point;
pub use renderbuffers::Renderbuffer;
