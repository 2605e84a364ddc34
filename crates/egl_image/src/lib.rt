//! EGL images (EGL 1.5, section 3.9; OES_EGL_image).
//!
//! It knows no handle and no texture: how many references lead to pixels its caller says.
//!
//! Its tests are in `pixel_check`.
#![tactic(auto)]

mod images;

pub use images::{EglImage, may_create, may_target_renderbuffer};
