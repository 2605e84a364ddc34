//! The two displays and their handles: which displays are initialised, and which objects the valid handles name.
//!
//! A handle names an object by a number that means something to the caller alone. This crate knows no object, no thread and no
//! call: not what a kind of handle stands for, when a display is initialised or terminated, nor which error a wrong handle
//! earns. What it promises is that a number names at most one handle, that none is given twice, and that handles go in the
//! order of their making.
//!
//! The handles of each display stand in a map in that order, where a destroyed one leaves an empty place: so the newest is
//! found at the end, and any other by a hash under the key that the displays were made with.
//!
//! It knows no object but by its number, and no error of EGL.
//!
//! Its tests are in `table_check`.
#![tactic(auto)]

mod displays;
mod errors;
mod handles;
mod making;
mod tables;
mod taking;

pub use displays::Displays;
pub use errors::HandleError;
pub use handles::{Handle, HandleKind};

/// Handles have lower numbers, so that each fits an EGLint.
pub const HANDLES_END: u32 = 2_147_483_648;
