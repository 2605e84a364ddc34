//! Fence syncs: which are signalled, and which threads wait for them.
//!
//! It knows contexts by numbers alone, and no driver stands on it: the driver's fences are objects.
//!
//! Its tests are in `table_check`.
#![tactic(auto)]

mod fences;
mod tables;

pub use fences::{Fence, Fences};
