//! Why a handle is refused.
use thiserror::Error;

/// Why there is no new handle. All is then as it was.
#[derive(Clone, Copy, Debug, PartialEq, Eq, Drop, Error)]
pub enum HandleError {
    /// Every number below 2,147,483,648 was given.
    #[error("no handle has a number of 2147483648 or more")]
    Limit,
    #[error("no memory for a handle")]
    NoMemory,
}
