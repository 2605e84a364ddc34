//! Want of memory.

/// Memory ran out. The value that was to stand under the lock is dropped.
#[derive(Clone, Copy, Debug, PartialEq, Eq, Drop)]
pub struct NoMemory;
