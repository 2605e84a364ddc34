//! Texts that are read as logs.
use egl_calls::Bytes;
use log_reader::{Log, LogError, LogReason};
use std::alloc::Global;
use std::process::Abort;

/// What reading a text gives.
pub fn read(rt: &impl Abort, alloc: Global, text: &str) -> Result<Log, LogError> {
    let bytes = Vec::from_slice(alloc, text.as_bytes()).expect(rt, "memory");
    Log::read(alloc, &Bytes::from_vec(bytes))
}

/// The log that a text spells.
pub fn log(rt: &impl Abort, alloc: Global, text: &str) -> Log {
    match read(rt, alloc, text) {
        Ok(log) => log,
        Err(LogError::Malformed { line, reason }) => {
            panic!(rt; "malformed {line} {}", name(reason))
        }
        Err(LogError::NoMemory) => panic!(rt; "memory"),
    }
}

/// The word for a reason.
pub fn name(reason: LogReason) -> &'static str {
    reason.name()
}
