//! What is wrong with bytes that spell no log.
ghost use Rattle.std.specs.Prelude.{◌≡◌, ◌≤◌, length};
ghost use Rattle.log_reader.specs.Reading.{error_at};
ghost use Rattle.log_reader.specs.Reasons.{log_reason_name};

use thiserror::Error;
use trace_reader::Reason;

/// Why a line of a log is defective: for a reason that a line of a trace may have, or because of what stands behind ` => `.
#[derive(Clone, Copy, Debug, PartialEq, Eq, Drop)]
pub enum LogReason {
    Trace(Reason),
    Answer,
}

impl LogReason {
    /// The word for it.
    #[tactic(auto, unfolding(crate::specs::Reasons::log_reason_name))]
    pub fn name(self) -> &'static str
        ensures value { result.now ≡ log_reason_name self }
        ensures short { length result.now ≤ 8 }
    {
        match self {
            LogReason::Trace(reason) => reason.name(),
            LogReason::Answer => "Answer",
        }
    }
}

/// A line, counted from 1, and what is wrong with it first.
#[derive(Clone, Copy, Debug, PartialEq, Eq, Drop)]
pub struct LogDefect {
    pub line: u64,
    pub reason: LogReason,
}

#[derive(Clone, Copy, Debug, PartialEq, Eq, Drop, Error)]
pub enum LogError {
    #[error("line {line} is defective")]
    Malformed { line: u64, reason: LogReason },
    #[error("memory ran out")]
    NoMemory,
}

/// Why a line wasn't taken.
#[derive(Clone, Copy, Debug, PartialEq, Eq, Drop)]
pub enum LogLineError {
    Defective(LogReason),
    NoMemory,
}

impl LogLineError {
    /// The error of the whole, where the line with this number isn't taken.
    pub fn at(self, line: u64) -> LogError
        ensures { result ≡ error_at line self }
    {
        match self {
            LogLineError::Defective(reason) => LogError::Malformed { line, reason },
            LogLineError::NoMemory => LogError::NoMemory,
        }
    }
}
