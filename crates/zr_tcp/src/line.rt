//! A line of the log: when, how bad, and what.

use jiff::Timestamp;
use std::alloc::{AllocError, Global};
use std::time::Clock;

/// How bad it is what a line tells.
#[derive(Clone, Copy)]
pub(crate) enum Severity {
    /// As it should be.
    Info,
    /// A link was given up, or never came to be.
    Warn,
}

impl Severity {
    fn word(self) -> &'static str {
        match self {
            Severity::Info => "info",
            Severity::Warn => "warn",
        }
    }
}

/// A line behind the time, in UTC with milliseconds, and its severity's word. Where the system tells no time it is that of 1970.
pub(crate) fn stamped<R: Clock>(
    rt: &R,
    alloc: Global,
    severity: Severity,
    line: &str,
) -> Result<String, AllocError> {
    let now = Timestamp::now(rt).unwrap_or(Timestamp::UNIX_EPOCH);
    let word = severity.word();
    format!(in alloc; "{now:.3} {word} {line}")
}
