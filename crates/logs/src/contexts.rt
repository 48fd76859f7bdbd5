//! What is carried from one line of a log to the next.
use crate::log_names::LogNames;

/// How the first frame of the next trace is taken.
#[derive(Clone, Copy, Debug, Drop)]
pub enum First {
    /// As it is: it is the place itself.
    Exact,
    /// As a caller: the line before has a frame.
    Frame,
    /// As a caller: a line since the last frame has the word `RIP`, `EIP` or `NIP`.
    Kept,
}

/// What is carried from one line of a log to the next.
#[derive(Clone, Copy, Debug, Drop)]
pub struct LogContext {
    pub first: First,
    /// Whether the registers of a program were begun.
    pub is_user: bool,
    pub names: LogNames,
}

impl LogContext {
    ghost use Rattle.std.specs.Prelude.{◌≡◌};
    ghost use Rattle.logs.specs.AnnotatedLogs.{first_context};

    /// At the beginning of a log.
    pub(crate) fn new() -> LogContext
        ensures { result ≡ first_context }
    {
        LogContext {
            first: First::Exact,
            is_user: false,
            names: LogNames::none(),
        }
    }
}
