ghost use Rattle.std.specs.Prelude.{◌≡◌};

use base_types::{InstNo, NoMemory};
use std::alloc::AllocFailed;
use thiserror::Error;

/// Why the logs have no history.
#[derive(Debug, Drop, Error)]
pub enum LogError {
    /// What stands in the log of `thread` behind its whole records is no record cut short: no writer of
    /// records left it. It begins at `place`, in bytes from the beginning of the log. The logs of all
    /// lower threads are right.
    #[error("log {}: bad at {place}", thread.0)]
    BadLog { thread: InstNo, place: u64 },
    #[error("no memory")]
    NoMemory,
}

impl From<NoMemory> for LogError {
    ghost use Rattle.log_history.specs.declared.error.LogError.TheVariants as errors;

    ghost from_gives = { λ _ error. error ≡ errors.NoMemory };

    fn from(_refused: NoMemory) -> LogError {
        LogError::NoMemory
    }
}

impl<T: Drop> From<AllocFailed<T>> for LogError {
    ghost use Rattle.log_history.specs.declared.error.LogError.TheVariants as errors;

    ghost from_gives = { λ _ error. error ≡ errors.NoMemory };

    fn from(_refused: AllocFailed<T>) -> LogError {
        LogError::NoMemory
    }
}
