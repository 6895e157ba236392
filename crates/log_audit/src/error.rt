ghost use Rattle.std.specs.Prelude.{◌≡◌};

use base_types::{InstNo, NoMemory};
use log_history::LogError;
use rac_disk::Failed;
use std::alloc::{AllocError, AllocFailed};
use thiserror::Error;

/// Why an audit told nothing.
#[derive(Debug, Drop, Error)]
pub enum AuditError {
    /// A call of the disk failed.
    #[error("disk fault")]
    Failed,
    /// What stands in the log of `thread` behind its whole records is no record cut short: no writer of
    /// records left it. It begins at `place`, in bytes from the beginning of the log. The logs of all
    /// lower threads are right.
    #[error("log {}: bad at {place}", thread.0)]
    BadLog { thread: InstNo, place: u64 },
    #[error("no memory")]
    NoMemory,
}

impl From<Failed> for AuditError {
    ghost use Rattle.log_audit.specs.declared.error.AuditError.TheVariants as errors;

    ghost from_gives = { λ _ error. error ≡ errors.Failed };

    fn from(_refused: Failed) -> AuditError {
        AuditError::Failed
    }
}

impl From<NoMemory> for AuditError {
    ghost use Rattle.log_audit.specs.declared.error.AuditError.TheVariants as errors;

    ghost from_gives = { λ _ error. error ≡ errors.NoMemory };

    fn from(_refused: NoMemory) -> AuditError {
        AuditError::NoMemory
    }
}

impl From<AllocError> for AuditError {
    ghost use Rattle.log_audit.specs.declared.error.AuditError.TheVariants as errors;

    ghost from_gives = { λ _ error. error ≡ errors.NoMemory };

    fn from(_refused: AllocError) -> AuditError {
        AuditError::NoMemory
    }
}

impl<T: Drop> From<AllocFailed<T>> for AuditError {
    ghost use Rattle.log_audit.specs.declared.error.AuditError.TheVariants as errors;

    ghost from_gives = { λ _ error. error ≡ errors.NoMemory };

    fn from(_refused: AllocFailed<T>) -> AuditError {
        AuditError::NoMemory
    }
}

impl From<LogError> for AuditError {
    ghost use Rattle.log_audit.specs.Audits.{error_of};

    ghost from_gives = { λ cause error. error ≡ error_of cause };

    fn from(cause: LogError) -> AuditError {
        match cause {
            LogError::BadLog { thread, place } => AuditError::BadLog { thread, place },
            LogError::NoMemory => AuditError::NoMemory,
        }
    }
}
