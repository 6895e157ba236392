ghost use Rattle.std.specs.Prelude.{◌≡◌};

use base_types::NoMemory;
use rac_disk::Failed;
use std::alloc::{AllocError, AllocFailed};
use undo_segment::LoadError;

/// Why something of a dead thread wasn't read.
#[derive(Clone, Copy, Debug, PartialEq, Eq)]
pub(crate) enum ReadError {
    /// A call of the disk failed.
    Failed,
    /// What stands there is no content that a run leaves.
    Bad,
    NoMemory,
}

impl From<Failed> for ReadError {
    ghost use Rattle.thread_steps.specs.declared.read_error.ReadError.TheVariants as errors;

    ghost from_gives = { λ _ why. why ≡ errors.Failed };

    fn from(_refused: Failed) -> ReadError {
        ReadError::Failed
    }
}

impl From<NoMemory> for ReadError {
    ghost use Rattle.thread_steps.specs.declared.read_error.ReadError.TheVariants as errors;

    ghost from_gives = { λ _ why. why ≡ errors.NoMemory };

    fn from(_refused: NoMemory) -> ReadError {
        ReadError::NoMemory
    }
}

impl From<AllocError> for ReadError {
    ghost use Rattle.thread_steps.specs.declared.read_error.ReadError.TheVariants as errors;

    ghost from_gives = { λ _ why. why ≡ errors.NoMemory };

    fn from(_refused: AllocError) -> ReadError {
        ReadError::NoMemory
    }
}

impl<T: Drop> From<AllocFailed<T>> for ReadError {
    ghost use Rattle.thread_steps.specs.declared.read_error.ReadError.TheVariants as errors;

    ghost from_gives = { λ _ why. why ≡ errors.NoMemory };

    fn from(_refused: AllocFailed<T>) -> ReadError {
        ReadError::NoMemory
    }
}

impl From<LoadError> for ReadError {
    ghost use Rattle.thread_steps.specs.Observes.{error_of};

    ghost from_gives = { λ error why. why ≡ error_of error };

    fn from(error: LoadError) -> ReadError {
        match error {
            LoadError::Failed => ReadError::Failed,
            LoadError::Bad { .. } => ReadError::Bad,
            LoadError::NoMemory => ReadError::NoMemory,
        }
    }
}
