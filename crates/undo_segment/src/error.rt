ghost use Rattle.std.specs.Prelude.{◌≡◌};

use base_types::{BlockNo, NoMemory};
use rac_disk::Failed;
use std::alloc::{AllocError, AllocFailed};
use thiserror::Error;

/// Why a segment wasn't loaded.
#[derive(Clone, Copy, Debug, PartialEq, Eq, Error)]
pub enum LoadError {
    /// A read of the disk failed.
    #[error("a read of the disk failed")]
    Failed,
    /// The block isn't what stands in its place in the segment, and `field`, 1 to 9, is its first field that is wrong: its
    /// form, its number (3), its segment (4), or a number in it that no run comes near: its version (5), its SCN (6), its
    /// next sequence number (7), or one in its slots or undo records (8).
    #[error("block {}: bad field {field}", block.0)]
    Bad { block: BlockNo, field: u8 },
    /// Memory ran out.
    #[error("memory ran out")]
    NoMemory,
}

impl From<Failed> for LoadError {
    ghost use Rattle.undo_segment.specs.declared.error.LoadError.TheVariants as errors;

    ghost from_gives = { λ _ error. error ≡ errors.Failed };

    fn from(_refused: Failed) -> LoadError {
        LoadError::Failed
    }
}

impl From<NoMemory> for LoadError {
    ghost use Rattle.undo_segment.specs.declared.error.LoadError.TheVariants as errors;

    ghost from_gives = { λ _ error. error ≡ errors.NoMemory };

    fn from(_refused: NoMemory) -> LoadError {
        LoadError::NoMemory
    }
}

impl From<AllocError> for LoadError {
    ghost use Rattle.undo_segment.specs.declared.error.LoadError.TheVariants as errors;

    ghost from_gives = { λ _ error. error ≡ errors.NoMemory };

    fn from(_refused: AllocError) -> LoadError {
        LoadError::NoMemory
    }
}

impl<T: Drop> From<AllocFailed<T>> for LoadError {
    ghost use Rattle.undo_segment.specs.declared.error.LoadError.TheVariants as errors;

    ghost from_gives = { λ _ error. error ≡ errors.NoMemory };

    fn from(_refused: AllocFailed<T>) -> LoadError {
        LoadError::NoMemory
    }
}
