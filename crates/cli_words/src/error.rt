ghost use Rattle.std.specs.Prelude.{◌≡◌};

use std::alloc::{AllocError, AllocFailed};
use thiserror::Error;

/// Why the words give no order.
#[derive(Debug, Drop, Error)]
pub enum WordsError {
    /// The program does not know the words, or they ask for help or for the version.
    #[error("usage: rac run [--journal] [--steps] [--check] [--disk FOLDER] | load SEED ROUNDS [--disk FOLDER] | audit --disk FOLDER")]
    Usage,
    #[error("no memory")]
    NoMemory,
}

impl From<AllocError> for WordsError {
    ghost use Rattle.cli_words.specs.declared.error.WordsError.TheVariants as errors;

    ghost from_gives = { λ _ error. error ≡ errors.NoMemory };

    fn from(_refused: AllocError) -> WordsError {
        WordsError::NoMemory
    }
}

impl<T: Drop> From<AllocFailed<T>> for WordsError {
    ghost use Rattle.cli_words.specs.declared.error.WordsError.TheVariants as errors;

    ghost from_gives = { λ _ error. error ≡ errors.NoMemory };

    fn from(_refused: AllocFailed<T>) -> WordsError {
        WordsError::NoMemory
    }
}
