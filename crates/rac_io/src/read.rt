ghost use Rattle.std.specs.Prelude.{◌≡◌, ◌<◌, ◌-◌, length, vec_len, OnErr, IfOk, IsErrOf};
ghost use Rattle.rac_io.specs.declared.read.ReadError.TheVariants.{NoMemory};
ghost use Rattle.rac_io.specs.Counts.{Counts};
ghost use Rattle.rac_io.specs.Read.{Gains, ReadsUpTo, TakesUpTo};

use crate::source::{Got, Source};
use std::alloc::{AllocError, AllocFailed, Global};
use thiserror::Error;

/// The most bytes that one read asks for.
const PIECE: usize = 4096;

/// Why a text wasn't read.
#[derive(Clone, Copy, Debug, PartialEq, Eq, Error)]
pub enum ReadError {
    /// A read failed.
    #[error("a read failed")]
    Fault,
    /// Memory ran out.
    #[error("memory ran out")]
    NoMemory,
}

impl From<AllocError> for ReadError {
    ghost from_gives = { λ _ e. e ≡ NoMemory };

    fn from(_refused: AllocError) -> ReadError {
        ReadError::NoMemory
    }
}

impl<T: Drop> From<AllocFailed<T>> for ReadError {
    ghost from_gives = { λ _ e. e ≡ NoMemory };

    fn from(_refused: AllocFailed<T>) -> ReadError {
        ReadError::NoMemory
    }
}

/// The bytes that a source has left, up to its end, or the first `limit` of them. Fewer than `limit`
/// are all.
///
/// `Fault` comes where a read failed. An error loses what was read before it.
pub fn read_limited<S: Source>(
    alloc: Global,
    source: &mut S,
    limit: usize,
) -> Result<Vec<u8>, ReadError>
    ensures ok { IfOk result (λ bytes. ReadsUpTo limit (S.left source.old) (S.left source.new) bytes.items) }
    ensures err { OnErr result (TakesUpTo limit (S.left source.old) (S.left source.new)) }
    ensures faults { Counts (IsErrOf result ReadError.Fault) (S.faults source.old) (S.faults source.new) }
{
    let mut bytes = Vec::new(alloc);
    while bytes.len() < limit {
        if !read_piece(source, &mut bytes, limit)? {
            return Ok(bytes);
        }
    }
    Ok(bytes)
}

// Adds what one read gives; whether more may be left.
fn read_piece<S: Source>(
    source: &mut S,
    bytes: &mut Vec<u8>,
    limit: usize,
) -> Result<bool, ReadError>
    requires { vec_len bytes.old < limit }
    ensures ok { IfOk result (Gains limit (S.left source.old) (S.left source.new) bytes.old.items bytes.new.items) }
    ensures err { OnErr result (TakesUpTo (limit - vec_len bytes.old) (S.left source.old) (S.left source.new)) }
    ensures faults { Counts (IsErrOf result ReadError.Fault) (S.faults source.old) (S.faults source.new) }
{
    let mut buffer = [0; PIECE];
    let room = &mut buffer[..PIECE.min(limit - bytes.len())];
    match source.read(room) {
        Got::Bytes(0) | Got::End => Ok(false),
        Got::Bytes(count) => {
            bytes.extend_from_slice(&room[..count])?;
            Ok(true)
        }
        Got::Failed => Err(ReadError::Fault),
    }
}
