ghost use Rattle.std.specs.Prelude.{◌≡◌, ◌<◌, ◌≤◌, ◌+◌, [], length, take, IsOk, IfOk, OnOk, OnErr, IsErrOf};
ghost use Rattle.std.specs.Io.KnownBytes.{Appends, Keeps};
ghost use Rattle.rac_io.specs.Counts.{Counts};
ghost use Rattle.rac_io.specs.Write.{AppendsPart};

use crate::sink::{Put, Sink};
use thiserror::Error;

/// Why a text wasn't written.
#[derive(Clone, Copy, Debug, PartialEq, Eq, Error)]
pub enum WriteFault {
    /// A write failed.
    #[error("a write failed")]
    Failed,
    /// A write took nothing of a piece that isn't empty.
    #[error("a write took nothing")]
    Stalled,
}

/// Writes all the bytes, in as many writes as the sink wants. An error leaves some first bytes of them
/// written, and not all. For no bytes no write is made.
pub fn write_whole<K: Sink>(sink: &mut K, bytes: &[u8]) -> Result<(), WriteFault>
    ensures ok { OnOk result (Appends (K.holds sink.old) (K.holds sink.new) bytes.now) }
    ensures err { OnErr result (AppendsPart (K.holds sink.old) (K.holds sink.new) bytes.now) }
    ensures faults { Counts (IsErrOf result WriteFault.Failed) (K.faults sink.old) (K.faults sink.new) }
    ensures stalls { Counts (IsErrOf result WriteFault.Stalled) (K.stalls sink.old) (K.stalls sink.new) }
    ensures nothing { bytes.now ≡ [] → IsOk result × (sink.new ≡ sink.old) }
{
    let mut written = 0;
    while written < bytes.len() {
        written += write_piece(sink, &bytes[written..])?;
    }
    Ok(())
}

// One write: how many bytes of the piece it took, at least one.
fn write_piece<K: Sink>(sink: &mut K, piece: &[u8]) -> Result<usize, WriteFault>
    requires { 0 < length piece.now }
    ensures some { IfOk result (λ count. 0 < count) }
    ensures bound { IfOk result (λ count. count ≤ length piece.now) }
    ensures ok { IfOk result (λ count. Appends (K.holds sink.old) (K.holds sink.new) (take count piece.now)) }
    ensures err { OnErr result (Appends (K.holds sink.old) (K.holds sink.new) []) }
    ensures faults { Counts (IsErrOf result WriteFault.Failed) (K.faults sink.old) (K.faults sink.new) }
    ensures stalls { Counts (IsErrOf result WriteFault.Stalled) (K.stalls sink.old) (K.stalls sink.new) }
{
    match sink.write(piece) {
        Put::Bytes(0) => Err(WriteFault::Stalled),
        Put::Bytes(count) => Ok(count),
        Put::Failed => Err(WriteFault::Failed),
    }
}
