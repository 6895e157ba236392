//! The log of a dead thread.

ghost use Rattle.std.specs.Prelude.{◌≡◌, ◌<◌, ◌^◌, length, IfOk};
ghost use Rattle.thread_steps.specs.Observes.{Finds};
ghost use Rattle.thread_steps.specs.Records.{GivesLog, IsNoLog};

use crate::read_error::ReadError;
use base_types::{InstNo, NoMemory};
use rac_disk::SharedDisk;
use std::alloc::Global;

// So many bytes for a piece of a log.
fn room(alloc: Global, count: usize) -> Result<Vec<u8>, NoMemory>
    ensures { IfOk result (λ piece. length piece.items ≡ count) }
{
    Ok(vec![in alloc; 0; count]?)
}

/// The bytes of a thread's log from a place on, which are read in pieces until none comes.
pub(crate) fn read_log<D: SharedDisk>(
    alloc: Global,
    thread: InstNo,
    position: u64,
    disk: &mut D,
) -> Result<Vec<u8>, ReadError>
    requires thread { thread < 8 }
    requires position { position < 2 ^ 62 }
    ensures { Finds (GivesLog thread position) IsNoLog result (D.state disk.old) (D.state disk.new) }
{
    let mut bytes = Vec::new(alloc);
    let mut piece = room(alloc, 65_536)?;
    for _piece in 0..u64::MAX {
        let at = position + bytes.len() as u64;
        let count = disk.read_log(thread, at, piece.as_mut_slice())?;
        if count == 0 {
            return Ok(bytes);
        }
        bytes.extend_from_slice(&piece.as_slice()[..count])?;
    }
    Err(ReadError::NoMemory)
}
