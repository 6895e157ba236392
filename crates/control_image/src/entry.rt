ghost use Rattle.std.specs.Prelude.{◌≡◌};
ghost use Rattle.part_image.specs.Cells.{Reads};
ghost use Rattle.control_image.specs.Entry.{IsEntry, IsReadStatus, entry_bytes, entry_cells, status_number};

use base_types::{RedoAt, Scn, get_u64, put_u64};
use part_image::{are_zeros, put_u8};

/// Whether a redo thread is in use.
#[derive(Clone, Copy, Debug, PartialEq, Eq)]
pub enum ThreadStatus {
    /// An instance writes it, or ended without closing it.
    Running,
    /// Nothing of it is needed for recovery.
    Closed,
}

/// What the control entry of a redo thread says.
#[derive(Clone, Copy, Debug, PartialEq, Eq)]
pub struct ControlEntry {
    pub status: ThreadStatus,
    /// The redo before it isn't needed for recovery.
    pub position: RedoAt,
    /// The highest SCN in the thread before the position, 0 for none.
    pub highest_scn: Scn,
    /// The highest SCN of a transaction's end in the thread before the position, 0 for none.
    pub highest_end_scn: Scn,
}

impl ControlEntry {
    /// The entry in the bytes; `None` where they are none.
    pub fn read(bytes: &[u8; 32]) -> Option<ControlEntry>
        ensures { Reads IsEntry entry_cells bytes.now result }
    {
        if bytes[0] != 4 || !are_zeros(bytes, 2, 6) {
            return None;
        }
        Some(ControlEntry {
            status: status_of(bytes[1])?,
            position: RedoAt(get_u64(bytes, 8)),
            highest_scn: Scn(get_u64(bytes, 16)),
            highest_end_scn: Scn(get_u64(bytes, 24)),
        })
    }

    /// The bytes of the entry.
    pub fn write(&self) -> [u8; 32]
        ensures { result ≡ entry_bytes self.now }
    {
        let mut out = [0; 32];
        put_u8(&mut out, 0, 4);
        put_u8(&mut out, 1, number_of(self.status));
        put_u64(&mut out, 8, self.position.get());
        put_u64(&mut out, 16, self.highest_scn.get());
        put_u64(&mut out, 24, self.highest_end_scn.get());
        out
    }
}

fn status_of(number: u8) -> Option<ThreadStatus>
    ensures { IsReadStatus number result }
{
    match number {
        1 => Some(ThreadStatus::Running),
        2 => Some(ThreadStatus::Closed),
        _ => None,
    }
}

fn number_of(status: ThreadStatus) -> u8
    ensures { result ≡ status_number status }
{
    match status {
        ThreadStatus::Running => 1,
        ThreadStatus::Closed => 2,
    }
}
