ghost use Rattle.std.specs.Prelude.{◌≡◌, ◌<◌};
ghost use Rattle.disk_calls.specs.Calls.{CutsLogAs, GivesLengthAs, WritesBlockAs, WritesControlAs};

use base_types::{BlockNo, InstNo};
use rac_disk::SharedDisk;

/// How a call went that is to leave something on the disk.
#[derive(Clone, Copy, Debug, PartialEq, Eq)]
pub enum Written {
    Done,
    /// It failed: the disk is as it was, or as it was to be.
    Failed,
}

/// Writes a block.
pub fn write_block<D: SharedDisk>(disk: &mut D, block: BlockNo, bytes: &[u8; 512]) -> Written
    requires { block < 200 }
    ensures { WritesBlockAs block bytes.now result (D.state disk.old) (D.state disk.new) }
{
    match disk.write_block(block, bytes) {
        Ok(()) => Written::Done,
        Err(_) => Written::Failed,
    }
}

/// Writes a thread's control entry.
pub fn write_control<D: SharedDisk>(disk: &mut D, thread: InstNo, bytes: &[u8; 32]) -> Written
    requires { thread < 8 }
    ensures { WritesControlAs thread bytes.now result (D.state disk.old) (D.state disk.new) }
{
    match disk.write_control(thread, bytes) {
        Ok(()) => Written::Done,
        Err(_) => Written::Failed,
    }
}

/// Cuts a thread's log to its first bytes.
pub fn cut_log<D: SharedDisk>(disk: &mut D, thread: InstNo, length: u64) -> Written
    requires { thread < 8 }
    ensures { CutsLogAs thread length result (D.state disk.old) (D.state disk.new) }
{
    match disk.cut_log(thread, length) {
        Ok(()) => Written::Done,
        Err(_) => Written::Failed,
    }
}

/// The length of a thread's log, where the disk tells it.
pub fn log_len<D: SharedDisk>(disk: &mut D, thread: InstNo) -> Option<u64>
    requires { thread < 8 }
    ensures { GivesLengthAs thread result (D.state disk.old) (D.state disk.new) }
{
    match disk.log_len(thread) {
        Ok(length) => Some(length),
        Err(_) => None,
    }
}
