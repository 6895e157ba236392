ghost use Rattle.std.specs.Prelude.{◌≡◌, ◌<◌};
ghost use Rattle.disk_calls.specs.Calls.{AppendsAs};

use base_types::InstNo;
use rac_disk::SharedDisk;

/// How an append to a log went.
#[derive(Clone, Copy, Debug, PartialEq, Eq)]
pub enum Appended {
    /// All bytes are there.
    Whole,
    /// It failed, and some first bytes are there: the length of the log, where that is told.
    Cut(Option<u64>),
}

/// Appends bytes to a thread's log. Where that fails it asks for the log's length.
pub fn append<D: SharedDisk>(disk: &mut D, thread: InstNo, bytes: &[u8]) -> Appended
    requires { thread < 8 }
    ensures { AppendsAs thread bytes.now result (D.state disk.old) (D.state disk.new) }
{
    match disk.append(thread, bytes) {
        Ok(()) => Appended::Whole,
        Err(_) => Appended::Cut(disk.log_len(thread).ok()),
    }
}
