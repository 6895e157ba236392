ghost use Rattle.std.specs.Prelude.{◌≡◌, ◌<◌, ◌++◌};
ghost use Rattle.rac_disk.specs.State.{State};
ghost use Rattle.rac_disk.specs.Calls.{ReadsBlock, WritesBlock, Appends, CutsLog, GivesLength, ReadsLog, ReadsControl, WritesControl};

use base_types::{BlockNo, InstNo};

/// A call of a disk failed.
#[derive(Clone, Copy, Debug, PartialEq, Eq)]
pub struct Failed;

/// A disk that all instances share: blocks 0 to 199 of 512 bytes, and for each of the threads 0 to 7 a log
/// and a control entry of 32 bytes. A call fails only where one of its two counts rose or stands at its end.
pub trait SharedDisk {
    /// What the disk holds, where it tells that, and how often its calls have failed. A disk that tells what
    /// it holds goes on telling it.
    ghost state: { Self → State };

    /// Reads a block. A failed read may leave anything in `out`, and changes nothing of the disk.
    fn read_block(&mut self, b: BlockNo, out: &mut [u8; 512]) -> Result<(), Failed>
        requires { b < 200 }
        ensures { ReadsBlock b out.new result (state self.old) (state self.new) };

    /// Writes a block. A failed write leaves the block as it was or written whole.
    fn write_block(&mut self, b: BlockNo, bytes: &[u8; 512]) -> Result<(), Failed>
        requires { b < 200 }
        ensures { WritesBlock b bytes.now result (state self.old) (state self.new) };

    /// Appends bytes to a thread's log. A failed append leaves some first bytes of them in the log: none, a
    /// part or all.
    fn append(&mut self, t: InstNo, bytes: &[u8]) -> Result<(), Failed>
        requires { t < 8 }
        ensures { Appends t bytes.now result (state self.old) (state self.new) };

    /// Cuts a thread's log to its first `len` bytes. It changes nothing where the log has no more. A failed
    /// cut leaves the log as it was or cut.
    fn cut_log(&mut self, t: InstNo, len: u64) -> Result<(), Failed>
        requires { t < 8 }
        ensures { CutsLog t len result (state self.old) (state self.new) };

    /// How many bytes a thread's log has. A failed call changes nothing of the disk.
    fn log_len(&mut self, t: InstNo) -> Result<u64, Failed>
        requires { t < 8 }
        ensures { GivesLength t result (state self.old) (state self.new) };

    /// Reads bytes of a thread's log, from the place `at` on, into the front of `out`: as many as there are
    /// and as fit. None where there is room for some counts as the log's end. What stands behind them in
    /// `out` may be anything, and all of it after a failed read, which changes nothing of the disk.
    fn read_log(&mut self, t: InstNo, at: u64, out: &mut [u8]) -> Result<usize, Failed>
        requires { t < 8 }
        ensures { ReadsLog t at out.new result (state self.old) (state self.new) };

    /// Reads a thread's control entry. A failed read may leave anything in `out`, and changes nothing of the
    /// disk.
    fn read_control(&mut self, t: InstNo, out: &mut [u8; 32]) -> Result<(), Failed>
        requires { t < 8 }
        ensures { ReadsControl t out.new result (state self.old) (state self.new) };

    /// Writes a thread's control entry. A failed write leaves the entry as it was or written whole.
    fn write_control(&mut self, t: InstNo, bytes: &[u8; 32]) -> Result<(), Failed>
        requires { t < 8 }
        ensures { WritesControl t bytes.now result (state self.old) (state self.new) };

    /// How often an append has failed since a log had no room. The count stops at the last value of `u64`.
    fn full(&self) -> u64
        ensures { result ≡ (state self.now).full };

    /// How often a call has failed by a fault. The count stops at the last value of `u64`.
    fn faults(&self) -> u64
        ensures { result ≡ (state self.now).faults };
}

// Two appends, which do what one append of both pieces does, and fail only where one of them did.
pub(crate) fn append_both<D: SharedDisk>(
    disk: &mut D,
    t: InstNo,
    first: &[u8],
    second: &[u8],
) -> Result<(), Failed>
    requires { t < 8 }
    ensures { Appends t (first.now ++ second.now) result (D.state disk.old) (D.state disk.new) }
{
    disk.append(t, first)?;
    disk.append(t, second)
}
