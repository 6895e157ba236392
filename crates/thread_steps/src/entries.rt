//! The control entry of a dead thread.

ghost use Rattle.std.specs.Prelude.{◌≡◌, ◌<◌, ◌^◌, IfOk, IfSome, MatchOption};
ghost use Rattle.disk_calls.specs.Images.{is_small};
ghost use Rattle.thread_steps.specs.Entries.{HasBadEntry, HasEntry, IsBadEntry, IsGoodEntry, has_small_numbers, scns_of};
ghost use Rattle.thread_steps.specs.Observes.{Finds};

use crate::read_error::ReadError;
use base_types::InstNo;
use control_image::ControlEntry;
use rac_disk::SharedDisk;
use scn_clock::Clock;

/// Whether a number is one that a run may come to, as an SCN or as a place in a log.
pub(crate) fn is_small(number: u64) -> bool
    ensures { result ≡ is_small number }
{
    number < 1 << 62
}

fn has_small_numbers(entry: &ControlEntry) -> bool
    ensures { result ≡ has_small_numbers entry.now }
{
    is_small(entry.position.get())
        && is_small(entry.highest_scn.get())
        && is_small(entry.highest_end_scn.get())
}

// The entry in the bytes, if it is one that a run leaves.
fn entry_in(bytes: &[u8; 32]) -> Option<ControlEntry>
    ensures position { IfSome result (λ entry. entry.position < 2 ^ 62) }
    ensures entry { MatchOption result (IsBadEntry bytes.now) (IsGoodEntry bytes.now) }
{
    match ControlEntry::read(bytes) {
        Some(entry) => {
            if has_small_numbers(&entry) {
                Some(entry)
            } else {
                None
            }
        }
        None => None,
    }
}

/// The SCNs of a control entry.
pub(crate) fn scns_of(entry: &ControlEntry) -> Clock
    ensures { result ≡ scns_of entry.now }
{
    Clock {
        scn: entry.highest_scn,
        known: entry.highest_end_scn,
    }
}

/// Reads the control entry of a thread. Its numbers are looked at.
pub(crate) fn read_entry<D: SharedDisk>(
    thread: InstNo,
    disk: &mut D,
) -> Result<ControlEntry, ReadError>
    requires { thread < 8 }
    ensures position { IfOk result (λ entry. entry.position < 2 ^ 62) }
    ensures disk { Finds (HasEntry thread) (HasBadEntry thread) result (D.state disk.old) (D.state disk.new) }
{
    let mut bytes = [0; 32];
    disk.read_control(thread, &mut bytes)?;
    match entry_in(&bytes) {
        Some(entry) => Ok(entry),
        None => Err(ReadError::Bad),
    }
}
