ghost use Rattle.std.specs.Prelude.{◌≡◌};
ghost use Rattle.rac_disk.specs.State.{State};
ghost use Rattle.rac_top.specs.Failures.{have_risen, has_risen};

use rac_disk::SharedDisk;

/// How often the calls of a disk have failed.
#[derive(Clone, Copy, Debug, PartialEq, Eq)]
pub struct Failures {
    pub faults: u64,
    pub full: u64,
}

/// The counts of a disk.
pub fn failures_of<D: SharedDisk>(disk: &D) -> Failures
    ensures { result ≡ record { faults = (D.state disk.now).faults; full = (D.state disk.now).full } }
{
    Failures {
        faults: disk.faults(),
        full: disk.full(),
    }
}

/// Whether a count rose, or stands at its end.
fn has_risen(before: u64, now: u64) -> bool
    ensures { result ≡ has_risen before now }
{
    before.saturating_add(1) <= now
}

/// Whether one of the counts rose, or stands at its end.
pub fn have_risen(before: Failures, now: Failures) -> bool
    ensures { result ≡ have_risen before now }
{
    has_risen(before.faults, now.faults) || has_risen(before.full, now.full)
}
