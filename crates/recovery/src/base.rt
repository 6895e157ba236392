ghost use Rattle.std.specs.Prelude.{◌≡◌, ◌<◌, IfSome};
ghost use Rattle.recovery.specs.Base.{are_up_to, chosen_base, is_newest, is_up_to, newest_past};

use base_types::InstNo;

/// The image that a block is rebuilt from.
#[derive(Clone, Copy, Debug, PartialEq, Eq)]
pub enum Base {
    Disk,
    /// The past image of this instance.
    Past(InstNo),
}

/// The newest of the disk's image, by its version, and the past images, by the version of each instance's. Of equal ones
/// it is the disk's, and then that of the lowest instance.
pub fn choose_base(disk: u64, pasts: &[Option<u64>; 8]) -> Base
    ensures { result ≡ chosen_base disk pasts.now }
{
    if are_up_to(disk, pasts) {
        return Base::Disk;
    }
    match newest_past(pasts) {
        None => Base::Disk,
        Some(inst) => Base::Past(inst),
    }
}

/// The instance with the newest past image, by the version of each instance's; of several the lowest.
pub fn newest_past(pasts: &[Option<u64>; 8]) -> Option<InstNo>
    ensures { result ≡ newest_past pasts.now }
{
    let place = newest_place(pasts)?;
    Some(InstNo(place as u8))
}

fn newest_place(pasts: &[Option<u64>; 8]) -> Option<usize>
    ensures place { result ≡ newest_past pasts.now }
    ensures within { IfSome result (λ place. place < 8) }
{
    pasts.iter().position(|past| is_newest(pasts, past))
}

// Whether this is a past image, and none is newer.
fn is_newest(pasts: &[Option<u64>; 8], past: &Option<u64>) -> bool
    ensures { result ≡ is_newest pasts.now past.now }
{
    match past {
        None => false,
        Some(version) => are_up_to(*version, pasts),
    }
}

// Whether no past image is newer than a version.
fn are_up_to(version: u64, pasts: &[Option<u64>; 8]) -> bool
    ensures { result ≡ are_up_to version pasts.now }
{
    pasts.iter().all(|past| is_up_to(version, past))
}

fn is_up_to(version: u64, past: &Option<u64>) -> bool
    ensures { result ≡ is_up_to version past.now }
{
    match past {
        None => true,
        Some(past) => *past <= version,
    }
}
