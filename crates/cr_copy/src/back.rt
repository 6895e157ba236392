ghost use Rattle.std.specs.Prelude.{◌≡◌, ◌<◌, ◌≤◌, true, Ok};
ghost use Rattle.undo_segment.specs.Segment.{look};
ghost use Rattle.cr_copy.specs.Copy.{back_by, goes_back};

use crate::made::Halt;
use base_types::{Scn, Xid};
use block_image::ItlSlot;
use journal::Cause;
use txn_slots::{Wanted, is_own};
use undo_segment::{Handed, Look, Segment};

/// Whether the newest change of an ITL slot is taken back for a reader at an SCN: its transaction is the reader's own,
/// or isn't visible there.
pub fn goes_back(
    slot: &ItlSlot,
    snapshot: Scn,
    me: &Option<Xid>,
    segment: &Segment,
    handed: &Handed,
) -> Result<bool, Halt>
    requires { slot.now.xid.slot < 8 }
    ensures value { result ≡ goes_back snapshot me.now (look segment.now handed.now) slot.now }
    ensures used { result ≡ Ok true → 1 ≤ slot.now.xid.wrap }
{
    if slot.xid.wrap == 0 {
        return Ok(false);
    }
    if is_own(me, &slot.xid) {
        return Ok(true);
    }
    back_by(snapshot, &slot.xid, segment.look(handed, &slot.xid))
}

fn back_by(snapshot: Scn, xid: &Xid, look: Look) -> Result<bool, Halt>
    ensures { result ≡ back_by snapshot xid.now look }
{
    match look {
        Look::Unlooked => Err(Halt::Need(Wanted::Head(xid.seg))),
        Look::Active => Ok(true),
        Look::Ended(end) => Ok(snapshot.get() < end.get()),
        Look::ReusedBelow { end, found } => {
            if snapshot.get() < end.get() {
                Err(Halt::TooOld(Cause::OldSlot { xid: *xid, found }))
            } else {
                Ok(false)
            }
        }
    }
}
