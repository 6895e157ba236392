ghost use Rattle.std.specs.Prelude.{◌≡◌, ◌<◌};
ghost use Rattle.undo_segment.specs.Segment.{look};
ghost use Rattle.txn_slots.specs.Lock.{TellsLocker, lock_by, lock_of, lock_row, locker, released_at};

use crate::slots::{is_own, locker};
use crate::wanted::Wanted;
use base_types::{Scn, Xid};
use block_image::DataBlock;
use undo_segment::{Handed, Look, Segment};

/// Since when a row is free.
#[derive(Clone, Copy, Debug, PartialEq, Eq)]
pub enum Released {
    /// Since the end of the transaction that changed or locked it last.
    Exactly { xid: Xid, end: Scn },
    /// Since this SCN or before.
    Below(Scn),
}

impl Released {
    /// The SCN at or below which the row was last let go.
    pub fn at(&self) -> Scn
        ensures { result ≡ released_at self.now }
    {
        match self {
            Released::Exactly { end, .. } => *end,
            Released::Below(bound) => *bound,
        }
    }
}

/// Who holds a row.
#[derive(Clone, Copy, Debug, PartialEq, Eq)]
pub enum LockAnswer {
    Free(Released),
    /// The transaction that asks.
    Mine,
    /// Another transaction, which is active.
    Held(Xid),
    /// It can't be told before this is at hand.
    Need(Wanted),
}

/// Who holds a row of a block, 0 to 7, as a transaction asks, or a session that began none.
pub fn lock_row(
    image: &DataBlock,
    row: u8,
    me: &Option<Xid>,
    segment: &Segment,
    handed: &Handed,
) -> LockAnswer
    requires { row < 8 }
    ensures answer { result ≡ lock_row me.now (look segment.now handed.now) image.now row }
    ensures tells { TellsLocker me.now (look segment.now handed.now) (locker image.now row) result }
{
    match locker(image, row) {
        Some(xid) => lock_of(&xid, me, segment, handed),
        None => LockAnswer::Free(Released::Below(image.scn())),
    }
}

fn lock_of(xid: &Xid, me: &Option<Xid>, segment: &Segment, handed: &Handed) -> LockAnswer
    requires { xid.now.slot < 8 }
    ensures { result ≡ lock_of me.now (look segment.now handed.now) xid.now }
{
    if is_own(me, xid) {
        LockAnswer::Mine
    } else {
        lock_by(xid, segment.look(handed, xid))
    }
}

fn lock_by(xid: &Xid, look: Look) -> LockAnswer
    ensures { result ≡ lock_by xid.now look }
{
    match look {
        Look::Unlooked => LockAnswer::Need(Wanted::Head(xid.seg)),
        Look::Active => LockAnswer::Held(*xid),
        Look::Ended(end) => LockAnswer::Free(Released::Exactly { xid: *xid, end }),
        Look::ReusedBelow { end, .. } => LockAnswer::Free(Released::Below(end)),
    }
}
