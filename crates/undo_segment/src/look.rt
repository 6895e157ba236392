ghost use Rattle.std.specs.Prelude.{◌≡◌, ◌<◌, option_copied};
ghost use Rattle.undo_image.specs.Header.{slot_at};
ghost use Rattle.undo_segment.specs.Look.{is_active, look_in, told_of};

use base_types::{Scn, Xid};
use undo_image::{TxnSlot, TxnState, UndoHeader};

/// What the header of its segment tells of a transaction.
#[derive(Clone, Copy, Debug, PartialEq, Eq)]
pub enum Look {
    /// The header isn't at hand.
    Unlooked,
    /// The transaction is under way.
    Active,
    /// It ended at this SCN.
    Ended(Scn),
    /// It ended below `end`, and its slot was taken twice or more since: `found` is the slot's wrap now.
    ReusedBelow { end: Scn, found: u32 },
}

/// Whether the transaction that has the slot is under way.
pub fn is_active(state: TxnState) -> bool
    ensures { result ≡ is_active state }
{
    match state {
        TxnState::Active => true,
        TxnState::Never | TxnState::Committed | TxnState::RolledBack => false,
    }
}

// What a slot of the transaction table tells of a transaction.
fn told_of(slot: &TxnSlot, xid: &Xid) -> Look
    ensures { result ≡ told_of slot.now xid.now }
{
    if slot.wrap < xid.wrap {
        return Look::Active;
    }
    match slot.wrap - xid.wrap {
        0 if is_active(slot.state) => Look::Active,
        0 => Look::Ended(slot.scn),
        1 => Look::Ended(slot.prev),
        _ => Look::ReusedBelow {
            end: slot.prev,
            found: slot.wrap,
        },
    }
}

// What a header tells of a transaction of its segment, where it is at hand.
pub(crate) fn look_in(head: Option<&UndoHeader>, xid: &Xid) -> Look
    requires { xid.now.slot < 8 }
    ensures { result ≡ look_in (option_copied head.entry) xid.now }
{
    match head {
        None => Look::Unlooked,
        Some(head) => told_of(&head.slot(xid.slot), xid),
    }
}
