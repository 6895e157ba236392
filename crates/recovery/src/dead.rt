ghost use Rattle.std.specs.Prelude.{◌≡◌, ◌<◌, IfSome};
ghost use Rattle.recovery.specs.Dead.{back_by, back_of, first_active, is_active, next_back};

use base_types::{BlockNo, Xid};
use undo_image::{TxnSlot, TxnState, UndoHeader};
use undo_segment::{Fetch, Segment};

/// What is to be rolled back next of the transactions of lost instances.
#[derive(Clone, Copy, Debug, PartialEq, Eq)]
pub enum NextBack {
    /// No transaction is under way.
    Nothing,
    /// The last undo record of this transaction that stands, which is of this data block.
    Change(Xid, BlockNo),
    /// Nothing but the end of this transaction, whose undo records are all taken back.
    End(Xid),
    /// The place of the last undo record of this transaction doesn't hold that record, which comes of no run.
    Bad(Xid),
}

/// What is to be rolled back next: of the first segment in which a transaction is under way, the one in the lowest slot.
pub fn next_back(segments: &[Segment]) -> NextBack
    ensures { result ≡ next_back segments.now }
{
    for segment in segments {
        if let Some(place) = first_active(segment.header()) {
            return back_of(segment, place as u8);
        }
    }
    NextBack::Nothing
}

// The lowest slot whose transaction is under way.
fn first_active(head: &UndoHeader) -> Option<usize>
    ensures place { result ≡ first_active head.now }
    ensures within { IfSome result (λ place. place < 8) }
{
    slots_of(head).iter().position(|slot| is_active(slot.state))
}

fn slots_of(head: &UndoHeader) -> [TxnSlot; 8]
    ensures { result ≡ head.now.slots }
{
    head.always_is_header();
    [
        head.slot(0),
        head.slot(1),
        head.slot(2),
        head.slot(3),
        head.slot(4),
        head.slot(5),
        head.slot(6),
        head.slot(7),
    ]
}

fn is_active(state: TxnState) -> bool
    ensures { result ≡ is_active state }
{
    match state {
        TxnState::Active => true,
        TxnState::Never | TxnState::Committed | TxnState::RolledBack => false,
    }
}

// What is to be rolled back next of the transaction in this slot.
fn back_of(segment: &Segment, place: u8) -> NextBack
    requires { place < 8 }
    ensures { result ≡ back_of segment.now place }
{
    let head = segment.header();
    let slot = head.slot(place);
    let xid = Xid {
        seg: head.seg(),
        slot: place,
        wrap: slot.wrap,
    };
    if slot.last == 0 {
        NextBack::End(xid)
    } else {
        back_by(&xid, &segment.fetch_own(slot.last))
    }
}

// What is to be rolled back next of a transaction, by what stands in the place of its last undo record.
fn back_by(xid: &Xid, found: &Fetch) -> NextBack
    ensures { result ≡ back_by xid.now found.now }
{
    match found {
        Fetch::Has(undo) if undo.slot == xid.slot && undo.wrap == xid.wrap => {
            NextBack::Change(*xid, undo.block)
        }
        _ => NextBack::Bad(*xid),
    }
}
