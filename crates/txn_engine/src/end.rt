ghost use Rattle.std.specs.Prelude.{◌≡◌, ◌+◌, ◌<◌, ◌^◌, IfSome};
ghost use Rattle.undo_image.specs.Header.{slot_at};
ghost use Rattle.txn_engine.specs.Parts.{FitsSegment};
ghost use Rattle.txn_engine.specs.End.{allows_end, end_decision, end_record, ended_slot, kind_of_end, may_end, state_after};

use crate::limits::{is_under_way, may_rise};
use crate::parts::head_change;
use base_types::{Scn, Xid};
use redo_types::{Redo, RedoKind, TxnSlot, TxnState};
use scn_clock::Clock;
use undo_image::UndoHeader;
use undo_segment::Segment;

/// How a transaction ends.
#[derive(Clone, Copy, Debug, PartialEq, Eq)]
pub enum EndKind {
    Commit,
    /// The end of a whole rollback.
    RollbackEnd,
}

/// The redo record of a transaction's end; `None` where it isn't under way in the segment, where its rollback
/// ends while something of it stands, or where a number is at its limit.
pub fn decide_end(xid: &Xid, end: EndKind, segment: &Segment, clock: &Clock) -> Option<Redo>
    ensures decided { result ≡ end_decision xid.now end segment.now clock.now }
    ensures fits { IfSome result (FitsSegment segment.now) }
{
    segment.always_is_segment();
    let head = segment.header();
    head.always_is_header();
    if may_end(xid, end, head, clock) {
        Some(end_record(xid, end, head, Scn(clock.scn.get() + 1)))
    } else {
        None
    }
}

fn may_end(xid: &Xid, end: EndKind, head: &UndoHeader, clock: &Clock) -> bool
    ensures { result ≡ may_end xid.now end head.now clock.now }
{
    is_under_way(head, xid)
        && allows_end(end, &head.slot(xid.slot))
        && may_rise(clock.scn.get())
        && may_rise(head.version())
}

// A whole rollback ends where nothing of the transaction stands.
fn allows_end(end: EndKind, slot: &TxnSlot) -> bool
    ensures { result ≡ allows_end end slot.now }
{
    match end {
        EndKind::Commit => true,
        EndKind::RollbackEnd => slot.last == 0,
    }
}

#[tactic(auto, unfolding(crate::specs::End::end_record))]
fn end_record(xid: &Xid, end: EndKind, head: &UndoHeader, scn: Scn) -> Redo
    requires slot { xid.now.slot < 8 }
    requires version { head.now.front.version < 2 ^ 63 }
    ensures { result ≡ end_record xid.now end head.now scn }
{
    let to = ended_slot(&head.slot(xid.slot), end, scn);
    Redo {
        kind: kind_of_end(end),
        xid: *xid,
        scn,
        seq: 0,
        head: head_change(head, xid.slot, head.next(), to),
        undo: None,
        row: None,
    }
}

// The slot of a transaction that ended at this SCN.
#[tactic(auto, unfolding(crate::specs::End::ended_slot))]
fn ended_slot(slot: &TxnSlot, end: EndKind, scn: Scn) -> TxnSlot
    ensures { result ≡ ended_slot slot.now end scn }
{
    TxnSlot {
        wrap: slot.wrap,
        state: state_after(end),
        first: 0,
        last: 0,
        scn,
        prev: slot.prev,
    }
}

fn state_after(end: EndKind) -> TxnState
    ensures { result ≡ state_after end }
{
    match end {
        EndKind::Commit => TxnState::Committed,
        EndKind::RollbackEnd => TxnState::RolledBack,
    }
}

fn kind_of_end(end: EndKind) -> RedoKind
    ensures { result ≡ kind_of_end end }
{
    match end {
        EndKind::Commit => RedoKind::Commit,
        EndKind::RollbackEnd => RedoKind::RollbackEnd,
    }
}
