ghost use Rattle.std.specs.Prelude.{◌≡◌, ◌≤◌, ◌<◌, ◌+◌, ◌%◌, ◌^◌};
ghost use Rattle.part_image.specs.Undo.{IsUndoRecord};
ghost use Rattle.undo_image.specs.Header.{slot_at};
ghost use Rattle.txn_engine.specs.Change.{change_record, first_after, head_made, holds, kind_of, prev_after, row_made, slot_after, stood_last, undo_change, undo_made};
ghost use Rattle.txn_engine.specs.Parts.{undo_block_at};

use crate::ask::{ChangeAsk, Wish};
use crate::parts::{data_change, head_change, undo_block_at};
use base_types::{RowNo, Scn, Value, Xid};
use block_image::DataBlock;
use redo_types::{
    HeadChange, ItlSlot, Redo, RedoKind, RowChange, TxnSlot, TxnState, UndoChange, UndoRecord,
};
use txn_slots::{is_own, locker};
use undo_image::{UndoBlock, UndoHeader};
use undo_segment::Segment;

/// What a change or a lock of a row is made by.
#[derive(Clone, Copy, Debug)]
pub struct Plan {
    pub xid: Xid,
    /// The number of its ITL slot, 1 to 4.
    pub itl: u8,
    /// Whether the ITL slot is taken anew.
    pub fresh: bool,
    /// What the row holds afterwards.
    pub value: Value,
}

/// The number of a row in its block, 0 to 7.
pub(crate) fn row_in_block(row: RowNo) -> u8
    ensures value { result ≡ row % 8 }
    ensures few { result < 8 }
{
    (row.get() % 8) as u8
}

/// The record of a change or a lock with this SCN.
#[tactic(auto, unfolding(crate::specs::Change::change_record))]
pub(crate) fn change_record(
    ask: &ChangeAsk,
    plan: &Plan,
    image: &DataBlock,
    segment: &Segment,
    scn: Scn,
) -> Redo
    requires slot { plan.now.xid.slot < 8 }
    requires some_itl { 1 ≤ plan.now.itl }
    requires itl { plan.now.itl ≤ 4 }
    requires head { segment.now.head.front.version < 2 ^ 63 }
    requires next { segment.now.head.front.next < 2 ^ 63 }
    requires some_next { 1 ≤ segment.now.head.front.next }
    requires undo { (undo_block_at segment.now segment.now.head.front.next).front.version < 2 ^ 63 }
    requires image { image.now.front.version < 2 ^ 63 }
    ensures { result ≡ change_record ask.now plan.now image.now segment.now scn }
{
    let head = segment.header();
    let next = head.next();
    let undo = undo_made(ask, plan, image, head);
    Redo {
        kind: kind_of(&ask.wish),
        xid: plan.xid,
        scn,
        seq: next,
        head: head_made(ask, plan, head),
        undo: Some(undo_change(undo_block_at(segment, next), &undo)),
        row: Some(data_change(image, &row_made(ask, plan, next))),
    }
}

fn kind_of(wish: &Wish) -> RedoKind
    ensures { result ≡ kind_of wish.now }
{
    match wish {
        Wish::Lock => RedoKind::Lock,
        Wish::Put(_) | Wish::Add(_) | Wish::Del => RedoKind::Change,
    }
}

// What the change does to the header of its segment.
fn head_made(ask: &ChangeAsk, plan: &Plan, head: &UndoHeader) -> HeadChange
    requires slot { plan.now.xid.slot < 8 }
    requires head { head.now.front.version < 2 ^ 63 }
    requires next { head.now.front.next < 2 ^ 63 }
    ensures { result ≡ head_made ask.now plan.now head.now }
{
    let next = head.next();
    let to = slot_after(&ask.own, &head.slot(plan.xid.slot), plan.xid.wrap, next);
    head_change(head, plan.xid.slot, next + 1, to)
}

// The slot of a transaction after a change with this undo record.
#[tactic(auto, unfolding(crate::specs::Change::slot_after))]
fn slot_after(own: &Option<Xid>, slot: &TxnSlot, wrap: u32, next: u64) -> TxnSlot
    ensures { result ≡ slot_after own.now slot.now wrap next }
{
    TxnSlot {
        wrap,
        state: TxnState::Active,
        first: first_after(own, slot, next),
        last: next,
        scn: Scn(0),
        prev: prev_after(own, slot),
    }
}

fn first_after(own: &Option<Xid>, slot: &TxnSlot, next: u64) -> u64
    ensures { result ≡ first_after own.now slot.now next }
{
    match own {
        None => next,
        Some(_) => slot.first,
    }
}

fn prev_after(own: &Option<Xid>, slot: &TxnSlot) -> Scn
    ensures { result ≡ prev_after own.now slot.now }
{
    match own {
        None => slot.scn,
        Some(_) => slot.prev,
    }
}

fn stood_last(own: &Option<Xid>, slot: &TxnSlot) -> u64
    ensures { result ≡ stood_last own.now slot.now }
{
    match own {
        None => 0,
        Some(_) => slot.last,
    }
}

// Whether a transaction holds a row, as the row's lock byte tells.
fn holds(xid: &Xid, image: &DataBlock, row: u8) -> bool
    requires { row < 8 }
    ensures { result ≡ holds xid.now image.now row }
{
    is_own(&locker(image, row), xid)
}

// What was before the change.
#[tactic(auto, unfolding(crate::specs::Change::undo_made))]
fn undo_made(ask: &ChangeAsk, plan: &Plan, image: &DataBlock, head: &UndoHeader) -> UndoRecord
    requires slot { plan.now.xid.slot < 8 }
    requires some_itl { 1 ≤ plan.now.itl }
    requires itl { plan.now.itl ≤ 4 }
    requires image { image.now.front.version < 2 ^ 63 }
    ensures { result ≡ undo_made ask.now plan.now image.now head.now }
{
    let row = row_in_block(ask.row);
    UndoRecord {
        seq: head.next(),
        slot: plan.xid.slot,
        itl: plan.itl,
        row,
        mine: holds(&plan.xid, image, row),
        wrap: plan.xid.wrap,
        block: image.number(),
        version: image.version() + 1,
        prev: stood_last(&ask.own, &head.slot(plan.xid.slot)),
        old_itl: image.itl(plan.itl),
        old: image.row(row),
    }
}

// An undo record is written into its undo block, which has one version more.
#[tactic(auto, unfolding(crate::specs::Change::undo_change))]
fn undo_change(block: &UndoBlock, undo: &UndoRecord) -> UndoChange
    requires version { block.now.front.version < 2 ^ 63 }
    ensures { result ≡ undo_change block.now undo.now }
{
    UndoChange {
        block: block.number(),
        version: block.version() + 1,
        place: (undo.seq.saturating_sub(1) % 4) as u8,
        to: *undo,
    }
}

// What the change does to the row.
#[tactic(auto, unfolding(crate::specs::Change::row_made))]
fn row_made(ask: &ChangeAsk, plan: &Plan, seq: u64) -> RowChange
    ensures { result ≡ row_made ask.now plan.now seq }
{
    RowChange {
        row: row_in_block(ask.row),
        lock: plan.itl,
        itl: plan.itl,
        fresh: plan.fresh,
        slot: ItlSlot { xid: plan.xid, seq },
        value: plan.value,
    }
}
