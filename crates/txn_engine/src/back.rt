ghost use Rattle.std.specs.Prelude.{◌≡◌, ◌≤◌, ◌<◌, ◌+◌, ◌^◌, ◌==◌, not, true, IfSome};
ghost use Rattle.std.specs.List.{list_all};
ghost use Rattle.part_image.specs.Undo.{IsUndoRecord};
ghost use Rattle.undo_image.specs.Header.{slot_at};
ghost use Rattle.txn_engine.specs.declared.back.NextBack.TheVariants.{Undo};
ghost use Rattle.txn_engine.specs.Back.{IsGoing, IsNext, back_decision, back_of, back_record, block_of, is_undo_of, keeps_locks, lets_go, lock_back, locks_of, may_step_back, names_undo, next_back, next_of, row_back, slot_back, stands_from};
ghost use Rattle.txn_engine.specs.Limits.{is_under_way};
ghost use Rattle.txn_engine.specs.Parts.{FitsBoth};

use crate::limits::{is_data_block, is_under_way, may_rise};
use crate::parts::{always_is_block, data_change, head_change, undo_at};
use base_types::{BlockNo, Scn, Xid};
use block_image::DataBlock;
use redo_types::{Redo, RedoKind, RowChange, TxnSlot, UndoRecord};
use scn_clock::Clock;
use undo_image::UndoHeader;
use undo_segment::Segment;

/// What of a transaction is taken back next.
#[derive(Clone, Copy, Debug, PartialEq, Eq)]
pub enum NextBack {
    /// Nothing of it stands.
    Nothing,
    /// The change or the lock with this undo record.
    Undo(UndoRecord),
    /// It isn't under way, or its last undo record isn't in its place: no run leaves that.
    Bad,
}

/// In which block the next change or lock of a transaction is taken back.
#[derive(Clone, Copy, Debug, PartialEq, Eq)]
pub enum BackTo {
    /// Nothing of it stands.
    Nothing,
    Block(BlockNo),
    /// It isn't under way, or its last undo record isn't in its place: no run leaves that.
    Bad,
}

/// The redo record that takes back the last change or lock of a transaction that stands, in an image of its
/// block; `None` where there is none to be taken back, where the image isn't the one that shows it, or where a
/// number is at its limit.
pub fn decide_back(xid: &Xid, segment: &Segment, image: &DataBlock, clock: &Clock) -> Option<Redo>
    ensures decided { result ≡ back_decision xid.now segment.now image.now clock.now }
    ensures fits { IfSome result (FitsBoth segment.now image.now) }
{
    match next_back(xid, segment) {
        NextBack::Undo(undo) => back_of(xid, &undo, segment, image, clock),
        NextBack::Nothing | NextBack::Bad => None,
    }
}

fn back_of(
    xid: &Xid,
    undo: &UndoRecord,
    segment: &Segment,
    image: &DataBlock,
    clock: &Clock,
) -> Option<Redo>
    requires under_way { is_under_way segment.now.head xid.now ≡ true }
    requires undo { IsUndoRecord undo.now }
    ensures decided { result ≡ back_of (Undo undo.now) xid.now segment.now.head image.now clock.now }
    ensures fits { IfSome result (FitsBoth segment.now image.now) }
{
    segment.always_is_segment();
    let head = segment.header();
    head.always_is_header();
    always_is_block(image);
    if may_step_back(xid, undo, head, image, clock) {
        Some(back_record(xid, undo, head, image, Scn(clock.scn.get() + 1)))
    } else {
        None
    }
}

/// In which block the last change or lock of a transaction that stands is taken back.
pub fn block_to_take_back(xid: &Xid, segment: &Segment) -> BackTo
    ensures { result ≡ block_of (next_back xid.now segment.now) }
{
    match next_back(xid, segment) {
        NextBack::Nothing => BackTo::Nothing,
        NextBack::Undo(undo) => BackTo::Block(undo.block),
        NextBack::Bad => BackTo::Bad,
    }
}

/// The last undo record of a transaction that stands.
pub fn next_back(xid: &Xid, segment: &Segment) -> NextBack
    ensures next { result ≡ next_back xid.now segment.now }
    ensures is { IsNext result }
    ensures under_way { IsGoing segment.now.head xid.now result }
{
    let head = segment.header();
    if !is_under_way(head, xid) {
        return NextBack::Bad;
    }
    let last = head.slot(xid.slot).last;
    if last == 0 {
        return NextBack::Nothing;
    }
    next_of(xid, last, &undo_at(segment, last))
}

// What is taken back next, by what stands in the place of the last undo record.
fn next_of(xid: &Xid, seq: u64, place: &Option<UndoRecord>) -> NextBack
    requires { IfSome place.now IsUndoRecord }
    ensures next { result ≡ next_of xid.now seq place.now }
    ensures is { IsNext result }
{
    match place {
        Some(undo) if is_undo_of(xid, seq, undo) => NextBack::Undo(*undo),
        Some(_) | None => NextBack::Bad,
    }
}

// Whether an undo record is the one with this number that a transaction wrote.
fn is_undo_of(xid: &Xid, seq: u64, undo: &UndoRecord) -> bool
    ensures { result ≡ is_undo_of xid.now seq undo.now }
{
    undo.seq == seq && undo.slot == xid.slot && undo.wrap == xid.wrap
}

fn may_step_back(
    xid: &Xid,
    undo: &UndoRecord,
    head: &UndoHeader,
    image: &DataBlock,
    clock: &Clock,
) -> bool
    requires slot { xid.now.slot < 8 }
    requires undo { IsUndoRecord undo.now }
    ensures { result ≡ may_step_back xid.now undo.now head.now image.now clock.now }
{
    is_data_block(image)
        && undo.block.get() == image.number().get()
        && names_undo(image, xid, undo)
        && keeps_locks(image, undo)
        && stands_from(&head.slot(xid.slot), undo)
        && may_rise(clock.scn.get())
        && may_rise(head.version())
        && may_rise(image.version())
}

// Whether the ITL slot of an undo record names it.
fn names_undo(image: &DataBlock, xid: &Xid, undo: &UndoRecord) -> bool
    requires { IsUndoRecord undo.now }
    ensures { result ≡ names_undo image.now xid.now undo.now }
{
    let slot = image.itl(undo.itl);
    slot.xid == *xid && slot.seq == undo.seq
}

// Whether, where the ITL slot becomes one that was never used, no lock byte names it.
fn keeps_locks(image: &DataBlock, undo: &UndoRecord) -> bool
    requires { IsUndoRecord undo.now }
    ensures { result ≡ keeps_locks image.now undo.now }
{
    undo.old_itl.xid.wrap != 0 || lets_go(image, undo)
}

// Whether no lock byte names the ITL slot after a step back.
fn lets_go(image: &DataBlock, undo: &UndoRecord) -> bool
    requires { IsUndoRecord undo.now }
    ensures { result ≡ lets_go image.now undo.now }
{
    let mut locks = locks_of(image);
    locks[usize::from(undo.row)] = lock_back(image, undo);
    has_none(&locks, undo.itl)
}

// Whether no lock byte names an ITL slot.
fn has_none(locks: &[u8], itl: u8) -> bool
    ensures { result ≡ list_all (λ lock. not (lock == itl)) locks.now }
{
    locks.iter().all(|lock| *lock != itl)
}

// The lock bytes of a block.
fn locks_of(image: &DataBlock) -> [u8; 8]
    ensures { result ≡ locks_of image.now }
{
    always_is_block(image);
    [
        image.lock(0),
        image.lock(1),
        image.lock(2),
        image.lock(3),
        image.lock(4),
        image.lock(5),
        image.lock(6),
        image.lock(7),
    ]
}

// The lock byte of the row after a step back: 0, or as it stands where the transaction held the row before the
// change.
fn lock_back(image: &DataBlock, undo: &UndoRecord) -> u8
    requires { IsUndoRecord undo.now }
    ensures { result ≡ lock_back image.now undo.now }
{
    if undo.mine { image.lock(undo.row) } else { 0 }
}

// Whether what stands of a transaction after a step back is nothing, or not before its first undo record.
fn stands_from(slot: &TxnSlot, undo: &UndoRecord) -> bool
    ensures { result ≡ stands_from slot.now undo.now }
{
    undo.prev == 0 || slot.first <= undo.prev
}

#[tactic(auto, unfolding(crate::specs::Back::back_record))]
fn back_record(xid: &Xid, undo: &UndoRecord, head: &UndoHeader, image: &DataBlock, scn: Scn) -> Redo
    requires slot { xid.now.slot < 8 }
    requires undo { IsUndoRecord undo.now }
    requires head { head.now.front.version < 2 ^ 63 }
    requires image { image.now.front.version < 2 ^ 63 }
    ensures { result ≡ back_record xid.now undo.now head.now image.now scn }
{
    let to = slot_back(&head.slot(xid.slot), undo);
    Redo {
        kind: RedoKind::StepBack,
        xid: *xid,
        scn,
        seq: undo.seq,
        head: head_change(head, xid.slot, head.next(), to),
        undo: None,
        row: Some(data_change(image, &row_back(image, undo))),
    }
}

// The slot of a transaction after a step back.
#[tactic(auto, unfolding(crate::specs::Back::slot_back))]
fn slot_back(slot: &TxnSlot, undo: &UndoRecord) -> TxnSlot
    ensures { result ≡ slot_back slot.now undo.now }
{
    TxnSlot {
        last: undo.prev,
        ..*slot
    }
}

// What a step back does to the row.
#[tactic(auto, unfolding(crate::specs::Back::row_back))]
fn row_back(image: &DataBlock, undo: &UndoRecord) -> RowChange
    requires { IsUndoRecord undo.now }
    ensures { result ≡ row_back image.now undo.now }
{
    RowChange {
        row: undo.row,
        lock: lock_back(image, undo),
        itl: undo.itl,
        fresh: false,
        slot: undo.old_itl,
        value: undo.old,
    }
}
