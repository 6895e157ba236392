ghost use Rattle.std.specs.Prelude.{◌≡◌, ◌≤◌, ◌<◌, ◌+◌, ◌%◌, ◌^◌, true, Ok, Some, IfOk};
ghost use Rattle.part_image.specs.Slots.{IsValue};
ghost use Rattle.block_image.specs.Block.{BlockContent, row_at};
ghost use Rattle.undo_segment.specs.Segment.{SegmentState, look};
ghost use Rattle.txn_slots.specs.Choice.{choose_slot};
ghost use Rattle.undo_segment.specs.Begin.{room};
ghost use Rattle.txn_slots.specs.Lock.{lock_row, released_at};
ghost use Rattle.txn_engine.specs.declared.ask.Decision.TheVariants.{Do};
ghost use Rattle.txn_engine.specs.Change.{IfDo, change_record, change_decision, free_decision, is_lock, is_within_limits, late_decision, lock_decision, may_wait, number_of, own_or_next, released_decision, room_decision, slot_decision, sum_of, txn_decision, value_after, value_decision};
ghost use Rattle.txn_engine.specs.Parts.{FitsBoth};

use crate::ask::{ChangeAsk, Decision, Wish};
use crate::limits::{has_row, may_go_on, may_rise};
use crate::made::{Plan, change_record, row_in_block};
use crate::parts::{always_is_block, undo_block_at};
use base_types::{InstNo, Scn, Value, Xid};
use block_image::DataBlock;
use journal::Cause;
use scn_clock::Clock;
use txn_slots::{LockAnswer, Released, SlotAnswer, choose_slot, lock_row};
use undo_segment::{Handed, Segment};

/// Decides a change or a lock of a row on an image of its block, on the own segment, and on what was handed in
/// of others. `on_disk` is an SCN up to which each own record is on the disk.
///
/// `Bad` comes first, where what is at hand is such that no run leaves it. Then comes who holds the row, then the
/// causes of a refusal in their order: overflow, no transaction slot, no ITL slot, no undo.
pub fn decide_change(
    ask: &ChangeAsk,
    image: &DataBlock,
    segment: &Segment,
    handed: &Handed,
    clock: &Clock,
    on_disk: Scn,
) -> Decision
    ensures decided { result ≡ change_decision ask.now image.now segment.now handed.now clock.now on_disk }
    ensures fits { IfDo result (FitsBoth segment.now image.now) }
{
    if !is_within_limits(ask, image, segment, clock) {
        return Decision::Bad;
    }
    let answer = lock_row(image, row_in_block(ask.row), &ask.own, segment, handed);
    lock_decision(&answer, ask, image, segment, handed, clock, on_disk)
}

// Whether no number of what is at hand is at its limit, the image is of the row's block, and the transaction, if
// there is one, is under way.
fn is_within_limits(ask: &ChangeAsk, image: &DataBlock, segment: &Segment, clock: &Clock) -> bool
    ensures { result ≡ is_within_limits ask.now image.now segment.now clock.now }
{
    let head = segment.header();
    head.always_is_header();
    let undo = undo_block_at(segment, head.next());
    has_row(image, ask.row)
        && may_go_on(head, &ask.own)
        && may_rise(clock.scn.get())
        && may_rise(image.version())
        && may_rise(head.version())
        && may_rise(head.next())
        && may_rise(undo.version())
}

fn lock_decision(
    answer: &LockAnswer,
    ask: &ChangeAsk,
    image: &DataBlock,
    segment: &Segment,
    handed: &Handed,
    clock: &Clock,
    on_disk: Scn,
) -> Decision
    requires limits { is_within_limits ask.now image.now segment.now clock.now ≡ true }
    ensures decided { result ≡ lock_decision answer.now ask.now image.now segment.now handed.now clock.now on_disk }
    ensures fits { IfDo result (FitsBoth segment.now image.now) }
{
    match answer {
        LockAnswer::Need(wanted) => Decision::Need(*wanted),
        LockAnswer::Held(xid) => Decision::Refuse(Cause::Busy { xid: *xid }),
        LockAnswer::Mine if is_lock(&ask.wish) => Decision::AlreadyMine,
        LockAnswer::Mine => free_decision(ask, image, segment, handed, clock),
        LockAnswer::Free(released) => {
            released_decision(released, ask, image, segment, handed, clock, on_disk)
        }
    }
}

fn is_lock(wish: &Wish) -> bool
    ensures { result ≡ is_lock wish.now }
{
    match wish {
        Wish::Lock => true,
        Wish::Put(_) | Wish::Add(_) | Wish::Del => false,
    }
}

fn released_decision(
    released: &Released,
    ask: &ChangeAsk,
    image: &DataBlock,
    segment: &Segment,
    handed: &Handed,
    clock: &Clock,
    on_disk: Scn,
) -> Decision
    requires limits { is_within_limits ask.now image.now segment.now clock.now ≡ true }
    ensures decided { result ≡ released_decision released.now ask.now image.now segment.now handed.now clock.now on_disk }
    ensures fits { IfDo result (FitsBoth segment.now image.now) }
{
    if released.at().get() > ask.snapshot.get() {
        late_decision(released, segment.header().seg(), on_disk)
    } else {
        free_decision(ask, image, segment, handed, clock)
    }
}

fn late_decision(released: &Released, seg: InstNo, on_disk: Scn) -> Decision
    ensures decided { result ≡ late_decision released.now seg on_disk }
    ensures fits { (segment : SegmentState) (image : BlockContent) → IfDo result (FitsBoth segment image) }
{
    if released.at().get() > on_disk.get() && may_wait(released, seg) {
        Decision::ForceFirst
    } else {
        Decision::Restart(released.at())
    }
}

// Whether an end of which an answer tells may wait for the disk.
fn may_wait(released: &Released, seg: InstNo) -> bool
    ensures { result ≡ may_wait released.now seg }
{
    match released {
        Released::Exactly { xid, .. } => xid.seg.get() == seg.get(),
        Released::Below(_) => true,
    }
}

fn free_decision(
    ask: &ChangeAsk,
    image: &DataBlock,
    segment: &Segment,
    handed: &Handed,
    clock: &Clock,
) -> Decision
    requires limits { is_within_limits ask.now image.now segment.now clock.now ≡ true }
    ensures decided { result ≡ free_decision ask.now image.now segment.now handed.now clock.now }
    ensures fits { IfDo result (FitsBoth segment.now image.now) }
{
    match value_after(&ask.wish, image.row(row_in_block(ask.row))) {
        Ok(value) => match own_or_next(&ask.own, segment) {
            Some(xid) => slot_decision(ask, &xid, value, image, segment, handed, clock),
            None => Decision::Refuse(Cause::NoTxnSlot {
                inst: segment.header().seg(),
            }),
        },
        Err(cause) => Decision::Refuse(cause),
    }
}

// What a row holds after a change, or why the change is refused.
fn value_after(wish: &Wish, found: Value) -> Result<Value, Cause>
    ensures value { result ≡ value_after wish.now found }
    ensures is_value { IfOk result IsValue }
{
    always_is_value(found);
    match wish {
        Wish::Put(value) => put_value(*value),
        Wish::Add(by) => sum_of(number_of(found), *by),
        Wish::Del => Ok(Value::Absent),
        Wish::Lock => Ok(found),
    }
}

fn put_value(value: Value) -> Result<Value, Cause>
    ensures value { result ≡ Ok value }
    ensures is_value { IfOk result IsValue }
{
    always_is_value(value);
    Ok(value)
}

// A law: what a row holds has 64 bits.
fn always_is_value(value: Value)
    ensures { IsValue value }
{
    if let Value::Num(_number) = value {}
}

fn number_of(found: Value) -> i64
    ensures { result ≡ number_of found }
{
    match found {
        Value::Absent => 0,
        Value::Num(number) => number,
    }
}

// A row that an addition leaves, or why it is refused.
fn sum_of(found: i64, by: i64) -> Result<Value, Cause>
    ensures value { result ≡ sum_of found by }
    ensures is_value { IfOk result IsValue }
{
    match found.checked_add(by) {
        Some(sum) => Ok(Value::Num(sum)),
        None => Err(Cause::Overflow { found, by }),
    }
}

// The transaction of the change: the own one, or the next of the segment.
fn own_or_next(own: &Option<Xid>, segment: &Segment) -> Option<Xid>
    ensures { result ≡ own_or_next own.now segment.now }
{
    match own {
        Some(xid) => Some(*xid),
        None => segment.begin(),
    }
}

fn slot_decision(
    ask: &ChangeAsk,
    xid: &Xid,
    value: Value,
    image: &DataBlock,
    segment: &Segment,
    handed: &Handed,
    clock: &Clock,
) -> Decision
    requires limits { is_within_limits ask.now image.now segment.now clock.now ≡ true }
    requires xid { own_or_next ask.now.own segment.now ≡ Some xid.now }
    requires value { IsValue value }
    ensures decided { result ≡ slot_decision (choose_slot ask.now.own (look segment.now handed.now) image.now.itl) ask.now xid.now value image.now segment.now clock.now }
    ensures fits { IfDo result (FitsBoth segment.now image.now) }
{
    match choose_slot(image, &ask.own, segment, handed) {
        SlotAnswer::Need(wanted) => Decision::Need(wanted),
        SlotAnswer::NoItl(holders) => Decision::Refuse(Cause::NoItl {
            block: image.number(),
            holders,
        }),
        SlotAnswer::Take { itl, fresh } => {
            let plan = Plan {
                xid: *xid,
                itl,
                fresh,
                value,
            };
            room_decision(ask, &plan, image, segment, clock)
        }
    }
}

fn room_decision(
    ask: &ChangeAsk,
    plan: &Plan,
    image: &DataBlock,
    segment: &Segment,
    clock: &Clock,
) -> Decision
    requires limits { is_within_limits ask.now image.now segment.now clock.now ≡ true }
    requires xid { own_or_next ask.now.own segment.now ≡ Some plan.now.xid }
    requires some_itl { 1 ≤ plan.now.itl }
    requires itl { plan.now.itl ≤ 4 }
    requires value { IsValue plan.now.value }
    ensures decided { result ≡ room_decision (room segment.now) ask.now plan.now image.now segment.now clock.now }
    ensures fits { IfDo result (FitsBoth segment.now image.now) }
{
    match segment.room() {
        Ok(_next) => made(ask, plan, image, segment, clock),
        Err(full) => Decision::Refuse(Cause::NoUndo {
            first: full.first,
            next: full.next,
        }),
    }
}

// The record of a change or a lock, once nothing is in its way.
fn made(
    ask: &ChangeAsk,
    plan: &Plan,
    image: &DataBlock,
    segment: &Segment,
    clock: &Clock,
) -> Decision
    requires limits { is_within_limits ask.now image.now segment.now clock.now ≡ true }
    requires xid { own_or_next ask.now.own segment.now ≡ Some plan.now.xid }
    requires some_itl { 1 ≤ plan.now.itl }
    requires itl { plan.now.itl ≤ 4 }
    requires value { IsValue plan.now.value }
    ensures decided { result ≡ Do (change_record ask.now plan.now image.now segment.now (clock.now.scn + 1)) }
    ensures fits { IfDo result (FitsBoth segment.now image.now) }
{
    segment.always_is_segment();
    let head = segment.header();
    head.always_is_header();
    always_is_block(image);
    let _undo = undo_block_at(segment, head.next());
    let scn = Scn(clock.scn.get() + 1);
    Decision::Do(change_record(ask, plan, image, segment, scn))
}
