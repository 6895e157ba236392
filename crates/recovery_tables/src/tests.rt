ghost use Rattle.std.specs.Prelude.{◌≡◌, ◌≤◌, ◌<◌};
ghost use Rattle.part_image.specs.Undo.{IsTxnSlot};
ghost use Rattle.redo_record.specs.Redo.{IsHeadChange, IsUndoChange};

use base_types::{BlockNo, InstNo, Layout, RedoAt, Scn, Value, Xid};
use recovery::{NextBack, next_back};
use redo_types::{HeadChange, ItlSlot, TxnSlot, TxnState, UndoChange, UndoRecord};
use std::alloc::Global;
use std::process::Abort;
use std::test::Fail;
use undo_segment::Segment;

// The segment of instance 0 has its header in block 60 and its undo blocks in 61 and 62; that of instance 1 has 63, 64
// and 65. Each has places for eight undo records.
const LAYOUT: Layout = Layout {
    instances: 2,
    blocks: 60,
    undo: 8,
};

const UNUSED: ItlSlot = ItlSlot {
    xid: Xid {
        seg: InstNo(0),
        slot: 0,
        wrap: 0,
    },
    seq: 0,
};

// The slot of a transaction under way whose first undo record is 1, by the last one that stands, 0 for none.
fn under_way(wrap: u32, last: u64) -> TxnSlot
    requires { 2 ≤ wrap }
    ensures { IsTxnSlot result }
{
    TxnSlot {
        wrap,
        state: TxnState::Active,
        first: 1,
        last,
        scn: Scn(0),
        prev: Scn(3),
    }
}

// The slot of a transaction that ended.
fn ended(wrap: u32, committed: bool) -> TxnSlot
    requires { 2 ≤ wrap }
    ensures { IsTxnSlot result }
{
    let state = if committed {
        TxnState::Committed
    } else {
        TxnState::RolledBack
    };
    TxnSlot {
        wrap,
        state,
        first: 0,
        last: 0,
        scn: Scn(90),
        prev: Scn(3),
    }
}

// The change of a header that puts a slot.
fn head_change(block: BlockNo, slot: u8, to: TxnSlot) -> HeadChange
    requires slot { slot < 8 }
    requires to { IsTxnSlot to }
    ensures { IsHeadChange result }
{
    HeadChange {
        block,
        version: 1,
        slot,
        next: 9,
        to,
    }
}

// The change that writes the undo record with a number into an undo block: a record of the transaction in a slot and of a
// data block.
fn undo_change(block: u16, seq: u64, slot: u8, wrap: u32, of: u16) -> UndoChange
    requires seq { 1 ≤ seq }
    requires slot { slot < 8 }
    requires wrap { 2 ≤ wrap }
    ensures is { IsUndoChange result }
    ensures block { result.block ≡ block }
{
    UndoChange {
        block: BlockNo(block),
        version: 1,
        place: ((seq - 1) % 4) as u8,
        to: UndoRecord {
            seq,
            slot,
            itl: 1,
            row: 7,
            mine: false,
            wrap,
            block: BlockNo(of),
            version: 9,
            prev: 0,
            old_itl: UNUSED,
            old: Value::Num(-4),
        },
    }
}

// Puts a slot of a segment.
fn put_slot(rt: &impl Abort, own: &mut Segment, slot: u8, to: TxnSlot)
    requires slot { slot < 8 }
    requires to { IsTxnSlot to }
{
    assert!(rt; own.header().version() < u64::MAX);
    let change = head_change(own.header().number(), slot, to);
    own.apply_head(&change, Scn(99), RedoAt(300));
}

// Puts a transaction under way into a slot, by its last undo record that stands, 0 for none.
fn put_under_way(rt: &impl Abort, own: &mut Segment, slot: u8, wrap: u32, last: u64) {
    assert!(rt; slot < 8);
    assert!(rt; wrap >= 2);
    put_slot(rt, own, slot, under_way(wrap, last));
}

// Puts a transaction that ended into a slot.
fn put_ended(rt: &impl Abort, own: &mut Segment, slot: u8, wrap: u32, committed: bool) {
    assert!(rt; slot < 8);
    assert!(rt; wrap >= 2);
    put_slot(rt, own, slot, ended(wrap, committed));
}

// The place in the ring of the undo block that has the place of an undo record.
fn ring_place(seq: u64) -> u8
    requires { 1 ≤ seq }
    ensures { result < 2 }
{
    if (seq - 1) % 8 < 4 { 0 } else { 1 }
}

// Writes the undo record with a number: one of the transaction in a slot and of a data block.
fn put_record(rt: &impl Abort, own: &mut Segment, seq: u64, slot: u8, wrap: u32, of: u16) {
    assert!(rt; seq >= 1);
    assert!(rt; slot < 8);
    assert!(rt; wrap >= 2);
    let k = ring_place(seq);
    let head = own.header().number().get();
    assert!(rt; head < 100);
    assert!(rt; own.undo_len() == 8);
    assert!(rt; own.block(k).version() < u64::MAX);
    let change = undo_change(head + 1 + u16::from(k), seq, slot, wrap, of);
    own.apply_undo(&change, Scn(99), RedoAt(200));
}

fn xid(seg: u8, slot: u8, wrap: u32) -> Xid {
    Xid {
        seg: InstNo(seg),
        slot,
        wrap,
    }
}

// The transaction of instance 1 in slot 2.
fn me() -> Xid {
    xid(1, 2, 5)
}

// The segments of both instances, as new.
fn segments(alloc: Global) -> Result<[Segment; 2], Fail> {
    let first = Segment::new(alloc, &LAYOUT, InstNo(0))?;
    let second = Segment::new(alloc, &LAYOUT, InstNo(1))?;
    Ok([first, second])
}

// The segment of instance 1 alone, as new.
fn alone(alloc: Global) -> Result<[Segment; 1], Fail> {
    let own = Segment::new(alloc, &LAYOUT, InstNo(1))?;
    Ok([own])
}

#[test]
fn without_a_transaction_under_way_nothing_is_left(rt: HostRuntime) -> Result<(), Fail> {
    let none = Vec::new(rt.alloc());
    assert_eq!(rt; next_back(none.as_slice()), NextBack::Nothing);
    let mut both = segments(rt.alloc())?;
    assert_eq!(rt; next_back(&both), NextBack::Nothing);
    put_ended(&rt, &mut both[1], 2, 5, true);
    put_ended(&rt, &mut both[1], 6, 4, false);
    put_record(&rt, &mut both[1], 3, 2, 5, 17);
    assert_eq!(rt; next_back(&both), NextBack::Nothing);
    Ok(())
}

#[test]
fn the_last_record_that_stands_is_next(rt: HostRuntime) -> Result<(), Fail> {
    // The last undo record of the transaction; the number, the slot and the wrap of the one that is written, which is of
    // data block 17; what is next.
    for (last, (seq, slot, wrap), want) in [
        (0, (3, 2, 5), NextBack::End(me())),
        (3, (3, 2, 5), NextBack::Change(me(), BlockNo(17))),
        (8, (8, 2, 5), NextBack::Change(me(), BlockNo(17))),
        (11, (11, 2, 5), NextBack::Change(me(), BlockNo(17))),
        (3, (3, 6, 5), NextBack::Bad(me())),
        (3, (3, 2, 4), NextBack::Bad(me())),
        (3, (11, 2, 5), NextBack::Bad(me())),
        (3, (4, 2, 5), NextBack::Bad(me())),
        (3, (7, 2, 5), NextBack::Bad(me())),
    ] {
        let mut one = alone(rt.alloc())?;
        put_under_way(&rt, &mut one[0], 2, 5, last);
        put_record(&rt, &mut one[0], seq, slot, wrap, 17);
        assert_eq!(rt; next_back(&one), want);
    }
    Ok(())
}

#[test]
fn the_lowest_slot_is_next(rt: HostRuntime) -> Result<(), Fail> {
    let mut one = alone(rt.alloc())?;
    put_under_way(&rt, &mut one[0], 6, 4, 1);
    put_record(&rt, &mut one[0], 1, 6, 4, 16);
    put_under_way(&rt, &mut one[0], 2, 5, 2);
    put_record(&rt, &mut one[0], 2, 2, 5, 17);
    put_under_way(&rt, &mut one[0], 7, 9, 0);
    // The slot whose transaction ends, and what is next then.
    for (slot, want) in [
        (0, NextBack::Change(xid(1, 2, 5), BlockNo(17))),
        (2, NextBack::Change(xid(1, 6, 4), BlockNo(16))),
        (6, NextBack::End(xid(1, 7, 9))),
        (7, NextBack::Nothing),
    ] {
        put_ended(&rt, &mut one[0], slot, 5, false);
        assert_eq!(rt; next_back(&one), want);
    }
    Ok(())
}

#[test]
fn the_first_segment_is_next(rt: HostRuntime) -> Result<(), Fail> {
    let mut both = segments(rt.alloc())?;
    put_under_way(&rt, &mut both[1], 0, 2, 1);
    put_record(&rt, &mut both[1], 1, 0, 2, 16);
    let second = NextBack::Change(xid(1, 0, 2), BlockNo(16));
    assert_eq!(rt; next_back(&both), second);
    put_under_way(&rt, &mut both[0], 7, 5, 4);
    assert_eq!(rt; next_back(&both), NextBack::Bad(xid(0, 7, 5)));
    put_record(&rt, &mut both[0], 4, 7, 5, 17);
    assert_eq!(rt;
        next_back(&both),
        NextBack::Change(xid(0, 7, 5), BlockNo(17))
    );
    put_under_way(&rt, &mut both[0], 7, 5, 0);
    assert_eq!(rt; next_back(&both), NextBack::End(xid(0, 7, 5)));
    put_ended(&rt, &mut both[0], 7, 5, false);
    assert_eq!(rt; next_back(&both), second);
    Ok(())
}
