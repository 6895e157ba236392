ghost use Rattle.std.specs.Prelude.{◌≡◌, ◌≤◌, ◌<◌};
ghost use Rattle.part_image.specs.Undo.{IsTxnSlot};
ghost use Rattle.redo_record.specs.Redo.{IsHeadChange, IsUndoChange};

use super::*;
use base_types::{BlockNo, InstNo, Layout, RedoAt, Scn, Value, Xid};
use rac_disk::{MemDisk, SharedDisk};
use redo_types::{HeadChange, ItlSlot, UndoChange};
use std::alloc::Global;
use std::process::Abort;
use std::test::Fail;
use undo_image::{TxnSlot, TxnState, UndoBlock, UndoHeader, UndoRecord};

// The segment of instance 0 has its header in block 1 and its undo blocks in 2 and 3; that of instance 1 has 4, 5 and 6.
const LAYOUT: Layout = Layout {
    instances: 2,
    blocks: 1,
    undo: 8,
};

fn active(first: u64, prev: u64) -> TxnSlot
    requires first { 1 ≤ first }
    requires prev { 1 ≤ prev }
    ensures { IsTxnSlot result }
{
    TxnSlot {
        wrap: 5,
        state: TxnState::Active,
        first,
        last: first,
        scn: Scn(0),
        prev: Scn(prev),
    }
}

fn ended(wrap: u32, end: u64, prev: u64) -> TxnSlot
    requires wrap { 2 ≤ wrap }
    requires end { 1 ≤ end }
    requires prev { 1 ≤ prev }
    ensures { IsTxnSlot result }
{
    TxnSlot {
        wrap,
        state: TxnState::Committed,
        first: 0,
        last: 0,
        scn: Scn(end),
        prev: Scn(prev),
    }
}

// A change of a header that puts a slot.
fn head_change(slot: u8, next: u64, to: TxnSlot) -> HeadChange
    requires slot { slot < 8 }
    requires next { 1 ≤ next }
    requires to { IsTxnSlot to }
    ensures { IsHeadChange result }
{
    HeadChange {
        block: BlockNo(4),
        version: 1,
        slot,
        next,
        to,
    }
}

// A change that writes the undo record with a number into a block of the segment of instance 1.
fn undo_change(block: u16, seq: u64) -> UndoChange
    requires { 1 ≤ seq }
    ensures is { IsUndoChange result }
    ensures block { result.block ≡ block }
{
    UndoChange {
        block: BlockNo(block),
        version: 1,
        place: ((seq - 1) % 4) as u8,
        to: UndoRecord {
            seq,
            slot: 2,
            itl: 1,
            row: 7,
            mine: false,
            wrap: 5,
            block: BlockNo(0),
            version: 9,
            prev: 0,
            old_itl: ItlSlot {
                xid: Xid {
                    seg: InstNo(0),
                    slot: 0,
                    wrap: 0,
                },
                seq: 0,
            },
            old: Value::Num(-4),
        },
    }
}

// Puts a slot of the segment of instance 1.
fn put_slot(rt: &impl Abort, own: &mut Segment, slot: u8, next: u64, to: TxnSlot)
    requires slot { slot < 8 }
    requires next { 1 ≤ next }
    requires to { IsTxnSlot to }
{
    assert!(rt; own.header().version() < u64::MAX);
    own.apply_head(&head_change(slot, next, to), Scn(99), RedoAt(300));
}

// Writes the undo record with a number to a block of the segment of instance 1.
fn put_record(rt: &impl Abort, own: &mut Segment, k: u8, seq: u64, at: u64)
    requires place { k < 2 }
    requires numbered { 1 ≤ seq }
{
    assert!(rt; own.undo_len() == 8);
    assert!(rt; own.header().number().get() == 4);
    assert!(rt; own.block(k).version() < u64::MAX);
    own.apply_undo(&undo_change(5 + u16::from(k), seq), Scn(99), RedoAt(at));
}

fn xid(seg: u8, slot: u8, wrap: u32) -> Xid
    ensures seg { result.seg ≡ seg }
    ensures slot { result.slot ≡ slot }
{
    Xid {
        seg: InstNo(seg),
        slot,
        wrap,
    }
}

// Puts a slot that ended at this SCN, or an active one for 0.
fn put_ended(rt: &impl Abort, own: &mut Segment, slot: u8, end: u64)
    requires { slot < 8 }
{
    if end == 0 {
        put_slot(rt, own, slot, 2, active(1, 3));
    } else {
        put_slot(rt, own, slot, 2, ended(8, end, 3));
    }
}

#[test]
fn the_least_end_begins(rt: HostRuntime) -> Result<(), Fail> {
    let mut own = Segment::new(rt.alloc(), &LAYOUT, InstNo(1))?;
    // The slot that is put, its end or 0 for an active one, and the slot and the wrap of the next transaction.
    for (slot, end, want) in [
        (0, 0, Some((1, 1))),
        (1, 70, Some((2, 1))),
        (2, 60, Some((3, 1))),
        (3, 40, Some((4, 1))),
        (4, 40, Some((5, 1))),
        (6, 30, Some((5, 1))),
        (7, 80, Some((5, 1))),
        (5, 50, Some((6, 9))),
        (6, 0, Some((3, 9))),
        (3, 0, Some((4, 9))),
        (4, 0, Some((5, 9))),
        (5, 0, Some((2, 9))),
        (2, 0, Some((1, 9))),
        (1, 0, Some((7, 9))),
        (7, 0, None),
    ] {
        assert!(rt; slot < 8);
        put_ended(&rt, &mut own, slot, end);
        let next = own.begin().map(|xid| (xid.slot, xid.wrap));
        assert_eq!(rt; next, want);
    }
    assert_eq!(rt; own.active(), 8);
    Ok(())
}

// Puts two active slots with these first undo records, and this next number.
fn put_open(rt: &impl Abort, own: &mut Segment, first: u64, other: u64, next: u64) {
    assert!(rt; first >= 1);
    assert!(rt; other >= 1);
    assert!(rt; next >= 1);
    put_slot(rt, own, 2, next, active(first, 3));
    put_slot(rt, own, 7, next, active(other, 3));
}

#[test]
fn a_ring_is_full_where_an_open_transaction_needs_its_oldest_record(
    rt: HostRuntime,
) -> Result<(), Fail> {
    let mut own = Segment::new(rt.alloc(), &LAYOUT, InstNo(1))?;
    assert_eq!(rt; own.room(), Ok(1));
    // The first undo records of two open transactions, the next number, and whether there is room for it.
    for (first, other, next, room) in [
        (1, 1, 9, Err(UndoFull { first: 1, next: 9 })),
        (2, 3, 9, Ok(9)),
        (5, 2, 10, Err(UndoFull { first: 2, next: 10 })),
        (9, 8, 4, Ok(4)),
    ] {
        put_open(&rt, &mut own, first, other, next);
        assert_eq!(rt; own.room(), room);
    }
    Ok(())
}

// Notes that a block of the segment of instance 1 was written; the earliest place since when one is dirty then.
fn clean(rt: &impl Abort, own: &mut Segment, k: u8) -> Option<RedoAt> {
    assert!(rt; own.undo_len() == 8);
    assert!(rt; k <= 2);
    own.wrote(k);
    assert!(rt; own.undo_len() == 8);
    assert!(rt; !own.is_dirty(k));
    own.first_dirty()
}

#[test]
fn eight_records_fill_two_blocks(rt: HostRuntime) -> Result<(), Fail> {
    let mut own = Segment::new(rt.alloc(), &LAYOUT, InstNo(1))?;
    // The undo block, the record, and where its redo begins.
    for (k, seq, at) in [
        (0, 1, 90),
        (0, 2, 91),
        (0, 3, 92),
        (0, 4, 93),
        (1, 5, 80),
        (1, 6, 95),
        (1, 7, 96),
        (1, 8, 97),
    ] {
        assert!(rt; k < 2);
        assert!(rt; seq >= 1);
        assert_eq!(rt; own.fetch_own(seq), Fetch::Never);
        put_record(&rt, &mut own, k, seq, at);
    }
    put_ended(&rt, &mut own, 0, 0);
    for (k, want) in [(2, Some(RedoAt(90))), (1, Some(RedoAt(300))), (0, None)] {
        assert_eq!(rt; clean(&rt, &mut own, k), want);
    }
    put_ended(&rt, &mut own, 0, 0);
    assert_eq!(rt; own.first_dirty(), Some(RedoAt(300)));
    own.forget_dirty();
    assert_eq!(rt; own.first_dirty(), None);
    Ok(())
}

// The header of a segment whose slot 2 is this.
fn header(rt: &impl Abort, number: u16, seg: u8, next: u64, to: &TxnSlot) -> UndoHeader
    requires next { 1 ≤ next }
    requires to { IsTxnSlot to.now }
{
    let mut head = UndoHeader::empty(BlockNo(number), InstNo(seg));
    assert!(rt; head.version() < u64::MAX);
    head.set(2, to, next, Scn(99));
    head
}

// An undo block with the record of a number at its first place.
fn undo_block(rt: &impl Abort, number: u16, seg: u8, seq: u64) -> UndoBlock
    requires { 1 ≤ seq }
{
    let mut block = UndoBlock::empty(BlockNo(number), InstNo(seg));
    assert!(rt; block.version() < u64::MAX);
    block.set(0, &undo_change(number, seq).to, Scn(99));
    block
}

#[test]
fn a_header_tells_of_transactions(rt: HostRuntime) -> Result<(), Fail> {
    let alloc = rt.alloc();
    let own = Segment::new(alloc, &LAYOUT, InstNo(1))?;
    let mut handed = Handed::new(alloc);
    handed.add_head(header(&rt, 1, 0, 2, &active(1, 80)))?;
    handed.add_head(header(&rt, 1, 0, 2, &ended(5, 90, 80)))?;
    let end = Scn(80);
    for (seg, wrap, want) in [
        (0, 6, Look::Active),
        (0, 5, Look::Ended(Scn(90))),
        (0, 4, Look::Ended(end)),
        (0, 3, Look::ReusedBelow { end, found: 5 }),
        (0, 1, Look::ReusedBelow { end, found: 5 }),
        (1, 1, Look::Active),
        (1, 0, Look::Ended(Scn(0))),
        (2, 5, Look::Unlooked),
    ] {
        assert_eq!(rt; own.look(&handed, &xid(seg, 2, wrap)), want);
    }
    Ok(())
}

#[test]
fn undo_records_are_fetched_by_their_place(rt: HostRuntime) -> Result<(), Fail> {
    let alloc = rt.alloc();
    let mut own = Segment::new(alloc, &LAYOUT, InstNo(1))?;
    put_record(&rt, &mut own, 1, 13, 100);
    let mut handed = Handed::new(alloc);
    handed.add_block(undo_block(&rt, 3, 0, 5))?;
    handed.add_block(undo_block(&rt, 2, 0, 1))?;
    handed.add_block(undo_block(&rt, 3, 0, 13))?;
    // Block 3 of segment 0 and the second one of segment 1 have the places of 5 to 8 and 13 to 16.
    for (seg, seq, want) in [
        (0, 5, Fetch::Reused(13)),
        (0, 14, Fetch::Never),
        (1, 5, Fetch::Reused(13)),
        (1, 14, Fetch::Never),
        (2, 13, Fetch::Unfetched),
    ] {
        assert!(rt; seg < 8);
        assert!(rt; seq >= 1);
        assert_eq!(rt; own.fetch(&handed, &xid(seg, 2, 5), seq), want);
    }
    for seg in [0, 1] {
        let has = Fetch::Has(undo_change(0, 13).to);
        assert!(rt; seg < 8);
        assert_eq!(rt; own.fetch(&handed, &xid(seg, 2, 5), 13), has);
    }
    Ok(())
}

// Wants to load the segment of instance 1 of a disk with these bytes in the blocks 4 and 6: done, or the block and the
// field that are bad.
fn expect_load(
    rt: &impl Abort,
    alloc: Global,
    head: &[u8; 512],
    last: &[u8; 512],
    want: Option<(u16, u8)>,
) -> Result<(), Fail> {
    let mut disk = MemDisk::new(alloc, 200, 100, Vec::new(alloc))?;
    disk.write_block(BlockNo(4), head)?;
    disk.write_block(BlockNo(5), &undo_bytes(rt, 5, 1, 1))?;
    disk.write_block(BlockNo(6), last)?;
    let why = want.map(|(block, field)| LoadError::Bad {
        block: BlockNo(block),
        field,
    });
    assert_eq!(rt;
        Segment::load(alloc, &LAYOUT, InstNo(1), &mut disk).err(),
        why
    );
    Ok(())
}

// The bytes of a header.
fn head_bytes(rt: &impl Abort, number: u16, seg: u8, next: u64, to: &TxnSlot) -> [u8; 512]
    requires next { 1 ≤ next }
    requires to { IsTxnSlot to.now }
{
    let mut bytes = [0; 512];
    header(rt, number, seg, next, to).write(&mut bytes);
    bytes
}

// The bytes of an undo block.
fn undo_bytes(rt: &impl Abort, number: u16, seg: u8, seq: u64) -> [u8; 512]
    requires { 1 ≤ seq }
{
    let mut bytes = [0; 512];
    undo_block(rt, number, seg, seq).write(&mut bytes);
    bytes
}

#[test]
fn a_wrong_header_is_not_loaded(rt: HostRuntime) -> Result<(), Fail> {
    let slot = active(9, 3);
    let hostile = ended(1 << 31, 9, 8);
    let undo = undo_bytes(&rt, 6, 1, 13);
    expect_load(
        &rt,
        rt.alloc(),
        &head_bytes(&rt, 4, 1, 10, &slot),
        &undo,
        None,
    )?;
    expect_load(&rt, rt.alloc(), &[0; 512], &undo, Some((4, 1)))?;
    expect_load(
        &rt,
        rt.alloc(),
        &head_bytes(&rt, 3, 1, 10, &slot),
        &undo,
        Some((4, 3)),
    )?;
    let mut late = head_bytes(&rt, 4, 1, 10, &slot);
    late[8] = 0x40;
    expect_load(&rt, rt.alloc(), &late, &undo, Some((4, 5)))?;
    let mut late = head_bytes(&rt, 4, 1, 10, &slot);
    late[16] = 0x40;
    expect_load(&rt, rt.alloc(), &late, &undo, Some((4, 6)))?;
    expect_load(
        &rt,
        rt.alloc(),
        &head_bytes(&rt, 4, 0, 10, &slot),
        &undo,
        Some((4, 4)),
    )?;
    expect_load(
        &rt,
        rt.alloc(),
        &head_bytes(&rt, 4, 1, 1 << 62, &slot),
        &undo,
        Some((4, 7)),
    )?;
    expect_load(
        &rt,
        rt.alloc(),
        &head_bytes(&rt, 4, 1, 10, &hostile),
        &undo,
        Some((4, 8)),
    )
}

#[test]
fn a_wrong_undo_block_is_not_loaded(rt: HostRuntime) -> Result<(), Fail> {
    let head = head_bytes(&rt, 4, 1, 10, &active(9, 3));
    expect_load(
        &rt,
        rt.alloc(),
        &head,
        &undo_bytes(&rt, 5, 1, 13),
        Some((6, 3)),
    )?;
    expect_load(
        &rt,
        rt.alloc(),
        &head,
        &undo_bytes(&rt, 6, 0, 13),
        Some((6, 4)),
    )?;
    expect_load(
        &rt,
        rt.alloc(),
        &head,
        &undo_bytes(&rt, 6, 1, 1 << 62),
        Some((6, 8)),
    )
}
