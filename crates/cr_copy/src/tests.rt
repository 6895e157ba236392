use super::*;
use base_types::{InstNo, Layout, NoMemory, Scn, UndoAt, Value, Xid};
use block_image::DataBlock;
use journal::Cause;
use std::alloc::Global;
use std::process::Abort;
use std::test::Fail;
use txn_slots::Wanted;
use undo_image::{UndoBlock, UndoHeader};
use undo_segment::{Handed, Segment};

// A segment has two undo blocks: that of instance I is made of the blocks 4 + 3 I, the header, and the next two.
const LAYOUT: Layout = Layout {
    instances: 8,
    blocks: 4,
    undo: 8,
};

// The first slot in the headers of the segments 1 to 5: segment, wrap, state, first undo record, SCN of the end, SCN of
// the end before. Those of 6 and 7 aren't at hand.
const HEADS: [[u8; 6]; 5] = [
    [1, 1, 1, 1, 0, 0],
    [2, 1, 2, 0, 12, 0],
    [3, 1, 2, 0, 15, 0],
    [4, 5, 2, 0, 40, 9],
    [5, 1, 2, 0, 8, 0],
];

// An active one.
const OPEN: Xid = Xid {
    seg: InstNo(1),
    slot: 0,
    wrap: 1,
};
// One that ended at 12.
const AT_12: Xid = Xid {
    seg: InstNo(2),
    slot: 0,
    wrap: 1,
};
// One that ended at 15.
const AT_15: Xid = Xid {
    seg: InstNo(3),
    slot: 0,
    wrap: 1,
};
// One that ended at 9 or before, as its slot tells, which was taken three times since.
const BELOW_9: Xid = Xid {
    seg: InstNo(4),
    slot: 0,
    wrap: 2,
};
// One that ended at 8.
const AT_8: Xid = Xid {
    seg: InstNo(5),
    slot: 0,
    wrap: 1,
};

const SIXTH: Xid = Xid {
    seg: InstNo(6),
    slot: 0,
    wrap: 1,
};

const SEVENTH: Xid = Xid {
    seg: InstNo(7),
    slot: 0,
    wrap: 1,
};

const UNUSED: Xid = Xid {
    seg: InstNo(0),
    slot: 0,
    wrap: 0,
};

// An undo record in the first undo block of a segment: its sequence number, ITL slot, row, version, the transaction
// that had the slot before with its sequence number, and what the row held, 0 for nothing.
#[derive(Drop)]
struct Undo {
    xid: Xid,
    seq: u8,
    itl: u8,
    row: u8,
    version: u8,
    before: (Xid, u8),
    old: u8,
}

const NONE: (Xid, u8) = (UNUSED, 0);

// The first undo block of a segment with these records.
fn undo_block(rt: &impl Abort, records: &[Undo]) -> UndoBlock {
    let mut bytes = [0; 512];
    bytes[..2].copy_from_slice(&[3, 1]);
    bytes[15] = 1;
    bytes[23] = 1;
    for undo in records {
        let seg = undo.xid.seg.get();
        bytes[3] = 5 + 3 * (seg % 8);
        bytes[4] = seg;
        let at = 32 + 96 * (usize::from(undo.seq.saturating_sub(1)) % 4);
        bytes[at + 7] = undo.seq;
        bytes[at + 9] = undo.itl;
        bytes[at + 10] = undo.row;
        bytes[at + 15] = low(undo.xid.wrap);
        bytes[at + 31] = undo.version;
        let (before, seq) = undo.before;
        bytes[at + 40] = before.seg.get();
        bytes[at + 47] = low(before.wrap);
        bytes[at + 55] = seq;
        bytes[at + 56] = u8::from(undo.old != 0);
        bytes[at + 71] = undo.old;
    }
    let Ok(block) = UndoBlock::read(&bytes) else {
        panic!(rt; "an undo block is refused");
    };
    block
}

fn low(number: u32) -> u8 {
    number.to_be_bytes()[3]
}

fn headers(rt: &impl Abort, alloc: Global) -> Result<Handed, NoMemory> {
    let mut handed = Handed::new(alloc);
    for [seg, wrap, state, first, scn, prev] in HEADS {
        let mut bytes = [0; 512];
        bytes[..2].copy_from_slice(&[2, 1]);
        bytes[4] = seg;
        bytes[15] = 1;
        bytes[23] = 1;
        bytes[31] = 9;
        bytes[35] = wrap;
        bytes[36] = state;
        bytes[47] = first;
        bytes[63] = scn;
        bytes[71] = prev;
        let Ok(head) = UndoHeader::read(&bytes) else {
            panic!(rt; "the header of segment {seg} is refused");
        };
        handed.add_head(head)?;
    }
    Ok(handed)
}

// The block 0 with version 5: its ITL slots by transaction and sequence number, and its first four rows by what they hold,
// 0 for nothing, and their lock bytes.
fn block(rt: &impl Abort, slots: &[(Xid, u8); 4], rows: &[(u8, u8); 4]) -> DataBlock {
    let mut bytes = [0; 512];
    bytes[..2].copy_from_slice(&[1, 1]);
    bytes[15] = 5;
    bytes[23] = 20;
    for (k, (xid, seq)) in slots.iter().enumerate() {
        bytes[32 + 16 * k] = xid.seg.get();
        bytes[39 + 16 * k] = low(xid.wrap);
        bytes[47 + 16 * k] = *seq;
    }
    for (r, (value, lock)) in rows.iter().enumerate() {
        bytes[96 + 16 * r] = u8::from(*value != 0);
        bytes[97 + 16 * r] = *lock;
        bytes[111 + 16 * r] = *value;
    }
    let Ok(block) = DataBlock::read(&bytes) else {
        panic!(rt; "the block is refused");
    };
    block
}

fn rows(first: u8, second: u8, third: u8) -> Made {
    let none = Value::Absent;
    Made::Rows([
        row(first),
        row(second),
        row(third),
        none,
        none,
        none,
        none,
        none,
    ])
}

// What a row holds, by its number, 0 for nothing.
fn row(number: u8) -> Value {
    if number == 0 {
        Value::Absent
    } else {
        Value::Num(i64::from(number))
    }
}

fn undo_wanted(seg: u8) -> Made {
    Made::Need(Wanted::Undo(UndoAt {
        seg: InstNo(seg),
        seq: 1,
    }))
}

const CLEAR: [(u8, u8); 4] = [(0, 0); 4];

fn undo_of(xid: Xid, itl: u8, row: u8, version: u8, before: (Xid, u8), old: u8) -> Undo {
    Undo {
        xid,
        seq: 1,
        itl,
        row,
        version,
        before,
        old,
    }
}

fn expect(
    rt: &impl Abort,
    image: &DataBlock,
    handed: &Handed,
    alloc: Global,
    snapshot: u64,
    me: &Option<Xid>,
    want: &Made,
) -> Result<(), NoMemory> {
    let segment = Segment::new(alloc, &LAYOUT, InstNo(0))?;
    let made = make(image, Scn(snapshot), me, &segment, handed);
    assert_eq!(rt; made, *want, "at {snapshot} for {me:?}");
    Ok(())
}

#[test]
fn later_commits_are_taken_back_newest_first(rt: HostRuntime) -> Result<(), Fail> {
    let alloc = rt.alloc();
    let slots = [(AT_12, 1), (AT_15, 1), NONE, NONE];
    let image = block(&rt, &slots, &[(3, 2), (0, 0), (0, 0), (0, 0)]);
    let mut handed = headers(&rt, alloc)?;
    handed.add_block(undo_block(&rt, &[undo_of(AT_12, 1, 0, 3, NONE, 1)]))?;
    handed.add_block(undo_block(&rt, &[undo_of(AT_15, 2, 0, 5, NONE, 2)]))?;
    expect(&rt, &image, &handed, alloc, 15, &None, &rows(3, 0, 0))?;
    expect(&rt, &image, &handed, alloc, 14, &None, &rows(2, 0, 0))?;
    expect(&rt, &image, &handed, alloc, 11, &None, &rows(1, 0, 0))?;
    Ok(())
}

#[test]
fn a_slot_is_given_back_to_whom_it_was_taken_from(rt: HostRuntime) -> Result<(), Fail> {
    let alloc = rt.alloc();
    let slots = [(AT_15, 1), NONE, NONE, NONE];
    let image = block(&rt, &slots, &[(2, 0), (5, 1), (0, 0), (0, 0)]);
    let mut handed = headers(&rt, alloc)?;
    handed.add_block(undo_block(&rt, &[undo_of(AT_15, 1, 1, 5, (AT_8, 1), 4)]))?;
    handed.add_block(undo_block(&rt, &[undo_of(AT_8, 1, 0, 3, NONE, 1)]))?;
    expect(&rt, &image, &handed, alloc, 10, &None, &rows(2, 4, 0))?;
    expect(&rt, &image, &handed, alloc, 7, &None, &rows(1, 4, 0))?;
    Ok(())
}

#[test]
fn own_rows_are_shown(rt: HostRuntime) -> Result<(), Fail> {
    let alloc = rt.alloc();
    // the open transaction changed row 0 over one that ended at 8, and locks row 2
    let slots = [(AT_8, 1), (OPEN, 2), (AT_15, 1), NONE];
    let image = block(&rt, &slots, &[(3, 2), (6, 3), (7, 2), (0, 0)]);
    let mut handed = headers(&rt, alloc)?;
    let changed = undo_of(OPEN, 2, 0, 3, NONE, 2);
    let mut locked = undo_of(OPEN, 2, 2, 4, (OPEN, 1), 7);
    locked.seq = 2;
    handed.add_block(undo_block(&rt, &[changed, locked]))?;
    handed.add_block(undo_block(&rt, &[undo_of(AT_15, 3, 1, 5, NONE, 5)]))?;
    expect(&rt, &image, &handed, alloc, 10, &Some(OPEN), &rows(3, 5, 7))?;
    expect(&rt, &image, &handed, alloc, 10, &None, &rows(2, 5, 7))?;

    // a lock alone
    let slots = [(OPEN, 1), NONE, NONE, NONE];
    let image = block(&rt, &slots, &[(7, 1), (0, 0), (0, 0), (0, 0)]);
    let mut handed = headers(&rt, alloc)?;
    handed.add_block(undo_block(&rt, &[undo_of(OPEN, 1, 0, 5, NONE, 7)]))?;
    expect(&rt, &image, &handed, alloc, 10, &Some(OPEN), &rows(7, 0, 0))?;
    expect(&rt, &image, &handed, alloc, 10, &None, &rows(7, 0, 0))?;
    Ok(())
}

#[test]
fn copies_need_headers_and_undo(rt: HostRuntime) -> Result<(), Fail> {
    let alloc = rt.alloc();
    let handed = headers(&rt, alloc)?;
    let slots = [(AT_15, 1), (SEVENTH, 1), (SIXTH, 1), NONE];
    let image = block(&rt, &slots, &CLEAR);
    let seventh = Made::Need(Wanted::Head(InstNo(7)));
    expect(&rt, &image, &handed, alloc, 10, &None, &seventh)?;
    // the own header isn't looked at
    let sixth = Made::Need(Wanted::Head(InstNo(6)));
    expect(&rt, &image, &handed, alloc, 10, &Some(SEVENTH), &sixth)?;

    let slots = [(AT_8, 1), (AT_12, 1), (AT_15, 1), NONE];
    let image = block(&rt, &slots, &CLEAR);
    expect(&rt, &image, &handed, alloc, 10, &None, &undo_wanted(2))?;
    expect(&rt, &image, &handed, alloc, 12, &None, &undo_wanted(3))?;
    expect(&rt, &image, &handed, alloc, 7, &None, &undo_wanted(5))?;
    Ok(())
}

#[test]
fn copies_are_too_old(rt: HostRuntime) -> Result<(), Fail> {
    let alloc = rt.alloc();
    let mut handed = headers(&rt, alloc)?;
    let mut later = undo_of(AT_12, 1, 0, 3, NONE, 1);
    later.seq = 10;
    handed.add_block(undo_block(&rt, &[later]))?;
    let image = block(&rt, &[(AT_12, 2), NONE, NONE, NONE], &CLEAR);
    let reused = Made::TooOld(Cause::OldUndo {
        xid: AT_12,
        wanted: 2,
        found: 10,
    });
    expect(&rt, &image, &handed, alloc, 10, &None, &reused)?;

    let image = block(&rt, &[(BELOW_9, 1), NONE, NONE, NONE], &CLEAR);
    let taken = Made::TooOld(Cause::OldSlot {
        xid: BELOW_9,
        found: 5,
    });
    expect(&rt, &image, &handed, alloc, 8, &None, &taken)?;
    expect(&rt, &image, &handed, alloc, 9, &None, &rows(0, 0, 0))?;
    Ok(())
}

#[test]
fn what_no_run_leaves_is_bad(rt: HostRuntime) -> Result<(), Fail> {
    let alloc = rt.alloc();
    let image = block(&rt, &[(AT_12, 1), NONE, NONE, NONE], &CLEAR);
    // the undo record of another ITL slot, one of a later version, and block versions that don't fall
    let other_slot = undo_block(&rt, &[undo_of(AT_12, 2, 0, 3, NONE, 1)]);
    let later_version = undo_block(&rt, &[undo_of(AT_12, 1, 0, 6, NONE, 1)]);
    let before = undo_block(&rt, &[undo_of(AT_15, 1, 0, 3, NONE, 1)]);
    let same_version = undo_block(&rt, &[undo_of(AT_12, 1, 0, 3, (AT_15, 1), 1)]);
    let mut handed = headers(&rt, alloc)?;
    handed.add_block(other_slot)?;
    expect(&rt, &image, &handed, alloc, 10, &None, &Made::Bad)?;
    handed.add_block(later_version)?;
    expect(&rt, &image, &handed, alloc, 10, &None, &Made::Bad)?;
    handed.add_block(before)?;
    handed.add_block(same_version)?;
    expect(&rt, &image, &handed, alloc, 10, &None, &Made::Bad)?;
    // nothing stands in the place of the wanted record
    let image = block(&rt, &[(AT_12, 2), NONE, NONE, NONE], &CLEAR);
    expect(&rt, &image, &handed, alloc, 10, &None, &Made::Bad)?;
    Ok(())
}
