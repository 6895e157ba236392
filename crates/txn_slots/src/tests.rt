use super::*;
use base_types::{InstNo, Layout, NoMemory, Scn, Xid};
use block_image::DataBlock;
use std::alloc::Global;
use std::process::Abort;
use std::test::Fail;
use undo_image::UndoHeader;
use undo_segment::{Handed, Segment};

const LAYOUT: Layout = Layout {
    instances: 8,
    blocks: 4,
    undo: 8,
};

// The first slot in the headers of the segments 1 to 4 and 6: segment, wrap, state, first undo record, SCN of the end, SCN
// of the end before. Those of 5 and 7 aren't at hand.
const HEADS: [[u8; 6]; 5] = [
    [1, 1, 1, 1, 0, 0],
    [2, 1, 2, 0, 12, 0],
    [3, 2, 1, 1, 0, 7],
    [4, 5, 2, 0, 30, 9],
    [6, 1, 3, 0, 12, 0],
];

// An active one.
const FIRST: Xid = Xid {
    seg: InstNo(1),
    slot: 0,
    wrap: 1,
};
// One that ended at 12.
const SECOND: Xid = Xid {
    seg: InstNo(2),
    slot: 0,
    wrap: 1,
};
// One that ended at 7, and another has its slot now.
const THIRD: Xid = Xid {
    seg: InstNo(3),
    slot: 0,
    wrap: 1,
};
// One that ended at 9 or before: its slot was taken three times since.
const FOURTH: Xid = Xid {
    seg: InstNo(4),
    slot: 0,
    wrap: 2,
};

const FIFTH: Xid = Xid {
    seg: InstNo(5),
    slot: 0,
    wrap: 1,
};
// One that was rolled back at 12.
const SIXTH: Xid = Xid {
    seg: InstNo(6),
    slot: 0,
    wrap: 1,
};

const SEVENTH: Xid = Xid {
    seg: InstNo(7),
    slot: 0,
    wrap: 1,
};
// Its wrap is above that of its slot: it counts as active.
const OWN: Xid = Xid {
    seg: InstNo(0),
    slot: 3,
    wrap: 1,
};

const UNUSED: Xid = Xid {
    seg: InstNo(0),
    slot: 0,
    wrap: 0,
};

fn headers(rt: &impl Abort, alloc: Global) -> Result<Handed, NoMemory> {
    let mut handed = Handed::new(alloc);
    for [seg, wrap, state, first, scn, prev] in HEADS {
        let mut bytes = [0; 512];
        bytes[..2].copy_from_slice(&[2, 1]);
        bytes[4] = seg;
        bytes[15] = 1;
        bytes[23] = 1;
        bytes[31] = 9;
        bytes[35] = wrap;
        bytes[36] = state;
        bytes[47] = first;
        bytes[63] = scn;
        bytes[71] = prev;
        let Ok(head) = UndoHeader::read(&bytes) else {
            panic!(rt; "the header of segment {seg} is refused");
        };
        handed.add_head(head)?;
    }
    Ok(handed)
}

// A block with SCN 20, ITL slots of these transactions, and lock bytes.
fn block(rt: &impl Abort, slots: &[Xid; 4], locks: &[u8; 8]) -> DataBlock {
    let mut bytes = [0; 512];
    bytes[..2].copy_from_slice(&[1, 1]);
    bytes[15] = 9;
    bytes[23] = 20;
    for (k, slot) in slots.iter().enumerate() {
        if *slot != UNUSED {
            bytes[32 + 16 * k] = slot.seg.get();
            bytes[33 + 16 * k] = slot.slot;
            bytes[39 + 16 * k] = slot.wrap.to_be_bytes()[3];
            bytes[47 + 16 * k] = 1;
        }
    }
    for (r, lock) in locks.iter().enumerate() {
        bytes[97 + 16 * r] = *lock;
    }
    let Ok(block) = DataBlock::read(&bytes) else {
        panic!(rt; "the block is refused");
    };
    block
}

const FREE_SINCE_12: LockAnswer = LockAnswer::Free(Released::Exactly {
    xid: SECOND,
    end: Scn(12),
});

const FREE_BELOW_9: LockAnswer = LockAnswer::Free(Released::Below(Scn(9)));

const FREE_BELOW_20: LockAnswer = LockAnswer::Free(Released::Below(Scn(20)));

#[test]
fn rows_are_free_or_held(rt: HostRuntime) -> Result<(), Fail> {
    let segment = Segment::new(rt.alloc(), &LAYOUT, InstNo(0))?;
    let handed = headers(&rt, rt.alloc())?;
    let image = block(
        &rt,
        &[FIRST, SECOND, FOURTH, FIFTH],
        &[0, 1, 2, 3, 4, 0, 0, 0],
    );
    let of = |row: u8, me: &Option<Xid>| lock_row(&image, row % 8, me, &segment, &handed);
    assert_eq!(rt; of(0, &None), FREE_BELOW_20);
    assert_eq!(rt; of(1, &None), LockAnswer::Held(FIRST));
    assert_eq!(rt; of(1, &Some(OWN)), LockAnswer::Held(FIRST));
    assert_eq!(rt; of(1, &Some(FIRST)), LockAnswer::Mine);
    assert_eq!(rt; of(2, &Some(FIRST)), FREE_SINCE_12);
    assert_eq!(rt; of(3, &None), FREE_BELOW_9);
    assert_eq!(rt; of(4, &None), LockAnswer::Need(Wanted::Head(InstNo(5))));
    // the own header isn't looked at
    assert_eq!(rt; of(4, &Some(FIFTH)), LockAnswer::Mine);
    Ok(())
}

#[test]
fn a_row_is_free_since_an_end_or_before_a_bound(rt: HostRuntime) {
    let end = Scn(12);
    assert_eq!(rt; Released::Exactly { xid: SECOND, end }.at(), Scn(12));
    assert_eq!(rt; Released::Below(Scn(9)).at(), Scn(9));
}

fn expect_slot(
    rt: &impl Abort,
    alloc: Global,
    slots: &[Xid; 4],
    me: &Option<Xid>,
    want: &SlotAnswer,
) -> Result<(), NoMemory> {
    let segment = Segment::new(alloc, &LAYOUT, InstNo(0))?;
    let handed = headers(rt, alloc)?;
    let image = block(rt, slots, &[0; 8]);
    assert_eq!(rt; choose_slot(&image, me, &segment, &handed), *want);
    Ok(())
}

fn fresh(itl: u8) -> SlotAnswer {
    SlotAnswer::Take { itl, fresh: true }
}

#[test]
fn slots_are_taken_in_the_order_of_the_rule(rt: HostRuntime) -> Result<(), Fail> {
    let alloc = rt.alloc();
    // the own slot, though one was never used and a header isn't at hand
    let own = SlotAnswer::Take {
        itl: 3,
        fresh: false,
    };
    expect_slot(
        &rt,
        alloc,
        &[FIRST, UNUSED, SECOND, FIFTH],
        &Some(SECOND),
        &own,
    )?;
    // one never used, though a header isn't at hand
    expect_slot(
        &rt,
        alloc,
        &[FIRST, FIFTH, UNUSED, UNUSED],
        &Some(OWN),
        &fresh(3),
    )?;
    // the first header that isn't at hand
    let need = SlotAnswer::Need(Wanted::Head(InstNo(7)));
    expect_slot(&rt, alloc, &[FIRST, SEVENTH, SECOND, FIFTH], &None, &need)?;
    // the least end, of a transaction whose slot another has
    expect_slot(
        &rt,
        alloc,
        &[SECOND, FOURTH, THIRD, FIRST],
        &None,
        &fresh(3),
    )?;
    // the bound of an end is less than an end
    expect_slot(
        &rt,
        alloc,
        &[SECOND, FOURTH, FIRST, SIXTH],
        &None,
        &fresh(2),
    )?;
    // of two that ended at one SCN the lower
    expect_slot(&rt, alloc, &[FIRST, SIXTH, SECOND, OWN], &None, &fresh(2))?;
    // four that are active
    let none = SlotAnswer::NoItl([FIRST, OWN, FIRST, OWN]);
    expect_slot(&rt, alloc, &[FIRST, OWN, FIRST, OWN], &None, &none)?;
    Ok(())
}
