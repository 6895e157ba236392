use super::*;
use base_types::{BlockNo, InstNo, Layout, Scn, Value, Xid};
use block_image::DataBlock;
use inst_set::InstSet;
use redo_merge::Tagged;
use redo_types::{
    DataChange, HeadChange, ItlSlot, Redo, RedoKind, RowChange, TxnSlot, TxnState, UndoChange,
    UndoRecord,
};
use std::test::Fail;
use undo_image::{UndoBlock, UndoHeader};
use wire_net::{Frame, Mode, Report};

const XID: Xid = Xid {
    seg: InstNo(0),
    slot: 1,
    wrap: 1,
};

const UNUSED: ItlSlot = ItlSlot {
    xid: Xid {
        seg: InstNo(0),
        slot: 0,
        wrap: 0,
    },
    seq: 0,
};

// The record that makes this version of data block 3, header 64 and undo block 65: it puts the version into row 0.
fn record(version: u64) -> Tagged {
    Tagged {
        thread: InstNo(0),
        redo: Redo {
            kind: RedoKind::Change,
            xid: XID,
            scn: Scn(version.saturating_add(100)),
            seq: version,
            head: HeadChange {
                block: BlockNo(64),
                version,
                slot: 1,
                next: version.saturating_add(1),
                to: TxnSlot {
                    wrap: 1,
                    state: TxnState::Active,
                    first: 1,
                    last: version,
                    scn: Scn(0),
                    prev: Scn(0),
                },
            },
            undo: Some(UndoChange {
                block: BlockNo(65),
                version,
                place: 2,
                to: UndoRecord {
                    seq: version,
                    slot: 1,
                    itl: 1,
                    row: 0,
                    mine: false,
                    wrap: 1,
                    block: BlockNo(3),
                    version,
                    prev: 0,
                    old_itl: UNUSED,
                    old: Value::Absent,
                },
            }),
            row: Some(DataChange {
                block: BlockNo(3),
                version,
                to: RowChange {
                    row: 0,
                    lock: 1,
                    itl: 1,
                    fresh: true,
                    slot: ItlSlot {
                        xid: XID,
                        seq: version,
                    },
                    value: Value::Num(7),
                },
            }),
        },
    }
}

// The version that block 3 has after records that make these versions; `None` where none is left.
fn rolled_to(versions: &[u64; 4]) -> Option<u64> {
    let [a, b, c, d] = versions;
    let merged = [record(*a), record(*b), record(*c), record(*d)];
    let block = roll_block(DataBlock::empty(BlockNo(3)), &merged)?;
    Some(block.version())
}

#[test]
fn a_block_rolls_over_records_in_order(rt: HostRuntime) -> Result<(), Fail> {
    assert_eq!(rt; rolled_to(&[1, 2, 3, 4]), Some(4));
    // what the block has already is passed over
    assert_eq!(rt; rolled_to(&[1, 1, 2, 1]), Some(2));
    // a version is missing
    assert_eq!(rt; rolled_to(&[1, 2, 4, 5]), None);
    assert_eq!(rt; rolled_to(&[2, 3, 4, 5]), None);
    Ok(())
}

#[test]
fn no_records_leave_a_block_as_it_is(rt: HostRuntime) -> Result<(), Fail> {
    let block = roll_block(DataBlock::empty(BlockNo(3)), &[]).ok_or("no block")?;
    assert_eq!(rt; block.version(), 0);
    let other = roll_block(DataBlock::empty(BlockNo(2)), &[record(5)]).ok_or("no block")?;
    assert_eq!(rt; other.version(), 0);
    Ok(())
}

#[test]
fn a_segment_rolls_over_records(rt: HostRuntime) -> Result<(), Fail> {
    let merged = [record(1), record(2)];
    let head = roll_header(UndoHeader::empty(BlockNo(64), InstNo(0)), &merged).ok_or("none")?;
    assert_eq!(rt; head.version(), 2);
    assert_eq!(rt; head.next(), 3);
    let undo = roll_undo_block(UndoBlock::empty(BlockNo(65), InstNo(0)), &merged).ok_or("none")?;
    assert_eq!(rt; undo.version(), 2);
    assert_eq!(rt; undo.scn().get(), 102);
    Ok(())
}

#[test]
fn the_base_is_the_newest_image(rt: HostRuntime) -> Result<(), Fail> {
    let none = [None; 8];
    assert_eq!(rt; choose_base(0, &none), Base::Disk);
    let two = [None, Some(5), None, Some(5), Some(4), None, None, None];
    assert_eq!(rt; choose_base(6, &two), Base::Disk);
    assert_eq!(rt; choose_base(5, &two), Base::Disk);
    assert_eq!(rt; choose_base(4, &two), Base::Past(InstNo(1)));
    assert_eq!(rt; newest_past(&two), Some(InstNo(1)));
    Ok(())
}

#[test]
fn the_membership_goes_dark_and_comes_up(rt: HostRuntime) -> Result<(), Fail> {
    let mut members = Membership {
        epoch: 3,
        live: InstSet::from_array([false, true, false, false, true, false, false, false]),
        phase: Phase::Running,
        reported: InstSet::new(),
    };
    assert_eq!(rt; members.leader(), Some(InstNo(1)));
    members.leave(InstNo(1));
    assert_eq!(rt; members.leader(), Some(InstNo(4)));
    assert_eq!(rt; members.phase, Phase::Frozen);
    assert!(rt; !members.all_reported());
    members.reported.insert(InstNo(4));
    assert!(rt; members.all_reported());
    members.leave(InstNo(4));
    assert_eq!(rt; members.leader(), None);
    assert_eq!(rt; members.phase, Phase::Dark);
    members.enter(InstNo(6));
    assert_eq!(rt; members.leader(), Some(InstNo(6)));
    assert_eq!(rt; members.phase, Phase::Frozen);
    assert_eq!(rt; members.epoch, 6);
    assert!(rt; !members.all_reported());
    Ok(())
}

const LAYOUT: Layout = Layout {
    instances: 1,
    blocks: 64,
    undo: 8,
};

fn frame(block: u16, mode: Mode, past: Option<u64>) -> Frame {
    Frame {
        block: BlockNo(block),
        mode,
        version: 4,
        dirty: false,
        past,
    }
}

#[test]
fn what_is_to_be_rebuilt(rt: HostRuntime) -> Result<(), Fail> {
    let mut frames = Vec::new(rt.alloc());
    frames.push(frame(1, Mode::Null, Some(4)))?;
    frames.push(frame(2, Mode::Shared, Some(4)))?;
    let mut reports = Reports::new();
    reports.add(
        InstNo(5),
        Report {
            scn: Scn(9),
            known: Scn(9),
            frames: base_types::Sequence::from_vec(frames),
        },
    );
    let lost = [record(3)];
    let cases = [
        // a past image alone; one beside a current image; neither
        (1, 9, true),
        (2, 0, false),
        (4, 0, false),
        // a record that the disk has already, and one that it hasn't
        (3, 3, false),
        (3, 2, true),
        // a header and an undo block, and one that no record names
        (64, 2, true),
        (64, 3, false),
        (65, 2, true),
        (66, 0, false),
    ];
    for (block, disk, expected) in cases {
        let is = is_to_recover(&LAYOUT, &reports, &lost, BlockNo(block), disk);
        assert_eq!(rt; is, expected);
    }
    // all of them, where the disk has no record, and where it has that of the data block
    let mut disk = [0; 67];
    let blocks = blocks_to_recover(rt.alloc(), &LAYOUT, &reports, &lost, &disk)?;
    let expected = [BlockNo(1), BlockNo(3), BlockNo(64), BlockNo(65)];
    assert_eq!(rt; blocks.as_slice(), expected.as_slice());
    disk[3] = 3;
    let blocks = blocks_to_recover(rt.alloc(), &LAYOUT, &reports, &lost, &disk)?;
    let expected = [BlockNo(1), BlockNo(64), BlockNo(65)];
    assert_eq!(rt; blocks.as_slice(), expected.as_slice());
    assert_eq!(rt; reports.newest_past_of(BlockNo(1)), Some(InstNo(5)));
    reports.clear();
    assert!(rt; !reports.is_held(BlockNo(2)));
    Ok(())
}
