ghost use Rattle.redo_record.specs.Redo.{IsRedo};

use super::*;
use base_types::{BlockNo, InstNo, Scn, Value, Xid};
use redo_types::{ItlSlot, RowChange, TxnSlot, TxnState, UndoRecord};
use std::process::Abort;

// So many bytes of a record that have a value, and the lowest and the highest value that each of them may
// have while all others stay as they are.
type Run = (usize, u8, u8, u8);

// Behind the first four bytes: transaction 0.0.1 and SCN 1.
const NAMES: [Run; 6] = [
    (2, 0, 0, 7),
    (2, 0, 0, 0),
    (3, 0, 0, 255),
    (1, 1, 1, 255),
    (7, 0, 0, 255),
    (1, 1, 1, 255),
];

const UNDO_NAMED: [Run; 2] = [(7, 0, 0, 255), (1, 1, 1, 255)];

const NO_UNDO_NAMED: [Run; 1] = [(8, 0, 0, 0)];

// A change of a header up to its slot.
const HEAD: [Run; 8] = [
    (1, 1, 1, 1),
    (1, 0, 0, 255),
    (1, 4, 0, 255),
    (7, 0, 0, 255),
    (1, 1, 1, 255),
    (1, 0, 0, 7),
    (7, 0, 0, 255),
    (1, 2, 1, 255),
];

// A slot of wrap 1 whose transaction has undo record 1 as its first and its last.
const ACTIVE: [Run; 10] = [
    (3, 0, 0, 0),
    (1, 1, 1, 1),
    (1, 1, 1, 1),
    (3, 0, 0, 0),
    (7, 0, 0, 0),
    (1, 1, 1, 1),
    (7, 0, 0, 255),
    (1, 1, 0, 255),
    (8, 0, 0, 0),
    (8, 0, 0, 0),
];

// A slot of wrap 1 whose transaction ended at SCN 2.
const ENDED: [Run; 8] = [
    (3, 0, 0, 0),
    (1, 1, 1, 1),
    (1, 2, 2, 3),
    (3, 0, 0, 0),
    (16, 0, 0, 0),
    (7, 0, 0, 255),
    (1, 2, 1, 255),
    (8, 0, 0, 0),
];

// A change of an undo block.
const UNDO: [Run; 24] = [
    (1, 2, 2, 2),
    (1, 0, 0, 255),
    (1, 5, 0, 255),
    (7, 0, 0, 255),
    (1, 1, 1, 255),
    (1, 0, 0, 3),
    (7, 0, 0, 255),
    (1, 1, 1, 255),
    (1, 0, 0, 7),
    (1, 1, 1, 4),
    (1, 3, 0, 7),
    (1, 0, 0, 1),
    (3, 0, 0, 255),
    (1, 1, 1, 255),
    (2, 0, 0, 255),
    (6, 0, 0, 0),
    (7, 0, 0, 255),
    (1, 1, 1, 255),
    (8, 0, 0, 255),
    (16, 0, 0, 0),
    (1, 0, 0, 1),
    (7, 0, 0, 0),
    (8, 0, 0, 0),
    (24, 0, 0, 0),
];

// A change of a data block.
const DATA: [Run; 18] = [
    (1, 3, 3, 3),
    (1, 0, 0, 0),
    (1, 0, 0, 63),
    (7, 0, 0, 255),
    (1, 1, 1, 255),
    (1, 3, 0, 7),
    (1, 1, 0, 4),
    (1, 1, 1, 4),
    (1, 1, 0, 1),
    (2, 0, 0, 7),
    (2, 0, 0, 0),
    (3, 0, 0, 255),
    (1, 1, 1, 255),
    (7, 0, 0, 255),
    (1, 1, 1, 255),
    (1, 1, 1, 1),
    (7, 0, 0, 255),
    (1, 42, 0, 255),
];

// The bytes of a commit.
const COMMIT_BYTES: [u8; 88] = [
    0x00, 0x58, 4, 1, 0, 0, 0, 0, 0, 0, 0, 1, 0, 0, 0, 0, 0, 0, 0, 2, 0, 0, 0, 0, 0, 0, 0, 0, 1, 0,
    4, 0, 0, 0, 0, 0, 0, 0, 2, 0, 0, 0, 0, 0, 0, 0, 0, 2, 0, 0, 0, 1, 2, 0, 0, 0, 0, 0, 0, 0, 0, 0,
    0, 0, 0, 0, 0, 0, 0, 0, 0, 0, 0, 0, 0, 0, 0, 0, 0, 2, 0, 0, 0, 0, 0, 0, 0, 0,
];

// A record, and what each of its bytes may be.
#[derive(Clone, Copy)]
struct Sample {
    length: usize,
    bytes: [u8; 236],
    lowest: [u8; 236],
    highest: [u8; 236],
}

fn laid_out(rt: &impl Abort, kinds: Run, count: u8, length: u8, parts: [&[Run]; 5]) -> Sample {
    let mut sample = Sample {
        length: 0,
        bytes: [0; 236],
        lowest: [0; 236],
        highest: [0; 236],
    };
    let first = [
        (1, 0, 0, 0),
        (1, length, length, length),
        kinds,
        (1, count, count, count),
    ];
    append(rt, &mut sample, &first);
    append(rt, &mut sample, &NAMES);
    for part in parts {
        append(rt, &mut sample, part);
    }
    assert_eq!(rt; sample.length, usize::from(length));
    sample
}

fn append(rt: &impl Abort, sample: &mut Sample, runs: &[Run]) {
    for (count, value, lowest, highest) in runs {
        for _ in 0..*count {
            let at = sample.length;
            assert!(rt; at < 236);
            sample.bytes[at] = *value;
            sample.lowest[at] = *lowest;
            sample.highest[at] = *highest;
            sample.length = at + 1;
        }
    }
}

const OF_CHANGE: [&[Run]; 5] = [&UNDO_NAMED, &HEAD, &ACTIVE, &UNDO, &DATA];

const OF_STEP_BACK: [&[Run]; 5] = [&UNDO_NAMED, &HEAD, &ACTIVE, &DATA, &[]];

const OF_END: [&[Run]; 5] = [&NO_UNDO_NAMED, &HEAD, &ENDED, &[], &[]];

const XID: Xid = Xid {
    seg: InstNo(0),
    slot: 0,
    wrap: 1,
};

const UNUSED: ItlSlot = ItlSlot {
    xid: Xid {
        seg: InstNo(0),
        slot: 0,
        wrap: 0,
    },
    seq: 0,
};

// A first put of 42 into row 3 of block 0.
const CHANGE: Redo = Redo {
    kind: RedoKind::Change,
    xid: XID,
    scn: Scn(1),
    seq: 1,
    head: HeadChange {
        block: BlockNo(4),
        version: 1,
        slot: 0,
        next: 2,
        to: TxnSlot {
            wrap: 1,
            state: TxnState::Active,
            first: 1,
            last: 1,
            scn: Scn(0),
            prev: Scn(0),
        },
    },
    undo: Some(UndoChange {
        block: BlockNo(5),
        version: 1,
        place: 0,
        to: UndoRecord {
            seq: 1,
            slot: 0,
            itl: 1,
            row: 3,
            mine: false,
            wrap: 1,
            block: BlockNo(0),
            version: 1,
            prev: 0,
            old_itl: UNUSED,
            old: Value::Absent,
        },
    }),
    row: Some(DataChange {
        block: BlockNo(0),
        version: 1,
        to: RowChange {
            row: 3,
            lock: 1,
            itl: 1,
            fresh: true,
            slot: ItlSlot { xid: XID, seq: 1 },
            value: Value::Num(42),
        },
    }),
};

// The commit behind it.
const COMMIT: Redo = Redo {
    kind: RedoKind::Commit,
    xid: XID,
    scn: Scn(2),
    seq: 0,
    head: HeadChange {
        block: BlockNo(4),
        version: 2,
        slot: 0,
        next: 2,
        to: TxnSlot {
            wrap: 1,
            state: TxnState::Committed,
            first: 0,
            last: 0,
            scn: Scn(2),
            prev: Scn(0),
        },
    },
    undo: None,
    row: None,
};

// The bytes are those of this record.
fn expect_record(rt: &impl Abort, bytes: &[u8], want: &Redo) {
    assert!(rt; !bytes.is_empty() && bytes.len() <= 236);
    let front = read_front(bytes);
    let Front::Whole(redo, length) = front else {
        assert!(rt; false, "{front:?}");
        return;
    };
    assert_eq!(rt; &redo, want);
    expect_written(rt, &redo, length, bytes);
}

// The record is written as these bytes, of which there are so many.
fn expect_written(rt: &impl Abort, redo: &Redo, length: u16, bytes: &[u8])
    requires { IsRedo redo.now }
{
    let mut out = [0xff; 236];
    assert_eq!(rt; write(redo, &mut out), length);
    assert_eq!(rt; usize::from(length), bytes.len());
    let (front, rest) = out.split_at(bytes.len().min(236));
    assert_eq!(rt; front, bytes);
    assert!(rt; rest.iter().all(|byte| *byte == 0xff));
}

#[test]
fn writes_a_change_and_its_commit(rt: HostRuntime) {
    let change = laid_out(&rt, (1, 1, 1, 2), 3, 236, OF_CHANGE);
    expect_record(&rt, &change.bytes, &CHANGE);
    expect_record(&rt, &COMMIT_BYTES, &COMMIT);
}

// What stands at the front of the bytes, in which the one at this place was changed.
fn expect_front(rt: &impl Abort, bytes: &[u8], at: usize, want: &str) {
    assert!(rt; !bytes.is_empty());
    match read_front(bytes) {
        Front::Whole(redo, length) => {
            assert_eq!(rt; "whole", want, "byte {at}");
            expect_written(rt, &redo, length, bytes);
        }
        Front::Torn => assert_eq!(rt; "torn", want, "byte {at}"),
        Front::Bad => assert_eq!(rt; "bad", want, "byte {at}"),
    }
}

// Gives each byte each value.
fn expect_ranges(rt: &impl Abort, sample: &Sample) {
    let length = sample.length;
    assert!(rt; length <= 236);
    let mut bytes = sample.bytes;
    for at in 0..length {
        for value in 0..=255 {
            bytes[at] = value;
            let longer = at == 1 && (value == 128 || value == 236) && usize::from(value) > length;
            let want = if longer {
                "torn"
            } else if sample.lowest[at] <= value && value <= sample.highest[at] {
                "whole"
            } else {
                "bad"
            };
            expect_front(rt, &bytes[..length], at, want);
        }
        bytes[at] = sample.bytes[at];
    }
}

#[test]
fn looks_at_each_byte(rt: HostRuntime) {
    let cases: [(Run, u8, u8, [&[Run]; 5]); 5] = [
        ((1, 1, 1, 2), 3, 236, OF_CHANGE),
        ((1, 2, 1, 2), 3, 236, OF_CHANGE),
        ((1, 3, 3, 3), 2, 128, OF_STEP_BACK),
        ((1, 4, 4, 5), 1, 88, OF_END),
        ((1, 5, 4, 5), 1, 88, OF_END),
    ];
    for (kinds, count, length, parts) in cases {
        let sample = laid_out(&rt, kinds, count, length, parts);
        expect_ranges(&rt, &sample);
    }
}

fn with_commit(change: &Sample) -> [u8; 324] {
    let mut log = [0; 324];
    for at in 0..324 {
        log[at] = if at < 236 {
            change.bytes[at]
        } else {
            COMMIT_BYTES[at - 236]
        };
    }
    log
}

// The front of the log, cut at each place, is this record or torn.
fn expect_cuts(rt: &impl Abort, log: &[u8], record: &Redo, length: u16) {
    for cut in 1..=log.len() {
        let front = read_front(&log[..cut]);
        if cut < usize::from(length) {
            assert_eq!(rt; front, Front::Torn, "cut at {cut}");
        } else {
            assert_eq!(rt; front, Front::Whole(*record, length), "cut at {cut}");
        }
    }
}

#[test]
fn reads_a_log_cut_at_each_place(rt: HostRuntime) {
    let change = laid_out(&rt, (1, 1, 1, 2), 3, 236, OF_CHANGE);
    let log = with_commit(&change);
    expect_cuts(&rt, &log, &CHANGE, 236);
    expect_cuts(&rt, &log[236..], &COMMIT, 88);
}
