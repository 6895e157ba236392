use super::*;
use base_types::{BlockNo, InstNo, Scn, Value, Xid};
use redo_types::ItlSlot;
use std::process::Abort;

// The bytes of a header that aren't zero, each with its place. Its slots: never used; active; active with no undo
// record left; committed; committed anew; rolled back; rolled back the 300th time; never used.
const HEADER: [(usize, u8); 32] = [
    (0, 2),
    (1, 1),
    (3, 81),
    (4, 1),
    (15, 9),
    (22, 0x12),
    (23, 0x34),
    (31, 8),
    // slot 1
    (75, 1),
    (76, 1),
    (87, 5),
    (95, 6),
    // slot 2
    (115, 3),
    (116, 1),
    (127, 7),
    (151, 9),
    // slot 3
    (155, 1),
    (156, 2),
    (183, 10),
    // slot 4
    (195, 2),
    (196, 2),
    (223, 20),
    (231, 10),
    // slot 5
    (235, 1),
    (236, 3),
    (263, 30),
    // slot 6
    (274, 1),
    (275, 44),
    (276, 3),
    (302, 0x12),
    (303, 0x34),
    (311, 40),
];

// What the slots 0 to 6 of that header are: wrap, state, first, last, SCN and the SCN before.
const SLOTS: [(u8, (u32, TxnState, u64, u64, u64, u64)); 7] = [
    (0, (0, TxnState::Never, 0, 0, 0, 0)),
    (1, (1, TxnState::Active, 5, 6, 0, 0)),
    (2, (3, TxnState::Active, 7, 0, 0, 9)),
    (3, (1, TxnState::Committed, 0, 0, 10, 0)),
    (4, (2, TxnState::Committed, 0, 0, 20, 10)),
    (5, (1, TxnState::RolledBack, 0, 0, 30, 0)),
    (6, (300, TxnState::RolledBack, 0, 0, 0x1234, 40)),
];

// What that header tells of the transactions of its slots with these wraps.
const STATUSES: [(u8, u32, Status); 12] = [
    (1, 1, Status::Active),
    (2, 3, Status::Active),
    (2, 2, Status::Ended(Scn(9))),
    (2, 1, Status::ReusedBelow(Scn(9))),
    (3, 1, Status::Ended(Scn(10))),
    (4, 2, Status::Ended(Scn(20))),
    (4, 1, Status::Ended(Scn(10))),
    (5, 1, Status::Ended(Scn(30))),
    (6, 300, Status::Ended(Scn(0x1234))),
    (6, 299, Status::Ended(Scn(40))),
    (6, 298, Status::ReusedBelow(Scn(40))),
    (6, 1, Status::ReusedBelow(Scn(40))),
];

// The bytes of an undo block that aren't zero, each with its place. The first undo record has a used ITL slot and a
// negative number, the third place one with a slot never used and no number, and the others were never written.
const UNDO: [(usize, u8); 32] = [
    (0, 3),
    (1, 1),
    (3, 82),
    (4, 1),
    (15, 4),
    (23, 5),
    // place 0
    (39, 5),
    (40, 7),
    (41, 4),
    (42, 7),
    (43, 1),
    (47, 2),
    (49, 63),
    (63, 4),
    (71, 1),
    (72, 7),
    (73, 7),
    (79, 2),
    (87, 1),
    (88, 1),
    (96, 0xff),
    (97, 0xff),
    (98, 0xff),
    (99, 0xff),
    (100, 0xff),
    (101, 0xff),
    (102, 0xff),
    (103, 0xfb),
    // place 2
    (231, 6),
    (233, 1),
    (239, 1),
    (255, 1),
];

// A slot that was taken twice, whose transaction committed.
const COMMITTED: TxnSlot = TxnSlot {
    wrap: 2,
    state: TxnState::Committed,
    first: 0,
    last: 0,
    scn: Scn(11),
    prev: Scn(10),
};

// The undo record at the first place of that block.
const FIRST: UndoRecord = UndoRecord {
    seq: 5,
    slot: 7,
    itl: 4,
    row: 7,
    mine: true,
    wrap: 2,
    block: BlockNo(63),
    version: 4,
    prev: 1,
    old_itl: ItlSlot {
        xid: Xid {
            seg: InstNo(7),
            slot: 7,
            wrap: 2,
        },
        seq: 1,
    },
    old: Value::Num(-5),
};

// The undo record at the third place of that block.
const SECOND: UndoRecord = UndoRecord {
    seq: 6,
    slot: 0,
    itl: 1,
    row: 0,
    mine: false,
    wrap: 1,
    block: BlockNo(0),
    version: 1,
    prev: 0,
    old_itl: ItlSlot {
        xid: Xid {
            seg: InstNo(0),
            slot: 0,
            wrap: 0,
        },
        seq: 0,
    },
    old: Value::Absent,
};

fn block_of(bytes: &[(usize, u8)]) -> [u8; 512] {
    let mut block = [0; 512];
    for (at, byte) in bytes {
        if let Some(place) = block.get_mut(*at) {
            *place = *byte;
        }
    }
    block
}

// The number in so many bytes from a place on, the highest first.
fn number(bytes: &[u8], at: usize, size: usize) -> u64 {
    let mut number = 0u64;
    for byte in bytes.iter().skip(at).take(size) {
        number = number.wrapping_mul(256).wrapping_add(u64::from(*byte));
    }
    number
}

// Whether so many bytes from a place on are zero.
fn clear(bytes: &[u8], at: usize, size: usize) -> bool {
    bytes.iter().skip(at).take(size).all(|byte| *byte == 0)
}

// Whether 40 bytes are a slot, by the rules of each state.
fn is_slot(bytes: &[u8]) -> bool {
    let wrap = number(bytes, 0, 4);
    let first = number(bytes, 8, 8);
    let last = number(bytes, 16, 8);
    let scn = number(bytes, 24, 8);
    let prev = number(bytes, 32, 8);
    let goes = match number(bytes, 4, 1) {
        0 => wrap == 0 && first == 0 && last == 0 && scn == 0,
        1 => wrap > 0 && first > 0 && (last == 0 || last >= first) && scn == 0,
        2 | 3 => wrap > 0 && first == 0 && last == 0 && scn > 0,
        _ => false,
    };
    goes && clear(bytes, 5, 3) && (wrap <= 1) == (prev == 0)
}

// Whether 96 bytes are an undo record or zeros.
fn is_place(bytes: &[u8]) -> bool {
    let itl_used = number(bytes, 40, 1) < 8
        && number(bytes, 41, 1) < 8
        && clear(bytes, 42, 2)
        && number(bytes, 44, 4) > 0
        && number(bytes, 48, 8) > 0;
    let old = match number(bytes, 56, 1) {
        0 => clear(bytes, 64, 8),
        1 => true,
        _ => false,
    };
    let ranges = number(bytes, 0, 8) > 0
        && number(bytes, 8, 1) < 8
        && (1..=4).contains(&number(bytes, 9, 1))
        && number(bytes, 10, 1) < 8
        && number(bytes, 11, 1) < 2
        && number(bytes, 12, 4) > 0
        && number(bytes, 24, 8) > 0;
    let spaces = clear(bytes, 18, 6) && clear(bytes, 57, 7) && clear(bytes, 72, 24);
    clear(bytes, 0, 96) || (ranges && spaces && old && (itl_used || clear(bytes, 40, 16)))
}

// The first of the nine fields that is wrong, where the kind and whether the last three are right is given.
fn wrong_field(block: &[u8; 512], kind: u8, next: bool, body: bool, end: bool) -> Option<u8> {
    let scn = (number(block, 8, 8) == 0) == (number(block, 16, 8) == 0);
    let rights = [
        (1, block[0] == kind),
        (2, block[1] == 1),
        (4, clear(block, 5, 3)),
        (6, scn),
        (7, next),
        (8, body),
        (9, end),
    ];
    for (field, right) in rights {
        if !right {
            return Some(field);
        }
    }
    None
}

fn wrong_in_header(block: &[u8; 512]) -> Option<u8> {
    let next = number(block, 24, 8) > 0;
    let slots = block[32..352].chunks(40).all(|part| is_slot(part));
    wrong_field(block, 2, next, slots, clear(block, 352, 160))
}

fn wrong_in_undo(block: &[u8; 512]) -> Option<u8> {
    let next = number(block, 24, 8) == 0;
    let places = block[32..416].chunks(96).all(|part| is_place(part));
    wrong_field(block, 3, next, places, clear(block, 416, 96))
}

// What is read as a header and written again, or the first wrong field.
fn header_again(block: &[u8; 512]) -> Result<[u8; 512], u8> {
    match UndoHeader::read(block) {
        Ok(header) => {
            let mut out = [0xff; 512];
            header.write(&mut out);
            Ok(out)
        }
        Err(bad) => Err(bad.field),
    }
}

// What is read as an undo block and written again, or the first wrong field.
fn undo_again(block: &[u8; 512]) -> Result<[u8; 512], u8> {
    match UndoBlock::read(block) {
        Ok(undo) => {
            let mut out = [0xff; 512];
            undo.write(&mut out);
            Ok(out)
        }
        Err(bad) => Err(bad.field),
    }
}

// Three other values of a byte: the next one, which crosses a limit, one far off, and 0 where it isn't 0.
fn others(byte: u8) -> [u8; 3] {
    let far = if byte == 0 { 2 } else { 0 };
    [byte.wrapping_add(1), byte ^ 0x80, far]
}

#[test]
fn reads_each_changed_block(rt: HostRuntime) {
    let header = block_of(&HEADER);
    let undo = block_of(&UNDO);
    assert_eq!(rt; header_again(&header), Ok(header));
    assert_eq!(rt; undo_again(&undo), Ok(undo));
    for at in 0..512 {
        for byte in others(header[at]) {
            let mut block = header;
            block[at] = byte;
            let want = wrong_in_header(&block).map_or(Ok(block), Err);
            assert_eq!(rt; header_again(&block), want, "header with {byte} at {at}");
        }
        for byte in others(undo[at]) {
            let mut block = undo;
            block[at] = byte;
            let want = wrong_in_undo(&block).map_or(Ok(block), Err);
            assert_eq!(rt; undo_again(&block), want, "undo block with {byte} at {at}");
        }
    }
}

// Wants the slot with this number.
fn expect_slot(
    rt: &impl Abort,
    header: &UndoHeader,
    k: u8,
    want: (u32, TxnState, u64, u64, u64, u64),
) {
    assert!(rt; k < 8);
    let slot = header.slot(k);
    let found = (
        slot.wrap,
        slot.state,
        slot.first,
        slot.last,
        slot.scn.0,
        slot.prev.0,
    );
    assert_eq!(rt; found, want, "slot {k}");
}

// Wants what the header tells of a transaction of its segment.
fn expect_status(rt: &impl Abort, header: &UndoHeader, x: Xid, want: Status) {
    assert!(rt; x.seg.0 == header.seg().0);
    assert!(rt; x.slot < 8);
    assert!(rt; x.wrap >= 1);
    assert!(rt; x.wrap <= header.slot(x.slot).wrap);
    assert_eq!(rt; header.status(x), want, "{x:?}");
}

#[test]
fn tells_slots_and_statuses(rt: HostRuntime) {
    let read = UndoHeader::read(&block_of(&HEADER));
    assert!(rt; read.is_ok());
    if let Ok(header) = read {
        let front = (
            header.number(),
            header.seg(),
            header.version(),
            header.scn(),
            header.next(),
        );
        assert_eq!(rt; front, (BlockNo(81), InstNo(1), 9, Scn(0x1234), 8));
        for (k, want) in SLOTS {
            expect_slot(&rt, &header.copy(), k, want);
        }
        for (slot, wrap, want) in STATUSES {
            let seg = InstNo(1);
            expect_status(&rt, &header, Xid { seg, slot, wrap }, want);
        }
    }
}

#[test]
fn tells_undo_records(rt: HostRuntime) {
    let read = UndoBlock::read(&block_of(&UNDO));
    assert!(rt; read.is_ok());
    if let Ok(undo) = read {
        assert_eq!(rt;
            (undo.number(), undo.seg(), undo.version(), undo.scn()),
            (BlockNo(82), InstNo(1), 4, Scn(5))
        );
        assert_eq!(rt; (undo.at(0), undo.at(1)), (Some(FIRST), None));
        assert_eq!(rt; (undo.at(2), undo.at(3)), (Some(SECOND), None));
    }
}

#[test]
fn writes_what_was_set(rt: HostRuntime) {
    let mut header = UndoHeader::empty(BlockNo(81), InstNo(1));
    let mut undo = UndoBlock::empty(BlockNo(82), InstNo(1));
    let mut out = [0xff; 512];
    header.write(&mut out);
    assert_eq!(rt; out, block_of(&[(0, 2), (1, 1), (3, 81), (4, 1), (31, 1)]));
    assert_eq!(rt; header_again(&out), Ok(out));
    undo.write(&mut out);
    assert_eq!(rt; out, block_of(&[(0, 3), (1, 1), (3, 82), (4, 1)]));
    assert_eq!(rt; undo_again(&out), Ok(out));

    header.set(7, &COMMITTED, 6, Scn(11));
    header.write(&mut out);
    let want = [
        (0, 2),
        (1, 1),
        (3, 81),
        (4, 1),
        (15, 1),
        (23, 11),
        (31, 6),
        (315, 2),
        (316, 2),
        (343, 11),
        (351, 10),
    ];
    assert_eq!(rt; out, block_of(&want));
    undo.set(2, &SECOND, Scn(12));
    undo.copy().write(&mut out);
    let want = [
        (0, 3),
        (1, 1),
        (3, 82),
        (4, 1),
        (15, 1),
        (23, 12),
        (231, 6),
        (233, 1),
        (239, 1),
        (255, 1),
    ];
    assert_eq!(rt; out, block_of(&want));
}
