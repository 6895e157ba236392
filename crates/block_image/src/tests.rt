use super::*;
use base_types::{BlockNo, InstNo, Scn, Value, Xid};
use std::process::Abort;

// The first 224 bytes of a block; the others are zero.
const GOOD: [[u8; 16]; 14] = [
    // kind 1, format 1, number 0x0105, no segment; version 1
    [1, 1, 1, 5, 0, 0, 0, 0, 0, 0, 0, 0, 0, 0, 0, 1],
    // SCN 2; no sequence number
    [0, 0, 0, 0, 0, 0, 0, 2, 0, 0, 0, 0, 0, 0, 0, 0],
    // ITL slots 1 and 3 are used, 2 and 4 aren't
    [7, 0, 0, 0, 0, 0, 0, 1, 0, 0, 0, 0, 0, 0, 0, 2],
    [0, 0, 0, 0, 0, 0, 0, 0, 0, 0, 0, 0, 0, 0, 0, 0],
    [2, 5, 0, 0, 0, 0, 0, 4, 0, 0, 0, 0, 0, 0, 0, 8],
    [0, 0, 0, 0, 0, 0, 0, 0, 0, 0, 0, 0, 0, 0, 0, 0],
    // rows 0 to 7
    [
        1, 1, 0, 0, 0, 0, 0, 0, 255, 255, 255, 255, 255, 255, 255, 251,
    ],
    [0, 0, 0, 0, 0, 0, 0, 0, 0, 0, 0, 0, 0, 0, 0, 0],
    [1, 0, 0, 0, 0, 0, 0, 0, 0, 0, 0, 0, 0, 0, 0, 0],
    [1, 3, 0, 0, 0, 0, 0, 0, 128, 0, 0, 0, 0, 0, 0, 0],
    [0, 3, 0, 0, 0, 0, 0, 0, 0, 0, 0, 0, 0, 0, 0, 0],
    [1, 0, 0, 0, 0, 0, 0, 0, 0, 0, 0, 0, 0, 0, 0, 42],
    [0, 0, 0, 0, 0, 0, 0, 0, 0, 0, 0, 0, 0, 0, 0, 0],
    [1, 1, 0, 0, 0, 0, 0, 0, 1, 2, 3, 4, 5, 6, 7, 8],
];

fn good_bytes() -> [u8; 512] {
    let mut bytes = [0; 512];
    for at in 0..224 {
        bytes[at] = GOOD[at / 16][at % 16];
    }
    bytes
}

// The field of the good block that another byte in one place makes wrong, by the table of the format.
fn expected_field(at: usize, byte: u8) -> Option<u8> {
    match at {
        0 => Some(1),
        1 => Some(2),
        4..=7 => Some(4),
        // the only bytes of the version and of the SCN that aren't 0
        15 | 23 => (byte == 0).then_some(6),
        24..=31 => Some(7),
        32..=47 | 64..=79 => used_slot_is_wrong(at % 16, byte).then_some(8),
        48..=63 | 80..=95 => Some(8),
        96..=223 => row_is_wrong(at / 16, at % 16, byte).then_some(9),
        224.. => Some(10),
        _ => None,
    }
}

fn used_slot_is_wrong(place: usize, byte: u8) -> bool {
    match place {
        0 | 1 => byte > 7,
        2 | 3 => true,
        // the only bytes of the wrap and of the sequence number that aren't 0
        7 | 15 => byte == 0,
        _ => false,
    }
}

// The rows 0 to 7 are the lines 6 to 13.
fn row_is_wrong(line: usize, place: usize, byte: u8) -> bool {
    match (place, line) {
        // with the number 0 a row may be absent or hold it
        (0, 7 | 8 | 10 | 12) => byte > 1,
        (0, _) => byte != 1,
        (1, _) => byte != 0 && byte != 1 && byte != 3,
        (2..=7, _) => true,
        // an absent row has the number 0
        (_, 7 | 10 | 12) => true,
        _ => false,
    }
}

#[test]
fn names_the_first_wrong_field(rt: HostRuntime) {
    for at in 0..512 {
        for change in [1, 2, 4, 8, 128, 255] {
            let mut bytes = good_bytes();
            bytes[at] ^= change;
            let field = DataBlock::read(&bytes).err().map(|bad| bad.field);
            assert_eq!(rt;
                field,
                expected_field(at, bytes[at]),
                "at {at} with {change}"
            );
        }
    }
}

#[test]
fn names_the_first_of_two_wrong_fields(rt: HostRuntime) {
    // A byte of each field that may be wrong, whose change makes it so whatever it was.
    let places = [(0, 1), (1, 2), (4, 4), (24, 7), (34, 8), (98, 9), (511, 10)];
    for (first, field) in places {
        for (second, later) in places {
            if field < later {
                let mut bytes = good_bytes();
                bytes[first] ^= 255;
                bytes[second] ^= 255;
                assert_eq!(rt;
                    DataBlock::read(&bytes).err(),
                    Some(BadBlock { field }),
                    "{field} and {later}"
                );
            }
        }
    }
}

#[test]
fn reads_and_writes_a_block(rt: HostRuntime) {
    let bytes = good_bytes();
    let Ok(block) = DataBlock::read(&bytes) else {
        panic!(rt; "the good block is refused");
    };
    assert_eq!(rt;
        (block.number(), block.version(), block.scn()),
        (BlockNo(0x0105), 1, Scn(2))
    );
    let rows = [
        (Value::Num(-5), 1),
        (Value::Absent, 0),
        (Value::Num(0), 0),
        (Value::Num(i64::MIN), 3),
        (Value::Absent, 3),
        (Value::Num(42), 0),
        (Value::Absent, 0),
        (Value::Num(0x0102_0304_0506_0708), 1),
    ];
    for r in 0..8 {
        assert_eq!(rt;
            (block.row(r), block.lock(r)),
            rows[usize::from(r)],
            "row {r}"
        );
    }
    let slots = [
        slot(7, 0, 1, 2),
        slot(0, 0, 0, 0),
        slot(2, 5, 4, 8),
        slot(0, 0, 0, 0),
    ];
    for k in 0..4 {
        assert_eq!(rt; block.itl(k + 1), slots[usize::from(k)], "ITL slot {k}");
    }
    expect_bytes(&rt, &block.copy(), &bytes);
}

fn slot(seg: u8, slot: u8, wrap: u32, seq: u64) -> ItlSlot {
    let seg = InstNo(seg);
    ItlSlot {
        xid: Xid { seg, slot, wrap },
        seq,
    }
}

fn expect_bytes(rt: &impl Abort, block: &DataBlock, want: &[u8; 512]) {
    let mut out = [9; 512];
    block.write(&mut out);
    assert_eq!(rt; out, *want);
}

const UNUSED: ItlSlot = ItlSlot {
    xid: Xid {
        seg: InstNo(0),
        slot: 0,
        wrap: 0,
    },
    seq: 0,
};

const CHANGE: RowChange = RowChange {
    row: 3,
    lock: 2,
    itl: 2,
    fresh: true,
    slot: ItlSlot {
        xid: Xid {
            seg: InstNo(1),
            slot: 4,
            wrap: 6,
        },
        seq: 9,
    },
    value: Value::Num(-1),
};

#[test]
fn changes_rows_and_takes_the_changes_back(rt: HostRuntime) {
    let mut block = DataBlock::empty(BlockNo(7));
    let mut want = [0; 512];
    want[..4].copy_from_slice(&[1, 1, 0, 7]);
    expect_bytes(&rt, &block, &want);

    block.apply(&CHANGE, Scn(5));
    // the version, the SCN, ITL slot 2 and row 3
    want[15] = 1;
    want[23] = 5;
    want[48..64].copy_from_slice(&[1, 4, 0, 0, 0, 0, 0, 6, 0, 0, 0, 0, 0, 0, 0, 9]);
    want[144..160].copy_from_slice(&[
        1, 2, 0, 0, 0, 0, 0, 0, 255, 255, 255, 255, 255, 255, 255, 255,
    ]);
    expect_bytes(&rt, &block, &want);

    // another transaction takes the slot: row 3 isn't locked any more
    let mut slot = CHANGE.slot;
    slot.xid.wrap = 7;
    block.apply(
        &RowChange {
            row: 5,
            slot,
            value: Value::Num(1),
            ..CHANGE
        },
        Scn(6),
    );
    want[15] = 2;
    want[23] = 6;
    want[55] = 7;
    want[145] = 0;
    want[176] = 1;
    want[177] = 2;
    want[191] = 1;
    expect_bytes(&rt, &block, &want);

    // the slot before it was used: row 5 keeps its lock
    block.restore(2, CHANGE.slot, 5, Value::Absent);
    want[55] = 6;
    want[176] = 0;
    want[191] = 0;
    expect_bytes(&rt, &block, &want);

    // the slot was unused: no row keeps a lock by it
    block.restore(2, UNUSED, 3, Value::Absent);
    want[48..64].fill(0);
    want[144..160].fill(0);
    want[177] = 0;
    expect_bytes(&rt, &block, &want);
}
