use super::*;
use base_types::{BlockNo, InstNo, Scn, Value, Xid};
use redo_types::{ItlSlot, TxnSlot, TxnState, UndoRecord};

const VALUES: [(Value, u8, u64); 6] = [
    (Value::Absent, 0, 0),
    (Value::Num(0), 1, 0),
    (Value::Num(1), 1, 1),
    (Value::Num(-1), 1, 0xffff_ffff_ffff_ffff),
    (Value::Num(i64::MIN), 1, 0x8000_0000_0000_0000),
    (Value::Num(i64::MAX), 1, 0x7fff_ffff_ffff_ffff),
];

#[test]
fn values_have_their_flag_and_their_number(rt: HostRuntime) {
    for (value, flag, bits) in VALUES {
        assert_eq!(rt; (flag_of(value), bits_of(value)), (flag, bits));
        assert_eq!(rt; value_of(flag, bits), Some(value));
    }
    assert_eq!(rt; value_of(0, 1), None);
    assert_eq!(rt; value_of(2, 0), None);
}

const UNUSED: ItlSlot = ItlSlot {
    xid: Xid {
        seg: InstNo(0),
        slot: 0,
        wrap: 0,
    },
    seq: 0,
};

const USED: ItlSlot = ItlSlot {
    xid: Xid {
        seg: InstNo(7),
        slot: 3,
        wrap: 0x0102_0304,
    },
    seq: 0x0506,
};

const RECORD: UndoRecord = UndoRecord {
    seq: 9,
    slot: 3,
    itl: 4,
    row: 7,
    mine: true,
    wrap: 0x0102_0304,
    block: BlockNo(63),
    version: 5,
    prev: 8,
    old_itl: USED,
    old: Value::Num(-2),
};

const ENDED: TxnSlot = TxnSlot {
    wrap: 2,
    state: TxnState::Committed,
    first: 0,
    last: 0,
    scn: Scn(77),
    prev: Scn(33),
};

#[test]
fn what_is_put_is_read(rt: HostRuntime) {
    let mut bytes = [0xff; 200];
    put_itl(&mut bytes, 3, UNUSED);
    assert_eq!(rt; read_itl(&bytes, 3), Some(UNUSED));
    put_itl(&mut bytes, 3, USED);
    assert_eq!(rt; read_itl(&bytes, 3), Some(USED));
    let used = [7, 3, 0, 0, 1, 2, 3, 4, 0, 0, 0, 0, 0, 0, 5, 6];
    assert!(rt; &bytes[3..19] == used.as_slice());
    put_txn_slot(&mut bytes, 5, ENDED);
    assert_eq!(rt; read_txn_slot(&bytes, 5), Some(ENDED));
    put_undo_place(&mut bytes, 7, &Some(RECORD));
    assert_eq!(rt; read_undo_place(&bytes, 7), Some(Some(RECORD)));
    put_undo_place(&mut bytes, 7, &None);
    assert_eq!(rt; read_undo_place(&bytes, 7), Some(None));
    assert_eq!(rt; bytes[103], 0xff);
}
