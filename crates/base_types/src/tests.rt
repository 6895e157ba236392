ghost use Rattle.std.specs.Prelude.{◌<◌, ◌≤◌};
ghost use Rattle.base_types.specs.Layout.{IsLayout};

use super::*;
use std::process::Abort;
use std::test::Fail;

// Wants the block of a header, the block of an undo record, and how many blocks there are.
fn expect_blocks(rt: &impl Abort, layout: Layout, at: UndoAt, want: (u16, u16, u16))
    requires layout { IsLayout layout }
    requires in_range { at.seg < layout.instances }
    requires numbered { 1 ≤ at.seq }
{
    let head = layout.head_block(at.seg);
    let undo = layout.undo_block(at);
    let total = layout.total();
    assert_eq!(rt; (head.0, undo.0, total), want, "at {at:?}");
}

#[test]
fn lays_out_the_smallest_and_the_largest_disk(rt: HostRuntime) {
    let smallest = Layout {
        instances: 1,
        blocks: 1,
        undo: 8,
    };
    for (seq, block) in [(1, 2), (4, 2), (5, 3), (8, 3), (9, 2)] {
        assert!(rt; seq >= 1);
        let seg = InstNo(0);
        expect_blocks(&rt, smallest, UndoAt { seg, seq }, (1, block, 4));
    }
    let largest = Layout {
        instances: 8,
        blocks: 64,
        undo: 64,
    };
    for (seg, seq, head, block) in [
        (0, 1, 64, 65),
        (0, 64, 64, 80),
        (1, 1, 81, 82),
        (7, 64, 183, 199),
        (7, u64::MAX, 183, 199),
    ] {
        assert!(rt; seg < 8);
        assert!(rt; seq >= 1);
        let seg = InstNo(seg);
        expect_blocks(&rt, largest, UndoAt { seg, seq }, (head, block, 200));
    }
}

#[test]
fn puts_and_gets_and_prints(rt: HostRuntime) -> Result<(), Fail> {
    let xid = Xid {
        seg: InstNo(7),
        slot: 5,
        wrap: 0xf0e0_d0c0,
    };
    let mut bytes = [0xff; 24];
    put_u16(&mut bytes, 1, 0x0102);
    put_u32(&mut bytes, 3, 0x0304_0506);
    put_u64(&mut bytes, 7, 0x0708_090a_0b0c_0d0e);
    put_xid(&mut bytes, 15, xid);
    let want = [
        0xff, 1, 2, 3, 4, 5, 6, 7, 8, 9, 10, 11, 12, 13, 14, 7, 5, 0, 0, 0xf0, 0xe0, 0xd0, 0xc0,
        0xff,
    ];
    assert_eq!(rt; bytes, want);
    assert_eq!(rt; get_u16(&want, 1), 0x0102);
    assert_eq!(rt; get_u32(&want, 3), 0x0304_0506);
    assert_eq!(rt; get_u64(&want, 7), 0x0708_090a_0b0c_0d0e);
    assert_eq!(rt; get_xid(&want, 15), xid);

    for (value, want) in [
        (Value::Num(-5), "-5"),
        (Value::Absent, "absent"),
        (Value::Num(i64::MIN), "-9223372036854775808"),
    ] {
        let text = format!(in rt.alloc(); "{value}")?;
        assert_eq!(rt; text.as_str(), want);
    }
    for (seg, slot, wrap, want) in [(0, 0, 1, "0.0.1"), (7, 7, u32::MAX, "7.7.4294967295")] {
        let seg = InstNo(seg);
        let xid = Xid { seg, slot, wrap };
        let text = format!(in rt.alloc(); "{xid}")?;
        assert_eq!(rt; text.as_str(), want);
    }
    Ok(())
}

#[test]
fn lists_take_items(rt: HostRuntime) -> Result<(), Fail> {
    let mut rows = Sequence::new(rt.alloc());
    for row in [RowNo(3), RowNo(1)] {
        rows.push(row)?;
    }
    assert_eq!(rt; rows.as_slice(), [RowNo(3), RowNo(1)].as_slice());
    Ok(())
}
