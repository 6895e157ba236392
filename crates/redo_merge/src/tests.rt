use super::*;
use base_types::{BlockNo, InstNo, NoMemory, Scn, Sequence, Xid};
use redo_types::{HeadChange, Redo, RedoKind, TxnSlot, TxnState};
use std::alloc::Global;
use std::process::Abort;
use std::test::Fail;

// A record with this SCN, told apart by its sequence number.
fn record(scn: u64, seq: u64) -> Redo {
    Redo {
        kind: RedoKind::Commit,
        xid: Xid {
            seg: InstNo(0),
            slot: 0,
            wrap: 1,
        },
        scn: Scn(scn),
        seq,
        head: HeadChange {
            block: BlockNo(8),
            version: 1,
            slot: 0,
            next: 1,
            to: TxnSlot {
                wrap: 1,
                state: TxnState::Committed,
                first: 0,
                last: 0,
                scn: Scn(scn),
                prev: Scn(0),
            },
        },
        undo: None,
        row: None,
    }
}

// A thread with these records.
fn thread(alloc: Global, number: u8, records: &[Redo]) -> Result<ThreadRedo, NoMemory> {
    Ok(ThreadRedo {
        thread: InstNo(number),
        records: Sequence::from_vec(records.to_vec(alloc)?),
    })
}

// The merge has these records, each by its thread, its SCN and its sequence number.
fn expect_merge(
    rt: &impl Abort,
    alloc: Global,
    threads: &[ThreadRedo],
    expected: &[(u8, u64, u64)],
) -> Result<(), NoMemory> {
    let merged = merge(alloc, threads)?;
    assert_eq!(rt; merged.len(), expected.len());
    for (it, (number, scn, seq)) in merged.as_slice().iter().zip(expected.iter()) {
        assert_eq!(rt; it.thread.get(), *number);
        assert_eq!(rt; it.redo.scn.get(), *scn);
        assert_eq!(rt; it.redo.seq, *seq);
    }
    Ok(())
}

#[test]
fn records_go_by_scn_and_then_by_thread(rt: HostRuntime) -> Result<(), Fail> {
    let threads = [
        thread(
            rt.alloc(),
            2,
            &[record(3, 20), record(5, 21), record(5, 22)],
        )?,
        thread(rt.alloc(), 0, &[record(5, 1), record(6, 2)])?,
        thread(
            rt.alloc(),
            1,
            &[record(1, 10), record(5, 11), record(7, 12)],
        )?,
    ];
    let expected = [
        (1, 1, 10),
        (2, 3, 20),
        (0, 5, 1),
        (1, 5, 11),
        (2, 5, 21),
        (2, 5, 22),
        (0, 6, 2),
        (1, 7, 12),
    ];
    expect_merge(&rt, rt.alloc(), &threads, &expected)?;
    Ok(())
}

#[test]
fn a_thread_that_falls_is_merged_too(rt: HostRuntime) -> Result<(), Fail> {
    let threads = [
        thread(rt.alloc(), 0, &[record(4, 1), record(2, 2)])?,
        thread(rt.alloc(), 1, &[record(2, 3)])?,
    ];
    expect_merge(
        &rt,
        rt.alloc(),
        &threads,
        &[(0, 2, 2), (1, 2, 3), (0, 4, 1)],
    )?;
    Ok(())
}

#[test]
fn nothing_is_merged_to_nothing(rt: HostRuntime) -> Result<(), Fail> {
    expect_merge(&rt, rt.alloc(), &[], &[])?;
    Ok(())
}
