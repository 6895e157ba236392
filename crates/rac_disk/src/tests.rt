use super::*;
use crate::shared_disk::append_both;
use base_types::{BlockNo, InstNo};
use std::process::Abort;
use std::test::Fail;

const BLOCK: BlockNo = BlockNo(199);

const THREAD: InstNo = InstNo(7);

// The round-th change of a kind: a block or a control entry of that number, four bytes more, or a log of 12
// bytes cut to three bytes fewer each time.
fn change<D: SharedDisk>(disk: &mut D, kind: CallKind, round: u8) -> Result<(), Failed> {
    match kind {
        CallKind::WriteBlock => disk.write_block(BLOCK, &[round; 512]),
        CallKind::Append => disk.append(THREAD, b"abcd"),
        CallKind::Cut => disk.cut_log(THREAD, 12u64.saturating_sub(3 * u64::from(round))),
        _ => disk.write_control(THREAD, &[round; 32]),
    }
}

// What the changes of a kind left: the number in the block or the control entry, or the log's length.
fn seen<D: SharedDisk>(disk: &mut D, kind: CallKind) -> Result<u64, Failed> {
    match kind {
        CallKind::WriteBlock => {
            let mut out = [9; 512];
            disk.read_block(BLOCK, &mut out)?;
            Ok(u64::from(out[511]))
        }
        CallKind::WriteControl => {
            let mut out = [9; 32];
            disk.read_control(THREAD, &mut out)?;
            Ok(u64::from(out[31]))
        }
        _ => disk.log_len(THREAD),
    }
}

fn read<D: SharedDisk>(disk: &mut D, kind: CallKind) -> Result<u64, Failed> {
    match kind {
        CallKind::ReadBlock => seen(disk, CallKind::WriteBlock),
        CallKind::ReadControl => seen(disk, CallKind::WriteControl),
        CallKind::ReadLog => Ok(disk.read_log(THREAD, 1, &mut [9; 8])? as u64),
        _ => disk.log_len(THREAD),
    }
}

// Three changes of a kind, of which the nth fails; what is seen after each.
fn change_thrice<D: SharedDisk>(
    rt: &impl Abort,
    disk: &mut D,
    kind: CallKind,
    nth: u8,
    want: [u64; 3],
) -> Result<(), Failed> {
    for (round, value) in [1, 2, 3].into_iter().zip(want) {
        assert_eq!(rt; change(disk, kind, round).is_err(), round == nth);
        assert_eq!(rt; seen(disk, kind)?, value);
    }
    Ok(())
}

// Four reads of a kind, of which the nth fails and the others read this.
fn read_often<D: SharedDisk>(
    rt: &impl Abort,
    disk: &mut D,
    kind: CallKind,
    nth: u8,
    value: u64,
) -> Result<(), Failed> {
    disk.write_block(BLOCK, &[5; 512])?;
    disk.append(THREAD, b"abcd")?;
    disk.write_control(THREAD, &[6; 32])?;
    for round in [1, 2, 3, 4] {
        let want = if round == nth { None } else { Some(value) };
        assert_eq!(rt; read(disk, kind).ok(), want);
    }
    Ok(())
}

// An append; whether it is done, and then the log's length and how often it was full.
fn append_counted<D: SharedDisk>(disk: &mut D, bytes: &[u8]) -> Result<(bool, u64, u64), Failed> {
    let done = disk.append(THREAD, bytes).is_ok();
    Ok((done, disk.log_len(THREAD)?, disk.full()))
}

// What the log has from a place on, at most four bytes.
fn read_part<D: SharedDisk>(
    rt: &impl Abort,
    disk: &mut D,
    at: u64,
    want: &[u8],
) -> Result<(), Failed> {
    let mut out = [b'-'; 4];
    let count = disk.read_log(THREAD, at, &mut out)?;
    assert_eq!(rt; &out[..count], want);
    assert_eq!(rt; disk.read_log(THREAD, at, &mut [])?, 0);
    Ok(())
}

// A disk with logs of 12 bytes of which the nth call of a kind fails and keeps so much. A second entry for
// it doesn't count.
fn failing(rt: &HostRuntime, what: CallKind, nth: u8, keep: u32) -> Result<MemDisk, Fail> {
    let alloc = rt.alloc();
    let nth = u32::from(nth);
    let first = Planned { what, nth, keep };
    let second = Planned {
        what,
        nth,
        keep: if keep == 0 { 5 } else { 0 },
    };
    let plan = vec![in alloc; first, second]?;
    Ok(MemDisk::new(alloc, 200, 12, plan)?)
}

#[test]
fn changes_fail_as_planned(rt: HostRuntime) -> Result<(), Fail> {
    // The kind, the number of the call that fails, and what is seen after each of three calls, where it keeps
    // nothing, 2 and 1,000.
    let cases: [(CallKind, u8, [[u64; 3]; 3]); 8] = [
        (CallKind::WriteBlock, 1, [[0, 2, 3], [1, 2, 3], [1, 2, 3]]),
        (CallKind::WriteBlock, 3, [[1, 2, 2], [1, 2, 3], [1, 2, 3]]),
        (CallKind::Append, 1, [[0, 4, 8], [2, 6, 10], [4, 8, 12]]),
        (CallKind::Append, 3, [[4, 8, 8], [4, 8, 10], [4, 8, 12]]),
        (CallKind::Cut, 1, [[12, 6, 3], [9, 6, 3], [9, 6, 3]]),
        (CallKind::Cut, 3, [[9, 6, 6], [9, 6, 3], [9, 6, 3]]),
        (CallKind::WriteControl, 1, [[0, 2, 3], [1, 2, 3], [1, 2, 3]]),
        (CallKind::WriteControl, 3, [[1, 2, 2], [1, 2, 3], [1, 2, 3]]),
    ];
    for (kind, nth, wants) in cases {
        for (keep, want) in [0, 2, 1_000].into_iter().zip(wants) {
            let mut disk = failing(&rt, kind, nth, keep)?;
            if kind == CallKind::Cut {
                disk.append(THREAD, b"abcdefghijkl")?;
            }
            change_thrice(&rt, &mut disk, kind, nth, want)?;
            assert_eq!(rt; (disk.faults(), disk.full()), (1, 0));
        }
    }
    Ok(())
}

#[test]
fn reads_fail_as_planned(rt: HostRuntime) -> Result<(), Fail> {
    // The kind, and what it reads.
    let cases: [(CallKind, u64); 4] = [
        (CallKind::ReadBlock, 5),
        (CallKind::ReadControl, 6),
        (CallKind::LogLen, 4),
        (CallKind::ReadLog, 3),
    ];
    for (kind, value) in cases {
        for (nth, keep) in [(1, 0), (1, 2), (1, 1_000), (3, 0), (3, 2), (3, 1_000)] {
            let mut disk = failing(&rt, kind, nth, keep)?;
            read_often(&rt, &mut disk, kind, nth, value)?;
            assert_eq!(rt; (disk.faults(), disk.full()), (1, 0));
        }
    }
    Ok(())
}

#[test]
fn a_log_fills_up(rt: HostRuntime) -> Result<(), Fail> {
    let alloc = rt.alloc();
    let mut disk = MemDisk::new(alloc, 200, 5, Vec::new(alloc))?;
    // The bytes, whether they were appended, and then the log's length and how often it was full.
    let cases: [(&[u8], (bool, u64, u64)); 6] = [
        (b"", (true, 0, 0)),
        (b"abc", (true, 3, 0)),
        (b"de", (true, 5, 0)),
        (b"", (true, 5, 0)),
        (b"f", (false, 5, 1)),
        (b"gh", (false, 5, 2)),
    ];
    for (bytes, want) in cases {
        assert_eq!(rt; append_counted(&mut disk, bytes)?, want);
    }
    disk.cut_log(THREAD, 4)?;
    assert_eq!(rt; append_counted(&mut disk, b"xyz")?, (false, 5, 3));
    read_part(&rt, &mut disk, 1, b"bcdx")?;
    assert_eq!(rt; disk.faults(), 0);
    Ok(())
}

#[test]
fn logs_are_cut_and_read_at_the_end(rt: HostRuntime) -> Result<(), Fail> {
    let alloc = rt.alloc();
    let mut disk = MemDisk::new(alloc, 200, 8, Vec::new(alloc))?;
    disk.append(THREAD, b"abcdef")?;
    // Where the log is cut, the place from which it is read, and what is read.
    let cases: [(u64, u64, &[u8]); 7] = [
        (7, 0, b"abcd"),
        (u64::MAX, 3, b"def"),
        (6, 5, b"f"),
        (6, 6, b""),
        (6, u64::MAX, b""),
        (5, 3, b"de"),
        (0, 0, b""),
    ];
    for (len, at, want) in cases {
        disk.cut_log(THREAD, len)?;
        read_part(&rt, &mut disk, at, want)?;
    }
    Ok(())
}

#[test]
fn two_appends_stop_at_the_first_that_fails(rt: HostRuntime) -> Result<(), Fail> {
    // The append that fails, and the log's length.
    for (nth, len) in [(1, 1), (2, 4), (3, 5)] {
        let mut disk = failing(&rt, CallKind::Append, nth, 1)?;
        let done = append_both(&mut disk, THREAD, b"abc", b"de").is_ok();
        assert_eq!(rt; (done, disk.log_len(THREAD)?), (nth == 3, len));
    }
    Ok(())
}
