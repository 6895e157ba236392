use super::*;
use base_types::InstNo;
use rac_disk::{CallKind, MemDisk, Planned, SharedDisk};
use std::alloc::Global;
use std::test::Fail;

/// Transaction 0.0.1 puts 42 into row 3 of block 0, with SCN 1 and sequence number 1.
const CHANGE: [u8; 236] = [
    0, 236, 1, 3, 0, 0, 0, 0, 0, 0, 0, 1, 0, 0, 0, 0, 0, 0, 0, 1, 0, 0, 0, 0, 0, 0, 0, 1, 1, 0, 8,
    0, 0, 0, 0, 0, 0, 0, 1, 0, 0, 0, 0, 0, 0, 0, 0, 2, 0, 0, 0, 1, 1, 0, 0, 0, 0, 0, 0, 0, 0, 0, 0,
    1, 0, 0, 0, 0, 0, 0, 0, 1, 0, 0, 0, 0, 0, 0, 0, 0, 0, 0, 0, 0, 0, 0, 0, 0, 2, 0, 9, 0, 0, 0, 0,
    0, 0, 0, 1, 0, 0, 0, 0, 0, 0, 0, 0, 1, 0, 1, 3, 0, 0, 0, 0, 1, 0, 0, 0, 0, 0, 0, 0, 0, 0, 0, 0,
    0, 0, 0, 0, 1, 0, 0, 0, 0, 0, 0, 0, 0, 0, 0, 0, 0, 0, 0, 0, 0, 0, 0, 0, 0, 0, 0, 0, 0, 0, 0, 0,
    0, 0, 0, 0, 0, 0, 0, 0, 0, 0, 0, 0, 0, 0, 0, 0, 0, 0, 0, 0, 0, 0, 0, 0, 0, 0, 0, 0, 0, 0, 0, 0,
    0, 0, 0, 0, 0, 3, 0, 0, 0, 0, 0, 0, 0, 0, 0, 1, 3, 1, 1, 1, 0, 0, 0, 0, 0, 0, 0, 1, 0, 0, 0, 0,
    0, 0, 0, 1, 1, 0, 0, 0, 0, 0, 0, 0, 42,
];

/// It commits with SCN 2.
const COMMIT: [u8; 88] = [
    0, 88, 4, 1, 0, 0, 0, 0, 0, 0, 0, 1, 0, 0, 0, 0, 0, 0, 0, 2, 0, 0, 0, 0, 0, 0, 0, 0, 1, 0, 8,
    0, 0, 0, 0, 0, 0, 0, 2, 0, 0, 0, 0, 0, 0, 0, 0, 2, 0, 0, 0, 1, 2, 0, 0, 0, 0, 0, 0, 0, 0, 0, 0,
    0, 0, 0, 0, 0, 0, 0, 0, 0, 0, 0, 0, 0, 0, 0, 0, 2, 0, 0, 0, 0, 0, 0, 0, 0,
];

/// What stands in the logs of threads 0 and 1, the calls of the disk that fail, and what an audit tells or
/// why it tells nothing.
struct Case<'a> {
    first: &'a [&'a [u8]],
    second: &'a [u8],
    fails: &'a [Planned],
    told: &'a str,
}

const EMPTY: Case<'static> = Case {
    first: &[],
    second: &[],
    fails: &[],
    told: "",
};

const THIRD_READ: Planned = Planned {
    what: CallKind::ReadLog,
    nth: 3,
    keep: 0,
};

const CASES: [Case<'static>; 6] = [
    EMPTY,
    Case {
        first: &[&CHANGE, &COMMIT],
        told: "commit 2 0 0.0.1 3=42\n",
        ..EMPTY
    },
    Case {
        first: &[&[0, 5, 9]],
        told: "log 0: bad at 0",
        ..EMPTY
    },
    Case {
        first: &[&[5]],
        told: "torn 0 0\n",
        ..EMPTY
    },
    Case {
        first: &[&COMMIT, &[0]],
        second: &[0, 236, 1],
        told: "commit 2 0 0.0.1 none\ntorn 0 88\ntorn 1 0\n",
        ..EMPTY
    },
    Case {
        fails: &[THIRD_READ],
        told: "disk fault",
        ..EMPTY
    },
];

/// A disk with these logs.
fn disk_of(alloc: Global, case: &Case) -> Result<MemDisk, Fail> {
    let mut disk = MemDisk::new(alloc, 200, 1_000, case.fails.to_vec(alloc)?)?;
    for part in case.first {
        disk.append(InstNo(0), part)?;
    }
    disk.append(InstNo(1), case.second)?;
    Ok(disk)
}

#[test]
fn logs_are_told(rt: HostRuntime) -> Result<(), Fail> {
    let alloc = rt.alloc();
    for case in &CASES {
        let mut disk = disk_of(alloc, case)?;
        let told = match audit(alloc, &mut disk) {
            Ok(text) => text,
            Err(error) => format!(in alloc; "{error}")?.into_bytes(),
        };
        assert_eq!(rt; told.as_slice(), case.told.as_bytes());
    }
    Ok(())
}
