use crate::told::tell_waves;
use crate::{report, summary};
use base_types::{BlockNo, InstNo, NoMemory, RowNo, Scn, Sequence, Value, Xid};
use journal::{Cause, Entry, Journal, RowList};
use script_text::{Item, Keep, Name, Script, Stmt, Wave, read_script};
use std::alloc::Global;
use std::test::Fail;

const XID: Xid = Xid {
    seg: InstNo(2),
    slot: 7,
    wrap: 4294967295,
};

const ROW: RowNo = RowNo(511);

const LAST: Scn = Scn(18446744073709551615);

const KEEP: Keep = Keep::All;

/// The statements of the first wave but for those that name a savepoint.
const STATEMENTS: [(u32, Stmt); 20] = [
    (2, Stmt::Get(ROW)),
    (3, Stmt::Scan(RowNo(5), ROW)),
    (4, Stmt::Put(ROW, Value::Num(-1))),
    (5, Stmt::Add(ROW, -1)),
    (6, Stmt::Del(ROW)),
    (7, Stmt::Lock(ROW)),
    (8, Stmt::Lock(ROW)),
    (9, Stmt::Commit),
    (10, Stmt::Commit),
    (11, Stmt::Rollback),
    (12, Stmt::Put(ROW, Value::Absent)),
    (13, Stmt::Get(ROW)),
    (14, Stmt::Get(ROW)),
    (15, Stmt::Del(ROW)),
    (16, Stmt::Del(ROW)),
    (17, Stmt::Lock(ROW)),
    (18, Stmt::Lock(ROW)),
    (19, Stmt::Add(ROW, -1)),
    (20, Stmt::Commit),
    (21, Stmt::Get(ROW)),
];

/// The other lines of the first wave behind its statements.
const FIRST: [(u32, Item); 10] = [
    (
        26,
        Item::Hold {
            reader: 0,
            until: 0,
        },
    ),
    (
        27,
        Item::CrashAfter {
            inst: InstNo(1),
            steps: 9,
            keep: KEEP,
        },
    ),
    (
        28,
        Item::CrashMark {
            inst: InstNo(1),
            keep: KEEP,
        },
    ),
    (29, Item::Start { inst: InstNo(1) }),
    (30, Item::Start { inst: InstNo(1) }),
    (
        31,
        Item::Remaster {
            bucket: 3,
            to: InstNo(1),
        },
    ),
    (
        32,
        Item::Remaster {
            bucket: 4,
            to: InstNo(9),
        },
    ),
    (33, Item::Checkpoint { inst: InstNo(1) }),
    (34, Item::Checkpoint { inst: InstNo(9) }),
    (
        35,
        Item::CrashAfter {
            inst: InstNo(3),
            steps: 1,
            keep: KEEP,
        },
    ),
];

/// The lines of the second wave. The start of instance 1, the crash of 3 and the get have no answer.
const SECOND: [(u32, Item); 6] = [
    (
        37,
        Item::CrashMark {
            inst: InstNo(1),
            keep: KEEP,
        },
    ),
    (38, Item::Start { inst: InstNo(2) }),
    (39, Item::Start { inst: InstNo(1) }),
    (
        40,
        Item::CrashAfter {
            inst: InstNo(3),
            steps: 1,
            keep: KEEP,
        },
    ),
    (
        41,
        Item::CrashMark {
            inst: InstNo(2),
            keep: KEEP,
        },
    ),
    (
        42,
        Item::Stmt {
            session: 0,
            what: Stmt::Get(ROW),
        },
    ),
];

/// The rows that the scan of line 3 answers.
const ROWS: [(RowNo, Value); 3] = [
    (RowNo(5), Value::Num(-9223372036854775808)),
    (RowNo(6), Value::Num(0)),
    (ROW, Value::Num(70)),
];

/// Entries of each kind but Rows, with each cause, in another order than the script's lines.
const ENTRIES: [Entry; 43] = [
    Entry::Opened {
        session: 0,
        inst: InstNo(7),
    },
    Entry::Started {
        stmt: 10000,
        session: 0,
        snapshot: Scn(0),
    },
    // A Plain of a put tells nothing.
    Entry::Plain { stmt: 12 },
    Entry::Plain { stmt: 11 },
    Entry::Changed {
        stmt: 4,
        xid: XID,
        row: ROW,
        found: Value::Absent,
        new: Value::Num(-1),
    },
    Entry::Changed {
        stmt: 5,
        xid: XID,
        row: ROW,
        found: Value::Num(-1),
        new: Value::Num(-2),
    },
    Entry::Changed {
        stmt: 6,
        xid: XID,
        row: ROW,
        found: Value::Num(-2),
        new: Value::Absent,
    },
    Entry::Locked {
        stmt: 7,
        xid: XID,
        row: ROW,
    },
    Entry::Plain { stmt: 8 },
    Entry::Marked {
        stmt: 9,
        xid: XID,
        commit_scn: LAST,
    },
    Entry::Committed {
        xid: XID,
        commit_scn: LAST,
        inst: InstNo(2),
    },
    Entry::Acked {
        stmt: 9,
        xid: XID,
        commit_scn: LAST,
    },
    Entry::Plain { stmt: 10 },
    Entry::Refused {
        stmt: 13,
        cause: Cause::OldUndo {
            xid: XID,
            wanted: 12,
            found: 20,
        },
    },
    Entry::Refused {
        stmt: 14,
        cause: Cause::OldSlot { xid: XID, found: 3 },
    },
    Entry::Refused {
        stmt: 15,
        cause: Cause::Busy { xid: XID },
    },
    Entry::Refused {
        stmt: 16,
        cause: Cause::NoUndo { first: 8, next: 16 },
    },
    Entry::Refused {
        stmt: 17,
        cause: Cause::NoTxnSlot { inst: InstNo(7) },
    },
    Entry::Refused {
        stmt: 18,
        cause: Cause::NoItl {
            block: BlockNo(63),
            holders: [XID; 4],
        },
    },
    Entry::Refused {
        stmt: 19,
        cause: Cause::Overflow {
            found: -9223372036854775808,
            by: -1,
        },
    },
    Entry::Refused {
        stmt: 20,
        cause: Cause::Lost,
    },
    Entry::Refused {
        stmt: 21,
        cause: Cause::NotConnected,
    },
    Entry::Plain { stmt: 22 },
    Entry::Undone { xid: XID, left: 0 },
    Entry::Plain { stmt: 23 },
    Entry::Refused {
        stmt: 24,
        cause: Cause::NoSavepoint,
    },
    Entry::Refused {
        stmt: 25,
        cause: Cause::Lost,
    },
    Entry::Rolled { xid: XID },
    // An end in the first wave, of an instance that is up.
    Entry::Ended {
        inst: InstNo(2),
        bad: false,
    },
    Entry::Recovered { insts: 0 },
    Entry::Recovered { insts: 137 },
    Entry::Checkpointed { line: 33 },
    Entry::NotDone { line: 34 },
    Entry::Moved { line: 31 },
    Entry::NotDone { line: 32 },
    Entry::Crashed {
        line: 27,
        inst: InstNo(1),
    },
    Entry::NotDone { line: 28 },
    Entry::Up {
        line: 29,
        inst: InstNo(1),
    },
    Entry::NotDone { line: 30 },
    // The last line of the first wave is answered by this one.
    Entry::Ended {
        inst: InstNo(3),
        bad: true,
    },
    // In the second wave: of an instance that is up, and of one that isn't.
    Entry::Ended {
        inst: InstNo(1),
        bad: false,
    },
    Entry::Ended {
        inst: InstNo(2),
        bad: false,
    },
    Entry::NotDone { line: 41 },
];

/// What is told of the lines of both waves.
const ANSWERS: &str = "2: rows none\n\
    3: rows 5=-9223372036854775808 6=0 511=70\n\
    4: changed\n\
    5: changed\n\
    6: changed\n\
    7: locked\n\
    8: locked\n\
    9: committed\n\
    10: committed\n\
    11: rolled back\n\
    13: ORA-01555 undo 2.7.4294967295 wanted 12 found 20\n\
    14: ORA-01555 slot 2.7.4294967295 found 3\n\
    15: ORA-00054 xid 2.7.4294967295\n\
    16: ORA-30036 first 8 next 16\n\
    17: RAC-002 instance 7\n\
    18: RAC-001 block 63\n\
    19: ORA-01426 -9223372036854775808 -1\n\
    20: ORA-03113\n\
    21: ORA-03114\n\
    22: savepoint\n\
    23: rolled back\n\
    24: ORA-01086\n\
    25: ORA-03113\n\
    27: crashed\n\
    28: already down\n\
    29: up\n\
    30: already up\n\
    31: moved\n\
    32: not moved\n\
    33: checkpointed\n\
    34: not done\n\
    35: ended\n\
    37: ended\n\
    38: ended\n\
    41: already down\n";

/// A script that has some of these lines.
const SCRIPT: &[u8] =
    b"session bc9 on 0\nbc9: get 0\nbc9: get 5\nbc9: put 6 -1\n#\n#\n#\n#\nbc9: commit\n";

/// What is told of that script's lines, and then of each entry.
const REPORT: &str = "2: rows none\n\
    3: rows 5=-9223372036854775808 6=0 511=70\n\
    4: changed\n\
    9: committed\n\
    rows 2 none\n\
    rows 3 5=-9223372036854775808 6=0 511=70\n\
    opened bc9 7\n\
    started 10000 bc9 0\n\
    plain 12\n\
    plain 11\n\
    changed 4 2.7.4294967295 511 absent -1\n\
    changed 5 2.7.4294967295 511 -1 -2\n\
    changed 6 2.7.4294967295 511 -2 absent\n\
    locked 7 2.7.4294967295 511\n\
    plain 8\n\
    marked 9 2.7.4294967295 18446744073709551615\n\
    committed 2.7.4294967295 18446744073709551615 2\n\
    acked 9 2.7.4294967295 18446744073709551615\n\
    plain 10\n\
    refused 13 ORA-01555 undo 2.7.4294967295 wanted 12 found 20\n\
    refused 14 ORA-01555 slot 2.7.4294967295 found 3\n\
    refused 15 ORA-00054 xid 2.7.4294967295\n\
    refused 16 ORA-30036 first 8 next 16\n\
    refused 17 RAC-002 instance 7\n\
    refused 18 RAC-001 block 63\n\
    refused 19 ORA-01426 -9223372036854775808 -1\n\
    refused 20 ORA-03113\n\
    refused 21 ORA-03114\n\
    plain 22\n\
    undone 2.7.4294967295 0\n\
    plain 23\n\
    refused 24 ORA-01086\n\
    refused 25 ORA-03113\n\
    rolled 2.7.4294967295\n\
    ended 2\n\
    recovered\n\
    recovered 0 3 7\n\
    checkpointed 33\n\
    notdone 34\n\
    moved 31\n\
    notdone 32\n\
    crashed 27 1\n\
    notdone 28\n\
    up 29 1\n\
    notdone 30\n\
    ended 3\n\
    ended 1\n\
    ended 2\n\
    notdone 41\n";

const SUMMARY: &str = "statements 24\n\
    committed 1\n\
    rolled back 1\n\
    refused 11\n\
    sum -9223372036854775738\n";

/// The name of a savepoint.
fn savepoint(alloc: Global) -> Result<Name, NoMemory> {
    match Name::new(alloc, b"s1".as_slice())? {
        Some(name) => Ok(name),
        None => unreachable!(),
    }
}

/// The statements of the first wave.
fn statements(alloc: Global) -> Result<Vec<(u32, Stmt)>, NoMemory> {
    let mut statements = Vec::from_array(alloc, STATEMENTS)?;
    statements.push((22, Stmt::Savepoint(savepoint(alloc)?)))?;
    statements.push((23, Stmt::RollbackTo(savepoint(alloc)?)))?;
    statements.push((24, Stmt::RollbackTo(savepoint(alloc)?)))?;
    statements.push((25, Stmt::Savepoint(savepoint(alloc)?)))?;
    Ok(statements)
}

/// The first wave: a line of each kind, some more than once.
fn first_wave(alloc: Global) -> Result<Wave, NoMemory> {
    let mut wave = Wave::new(alloc);
    let opens = Item::Session {
        session: 0,
        inst: InstNo(0),
    };
    wave.push(alloc, 1, opens)?;
    for (line, what) in statements(alloc)? {
        wave.push(alloc, line, Item::Stmt { session: 0, what })?;
    }
    for (line, item) in FIRST {
        wave.push(alloc, line, item)?;
    }
    Ok(wave)
}

/// The second wave.
fn second_wave(alloc: Global) -> Result<Wave, NoMemory> {
    let mut wave = Wave::new(alloc);
    for (line, item) in SECOND {
        wave.push(alloc, line, item)?;
    }
    Ok(wave)
}

/// A Rows entry.
fn rows(alloc: Global, stmt: u32, rows: &[(RowNo, Value)]) -> Result<Entry, NoMemory> {
    let rows: RowList = Sequence::from_vec(Vec::from_slice(alloc, rows)?);
    Ok(Entry::Rows { stmt, rows })
}

/// A journal with entries of each kind.
fn journal(alloc: Global) -> Result<Journal, NoMemory> {
    let mut journal = Journal::new(alloc);
    journal.push(rows(alloc, 2, &[])?)?;
    journal.push(rows(alloc, 3, &ROWS)?)?;
    for entry in ENTRIES {
        journal.push(entry)?;
    }
    Ok(journal)
}

/// Every kind of line, entry and cause in the texts of one journal.
#[test]
fn a_journal_is_told(rt: HostRuntime) -> Result<(), Fail> {
    let alloc = rt.alloc();
    let journal = journal(alloc)?;
    let waves = Vec::from_array(alloc, [first_wave(alloc)?, second_wave(alloc)?])?;
    let told = tell_waves(alloc, waves.as_slice(), &journal)?;
    assert_eq!(rt; told.as_str(), ANSWERS);
    let script = read_script(alloc, SCRIPT)?;
    let told = report(alloc, &script, &journal, true)?;
    assert_eq!(rt; told.as_slice(), REPORT.as_bytes());
    let told = summary(alloc, &journal)?;
    assert_eq!(rt; told.as_slice(), SUMMARY.as_bytes());
    Ok(())
}
