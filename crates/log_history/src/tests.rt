ghost use Rattle.std.specs.Prelude.{◌≤◌, length};

use super::*;
use base_types::InstNo;
use std::alloc::{AllocError, Global};
use std::test::Fail;

/// Transaction 0.0.1 puts 42 into row 3 of block 0, with SCN 1 and sequence number 1.
const CHANGE: [u8; 236] = [
    0, 236, 1, 3, 0, 0, 0, 0, 0, 0, 0, 1, 0, 0, 0, 0, 0, 0, 0, 1, 0, 0, 0, 0, 0, 0, 0, 1, 1, 0, 8,
    0, 0, 0, 0, 0, 0, 0, 1, 0, 0, 0, 0, 0, 0, 0, 0, 2, 0, 0, 0, 1, 1, 0, 0, 0, 0, 0, 0, 0, 0, 0, 0,
    1, 0, 0, 0, 0, 0, 0, 0, 1, 0, 0, 0, 0, 0, 0, 0, 0, 0, 0, 0, 0, 0, 0, 0, 0, 2, 0, 9, 0, 0, 0, 0,
    0, 0, 0, 1, 0, 0, 0, 0, 0, 0, 0, 0, 1, 0, 1, 3, 0, 0, 0, 0, 1, 0, 0, 0, 0, 0, 0, 0, 0, 0, 0, 0,
    0, 0, 0, 0, 1, 0, 0, 0, 0, 0, 0, 0, 0, 0, 0, 0, 0, 0, 0, 0, 0, 0, 0, 0, 0, 0, 0, 0, 0, 0, 0, 0,
    0, 0, 0, 0, 0, 0, 0, 0, 0, 0, 0, 0, 0, 0, 0, 0, 0, 0, 0, 0, 0, 0, 0, 0, 0, 0, 0, 0, 0, 0, 0, 0,
    0, 0, 0, 0, 0, 3, 0, 0, 0, 0, 0, 0, 0, 0, 0, 1, 3, 1, 1, 1, 0, 0, 0, 0, 0, 0, 0, 1, 0, 0, 0, 0,
    0, 0, 0, 1, 1, 0, 0, 0, 0, 0, 0, 0, 42,
];

/// It commits with SCN 2.
const COMMIT: [u8; 88] = [
    0, 88, 4, 1, 0, 0, 0, 0, 0, 0, 0, 1, 0, 0, 0, 0, 0, 0, 0, 2, 0, 0, 0, 0, 0, 0, 0, 0, 1, 0, 8,
    0, 0, 0, 0, 0, 0, 0, 2, 0, 0, 0, 0, 0, 0, 0, 0, 2, 0, 0, 0, 1, 2, 0, 0, 0, 0, 0, 0, 0, 0, 0, 0,
    0, 0, 0, 0, 0, 0, 0, 0, 0, 0, 0, 0, 0, 0, 0, 0, 2, 0, 0, 0, 0, 0, 0, 0, 0,
];

/// It takes its change back.
const STEP_BACK: [u8; 128] = [
    0, 128, 3, 2, 0, 0, 0, 0, 0, 0, 0, 1, 0, 0, 0, 0, 0, 0, 0, 2, 0, 0, 0, 0, 0, 0, 0, 1, 1, 0, 8,
    0, 0, 0, 0, 0, 0, 0, 2, 0, 0, 0, 0, 0, 0, 0, 0, 2, 0, 0, 0, 1, 1, 0, 0, 0, 0, 0, 0, 0, 0, 0, 0,
    1, 0, 0, 0, 0, 0, 0, 0, 0, 0, 0, 0, 0, 0, 0, 0, 0, 0, 0, 0, 0, 0, 0, 0, 0, 3, 0, 0, 0, 0, 0, 0,
    0, 0, 0, 2, 3, 0, 1, 0, 0, 0, 0, 0, 0, 0, 0, 0, 0, 0, 0, 0, 0, 0, 0, 0, 0, 0, 0, 0, 0, 0, 0, 0,
    0,
];

/// A log of the parts, one behind the other.
fn log(alloc: Global, parts: &[&[u8]]) -> Result<Vec<u8>, AllocError> {
    let mut bytes = Vec::new(alloc);
    for part in parts {
        bytes.extend_from_slice(part)?;
    }
    Ok(bytes)
}

/// A Commit record of a transaction of a segment with an SCN.
fn commit(segment: u8, scn: u8) -> [u8; 88] {
    let mut bytes = COMMIT;
    bytes[4] = segment;
    bytes[19] = scn;
    bytes
}

fn tell_line(alloc: Global, line: &HistoryLine) -> Result<String, AllocError> {
    let xid = line.xid;
    let mut told = format!(in alloc; "{} {} {xid}", line.commit_scn.0, line.inst.0)?;
    for (row, value) in line.changes.as_slice() {
        let change = format!(in alloc; " {}={value}", row.0)?;
        told.push_str(change.as_str())?;
    }
    Ok(told)
}

fn tell_lines(alloc: Global, lines: &[HistoryLine], told: &mut String) -> Result<(), AllocError> {
    for line in lines {
        told.push_str(tell_line(alloc, line)?.as_str())?;
        told.push_str(";")?;
    }
    Ok(())
}

fn tell_ends(alloc: Global, torn: &[(InstNo, u64)], told: &mut String) -> Result<(), AllocError> {
    for (thread, place) in torn {
        let end = format!(in alloc; "torn {} {place};", thread.0)?;
        told.push_str(end.as_str())?;
    }
    Ok(())
}

fn tell_error(alloc: Global, error: LogError) -> Result<String, AllocError> {
    match error {
        LogError::BadLog { thread, place } => format!(in alloc; "bad {} {place}", thread.0),
        LogError::NoMemory => format!(in alloc; "no memory"),
    }
}

/// The lines of the history and the torn ends of logs, or their error.
fn tell(alloc: Global, logs: &[Vec<u8>]) -> Result<String, AllocError>
    requires { length logs.now ≤ 8 }
{
    match history_of(alloc, logs) {
        Ok((lines, torn)) => {
            let mut told = String::new(alloc);
            tell_lines(alloc, lines.as_slice(), &mut told)?;
            tell_ends(alloc, torn.as_slice(), &mut told)?;
            Ok(told)
        }
        Err(error) => tell_error(alloc, error),
    }
}

/// What is told of two threads' logs.
fn told(alloc: Global, first: &[&[u8]], second: &[&[u8]]) -> Result<String, AllocError> {
    let logs = [log(alloc, first)?, log(alloc, second)?];
    tell(alloc, &logs)
}

#[test]
fn logs_are_told(rt: HostRuntime) -> Result<(), Fail> {
    let alloc = rt.alloc();
    let whole = told(alloc, &[&CHANGE, &COMMIT], &[])?;
    assert_eq!(rt; whole.as_str(), "2 0 0.0.1 3=42;");
    let cut = told(alloc, &[&CHANGE, &COMMIT[..50]], &[])?;
    assert_eq!(rt; cut.as_str(), "torn 0 236;");
    let first_byte = told(alloc, &[&[5]], &[])?;
    assert_eq!(rt; first_byte.as_str(), "torn 0 0;");
    let no_length = told(alloc, &[&[0, 5, 9]], &[])?;
    assert_eq!(rt; no_length.as_str(), "bad 0 0");
    let behind = told(alloc, &[&COMMIT[..87]], &[&COMMIT, &[0, 5, 9]])?;
    assert_eq!(rt; behind.as_str(), "bad 1 88");
    let taken_back = told(alloc, &[&STEP_BACK], &[&CHANGE, &COMMIT])?;
    assert_eq!(rt; taken_back.as_str(), "2 1 0.0.1;");
    Ok(())
}

#[test]
fn lines_come_by_scn_and_then_by_thread(rt: HostRuntime) -> Result<(), Fail> {
    let first = [&commit(2, 3)[..], &commit(3, 5), &commit(4, 5)];
    let second = [&commit(5, 2)[..], &commit(6, 5), &commit(7, 9)];
    let lines = told(rt.alloc(), &first, &second)?;
    assert_eq!(rt;
        lines.as_str(),
        "2 1 5.0.1;3 0 2.0.1;5 0 3.0.1;5 0 4.0.1;5 1 6.0.1;9 1 7.0.1;"
    );
    Ok(())
}
