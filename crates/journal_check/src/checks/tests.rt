use crate::checks::check;
use base_types::{InstNo, NoMemory, RowNo, Scn, Value, Xid};
use journal::{Cause, Entry, Journal, RowList};
use std::alloc::Global;
use std::process::Abort;
use std::str::{FromStr, SplitWhitespace};
use std::test::Fail;

/// Journals over 16 rows that are good, each with what it is about. An entry is a word with its fields in
/// order; a transaction is its segment, slot and wrap, and `-` an absent row.
const GOOD: &[(&str, &str)] = &[
    ("nothing", ""),
    (
        "an own change seen, and committed",
        "open 0 0; start 1 0 0; rows 1 3=-; start 2 0 0; put 2 0.0.1 3 - 7; start 3 0 0; rows 3 3=7;
         start 4 0 0; mark 4 0.0.1 1; commit 0.0.1 1 0; ack 4 0.0.1 1; start 5 0 1; rows 5 3=7",
    ),
    (
        "two instances",
        "open 0 0; open 1 1; start 1 0 0; put 1 0.0.1 3 - 7; start 2 1 0; rows 2 3=-;
         start 3 0 0; mark 3 0.0.1 5; commit 0.0.1 5 0; ack 3 0.0.1 5; start 4 1 5; rows 4 3=7;
         start 5 1 5; put 5 1.0.1 3 7 8; start 6 1 5; mark 6 1.0.1 9; commit 1.0.1 9 1; ack 6 1.0.1 9;
         start 7 0 9; rows 7 3=8",
    ),
    (
        "a start below a commit that isn't answered yet",
        "open 0 0; open 1 1; start 1 0 0; put 1 0.0.1 3 - 7; start 2 0 0; mark 2 0.0.1 5; commit 0.0.1 5 0;
         start 3 1 0; rows 3 3=-; ack 2 0.0.1 5; start 4 1 5; rows 4 3=7",
    ),
    (
        "a crash, with a change that is lost and one of another instance that stays",
        "open 0 0; open 1 1; start 1 0 0; put 1 0.0.1 3 - 7; start 2 1 0; put 2 1.0.1 4 - 9; crash 1;
         start 3 0 0; rows 3 3=7 4=-; start 4 0 0; put 4 0.0.1 4 - 1; up 1; open 1 1; start 5 1 0;
         rows 5 3=- 4=-",
    ),
    (
        "a disk fault, and the instance started again",
        "open 0 0; start 1 0 0; put 1 0.0.1 3 - 7; start 2 0 0; end 0; lost 2; up 0; open 0 0;
         start 3 0 0; rows 3 3=-; start 4 0 0; put 4 0.0.2 3 - 8; start 5 0 0; rows 5 3=8",
    ),
    (
        "a lost transaction whose name is given again",
        "open 0 0; open 1 1; start 1 1 0; put 1 1.0.1 3 - 7; crash 1; up 1; open 1 1; start 2 1 0;
         put 2 1.0.1 4 - 9; start 3 1 0; rows 3 3=- 4=9; start 4 1 0; mark 4 1.0.1 2; commit 1.0.1 2 1;
         ack 4 1.0.1 2; start 5 0 2; rows 5 3=- 4=9",
    ),
    (
        "a lost mark, and its name and its SCN given again",
        "open 1 1; start 1 1 0; put 1 1.0.1 3 - 7; start 2 1 0; mark 2 1.0.1 2; crash 1; up 1; open 1 1;
         start 3 1 0; put 3 1.0.1 4 - 9; start 4 1 0; mark 4 1.0.1 2; commit 1.0.1 2 1; ack 4 1.0.1 2;
         start 5 1 2; rows 5 3=- 4=9",
    ),
    (
        "an undone change",
        "open 0 0; start 1 0 0; put 1 0.0.1 3 - 7; start 2 0 0; put 2 0.0.1 3 7 8; start 3 0 0; rows 3 3=8;
         undo 0.0.1 1; start 4 0 0; rows 4 3=7; start 5 0 0; mark 5 0.0.1 1; commit 0.0.1 1 0;
         ack 5 0.0.1 1; start 6 0 1; rows 6 3=7",
    ),
    (
        "a rollback beside another transaction",
        "open 0 0; open 1 0; start 1 0 0; put 1 0.0.1 3 - 7; start 2 1 0; put 2 0.1.1 4 - 9; undo 0.1.1 0;
         roll 0.1.1; start 3 1 0; put 3 0.1.2 4 - 5; start 4 0 0; rows 4 3=7 4=-",
    ),
    (
        "a whole rollback, and the row changed by another",
        "open 0 0; open 1 0; start 1 0 0; put 1 0.0.1 3 - 7; start 2 0 0; undo 0.0.1 0; roll 0.0.1; plain 2;
         start 3 0 0; rows 3 3=-; start 4 1 0; put 4 0.1.1 3 - 8",
    ),
    (
        "a commit learnt late, after one with a higher SCN and after a read at that one",
        "open 0 0; open 1 1; start 1 0 0; put 1 0.0.1 3 - 7; start 2 0 0; mark 2 0.0.1 2;
         start 3 1 0; put 3 1.0.1 4 - 9; start 4 1 0; mark 4 1.0.1 5; commit 1.0.1 5 1; ack 4 1.0.1 5;
         start 5 1 5; rows 5 3=7 4=9; commit 0.0.1 2 0; ack 2 0.0.1 2",
    ),
    (
        "a commit learnt after the crash of its instance",
        "open 0 0; open 1 1; open 2 0; start 1 1 0; put 1 1.0.1 3 - 7; start 2 1 0; mark 2 1.0.1 2; crash 1;
         lost 2; start 3 0 2; rows 3 3=7; commit 1.0.1 2 1; start 4 2 1; rows 4 3=-",
    ),
    (
        "a lock, and a change of the row by its holder",
        "open 0 0; open 1 0; start 1 0 0; lock 1 0.0.1 3; start 2 1 0; busy 2 0.0.1; start 3 0 0;
         put 3 0.0.1 3 - 7; start 4 0 0; mark 4 0.0.1 1; start 5 1 0; lock 5 0.1.1 3; commit 0.0.1 1 0;
         ack 4 0.0.1 1; start 6 1 1; put 6 0.1.1 3 7 8",
    ),
    (
        "a lock undone, and the row locked by another",
        "open 0 0; open 1 0; start 1 0 0; lock 1 0.0.1 3; start 2 0 0; lock 2 0.0.1 4; undo 0.0.1 1;
         start 3 1 0; lock 3 0.1.1 4",
    ),
    (
        "a refused statement, and one that starts again at a higher SCN",
        "open 0 0; open 1 1; start 1 0 0; put 1 0.0.1 3 - 7; start 2 1 0; busy 2 0.0.1; start 3 1 0;
         start 4 0 0; mark 4 0.0.1 2; commit 0.0.1 2 0; ack 4 0.0.1 2; start 3 1 2; put 3 1.0.1 3 7 8",
    ),
    (
        "commits that enter in the other order than their SCNs",
        "open 0 0; open 1 1; start 1 0 0; put 1 0.0.1 3 - 7; start 2 0 0; mark 2 0.0.1 5;
         start 3 1 5; put 3 1.0.1 3 7 8; start 4 1 5; mark 4 1.0.1 6; commit 1.0.1 6 1; commit 0.0.1 5 0;
         start 5 0 5; rows 5 3=7; start 6 0 6; rows 6 3=8",
    ),
    (
        "commits at one SCN that enter in the other order than their instances",
        "open 0 0; open 1 1; start 1 0 0; put 1 0.0.1 3 - -; start 2 0 0; mark 2 0.0.1 5;
         start 3 1 0; put 3 1.0.1 3 - 8; start 4 1 0; mark 4 1.0.1 5; commit 1.0.1 5 1; commit 0.0.1 5 0;
         start 5 0 5; rows 5 3=8",
    ),
    (
        "a deleted row, and all rows up to the last",
        "open 0 0; start 1 0 0; put 1 0.0.1 15 - -3; start 2 0 0; put 2 0.0.1 0 - 4; start 3 0 0;
         put 3 0.0.1 0 4 -; start 4 0 0; rows 4 0=- 1=- 15=-3",
    ),
];

/// Journals over 16 rows that aren't good, each with the clause that doesn't hold. (What a change, an answer
/// or a start names is asked for by a second clause too.)
const BROKEN: &[(&str, &str)] = &[
    (
        "rows_exist: an answer lists a row that isn't there",
        "open 0 0; start 1 0 0; rows 1 3=- 16=-",
    ),
    (
        "rows_exist: a row that isn't there is changed",
        "open 0 0; start 1 0 0; put 1 0.0.1 16 - 7",
    ),
    (
        "rows_exist: a row that isn't there is locked",
        "open 0 0; start 1 0 0; lock 1 0.0.1 16",
    ),
    (
        "named: a lock by a statement that hasn't started",
        "open 0 0; start 1 0 0; lock 2 0.0.1 3; start 2 0 0",
    ),
    (
        "named and listed: an answer of a statement that hasn't started",
        "open 0 0; start 1 0 0; rows 2",
    ),
    (
        "listed: rows in falling order",
        "open 0 0; start 1 0 0; rows 1 4=- 3=-",
    ),
    (
        "listed: a row twice",
        "open 0 0; start 1 0 0; rows 1 3=- 3=-",
    ),
    (
        "listed: another value, in the last entry",
        "open 0 0; start 1 0 0; put 1 0.0.1 3 - 7; start 2 0 0; rows 2 3=8",
    ),
    (
        "listed: the own change left out",
        "open 0 0; start 1 0 0; put 1 0.0.1 3 - 7; start 2 0 0; rows 2 3=-",
    ),
    (
        "listed: a change of another that isn't committed",
        "open 0 0; open 1 0; start 1 0 0; put 1 0.0.1 3 - 7; start 2 1 0; rows 2 3=7",
    ),
    (
        "listed: a commit above the SCN of the start",
        "open 0 0; open 1 1; start 1 0 0; put 1 0.0.1 3 - 7; start 2 0 0; mark 2 0.0.1 5; commit 0.0.1 5 0;
         start 3 1 4; rows 3 3=7",
    ),
    (
        "listed: a commit left out that enters later",
        "open 0 0; open 1 1; start 1 0 0; put 1 0.0.1 3 - 7; start 2 0 0; mark 2 0.0.1 2;
         start 3 1 5; rows 3 3=-; commit 0.0.1 2 0",
    ),
    (
        "listed: the commit that entered last for that with the highest SCN",
        "open 0 0; open 1 1; start 1 0 0; put 1 0.0.1 3 - 7; start 2 0 0; mark 2 0.0.1 5;
         start 3 1 5; put 3 1.0.1 3 7 8; start 4 1 5; mark 4 1.0.1 6; commit 1.0.1 6 1; commit 0.0.1 5 0;
         start 5 0 6; rows 5 3=7",
    ),
    (
        "listed: at one SCN the commit that entered last for that of the highest instance",
        "open 0 0; open 1 1; start 1 0 0; put 1 0.0.1 3 - -; start 2 0 0; mark 2 0.0.1 5;
         start 3 1 0; put 3 1.0.1 3 - 8; start 4 1 0; mark 4 1.0.1 5; commit 1.0.1 5 1; commit 0.0.1 5 0;
         start 5 0 5; rows 5 3=-",
    ),
    (
        "listed: an undone change",
        "open 0 0; start 1 0 0; put 1 0.0.1 3 - 7; undo 0.0.1 0; start 2 0 0; rows 2 3=7",
    ),
    (
        "listed: a change that a crash took",
        "open 1 1; start 1 1 0; put 1 1.0.1 3 - 7; crash 1; up 1; open 1 1; start 2 1 0; rows 2 3=7",
    ),
    (
        "listed: a change that a crash took, of a name that was given again and has committed",
        "open 1 1; start 1 1 0; put 1 1.0.1 3 - 7; crash 1; up 1; open 1 1; start 2 1 0;
         put 2 1.0.1 4 - 9; start 3 1 0; mark 3 1.0.1 2; commit 1.0.1 2 1; start 4 1 2; rows 4 3=7 4=9",
    ),
    (
        "named and found: a change by a statement that hasn't started",
        "open 0 0; start 1 0 0; put 2 0.0.1 3 - 7; start 2 0 0",
    ),
    (
        "found: a value that the row didn't hold",
        "open 0 0; start 1 0 0; put 1 0.0.1 3 6 7",
    ),
    (
        "found: the own change left out",
        "open 0 0; start 1 0 0; put 1 0.0.1 3 - 7; start 2 0 0; put 2 0.0.1 3 - 8",
    ),
    (
        "found: a commit left out that enters later",
        "open 0 0; open 1 1; start 1 0 0; put 1 0.0.1 3 - 7; start 2 0 0; mark 2 0.0.1 2;
         start 3 1 2; put 3 1.0.1 3 - 8; commit 0.0.1 2 0",
    ),
    (
        "commits: by another instance",
        "open 0 0; start 1 0 0; lock 1 0.0.1 3; start 2 0 0; mark 2 0.0.1 1; commit 0.0.1 1 1",
    ),
    (
        "commits: without a mark",
        "open 0 0; start 1 0 0; lock 1 0.0.1 3; start 2 0 0; commit 0.0.1 1 0",
    ),
    (
        "commits: at another SCN than the mark's",
        "open 0 0; start 1 0 0; lock 1 0.0.1 3; start 2 0 0; mark 2 0.0.1 1; commit 0.0.1 2 0",
    ),
    (
        "commits: before the mark",
        "open 0 0; start 1 0 0; lock 1 0.0.1 3; start 2 0 0; commit 0.0.1 1 0; mark 2 0.0.1 1",
    ),
    (
        "commits: twice, at two SCNs",
        "open 0 0; start 1 0 0; lock 1 0.0.1 3; start 2 0 0; mark 2 0.0.1 1; mark 2 0.0.1 2;
         commit 0.0.1 1 0; commit 0.0.1 2 0",
    ),
    (
        "commits: two of one instance at one SCN",
        "open 0 0; open 1 0; start 1 0 0; lock 1 0.0.1 3; start 2 1 0; lock 2 0.1.1 4; start 3 0 0;
         mark 3 0.0.1 1; start 4 1 0; mark 4 0.1.1 1; commit 0.0.1 1 0; commit 0.1.1 1 0",
    ),
    (
        "commits: a change after it",
        "open 0 0; start 1 0 0; lock 1 0.0.1 3; start 2 0 0; mark 2 0.0.1 1; commit 0.0.1 1 0;
         start 3 0 1; put 3 0.0.1 3 - 7",
    ),
    (
        "commits: a lock after it",
        "open 0 0; start 1 0 0; lock 1 0.0.1 3; start 2 0 0; mark 2 0.0.1 1; commit 0.0.1 1 0;
         start 3 0 1; lock 3 0.0.1 3",
    ),
    (
        "commits: a mark after it",
        "open 0 0; start 1 0 0; lock 1 0.0.1 3; start 2 0 0; mark 2 0.0.1 1; commit 0.0.1 1 0; mark 2 0.0.1 1",
    ),
    (
        "commits: undone after it",
        "open 0 0; start 1 0 0; lock 1 0.0.1 3; start 2 0 0; mark 2 0.0.1 1; commit 0.0.1 1 0; undo 0.0.1 0",
    ),
    (
        "commits: rolled back after it",
        "open 0 0; start 1 0 0; lock 1 0.0.1 3; start 2 0 0; mark 2 0.0.1 1; commit 0.0.1 1 0; roll 0.0.1",
    ),
    (
        "acknowledgements: without a mark of that statement",
        "open 0 0; start 1 0 0; lock 1 0.0.1 3; start 2 0 0; mark 2 0.0.1 1; commit 0.0.1 1 0; ack 3 0.0.1 1",
    ),
    (
        "acknowledgements: of another transaction",
        "open 0 0; start 1 0 0; lock 1 0.0.1 3; start 2 0 0; mark 2 0.0.1 1; commit 0.0.1 1 0; ack 2 0.0.2 1",
    ),
    (
        "acknowledgements: at another SCN",
        "open 0 0; start 1 0 0; lock 1 0.0.1 3; start 2 0 0; mark 2 0.0.1 1; commit 0.0.1 1 0; ack 2 0.0.1 2",
    ),
    (
        "acknowledgements: before the commit enters",
        "open 0 0; start 1 0 0; lock 1 0.0.1 3; start 2 0 0; mark 2 0.0.1 1; ack 2 0.0.1 1; commit 0.0.1 1 0",
    ),
    (
        "starts: below a commit of another instance that was answered",
        "open 0 0; open 1 1; start 1 0 0; lock 1 0.0.1 3; start 2 0 0; mark 2 0.0.1 5; commit 0.0.1 5 0;
         ack 2 0.0.1 5; start 3 1 4",
    ),
    (
        "starts: below an earlier start of its session",
        "open 0 0; start 1 0 4; start 2 0 3",
    ),
    (
        "named and starts: in a session that wasn't opened",
        "open 0 0; start 1 1 0; open 1 0",
    ),
    (
        "starts: on an instance that crashed",
        "open 0 0; crash 0; start 1 0 0",
    ),
    (
        "starts: on an instance that ended",
        "open 0 0; end 0; start 1 0 0",
    ),
    (
        "starts: in a session that was opened before its instance came up",
        "open 0 0; crash 0; up 0; start 1 0 0",
    ),
    (
        "row_locks: a change of a row that another has changed",
        "open 0 0; open 1 1; start 1 0 0; put 1 0.0.1 3 - 7; start 2 1 0; put 2 1.0.1 3 - 8",
    ),
    (
        "row_locks: a change of a row that another has locked",
        "open 0 0; open 1 0; start 1 0 0; lock 1 0.0.1 3; start 2 1 0; put 2 0.1.1 3 - 8",
    ),
    (
        "row_locks: a lock of a row that another has changed",
        "open 0 0; open 1 0; start 1 0 0; put 1 0.0.1 3 - 7; start 2 1 0; lock 2 0.0.2 3",
    ),
    (
        "replay: a commit that didn't find what one before it put",
        "open 0 0; open 1 1; start 1 0 0; put 1 0.0.1 3 - 7; start 2 0 0; mark 2 0.0.1 5;
         start 3 1 0; put 3 1.0.1 3 - 8; start 4 1 0; mark 4 1.0.1 6; commit 0.0.1 5 0; commit 1.0.1 6 1",
    ),
];

fn number<F: FromStr>(rt: &impl Abort, word: Option<&str>) -> F
where
    F::Err: Drop,
{
    let word = word.expect(rt, "a word");
    word.parse::<F>().ok().expect(rt, "a number")
}

fn value(rt: &impl Abort, word: Option<&str>) -> Value {
    match word {
        Some("-") => Value::Absent,
        word => Value::Num(number(rt, word)),
    }
}

fn xid(rt: &impl Abort, word: Option<&str>) -> Xid {
    let mut parts = word.expect(rt, "a transaction").split('.');
    Xid {
        seg: InstNo(number(rt, parts.next())),
        slot: number(rt, parts.next()),
        wrap: number(rt, parts.next()),
    }
}

fn rows(
    rt: &impl Abort,
    alloc: Global,
    words: &mut SplitWhitespace<'_>,
) -> Result<RowList, NoMemory> {
    let mut rows = RowList::new(alloc);
    for word in words {
        let (row, found) = word.split_once('=').expect(rt, "a row and its value");
        rows.push((RowNo(number(rt, Some(row))), value(rt, Some(found))))?;
    }
    Ok(rows)
}

fn entry(rt: &impl Abort, alloc: Global, text: &str) -> Result<Entry, NoMemory> {
    let mut words = text.split_whitespace();
    let kind = words.next().expect(rt, "an entry");
    let entry = match kind {
        "open" => Entry::Opened {
            session: number(rt, words.next()),
            inst: InstNo(number(rt, words.next())),
        },
        "start" => Entry::Started {
            stmt: number(rt, words.next()),
            session: number(rt, words.next()),
            snapshot: Scn(number(rt, words.next())),
        },
        "rows" => Entry::Rows {
            stmt: number(rt, words.next()),
            rows: rows(rt, alloc, &mut words)?,
        },
        "put" => Entry::Changed {
            stmt: number(rt, words.next()),
            xid: xid(rt, words.next()),
            row: RowNo(number(rt, words.next())),
            found: value(rt, words.next()),
            new: value(rt, words.next()),
        },
        "lock" => Entry::Locked {
            stmt: number(rt, words.next()),
            xid: xid(rt, words.next()),
            row: RowNo(number(rt, words.next())),
        },
        "mark" => Entry::Marked {
            stmt: number(rt, words.next()),
            xid: xid(rt, words.next()),
            commit_scn: Scn(number(rt, words.next())),
        },
        _ => outcome(rt, kind, &mut words),
    };
    assert!(rt; words.next().is_none(), "{text}: a word too many");
    Ok(entry)
}

fn outcome(rt: &impl Abort, kind: &str, words: &mut SplitWhitespace<'_>) -> Entry {
    match kind {
        "commit" => Entry::Committed {
            xid: xid(rt, words.next()),
            commit_scn: Scn(number(rt, words.next())),
            inst: InstNo(number(rt, words.next())),
        },
        "ack" => Entry::Acked {
            stmt: number(rt, words.next()),
            xid: xid(rt, words.next()),
            commit_scn: Scn(number(rt, words.next())),
        },
        "undo" => Entry::Undone {
            xid: xid(rt, words.next()),
            left: number(rt, words.next()),
        },
        "roll" => Entry::Rolled {
            xid: xid(rt, words.next()),
        },
        "plain" => Entry::Plain {
            stmt: number(rt, words.next()),
        },
        "busy" => Entry::Refused {
            stmt: number(rt, words.next()),
            cause: Cause::Busy {
                xid: xid(rt, words.next()),
            },
        },
        "lost" => Entry::Refused {
            stmt: number(rt, words.next()),
            cause: Cause::Lost,
        },
        "crash" => Entry::Crashed {
            line: 0,
            inst: InstNo(number(rt, words.next())),
        },
        "end" => Entry::Ended {
            inst: InstNo(number(rt, words.next())),
            bad: false,
        },
        "up" => Entry::Up {
            line: 0,
            inst: InstNo(number(rt, words.next())),
        },
        _ => rt.panic(format_args!("{kind}: no kind of entry")),
    }
}

fn journal(rt: &impl Abort, alloc: Global, text: &str) -> Result<Journal, NoMemory> {
    let mut journal = Journal::new(alloc);
    for part in text.split(';') {
        if !part.trim().is_empty() {
            journal.push(entry(rt, alloc, part)?)?;
        }
    }
    Ok(journal)
}

#[test]
fn takes_journals_that_are_good(rt: HostRuntime) -> Result<(), Fail> {
    for (about, text) in GOOD {
        let journal = journal(&rt, rt.alloc(), text)?;
        assert!(rt; check(rt.alloc(), 16, &journal)?, "{about}");
    }
    Ok(())
}

#[test]
fn refuses_journals_by_each_clause(rt: HostRuntime) -> Result<(), Fail> {
    for (clause, text) in BROKEN {
        let journal = journal(&rt, rt.alloc(), text)?;
        assert!(rt; !check(rt.alloc(), 16, &journal)?, "{clause}");
    }
    Ok(())
}
