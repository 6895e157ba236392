//! The words for an entry of the journal.

use crate::shapes::Look;
use crate::sign_words::Words;
use base_types::{NoMemory, RowNo, Value};
use journal::{Cause, Entry, RowList};
use script_text::{Item, Script, Stmt};
use std::alloc::Global;

/// How many letters a list of rows may have before it is cut.
const MOST_LETTERS: usize = 32;

/// What a statement asks, as the script says it.
fn stmt_text(alloc: Global, what: &Stmt) -> Result<String, NoMemory> {
    let text = match what {
        Stmt::Get(row) => {
            let row = row.get();
            format!(in alloc; "get {row}")?
        }
        Stmt::Scan(first, last) => {
            let first = first.get();
            let last = last.get();
            format!(in alloc; "scan {first} {last}")?
        }
        Stmt::Put(row, value) => {
            let row = row.get();
            format!(in alloc; "put {row} {value}")?
        }
        Stmt::Add(row, by) => {
            let row = row.get();
            format!(in alloc; "add {row} {by}")?
        }
        Stmt::Del(row) => {
            let row = row.get();
            format!(in alloc; "del {row}")?
        }
        Stmt::Lock(row) => {
            let row = row.get();
            format!(in alloc; "lock {row}")?
        }
        Stmt::Commit => String::from_str(alloc, "commit")?,
        Stmt::Rollback => String::from_str(alloc, "rollback")?,
        Stmt::Savepoint(name) => {
            let name = name.as_str();
            format!(in alloc; "savepoint {name}")?
        }
        Stmt::RollbackTo(name) => {
            let name = name.as_str();
            format!(in alloc; "rollback to {name}")?
        }
    };
    Ok(text)
}

/// What a line asks of its session; nothing where it is no statement.
fn line_text(alloc: Global, script: &Script, line: u32) -> Result<String, NoMemory> {
    match script.waves().item(line) {
        Some(Item::Stmt { what, .. }) => stmt_text(alloc, what),
        _ => Ok(String::new(alloc)),
    }
}

/// The name of a session, by its number; nothing where the script has no such session.
fn session_text(script: &Script, session: u16) -> &str {
    if usize::from(session) < script.sessions() {
        script.session_name(session)
    } else {
        ""
    }
}

/// Rows with their values, cut where there are too many letters.
fn rows_text(alloc: Global, rows: &RowList) -> Result<String, NoMemory> {
    let mut text = String::new(alloc);
    for (RowNo(row), value) in rows.as_slice() {
        if text.len() > MOST_LETTERS {
            text.push_str(" ..")?;
            return Ok(text);
        }
        write!(text, " {row}={value}")?;
    }
    if text.is_empty() {
        text.push_str(" none")?;
    }
    Ok(text)
}

/// Why a statement was refused.
fn cause_text(alloc: Global, cause: &Cause) -> Result<String, NoMemory> {
    let text = match cause {
        Cause::Busy { xid } => format!(in alloc; "ORA-00054, row of {xid}")?,
        Cause::OldUndo { xid, .. } => format!(in alloc; "ORA-01555, undo of {xid}")?,
        Cause::OldSlot { xid, .. } => format!(in alloc; "ORA-01555, slot of {xid}")?,
        Cause::NoUndo { .. } => String::from_str(alloc, "ORA-30036, undo is full")?,
        Cause::NoTxnSlot { .. } => String::from_str(alloc, "RAC-002, 8 are open")?,
        Cause::NoItl { .. } => String::from_str(alloc, "RAC-001, block is full")?,
        Cause::Overflow { .. } => String::from_str(alloc, "ORA-01426, overflow")?,
        Cause::NoSavepoint => String::from_str(alloc, "ORA-01086, no savepoint")?,
        Cause::Lost => String::from_str(alloc, "ORA-03113, lost")?,
        Cause::NotConnected => String::from_str(alloc, "ORA-03114, not connected")?,
    };
    Ok(text)
}

/// What is answered where nothing else is to tell.
fn plain_text(script: &Script, line: u32) -> &'static str {
    match script.waves().item(line) {
        Some(Item::Stmt { what, .. }) => match what {
            Stmt::Lock(_) => "locked already",
            Stmt::Commit => "committed, nothing was open",
            Stmt::Rollback => "rolled back",
            Stmt::RollbackTo(_) => "rolled back",
            Stmt::Savepoint(_) => "set",
            _ => "done",
        },
        _ => "done",
    }
}

/// A statement that starts or is answered.
fn stmt_words(alloc: Global, script: &Script, entry: &Entry) -> Result<Option<Words>, NoMemory> {
    let (look, text) = match entry {
        Entry::Started {
            stmt,
            session,
            snapshot,
        } => {
            let name = session_text(script, *session);
            let what = line_text(alloc, script, *stmt)?;
            let scn = snapshot.get();
            (
                Look::Words,
                format!(in alloc; "{stmt} {name}: {what}  (sees SCN {scn})")?,
            )
        }
        Entry::Rows { stmt, rows } => {
            let rows = rows_text(alloc, rows)?;
            (Look::AnswerWords, format!(in alloc; "{stmt} rows{rows}")?)
        }
        Entry::Changed {
            stmt,
            row,
            found,
            new,
            ..
        } => {
            let row = row.get();
            (
                Look::AnswerWords,
                format!(in alloc; "{stmt} row {row} from {found} to {new}")?,
            )
        }
        Entry::Locked { stmt, row, .. } => {
            let row = row.get();
            (
                Look::AnswerWords,
                format!(in alloc; "{stmt} row {row} locked")?,
            )
        }
        Entry::Acked {
            stmt,
            commit_scn,
            ..
        } => {
            let scn = commit_scn.get();
            (
                Look::AnswerWords,
                format!(in alloc; "{stmt} committed at SCN {scn}")?,
            )
        }
        Entry::Plain { stmt } => {
            let answer = plain_text(script, *stmt);
            (Look::AnswerWords, format!(in alloc; "{stmt} {answer}")?)
        }
        Entry::Refused { stmt, cause } => {
            let cause = cause_text(alloc, cause)?;
            (Look::RefusedWords, format!(in alloc; "{stmt} {cause}")?)
        }
        _ => return Ok(None),
    };
    Ok(Some(Words { look, text }))
}

/// A transaction that ends or is taken back.
fn txn_words(alloc: Global, entry: &Entry) -> Result<Option<Words>, NoMemory> {
    let (look, text) = match entry {
        Entry::Marked {
            xid,
            commit_scn,
            ..
        } => {
            let scn = commit_scn.get();
            (
                Look::RedoWords,
                format!(in alloc; "commit record of {xid}, SCN {scn}")?,
            )
        }
        Entry::Committed {
            xid,
            commit_scn,
            ..
        } => {
            let scn = commit_scn.get();
            (
                Look::CommitWords,
                format!(in alloc; "{xid} is committed on disk, SCN {scn}")?,
            )
        }
        Entry::Undone { xid, left } => (
            Look::Words,
            format!(in alloc; "takes back a change of {xid}, {left} left")?,
        ),
        Entry::Rolled { xid } => (
            Look::CommitWords,
            format!(in alloc; "{xid} is rolled back")?,
        ),
        _ => return Ok(None),
    };
    Ok(Some(Words { look, text }))
}

/// An instance or a control line.
fn inst_words(alloc: Global, script: &Script, entry: &Entry) -> Result<Option<Words>, NoMemory> {
    let (look, text) = match entry {
        Entry::Opened { session, .. } => {
            let name = session_text(script, *session);
            (Look::Words, format!(in alloc; "session {name} opens")?)
        }
        Entry::Crashed { line, .. } => { (Look::CrashWords, format!(in alloc; "{line} crashes")?) }
        Entry::Ended { .. } => (
            Look::CrashWords,
            String::from_str(alloc, "ends by a fault of the disk")?,
        ),
        Entry::Recovered { .. } => (
            Look::RecoveryWords,
            String::from_str(alloc, "recovery is over")?,
        ),
        Entry::Up { line, .. } => { (Look::RecoveryWords, format!(in alloc; "{line} is up")?) }
        Entry::Moved { line } => (
            Look::BlockWords,
            format!(in alloc; "{line} masters the bucket")?,
        ),
        Entry::Checkpointed { line } => (
            Look::RedoWords,
            format!(in alloc; "{line} moves its checkpoint")?,
        ),
        Entry::NotDone { line } => (Look::Words, format!(in alloc; "{line} nothing to do")?),
        _ => return Ok(None),
    };
    Ok(Some(Words { look, text }))
}

/// The words for an entry.
pub(crate) fn entry_words(
    alloc: Global,
    script: &Script,
    entry: &Entry,
) -> Result<Option<Words>, NoMemory> {
    match entry {
        Entry::Started { .. }
        | Entry::Rows { .. }
        | Entry::Changed { .. }
        | Entry::Locked { .. }
        | Entry::Acked { .. }
        | Entry::Plain { .. }
        | Entry::Refused { .. } => stmt_words(alloc, script, entry),
        Entry::Marked { .. }
        | Entry::Committed { .. }
        | Entry::Undone { .. }
        | Entry::Rolled { .. } => txn_words(alloc, entry),
        _ => inst_words(alloc, script, entry),
    }
}
