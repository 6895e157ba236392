ghost use Rattle.std.specs.Prelude.{◌≡◌, ◌++◌, reverse, IfOk};
ghost use Rattle.journal.specs.History.{changes_up_to, value_by};
ghost use Rattle.journal.specs.Sees.{is_of, is_home, last_after, last_of, own, own_changes};

use crate::commits::add_up_to;
use crate::deeds::{is_open, standing_changes};
use crate::past::{home_of, start_of};
use base_types::{InstNo, NoMemory, RowNo, Value, Xid};
use journal::{Change, Commit, Entry, Start};
use std::alloc::Global;

/// Whether a statement is of a session, by its last start.
fn is_of(session: u16, stmt: u32, past: &[Entry]) -> bool
    ensures { result ≡ is_of session stmt (reverse past.now) }
{
    match start_of(stmt, past) {
        Some(start) => start.session == session,
        None => false,
    }
}

/// Whether a session was last opened on an instance.
pub fn is_home(session: u16, inst: InstNo, past: &[Entry]) -> bool
    ensures { result ≡ is_home session inst (reverse past.now) }
{
    match home_of(session, past) {
        Some(home) => inst == home,
        None => false,
    }
}

fn last_after(session: u16, entry: &Entry, past: &[Entry], before: Option<Xid>) -> Option<Xid>
    ensures { result ≡ last_after session entry.now (reverse past.now) before }
{
    match entry {
        Entry::Changed { stmt, xid, .. } | Entry::Locked { stmt, xid, .. }
            if is_of(session, *stmt, past) => { Some(*xid) }
        Entry::Crashed { inst, .. } | Entry::Ended { inst, .. } if is_home(session, *inst, past) =>
            { None }
        _ => before,
    }
}

/// The transaction of the last change entry of a session since its instance was last lost.
fn last_of(session: u16, past: &[Entry]) -> Option<Xid>
    ensures { result ≡ last_of session (reverse past.now) }
{
    let mut last = None;
    for (at, entry) in past.iter().enumerate() {
        last = last_after(session, entry, &past[..at], last);
    }
    last
}

/// A session's own transaction.
fn own(session: u16, past: &[Entry]) -> Option<Xid>
    ensures { result ≡ own session (reverse past.now) }
{
    match last_of(session, past) {
        Some(xid) if is_open(&xid, past) => Some(xid),
        _ => None,
    }
}

/// The changes of a session's own transaction that stand, the newest first.
fn own_changes(alloc: Global, session: u16, past: &[Entry]) -> Result<Vec<Change>, NoMemory>
    ensures { IfOk result (λ changes. changes.items ≡ own_changes session (reverse past.now)) }
{
    match own(session, past) {
        Some(xid) => standing_changes(alloc, &xid, past),
        None => Ok(Vec::new(alloc)),
    }
}

/// The changes that a session sees, the newest first and its own before those of the commits.
pub fn changes_seen(
    alloc: Global,
    start: Start,
    commits: &[Commit],
    past: &[Entry],
) -> Result<Vec<Change>, NoMemory>
    ensures { IfOk result (λ changes. changes.items ≡
        own_changes start.session (reverse past.now) ++ changes_up_to start.snapshot commits.now) }
{
    let mut changes = own_changes(alloc, start.session, past)?;
    add_up_to(start.snapshot, commits, &mut changes)?;
    Ok(changes)
}

/// What a row holds by changes of which the newest comes first.
pub fn value_by(changes: &[Change], row: RowNo) -> Value
    ensures { result ≡ value_by changes.now row }
{
    for change in changes {
        if change.row == row {
            return change.new;
        }
    }
    Value::Absent
}
