ghost use Rattle.std.specs.Prelude.{◌≡◌, ℕ, ◌<◌, ◌≤◌, ◌↔◌, reverse, IfOk, IsTrue, IsSome, IsSomeAnd, true, false};
ghost use Rattle.base_types.specs.declared.names.Xid.{Xid};
ghost use Rattle.journal.specs.Past.{start_of, home_of, is_up};
ghost use Rattle.journal.specs.Standing.{holds};
ghost use Rattle.journal.specs.History.{value_by};
ghost use Rattle.journal.specs.Sees.{sees};
ghost use Rattle.journal.specs.Stood.{stood, is_mark, is_mark_by, is_commit, is_commit_at, is_commit_by, acked_up_to, started_up_to, came_up};
ghost use Rattle.journal_check.specs.Checked.{AreBelow, AreListed};
ghost use Rattle.journal_check.specs.Place.{IsGoodAt, changer};

use crate::deeds::holds;
use crate::past::{home_of, is_up, start_of};
use crate::sight::{changes_seen, value_by};
use crate::stood::{
    acked_up_to, came_up, has_commit, has_commit_at, has_commit_by, has_mark, has_mark_by,
    started_up_to,
};
use base_types::{InstNo, NoMemory, RowNo, Scn, Value, Xid};
use journal::{Change, Commit, Entry};
use std::alloc::Global;

fn are_below(script_rows: u16, rows: &[(RowNo, Value)]) -> bool
    ensures { IsTrue result ↔ AreBelow script_rows rows.now }
{
    for item in rows {
        if item.0.get() >= script_rows {
            return false;
        }
    }
    true
}

/// Whether rows stand in rising order, each with what it holds by changes of which the newest comes first.
fn are_listed(changes: &[Change], rows: &[(RowNo, Value)]) -> bool
    ensures { IsTrue result ↔ AreListed (value_by changes.now) 0 rows.now }
{
    let mut from = 0;
    for item in rows {
        if u32::from(item.0.get()) < from || item.1 != value_by(changes, item.0) {
            return false;
        }
        from = u32::from(item.0.get()) + 1;
    }
    true
}

/// Whether the rows of an answer are what its session sees there.
fn rows_are_good(
    alloc: Global,
    script_rows: u16,
    commits: &[Commit],
    past: &[Entry],
    stmt: u32,
    rows: &[(RowNo, Value)],
) -> Result<bool, NoMemory>
    ensures { IfOk result (λ yes. IsTrue yes ↔ AreBelow script_rows rows.now
        × IsSomeAnd (start_of stmt (reverse past.now)) (λ start.
        AreListed (sees commits.now (reverse past.now) start) 0 rows.now)) }
{
    match start_of(stmt, past) {
        Some(start) if are_below(script_rows, rows) => {
            let seen = changes_seen(alloc, start, commits, past)?;
            Ok(are_listed(seen.as_slice(), rows))
        }
        _ => Ok(false),
    }
}

/// Whether a value is what the session of a statement sees in a row.
fn found_is_seen(
    alloc: Global,
    commits: &[Commit],
    past: &[Entry],
    stmt: u32,
    row: RowNo,
    found: Value,
) -> Result<bool, NoMemory>
    ensures { IfOk result (λ yes. IsTrue yes ↔ IsSomeAnd (start_of stmt (reverse past.now)) (λ start.
        found ≡ sees commits.now (reverse past.now) start row)) }
{
    match start_of(stmt, past) {
        None => Ok(false),
        Some(start) => {
            let seen = changes_seen(alloc, start, commits, past)?;
            Ok(found == value_by(seen.as_slice(), row))
        }
    }
}

/// The transaction of a change entry.
fn changer(entry: &Entry) -> Option<Xid>
    ensures { result ≡ changer entry.now }
{
    match entry {
        Entry::Changed { xid, .. } | Entry::Locked { xid, .. } => Some(*xid),
        _ => None,
    }
}

/// Whether no transaction but this one holds a row.
fn is_free(alloc: Global, xid: &Xid, row: RowNo, past: &[Entry]) -> Result<bool, NoMemory>
    ensures { IfOk result (λ yes. IsTrue yes ↔
        ((y : Xid) → holds y row (reverse past.now) ≡ true → y ≡ xid.now)) }
{
    for entry in past {
        if let Some(holder) = changer(entry) {
            if holder != *xid && holds(alloc, &holder, row, past)? {
                return Ok(false);
            }
        }
    }
    Ok(true)
}

/// Whether a transaction may change or lock a row by a statement that has started.
fn deed_is_good(
    alloc: Global,
    script_rows: u16,
    past: &[Entry],
    stmt: u32,
    xid: &Xid,
    row: RowNo,
) -> Result<bool, NoMemory>
    ensures { IfOk result (λ yes. IsTrue yes ↔ (row < script_rows) × IsSome (start_of stmt (reverse past.now))
        × (stood (is_commit xid.now) (reverse past.now) ≡ false)
        × ((y : Xid) → holds y row (reverse past.now) ≡ true → y ≡ xid.now)) }
{
    if !has_commit(xid, past) && row.0 < script_rows && start_of(stmt, past).is_some() {
        is_free(alloc, xid, row, past)
    } else {
        Ok(false)
    }
}

fn commit_is_proper(past: &[Entry], xid: &Xid, commit_scn: Scn, inst: InstNo) -> bool
    ensures { IsTrue result ↔ (inst ≡ xid.now.seg) × (stood (is_mark xid.now commit_scn) (reverse past.now) ≡ true)
        × (stood (is_commit xid.now) (reverse past.now) ≡ false)
        × (stood (is_commit_by commit_scn inst) (reverse past.now) ≡ false) }
{
    inst == xid.seg
        && has_mark(xid, commit_scn, past)
        && !has_commit(xid, past)
        && !has_commit_by(commit_scn, inst, past)
}

fn ack_is_proper(past: &[Entry], stmt: u32, xid: &Xid, commit_scn: Scn) -> bool
    ensures { IsTrue result ↔ (stood (is_mark_by stmt xid.now commit_scn) (reverse past.now) ≡ true)
        × (stood (is_commit_at xid.now commit_scn) (reverse past.now) ≡ true) }
{
    has_mark_by(stmt, xid, commit_scn, past) && has_commit_at(xid, commit_scn, past)
}

fn start_is_proper(past: &[Entry], session: u16, snapshot: Scn) -> bool
    ensures { IsTrue result ↔ (acked_up_to (reverse past.now) ≤ snapshot) × (started_up_to session (reverse past.now) ≤ snapshot)
        × IsSomeAnd (home_of session (reverse past.now)) (λ i.
        (is_up i (reverse past.now) ≡ true) × (came_up session (reverse past.now) ≡ false)) }
{
    match home_of(session, past) {
        None => false,
        Some(home) => {
            acked_up_to(past) <= snapshot
                && started_up_to(session, past) <= snapshot
                && is_up(home, past)
                && !came_up(session, past)
        }
    }
}

/// Whether an entry is good after the entries before it, by the commits of the whole journal.
pub fn is_good_at(
    alloc: Global,
    script_rows: u16,
    commits: &[Commit],
    past: &[Entry],
    entry: &Entry,
) -> Result<bool, NoMemory>
    ensures { IfOk result (λ yes. IsTrue yes ↔
        IsGoodAt script_rows commits.now (reverse past.now) entry.now) }
{
    match entry {
        Entry::Started {
            session,
            snapshot,
            ..
        } => Ok(start_is_proper(past, *session, *snapshot)),
        Entry::Rows { stmt, rows } => {
            rows_are_good(alloc, script_rows, commits, past, *stmt, rows.as_slice())
        }
        Entry::Changed {
            stmt,
            xid,
            row,
            found,
            ..
        } => {
            if deed_is_good(alloc, script_rows, past, *stmt, xid, *row)? {
                found_is_seen(alloc, commits, past, *stmt, *row, *found)
            } else {
                Ok(false)
            }
        }
        Entry::Locked { stmt, xid, row } => {
            deed_is_good(alloc, script_rows, past, *stmt, xid, *row)
        }
        Entry::Marked { xid, .. } => Ok(!has_commit(xid, past)),
        Entry::Committed {
            xid,
            commit_scn,
            inst,
        } => Ok(commit_is_proper(past, xid, *commit_scn, *inst)),
        Entry::Acked {
            stmt,
            xid,
            commit_scn,
        } => Ok(ack_is_proper(past, *stmt, xid, *commit_scn)),
        Entry::Undone { xid, .. } => Ok(!has_commit(xid, past)),
        Entry::Rolled { xid } => Ok(!has_commit(xid, past)),
        Entry::Opened { .. }
        | Entry::Plain { .. }
        | Entry::Refused { .. }
        | Entry::Crashed { .. }
        | Entry::Ended { .. }
        | Entry::Recovered { .. }
        | Entry::Up { .. }
        | Entry::Moved { .. }
        | Entry::Checkpointed { .. }
        | Entry::NotDone { .. } => Ok(true),
    }
}
