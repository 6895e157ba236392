ghost use Rattle.std.specs.Prelude.{◌≡◌, reverse};
ghost use Rattle.journal.specs.Stood.{stood, is_mark, is_mark_by, is_commit, is_commit_at, is_commit_by, acked_after, acked_up_to, started_after, started_up_to, came_up_after, came_up};

use crate::past::is_same;
use crate::sight::is_home;
use base_types::{InstNo, Scn, Xid};
use journal::Entry;

/// Whether an entry is a mark of a transaction at an SCN.
pub fn is_mark(xid: &Xid, commit_scn: Scn, entry: &Entry) -> bool
    ensures { result ≡ is_mark xid.now commit_scn entry.now }
{
    match entry {
        Entry::Marked {
            xid: marked,
            commit_scn: at,
            ..
        } => is_same(xid, marked) && commit_scn == *at,
        _ => false,
    }
}

fn is_mark_by(stmt: u32, xid: &Xid, commit_scn: Scn, entry: &Entry) -> bool
    ensures { result ≡ is_mark_by stmt xid.now commit_scn entry.now }
{
    match entry {
        Entry::Marked {
            stmt: by,
            xid: marked,
            commit_scn: at,
        } => stmt == *by && is_same(xid, marked) && commit_scn == *at,
        _ => false,
    }
}

fn is_commit(xid: &Xid, entry: &Entry) -> bool
    ensures { result ≡ is_commit xid.now entry.now }
{
    match entry {
        Entry::Committed { xid: committed, .. } => is_same(xid, committed),
        _ => false,
    }
}

fn is_commit_at(xid: &Xid, commit_scn: Scn, entry: &Entry) -> bool
    ensures { result ≡ is_commit_at xid.now commit_scn entry.now }
{
    match entry {
        Entry::Committed {
            xid: committed,
            commit_scn: at,
            ..
        } => is_same(xid, committed) && commit_scn == *at,
        _ => false,
    }
}

fn is_commit_by(commit_scn: Scn, inst: InstNo, entry: &Entry) -> bool
    ensures { result ≡ is_commit_by commit_scn inst entry.now }
{
    match entry {
        Entry::Committed {
            commit_scn: at,
            inst: by,
            ..
        } => commit_scn == *at && inst == *by,
        _ => false,
    }
}

/// Whether a transaction was marked at an SCN.
pub fn has_mark(xid: &Xid, commit_scn: Scn, past: &[Entry]) -> bool
    ensures { result ≡ stood (is_mark xid.now commit_scn) (reverse past.now) }
{
    past.iter().any(|entry| is_mark(xid, commit_scn, entry))
}

/// Whether a statement marked a transaction at an SCN.
pub fn has_mark_by(stmt: u32, xid: &Xid, commit_scn: Scn, past: &[Entry]) -> bool
    ensures { result ≡ stood (is_mark_by stmt xid.now commit_scn) (reverse past.now) }
{
    past.iter()
        .any(|entry| is_mark_by(stmt, xid, commit_scn, entry))
}

/// Whether a transaction has committed.
pub fn has_commit(xid: &Xid, past: &[Entry]) -> bool
    ensures { result ≡ stood (is_commit xid.now) (reverse past.now) }
{
    past.iter().any(|entry| is_commit(xid, entry))
}

/// Whether a transaction has committed at an SCN.
pub fn has_commit_at(xid: &Xid, commit_scn: Scn, past: &[Entry]) -> bool
    ensures { result ≡ stood (is_commit_at xid.now commit_scn) (reverse past.now) }
{
    past.iter()
        .any(|entry| is_commit_at(xid, commit_scn, entry))
}

/// Whether an instance has committed at an SCN.
pub fn has_commit_by(commit_scn: Scn, inst: InstNo, past: &[Entry]) -> bool
    ensures { result ≡ stood (is_commit_by commit_scn inst) (reverse past.now) }
{
    past.iter()
        .any(|entry| is_commit_by(commit_scn, inst, entry))
}

fn acked_after(entry: &Entry, before: Scn) -> Scn
    ensures { result ≡ acked_after entry.now before }
{
    match entry {
        Entry::Acked { commit_scn, .. } => Scn(commit_scn.get().max(before.get())),
        _ => before,
    }
}

/// The highest SCN of an answered commit, 0 where there is none.
pub fn acked_up_to(past: &[Entry]) -> Scn
    ensures { result ≡ acked_up_to (reverse past.now) }
{
    let mut acked = Scn(0);
    for entry in past {
        acked = acked_after(entry, acked);
    }
    acked
}

fn started_after(session: u16, entry: &Entry, before: Scn) -> Scn
    ensures { result ≡ started_after session entry.now before }
{
    match entry {
        Entry::Started {
            session: by,
            snapshot,
            ..
        } if session == *by => Scn(snapshot.get().max(before.get())),
        _ => before,
    }
}

/// The highest SCN at which a statement of a session started, 0 where there is none.
pub fn started_up_to(session: u16, past: &[Entry]) -> Scn
    ensures { result ≡ started_up_to session (reverse past.now) }
{
    let mut started = Scn(0);
    for entry in past {
        started = started_after(session, entry, started);
    }
    started
}

fn came_up_after(session: u16, entry: &Entry, past: &[Entry], before: bool) -> bool
    ensures { result ≡ came_up_after session entry.now (reverse past.now) before }
{
    match entry {
        Entry::Opened {
            session: opened,
            ..
        } => before && session != *opened,
        Entry::Up { inst, .. } => before || is_home(session, *inst, past),
        _ => before,
    }
}

/// Whether the instance of a session came up since the session was opened.
pub fn came_up(session: u16, past: &[Entry]) -> bool
    ensures { result ≡ came_up session (reverse past.now) }
{
    let mut came = false;
    for (at, entry) in past.iter().enumerate() {
        came = came_up_after(session, entry, &past[..at], came);
    }
    came
}
