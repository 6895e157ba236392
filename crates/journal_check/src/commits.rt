ghost use Rattle.std.specs.Prelude.{◌≡◌, ◌∷◌, ◌++◌, ◌≤◌, reverse, take, drop, length, IfOk, OnOk};
ghost use Rattle.journal.specs.History.{marked, is_before, entered, history, changes_up_to};
ghost use Rattle.journal.specs.Good.{changes_in};

use crate::deeds::standing_changes;
use crate::stood::is_mark;
use base_types::{NoMemory, Scn, Sequence, Xid};
use journal::{Change, Commit, Entry};
use std::alloc::Global;

/// The changes that stood at the last mark of a transaction at an SCN, the newest first.
fn marked(
    alloc: Global,
    xid: &Xid,
    commit_scn: Scn,
    past: &[Entry],
) -> Result<Vec<Change>, NoMemory>
    ensures { IfOk result (λ changes. changes.items ≡ marked xid.now commit_scn (reverse past.now)) }
{
    let mut changes = Vec::new(alloc);
    for (at, entry) in past.iter().enumerate() {
        if is_mark(xid, commit_scn, entry) {
            changes = standing_changes(alloc, xid, &past[..at])?;
        }
    }
    Ok(changes)
}

/// Whether a commit comes before another: by its SCN, and where these are equal by its instance.
fn is_before(a: &Commit, b: &Commit) -> bool
    ensures { result ≡ is_before a.now b.now }
{
    a.commit_scn < b.commit_scn || a.commit_scn == b.commit_scn && a.inst < b.inst
}

/// The place of a commit among others in order, the latest first.
fn place_among(commit: &Commit, commits: &[Commit]) -> usize
    ensures within { result ≤ length commits.now }
    ensures entered { entered commit.now commits.now ≡
        (take result commits.now) ++ commit.now ∷ (drop result commits.now) }
{
    for (at, other) in commits.iter().enumerate() {
        if !is_before(commit, other) {
            return at;
        }
    }
    commits.len()
}

/// Adds a commit to others in order, the latest first.
fn enter(commit: Commit, commits: &mut Vec<Commit>) -> Result<(), NoMemory>
    ensures { OnOk result (commits.new.items ≡
        entered commit commits.old.items) }
{
    let at = place_among(&commit, commits.as_slice());
    commits.insert(at, commit)?;
    Ok(())
}

/// The commits that entries leave, the latest first.
pub fn history(alloc: Global, past: &[Entry]) -> Result<Vec<Commit>, NoMemory>
    ensures { IfOk result (λ commits. commits.items ≡ history (reverse past.now)) }
{
    let mut commits = Vec::new(alloc);
    for (at, entry) in past.iter().enumerate() {
        if let Entry::Committed {
            xid,
            commit_scn,
            inst,
        } = entry
        {
            let changes = marked(alloc, xid, *commit_scn, &past[..at])?;
            let commit = Commit {
                commit_scn: *commit_scn,
                inst: *inst,
                xid: *xid,
                changes: Sequence::from_vec(changes),
            };
            enter(commit, &mut commits)?;
        }
    }
    Ok(commits)
}

/// Adds the changes of the commits up to an SCN, the newest first.
pub fn add_up_to(
    snapshot: Scn,
    commits: &[Commit],
    changes: &mut Vec<Change>,
) -> Result<(), NoMemory>
    ensures { OnOk result (changes.new.items ≡
        changes.old.items ++ changes_up_to snapshot commits.now) }
{
    for commit in commits {
        if commit.commit_scn <= snapshot {
            changes.extend_from_slice(commit.changes.as_slice())?;
        }
    }
    Ok(())
}

/// All changes of commits, the newest first.
pub fn changes_in(alloc: Global, commits: &[Commit]) -> Result<Vec<Change>, NoMemory>
    ensures { IfOk result (λ changes. changes.items ≡ changes_in commits.now) }
{
    let mut changes = Vec::new(alloc);
    for commit in commits {
        changes.extend_from_slice(commit.changes.as_slice())?;
    }
    Ok(changes)
}
