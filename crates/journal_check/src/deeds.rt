ghost use Rattle.std.specs.Prelude.{◌≡◌, ◌==◌, reverse, IfOk, OnOk};
ghost use Rattle.std.specs.List.{list_any};
ghost use Rattle.journal.specs.Standing.{row_of, changes_of, stands_after, standing, open_after, is_open, holds};

use crate::past::{is_loss_of, is_same};
use base_types::{NoMemory, RowNo, Xid};
use journal::{Change, Deed, Entry};
use std::alloc::Global;

fn row_of(deed: &Deed) -> RowNo
    ensures { result ≡ row_of deed.now }
{
    match deed {
        Deed::Changes(change) => change.row,
        Deed::Locks(row) => *row,
    }
}

/// Takes an entry into the deeds of a transaction that stand, the oldest first.
#[tactic(auto, using(crate::proofs::DeedLemmas::undone_stands))]
fn stand_after(xid: &Xid, entry: &Entry, deeds: &mut Vec<Deed>) -> Result<(), NoMemory>
    ensures { OnOk result (reverse deeds.new.items ≡
        stands_after xid.now entry.now (reverse deeds.old.items)) }
{
    match entry {
        Entry::Changed {
            xid: changer,
            row,
            found,
            new,
            ..
        } if is_same(xid, changer) => {
            deeds.push(Deed::Changes(Change {
                row: *row,
                found: *found,
                new: *new,
            }))?;
        }
        Entry::Locked {
            xid: locker,
            row,
            ..
        } if is_same(xid, locker) => deeds.push(Deed::Locks(*row))?,
        Entry::Undone { xid: undone, left } if is_same(xid, undone) => {
            deeds.truncate(*left as usize);
        }
        _ => {
            if is_loss_of(xid.seg, entry) {
                deeds.clear();
            }
        }
    }
    Ok(())
}

/// The deeds of a transaction that stand, the newest first.
pub fn standing(alloc: Global, xid: &Xid, past: &[Entry]) -> Result<Vec<Deed>, NoMemory>
    ensures { IfOk result (λ deeds. deeds.items ≡ standing xid.now (reverse past.now)) }
{
    let mut deeds = Vec::new(alloc);
    for entry in past {
        stand_after(xid, entry, &mut deeds)?;
    }
    deeds.reverse();
    Ok(deeds)
}

/// The changes among deeds.
fn changes_of(alloc: Global, deeds: &[Deed]) -> Result<Vec<Change>, NoMemory>
    ensures { IfOk result (λ changes. changes.items ≡ changes_of deeds.now) }
{
    let mut changes = Vec::new(alloc);
    for deed in deeds {
        if let Deed::Changes(change) = deed {
            changes.push(*change)?;
        }
    }
    Ok(changes)
}

/// The changes of a transaction that stand, the newest first.
pub fn standing_changes(alloc: Global, xid: &Xid, past: &[Entry]) -> Result<Vec<Change>, NoMemory>
    ensures { IfOk result (λ changes. changes.items ≡ changes_of (standing xid.now (reverse past.now))) }
{
    let deeds = standing(alloc, xid, past)?;
    changes_of(alloc, deeds.as_slice())
}

fn open_after(xid: &Xid, entry: &Entry, before: bool) -> bool
    ensures { result ≡ open_after xid.now entry.now before }
{
    match entry {
        Entry::Changed { xid: changer, .. } => before || is_same(xid, changer),
        Entry::Locked { xid: locker, .. } => before || is_same(xid, locker),
        Entry::Marked { xid: marked, .. } => before && !is_same(xid, marked),
        Entry::Rolled { xid: rolled } => before && !is_same(xid, rolled),
        _ => before && !is_loss_of(xid.seg, entry),
    }
}

/// Whether a transaction is open.
pub fn is_open(xid: &Xid, past: &[Entry]) -> bool
    ensures { result ≡ is_open xid.now (reverse past.now) }
{
    let mut open = false;
    for entry in past {
        open = open_after(xid, entry, open);
    }
    open
}

fn touches(deeds: &[Deed], row: RowNo) -> bool
    ensures { result ≡ list_any (λ deed. row_of deed == row) deeds.now }
{
    deeds.iter().any(|deed| row_of(deed) == row)
}

/// Whether a transaction holds a row.
pub fn holds(alloc: Global, xid: &Xid, row: RowNo, past: &[Entry]) -> Result<bool, NoMemory>
    ensures { IfOk result (λ yes. yes ≡ holds xid.now row (reverse past.now)) }
{
    let deeds = standing(alloc, xid, past)?;
    Ok(is_open(xid, past) && touches(deeds.as_slice(), row))
}
