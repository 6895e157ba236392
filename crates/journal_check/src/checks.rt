ghost use Rattle.std.specs.Prelude.{◌↔◌, IfOk, IsTrue};
ghost use Rattle.journal.specs.Good.{Replays};
ghost use Rattle.journal_check.specs.Checked.{IsChecked};

use crate::commits::{changes_in, history};
use crate::place::is_good_at;
use crate::sight::value_by;
use base_types::NoMemory;
use journal::{Change, Journal};
use std::alloc::Global;

/// Whether each change found what the older ones leave in its row; the newest comes first.
fn replays(changes: &[Change]) -> bool
    ensures { IsTrue result ↔ Replays changes.now }
{
    for (at, change) in changes.iter().enumerate() {
        if change.found != value_by(&changes[at + 1..], change.row) {
            return false;
        }
    }
    true
}

/// Whether a journal over so many rows is good as far as no script is needed: each of its statements has
/// started and sees what it should, its commits and their answers stand where they may, and its history can be
/// replayed. It is plain and slow: it goes through the entries again for each of them.
pub fn check(alloc: Global, script_rows: u16, journal: &Journal) -> Result<bool, NoMemory>
    ensures { IfOk result (λ yes. IsTrue yes ↔ IsChecked script_rows journal.now) }
{
    let entries = journal.as_slice();
    let commits = history(alloc, entries)?;
    for (at, entry) in entries.iter().enumerate() {
        if !is_good_at(
            alloc,
            script_rows,
            commits.as_slice(),
            &entries[..at],
            entry,
        )? {
            return Ok(false);
        }
    }
    let changes = changes_in(alloc, commits.as_slice())?;
    Ok(replays(changes.as_slice()))
}

#[cfg(test)]
mod tests;
