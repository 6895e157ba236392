ghost use Rattle.std.specs.Prelude.{[], ◌≡◌, ◌∷◌, ◌++◌, ◌≤◌, ℕ, List, length, take, drop, IfOk, IfErr, OnOk};
ghost use Rattle.std.specs.List.{All, filter_map};
ghost use Rattle.redo_types.specs.declared.redo.Redo.{Redo};
ghost use Rattle.redo_record.specs.Redo.{IsRedo};
ghost use Rattle.log_history.specs.LogHistory.{IsInOrder, entered, in_order, is_after, is_commit, log_history};
ghost use Rattle.log_history.specs.Logs.{AreLogs, IsBad, bytes_of, torn_ends};
ghost use Rattle.log_history.specs.Standing.{change_for, line_by, lines_by};

use crate::changes::{StandingChange, StandingGroups, standing_at, standing_changes};
use crate::error::LogError;
use crate::line::HistoryLine;
use crate::reading::{Logs, read_logs};
use base_types::{InstNo, NoMemory, Sequence, Xid};
use journal::RowList;
use redo_types::{Redo, RedoKind};
use std::alloc::Global;

fn is_commit(kind: RedoKind) -> bool
    ensures { result ≡ is_commit kind }
{
    matches!(kind, RedoKind::Commit)
}

/// What the changes of a transaction put into rows.
fn changes_of(alloc: Global, xid: Xid, standing: &[StandingChange]) -> Result<RowList, NoMemory>
    ensures { IfOk result (λ changes. changes ≡ filter_map (change_for xid) standing.now) }
{
    let mut changes = RowList::new(alloc);
    for change in standing {
        if xid == change.xid {
            changes.push((change.row, change.value))?;
        }
    }
    Ok(changes)
}

/// Whether a line comes after another: by its SCN, and where these are equal by its thread.
fn is_after(a: &HistoryLine, b: &HistoryLine) -> bool
    ensures { result ≡ is_after a.now b.now }
{
    b.commit_scn.0 < a.commit_scn.0 || a.commit_scn.0 == b.commit_scn.0 && b.inst.0 < a.inst.0
}

/// The place of a line among others in order.
fn place_among(line: &HistoryLine, lines: &[HistoryLine]) -> usize
    requires { IsInOrder lines.now }
    ensures within { result ≤ length lines.now }
    ensures entered { entered line.now lines.now ≡ take result lines.now ++ line.now ∷ drop result lines.now }
{
    // From the end, since the lines of a thread come nearly in order.
    let mut at = lines.len();
    while at > 0 && is_after(&lines[at - 1], line) {
        at -= 1;
    }
    at
}

/// Adds a line to others in order.
fn enter(line: HistoryLine, lines: &mut Vec<HistoryLine>) -> Result<(), NoMemory>
    requires { IsInOrder lines.old.items }
    ensures entered { OnOk result (lines.new.items ≡ entered line lines.old.items) }
    ensures ordered { OnOk result (IsInOrder lines.new.items) }
{
    let at = place_among(&line, lines.as_slice());
    lines.insert(at, line)?;
    Ok(())
}

/// Adds the lines of a thread to others in order.
fn enter_thread(
    alloc: Global,
    thread: InstNo,
    records: &[Redo],
    standing: &StandingGroups,
    lines: &mut Vec<HistoryLine>,
) -> Result<(), NoMemory>
    requires { IsInOrder lines.old.items }
    ensures entered { OnOk result (lines.new.items ≡
        in_order lines.old.items (filter_map (line_by standing.now thread) records.now)) }
    ensures ordered { OnOk result (IsInOrder lines.new.items) }
{
    for redo in records {
        if is_commit(redo.kind) {
            let group = standing_at(standing, redo.xid.wrap);
            let changes = changes_of(alloc, redo.xid, group)?;
            let line = HistoryLine {
                commit_scn: redo.scn,
                inst: thread,
                xid: redo.xid,
                changes,
            };
            enter(line, lines)?;
        }
    }
    Ok(())
}

/// The lines of all threads in order.
fn lines_of(
    alloc: Global,
    threads: &[Sequence<Redo>],
    standing: &StandingGroups,
) -> Result<Vec<HistoryLine>, NoMemory>
    requires { length threads.now ≤ 8 }
    ensures { IfOk result (λ lines. lines.items ≡
        in_order [] (lines_by standing.now 0 threads.now)) }
{
    let mut lines = Vec::new(alloc);
    for (thread, records) in threads.iter().enumerate() {
        let inst = InstNo(thread as u8);
        enter_thread(alloc, inst, records.as_slice(), standing, &mut lines)?;
    }
    Ok(lines)
}

/// The history of the records of the threads.
fn history(alloc: Global, threads: &[Sequence<Redo>]) -> Result<Vec<HistoryLine>, NoMemory>
    requires few { length threads.now ≤ 8 }
    requires records { All (All IsRedo) threads.now }
    ensures { IfOk result (λ lines. lines.items ≡ log_history threads.now) }
{
    let standing = standing_changes(alloc, threads)?;
    let lines = lines_of(alloc, threads, &standing)?;
    Ok(lines)
}

/// What was committed, by the whole records of the redo logs of all threads; the log at place n is that
/// of thread n.
///
/// The lines come in the order of their SCNs, equal ones by thread, and the commits of one thread with
/// one SCN as they stand in its log. The second list has the threads whose logs end with a record that was
/// cut short, with the place where it begins in bytes from the beginning of the log.
///
/// # Errors
///
/// [`LogError::BadLog`] for the first log that isn't whole records and then nothing or a record cut
/// short, and [`LogError::NoMemory`] where memory ran out.
pub fn history_of(
    alloc: Global,
    logs: &[Vec<u8>],
) -> Result<(Vec<HistoryLine>, Vec<(InstNo, u64)>), LogError>
    requires { length logs.now ≤ 8 }
    ensures ok { IfOk result (λ told. (threads : List (List Redo)) × (rests : List (List ℕ)) ×
        AreLogs (bytes_of logs.now) threads rests ×
        (told.0.items ≡ log_history threads) × (told.1.items ≡ torn_ends 0 threads rests)) }
    ensures bad { IfErr result (IsBad (bytes_of logs.now)) }
{
    let Logs { threads, torn } = read_logs(alloc, logs)?;
    let lines = history(alloc, threads.as_slice())?;
    Ok((lines, torn))
}
