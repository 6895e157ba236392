ghost use Rattle.std.specs.Prelude.{◌≡◌, ◌==◌, ◌++◌, ℕ, IfOk, OnOk, filter};
ghost use Rattle.std.specs.List.{All, filter_map, flat_map, list_any};
ghost use Rattle.redo_record.specs.Redo.{IsDataChange, IsRedo};
ghost use Rattle.log_history.specs.LogHistory.{is_change, is_step_back, lines_from, row_and_value};
ghost use Rattle.log_history.specs.Standing.{group_at, is_of, lines_by, standing_of, stands, undone_by};

use base_types::{NoMemory, RowNo, Sequence, Value, Xid};
use redo_types::{DataChange, Redo, RedoKind};
use std::alloc::Global;
use std::collections::HashMap;

/// A record that a StepBack takes back, by its transaction and its sequence number.
#[derive(Clone, Copy, Debug, PartialEq, Eq)]
pub(crate) struct Undone {
    pub xid: Xid,
    pub seq: u64,
}

/// What StepBacks take back, by the sequence number, which at most one record of each segment has.
type UndoneGroups = HashMap<u64, Vec<Undone>>;

/// A change that no record takes back.
#[derive(Clone, Copy, Debug, PartialEq, Eq)]
pub(crate) struct StandingChange {
    pub xid: Xid,
    pub row: RowNo,
    pub value: Value,
}

/// The changes that stand, by the wrap of their transaction, which at most one of each slot has.
pub(crate) type StandingGroups = HashMap<u32, Vec<StandingChange>>;

fn is_change(kind: RedoKind) -> bool
    ensures { result ≡ is_change kind }
{
    matches!(kind, RedoKind::Change)
}

fn is_step_back(kind: RedoKind) -> bool
    ensures { result ≡ is_step_back kind }
{
    matches!(kind, RedoKind::StepBack)
}

/// Adds what the records of a thread take back.
fn add_undone(records: &[Redo], undone: &mut Vec<Undone>) -> Result<(), NoMemory>
    ensures { OnOk result (undone.new.items ≡ undone.old.items ++ filter_map undone_by records.now) }
{
    for redo in records {
        if is_step_back(redo.kind) {
            undone.push(Undone {
                xid: redo.xid,
                seq: redo.seq,
            })?;
        }
    }
    Ok(())
}

/// What the records of all threads take back.
fn undone_in(alloc: Global, threads: &[Sequence<Redo>]) -> Result<Vec<Undone>, NoMemory>
    ensures { IfOk result (λ undone. undone.items ≡ flat_map (filter_map undone_by) threads.now) }
{
    let mut undone = Vec::new(alloc);
    for records in threads {
        add_undone(records.as_slice(), &mut undone)?;
    }
    Ok(undone)
}

/// Puts what is taken back into groups.
fn group_undone(alloc: Global, undone: &[Undone]) -> Result<UndoneGroups, NoMemory>
    ensures { IfOk result (λ groups. (seq : ℕ) → group_at groups seq ≡ filter (λ u. u.seq == seq) undone.now) }
{
    let mut groups: UndoneGroups = HashMap::new(alloc);
    for taken in undone {
        groups
            .entry(taken.seq)?
            .or_insert(Vec::new(alloc))
            .push(*taken)?;
    }
    Ok(groups)
}

fn undone_at(groups: &UndoneGroups, seq: u64) -> &[Undone]
    ensures { result.now ≡ group_at groups.now seq }
{
    match groups.get(&seq) {
        Some(group) => group.as_slice(),
        None => &[],
    }
}

/// Whether the record of a transaction with a sequence number is taken back.
fn is_undone(xid: Xid, seq: u64, undone: &UndoneGroups) -> bool
    ensures { result ≡ list_any (is_of xid seq) (group_at undone.now seq) }
{
    undone_at(undone, seq)
        .iter()
        .any(|taken| xid == taken.xid && taken.seq == seq)
}

/// Whether a record is a change that isn't taken back.
fn stands(redo: &Redo, undone: &UndoneGroups) -> bool
    ensures { result ≡ stands undone.now redo.now }
{
    is_change(redo.kind) && !is_undone(redo.xid, redo.seq, undone)
}

/// The number in the whole database of the row that a change of a data block is of.
fn row_of(change: &DataChange) -> RowNo
    requires { IsDataChange change.now }
    ensures { result ≡ (row_and_value change.now).0 }
{
    RowNo(8 * change.block.0 + u16::from(change.to.row))
}

/// The change that a record made, where it stands.
fn standing_of(redo: &Redo, undone: &UndoneGroups) -> Option<StandingChange>
    requires { IsRedo redo.now }
    ensures { result ≡ standing_of undone.now redo.now }
{
    if !stands(redo, undone) {
        return None;
    }
    match redo.row {
        Some(change) => Some(StandingChange {
            xid: redo.xid,
            row: row_of(&change),
            value: change.to.value,
        }),
        None => None,
    }
}

/// Adds the changes of the records of a thread that stand.
fn add_standing(
    records: &[Redo],
    undone: &UndoneGroups,
    standing: &mut Vec<StandingChange>,
) -> Result<(), NoMemory>
    requires { All IsRedo records.now }
    ensures { OnOk result (standing.new.items ≡
        standing.old.items ++ filter_map (standing_of undone.now) records.now) }
{
    for redo in records {
        if let Some(change) = standing_of(redo, undone) {
            standing.push(change)?;
        }
    }
    Ok(())
}

/// The changes of all transactions that stand, in the order of the threads and of the records in each.
fn standing_in(
    alloc: Global,
    threads: &[Sequence<Redo>],
    undone: &UndoneGroups,
) -> Result<Vec<StandingChange>, NoMemory>
    requires { All (All IsRedo) threads.now }
    ensures { IfOk result (λ standing. standing.items ≡
        flat_map (filter_map (standing_of undone.now)) threads.now) }
{
    let mut standing = Vec::new(alloc);
    for records in threads {
        add_standing(records.as_slice(), undone, &mut standing)?;
    }
    Ok(standing)
}

/// Puts changes into groups, in their order.
fn group_standing(alloc: Global, standing: &[StandingChange]) -> Result<StandingGroups, NoMemory>
    ensures { IfOk result (λ groups. (wrap : ℕ) →
        group_at groups wrap ≡ filter (λ s. s.xid.wrap == wrap) standing.now) }
{
    let mut groups: StandingGroups = HashMap::new(alloc);
    for change in standing {
        groups
            .entry(change.xid.wrap)?
            .or_insert(Vec::new(alloc))
            .push(*change)?;
    }
    Ok(groups)
}

/// The changes of the transactions with a wrap.
pub(crate) fn standing_at(groups: &StandingGroups, wrap: u32) -> &[StandingChange]
    ensures { result.now ≡ group_at groups.now wrap }
{
    match groups.get(&wrap) {
        Some(group) => group.as_slice(),
        None => &[],
    }
}

/// The changes of all transactions that no record takes back. The lines by them are those of the records.
pub(crate) fn standing_changes(
    alloc: Global,
    threads: &[Sequence<Redo>],
) -> Result<StandingGroups, NoMemory>
    requires { All (All IsRedo) threads.now }
    ensures { IfOk result (λ standing. (n : ℕ) →
        lines_by standing n threads.now ≡
        lines_from (flat_map (λ records. records) threads.now) n threads.now) }
{
    let undone = undone_in(alloc, threads)?;
    let taken = group_undone(alloc, undone.as_slice())?;
    let standing = standing_in(alloc, threads, &taken)?;
    let groups = group_standing(alloc, standing.as_slice())?;
    Ok(groups)
}
