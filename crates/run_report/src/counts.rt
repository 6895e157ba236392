ghost use Rattle.std.specs.Prelude.{◌≡◌, IfOk, count_by, nat_eq, reverse};
ghost use Rattle.std.specs.List.{filter_map};
ghost use Rattle.std.specs.Set.{distinct_count};
ghost use Rattle.run_report.specs.Summaries.{answered_statement, is_acked, is_refused, is_rolled, newest_rows, number_of, sum_of, summary_text};

use base_types::{NoMemory, RowNo, Value};
use journal::{Entry, Journal};
use std::alloc::Global;
use std::collections::HashSet;

/// Five lines: how many statement lines were answered, how many commits and whole rollbacks there were,
/// how many statements were refused, and the sum of the numbers that were read last.
pub fn summary(alloc: Global, journal: &Journal) -> Result<Vec<u8>, NoMemory>
    ensures { IfOk result (λ text. text.items ≡ summary_text journal.now) }
{
    let entries = journal.as_slice();
    let statements = count_statements(alloc, entries)?;
    let committed = entries.iter().filter(|entry| is_acked(entry)).count();
    let rolled = entries.iter().filter(|entry| is_rolled(entry)).count();
    let refused = entries.iter().filter(|entry| is_refused(entry)).count();
    let sum = sum_of(newest_rows(journal));
    let text = format!(in alloc;
        "statements {statements}\ncommitted {committed}\nrolled back {rolled}\nrefused {refused}\nsum {sum}\n"
    )?;
    Ok(text.into_bytes())
}

/// How many statement lines are answered.
fn count_statements(alloc: Global, entries: &[Entry]) -> Result<usize, NoMemory>
    ensures { IfOk result (λ count. count ≡ distinct_count nat_eq (filter_map answered_statement entries.now)) }
{
    let mut lines: HashSet<u32> = HashSet::new(alloc);
    for entry in entries {
        if let Some(line) = answered_statement(entry) {
            lines.insert(line)?;
        }
    }
    Ok(lines.len())
}

fn answered_statement(entry: &Entry) -> Option<u32>
    ensures { result ≡ answered_statement entry.now }
{
    match entry {
        Entry::Rows { stmt, .. }
        | Entry::Changed { stmt, .. }
        | Entry::Locked { stmt, .. }
        | Entry::Acked { stmt, .. }
        | Entry::Plain { stmt }
        | Entry::Refused { stmt, .. } => Some(*stmt),
        _ => None,
    }
}

fn is_acked(entry: &Entry) -> bool
    ensures { result ≡ is_acked entry.now }
{
    matches!(entry, Entry::Acked { .. })
}

fn is_rolled(entry: &Entry) -> bool
    ensures { result ≡ is_rolled entry.now }
{
    matches!(entry, Entry::Rolled { .. })
}

fn is_refused(entry: &Entry) -> bool
    ensures { result ≡ is_refused entry.now }
{
    matches!(entry, Entry::Refused { .. })
}

/// The rows of the last Rows entry, none without one.
fn newest_rows(journal: &Journal) -> &[(RowNo, Value)]
    ensures { result.now ≡ newest_rows journal.now }
{
    let mut left = journal.as_slice();
    while let Some((last, before)) = left.split_last() {
        if let Entry::Rows { rows, .. } = last {
            return rows.as_slice();
        }
        left = before;
    }
    &[]
}

/// The numbers of rows, added up; 128 bits hold them.
fn sum_of(rows: &[(RowNo, Value)]) -> i128
    ensures { result ≡ sum_of rows.now }
{
    let mut sum = 0;
    for (_, value) in rows {
        sum += i128::from(number_of(*value));
    }
    sum
}

fn number_of(value: Value) -> i64
    ensures { result ≡ number_of value }
{
    match value {
        Value::Absent => 0,
        Value::Num(number) => number,
    }
}
