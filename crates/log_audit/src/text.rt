ghost use Rattle.std.specs.Prelude.{◌≡◌, ◌++◌, IfOk, OnOk, Some, flat_map, string_bytes};
ghost use Rattle.log_audit.specs.Texts.{audit_text, commit_text, end_text, history_line_text, torn_text};

use base_types::{InstNo, NoMemory};
use log_history::HistoryLine;
use run_report::RowsText;
use std::alloc::Global;
use std::fmt;

/// The text of an audit.
pub(crate) fn text_of(
    alloc: Global,
    lines: &[HistoryLine],
    torn: &[(InstNo, u64)],
) -> Result<Vec<u8>, NoMemory>
    ensures { IfOk result (λ text. text.items ≡ audit_text lines.now torn.now) }
{
    let mut text = String::new(alloc);
    push_commits(&mut text, lines)?;
    push_ends(&mut text, torn)?;
    Ok(text.into_bytes())
}

/// Adds a line for each committed transaction.
fn push_commits(text: &mut String, lines: &[HistoryLine]) -> Result<(), NoMemory>
    ensures { OnOk result (string_bytes text.new ≡ string_bytes text.old ++ flat_map history_line_text lines.now) }
{
    for line in lines {
        let commit = CommitText(line);
        writeln!(text, "{commit}")?;
    }
    Ok(())
}

/// Adds a line for each torn end.
fn push_ends(text: &mut String, torn: &[(InstNo, u64)]) -> Result<(), NoMemory>
    ensures { OnOk result (string_bytes text.new ≡ string_bytes text.old ++ flat_map torn_text torn.now) }
{
    for end in torn {
        let end = EndText(*end);
        writeln!(text, "{end}")?;
    }
    Ok(())
}

/// Prints a committed transaction.
#[derive(Clone, Copy)]
struct CommitText<'a>(&'a HistoryLine);

impl fmt::Display for CommitText<'_> {
    ghost output = { λ t. Some (commit_text t.0.now) };

    fn fmt<W: fmt::Write>(&self, f: &mut fmt::Formatter<W>) -> fmt::Result {
        let line = self.0;
        let c = line.commit_scn.0;
        let inst = line.inst.0;
        let xid = line.xid;
        let changes = RowsText(&line.changes);
        write!(f, "commit {c} {inst} {xid} {changes}")
    }
}

/// Prints a torn end.
#[derive(Clone, Copy)]
struct EndText((InstNo, u64));

impl fmt::Display for EndText {
    ghost output = { λ t. Some (end_text t.0) };

    fn fmt<W: fmt::Write>(&self, f: &mut fmt::Formatter<W>) -> fmt::Result {
        let (InstNo(thread), place) = self.0;
        write!(f, "torn {thread} {place}")
    }
}
