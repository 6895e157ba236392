ghost use Rattle.std.specs.Prelude.{flat_map, ◌≡◌, ◌++◌, ◌<◌, [], OnOk, Some, slice_get, string_bytes, unwrap_or};
ghost use Rattle.run_report.specs.Journals.{entry_text, inst_text, journal_line, member_text, members_text, name_of, xid_entry_text};

use crate::texts::{CauseText, RowsText};
use base_types::NoMemory;
use journal::Entry;
use script_text::Script;
use std::fmt;

/// Adds a line for each entry of a journal.
pub(crate) fn push_lines(
    text: &mut String,
    script: &Script,
    journal: &[Entry],
) -> Result<(), NoMemory>
    ensures { OnOk result (string_bytes text.new ≡ string_bytes text.old ++ flat_map (journal_line script.now) journal.now) }
{
    for entry in journal {
        push_line(text, script, entry)?;
    }
    Ok(())
}

/// Adds the line that tells an entry.
fn push_line(text: &mut String, script: &Script, entry: &Entry) -> Result<(), NoMemory>
    ensures { OnOk result (string_bytes text.new ≡ string_bytes text.old ++ journal_line script.now entry.now) }
{
    let name = name_of(script, entry);
    let entry = EntryText { name, entry };
    writeln!(text, "{entry}")?;
    Ok(())
}

fn name_of<'a>(script: &'a Script, entry: &Entry) -> &'a str
    ensures { result.now ≡ name_of script.now entry.now }
{
    match entry {
        Entry::Opened { session, .. } | Entry::Started { session, .. } => {
            session_name(script, *session)
        }
        _ => "",
    }
}

/// The name of a session, by its number; nothing where the script has no such session.
fn session_name(script: &Script, session: u16) -> &str
    ensures { result.now ≡ unwrap_or (slice_get script.now.names session) [] }
{
    if (session as usize) < script.sessions() {
        script.session_name(session)
    } else {
        ""
    }
}

/// Prints an entry, with the name of the session that it names.
#[derive(Clone, Copy)]
struct EntryText<'a> {
    name: &'a str,
    entry: &'a Entry,
}

impl fmt::Display for EntryText<'_> {
    ghost output = { λ t. Some (entry_text t.name.now t.entry.now) };

    fn fmt<W: fmt::Write>(&self, f: &mut fmt::Formatter<W>) -> fmt::Result {
        let name = self.name;
        match self.entry {
            Entry::Opened { inst, .. } => {
                let inst = inst.0;
                write!(f, "opened {name} {inst}")
            }
            Entry::Started { stmt, snapshot, .. } => {
                let snapshot = snapshot.0;
                write!(f, "started {stmt} {name} {snapshot}")
            }
            Entry::Rows { stmt, rows } => {
                let rows = RowsText(rows);
                write!(f, "rows {stmt} {rows}")
            }
            Entry::Refused { stmt, cause } => {
                let cause = CauseText(cause);
                write!(f, "refused {stmt} {cause}")
            }
            Entry::Plain { stmt } => write!(f, "plain {stmt}"),
            entry => {
                let entry = XidEntryText(entry);
                write!(f, "{entry}")
            }
        }
    }
}

/// Prints an entry that names a transaction, an instance or a control line.
#[derive(Clone, Copy)]
struct XidEntryText<'a>(&'a Entry);

impl fmt::Display for XidEntryText<'_> {
    ghost output = { λ t. Some (xid_entry_text t.0.now) };

    fn fmt<W: fmt::Write>(&self, f: &mut fmt::Formatter<W>) -> fmt::Result {
        match self.0 {
            Entry::Changed {
                stmt,
                xid,
                row,
                found,
                new,
            } => {
                let row = row.0;
                write!(f, "changed {stmt} {xid} {row} {found} {new}")
            }
            Entry::Locked { stmt, xid, row } => {
                let row = row.0;
                write!(f, "locked {stmt} {xid} {row}")
            }
            Entry::Marked {
                stmt,
                xid,
                commit_scn,
            } => {
                let commit_scn = commit_scn.0;
                write!(f, "marked {stmt} {xid} {commit_scn}")
            }
            Entry::Committed {
                xid,
                commit_scn,
                inst,
            } => {
                let commit_scn = commit_scn.0;
                let inst = inst.0;
                write!(f, "committed {xid} {commit_scn} {inst}")
            }
            Entry::Acked {
                stmt,
                xid,
                commit_scn,
            } => {
                let commit_scn = commit_scn.0;
                write!(f, "acked {stmt} {xid} {commit_scn}")
            }
            Entry::Undone { xid, left } => write!(f, "undone {xid} {left}"),
            Entry::Rolled { xid } => write!(f, "rolled {xid}"),
            entry => {
                let entry = InstText(entry);
                write!(f, "{entry}")
            }
        }
    }
}

/// Prints an entry of an instance or of a control line.
#[derive(Clone, Copy)]
struct InstText<'a>(&'a Entry);

impl fmt::Display for InstText<'_> {
    ghost output = { λ t. Some (inst_text t.0.now) };

    fn fmt<W: fmt::Write>(&self, f: &mut fmt::Formatter<W>) -> fmt::Result {
        match self.0 {
            Entry::Crashed { line, inst } => {
                let inst = inst.0;
                write!(f, "crashed {line} {inst}")
            }
            Entry::Ended { inst, .. } => {
                let inst = inst.0;
                write!(f, "ended {inst}")
            }
            Entry::Up { line, inst } => {
                let inst = inst.0;
                write!(f, "up {line} {inst}")
            }
            Entry::Recovered { insts } => {
                let members = MembersText(*insts);
                write!(f, "recovered{members}")
            }
            Entry::Moved { line } => write!(f, "moved {line}"),
            Entry::Checkpointed { line } => write!(f, "checkpointed {line}"),
            Entry::NotDone { line } => write!(f, "notdone {line}"),
            _ => Ok(()),
        }
    }
}

/// Prints the instances whose bits are set, each after a space.
#[derive(Clone, Copy)]
struct MembersText(u8);

impl fmt::Display for MembersText {
    ghost output = { λ t. Some (members_text t.0) };

    fn fmt<W: fmt::Write>(&self, f: &mut fmt::Formatter<W>) -> fmt::Result {
        for inst in 0..8 {
            let member = MemberText {
                insts: self.0,
                inst,
            };
            write!(f, "{member}")?;
        }
        Ok(())
    }
}

/// Prints an instance after a space where its bit is set.
#[derive(Clone, Copy)]
struct MemberText {
    insts: u8,
    inst: u8,
    ghost within: { inst < 8 },
}

impl fmt::Display for MemberText {
    ghost output = { λ t. Some (member_text t.insts t.inst) };

    fn fmt<W: fmt::Write>(&self, f: &mut fmt::Formatter<W>) -> fmt::Result {
        let inst = self.inst;
        if (self.insts >> inst) % 2 == 1 {
            write!(f, " {inst}")
        } else {
            Ok(())
        }
    }
}
