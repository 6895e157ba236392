ghost use Rattle.std.specs.Prelude.{◌≡◌, Some, option_map};
ghost use Rattle.run_report.specs.Answers.{answer_text, answered_line, checkpoint_text, crash_text, full_text, plain_text, remaster_text, start_text, stmt_text};
ghost use Rattle.run_report.specs.Words.{words_of};

use crate::texts::{CauseText, RowsText};
use journal::{Cause, Entry, RowList};
use script_text::{Item, Stmt};
use std::fmt;

/// What the report says of a line.
#[derive(Clone, Copy)]
pub(crate) enum Answer<'a> {
    Word(&'static str),
    Rows(&'a RowList),
    Refused(&'a Cause),
}

impl fmt::Display for Answer<'_> {
    ghost output = { λ answer. Some (words_of answer) };

    fn fmt<W: fmt::Write>(&self, f: &mut fmt::Formatter<W>) -> fmt::Result {
        match self {
            Answer::Word(word) => write!(f, "{word}"),
            Answer::Rows(rows) => {
                let rows = RowsText(rows);
                write!(f, "rows {rows}")
            }
            Answer::Refused(cause) => {
                let cause = CauseText(cause);
                write!(f, "{cause}")
            }
        }
    }
}

/// The line that an entry answers by its number.
pub(crate) fn answered_line(entry: &Entry) -> Option<u32>
    ensures { result ≡ answered_line entry.now }
{
    match entry {
        Entry::Rows { stmt, .. }
        | Entry::Changed { stmt, .. }
        | Entry::Locked { stmt, .. }
        | Entry::Acked { stmt, .. }
        | Entry::Plain { stmt }
        | Entry::Refused { stmt, .. } => Some(*stmt),
        Entry::Crashed { line, .. }
        | Entry::Up { line, .. }
        | Entry::Moved { line }
        | Entry::Checkpointed { line }
        | Entry::NotDone { line } => Some(*line),
        _ => None,
    }
}

/// What an entry says as the answer of a line.
pub(crate) fn answer_of<'a>(item: &Item, entry: &'a Entry) -> Option<Answer<'a>>
    ensures { option_map words_of result ≡ answer_text item.now entry.now }
{
    match item {
        Item::Stmt { what, .. } => stmt_answer(what, entry),
        Item::CrashAfter { .. } | Item::CrashMark { .. } => crash_answer(entry),
        Item::Start { .. } => start_answer(entry),
        Item::Remaster { .. } => remaster_answer(entry),
        Item::Checkpoint { .. } => checkpoint_answer(entry),
        Item::Session { .. } | Item::Hold { .. } => None,
    }
}

fn stmt_answer<'a>(what: &Stmt, entry: &'a Entry) -> Option<Answer<'a>>
    ensures { option_map words_of result ≡ stmt_text what.now entry.now }
{
    if let Entry::Plain { .. } = entry {
        return plain_answer(what);
    }
    full_answer(entry)
}

fn full_answer<'a>(entry: &'a Entry) -> Option<Answer<'a>>
    ensures { option_map words_of result ≡ full_text entry.now }
{
    match entry {
        Entry::Rows { rows, .. } => Some(Answer::Rows(rows)),
        Entry::Changed { .. } => Some(Answer::Word("changed")),
        Entry::Locked { .. } => Some(Answer::Word("locked")),
        Entry::Acked { .. } => Some(Answer::Word("committed")),
        Entry::Refused { cause, .. } => Some(Answer::Refused(cause)),
        _ => None,
    }
}

fn plain_answer<'a>(what: &Stmt) -> Option<Answer<'a>>
    ensures { option_map words_of result ≡ plain_text what.now }
{
    match what {
        Stmt::Lock(_) => Some(Answer::Word("locked")),
        Stmt::Commit => Some(Answer::Word("committed")),
        Stmt::Rollback | Stmt::RollbackTo(_) => Some(Answer::Word("rolled back")),
        Stmt::Savepoint(_) => Some(Answer::Word("savepoint")),
        _ => None,
    }
}

fn crash_answer<'a>(entry: &'a Entry) -> Option<Answer<'a>>
    ensures { option_map words_of result ≡ crash_text entry.now }
{
    match entry {
        Entry::Crashed { .. } => Some(Answer::Word("crashed")),
        Entry::NotDone { .. } => Some(Answer::Word("already down")),
        _ => None,
    }
}

fn start_answer<'a>(entry: &'a Entry) -> Option<Answer<'a>>
    ensures { option_map words_of result ≡ start_text entry.now }
{
    match entry {
        Entry::Up { .. } => Some(Answer::Word("up")),
        Entry::NotDone { .. } => Some(Answer::Word("already up")),
        _ => None,
    }
}

fn remaster_answer<'a>(entry: &'a Entry) -> Option<Answer<'a>>
    ensures { option_map words_of result ≡ remaster_text entry.now }
{
    match entry {
        Entry::Moved { .. } => Some(Answer::Word("moved")),
        Entry::NotDone { .. } => Some(Answer::Word("not moved")),
        _ => None,
    }
}

fn checkpoint_answer<'a>(entry: &'a Entry) -> Option<Answer<'a>>
    ensures { option_map words_of result ≡ checkpoint_text entry.now }
{
    match entry {
        Entry::Checkpointed { .. } => Some(Answer::Word("checkpointed")),
        Entry::NotDone { .. } => Some(Answer::Word("not done")),
        _ => None,
    }
}
