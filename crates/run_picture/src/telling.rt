//! A run is told, step by step.

use crate::entry_words::entry_words;
use crate::shapes::Look;
use crate::sign_words::sign_words;
use crate::story::{Row, Story};
use crate::turns::{Sign, Turn};
use base_types::{InstNo, NoMemory};
use journal::{Entry, Journal};
use script_text::{Item, Script, Stmt};
use std::alloc::Global;

/// How a statement looks while it is under way.
fn stmt_look(script: &Script, line: u32) -> Look {
    match script.waves().item(line) {
        Some(Item::Stmt { what, .. }) => match what {
            Stmt::Get(_) | Stmt::Scan(_, _) => Look::Reading,
            Stmt::Put(_, _) | Stmt::Add(_, _) | Stmt::Del(_) | Stmt::Lock(_) => Look::Changing,
            _ => Look::Ending,
        },
        _ => Look::Ending,
    }
}

/// From where an arrow comes with a step.
fn arrow_of(sign: &Sign) -> Option<(InstNo, Look)> {
    match sign {
        Sign::Gets { from, .. } => Some((*from, Look::Block)),
        Sign::GetsCopy { from, .. } => Some((*from, Look::Copy)),
        _ => None,
    }
}

/// How the ground of an instance looks behind a step; `None` where it stays as it was.
fn ground_of(sign: &Sign) -> Option<Look> {
    match sign {
        Sign::Reports | Sign::Joins => Some(Look::Paused),
        Sign::Resumes => Some(Look::Up),
        _ => None,
    }
}

/// What an entry does to the bars and the grounds, before its row stands.
fn note_entry(
    story: &mut Story,
    script: &Script,
    entry: &Entry,
    inst: InstNo,
) -> Result<(), NoMemory> {
    match entry {
        Entry::Started { stmt, .. } => {
            let look = stmt_look(script, *stmt);
            story.begin(*stmt, inst, look)
        }
        Entry::Rows { stmt, .. }
        | Entry::Changed { stmt, .. }
        | Entry::Locked { stmt, .. }
        | Entry::Acked { stmt, .. }
        | Entry::Plain { stmt } => story.end(*stmt, false),
        Entry::Refused { stmt, .. } => story.end(*stmt, true),
        Entry::Crashed { inst, .. } | Entry::Ended { inst, .. } => {
            story.turn_ground(*inst, Look::Down)
        }
        _ => Ok(()),
    }
}

/// A step that is being told.
#[derive(Drop)]
struct Teller<'a> {
    alloc: Global,
    script: &'a Script,
    inst: InstNo,
    /// Its number, until a row bears it.
    number: Option<u64>,
}

impl Teller<'_> {
    /// Tells what is to be seen of the step.
    fn tell_sign(&mut self, story: &mut Story, sign: &Sign) -> Result<(), NoMemory> {
        if let Some(look) = ground_of(sign) {
            story.turn_ground(self.inst, look)?;
        }
        if let Sign::Wave = sign {
            story.push_wave()?;
        }
        if let Some(words) = sign_words(self.alloc, sign)? {
            let step = self.number.take();
            story.push_row(Row {
                step,
                inst: self.inst,
                words,
                from: arrow_of(sign),
            })?;
        }
        Ok(())
    }

    /// Tells an entry of the step.
    fn tell_entry(&mut self, story: &mut Story, entry: &Entry) -> Result<(), NoMemory> {
        note_entry(story, self.script, entry, self.inst)?;
        if let Some(words) = entry_words(self.alloc, self.script, entry)? {
            let step = self.number.take();
            story.push_row(Row {
                step,
                inst: self.inst,
                words,
                from: None,
            })?;
        }
        Ok(())
    }
}

/// Tells a run from a step on, in so many rows at most and those of the last step.
pub(crate) fn tell(
    alloc: Global,
    script: &Script,
    journal: &Journal,
    turns: &[Turn],
    from: u64,
    most: u32,
) -> Result<Story, NoMemory> {
    let mut story = Story::new(alloc);
    let mut left = journal.as_slice();
    let mut number: u64 = 0;
    for turn in turns {
        if from <= number {
            story.show();
        }
        if most <= story.height() {
            break;
        }
        story.count(number);
        let mut teller = Teller {
            alloc,
            script,
            inst: turn.inst,
            number: Some(number),
        };
        teller.tell_sign(&mut story, &turn.sign)?;
        for _ in 0..turn.entries {
            if let Some((entry, others)) = left.split_first() {
                teller.tell_entry(&mut story, entry)?;
                left = others;
            }
        }
        number = number.saturating_add(1);
    }
    story.close(script.settings().instances)?;
    Ok(story)
}
