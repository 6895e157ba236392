//! A line is answered without a block.

ghost use Rattle.std.specs.Prelude.{◌≡◌, ◌++◌, true, OnOk, slice_index_or, slice_set};
ghost use Rattle.std.specs.Option.{option_copied};
ghost use Rattle.inst_state.specs.Sessions.{new_session};
ghost use Rattle.inst_state.specs.State.{session_at};
ghost use Rattle.stmt_steps.specs.End.{answer_at, answer_of, answer_tells, end_tells, ended, ended_as, if_back_at, if_lost, if_no_txn, is_going, mark_set, marks_done, may_end, asks_in};

use base_types::NoMemory;
use inst_state::{Asks, Inst, Plan, Session, Table};
use journal::{Cause, Entry, Journal};
use savepoints::Marks;
use script_text::Name;
use std::alloc::Global;

/// How a line is answered that needs no block.
#[derive(Clone, Copy, Debug, PartialEq, Eq)]
pub enum Answer {
    /// It is done: nothing is told but that.
    Plain,
    /// It is refused: there is no such savepoint.
    NoSavepoint,
    /// It is refused: its session isn't connected.
    NotConnected,
}

fn if_no_txn(session: &Session) -> Option<Answer>
    ensures { result ≡ if_no_txn session.now }
{
    if session.own.is_none() {
        Some(Answer::Plain)
    } else {
        None
    }
}

fn if_back_at(session: &Session, count: Option<u32>) -> Option<Answer>
    ensures { result ≡ if_back_at session.now count }
{
    match count {
        Some(count) => {
            if session.own.is_some() && session.standing > count {
                None
            } else {
                Some(Answer::Plain)
            }
        }
        None => Some(Answer::NoSavepoint),
    }
}

// The answer of a line that is under way and needs no block.
fn answer_of(session: &Session, asks: Option<&Asks>) -> Option<Answer>
    ensures { result ≡ answer_of session.now (option_copied asks.entry) }
{
    match asks {
        Some(Asks::Commit) => if_no_txn(session),
        Some(Asks::Rollback) => if_no_txn(session),
        Some(Asks::Savepoint(_)) => Some(Answer::Plain),
        Some(Asks::RollbackTo(name)) => if_back_at(session, session.marks.count_of(name)),
        _ => None,
    }
}

fn is_going(inst: &Inst, z: usize) -> bool
    ensures { result ≡ is_going inst.now z }
{
    inst.life.is_up() && !inst.is_stopped(z) && inst.snapshot(z).is_some()
}

fn if_lost(inst: &Inst, z: usize) -> Option<Answer>
    ensures { result ≡ if_lost (session_at inst.now z) }
{
    if inst.doing(z).is_idle() {
        Some(Answer::NotConnected)
    } else {
        None
    }
}

// The answer of a session's line of the wave, where it needs no block.
fn answer_at(inst: &Inst, z: usize) -> Option<Answer>
    ensures { result ≡ answer_at inst.now z }
{
    if inst.paused || inst.line_now(z).is_none() {
        None
    } else if !inst.is_connected(z) {
        if_lost(inst, z)
    } else if is_going(inst, z) {
        match inst.session(z) {
            Some(session) => answer_of(session, inst.asks(z)),
            None => None,
        }
    } else {
        None
    }
}

/// Whether a session's line may be answered without a block: a savepoint, a missing one, a commit or a rollback without a
/// transaction, a rollback to a savepoint with nothing left, or a line of a session that isn't connected.
pub fn may_end(inst: &Inst, session: u16) -> bool
    ensures { result ≡ may_end inst.now session }
{
    answer_at(inst, usize::from(session)).is_some()
}

fn set_mark(alloc: Global, marks: &mut Marks, name: &Name, count: u32) -> Result<(), NoMemory>
    ensures { OnOk result (marks.new ≡ mark_set name.now count marks.old) }
{
    match Name::new(alloc, name.as_str().as_bytes())? {
        Some(name) => marks.set(name, count),
        None => Ok(()),
    }
}

// What a line that was done does to the savepoints of its session.
fn change_marks(
    alloc: Global,
    marks: &mut Marks,
    standing: u32,
    asks: Option<&Asks>,
) -> Result<(), NoMemory>
    ensures { OnOk result (marks.new ≡ marks_done marks.old standing (option_copied asks.entry)) }
{
    match asks {
        Some(Asks::Commit) => {
            marks.clear();
            Ok(())
        }
        Some(Asks::Rollback) => {
            marks.clear();
            Ok(())
        }
        Some(Asks::Savepoint(name)) => set_mark(alloc, marks, name, standing),
        Some(Asks::RollbackTo(name)) => {
            marks.back_to(name);
            Ok(())
        }
        _ => Ok(()),
    }
}

fn end_session(
    alloc: Global,
    session: &mut Session,
    asks: Option<&Asks>,
    answer: Answer,
) -> Result<(), NoMemory>
    ensures { OnOk result (session.new ≡ ended_as (option_copied asks.entry) answer session.old) }
{
    if matches!(answer, Answer::Plain) {
        change_marks(alloc, &mut session.marks, session.standing, asks)?;
    }
    session.answer();
    Ok(())
}

// What the line at a place among a session's lines asks.
fn asks_in(plan: &Plan, z: usize, next: usize) -> Option<&Asks>
    ensures { option_copied result ≡ asks_in plan.now z next }
{
    match plan.lines.get(z) {
        Some(lines) => match lines.get(next) {
            Some(line) => Some(&line.asks),
            None => None,
        },
        None => None,
    }
}

#[tactic(auto, using(std::proofs::lemmas::List::set_past))]
fn end_at(
    alloc: Global,
    plan: &Plan,
    sessions: &mut Table<Session>,
    z: usize,
    answer: Answer,
) -> Result<(), NoMemory>
    ensures { OnOk result (sessions.new ≡ slice_set sessions.old z (ended_as (asks_in plan.now z (slice_index_or sessions.old z new_session).next) answer (slice_index_or sessions.old z new_session))) }
{
    match sessions.get_mut(z) {
        Some(session) => {
            let asks = asks_in(plan, z, session.next);
            end_session(alloc, session, asks, answer)
        }
        None => Ok(()),
    }
}

fn answer_tells(stmt: u32, answer: Answer) -> Entry
    ensures { result ≡ answer_tells stmt answer }
{
    match answer {
        Answer::Plain => Entry::Plain { stmt },
        Answer::NoSavepoint => Entry::Refused {
            stmt,
            cause: Cause::NoSavepoint,
        },
        Answer::NotConnected => Entry::Refused {
            stmt,
            cause: Cause::NotConnected,
        },
    }
}

/// A session's line is answered without a block.
///
/// # Errors
///
/// There is no memory for a savepoint or for the journal's entry.
pub fn end(
    alloc: Global,
    inst: &mut Inst,
    session: u16,
    journal: &mut Journal,
) -> Result<(), NoMemory>
    requires { may_end inst.old session ≡ true }
    ensures part { OnOk result (inst.new ≡ ended inst.old session) }
    ensures tells { OnOk result (journal.new ≡ end_tells inst.old session ++ journal.old) }
{
    let z = usize::from(session);
    let stmt = inst.stmt(z);
    match answer_at(inst, z) {
        Some(answer) => {
            end_at(alloc, &inst.plan, &mut inst.sessions, z, answer)?;
            journal.push(answer_tells(stmt, answer))
        }
        None => Ok(()),
    }
}
