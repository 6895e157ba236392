//! A session is answered whose transaction has ended.

ghost use Rattle.std.specs.Prelude.{◌≡◌, OnOk, slice_index_or, slice_set};
ghost use Rattle.std.specs.List.{list_all};
ghost use Rattle.inst_state.specs.Sessions.{new_session};
ghost use Rattle.wave_steps.specs.Answers.{ack_tells, acked, acked_core, acked_session, has_heard, is_end_heard, is_heard, may_ack};

use crate::news::{durable_ending, is_epoch, is_other_live};
use base_types::{InstNo, NoMemory};
use inst_set::ALL_INSTS;
use inst_state::{Core, Ending, Inst, Session, Table};
use journal::Entry;

// Whether an instance has heard of an end in this epoch, or isn't another live one.
fn has_heard(core: &Core, me: InstNo, ending: &Ending, other: InstNo) -> bool
    ensures { result ≡ has_heard core.now me ending.now other }
{
    !is_other_live(core, me, other)
        || is_epoch(core.members.epoch, ending.told) && ending.heard.has(other)
}

fn have_heard(insts: &[InstNo], core: &Core, me: InstNo, ending: &Ending) -> bool
    ensures { result ≡ list_all (has_heard core.now me ending.now) insts.now }
{
    insts
        .iter()
        .all(|other| has_heard(core, me, ending, *other))
}

// Whether each other live instance has heard of an end in this epoch.
fn is_heard(core: &Core, me: InstNo, ending: &Ending) -> bool
    ensures { result ≡ is_heard core.now me ending.now }
{
    have_heard(&ALL_INSTS, core, me, ending)
}

fn is_end_heard(core: &Core, me: InstNo, ending: Option<Ending>) -> bool
    ensures { result ≡ is_end_heard core.now me ending }
{
    match ending {
        Some(ending) => is_heard(core, me, &ending),
        None => false,
    }
}

/// Whether the end of a session may be answered: it is on the disk, and each other live instance has heard of it in this
/// epoch.
pub fn may_ack(inst: &Inst, core: &Core, session: u16) -> bool
    ensures { result ≡ may_ack inst.now core.now session }
{
    is_end_heard(core, inst.plan.me, durable_ending(inst, session))
}

#[tactic(auto, using(std::proofs::lemmas::List::set_past))]
fn answer_at(sessions: &mut Table<Session>, z: usize)
    ensures { sessions.new ≡ slice_set sessions.old z (acked_session (slice_index_or sessions.old z new_session)) }
{
    if let Some(session) = sessions.get_mut(z) {
        session.marks.clear();
        session.answer();
    }
}

fn ack_tells(stmt: u32, ending: &Ending) -> Entry
    ensures { result ≡ ack_tells stmt ending.now }
{
    if ending.commit {
        Entry::Acked {
            stmt,
            xid: ending.xid,
            commit_scn: ending.scn,
        }
    } else {
        Entry::Plain { stmt }
    }
}

/// The end of a session is answered: a commit is acknowledged.
///
/// # Errors
///
/// There is no memory for the journal's entry.
pub fn ack(inst: &mut Inst, session: u16, core: &mut Core) -> Result<(), NoMemory>
    ensures part { OnOk result (inst.new ≡ acked inst.old session) }
    ensures core { OnOk result (core.new ≡ acked_core inst.old core.old session) }
{
    let z = usize::from(session);
    let stmt = inst.stmt(z);
    match durable_ending(inst, session) {
        Some(ending) => {
            answer_at(&mut inst.sessions, z);
            core.tell(ack_tells(stmt, &ending))
        }
        None => Ok(()),
    }
}
