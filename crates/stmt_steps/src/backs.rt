//! The newest change or lock of a transaction is taken back.

ghost use Rattle.std.specs.Prelude.{◌≡◌, ◌∷◌, ◌++◌, ◌-◌, [], true, false, None, Some, IfSome, OnOk, slice_index_or, slice_set};
ghost use Rattle.std.specs.Option.{ForSome, option_copied};
ghost use Rattle.redo_record.specs.Redo.{IsRedo};
ghost use Rattle.inst_state.specs.Needs.{dead_needed, dead_segment};
ghost use Rattle.inst_state.specs.Sessions.{new_session};
ghost use Rattle.inst_state.specs.State.{has_room, session_at};
ghost use Rattle.stmt_steps.specs.Change.{FitsInst, applying, block_at, block_or_zero};
ghost use Rattle.stmt_steps.specs.Back.{FitsDead, IfBackFits, IfDeadFits, applying_dead, back_decided, back_on, back_tells, dead_back_decided, dead_back_tells, dead_stepped_back, may_step_back, may_step_back_dead, needed_image, one_less, record_of, stepped_back, undone};

use crate::changes::{apply, block_at, change_cache};
use crate::marks::{apply_adopted, is_job};
use base_types::{BlockNo, NoMemory, Xid};
use block_image::DataBlock;
use inst_state::{Inst, Needed, Session, Table, append, note_newest};
use journal::{Entry, Journal};
use redo_types::Redo;
use txn_engine::decide_back;

/// What is decided of a session's step back; `None` where it takes nothing back, or its block isn't held exclusively, and
/// `Some(None)` where what is at hand is such that no run leaves it.
pub fn back_decided(inst: &Inst, session: u16) -> Option<Option<Redo>>
    ensures decided { result ≡ back_decided inst.now session }
    ensures fits { IfBackFits inst.now (block_at inst.now session) result }
{
    let z = usize::from(session);
    if !inst.goes_back(z) {
        return None;
    }
    match (inst.own(z), inst.image_in_hand(z)) {
        (Some(xid), Some(image)) => { Some(decide_back(&xid, &inst.segment, image, &inst.clock)) }
        _ => None,
    }
}

fn record_of(decided: Option<Option<Redo>>) -> Option<Redo>
    ensures { result ≡ record_of decided }
{
    match decided {
        Some(redo) => redo,
        None => None,
    }
}

/// Whether a session's step back may be made: its block is held, and there is room for a record.
pub fn may_step_back(inst: &Inst, session: u16) -> bool
    ensures { result ≡ may_step_back inst.now session }
{
    inst.works() && inst.has_room() && record_of(back_decided(inst, session)).is_some()
}

#[tactic(auto, using(std::proofs::lemmas::List::set_past))]
fn take_one_at(sessions: &mut Table<Session>, z: usize)
    ensures { sessions.new ≡ slice_set sessions.old z (one_less (slice_index_or sessions.old z new_session)) }
{
    if let Some(session) = sessions.get_mut(z) {
        session.standing = session.standing.saturating_sub(1);
    }
}

/// The newest change or lock of a session's transaction is taken back.
///
/// # Errors
///
/// There is no memory for what is noted of it or for the journal's entry.
pub fn step_back(inst: &mut Inst, session: u16, journal: &mut Journal) -> Result<(), NoMemory>
    requires { may_step_back inst.old session ≡ true }
    ensures part { OnOk result (inst.new ≡ stepped_back inst.old session) }
    ensures tells { OnOk result (journal.new ≡ back_tells inst.old session ++ journal.old) }
    ensures record { OnOk result (IfSome (record_of (back_decided inst.old session)) IsRedo) }
{
    match back_decided(inst, session) {
        Some(Some(redo)) => {
            let z = usize::from(session);
            let left = inst.standing(z).saturating_sub(1);
            let block = block_at(inst, z);
            apply(inst, block, &redo)?;
            take_one_at(&mut inst.sessions, z);
            journal.push(Entry::Undone {
                xid: redo.xid,
                left,
            })
        }
        _ => Ok(()),
    }
}

fn needed_image(inst: &Inst, needed: Option<Needed>) -> Option<&DataBlock>
    ensures { option_copied result ≡ needed_image inst.now needed }
{
    match needed {
        Some(need) => {
            if inst.holds(need.block, need.mode) {
                inst.cache.image(need.block)
            } else {
                None
            }
        }
        None => None,
    }
}

fn block_or_zero(needed: Option<Needed>) -> BlockNo
    ensures { result ≡ block_or_zero needed }
{
    match needed {
        Some(need) => need.block,
        None => BlockNo(0),
    }
}

/// What is decided of the dead transaction's step back; `None` where there is none or its block isn't held exclusively, and
/// `Some(None)` where what is at hand is such that no run leaves it.
pub fn dead_back_decided(inst: &Inst) -> Option<Option<Redo>>
    ensures decided { result ≡ dead_back_decided inst.now }
    ensures fits { IfDeadFits inst.now (block_or_zero (dead_needed inst.now)) result }
{
    match (
        inst.dead_txn(),
        inst.dead_segment(),
        needed_image(inst, inst.dead_needed()),
    ) {
        (Some(xid), Some(segment), Some(image)) => {
            Some(decide_back(&xid, segment, image, &inst.clock))
        }
        _ => None,
    }
}

/// Whether the dead transaction's step back may be made: its block is held, and there is room for a record.
pub fn may_step_back_dead(inst: &Inst, job: u64) -> bool
    ensures { result ≡ may_step_back_dead inst.now job }
{
    inst.has_room() && is_job(job, &inst.dead_txn()) && record_of(dead_back_decided(inst)).is_some()
}

#[tactic(auto, using(crate::proofs::Fits::can_change))]
fn apply_dead(inst: &mut Inst, block: BlockNo, redo: &Redo) -> Result<(), NoMemory>
    requires fits { FitsDead inst.old block redo.now }
    requires room { has_room inst.old ≡ true }
    ensures { OnOk result (inst.new ≡ applying_dead inst.old block redo.now) }
{
    let at = inst.thread.end();
    let place = inst.dead_place();
    apply_adopted(&mut inst.leading.adopted, place, redo, at);
    change_cache(&mut inst.cache, block, &redo.row, redo.scn, at);
    append(inst, redo, false)?;
    note_newest(inst, block);
    Ok(())
}

/// The newest change or lock of the dead transaction is taken back.
///
/// # Errors
///
/// There is no memory for what is noted of it or for the journal's entry.
pub fn step_back_dead(inst: &mut Inst, _job: u64, journal: &mut Journal) -> Result<(), NoMemory>
    requires { may_step_back_dead inst.old _job ≡ true }
    ensures part { OnOk result (inst.new ≡ dead_stepped_back inst.old) }
    ensures tells { OnOk result (journal.new ≡ dead_back_tells inst.old ++ journal.old) }
    ensures record { OnOk result (IfSome (record_of (dead_back_decided inst.old)) IsRedo) }
{
    match dead_back_decided(inst) {
        Some(Some(redo)) => {
            let block = block_or_zero(inst.dead_needed());
            apply_dead(inst, block, &redo)?;
            journal.push(Entry::Undone {
                xid: redo.xid,
                left: 0,
            })
        }
        _ => Ok(()),
    }
}
