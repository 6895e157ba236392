//! An instance enters the wave.

ghost use Rattle.std.specs.Prelude.{◌≡◌, OnOk, fold, slice_index_or, slice_set};
ghost use Rattle.inst_state.specs.Sessions.{new_session};
ghost use Rattle.wave_steps.specs.Enter.{entered, entered_core, may_enter, opened, opened_if, told_if};

use crate::begins::begun_in;
use base_types::NoMemory;
use inst_state::{Core, Inst, Plan, Session, Table};
use journal::{Entry, Journal};
use std::alloc::Global;

/// Whether an instance may enter the wave: it hasn't entered it yet.
pub fn may_enter(inst: &Inst, core: &Core) -> bool
    ensures { result ≡ may_enter inst.now core.now }
{
    inst.wave.entered < core.waves.wave && !core.waves.over
}

#[tactic(auto, using(std::proofs::lemmas::List::set_past))]
fn open_at(sessions: &mut Table<Session>, z: usize, up: bool)
    ensures { sessions.new ≡ slice_set sessions.old z (opened up (slice_index_or sessions.old z new_session)) }
{
    if let Some(session) = sessions.get_mut(z) {
        session.connected = up;
    }
}

// Opens each session of a wave.
fn open_each(sessions: &mut Table<Session>, plan: &Plan, up: bool, wave: u32)
    ensures { sessions.new ≡ fold (opened_if up wave) sessions.old plan.now.openings }
{
    for opening in plan.openings.as_slice() {
        if opening.wave == wave {
            open_at(sessions, usize::from(opening.session), up);
        }
    }
}

// Tells each opening of a wave.
fn tell_each(journal: &mut Journal, plan: &Plan, wave: u32) -> Result<(), NoMemory>
    ensures { OnOk result (journal.new ≡ fold (told_if plan.now.me wave) journal.old plan.now.openings) }
{
    for opening in plan.openings.as_slice() {
        if opening.wave == wave {
            journal.push(Entry::Opened {
                session: opening.session,
                inst: plan.me,
            })?;
        }
    }
    Ok(())
}

/// An instance enters the wave: its sessions of the wave are opened, and the checkpoints begin that it is asked for.
///
/// # Errors
///
/// There is no memory for the checkpoints or for the journal's entries.
pub fn enter(alloc: Global, inst: &mut Inst, core: &mut Core) -> Result<(), NoMemory>
    ensures part { OnOk result (inst.new ≡ entered inst.old core.old) }
    ensures core { OnOk result (core.new ≡ entered_core inst.old core.old) }
{
    let wave = core.waves.wave;
    let up = inst.life.is_up();
    let begun = begun_in(alloc, inst, core.waves.controls_now())?;
    inst.wave.entered = wave;
    inst.wave.checkpoints = begun;
    open_each(&mut inst.sessions, &inst.plan, up, wave);
    tell_each(&mut core.journal, &inst.plan, wave)
}
