//! All redo that waits is appended to the log.

ghost use Rattle.std.specs.Prelude.{◌≡◌, ◌<◌, [], fold, slice_index_or, slice_set, IfOk, OnOk};
ghost use Rattle.std.specs.Option.{option_copied};
ghost use Rattle.std.specs.List.{list_any, range_with_len};
ghost use Rattle.inst_state.specs.Sessions.{new_session};
ghost use Rattle.disk_steps.specs.Force.{ForcesAs, asks_from, bears_redo, commit_told, end_learnt, end_on_disk, end_told_to, force_told, forced_as, has_due_block, has_session_end, is_asked_for, is_due_but_redo, is_force_first, is_waited_for, line_waits, may_force, session_on_disk, start_waits, thread_after, ends_by_force, is_awaited, is_pressed, with_end_on_disk};

use crate::ready::is_ready_but_forced;
use crate::writing::{is_due, redo_is_durable};
use base_types::{BlockNo, InstNo, NoMemory};
use disk_calls::{Appended, log_len};
use image_steps::first_message;
use inst_loss::{Loss, lose};
use inst_set::ALL_INSTS;
use inst_state::{Core, Doing, Ending, Inst, Session, Table, WaitingEnd};
use journal::{Entry, Journal};
use rac_disk::SharedDisk;
use redo_thread::RedoThread;
use scn_clock::Clock;
use std::alloc::Global;
use stmt_steps::change_decided;
use txn_engine::Decision;
use wire_net::{Lane, Message};

fn has_session_end(inst: &Inst) -> bool
    ensures { result ≡ has_session_end inst.now }
{
    inst.ends.as_slice().iter().any(|end| end.session.is_some())
}

// Whether a message asks for an image, a copy or a block of undo, which bears redo.
fn bears_redo(message: Option<&Message>) -> bool
    ensures { result ≡ bears_redo (option_copied message.entry) }
{
    match message {
        Some(Message::ShipTo { .. }) => true,
        Some(Message::ShareTo { .. }) => true,
        Some(Message::CopyTo { .. }) => true,
        Some(Message::NeedUndo { .. }) => true,
        _ => false,
    }
}

fn asks_from(inst: &Inst, core: &Core, from: InstNo) -> bool
    ensures { result ≡ asks_from inst.now core.now from }
{
    bears_redo(first_message(inst, core, from, Lane::Main))
        || bears_redo(first_message(inst, core, from, Lane::Undo))
}

fn some_asks(inst: &Inst, core: &Core, insts: &[InstNo]) -> bool
    ensures { result ≡ list_any (asks_from inst.now core.now) insts.now }
{
    insts.iter().any(|from| asks_from(inst, core, *from))
}

#[tactic(auto, unfolding(crate::specs::Force::is_asked_for))]
fn is_asked_for(inst: &Inst, core: &Core) -> bool
    ensures { result ≡ is_asked_for inst.now core.now }
{
    some_asks(inst, core, &ALL_INSTS)
}

fn is_force_first(decision: &Option<Decision>) -> bool
    ensures { result ≡ is_force_first decision.now }
{
    matches!(decision, Some(Decision::ForceFirst))
}

fn start_waits(inst: &Inst, z: usize) -> bool
    ensures { result ≡ start_waits inst.now z }
{
    inst.end_waits() && inst.is_connected(z) && inst.doing(z).is_idle() && inst.may_begin(z)
}

fn line_waits(inst: &Inst, session: u16) -> bool
    ensures { result ≡ line_waits inst.now session }
{
    is_force_first(&change_decided(inst, session)) || start_waits(inst, usize::from(session))
}

fn some_line_waits(inst: &Inst) -> bool
    ensures { result ≡ list_any (line_waits inst.now) inst.now.plan.mine }
{
    inst.plan
        .mine
        .as_slice()
        .iter()
        .any(|session| line_waits(inst, *session))
}

fn is_waited_for(inst: &Inst) -> bool
    ensures { result ≡ is_waited_for inst.now }
{
    inst.works() && some_line_waits(inst)
}

fn is_due_but_redo(inst: &Inst, core: &Core, block: BlockNo) -> bool
    ensures { result ≡ is_due_but_redo inst.now core.now block }
{
    is_due(inst, core, block) && !redo_is_durable(inst, block)
}

#[tactic(auto, unfolding(crate::specs::Force::has_due_block))]
fn has_due_block(inst: &Inst, core: &Core) -> bool
    ensures { result ≡ has_due_block inst.now core.now }
{
    (0..200u16).any(|block| is_due_but_redo(inst, core, BlockNo(block)))
}

#[tactic(auto, unfolding(crate::specs::Force::is_awaited))]
fn is_awaited(inst: &Inst, core: &Core) -> bool
    ensures { result ≡ is_awaited inst.now core.now }
{
    has_session_end(inst) || is_asked_for(inst, core) || is_waited_for(inst)
}

fn has_begun(inst: &Inst) -> bool
    ensures { result ≡ not (length inst.now.wave.checkpoints == 0) }
{
    !inst.wave.checkpoints.is_empty()
}

ghost use Rattle.std.specs.Prelude.{◌==◌, length, not};

#[tactic(auto, unfolding(crate::specs::Force::is_pressed))]
fn is_pressed(inst: &Inst, core: &Core) -> bool
    ensures { result ≡ is_pressed inst.now core.now }
{
    inst.free_bytes() < 236 || has_due_block(inst, core)
}

#[tactic(auto, unfolding(crate::specs::Force::ends_by_force))]
fn ends_by_force(inst: &Inst, core: &Core) -> bool
    ensures { result ≡ ends_by_force inst.now core.now }
{
    has_begun(inst) || is_ready_but_forced(inst, core)
}

fn is_wanted(inst: &Inst, core: &Core) -> bool
    ensures { result ≡ (is_awaited inst.now core.now || is_pressed inst.now core.now || ends_by_force inst.now core.now) }
{
    is_awaited(inst, core) || is_pressed(inst, core) || ends_by_force(inst, core)
}

ghost use Rattle.std.specs.Prelude.{◌||◌};

/// Whether redo may be forced: some waits, and that is wanted.
pub fn may_force(inst: &Inst, core: &Core) -> bool
    ensures { result ≡ may_force inst.now core.now }
{
    !inst.life.is_down() && !inst.is_forced() && is_wanted(inst, core)
}

// Appends what waits. Where that fails the instance asks for the length of its log.
fn force_thread<D: SharedDisk>(thread: &mut RedoThread, me: InstNo, disk: &mut D) -> Appended
    requires { me < 8 }
    ensures thread { thread.new ≡ thread_after thread.old result }
    ensures disk { ForcesAs thread.old me result (D.state disk.old) (D.state disk.new) }
{
    match thread.force(disk) {
        Ok(()) => Appended::Whole,
        Err(_) => Appended::Cut(log_len(disk, me)),
    }
}

fn learn_each(clock: &mut Clock, ends: &[WaitingEnd])
    ensures { clock.new ≡ fold end_learnt clock.old ends.now }
{
    for end in ends {
        clock.learn(end.scn);
    }
}

fn with_end_on_disk(doing: Doing) -> Doing
    ensures { result ≡ with_end_on_disk doing }
{
    match doing {
        Doing::Ends(ending) => Doing::Ends(Ending {
            on_disk: true,
            ..ending
        }),
        other => other,
    }
}

#[tactic(auto, using(std::proofs::lemmas::List::set_past))]
fn end_at(sessions: &mut Table<Session>, z: usize)
    ensures { sessions.new ≡ slice_set sessions.old z (end_on_disk (slice_index_or sessions.old z new_session)) }
{
    if let Some(session) = sessions.get_mut(z) {
        session.doing = with_end_on_disk(session.doing);
    }
}

fn tell_session(sessions: &mut Table<Session>, session: Option<u16>)
    ensures { sessions.new ≡ session_on_disk sessions.old session }
{
    if let Some(session) = session {
        end_at(sessions, usize::from(session));
    }
}

fn tell_sessions(sessions: &mut Table<Session>, ends: &[WaitingEnd])
    ensures { sessions.new ≡ fold end_told_to sessions.old ends.now }
{
    for end in ends {
        tell_session(sessions, end.session);
    }
}

fn tell_commit(journal: &mut Journal, me: InstNo, end: &WaitingEnd) -> Result<(), NoMemory>
    ensures { OnOk result (journal.new ≡ commit_told me journal.old end.now) }
{
    if end.commit {
        journal.push(Entry::Committed {
            xid: end.xid,
            commit_scn: end.scn,
            inst: me,
        })
    } else {
        Ok(())
    }
}

fn tell_commits(journal: &mut Journal, me: InstNo, ends: &[WaitingEnd]) -> Result<(), NoMemory>
    ensures { OnOk result (journal.new ≡ fold (commit_told me) journal.old ends.now) }
{
    for end in ends {
        tell_commit(journal, me, end)?;
    }
    Ok(())
}

// All redo is on the disk, but for the thread that was forced: the ends are known.
fn know_ends(inst: &mut Inst)
    ensures { inst.new ≡ record inst.old { clock = fold end_learnt inst.old.clock inst.old.ends; sessions = fold end_told_to inst.old.sessions inst.old.ends; ends = [] } }
{
    learn_each(&mut inst.clock, inst.ends.as_slice());
    tell_sessions(&mut inst.sessions, inst.ends.as_slice());
    inst.ends.clear();
}

/// All redo that waits is appended to the log; how that went is returned. Where it failed the instance ends.
///
/// # Errors
///
/// There is no memory for the journal's entries.
pub fn force<D: SharedDisk>(
    alloc: Global,
    inst: &mut Inst,
    core: &mut Core,
    disk: &mut D,
) -> Result<Appended, NoMemory>
    ensures part { IfOk result (λ how. inst.new ≡ forced_as inst.old how) }
    ensures core { IfOk result (λ how. core.new ≡ force_told inst.old core.old how) }
    ensures disk { IfOk result (λ how. ForcesAs inst.old.thread inst.old.plan.me how (D.state disk.old) (D.state disk.new)) }
{
    let me = inst.plan.me;
    let behind = inst.thread.end().get();
    let how = force_thread(&mut inst.thread, me, disk);
    match how {
        Appended::Whole => {
            tell_commits(&mut core.journal, me, inst.ends.as_slice())?;
            core.count_to(me, behind);
            know_ends(inst);
        }
        Appended::Cut(kept) => lose(alloc, inst, core, Loss::Ended { bad: false }, kept)?,
    }
    Ok(how)
}
