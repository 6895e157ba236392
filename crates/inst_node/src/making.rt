//! A step is made.

ghost use Rattle.std.specs.Prelude.{◌≡◌, true, IfOk, IfSome, OnOk};
ghost use Rattle.redo_record.specs.Redo.{IsRedo};
ghost use Rattle.inst_node.specs.Made.{dead_record, record_made, session_record};
ghost use Rattle.inst_node.specs.Moves.{BlockDisk, DiskAfter, DiskOf, InstDisk, LineDisk, PlainDisk, SessionDisk, block_core, block_part, core_after, core_of, dead_core, dead_part, inst_core, inst_part, line_core, line_part, part_after, part_of, plain_core, plain_part, prepared, session_core, session_part};
ghost use Rattle.inst_node.specs.Needs.{BlockMay, DeadMay, InstMay, LineMay, PlainMay, ReadyMay, SessionMay, needs};

use crate::actions::{Action, BlockStep, DeadStep, InstStep, LineStep, PlainStep, SessionStep};
use crate::hows::How;
use crate::preparing::{count, prepare};
use base_types::{BlockNo, InstNo, NoMemory};
use disk_steps::{ask_undo, ask_undo_dead, crash, end_checkpoint, force, install, write_due};
use image_steps::{
    ask, ask_write, drop_past, evict, invalidate, serve_copy, serve_undo, ship, take_at_master,
    take_copy,
};
use inst_state::{Core, Inst};
use rac_disk::SharedDisk;
use rebuild_steps::{join, recover_block, thaw};
use report_steps::{give, reopen, report, resume};
use std::alloc::Global;
use stmt_steps::{change, end, mark, mark_dead, start, step_back, step_back_dead, visit};
use thread_steps::{close_thread, read_thread};
use wave_steps::{
    ack, broadcast, enter, hear, keep_bucket, leave, rise, send_bucket, skip, take_bucket,
};
use wire_net::Lane;

#[tactic(auto, unfolding(crate::specs::Moves::session_part, crate::specs::Moves::session_core, crate::specs::Moves::SessionDisk))]
fn make_for_session<D: SharedDisk>(
    alloc: Global,
    inst: &mut Inst,
    core: &mut Core,
    disk: &mut D,
    kind: SessionStep,
    session: u16,
) -> Result<How, NoMemory>
    requires { SessionMay inst.old kind session }
    ensures part { IfOk result (λ how. inst.new ≡ session_part inst.old core.old kind session how) }
    ensures core { IfOk result (λ how. core.new ≡ session_core inst.old core.old kind session how) }
    ensures disk { IfOk result (λ how. SessionDisk inst.old core.old kind session how (D.state disk.old) (D.state disk.new)) }
    ensures record { OnOk result (IfSome (session_record inst.old kind session) IsRedo) }
{
    match kind {
        SessionStep::StartStmt => start(alloc, inst, session, &mut core.journal)?,
        SessionStep::Visit => visit(alloc, inst, session, &mut core.journal)?,
        SessionStep::Change => change(inst, session, &mut core.journal)?,
        SessionStep::Mark => mark(inst, session, &mut core.journal)?,
        SessionStep::StepBack => step_back(inst, session, &mut core.journal)?,
        SessionStep::EndStmt => end(alloc, inst, session, &mut core.journal)?,
        SessionStep::AskUndo => {
            return Ok(How::AskedUndo(ask_undo(alloc, inst, session, core, disk)?));
        }
        SessionStep::Broadcast => broadcast(inst, session, core)?,
        SessionStep::Ack => ack(inst, session, core)?,
    }
    Ok(How::Calm)
}

#[tactic(auto, unfolding(crate::specs::Moves::dead_part, crate::specs::Moves::dead_core))]
fn make_for_dead(
    alloc: Global,
    inst: &mut Inst,
    core: &mut Core,
    kind: DeadStep,
    job: u64,
) -> Result<(), NoMemory>
    requires { DeadMay inst.old kind job }
    ensures part { OnOk result (inst.new ≡ dead_part inst.old kind) }
    ensures core { OnOk result (core.new ≡ dead_core inst.old core.old kind) }
    ensures record { OnOk result (IfSome (dead_record inst.old kind) IsRedo) }
{
    match kind {
        DeadStep::Mark => mark_dead(inst, job, &mut core.journal),
        DeadStep::StepBack => step_back_dead(inst, job, &mut core.journal),
        DeadStep::AskUndo => ask_undo_dead(alloc, inst, core),
    }
}

#[tactic(auto, unfolding(crate::specs::Moves::block_part, crate::specs::Moves::block_core, crate::specs::Moves::BlockDisk))]
fn make_with_block<D: SharedDisk>(
    alloc: Global,
    inst: &mut Inst,
    core: &mut Core,
    disk: &mut D,
    kind: BlockStep,
    block: BlockNo,
) -> Result<How, NoMemory>
    requires { BlockMay inst.old core.old kind block }
    ensures part { IfOk result (λ how. inst.new ≡ block_part inst.old core.old kind block how) }
    ensures core { IfOk result (λ how. core.new ≡ block_core inst.old core.old kind block how) }
    ensures disk { IfOk result (λ how. BlockDisk inst.old core.old kind block how (D.state disk.old) (D.state disk.new)) }
{
    match kind {
        BlockStep::Ask => ask(inst, block, core)?,
        BlockStep::Evict => evict(inst, block, core)?,
        BlockStep::WriteBlock => {
            return Ok(How::Written(write_due(alloc, inst, block, core, disk)?));
        }
        BlockStep::AskWrite => ask_write(inst, block, core)?,
        BlockStep::GivePast => give(inst, core, block)?,
        BlockStep::RecoverBlock => {
            return Ok(How::Recovered(recover_block(alloc, inst, core, disk, block)?));
        }
    }
    Ok(How::Calm)
}

#[tactic(auto, unfolding(crate::specs::Moves::inst_part, crate::specs::Moves::inst_core, crate::specs::Moves::InstDisk))]
fn make_with_inst<D: SharedDisk>(
    alloc: Global,
    inst: &mut Inst,
    core: &mut Core,
    disk: &mut D,
    kind: InstStep,
    from: InstNo,
) -> Result<How, NoMemory>
    requires { InstMay inst.old core.old kind from }
    ensures part { IfOk result (λ how. inst.new ≡ inst_part inst.old core.old kind from how) }
    ensures core { IfOk result (λ how. core.new ≡ inst_core inst.old core.old kind from how) }
    ensures disk { IfOk result (λ how. InstDisk inst.old core.old kind from how (D.state disk.old) (D.state disk.new)) }
{
    match kind {
        InstStep::MasterTake => take_at_master(alloc, inst, from, core)?,
        InstStep::Invalidate => invalidate(inst, from, core)?,
        InstStep::Ship => ship(inst, from, core)?,
        InstStep::ServeCopy => serve_copy(inst, from, core)?,
        InstStep::DropPast => drop_past(inst, from, core)?,
        InstStep::Install => {
            return Ok(How::Installed(install(alloc, inst, from, core, disk)?));
        }
        InstStep::TakeCopy => take_copy(alloc, inst, from, Lane::Main, core)?,
        InstStep::TakeUndo => take_copy(alloc, inst, from, Lane::Undo, core)?,
        InstStep::ServeUndo => serve_undo(inst, from, core)?,
        InstStep::Heard => hear(inst, from, core)?,
        InstStep::TakeBucket => take_bucket(inst, from, core)?,
        InstStep::ReadThread => {
            return Ok(How::ReadThread(read_thread(alloc, inst, core, disk, from)?));
        }
        InstStep::CloseThread => {
            return Ok(How::Closed(close_thread(alloc, inst, core, disk, from)?));
        }
    }
    Ok(How::Calm)
}

#[tactic(auto, unfolding(crate::specs::Moves::line_part, crate::specs::Moves::line_core, crate::specs::Moves::LineDisk))]
fn make_for_line<D: SharedDisk>(
    alloc: Global,
    inst: &mut Inst,
    core: &mut Core,
    disk: &mut D,
    kind: LineStep,
    line: u32,
) -> Result<How, NoMemory>
    requires { LineMay inst.old core.old kind line }
    ensures part { IfOk result (λ how. inst.new ≡ line_part inst.old core.old kind line how) }
    ensures core { IfOk result (λ how. core.new ≡ line_core inst.old core.old kind line how) }
    ensures disk { IfOk result (λ how. LineDisk inst.old core.old kind line how (D.state disk.old) (D.state disk.new)) }
{
    match kind {
        LineStep::Crash => {
            return Ok(How::Crashed(crash(alloc, inst, line, core, disk)?));
        }
        LineStep::SendBucket => send_bucket(inst, u64::from(line), core)?,
        LineStep::KeepBucket => keep_bucket(u64::from(line), core)?,
        LineStep::Checkpoint => {
            return Ok(How::Written(end_checkpoint(alloc, inst, line, core, disk)?));
        }
        LineStep::Skip => skip(u64::from(line), core)?,
        LineStep::Join => {
            return Ok(How::Joined(join(alloc, inst, core, disk, u64::from(line))?));
        }
    }
    Ok(How::Calm)
}

#[tactic(auto, unfolding(crate::specs::Moves::plain_part, crate::specs::Moves::plain_core, crate::specs::Moves::PlainDisk))]
fn make_plain<D: SharedDisk>(
    alloc: Global,
    inst: &mut Inst,
    core: &mut Core,
    disk: &mut D,
    kind: PlainStep,
) -> Result<How, NoMemory>
    requires { PlainMay inst.old core.old kind }
    ensures part { IfOk result (λ how. inst.new ≡ plain_part inst.old core.old kind how) }
    ensures core { IfOk result (λ how. core.new ≡ plain_core inst.old core.old kind how) }
    ensures disk { IfOk result (λ how. PlainDisk inst.old core.old kind how (D.state disk.old) (D.state disk.new)) }
{
    match kind {
        PlainStep::Enter => enter(alloc, inst, core)?,
        PlainStep::Force => return Ok(How::Forced(force(alloc, inst, core, disk)?)),
        PlainStep::Report => report(alloc, inst, core)?,
        PlainStep::Thaw => return Ok(How::Thawed(thaw(alloc, inst, core, disk)?)),
        PlainStep::Reopen => reopen(inst, core)?,
        PlainStep::Resume => resume(alloc, inst, core)?,
        PlainStep::Leave => leave(inst, core),
        PlainStep::Wave => rise(core),
    }
    Ok(How::Calm)
}

// Makes a step of an instance that is ready for it.
fn make_ready<D: SharedDisk>(
    alloc: Global,
    inst: &mut Inst,
    core: &mut Core,
    disk: &mut D,
    action: &Action,
) -> Result<How, NoMemory>
    requires { ReadyMay inst.old core.old action.now }
    ensures part { IfOk result (λ how. inst.new ≡ part_of inst.old core.old action.now how) }
    ensures core { IfOk result (λ how. core.new ≡ core_of inst.old core.old action.now how) }
    ensures disk { IfOk result (λ how. DiskOf inst.old core.old action.now how (D.state disk.old) (D.state disk.new)) }
    ensures record { OnOk result (IfSome (record_made inst.old action.now) IsRedo) }
{
    match action {
        Action::Session(kind, session) => {
            make_for_session(alloc, inst, core, disk, *kind, *session)
        }
        Action::Dead(kind, job) => {
            make_for_dead(alloc, inst, core, *kind, *job)?;
            Ok(How::Calm)
        }
        Action::Block(kind, block) => make_with_block(alloc, inst, core, disk, *kind, *block),
        Action::Inst(kind, from) => make_with_inst(alloc, inst, core, disk, *kind, *from),
        Action::Line(kind, line) => make_for_line(alloc, inst, core, disk, *kind, *line),
        Action::Plain(kind) => make_plain(alloc, inst, core, disk, *kind),
    }
}

/// Makes a step of an instance that it may make: the step is counted, the instance takes over what a Thaw made where it has to,
/// and the step is made. How the disk's calls went is returned.
///
/// # Errors
///
/// There is no memory for what the step notes, sends or tells.
pub fn make<D: SharedDisk>(
    alloc: Global,
    inst: &mut Inst,
    core: &mut Core,
    disk: &mut D,
    action: &Action,
) -> Result<How, NoMemory>
    requires { needs inst.old core.old action.now ≡ true }
    ensures part { IfOk result (λ how. inst.new ≡ part_after inst.old core.old action.now how) }
    ensures core { IfOk result (λ how. core.new ≡ core_after inst.old core.old action.now how) }
    ensures disk { IfOk result (λ how. DiskAfter inst.old core.old action.now how (D.state disk.old) (D.state disk.new)) }
    ensures record { OnOk result (IfSome (record_made (prepared inst.old core.old action.now) action.now) IsRedo) }
{
    let me = inst.plan.me;
    prepare(alloc, inst, core, action)?;
    count(core, me, action);
    make_ready(alloc, inst, core, disk, action)
}
