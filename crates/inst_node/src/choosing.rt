//! The steps that an instance may make.

ghost use Rattle.std.specs.Prelude.{◌≡◌, ◌++◌, OnOk};
ghost use Rattle.std.specs.List.{flat_map, range_with_len};
ghost use Rattle.inst_state.specs.declared.control.Control.{Control};
ghost use Rattle.inst_node.specs.declared.actions.Action.TheVariants.{Block, Inst as OfInst, Line, Session};
ghost use Rattle.inst_node.specs.Choices.{alone, block_choices, choices, data_blocks, for_dead, for_lines, for_sessions, image_choices, line_choices, local_choices, news_choices, offer, recovery_choices, with_blocks, with_insts};

use crate::actions::{
    Action, BlockStep, DeadStep, InstStep, LineStep, PlainStep, SessionStep, Step,
};
use crate::needing::needs;
use base_types::{BlockNo, InstNo, NoMemory, Sequence};
use inst_set::ALL_INSTS;
use inst_state::{Control, Core, Inst};
use stmt_steps::dead_job;

// Adds a step, if the instance may make it.
fn offer(
    me: InstNo,
    inst: &Inst,
    core: &Core,
    action: Action,
    out: &mut Sequence<Step>,
) -> Result<(), NoMemory>
    ensures { OnOk result (out.new ≡ out.old ++ offer me inst.now core.now action) }
{
    if needs(inst, core, &action) {
        out.push(Step { inst: me, action })
    } else {
        Ok(())
    }
}

fn offer_sessions(
    me: InstNo,
    inst: &Inst,
    core: &Core,
    kind: SessionStep,
    sessions: &[u16],
    out: &mut Sequence<Step>,
) -> Result<(), NoMemory>
    ensures { OnOk result (out.new ≡ out.old ++ flat_map (λ z. offer me inst.now core.now (Session kind z)) sessions.now) }
{
    for session in sessions {
        offer(me, inst, core, Action::Session(kind, *session), out)?;
    }
    Ok(())
}

#[tactic(auto, unfolding(crate::specs::Choices::for_sessions))]
fn for_sessions(
    me: InstNo,
    inst: &Inst,
    core: &Core,
    kind: SessionStep,
    out: &mut Sequence<Step>,
) -> Result<(), NoMemory>
    ensures { OnOk result (out.new ≡ out.old ++ for_sessions me inst.now core.now kind) }
{
    offer_sessions(me, inst, core, kind, inst.plan.mine.as_slice(), out)
}

#[tactic(auto, unfolding(crate::specs::Choices::for_dead))]
fn for_dead(
    me: InstNo,
    inst: &Inst,
    core: &Core,
    kind: DeadStep,
    out: &mut Sequence<Step>,
) -> Result<(), NoMemory>
    ensures { OnOk result (out.new ≡ out.old ++ for_dead me inst.now core.now kind) }
{
    match inst.dead_txn() {
        Some(xid) => offer(me, inst, core, Action::Dead(kind, dead_job(&xid)), out),
        None => Ok(()),
    }
}

#[tactic(auto, unfolding(crate::specs::Choices::with_blocks))]
fn with_blocks(
    me: InstNo,
    inst: &Inst,
    core: &Core,
    kind: BlockStep,
    count: u16,
    out: &mut Sequence<Step>,
) -> Result<(), NoMemory>
    ensures { OnOk result (out.new ≡ out.old ++ with_blocks me inst.now core.now kind count) }
{
    for block in 0..count {
        offer(me, inst, core, Action::Block(kind, BlockNo(block)), out)?;
    }
    Ok(())
}

fn offer_insts(
    me: InstNo,
    inst: &Inst,
    core: &Core,
    kind: InstStep,
    insts: &[InstNo],
    out: &mut Sequence<Step>,
) -> Result<(), NoMemory>
    ensures { OnOk result (out.new ≡ out.old ++ flat_map (λ from. offer me inst.now core.now (OfInst kind from)) insts.now) }
{
    for from in insts {
        offer(me, inst, core, Action::Inst(kind, *from), out)?;
    }
    Ok(())
}

#[tactic(auto, unfolding(crate::specs::Choices::with_insts))]
fn with_insts(
    me: InstNo,
    inst: &Inst,
    core: &Core,
    kind: InstStep,
    out: &mut Sequence<Step>,
) -> Result<(), NoMemory>
    ensures { OnOk result (out.new ≡ out.old ++ with_insts me inst.now core.now kind) }
{
    offer_insts(me, inst, core, kind, &ALL_INSTS, out)
}

fn offer_lines(
    me: InstNo,
    inst: &Inst,
    core: &Core,
    kind: LineStep,
    controls: &[Control],
    out: &mut Sequence<Step>,
) -> Result<(), NoMemory>
    ensures { OnOk result (out.new ≡ out.old ++ flat_map (λ (control : Control). offer me inst.now core.now (Line kind control.line)) controls.now) }
{
    for control in controls {
        offer(me, inst, core, Action::Line(kind, control.line), out)?;
    }
    Ok(())
}

#[tactic(auto, unfolding(crate::specs::Choices::for_lines))]
fn for_lines(
    me: InstNo,
    inst: &Inst,
    core: &Core,
    kind: LineStep,
    out: &mut Sequence<Step>,
) -> Result<(), NoMemory>
    ensures { OnOk result (out.new ≡ out.old ++ for_lines me inst.now core.now kind) }
{
    offer_lines(me, inst, core, kind, core.waves.controls_now(), out)
}

#[tactic(auto, unfolding(crate::specs::Choices::alone))]
fn alone(
    me: InstNo,
    inst: &Inst,
    core: &Core,
    kind: PlainStep,
    out: &mut Sequence<Step>,
) -> Result<(), NoMemory>
    ensures { OnOk result (out.new ≡ out.old ++ alone me inst.now core.now kind) }
{
    offer(me, inst, core, Action::Plain(kind), out)
}

#[tactic(auto, unfolding(crate::specs::Choices::local_choices))]
fn local_choices(
    me: InstNo,
    inst: &Inst,
    core: &Core,
    out: &mut Sequence<Step>,
) -> Result<(), NoMemory>
    ensures { OnOk result (out.new ≡ out.old ++ local_choices me inst.now core.now) }
{
    for_sessions(me, inst, core, SessionStep::StartStmt, out)?;
    for_sessions(me, inst, core, SessionStep::Visit, out)?;
    for_sessions(me, inst, core, SessionStep::Change, out)?;
    for_sessions(me, inst, core, SessionStep::Mark, out)?;
    for_dead(me, inst, core, DeadStep::Mark, out)?;
    for_sessions(me, inst, core, SessionStep::StepBack, out)?;
    for_dead(me, inst, core, DeadStep::StepBack, out)?;
    for_sessions(me, inst, core, SessionStep::EndStmt, out)
}

#[tactic(auto, unfolding(crate::specs::Choices::block_choices))]
fn block_choices(
    me: InstNo,
    inst: &Inst,
    core: &Core,
    out: &mut Sequence<Step>,
) -> Result<(), NoMemory>
    ensures { OnOk result (out.new ≡ out.old ++ block_choices me inst.now core.now) }
{
    let blocks = inst.cache.blocks();
    alone(me, inst, core, PlainStep::Enter, out)?;
    with_blocks(me, inst, core, BlockStep::Ask, blocks, out)?;
    with_blocks(me, inst, core, BlockStep::Evict, blocks, out)?;
    with_blocks(me, inst, core, BlockStep::WriteBlock, 200, out)?;
    with_blocks(me, inst, core, BlockStep::AskWrite, blocks, out)?;
    alone(me, inst, core, PlainStep::Force, out)
}

#[tactic(auto, unfolding(crate::specs::Choices::image_choices))]
fn image_choices(
    me: InstNo,
    inst: &Inst,
    core: &Core,
    out: &mut Sequence<Step>,
) -> Result<(), NoMemory>
    ensures { OnOk result (out.new ≡ out.old ++ image_choices me inst.now core.now) }
{
    with_insts(me, inst, core, InstStep::MasterTake, out)?;
    with_insts(me, inst, core, InstStep::Invalidate, out)?;
    with_insts(me, inst, core, InstStep::Ship, out)?;
    with_insts(me, inst, core, InstStep::ServeCopy, out)?;
    with_insts(me, inst, core, InstStep::DropPast, out)?;
    with_insts(me, inst, core, InstStep::Install, out)?;
    with_insts(me, inst, core, InstStep::TakeCopy, out)?;
    with_insts(me, inst, core, InstStep::TakeUndo, out)
}

#[tactic(auto, unfolding(crate::specs::Choices::news_choices))]
fn news_choices(
    me: InstNo,
    inst: &Inst,
    core: &Core,
    out: &mut Sequence<Step>,
) -> Result<(), NoMemory>
    ensures { OnOk result (out.new ≡ out.old ++ news_choices me inst.now core.now) }
{
    for_sessions(me, inst, core, SessionStep::AskUndo, out)?;
    for_dead(me, inst, core, DeadStep::AskUndo, out)?;
    with_insts(me, inst, core, InstStep::ServeUndo, out)?;
    for_sessions(me, inst, core, SessionStep::Broadcast, out)?;
    with_insts(me, inst, core, InstStep::Heard, out)?;
    for_sessions(me, inst, core, SessionStep::Ack, out)
}

#[tactic(auto, unfolding(crate::specs::Choices::line_choices))]
fn line_choices(
    me: InstNo,
    inst: &Inst,
    core: &Core,
    out: &mut Sequence<Step>,
) -> Result<(), NoMemory>
    ensures { OnOk result (out.new ≡ out.old ++ line_choices me inst.now core.now) }
{
    for_lines(me, inst, core, LineStep::SendBucket, out)?;
    with_insts(me, inst, core, InstStep::TakeBucket, out)?;
    for_lines(me, inst, core, LineStep::KeepBucket, out)?;
    for_lines(me, inst, core, LineStep::Checkpoint, out)?;
    for_lines(me, inst, core, LineStep::Skip, out)?;
    for_lines(me, inst, core, LineStep::Join, out)
}

#[tactic(auto, unfolding(crate::specs::Choices::recovery_choices))]
fn recovery_choices(
    me: InstNo,
    inst: &Inst,
    core: &Core,
    out: &mut Sequence<Step>,
) -> Result<(), NoMemory>
    ensures { OnOk result (out.new ≡ out.old ++ recovery_choices me inst.now core.now) }
{
    alone(me, inst, core, PlainStep::Report, out)?;
    with_blocks(
        me,
        inst,
        core,
        BlockStep::GivePast,
        inst.cache.blocks(),
        out,
    )?;
    with_insts(me, inst, core, InstStep::ReadThread, out)?;
    with_blocks(me, inst, core, BlockStep::RecoverBlock, 200, out)?;
    with_insts(me, inst, core, InstStep::CloseThread, out)?;
    alone(me, inst, core, PlainStep::Thaw, out)?;
    alone(me, inst, core, PlainStep::Reopen, out)?;
    alone(me, inst, core, PlainStep::Resume, out)?;
    alone(me, inst, core, PlainStep::Leave, out)?;
    alone(me, inst, core, PlainStep::Wave, out)
}

/// Adds the steps that an instance may make, but for a crash, in the order of the kinds and then of what they are about.
///
/// # Errors
///
/// There is no memory for one more step.
#[tactic(auto, unfolding(crate::specs::Choices::choices))]
pub fn add_choices(
    me: InstNo,
    inst: &Inst,
    core: &Core,
    out: &mut Sequence<Step>,
) -> Result<(), NoMemory>
    ensures { OnOk result (out.new ≡ out.old ++ choices me inst.now core.now) }
{
    local_choices(me, inst, core, out)?;
    block_choices(me, inst, core, out)?;
    image_choices(me, inst, core, out)?;
    news_choices(me, inst, core, out)?;
    line_choices(me, inst, core, out)?;
    recovery_choices(me, inst, core, out)
}
