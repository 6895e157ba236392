//! Which steps an instance may make.

ghost use Rattle.std.specs.Prelude.{◌≡◌};
ghost use Rattle.inst_node.specs.Needs.{action_needs, block_needs, dead_needs, inst_needs, is_by_line, is_open, line_needs, needs, plain_needs, session_needs};

use crate::actions::{Action, BlockStep, DeadStep, InstStep, LineStep, PlainStep, SessionStep};
use crate::allowed::is_allowed;
use base_types::{BlockNo, InstNo};
use disk_steps::{
    may_ask_undo, may_ask_undo_dead, may_end_checkpoint, may_force, may_install, may_write_block,
};
use image_steps::{
    may_ask, may_ask_write, may_drop_past, may_evict, may_invalidate, may_serve_copy,
    may_serve_undo, may_ship, may_take_at_master, may_take_copy,
};
use inst_state::{Control, Core, Inst};
use rebuild_steps::{may_join, may_recover, may_thaw};
use report_steps::{may_give, may_reopen, may_report, may_resume};
use stmt_steps::{
    may_change, may_end, may_mark, may_mark_dead, may_start, may_step_back, may_step_back_dead,
    may_visit,
};
use thread_steps::{may_close, may_read};
use wave_steps::{
    may_ack, may_broadcast, may_enter, may_hear, may_keep_bucket, may_leave, may_rise,
    may_send_bucket, may_skip, may_take_bucket,
};
use wire_net::Lane;

#[tactic(auto, unfolding(crate::specs::Needs::session_needs))]
fn session_needs(inst: &Inst, core: &Core, kind: SessionStep, session: u16) -> bool
    ensures { result ≡ session_needs inst.now core.now kind session }
{
    match kind {
        SessionStep::StartStmt => may_start(inst, session),
        SessionStep::Visit => may_visit(inst, session),
        SessionStep::Change => may_change(inst, session),
        SessionStep::Mark => may_mark(inst, session),
        SessionStep::StepBack => may_step_back(inst, session),
        SessionStep::EndStmt => may_end(inst, session),
        SessionStep::AskUndo => may_ask_undo(inst, session),
        SessionStep::Broadcast => may_broadcast(inst, core, session),
        SessionStep::Ack => may_ack(inst, core, session),
    }
}

#[tactic(auto, unfolding(crate::specs::Needs::dead_needs))]
fn dead_needs(inst: &Inst, kind: DeadStep, job: u64) -> bool
    ensures { result ≡ dead_needs inst.now kind job }
{
    match kind {
        DeadStep::Mark => may_mark_dead(inst, job),
        DeadStep::StepBack => may_step_back_dead(inst, job),
        DeadStep::AskUndo => may_ask_undo_dead(inst, job),
    }
}

#[tactic(auto, unfolding(crate::specs::Needs::block_needs))]
fn block_needs(inst: &Inst, core: &Core, kind: BlockStep, block: BlockNo) -> bool
    ensures { result ≡ block_needs inst.now core.now kind block }
{
    match kind {
        BlockStep::Ask => may_ask(inst, block),
        BlockStep::Evict => may_evict(inst, block),
        BlockStep::WriteBlock => may_write_block(inst, core, block),
        BlockStep::AskWrite => may_ask_write(inst, block),
        BlockStep::GivePast => may_give(inst, core, block),
        BlockStep::RecoverBlock => may_recover(inst, core, block),
    }
}

#[tactic(auto, unfolding(crate::specs::Needs::inst_needs))]
fn inst_needs(inst: &Inst, core: &Core, kind: InstStep, from: InstNo) -> bool
    ensures { result ≡ inst_needs inst.now core.now kind from }
{
    match kind {
        InstStep::MasterTake => may_take_at_master(inst, core, from),
        InstStep::Invalidate => may_invalidate(inst, core, from),
        InstStep::Ship => may_ship(inst, core, from),
        InstStep::ServeCopy => may_serve_copy(inst, core, from),
        InstStep::DropPast => may_drop_past(inst, core, from),
        InstStep::Install => may_install(inst, core, from),
        InstStep::TakeCopy => may_take_copy(inst, core, from, Lane::Main),
        InstStep::TakeUndo => may_take_copy(inst, core, from, Lane::Undo),
        InstStep::ServeUndo => may_serve_undo(inst, core, from),
        InstStep::Heard => may_hear(inst, core, from),
        InstStep::TakeBucket => may_take_bucket(inst, core, from),
        InstStep::ReadThread => may_read(inst, core, from),
        InstStep::CloseThread => may_close(inst, core, from),
    }
}

fn is_by_line(line: u32, control: Option<Control>) -> bool
    ensures { result ≡ is_by_line line control }
{
    match control {
        Some(control) => control.line == line,
        None => false,
    }
}

// Whether a control line of the wave isn't answered yet.
fn is_open(core: &Core, line: u32) -> bool
    ensures { result ≡ is_open core.now line }
{
    core.open_control(u64::from(line)).is_some()
}

#[tactic(auto, unfolding(crate::specs::Needs::line_needs))]
fn line_needs(inst: &Inst, core: &Core, kind: LineStep, line: u32) -> bool
    ensures { result ≡ line_needs inst.now core.now kind line }
{
    match kind {
        LineStep::Crash => is_by_line(line, core.due_crash(inst.plan.me)),
        LineStep::SendBucket => may_send_bucket(inst, core, u64::from(line)),
        LineStep::KeepBucket => may_keep_bucket(inst, core, u64::from(line)),
        LineStep::Checkpoint => is_open(core, line) && may_end_checkpoint(inst, line),
        LineStep::Skip => may_skip(inst, core, u64::from(line)),
        LineStep::Join => may_join(inst, core, u64::from(line)),
    }
}

#[tactic(auto, unfolding(crate::specs::Needs::plain_needs))]
fn plain_needs(inst: &Inst, core: &Core, kind: PlainStep) -> bool
    ensures { result ≡ plain_needs inst.now core.now kind }
{
    match kind {
        PlainStep::Enter => may_enter(inst, core),
        PlainStep::Force => may_force(inst, core),
        PlainStep::Report => may_report(inst, core),
        PlainStep::Thaw => may_thaw(inst, core),
        PlainStep::Reopen => may_reopen(inst, core),
        PlainStep::Resume => may_resume(inst, core),
        PlainStep::Leave => may_leave(inst, core),
        PlainStep::Wave => may_rise(inst, core),
    }
}

fn action_needs(inst: &Inst, core: &Core, action: &Action) -> bool
    ensures { result ≡ action_needs inst.now core.now action.now }
{
    match action {
        Action::Session(kind, session) => session_needs(inst, core, *kind, *session),
        Action::Dead(kind, job) => dead_needs(inst, *kind, *job),
        Action::Block(kind, block) => block_needs(inst, core, *kind, *block),
        Action::Inst(kind, from) => inst_needs(inst, core, *kind, *from),
        Action::Line(kind, line) => line_needs(inst, core, *kind, *line),
        Action::Plain(kind) => plain_needs(inst, core, *kind),
    }
}

/// Whether an instance may make a step: the phase lets it, and the step's needs hold.
pub fn needs(inst: &Inst, core: &Core, action: &Action) -> bool
    ensures { result ≡ needs inst.now core.now action.now }
{
    is_allowed(inst, core, action) && action_needs(inst, core, action)
}
