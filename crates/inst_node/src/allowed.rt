//! Which kinds of steps the phase lets an instance make.

ghost use Rattle.std.specs.Prelude.{◌≡◌};
ghost use Rattle.inst_node.specs.Allowed.{block_kind, dead_kind, inst_kind, is_allowed, is_allowed_as, is_frozen_before_report, kind_class, leads, line_kind, plain_kind, runs, session_kind};

use crate::actions::{Action, BlockStep, DeadStep, InstStep, LineStep, PlainStep, SessionStep};
use inst_state::{Core, Inst};

/// When an instance may make steps of a kind.
#[derive(Clone, Copy, Debug, PartialEq, Eq)]
pub enum Class {
    /// With its own part alone.
    Local,
    /// Whatever the phase is.
    Always,
    /// Also before its report while the phase is Frozen, and while it is Thawed.
    Settling,
    /// Also while the phase is Thawed.
    Serving,
    /// While the phase is Thawed the leader alone.
    Leading,
    /// While the phase is Running alone.
    Running,
}

fn session_kind(kind: SessionStep) -> Class
    ensures { result ≡ session_kind kind }
{
    match kind {
        SessionStep::AskUndo => Class::Leading,
        SessionStep::Broadcast => Class::Running,
        SessionStep::Ack => Class::Running,
        _ => Class::Local,
    }
}

fn dead_kind(kind: DeadStep) -> Class
    ensures { result ≡ dead_kind kind }
{
    match kind {
        DeadStep::AskUndo => Class::Leading,
        _ => Class::Local,
    }
}

fn block_kind(kind: BlockStep) -> Class
    ensures { result ≡ block_kind kind }
{
    match kind {
        BlockStep::WriteBlock => Class::Settling,
        BlockStep::GivePast => Class::Always,
        BlockStep::RecoverBlock => Class::Always,
        _ => Class::Leading,
    }
}

fn inst_kind(kind: InstStep) -> Class
    ensures { result ≡ inst_kind kind }
{
    match kind {
        InstStep::Heard => Class::Running,
        InstStep::TakeBucket => Class::Running,
        InstStep::ReadThread => Class::Always,
        InstStep::CloseThread => Class::Always,
        _ => Class::Serving,
    }
}

fn line_kind(kind: LineStep) -> Class
    ensures { result ≡ line_kind kind }
{
    match kind {
        LineStep::SendBucket => Class::Running,
        LineStep::KeepBucket => Class::Running,
        LineStep::Checkpoint => Class::Running,
        _ => Class::Always,
    }
}

fn plain_kind(kind: PlainStep) -> Class
    ensures { result ≡ plain_kind kind }
{
    match kind {
        PlainStep::Force => Class::Settling,
        _ => Class::Always,
    }
}

/// When an instance may make a step.
pub fn class_of(action: &Action) -> Class
    ensures { result ≡ kind_class action.now }
{
    match action {
        Action::Session(kind, _) => session_kind(*kind),
        Action::Dead(kind, _) => dead_kind(*kind),
        Action::Block(kind, _) => block_kind(*kind),
        Action::Inst(kind, _) => inst_kind(*kind),
        Action::Line(kind, _) => line_kind(*kind),
        Action::Plain(kind) => plain_kind(*kind),
    }
}

fn is_frozen_before_report(inst: &Inst, core: &Core) -> bool
    ensures { result ≡ is_frozen_before_report inst.now core.now }
{
    core.is_frozen() && !core.members.reported.has(inst.plan.me)
}

fn runs(inst: &Inst, core: &Core) -> bool
    ensures { result ≡ runs inst.now core.now }
{
    core.is_running() && !inst.paused
}

fn leads(inst: &Inst, core: &Core) -> bool
    ensures { result ≡ leads inst.now core.now }
{
    core.is_thawed() && core.is_led_by(inst.plan.me)
}

fn is_allowed_as(inst: &Inst, core: &Core, class: Class) -> bool
    ensures { result ≡ is_allowed_as inst.now core.now class }
{
    match class {
        Class::Local => true,
        Class::Always => true,
        Class::Settling => {
            core.is_live(inst.plan.me)
                && (runs(inst, core) || is_frozen_before_report(inst, core) || core.is_thawed())
        }
        Class::Serving => { core.is_live(inst.plan.me) && (runs(inst, core) || core.is_thawed()) }
        Class::Leading => core.is_live(inst.plan.me) && (runs(inst, core) || leads(inst, core)),
        Class::Running => core.is_live(inst.plan.me) && runs(inst, core),
    }
}

/// Whether the phase lets an instance make a step.
pub fn is_allowed(inst: &Inst, core: &Core, action: &Action) -> bool
    ensures { result ≡ is_allowed inst.now core.now action.now }
{
    is_allowed_as(inst, core, class_of(action))
}
