//! What comes before each step: it is counted, and the instance takes over what a Thaw made.

ghost use Rattle.std.specs.Prelude.{◌≡◌, OnOk};
ghost use Rattle.inst_node.specs.Moves.{comes_after_thaw, counted, is_mark, marked_by, prepared};

use crate::actions::{Action, DeadStep, SessionStep};
use crate::allowed::{Class, class_of};
use base_types::{InstNo, NoMemory};
use inst_set::InstSet;
use inst_state::{Core, Inst};
use report_steps::take_over;
use std::alloc::Global;

fn comes_after_thaw(class: Class) -> bool
    ensures { result ≡ comes_after_thaw class }
{
    match class {
        Class::Local => false,
        Class::Always => false,
        _ => true,
    }
}

fn is_mark(action: &Action) -> bool
    ensures { result ≡ is_mark action.now }
{
    match action {
        Action::Session(SessionStep::Mark, _) => true,
        Action::Dead(DeadStep::Mark, _) => true,
        _ => false,
    }
}

fn note_mark(marked: &mut InstSet, me: InstNo, marks: bool)
    ensures { marked.new ≡ marked_by marked.old me marks }
{
    if marks {
        marked.insert(me);
    }
}

/// Counts a step of an instance.
#[tactic(auto, unfolding(crate::specs::Moves::counted))]
pub fn count(core: &mut Core, me: InstNo, action: &Action)
    ensures { core.new ≡ counted core.old me action.now }
{
    core.waves.steps = core.waves.steps.saturating_add(1);
    note_mark(&mut core.waves.marked, me, is_mark(action));
}

/// Makes an instance ready for a step: it takes over what a Thaw made, where the step needs that and it hasn't yet.
#[tactic(auto, unfolding(crate::specs::Moves::prepared))]
pub fn prepare(alloc: Global, inst: &mut Inst, core: &Core, action: &Action) -> Result<(), NoMemory>
    ensures { OnOk result (inst.new ≡ prepared inst.old core.now action.now) }
{
    if comes_after_thaw(class_of(action)) && core.is_thawed() {
        take_over(alloc, inst, core)
    } else {
        Ok(())
    }
}
