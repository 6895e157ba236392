//! An instance ends at a step that calls the disk.

ghost use Rattle.std.specs.Prelude.{◌≡◌, OnOk};
ghost use Rattle.inst_loss.specs.Lost.{lost};
ghost use Rattle.rebuild_steps.specs.Ends.{ended};

use base_types::NoMemory;
use inst_loss::{Loss, lose};
use inst_state::{Core, Inst};
use std::alloc::Global;

// An instance ends by a fault, or by content that no run leaves (`bad`).
pub(crate) fn end(
    alloc: Global,
    inst: &mut Inst,
    core: &mut Core,
    bad: bool,
) -> Result<(), NoMemory>
    ensures part { OnOk result (inst.new ≡ lost inst.old) }
    ensures core { OnOk result (core.new ≡ ended inst.old core.old bad) }
{
    lose(alloc, inst, core, Loss::Ended { bad }, Some(0))
}
