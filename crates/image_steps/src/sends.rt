//! What an instance sends, with its own clock.

ghost use Rattle.std.specs.Prelude.{◌≡◌, OnOk};
ghost use Rattle.image_steps.specs.Sends.{sends, sends_to_master};

use base_types::{BlockNo, InstNo, NoMemory};
use inst_state::{Core, Inst};
use wire_net::Message;

/// Sends a message, with the instance's own clock.
pub fn send(inst: &Inst, core: &mut Core, to: InstNo, message: Message) -> Result<(), NoMemory>
    ensures { OnOk result (core.new ≡ sends inst.now core.old to message) }
{
    core.send(inst.plan.me, inst.clock.scn, to, message)
}

/// Sends a message to the master of a block, with the instance's own clock.
pub fn send_to_master(
    inst: &Inst,
    core: &mut Core,
    block: BlockNo,
    message: Message,
) -> Result<(), NoMemory>
    ensures { OnOk result (core.new ≡ sends_to_master inst.now core.old block message) }
{
    core.send_to_master(inst.plan.me, inst.clock.scn, block, message)
}
