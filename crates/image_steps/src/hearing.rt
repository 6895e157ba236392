//! What is first on a link is read and taken.

ghost use Rattle.std.specs.Prelude.{◌≡◌};
ghost use Rattle.std.specs.Option.{option_copied};
ghost use Rattle.inst_state.specs.Sending.{first_from};
ghost use Rattle.image_steps.specs.Hear.{clock_heard, first_message, heard, hears};

use base_types::InstNo;
use inst_state::{Core, Inst};
use scn_clock::Clock;
use wire_net::{Lane, Message, Packet};

/// The message that is first on a link to an instance.
pub fn first_message<'c>(
    inst: &Inst,
    core: &'c Core,
    from: InstNo,
    lane: Lane,
) -> Option<&'c Message>
    ensures { option_copied result ≡ first_message inst.now core.now from lane }
{
    match core.first_from(from, inst.plan.me, lane) {
        Some(packet) => Some(&packet.message),
        None => None,
    }
}

fn raise_by(clock: &mut Clock, packet: &Option<Packet>)
    ensures { clock.new ≡ clock_heard clock.old packet.now }
{
    if let Some(packet) = packet {
        clock.raise(packet.scn);
    }
}

/// Takes the packet away that is first on a link to an instance, and raises the instance's clock by it.
pub fn hear(inst: &mut Inst, core: &mut Core, from: InstNo, lane: Lane) -> Option<Packet>
    ensures packet { result ≡ first_from core.old from inst.old.plan.me lane }
    ensures part { inst.new ≡ hears inst.old core.old from lane }
    ensures core { core.new ≡ heard inst.old core.old from lane }
{
    let packet = core.take_first(from, inst.plan.me, lane);
    raise_by(&mut inst.clock, &packet);
    packet
}
