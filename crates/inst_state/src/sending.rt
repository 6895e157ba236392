//! Messages are sent and taken.

ghost use Rattle.std.specs.Prelude.{◌≡◌, OnOk};
ghost use Rattle.std.specs.Option.{option_copied};
ghost use Rattle.inst_state.specs.Sending.{first_from, sending, sending_to_master, without_first};

use crate::shared::Core;
use base_types::{BlockNo, InstNo, NoMemory, Scn};
use wire_net::{Lane, Message, Packet};

impl Core {
    /// Sends a message from an instance whose clock has this SCN.
    pub fn send(
        &mut self,
        from: InstNo,
        scn: Scn,
        to: InstNo,
        message: Message,
    ) -> Result<(), NoMemory>
        ensures { OnOk result (self.new ≡ sending self.old from scn to message) }
    {
        self.net.links.send(from, to, Packet { scn, message })
    }

    /// Sends a message to the master of a block.
    pub fn send_to_master(
        &mut self,
        from: InstNo,
        scn: Scn,
        block: BlockNo,
        message: Message,
    ) -> Result<(), NoMemory>
        ensures { OnOk result (self.new ≡ sending_to_master self.old from scn block message) }
    {
        let to = self.net.masters.of(block);
        self.send(from, scn, to, message)
    }

    /// The packet that is first on the link from an instance.
    pub fn first_from(&self, from: InstNo, me: InstNo, lane: Lane) -> Option<&Packet>
        ensures { option_copied result ≡ first_from self.now from me lane }
    {
        self.net.links.first(from, me, lane)
    }

    /// Takes the packet away that is first on the link from an instance.
    pub fn take_first(&mut self, from: InstNo, me: InstNo, lane: Lane) -> Option<Packet>
        ensures first { result ≡ first_from self.old from me lane }
        ensures rest { self.new ≡ without_first self.old from me lane }
    {
        self.net.links.take(from, me, lane)
    }
}
