ghost use Rattle.std.specs.Prelude.{◌≡◌, ◌++◌, OnOk};
ghost use Rattle.world_machine.specs.Enabled.{due, enabled};
ghost use Rattle.world_machine.specs.Machine.{MayMake, W};

use crate::insts::{Insts, add_all, first_due};
use base_types::{NoMemory, Sequence};
use inst_node::Step;
use inst_state::Core;
use rac_disk::SharedDisk;
use std::alloc::Global;

/// The instances and what they share.
#[derive(Drop)]
pub struct World {
    pub insts: Insts,
    pub core: Core,
}

impl World {
    /// The first due crash.
    pub fn due(&self) -> Option<Step>
        ensures { result ≡ due self.now }
    {
        first_due(0, self.insts.as_slice(), &self.core)
    }

    /// Adds the steps, but for crashes, that may be made.
    ///
    /// # Errors
    ///
    /// There is no memory for one more step.
    pub fn add_enabled(&self, out: &mut Sequence<Step>) -> Result<(), NoMemory>
        ensures { OnOk result (out.new ≡ out.old ++ enabled self.now) }
    {
        add_all(self.insts.as_slice(), &self.core, out)
    }

    /// Makes a step.
    ///
    /// # Errors
    ///
    /// There is no memory for what the step notes, sends or tells.
    pub fn step<D: SharedDisk>(
        &mut self,
        alloc: Global,
        step: &Step,
        disk: &mut D,
    ) -> Result<(), NoMemory>
        requires { MayMake self.old step.now }
        ensures { OnOk result (W self.old (D.state disk.old) step.now self.new (D.state disk.new)) }
    {
        let at = usize::from(step.inst.get());
        self.insts
            .make(alloc, at, &mut self.core, disk, &step.action)?;
        Ok(())
    }
}
