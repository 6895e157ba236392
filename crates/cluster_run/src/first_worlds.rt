//! The world before the first step.

ghost use Rattle.std.specs.Prelude.{◌≡◌, IfOk, length};
ghost use Rattle.script_text.specs.WellFormed.{IsWellFormed};
ghost use Rattle.cluster_run.specs.First.{AreFirst, IsFirstWorld};

use base_types::{InstNo, NoMemory};
use first_state::{first_core, first_inst, layout_of};
use script_text::Script;
use std::alloc::Global;
use wire_net::Masters;
use world_machine::{Insts, World};

// The instances before the first step, where the buckets have these masters.
fn first_insts(alloc: Global, script: &Script, masters: &Masters) -> Result<Insts, NoMemory>
    requires { IsWellFormed script.now }
    ensures count { IfOk result (λ insts. length insts ≡ script.now.settings.instances) }
    ensures insts { IfOk result (λ insts. AreFirst script.now masters.now 0 insts) }
{
    let layout = layout_of(script);
    let mut insts = Insts::new(alloc);
    for me in 0..layout.instances {
        let inst = first_inst(alloc, script, InstNo(me), masters)?;
        insts.push(inst)?;
    }
    Ok(insts)
}

/// The world before the first step of a script: all its instances are up, and nothing was done.
///
/// # Errors
///
/// There is no memory for the instances or for what they share.
pub fn first_world(alloc: Global, script: &Script) -> Result<World, NoMemory>
    requires { IsWellFormed script.now }
    ensures { IfOk result (IsFirstWorld script.now) }
{
    let core = first_core(alloc, script)?;
    let insts = first_insts(alloc, script, &core.net.masters)?;
    Ok(World { insts, core })
}
