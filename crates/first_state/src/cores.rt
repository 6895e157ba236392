//! What the instances share before the first step.

ghost use Rattle.std.specs.Prelude.{◌≡◌, IfOk};
ghost use Rattle.script_text.specs.WellFormed.{IsWellFormed};
ghost use Rattle.first_state.specs.Core.{closed_at, first_core, first_members, first_net, first_recovery, first_waves};

use crate::controls::controls_of;
use crate::plans::{count_of, layout_of};
use base_types::{NoMemory, Scn};
use inst_set::InstSet;
use inst_state::{Core, Net, Recovery, Table, Waves, insts_below};
use journal::Journal;
use recovery::{Membership, Phase, Reports};
use scn_clock::Clock;
use script_text::Script;
use std::alloc::Global;
use wire_net::{Links, Masters};

/// A clock that shows nothing.
pub(crate) const START: Clock = Clock {
    scn: Scn(0),
    known: Scn(0),
};

fn closed_at(instances: u8, thread: u8) -> Option<Clock>
    ensures { result ≡ closed_at instances thread }
{
    if thread < instances {
        None
    } else {
        Some(START)
    }
}

fn first_recovery(alloc: Global, instances: u8) -> Recovery
    ensures { result ≡ first_recovery instances }
{
    Recovery {
        reports: Reports::new(),
        given: Table::new(alloc),
        rebuilt: Table::new(alloc),
        bound: START,
        closed: [
            closed_at(instances, 0),
            closed_at(instances, 1),
            closed_at(instances, 2),
            closed_at(instances, 3),
            closed_at(instances, 4),
            closed_at(instances, 5),
            closed_at(instances, 6),
            closed_at(instances, 7),
        ],
        former: InstSet::new(),
        closed_since: InstSet::new(),
        counted: [0; 8],
    }
}

fn first_waves(alloc: Global, script: &Script) -> Result<Waves, NoMemory>
    ensures { IfOk result (λ waves. waves ≡ first_waves script.now) }
{
    Ok(Waves {
        wave: 1,
        count: count_of(script)?,
        over: false,
        left: InstSet::new(),
        steps: 0,
        marked: InstSet::new(),
        controls: controls_of(alloc, script.waves().as_slice())?,
    })
}

#[tactic(auto, unfolding(crate::specs::Core::first_net))]
fn first_net(alloc: Global, live: &InstSet) -> Result<Net, NoMemory>
    ensures { IfOk result (λ net. net ≡ first_net live.now) }
{
    let links = Links::new(alloc)?;
    Ok(Net {
        links,
        masters: Masters::dealt(live),
    })
}

fn first_members(live: InstSet) -> Membership
    ensures { result ≡ first_members live }
{
    Membership {
        epoch: 0,
        live,
        phase: Phase::Running,
        reported: InstSet::new(),
    }
}

/// What the instances share before the first step.
pub fn first_core(alloc: Global, script: &Script) -> Result<Core, NoMemory>
    requires { IsWellFormed script.now }
    ensures { IfOk result (λ core. core ≡ first_core script.now) }
{
    let layout = layout_of(script);
    let live = insts_below(layout.instances);
    let net = first_net(alloc, &live)?;
    let waves = first_waves(alloc, script)?;
    Ok(Core {
        layout,
        net,
        members: first_members(live),
        paused: InstSet::new(),
        recovery: first_recovery(alloc, layout.instances),
        waves,
        journal: Journal::new(alloc),
    })
}
