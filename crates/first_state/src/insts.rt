//! An instance before the first step.

ghost use Rattle.std.specs.Prelude.{◌≡◌, ◌<◌, IfOk, length, replicate};
ghost use Rattle.script_text.specs.WellFormed.{IsWellFormed};
ghost use Rattle.inst_state.specs.Sessions.{new_session};
ghost use Rattle.first_state.specs.Inst.{first_inst, first_leading, first_mastering};
ghost use Rattle.first_state.specs.Plan.{first_plan, parts_of};

use crate::cores::START;
use crate::plans::first_plan;
use base_types::{InstNo, NoMemory, RedoAt};
use buffer_cache::BufferCache;
use inst_state::{
    BucketsSent, Inst, Leading, Life, Mastering, OwnWave, Plan, Recovering, Session, Table,
};
use redo_thread::RedoThread;
use resource_dir::rebuild;
use script_text::Script;
use std::alloc::Global;
use undo_segment::Segment;
use wire_net::Masters;

fn new_sessions(alloc: Global, count: usize) -> Result<Table<Session>, NoMemory>
    ensures { IfOk result (λ sessions. sessions ≡ replicate count new_session) }
{
    let mut sessions = Table::new(alloc);
    for _session in 0..count {
        sessions.push(Session::new(alloc))?;
    }
    Ok(sessions)
}

fn first_mastering(alloc: Global, masters: &Masters, me: InstNo) -> Result<Mastering, NoMemory>
    ensures { IfOk result (λ it. it ≡ first_mastering masters.now me) }
{
    Ok(Mastering {
        directory: rebuild(alloc, me, masters, &[])?,
        sent: BucketsSent {
            by_bucket: [None; 16],
        },
        taken: 0,
    })
}

fn first_leading(alloc: Global) -> Leading
    ensures { result ≡ first_leading }
{
    Leading {
        leads: false,
        adopted: Table::new(alloc),
        recovering: Recovering {
            epoch: 0,
            threads: Table::new(alloc),
            versions: Table::new(alloc),
            rebuilt: Table::new(alloc),
        },
    }
}

// The instance with a plan.
fn inst_with(
    alloc: Global,
    sessions: usize,
    masters: &Masters,
    plan: Plan,
) -> Result<Inst, NoMemory>
    ensures { IfOk result (λ it. it ≡ first_inst sessions masters.now plan) }
{
    let thread = RedoThread::new(alloc, plan.me, RedoAt(0))?;
    let segment = Segment::new(alloc, &plan.layout, plan.me)?;
    let cache = BufferCache::new(alloc, plan.frames, plan.blocks)?;
    let mastering = first_mastering(alloc, masters, plan.me)?;
    let sessions = new_sessions(alloc, sessions)?;
    Ok(Inst {
        plan,
        life: Life::Up,
        paused: false,
        clock: START,
        thread,
        entry_scns: START,
        made: Table::new(alloc),
        ends: Table::new(alloc),
        segment,
        cache,
        newest: [0; 64],
        mastering,
        sessions,
        wave: OwnWave {
            entered: 0,
            checkpoints: Table::new(alloc),
        },
        leading: first_leading(alloc),
    })
}

/// An instance before the first step, where the buckets have these masters.
pub fn first_inst(
    alloc: Global,
    script: &Script,
    me: InstNo,
    masters: &Masters,
) -> Result<Inst, NoMemory>
    requires script { IsWellFormed script.now }
    requires known { me < script.now.settings.instances }
    ensures plan { IfOk result (λ it. parts_of it.plan ≡ first_plan script.now me) }
    ensures part { IfOk result (λ it. it ≡ first_inst (length script.now.names) masters.now it.plan) }
{
    let plan = first_plan(alloc, script, me)?;
    inst_with(alloc, script.sessions(), masters, plan)
}
