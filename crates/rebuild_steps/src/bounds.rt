//! The clocks after recovery.

ghost use Rattle.std.specs.Prelude.{◌≡◌, fold};
ghost use Rattle.std.specs.Option.{option_copied};
ghost use Rattle.rebuild_steps.specs.Bound.{bound_of, with_inst_of, with_report, with_scns, with_thread};

use crate::epochs::threads_in;
use crate::opens::learn;
use base_types::InstNo;
use inst_set::ALL_INSTS;
use inst_state::{Core, Inst, ReadThread};
use scn_clock::Clock;
use wire_net::Report;

fn learn_report(clock: &mut Clock, report: Option<&Report>)
    ensures { clock.new ≡ with_report (option_copied report.entry) clock.old }
{
    if let Some(report) = report {
        clock.raise(report.scn);
        clock.learn(report.known);
    }
}

fn learn_scns(clock: &mut Clock, scns: Option<Clock>)
    ensures { clock.new ≡ with_scns scns clock.old }
{
    if let Some(scns) = scns {
        learn(clock, &scns);
    }
}

fn learn_inst(clock: &mut Clock, core: &Core, inst: InstNo)
    ensures { clock.new ≡ with_inst_of core.now clock.old inst }
{
    learn_report(clock, core.recovery.reports.get(inst));
    learn_scns(clock, core.closed_of(inst));
}

fn learn_insts(clock: &mut Clock, core: &Core, insts: &[InstNo])
    ensures { clock.new ≡ fold (with_inst_of core.now) clock.old insts.now }
{
    for inst in insts {
        learn_inst(clock, core, *inst);
    }
}

fn learn_threads(clock: &mut Clock, threads: &[ReadThread])
    ensures { clock.new ≡ fold with_thread clock.old threads.now }
{
    for read in threads {
        learn(clock, &read.scns);
    }
}

// The clocks after recovery.
#[tactic(auto, unfolding(crate::specs::Bound::bound_of))]
pub(crate) fn bound_of(inst: &Inst, core: &Core) -> Clock
    ensures { result ≡ bound_of inst.now core.now }
{
    let mut bound = inst.clock;
    learn_insts(&mut bound, core, &ALL_INSTS);
    learn_threads(
        &mut bound,
        threads_in(&inst.leading.recovering, core.members.epoch),
    );
    bound
}
