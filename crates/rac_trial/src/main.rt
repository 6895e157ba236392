//! `rac_trial PLAN` runs the script on standard input over a disk in memory whose logs have so much room and whose calls
//! fail so as the file PLAN says, writes what `rac run --journal --steps` writes, and ends with its status.
#![tactic(auto)]

use base_types::NoMemory;
use cli_words::RunOptions;
use rac_disk::MemDisk;
use rac_io::{StdSink, StdSource};
use rac_top::{End, Exit, run};
use std::alloc::Global;
use std::process::ExitCode;
use std::rt::{Env, Files};
use std::{env, fs, io};
use trial_plan::{Plan, plan_in};
use world_machine::Nobody;

/// The blocks of the disk.
const BLOCKS: u16 = 200;

/// The journal and the steps are written behind the report.
const OPTIONS: RunOptions = RunOptions {
    journal: true,
    steps: true,
    check: false,
};

/// The plan in the file that the first word names; `None` where there is no word, or the file's text is no plan.
fn plan_named<R: Env + Files + AllocGlobal>(rt: &R) -> io::Result<Option<Plan>> {
    let Some(file) = env::args(rt)?.nth(1) else {
        return Ok(None);
    };
    let text = fs::read_to_string(rt, file.as_str())?;
    Ok(plan_in(rt.alloc(), text.as_str())?)
}

/// A disk in memory by a plan.
fn disk_by(alloc: Global, plan: Plan) -> Result<MemDisk, NoMemory> {
    MemDisk::new(alloc, BLOCKS, plan.room, plan.calls)
}

/// Runs the script on standard input over a disk by a plan.
fn exit_of(rt: &HostRuntime, plan: Plan) -> Exit {
    let Ok(mut disk) = disk_by(rt.alloc(), plan) else {
        return Exit::without_run(rt.alloc(), End::NoMemory);
    };
    let mut source = StdSource::new(rt.stdin());
    let mut sink = StdSink::new(rt.stdout());
    run(
        rt.alloc(),
        OPTIONS,
        &mut source,
        &mut sink,
        &mut disk,
        &mut Nobody,
    )
}

fn main(rt: HostRuntime) -> ExitCode {
    match plan_named(&rt) {
        Ok(Some(plan)) => ExitCode::from(exit_of(&rt, plan).end.status()),
        _ => ExitCode::from(End::WrongWords.status()),
    }
}
