//! Stored runs: NAME.rac with the plan of faults NAME.plan, and in NAME.out all that it has to write, journal and steps
//! included, with a last line `status N`.

use base_types::NoMemory;
use cli_words::RunOptions;
use rac_disk::MemDisk;
use rac_io::{MemSink, MemSource};
use rac_top::run;
use std::alloc::{AllocError, Global};
use std::rt::Files;
use std::{fs, io};
use trial_plan::{Plan, plan_in};
use world_machine::Nobody;

/// The runs, by the names of their files.
pub const STORED: [&str; 17] = [
    "back", "calm", "crashes", "faults", "hold", "jam", "lost", "mixed", "old", "ping", "race",
    "relay", "remaster", "stale", "storm", "tiny", "wide",
];

/// The blocks of a disk.
const BLOCKS: u16 = 200;

/// The room for what a run writes, in bytes.
const SINK_BYTES: usize = 65_536;

/// All is written, and the journal is checked.
const OPTIONS: RunOptions = RunOptions {
    journal: true,
    steps: true,
    check: true,
};

/// What a run of a script over a disk by a plan writes, with its status in a last line.
fn written(alloc: Global, script: Vec<u8>, plan: Plan) -> Result<Vec<u8>, NoMemory> {
    let mut source = MemSource::new(script, Vec::new(alloc));
    let mut sink = MemSink::new(alloc, SINK_BYTES, Vec::new(alloc))?;
    let mut disk = MemDisk::new(alloc, BLOCKS, plan.room, plan.calls)?;
    let exit = run(
        alloc,
        OPTIONS,
        &mut source,
        &mut sink,
        &mut disk,
        &mut Nobody,
    );
    let status = exit.end.status();
    let last = format!(in alloc; "status {status}\n")?;
    let mut text = Vec::new(alloc);
    text.extend_from_slice(sink.bytes())?;
    text.extend_from_slice(last.as_str().as_bytes())?;
    Ok(text)
}

/// Whether the stored run of this name writes what stands beside it.
pub fn is_as_stored<R: Files + AllocGlobal>(rt: &R, name: &str) -> io::Result<bool> {
    let alloc = rt.alloc();
    let script = fs::read(rt, format!(in alloc; "{name}.rac")?.as_str())?;
    let plan = fs::read_to_string(rt, format!(in alloc; "{name}.plan")?.as_str())?;
    let wanted = fs::read(rt, format!(in alloc; "{name}.out")?.as_str())?;
    let Some(plan) = plan_in(alloc, plan.as_str())? else {
        return Ok(false);
    };
    let text = written(alloc, script, plan).map_err(|_| AllocError)?;
    Ok(text.as_slice() == wanted.as_slice())
}
