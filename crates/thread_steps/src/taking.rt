//! What was found of a dead thread is taken into memory.

ghost use Rattle.std.specs.Prelude.{◌≡◌, None, OnOk, IfOk, fold, replicate};
ghost use Rattle.thread_steps.specs.Read.{in_epoch, thread_read, thread_read_core, with_found, with_version};

use crate::entering::enter_records;
use crate::found::{BlockVersion, Found, FoundLog};
use base_types::{InstNo, NoMemory};
use inst_loss::{Loss, lose};
use inst_state::{Core, Inst, Recovering, Table};
use std::alloc::Global;

fn no_versions(alloc: Global) -> Result<Table<Option<u64>>, NoMemory>
    ensures { IfOk result (λ versions. versions ≡ replicate 200 None) }
{
    Ok(Table::from_vec(Vec::from_array(alloc, [None; 200])?))
}

// What was read before the last change of membership, which began this epoch, is forgotten.
fn begin_epoch(alloc: Global, recovering: &mut Recovering, epoch: u32) -> Result<(), NoMemory>
    ensures { OnOk result (recovering.new ≡ in_epoch recovering.old epoch) }
{
    if recovering.epoch != epoch {
        recovering.threads = Table::new(alloc);
        recovering.versions = no_versions(alloc)?;
        recovering.rebuilt = Table::new(alloc);
        recovering.epoch = epoch;
    }
    Ok(())
}

#[tactic(auto, using(std::proofs::lemmas::List::set_past))]
fn note_version(versions: &mut Table<Option<u64>>, one: &BlockVersion)
    ensures { versions.new ≡ with_version versions.old one.now }
{
    if let Some(version) = versions.get_mut(usize::from(one.block.get())) {
        *version = Some(one.version);
    }
}

fn note_versions(versions: &mut Table<Option<u64>>, found: &[BlockVersion])
    ensures { versions.new ≡ fold with_version versions.old found.now }
{
    for one in found {
        note_version(versions, one);
    }
}

// A log that was found and the versions of its blocks are kept.
fn keep_found(
    recovering: &mut Recovering,
    log: FoundLog,
    versions: &[BlockVersion],
) -> Result<(), NoMemory>
    ensures { OnOk result (recovering.new ≡ with_found recovering.old log versions.now) }
{
    note_versions(&mut recovering.versions, versions);
    recovering.threads.push(log.read)
}

/// What was found of a dead thread is taken into memory: the thread is known to be closed, or its Committed enter and its
/// log is kept; where it couldn't be read, the instance ends.
pub(crate) fn take_found(
    alloc: Global,
    inst: &mut Inst,
    core: &mut Core,
    thread: InstNo,
    found: Found,
) -> Result<(), NoMemory>
    ensures part { OnOk result (inst.new ≡ thread_read inst.old core.old found) }
    ensures core { OnOk result (core.new ≡ thread_read_core inst.old core.old thread found) }
{
    match found {
        Found::Closed(scns) => {
            begin_epoch(alloc, &mut inst.leading.recovering, core.members.epoch)?;
            core.set_closed(thread, Some(scns));
            Ok(())
        }
        Found::Unread { bad } => lose(alloc, inst, core, Loss::Ended { bad }, Some(0)),
        Found::Stopped { log, bad } => {
            enter_records(core, thread, log.position, log.read.records.as_slice())?;
            lose(alloc, inst, core, Loss::Ended { bad }, Some(0))
        }
        Found::Whole { log, versions } => {
            begin_epoch(alloc, &mut inst.leading.recovering, core.members.epoch)?;
            enter_records(core, thread, log.position, log.read.records.as_slice())?;
            keep_found(&mut inst.leading.recovering, log, versions.as_slice())
        }
    }
}
