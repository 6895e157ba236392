//! What the leader has read and done since the last change of membership.

ghost use Rattle.std.specs.Prelude.{◌≡◌, IfOk, OnOk, map, None, replicate};
ghost use Rattle.rebuild_steps.specs.Epochs.{in_epoch, merged_redo, threads_in};
ghost use Rattle.report_steps.specs.Recovering.{redo_of};

use base_types::{NoMemory, Sequence};
use inst_state::{ReadThread, Recovering, Table};
use redo_merge::{Tagged, ThreadRedo, merge};
use redo_types::Redo;
use std::alloc::Global;

fn no_versions(alloc: Global) -> Result<Table<Option<u64>>, NoMemory>
    ensures { IfOk result (λ versions. versions ≡ replicate 200 None) }
{
    Ok(Table::from_vec(Vec::from_array(alloc, [None; 200])?))
}

// What was read and done before the last change of membership, which began this epoch, is forgotten.
pub(crate) fn begin_epoch(
    alloc: Global,
    recovering: &mut Recovering,
    epoch: u32,
) -> Result<(), NoMemory>
    ensures { OnOk result (recovering.new ≡ in_epoch recovering.old epoch) }
{
    if recovering.epoch != epoch {
        recovering.threads = Table::new(alloc);
        recovering.versions = no_versions(alloc)?;
        recovering.rebuilt = Table::new(alloc);
        recovering.epoch = epoch;
    }
    Ok(())
}

// The threads that were read since the last change of membership, which began this epoch.
pub(crate) fn threads_in(recovering: &Recovering, epoch: u32) -> &[ReadThread]
    ensures { result.now ≡ threads_in recovering.now epoch }
{
    if recovering.epoch == epoch {
        recovering.threads.as_slice()
    } else {
        &[]
    }
}

fn copy_redo(alloc: Global, records: &[Redo]) -> Result<Sequence<Redo>, NoMemory>
    ensures { IfOk result (λ copied. copied ≡ records.now) }
{
    let mut copied = Sequence::new(alloc);
    for redo in records {
        copied.push(*redo)?;
    }
    Ok(copied)
}

fn redo_of(alloc: Global, read: &ReadThread) -> Result<ThreadRedo, NoMemory>
    ensures { IfOk result (λ redo. redo ≡ redo_of read.now) }
{
    Ok(ThreadRedo {
        thread: read.thread,
        records: copy_redo(alloc, read.records.as_slice())?,
    })
}

fn redo_of_each(alloc: Global, threads: &[ReadThread]) -> Result<Vec<ThreadRedo>, NoMemory>
    ensures { IfOk result (λ all. all.items ≡ map redo_of threads.now) }
{
    let mut all = Vec::new(alloc);
    for read in threads {
        all.push(redo_of(alloc, read)?)?;
    }
    Ok(all)
}

// The records of these threads, in the order in which they were made.
pub(crate) fn merged_redo(
    alloc: Global,
    threads: &[ReadThread],
) -> Result<Sequence<Tagged>, NoMemory>
    ensures { IfOk result (λ all. all ≡ merged_redo threads.now) }
{
    let threads = redo_of_each(alloc, threads)?;
    merge(alloc, threads.as_slice())
}
