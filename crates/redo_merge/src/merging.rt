ghost use Rattle.std.specs.Prelude.{◌≡◌, ◌++◌, IfOk, OnOk};
ghost use Rattle.redo_merge.specs.Merge.{all_records, by_scn, by_thread, merged, records_of};

use crate::tagged::{Tagged, ThreadRedo};
use base_types::{NoMemory, Sequence};
use std::alloc::Global;

/// The records of some threads in the order of their SCNs. Those of one SCN stand in the order of their
/// threads, and those of one thread too as they stand in it.
pub fn merge(alloc: Global, threads: &[ThreadRedo]) -> Result<Sequence<Tagged>, NoMemory>
    ensures { IfOk result (λ all. all ≡ merged threads.now) }
{
    let mut all = records_of_all(alloc, threads)?;
    sort_by_thread(&mut all)?;
    sort_by_scn(&mut all)?;
    Ok(Sequence::from_vec(all))
}

fn records_of_all(alloc: Global, threads: &[ThreadRedo]) -> Result<Vec<Tagged>, NoMemory>
    ensures { IfOk result (λ all. all.items ≡ all_records threads.now) }
{
    let mut all = Vec::new(alloc);
    for thread in threads {
        add_records(&mut all, thread)?;
    }
    Ok(all)
}

fn add_records(all: &mut Vec<Tagged>, thread: &ThreadRedo) -> Result<(), NoMemory>
    ensures { OnOk result (all.new.items ≡ all.old.items ++ records_of thread.now) }
{
    for redo in thread.records.as_slice() {
        all.push(Tagged {
            thread: thread.thread,
            redo: *redo,
        })?;
    }
    Ok(())
}

fn sort_by_thread(all: &mut Vec<Tagged>) -> Result<(), NoMemory>
    ensures { OnOk result (all.new.items ≡ by_thread all.old.items) }
{
    all.sort_by_key(|it| it.thread.get())?;
    Ok(())
}

fn sort_by_scn(all: &mut Vec<Tagged>) -> Result<(), NoMemory>
    ensures { OnOk result (all.new.items ≡ by_scn all.old.items) }
{
    all.sort_by_key(|it| it.redo.scn.get())?;
    Ok(())
}
