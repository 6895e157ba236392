//! Redo records are made.

ghost use Rattle.std.specs.Prelude.{◌≡◌, true, IfOk, OnOk};
ghost use Rattle.redo_record.specs.Redo.{IsRedo};
ghost use Rattle.redo_thread.specs.Thread.{end_of};
ghost use Rattle.inst_state.specs.Records.{with_newest, with_record};
ghost use Rattle.inst_state.specs.State.{has_room};

use crate::inst::{Inst, Made};
use base_types::{BlockNo, NoMemory, RedoAt};
use redo_types::Redo;

/// Makes a record, which waits for the disk, and gives the place where it begins. `ends` says that it is the end of a
/// transaction.
pub fn append(inst: &mut Inst, redo: &Redo, ends: bool) -> Result<RedoAt, NoMemory>
    requires is_redo { IsRedo redo.now }
    requires room { has_room inst.old ≡ true }
    ensures part { OnOk result (inst.new ≡ with_record inst.old redo.now ends) }
    ensures at { IfOk result (λ at. at ≡ end_of inst.old.thread) }
{
    let at = inst.thread.append(redo).unwrap();
    inst.clock.raise(redo.scn);
    inst.made.push(Made {
        at: at.get(),
        scn: redo.scn,
        ends,
    })?;
    Ok(at)
}

/// Notes that the last record is on a data block.
pub fn note_newest(inst: &mut Inst, block: BlockNo)
    ensures { inst.new ≡ with_newest inst.old block }
{
    let place = usize::from(block.get());
    if place < 64 {
        inst.newest[place] = inst.thread.end().get();
    }
}
