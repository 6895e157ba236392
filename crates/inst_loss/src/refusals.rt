//! Lines that are under way at an instance that ends are refused.

ghost use Rattle.std.specs.Prelude.{◌≡◌, OnOk, fold};
ghost use Rattle.inst_loss.specs.LostCore.{refusals_told, with_refusal};

use base_types::NoMemory;
use inst_state::{Core, Inst};
use journal::{Cause, Entry, Journal};

// Refuses a session's line, if it is under way.
fn refuse(journal: &mut Journal, inst: &Inst, z: usize) -> Result<(), NoMemory>
    ensures { OnOk result (journal.new ≡ with_refusal inst.now journal.old z) }
{
    if inst.doing(z).is_idle() {
        Ok(())
    } else {
        journal.push(Entry::Refused {
            stmt: inst.stmt(z),
            cause: Cause::Lost,
        })
    }
}

fn refuse_each(journal: &mut Journal, inst: &Inst, sessions: &[u16]) -> Result<(), NoMemory>
    ensures { OnOk result (journal.new ≡ fold (with_refusal inst.now) journal.old sessions.now) }
{
    for z in sessions {
        refuse(journal, inst, usize::from(*z))?;
    }
    Ok(())
}

// Refuses each line of an instance that is under way.
pub(crate) fn tell_refusals(inst: &Inst, core: &mut Core) -> Result<(), NoMemory>
    ensures { OnOk result (core.new ≡ refusals_told inst.now core.old) }
{
    refuse_each(&mut core.journal, inst, inst.plan.mine.as_slice())
}
