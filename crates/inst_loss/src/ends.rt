//! What is told of an instance's end.

ghost use Rattle.std.specs.Prelude.{◌≡◌, OnOk, fold};
ghost use Rattle.inst_loss.specs.LostCore.{is_kept_commit, kept_told, loss_told, start_answered, with_commit};

use base_types::{InstNo, NoMemory};
use inst_state::{Core, Inst, Life, WaitingEnd};
use journal::{Entry, Journal};

/// How an instance ends.
#[derive(Clone, Copy, Debug, PartialEq, Eq)]
pub enum Loss {
    /// As the line with this number asks.
    Crashed { line: u32 },
    /// By a disk fault, or by content that no run can have left (`bad`).
    Ended { bad: bool },
}

// Whether an end is a commit whose record is whole in a log of this length.
fn is_kept_commit(kept: u64, end: &WaitingEnd) -> bool
    ensures { result ≡ is_kept_commit kept end.now }
{
    end.commit && end.behind <= kept
}

// Tells each of these ends that is a commit whose record is whole in the log.
fn tell_commits(
    journal: &mut Journal,
    ends: &[WaitingEnd],
    me: InstNo,
    kept: u64,
) -> Result<(), NoMemory>
    ensures { OnOk result (journal.new ≡ fold (with_commit me kept) journal.old ends.now) }
{
    for end in ends {
        if is_kept_commit(kept, end) {
            journal.push(Entry::Committed {
                xid: end.xid,
                commit_scn: end.scn,
                inst: me,
            })?;
        }
    }
    Ok(())
}

// Tells the commits whose records are whole in the log, where its length is told.
pub(crate) fn tell_kept(inst: &Inst, core: &mut Core, kept: Option<u64>) -> Result<(), NoMemory>
    ensures { OnOk result (core.new ≡ kept_told inst.now core.old kept) }
{
    match kept {
        Some(kept) => {
            let me = inst.plan.me;
            tell_commits(&mut core.journal, inst.ends.as_slice(), me, kept)?;
            core.count_to(me, kept);
            Ok(())
        }
        None => Ok(()),
    }
}

// Answers the start line by which an instance is on its way up, if it is.
fn answer_start(life: &Life, core: &mut Core)
    ensures { core.new ≡ start_answered life.now core.old }
{
    match life {
        Life::Joining(line) => core.answer_control(*line),
        _ => {}
    }
}

// Tells how an instance ends, and answers the line that is over with it.
pub(crate) fn tell_loss(inst: &Inst, core: &mut Core, how: Loss) -> Result<(), NoMemory>
    ensures { OnOk result (core.new ≡ loss_told inst.now core.old how) }
{
    match how {
        Loss::Crashed { line } => {
            core.answer_control(line);
            core.tell(Entry::Crashed {
                line,
                inst: inst.plan.me,
            })
        }
        Loss::Ended { bad } => {
            answer_start(&inst.life, core);
            core.tell(Entry::Ended {
                inst: inst.plan.me,
                bad,
            })
        }
    }
}
