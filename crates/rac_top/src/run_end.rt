ghost use Rattle.std.specs.Prelude.{◌≡◌};
ghost use Rattle.std.specs.List.{list_any};
ghost use Rattle.rac_top.specs.RunEnds.{end_of_run, is_bad_end};

use crate::exit::End;
use cluster_run::Finish;
use journal::{Entry, Journal};

/// Whether an instance ended since it met content that no run left.
fn is_bad_end(entry: &Entry) -> bool
    ensures { result ≡ is_bad_end entry.now }
{
    match entry {
        Entry::Ended { bad, .. } => *bad,
        _ => false,
    }
}

/// Whether one of these entries tells of such an end.
fn any_bad_end(entries: &[Entry]) -> bool
    ensures { result ≡ list_any is_bad_end entries.now }
{
    entries.iter().any(|entry| is_bad_end(entry))
}

/// Whether an entry of a journal tells of such an end.
#[tactic(auto, using(crate::proofs::WholeLemmas::bad_ends_reversed))]
pub fn has_bad_end(journal: &Journal) -> bool
    ensures { result ≡ list_any is_bad_end journal.now }
{
    any_bad_end(journal.as_slice())
}

/// How a run ends that came to a finish, by its limit of steps, whether the disk failed, and whether an instance met
/// content that no run left.
pub fn end_of_run(finish: Finish, limit: u64, failed: bool, bad: bool) -> End
    ensures { result ≡ end_of_run finish limit failed bad }
{
    match finish {
        Finish::AtLimit => End::StepLimit { limit },
        Finish::Stuck => End::Stuck,
        Finish::Over if failed => End::DiskFault,
        Finish::Over if bad => End::BadDisk,
        Finish::Over => End::Done,
    }
}
