ghost use Rattle.std.specs.Prelude.{◌≡◌, [], ◌⊎◌, IfSome, IsSomeAnd, Some, true, false};
ghost use Rattle.rac_io.specs.Counts.{Counts, Rose};
ghost use Rattle.log_laws.specs.Logs.{HasGoodLogs};
ghost use Rattle.rac_top.specs.Audits.{WritesHistory, end_of};
ghost use Rattle.rac_top.specs.Ends.{AuditEndsFor, Stayed, is_done, is_told};

use crate::exit::{End, Exit};
use crate::writing::write_told;
use log_audit::{AuditError, audit as audit_logs};
use rac_disk::SharedDisk;
use rac_io::Sink;
use std::alloc::Global;

/// How an audit ends that told nothing.
fn end_of(why: AuditError) -> End
    ensures { result ≡ end_of why }
{
    match why {
        AuditError::Failed => End::LogsUnread,
        AuditError::BadLog { thread, place } => End::BadLog { thread, place },
        AuditError::NoMemory => End::NoMemory,
    }
}

/// Reads the logs of the disk, and writes the history that they tell. It changes nothing.
///
/// Where the sink or the disk doesn't tell what it holds, the clauses that speak of that claim nothing.
pub fn audit<K: Sink, D: SharedDisk>(alloc: Global, sink: &mut K, disk: &mut D) -> Exit
    // Why it ends as it does.
    ensures cause { AuditEndsFor result.end (Rose (K.faults sink.old) (K.faults sink.new) ⊎ Rose (K.stalls sink.old) (K.stalls sink.new))
        (D.state disk.old) (D.state disk.new) }
    ensures unread { Counts (result.end ≡ End.LogsUnread) (D.state disk.old).faults (D.state disk.new).faults }
    // What is written.
    ensures told { is_told result.end ≡ true →
        IfSome (D.state disk.old).told (WritesHistory result.end (K.holds sink.old) (K.holds sink.new)) }
    ensures good_logs { is_told result.end ≡ true → IfSome (D.state disk.old).told HasGoodLogs }
    ensures silent { is_told result.end ≡ false → sink.new ≡ sink.old }
    // It changes nothing, and runs nothing.
    ensures kept { IfSome (D.state disk.old).told (λ it. (D.state disk.new).told ≡ Some it) }
    ensures full { (D.state disk.new).full ≡ (D.state disk.old).full }
    ensures no_run { (result.journal ≡ []) × (result.book ≡ []) }
    // Where nothing goes wrong all is done, or memory ran out.
    ensures completes { IsSomeAnd (D.state disk.old).told HasGoodLogs → Stayed (D.state disk.old).faults (D.state disk.new).faults →
        Stayed (K.faults sink.old) (K.faults sink.new) → Stayed (K.stalls sink.old) (K.stalls sink.new) →
        is_done result.end ≡ true }
{
    match audit_logs(alloc, disk) {
        Ok(text) => Exit::without_run(alloc, write_told(End::Done, text.as_slice(), sink)),
        Err(why) => Exit::without_run(alloc, end_of(why)),
    }
}
