ghost use Rattle.std.specs.Prelude.{◌≡◌, IfErr, IfOk, IfSome, IsErrOf, Some};
ghost use Rattle.rac_io.specs.Counts.{Counts};
ghost use Rattle.log_audit.specs.Audits.{IsBadIn, Tells};

use crate::error::AuditError;
use crate::reading::read_logs;
use crate::text::text_of;
use log_history::history_of;
use rac_disk::SharedDisk;
use std::alloc::Global;

/// Tells what the redo logs of a disk say was committed: a line for each Commit record, in the order of
/// their SCNs, and then one for each log that ends with a record cut short. It changes nothing on the disk.
///
/// # Errors
///
/// [`AuditError::Failed`] exactly where a call of the disk failed, [`AuditError::BadLog`] for the first log
/// that isn't whole records and then nothing or a record cut short, and [`AuditError::NoMemory`] where memory
/// ran out.
pub fn audit<D: SharedDisk>(alloc: Global, disk: &mut D) -> Result<Vec<u8>, AuditError>
    ensures told { IfOk result (λ text. IfSome (D.state disk.old).told (λ it. Tells it text.items)) }
    ensures bad { IfErr result (λ error. IfSome (D.state disk.old).told (λ it. IsBadIn it error)) }
    ensures kept { IfSome (D.state disk.old).told (λ it. (D.state disk.new).told ≡ Some it) }
    ensures faults { Counts (IsErrOf result AuditError.Failed) (D.state disk.old).faults (D.state disk.new).faults }
    ensures full { (D.state disk.new).full ≡ (D.state disk.old).full }
{
    let logs = read_logs(alloc, disk)?;
    let (lines, torn) = history_of(alloc, logs.as_slice())?;
    let text = text_of(alloc, lines.as_slice(), torn.as_slice())?;
    Ok(text)
}
