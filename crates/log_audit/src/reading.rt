ghost use Rattle.std.specs.Prelude.{◌≡◌, ◌<◌, IfErr, IfOk, IfSome, IsErrOf, Some, length};
ghost use Rattle.rac_io.specs.Counts.{Counts};
ghost use Rattle.rac_disk.specs.Content.{log_at};
ghost use Rattle.log_history.specs.Logs.{bytes_of};
ghost use Rattle.log_audit.specs.Audits.{IsUnread, Keeps, logs_in};

use crate::error::AuditError;
use base_types::InstNo;
use rac_disk::SharedDisk;
use std::alloc::Global;

/// Reads the log of a thread.
fn read_log<D: SharedDisk>(
    alloc: Global,
    disk: &mut D,
    thread: InstNo,
) -> Result<Vec<u8>, AuditError>
    requires { thread < 8 }
    ensures bytes { IfOk result (λ log. IfSome (D.state disk.old).told (λ it. log.items ≡ log_at it thread)) }
    ensures unread { IfErr result IsUnread }
    ensures kept { Keeps (D.state disk.old).told (D.state disk.new).told }
    ensures faults { Counts (IsErrOf result AuditError.Failed) (D.state disk.old).faults (D.state disk.new).faults }
    ensures full { (D.state disk.new).full ≡ (D.state disk.old).full }
{
    let len = disk.log_len(thread)?;
    let mut log = vec![in alloc; 0; len as usize]?;
    let count = disk.read_log(thread, 0, log.as_mut_slice())?;
    log.truncate(count);
    Ok(log)
}

/// Reads the logs of all threads.
pub(crate) fn read_logs<D: SharedDisk>(
    alloc: Global,
    disk: &mut D,
) -> Result<Vec<Vec<u8>>, AuditError>
    ensures count { IfOk result (λ logs. length logs.items ≡ 8) }
    ensures bytes { IfOk result (λ logs. IfSome (D.state disk.old).told (λ it. bytes_of logs.items ≡ logs_in it)) }
    ensures unread { IfErr result IsUnread }
    ensures kept { IfSome (D.state disk.old).told (λ it. (D.state disk.new).told ≡ Some it) }
    ensures faults { Counts (IsErrOf result AuditError.Failed) (D.state disk.old).faults (D.state disk.new).faults }
    ensures full { (D.state disk.new).full ≡ (D.state disk.old).full }
{
    let mut logs = Vec::new(alloc);
    for thread in 0..8 {
        let log = read_log(alloc, disk, InstNo(thread))?;
        logs.push(log)?;
    }
    Ok(logs)
}
