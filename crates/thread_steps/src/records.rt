//! The records in the log of a dead thread.

ghost use Rattle.std.specs.Prelude.{◌≡◌, ◌≤◌, length, drop, IfOk};
ghost use Rattle.std.specs.List.{list_all};
ghost use Rattle.thread_steps.specs.Records.{HasRecords, TakesNext, has_small_scn};

use crate::entries::is_small;
use base_types::NoMemory;
use inst_state::Table;
use redo_record::{Front, read_front};
use redo_types::Redo;
use std::alloc::Global;

/// The whole records at the front of bytes.
#[derive(Debug, Drop)]
pub(crate) struct Records {
    pub records: Table<Redo>,
    /// How many bytes these have.
    pub len: usize,
    /// What stands behind them is neither nothing nor a record cut short.
    pub bad: bool,
}

/// What was met next in a log.
pub(crate) enum Met {
    /// A whole record of so many bytes.
    Whole(u16),
    Torn,
    Bad,
}

// The bytes behind the first so many.
fn behind(bytes: &[u8], len: u16) -> &[u8]
    requires { len ≤ length bytes.now }
    ensures { result.now ≡ drop len bytes.now }
{
    &bytes[usize::from(len)..]
}

// Adds the record at the front of a log's rest, if it is whole, and tells what stands there.
fn take_next(rest: &[u8], records: &mut Table<Redo>) -> Result<Met, NoMemory>
    requires { 1 ≤ length rest.now }
    ensures { IfOk result (TakesNext rest.now records.old records.new) }
{
    match read_front(rest) {
        Front::Whole(redo, len) => {
            let _undo = redo.undo.as_ref();
            records.push(redo)?;
            Ok(Met::Whole(len))
        }
        Front::Torn => Ok(Met::Torn),
        Front::Bad => Ok(Met::Bad),
    }
}

/// The whole records at the front of bytes, one behind the other.
pub(crate) fn records_in(alloc: Global, bytes: &[u8]) -> Result<Records, NoMemory>
    ensures { IfOk result (HasRecords bytes.now) }
{
    let mut records = Table::new(alloc);
    let mut rest = bytes;
    while !rest.is_empty() {
        match take_next(rest, &mut records)? {
            Met::Whole(len) => rest = behind(rest, len),
            Met::Torn => {
                return Ok(Records {
                    records,
                    len: bytes.len() - rest.len(),
                    bad: false,
                });
            }
            Met::Bad => {
                return Ok(Records {
                    records,
                    len: bytes.len() - rest.len(),
                    bad: true,
                });
            }
        }
    }
    Ok(Records {
        records,
        len: bytes.len(),
        bad: false,
    })
}

fn has_small_scn(redo: &Redo) -> bool
    ensures { result ≡ has_small_scn redo.now }
{
    is_small(redo.scn.get())
}

/// Whether the SCN of each record is one that a run may have come to.
pub(crate) fn have_small_scns(records: &[Redo]) -> bool
    ensures { result ≡ list_all has_small_scn records.now }
{
    records.iter().all(|redo| has_small_scn(redo))
}
