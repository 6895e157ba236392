ghost use Rattle.std.specs.Prelude.{◌≡◌, ◌≤◌, ℕ, List, drop, length, IfOk, IfErr, OnOk};
ghost use Rattle.log_history.specs.Logs.{AreLogs, IsBad, IsNext, IsRead, IsWrong, StopsRight, TakesNext, bytes_of, torn_ends};

use crate::error::LogError;
use base_types::{InstNo, NoMemory, Sequence};
use redo_record::{Front, read_front};
use redo_types::Redo;
use std::alloc::Global;

/// What a log holds.
#[derive(Debug, Drop)]
pub(crate) struct Log {
    /// Its whole records, from its beginning on.
    pub records: Sequence<Redo>,
    /// How many bytes these have.
    pub len: usize,
    /// Whether a record cut short stands behind them.
    pub torn: bool,
}

/// Why a log was not read.
#[derive(Debug, Drop)]
pub(crate) enum Stop {
    /// What stands at this place is neither a whole record nor one cut short.
    Bad(usize),
    NoMemory,
}

impl From<NoMemory> for Stop {
    ghost use Rattle.log_history.specs.declared.reading.Stop.TheVariants as stops;

    ghost from_gives = { λ _ stop. stop ≡ stops.NoMemory };

    fn from(_refused: NoMemory) -> Stop {
        Stop::NoMemory
    }
}

/// The bytes behind the first so many.
fn behind(bytes: &[u8], len: u16) -> &[u8]
    requires { len ≤ length bytes.now }
    ensures { result.now ≡ drop len bytes.now }
{
    &bytes[usize::from(len)..]
}

/// What was met next in a log.
pub(crate) enum Met {
    /// A whole record of so many bytes.
    Whole(u16),
    Torn,
    Bad,
}

/// Adds the record at the front of a log's rest, if it is whole, and tells what stands there.
fn take_next(rest: &[u8], records: &mut Sequence<Redo>) -> Result<Met, NoMemory>
    requires { 1 ≤ length rest.now }
    ensures { IfOk result (TakesNext rest.now records.old records.new) }
{
    match read_front(rest) {
        Front::Whole(redo, len) => {
            let _undo = redo.undo.as_ref();
            records.push(redo)?;
            Ok(Met::Whole(len))
        }
        Front::Torn => Ok(Met::Torn),
        Front::Bad => Ok(Met::Bad),
    }
}

/// Reads a log up to where its whole records end.
pub(crate) fn read_log(alloc: Global, bytes: &[u8]) -> Result<Log, Stop>
    ensures ok { IfOk result (IsRead bytes.now) }
    ensures bad { IfErr result (StopsRight bytes.now) }
{
    let mut records = Sequence::new(alloc);
    let mut rest = bytes;
    while !rest.is_empty() {
        match take_next(rest, &mut records)? {
            Met::Whole(len) => rest = behind(rest, len),
            Met::Torn => {
                return Ok(Log {
                    records,
                    len: bytes.len() - rest.len(),
                    torn: true,
                });
            }
            Met::Bad => return Err(Stop::Bad(bytes.len() - rest.len())),
        }
    }
    Ok(Log {
        records,
        len: bytes.len(),
        torn: false,
    })
}

/// What the logs of all threads hold.
#[derive(Debug, Drop)]
pub(crate) struct Logs {
    /// The whole records of each thread.
    pub threads: Vec<Sequence<Redo>>,
    /// The threads whose logs end with a record cut short, and where it begins.
    pub torn: Vec<(InstNo, u64)>,
}

/// Adds what the log of the next thread holds.
fn read_next(
    alloc: Global,
    thread: InstNo,
    bytes: &[u8],
    threads: &mut Vec<Sequence<Redo>>,
    torn: &mut Vec<(InstNo, u64)>,
) -> Result<(), LogError>
    ensures ok { OnOk result (IsNext bytes.now thread threads.old.items threads.new.items
        torn.old.items torn.new.items) }
    ensures bad { IfErr result (IsWrong bytes.now thread) }
{
    match read_log(alloc, bytes) {
        Ok(log) => {
            if log.torn {
                torn.push((thread, log.len as u64))?;
            }
            threads.push(log.records)?;
            Ok(())
        }
        Err(Stop::Bad(place)) => Err(LogError::BadLog {
            thread,
            place: place as u64,
        }),
        Err(Stop::NoMemory) => Err(LogError::NoMemory),
    }
}

/// Reads the logs of the threads in their order, up to the first that is wrong.
pub(crate) fn read_logs(alloc: Global, logs: &[Vec<u8>]) -> Result<Logs, LogError>
    requires { length logs.now ≤ 8 }
    ensures ok { IfOk result (λ read. (rests : List (List ℕ)) ×
        AreLogs (bytes_of logs.now) read.threads.items rests ×
        (read.torn.items ≡ torn_ends 0 read.threads.items rests)) }
    ensures bad { IfErr result (IsBad (bytes_of logs.now)) }
{
    let mut threads = Vec::new(alloc);
    let mut torn = Vec::new(alloc);
    for (thread, bytes) in logs.iter().enumerate() {
        let inst = InstNo(thread as u8);
        read_next(alloc, inst, bytes.as_slice(), &mut threads, &mut torn)?;
    }
    Ok(Logs { threads, torn })
}
