ghost use Rattle.std.specs.Prelude.{◌≡◌, ◌⊎◌, IfOk, map, string_bytes};
ghost use Rattle.cli_words.specs.Orders.{order_in};
ghost use Rattle.rac_program.specs.Program.{Does, RanOut, folder_in};

use base_types::NoMemory;
use cli_words::{Folder, Order, WordsError, read_words};
use file_disk::FileDisk;
use rac_disk::MemDisk;
use rac_io::{Sink, Source};
use rac_top::{End, Exit, rac};
use std::alloc::Global;
use std::rt::Files;
use world_machine::Nobody;

/// The blocks of a disk in memory.
const BLOCKS: u16 = 200;

/// The room of each of its logs, in bytes.
const LOG_BYTES: u64 = 8_388_608;

/// The folder that the words name; none where they name none, or give no order.
fn folder_named(alloc: Global, words: &[String]) -> Result<Option<Folder>, NoMemory>
    ensures { IfOk result (λ folder. folder ≡ folder_in (order_in (map string_bytes words.now))) }
{
    match read_words(alloc, words) {
        Ok(Order::Run { folder, .. }) => Ok(folder),
        Ok(Order::Load { folder, .. }) => Ok(folder),
        Ok(Order::Audit { folder }) => Ok(Some(folder)),
        Err(WordsError::Usage) => Ok(None),
        Err(WordsError::NoMemory) => Err(NoMemory),
    }
}

/// Does what the words ask, over the disk in the folder that they name, or over a new disk in memory where they name
/// none. The words are those after the program's name.
pub fn program<R: Files + AllocGlobal, S: Source, K: Sink>(
    rt: &R,
    words: &[String],
    source: &mut S,
    sink: &mut K,
) -> Exit
    ensures { RanOut result (source.new ≡ source.old) (sink.new ≡ sink.old) ⊎ Does (order_in (map string_bytes words.now)) (S.left source.old) (S.left source.new) (S.faults source.old) (S.faults source.new)
        (K.holds sink.old) (K.holds sink.new) (K.faults sink.old) (K.faults sink.new) (K.stalls sink.old) (K.stalls sink.new) result }
{
    let alloc = rt.alloc();
    match folder_named(alloc, words) {
        Ok(Some(folder)) => match FileDisk::at(rt, folder.as_str()) {
            Ok(mut disk) => rac(alloc, words, source, sink, &mut disk, &mut Nobody),
            Err(NoMemory) => Exit::without_run(alloc, End::NoMemory),
        },
        Ok(None) => match MemDisk::new(alloc, BLOCKS, LOG_BYTES, Vec::new(alloc)) {
            Ok(mut disk) => rac(alloc, words, source, sink, &mut disk, &mut Nobody),
            Err(NoMemory) => Exit::without_run(alloc, End::NoMemory),
        },
        Err(NoMemory) => Exit::without_run(alloc, End::NoMemory),
    }
}
