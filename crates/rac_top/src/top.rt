ghost use Rattle.std.specs.Prelude.{◌≡◌, [], ◌⊎◌, map, string_bytes, true, false};
ghost use Rattle.cli_words.specs.Orders.{order_in};
ghost use Rattle.rac_top.specs.Audits.{Audits};
ghost use Rattle.rac_top.specs.Calls.{ByOrder};
ghost use Rattle.rac_top.specs.Ends.{is_told};
ghost use Rattle.rac_top.specs.Runs.{Runs};

use crate::audit_command::audit;
use crate::exit::{End, Exit};
use crate::run_command::run;
use cli_words::{Order, WordsError, read_words};
use rac_disk::SharedDisk;
use rac_io::{Sink, Source};
use std::alloc::Global;
use world_machine::Observer;

/// Does what the words ask, a run or an audit. The words are those after the program's name; the folder that they name
/// is the caller's to open. A load isn't made yet: its words are wrong. The observer looks on at a run.
pub fn rac<S: Source, K: Sink, D: SharedDisk, O: Observer>(
    alloc: Global,
    words: &[String],
    source: &mut S,
    sink: &mut K,
    disk: &mut D,
    observer: &mut O,
) -> Exit
    // Words that ask a run make a run, and words that ask an audit make an audit. Other words are wrong.
    ensures does { ByOrder (order_in (map string_bytes words.now))
        (λ options. Runs options (S.left source.old) (S.left source.new) (S.faults source.old) (S.faults source.new)
        (K.holds sink.old) (K.holds sink.new) (K.faults sink.old) (K.faults sink.new) (K.stalls sink.old) (K.stalls sink.new)
        (D.state disk.old) (D.state disk.new) result)
        (Audits (K.holds sink.old) (K.holds sink.new) (K.faults sink.old) (K.faults sink.new) (K.stalls sink.old) (K.stalls sink.new)
        (D.state disk.old) (D.state disk.new) result)
        ((result.end ≡ End.WrongWords) ⊎ (result.end ≡ End.NoMemory)) }
    // An audit reads nothing of the source; wrong words touch nothing.
    ensures unread { ByOrder (order_in (map string_bytes words.now)) (λ options. Unit {0}) (source.new ≡ source.old)
        ((source.new ≡ source.old) × (disk.new ≡ disk.old)) }
    // Where nothing was to be told, nothing was written.
    ensures silent { is_told result.end ≡ false → (result.journal ≡ []) × (result.book ≡ []) × (sink.new ≡ sink.old) }
{
    match read_words(alloc, words) {
        Ok(Order::Run { options, folder: _ }) => run(alloc, options, source, sink, disk, observer),
        Ok(Order::Audit { folder: _ }) => audit(alloc, sink, disk),
        Ok(Order::Load { .. }) => Exit::without_run(alloc, End::WrongWords),
        Err(WordsError::Usage) => Exit::without_run(alloc, End::WrongWords),
        Err(WordsError::NoMemory) => Exit::without_run(alloc, End::NoMemory),
    }
}
