ghost use Rattle.std.specs.Prelude.{◌≡◌, ℕ, IfOk, nat_eq};
ghost use Rattle.std.specs.HashMap.{get};
ghost use Rattle.std.specs.List.{position_from};
ghost use Rattle.run_report.specs.Answers.{answers};

use crate::answer::answered_line;
use base_types::NoMemory;
use journal::Entry;
use std::alloc::Global;
use std::collections::HashMap;

/// For each line where the first entry that answers it stands in the journal.
pub(crate) type Places = HashMap<u32, usize>;

/// Goes over the journal once.
pub(crate) fn first_answers(alloc: Global, journal: &[Entry]) -> Result<Places, NoMemory>
    ensures { IfOk result (λ places. (line : ℕ) → get nat_eq places line ≡ position_from (answers line) 0 journal.now) }
{
    let mut places = HashMap::new(alloc);
    for (at, entry) in journal.iter().enumerate() {
        if let Some(line) = answered_line(entry) {
            places.entry(line)?.or_insert(at);
        }
    }
    Ok(places)
}
