ghost use Rattle.std.specs.Prelude.{◌≡◌, ◌<◌, ◌^◌, ℕ, Bool, IfOk, false, not, length, nat_eq, reverse};
ghost use Rattle.std.specs.HashMap.{get};
ghost use Rattle.std.specs.List.{position_from, slice_index_or};
ghost use Rattle.journal.specs.Past.{up_after};
ghost use Rattle.run_report.specs.Answers.{answers};
ghost use Rattle.run_report.specs.Ends.{answers_any, ended_in};
ghost use Rattle.run_report.specs.Found.{kept};

use crate::ends::Ends;
use crate::places::Places;
use crate::waves::{Cursor, Known, next_open};
use base_types::NoMemory;
use journal::Entry;
use script_text::Wave;
use std::alloc::Global;

/// Goes over the journal once for the ends in it.
pub(crate) fn find_ends(
    alloc: Global,
    waves: &[Wave],
    journal: &[Entry],
    places: &Places,
) -> Result<Ends, NoMemory>
    requires { (line : ℕ) → get nat_eq places.now line ≡ position_from (answers line) 0 journal.now }
    ensures { IfOk result (λ ends. (wave : ℕ) (down : Bool) (inst : ℕ) →
        kept ends wave down inst ≡ ended_in (answers_any (reverse journal.now)) waves.now (reverse journal.now) wave down inst) }
{
    let mut ends = Ends::new(alloc);
    let mut down = none_down();
    let mut cursor = Cursor { wave: 0, line: 0 };
    for (at, entry) in journal.iter().enumerate() {
        if let Entry::Ended { inst, .. } = entry {
            let known = Known {
                places,
                ends: &ends,
                at,
            };
            cursor = next_open(&known, waves, cursor);
            let wave = cursor.wave_of(waves.len());
            ends.add(wave, *inst, down[inst.0 as usize])?;
        }
        note_loss(&mut down, entry);
    }
    Ok(ends)
}

/// By its number whether an instance is down, where none is.
fn none_down() -> [bool; 256]
    ensures all { length result ≡ 256 }
    ensures none { (inst : ℕ) → slice_index_or result inst false ≡ false }
{
    [false; 256]
}

/// Notes by its number whether an instance is down after an entry.
fn note_loss(down: &mut [bool; 256], entry: &Entry)
    ensures { (i : ℕ) → i < 256 →
        slice_index_or down.new i false ≡ not (up_after i entry.now (not (slice_index_or down.old i false))) }
{
    match entry {
        Entry::Crashed { inst, .. } | Entry::Ended { inst, .. } => down[inst.0 as usize] = true,
        Entry::Up { inst, .. } => down[inst.0 as usize] = false,
        _ => {}
    }
}
