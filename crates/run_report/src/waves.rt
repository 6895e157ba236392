ghost use Rattle.std.specs.Prelude.{◌-◌, min, ◌≡◌, ◌<◌, ◌≤◌, ℕ, [], false, true, length, nat_eq, take};
ghost use Rattle.std.specs.HashMap.{get};
ghost use Rattle.std.specs.List.{list_all, slice_index_or};
ghost use Rattle.run_report.specs.Found.{AreSettled, is_settled, kept};

use crate::ends::{Ends, is_asked};
use crate::places::Places;
use script_text::{Item, Wave};

/// A line of a script, by its wave and its place in it, both counted from 0.
#[derive(Clone, Copy)]
pub(crate) struct Cursor {
    pub(crate) wave: usize,
    pub(crate) line: usize,
}

impl Cursor {
    /// The number of its wave or, past the last of so many waves, of that one.
    pub(crate) fn wave_of(self, waves: usize) -> usize
        ensures { result ≡ min self.wave (waves - 1) }
    {
        self.wave.min(waves.saturating_sub(1))
    }
}

/// What is known before a place of the journal.
#[derive(Clone, Copy)]
pub(crate) struct Known<'a> {
    pub(crate) places: &'a Places,
    pub(crate) ends: &'a Ends,
    pub(crate) at: usize,
}

/// The first line from a cursor on that isn't settled; the end of the waves where there is none.
pub(crate) fn next_open(known: &Known<'_>, waves: &[Wave], from: Cursor) -> Cursor
    requires { AreSettled (is_settled (get nat_eq known.now.places.now) known.now.at (kept known.now.ends.now)) waves.now from.wave from.line }
    ensures settled { AreSettled (is_settled (get nat_eq known.now.places.now) known.now.at (kept known.now.ends.now)) waves.now result.wave result.line }
    ensures unsettled { result.wave < length waves.now → list_all (is_settled (get nat_eq known.now.places.now) known.now.at (kept known.now.ends.now) result.wave) (slice_index_or waves.now result.wave []) ≡ false }
{
    let mut line = from.line;
    for wave in from.wave..waves.len() {
        let lines = waves[wave].as_slice();
        line = first_open(known, wave, lines, line);
        if line < lines.len() {
            return Cursor { wave, line };
        }
        line = 0;
    }
    Cursor {
        wave: waves.len(),
        line: 0,
    }
}

/// The place in a wave of its first line, from a place on, that isn't settled; else how many it has.
fn first_open(known: &Known<'_>, wave: usize, lines: &[(u32, Item)], from: usize) -> usize
    requires { list_all (is_settled (get nat_eq known.now.places.now) known.now.at (kept known.now.ends.now) wave) (take from lines.now) ≡ true }
    ensures settled { list_all (is_settled (get nat_eq known.now.places.now) known.now.at (kept known.now.ends.now) wave) (take result lines.now) ≡ true }
    ensures unsettled { result < length lines.now → list_all (is_settled (get nat_eq known.now.places.now) known.now.at (kept known.now.ends.now) wave) lines.now ≡ false }
{
    for at in from..lines.len() {
        if !is_settled(known, wave, &lines[at]) {
            return at;
        }
    }
    lines.len()
}

fn is_settled(known: &Known<'_>, wave: usize, line: &(u32, Item)) -> bool
    ensures { result ≡ is_settled (get nat_eq known.now.places.now) known.now.at (kept known.now.ends.now) wave line.now }
{
    let (number, item) = line;
    if !is_asked(item) {
        return true;
    }
    match known.places.get(number) {
        Some(place) => *place < known.at,
        None => known.ends.answer(wave, item),
    }
}
