ghost use Rattle.std.specs.Prelude.{◌≡◌, ℕ, [], ◌∷◌, ◌++◌, length, nat_eq, slice_get, Some, OnOk, OnErr};
ghost use Rattle.std.specs.HashMap.{get};
ghost use Rattle.std.specs.Option.{option_copied, option_or};
ghost use Rattle.script_text.specs.Places.{place_in, place_of, item_in_wave, item_at_place};
ghost use Rattle.script_text.specs.Reading.{joined, item_in};

use crate::item::Item;
use crate::wave::Wave;
use base_types::NoMemory;
use std::alloc::Global;
use std::collections::HashMap;
use std::marker::Model;

/// For each line its wave and its place there.
type Places = HashMap<u32, (usize, usize)>;

/// The waves of a script in order. Contracts see them as their list.
#[derive(Debug, Drop)]
pub struct Waves {
    waves: Vec<Wave>,
    places: Places,
}

impl Model for Waves {
    ghost use Rattle.std.specs.Prelude.{◌≡◌, ℕ, List, nat_eq};
    ghost use Rattle.std.specs.HashMap.{get};
    ghost use Rattle.script_text.specs.declared.item.Item.{Item};
    ghost use Rattle.script_text.specs.Places.{place_of};

    ghost Value = { List (List (ℕ × Item)) };

    ghost view = { λ w. w.waves.items };

    ghost invariant = { λ w. (line : ℕ) → get nat_eq w.places line ≡ place_of line 0 w.waves.items };
}

/// Adds the places of a wave's lines.
fn note_places(places: &mut Places, wave: usize, lines: &[(u32, Item)]) -> Result<(), NoMemory>
    ensures { OnOk result ((line : ℕ) → get nat_eq places.new line ≡
        option_or (get nat_eq places.old line) (place_in line wave lines.now)) }
{
    for (at, line) in lines.iter().enumerate() {
        places.entry(line.0)?.or_insert((wave, at));
    }
    Ok(())
}

/// Adds a wave and the places of its lines. An `Err` may leave one without the other.
fn push_wave(waves: &mut Vec<Wave>, places: &mut Places, wave: Wave) -> Result<(), NoMemory>
    ensures waves { OnOk result (waves.new.items ≡ waves.old.items ++ wave ∷ []) }
    ensures places { OnOk result ((line : ℕ) → get nat_eq places.new line ≡
        option_or (get nat_eq places.old line) (place_in line (length waves.old.items) wave)) }
{
    note_places(places, waves.len(), wave.as_slice())?;
    waves.push(wave)?;
    Ok(())
}

/// What stands at a place of a wave.
fn item_in_wave(lines: &[(u32, Item)], at: usize) -> Option<&Item>
    ensures { option_copied result ≡ item_in_wave (Some lines.now) at }
{
    match lines.get(at) {
        Some(line) => Some(&line.1),
        None => None,
    }
}

/// What stands at a place of the waves.
fn item_at(waves: &[Wave], wave: usize, at: usize) -> Option<&Item>
    ensures { option_copied result ≡ item_in_wave (slice_get waves.now wave) at }
{
    match waves.get(wave) {
        Some(wave) => item_in_wave(wave.as_slice(), at),
        None => None,
    }
}

impl Waves {
    /// No wave. It takes no memory.
    pub fn new(alloc: Global) -> Waves
        ensures { result ≡ [] }
    {
        Waves {
            waves: Vec::new(alloc),
            places: HashMap::new(alloc),
        }
    }

    /// The waves.
    pub fn as_slice(&self) -> &[Wave]
        ensures { result.now ≡ self.now }
    {
        self.waves.as_slice()
    }

    /// How many waves there are.
    pub fn len(&self) -> usize
        ensures { result ≡ length self.now }
    {
        self.waves.len()
    }

    /// What the line of this number asks; `None` where no wave has it. No walk is taken for it.
    pub fn item(&self, line: u32) -> Option<&Item>
        ensures { option_copied result ≡ item_in (joined self.now) line }
    {
        match self.places.get(&line) {
            Some((wave, at)) => item_at(self.waves.as_slice(), *wave, *at),
            None => None,
        }
    }

    /// Adds a wave. An `Err` leaves none.
    pub fn push(&mut self, wave: Wave) -> Result<(), NoMemory>
        ensures ok { OnOk result (self.new ≡ self.old ++ wave ∷ []) }
        ensures err { OnErr result (self.new ≡ []) }
    {
        let pushed = push_wave(&mut self.waves, &mut self.places, wave);
        if pushed.is_err() {
            self.waves.clear();
            self.places.clear();
        }
        pushed
    }
}
