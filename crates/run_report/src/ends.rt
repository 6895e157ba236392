ghost use Rattle.std.specs.Prelude.{◌≡◌, ℕ, ◌==◌, ◌&&◌, ◌||◌, Bool, true, false, not, OnOk};
ghost use Rattle.run_report.specs.Ends.{is_asked, is_ended};
ghost use Rattle.run_report.specs.Found.{has_pair, kept};

use base_types::{InstNo, NoMemory};
use journal::Entry;
use script_text::Item;
use std::alloc::Global;
use std::collections::HashSet;

/// The ends of instances, each by its wave and the instance's number.
#[derive(Drop)]
pub(crate) struct Ends {
    ended: HashSet<(usize, u8)>,
    /// Those that found the instance not up.
    found_down: HashSet<(usize, u8)>,
}

impl Ends {
    pub(crate) fn new(alloc: Global) -> Ends
        ensures { (wave : ℕ) (down : Bool) (inst : ℕ) → kept result wave down inst ≡ false }
    {
        Ends {
            ended: HashSet::new(alloc),
            found_down: HashSet::new(alloc),
        }
    }

    /// Adds an end. After an `Err` it may be missing.
    pub(crate) fn add(&mut self, wave: usize, inst: InstNo, is_down: bool) -> Result<(), NoMemory>
        ensures { OnOk result ((w : ℕ) (down : Bool) (i : ℕ) → kept self.new w down i ≡
            (kept self.old w down i || ((inst == i) && not (down && not is_down) && (wave == w)))) }
    {
        self.ended.insert((wave, inst.0))?;
        if is_down {
            self.found_down.insert((wave, inst.0))?;
        }
        Ok(())
    }

    /// Whether an end answers a line of a wave.
    pub(crate) fn answer(&self, wave: usize, item: &Item) -> bool
        ensures { result ≡ is_ended (kept self.now) wave item.now }
    {
        match item {
            Item::CrashAfter { inst, .. } | Item::CrashMark { inst, .. } => {
                self.ended.contains(&(wave, inst.0))
            }
            Item::Start { inst } => self.found_down.contains(&(wave, inst.0)),
            _ => false,
        }
    }
}

/// Whether a line is to be answered.
pub(crate) fn is_asked(item: &Item) -> bool
    ensures { result ≡ is_asked item.now }
{
    !matches!(item, Item::Session { .. } | Item::Hold { .. })
}
