ghost use Rattle.std.specs.Prelude.{◌≡◌, [], OnErr, OnOk};
ghost use Rattle.std.specs.List.{position};
ghost use Rattle.std.specs.Str.{bytes_eq};
ghost use Rattle.script_text.specs.GoodLines.{mark_of, up_to};
ghost use Rattle.savepoints.specs.Marks.{with_mark};

use base_types::NoMemory;
use script_text::Name;
use std::alloc::Global;
use std::marker::Model;

/// The savepoints of a session, each with how many deeds of its transaction stood as it was set. Contracts see the list
/// of their names and counts, the first set first.
#[derive(Debug, Drop)]
pub struct Marks {
    items: Vec<(Name, u32)>,
}

impl Model for Marks {
    ghost use Rattle.std.specs.Prelude.{List};
    ghost use Rattle.script_text.specs.GoodLines.{Mark};

    ghost Value = { List Mark };

    ghost view = { λ it. it.items.items };
}

impl Marks {
    /// No savepoints. It takes no memory.
    pub fn new(alloc: Global) -> Marks
        ensures { result ≡ [] }
    {
        Marks {
            items: Vec::new(alloc),
        }
    }

    /// Sets a savepoint, which is the last one then; another one of its name is gone.
    ///
    /// # Errors
    ///
    /// There is no memory for one more: all stay as they were.
    pub fn set(&mut self, name: Name, count: u32) -> Result<(), NoMemory>
        ensures ok { OnOk result (self.new ≡ with_mark name count self.old) }
        ensures err { OnErr result (self.new ≡ self.old) }
    {
        self.items.reserve(1)?;
        self.items.retain(|mark| name.as_str() != mark.0.as_str());
        self.items.push_reserved((name, count));
        Ok(())
    }

    /// How many deeds stood as the savepoint of this name was set; `None` where there is no such savepoint.
    pub fn count_of(&self, name: &Name) -> Option<u32>
        ensures { result ≡ mark_of name.now self.now }
    {
        let mark = self
            .items
            .iter()
            .find(|mark| name.as_str() == mark.0.as_str())?;
        Some(mark.1)
    }

    /// Goes back to the savepoint of this name, which stays, while all that were set later end: how many deeds stood as it
    /// was set. `None` where there is no such savepoint; then all stay.
    pub fn back_to(&mut self, name: &Name) -> Option<u32>
        ensures count { result ≡ mark_of name.now self.old }
        ensures marks { self.new ≡ up_to name.now self.old }
    {
        let place = self.place_of(name)?;
        self.items.truncate(place + 1);
        Some(self.items[place].1)
    }

    /// Ends all savepoints.
    pub fn clear(&mut self)
        ensures { self.new ≡ [] }
    {
        self.items.clear();
    }

    // The place of the savepoint of this name.
    fn place_of(&self, name: &Name) -> Option<usize>
        ensures { result ≡ position (λ mark. bytes_eq name.now mark.0) self.now }
    {
        self.items
            .iter()
            .position(|mark| name.as_str() == mark.0.as_str())
    }
}
