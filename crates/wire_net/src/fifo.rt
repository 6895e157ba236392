ghost use Rattle.std.specs.Prelude.{◌≡◌, ◌==◌, [], ◌∷◌, ◌++◌, OnOk, OnErr, drop, length, slice_get};
ghost use Rattle.std.specs.Option.{option_copied};

use base_types::NoMemory;
use std::alloc::Global;
use std::collections::VecDeque;
use std::marker::Model;

/// What waits in the order in which it came. Contracts see it as its list.
#[derive(Debug, Drop)]
pub struct Fifo<T: Drop> {
    items: VecDeque<T>,
}

impl<T: Drop> Model for Fifo<T> {
    ghost use Rattle.std.specs.Prelude.{List};
    ghost use Rattle.std.specs.Coded.{coded_list};

    ghost Value = { List T };

    ghost coded = { coded_list T.code };

    ghost view = { λ it. it.items.items };
}

impl<T: Drop> Fifo<T> {
    /// The empty one. It takes no memory.
    pub fn new(alloc: Global) -> Fifo<T>
        ensures { result ≡ [] }
    {
        Fifo {
            items: VecDeque::new(alloc),
        }
    }

    /// Adds an item behind all others. An `Err` leaves the items as they were.
    pub fn push(&mut self, item: T) -> Result<(), NoMemory>
        ensures ok { OnOk result (self.new ≡ self.old ++ item ∷ []) }
        ensures err { OnErr result (self.new ≡ self.old) }
    {
        self.items.push_back(item)?;
        Ok(())
    }

    /// The item that came first; `None` where there is none.
    pub fn first(&self) -> Option<&T>
        ensures { option_copied result ≡ slice_get self.now 0 }
    {
        self.items.front()
    }

    /// Takes the item away that came first; `None` where there is none.
    pub fn take(&mut self) -> Option<T>
        ensures first { result ≡ slice_get self.old 0 }
        ensures rest { self.new ≡ drop 1 self.old }
    {
        self.items.pop_front()
    }

    pub fn len(&self) -> usize
        ensures { result ≡ length self.now }
    {
        self.items.len()
    }

    pub fn is_empty(&self) -> bool
        ensures { result ≡ length self.now == 0 }
    {
        self.items.len() == 0
    }

    /// Drops all items.
    pub fn clear(&mut self)
        ensures { self.new ≡ [] }
    {
        self.items.clear();
    }
}
