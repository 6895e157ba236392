ghost use Rattle.std.specs.Prelude.{◌≡◌, ◌==◌, ◌<◌, ◌↔◌, ◌∷◌, ◌++◌, [], IfSome, IsSome, OnErr, OnOk, OnSome, length, slice_get, slice_index_or};
ghost use Rattle.std.specs.Option.{option_copied, option_copied_mut};

use base_types::NoMemory;
use std::alloc::Global;
use std::marker::Model;

/// Items by their places, each of which can change. Contracts see it as its list.
#[derive(Debug, Drop)]
pub struct Table<T: Drop> {
    items: Vec<T>,
}

impl<T: Drop> Model for Table<T> {
    ghost use Rattle.std.specs.Prelude.{List};
    ghost use Rattle.std.specs.Coded.{coded_list};

    ghost Value = { List T };

    ghost coded = { coded_list T.code };

    ghost view = { λ it. it.items.items };
}

impl<T: Drop> Table<T> {
    ghost use Rattle.std.specs.Borrow.{sem};
    ghost use Rattle.inst_state.specs.Lent.{lends_all, lends_item};

    /// The empty one. It takes no memory.
    pub fn new(alloc: Global) -> Table<T>
        ensures { result ≡ [] }
    {
        Table {
            items: Vec::new(alloc),
        }
    }

    /// The items of a `Vec`. It takes no memory.
    pub fn from_vec(items: Vec<T>) -> Table<T>
        ensures { result ≡ items.items }
    {
        Table { items }
    }

    pub fn as_slice(&self) -> &[T]
        ensures { result.now ≡ self.now }
    {
        self.items.as_slice()
    }

    pub fn len(&self) -> usize
        ensures { result ≡ length self.now }
    {
        self.items.len()
    }

    pub fn is_empty(&self) -> bool
        ensures { result ≡ length self.now == 0 }
    {
        self.items.is_empty()
    }

    /// The item at a place, counted from 0; `None` where there is none.
    pub fn get(&self, at: usize) -> Option<&T>
        ensures value { option_copied result ≡ slice_get self.now at }
        ensures within { OnSome result (at < length self.now) }
    {
        self.items.get(at)
    }

    /// The item at a place, to be changed; `None` where there is none.
    pub fn get_mut(&mut self, at: usize) -> Option<&mut T>
        ensures* writes_back { sem 𝓛 (lends_item T.row self.entry at result) }
        ensures variant { IsSome result ↔ (at < length self.old) }
        ensures item { IfSome result (λ x. x.now ≡ slice_index_or self.old at x.now) }
        ensures value { option_copied_mut result ≡ slice_get self.old at }
    {
        self.items.get_mut(at)
    }

    /// All items, to be changed.
    pub fn as_mut_slice(&mut self) -> &mut [T]
        ensures* writes_back { sem 𝓛 (lends_all T.row self.entry result) }
        ensures value { result.now ≡ self.old }
    {
        self.items.as_mut_slice()
    }

    /// Adds an item at the end. An `Err` leaves the items as they were.
    pub fn push(&mut self, item: T) -> Result<(), NoMemory>
        ensures ok { OnOk result (self.new ≡ self.old ++ item ∷ []) }
        ensures err { OnErr result (self.new ≡ self.old) }
    {
        self.items.push(item)?;
        Ok(())
    }

    /// Drops all items.
    pub fn clear(&mut self)
        ensures { self.new ≡ [] }
    {
        self.items.clear();
    }
}
