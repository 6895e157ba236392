ghost use Rattle.std.specs.Prelude.{◌≡◌, Some};
ghost use Rattle.base_types.specs.Texts.{xid_text};

use std::fmt;
use std::marker::Model;

/// A system change number: the place of a redo record or of a transaction's end in the order of all.
#[derive(Clone, Copy, Debug, PartialEq, Eq, PartialOrd, Ord)]
pub struct Scn(pub u64);

impl Model for Scn {
    ghost use Rattle.std.specs.Prelude.{ℕ};

    ghost Value = { ℕ };

    ghost view = { λ it. it.0 };

    ghost inverse = { λ n. record { 0 = n } };
}

impl Scn {
    /// The number itself.
    pub fn get(self) -> u64
        ensures { result ≡ self }
    {
        self.0
    }
}

/// The number of an instance, from 0 to 7; also of its redo thread and of its undo segment.
#[derive(Clone, Copy, Debug, PartialEq, Eq, PartialOrd, Ord)]
pub struct InstNo(pub u8);

impl Model for InstNo {
    ghost use Rattle.std.specs.Prelude.{ℕ};

    ghost Value = { ℕ };

    ghost view = { λ it. it.0 };

    ghost inverse = { λ n. record { 0 = n } };
}

impl InstNo {
    /// The number itself.
    pub fn get(self) -> u8
        ensures { result ≡ self }
    {
        self.0
    }
}

/// The number of a block on the disk.
#[derive(Clone, Copy, Debug, PartialEq, Eq, PartialOrd, Ord)]
pub struct BlockNo(pub u16);

impl Model for BlockNo {
    ghost use Rattle.std.specs.Prelude.{ℕ};

    ghost Value = { ℕ };

    ghost view = { λ it. it.0 };

    ghost inverse = { λ n. record { 0 = n } };
}

impl BlockNo {
    /// The number itself.
    pub fn get(self) -> u16
        ensures { result ≡ self }
    {
        self.0
    }
}

/// The number of a row, from 0 to 511. Row K stands in block K / 8.
#[derive(Clone, Copy, Debug, PartialEq, Eq, PartialOrd, Ord)]
pub struct RowNo(pub u16);

impl Model for RowNo {
    ghost use Rattle.std.specs.Prelude.{ℕ};

    ghost Value = { ℕ };

    ghost view = { λ it. it.0 };

    ghost inverse = { λ n. record { 0 = n } };
}

impl RowNo {
    /// The number itself.
    pub fn get(self) -> u16
        ensures { result ≡ self }
    {
        self.0
    }
}

/// A place in a redo thread, in bytes from the beginning of its log.
#[derive(Clone, Copy, Debug, PartialEq, Eq, PartialOrd, Ord)]
pub struct RedoAt(pub u64);

impl Model for RedoAt {
    ghost use Rattle.std.specs.Prelude.{ℕ};

    ghost Value = { ℕ };

    ghost view = { λ it. it.0 };

    ghost inverse = { λ n. record { 0 = n } };
}

impl RedoAt {
    /// The number itself.
    pub fn get(self) -> u64
        ensures { result ≡ self }
    {
        self.0
    }
}

/// The name of a transaction: its undo segment, its slot there (0 to 7), and how often that slot was
/// taken (from 1).
#[derive(Clone, Copy, Debug, PartialEq, Eq, PartialOrd, Ord)]
pub struct Xid {
    pub seg: InstNo,
    pub slot: u8,
    pub wrap: u32,
}

impl fmt::Display for Xid {
    ghost output = { λ x. Some (xid_text x) };

    fn fmt<W: fmt::Write>(&self, f: &mut fmt::Formatter<W>) -> fmt::Result {
        let seg = self.seg.0;
        let slot = self.slot;
        let wrap = self.wrap;
        write!(f, "{seg}.{slot}.{wrap}")
    }
}

/// The name of an undo record: its segment and its sequence number there, from 1.
#[derive(Clone, Copy, Debug, PartialEq, Eq, PartialOrd, Ord)]
pub struct UndoAt {
    pub seg: InstNo,
    pub seq: u64,
}
