ghost use Rattle.std.specs.Prelude.{◌≡◌, [], ◌∷◌, length, reverse, slice_get, OnOk, OnErr};
ghost use Rattle.std.specs.Option.{option_copied};

use crate::cause::Cause;
use base_types::{InstNo, NoMemory, RowNo, Scn, Sequence, Value, Xid};
use std::alloc::Global;
use std::marker::Model;

/// Rows with their values, in the order of the rows.
pub type RowList = Sequence<(RowNo, Value)>;

/// One thing that happened in a run. A statement is named by its line in the script, as `stmt`, and a
/// control line by its line, as `line`.
#[derive(Debug, Drop)]
pub enum Entry {
    /// A session was opened on an instance.
    Opened {
        session: u16,
        inst: InstNo,
    },
    /// A statement started, or started again; it sees what was committed up to its snapshot.
    Started {
        stmt: u32,
        session: u16,
        snapshot: Scn,
    },
    /// A get or a scan was answered.
    Rows {
        stmt: u32,
        rows: RowList,
    },
    /// A row was changed: the answer of a put, an add or a del.
    Changed {
        stmt: u32,
        xid: Xid,
        row: RowNo,
        found: Value,
        new: Value,
    },
    /// A row was locked: the answer of a lock.
    Locked {
        stmt: u32,
        xid: Xid,
        row: RowNo,
    },
    /// The commit record of a transaction was made.
    Marked {
        stmt: u32,
        xid: Xid,
        commit_scn: Scn,
    },
    /// The commit record reached the disk whole.
    Committed {
        xid: Xid,
        commit_scn: Scn,
        inst: InstNo,
    },
    /// A commit was answered.
    Acked {
        stmt: u32,
        xid: Xid,
        commit_scn: Scn,
    },
    /// The newest changes of a transaction were taken back; so many of its changes and locks stand.
    Undone {
        xid: Xid,
        left: u32,
    },
    /// The end record of a whole rollback was made.
    Rolled {
        xid: Xid,
    },
    /// A statement with nothing else to tell was answered.
    Plain {
        stmt: u32,
    },
    /// A statement was refused.
    Refused {
        stmt: u32,
        cause: Cause,
    },
    /// An instance crashed, as a line asked.
    Crashed {
        line: u32,
        inst: InstNo,
    },
    /// An instance ended by a disk fault, or by a block that no run can have left (`bad`).
    Ended {
        inst: InstNo,
        bad: bool,
    },
    /// Recovery closed the threads of these instances; bit i is instance i.
    Recovered {
        insts: u8,
    },
    /// An instance that was started is up.
    Up {
        line: u32,
        inst: InstNo,
    },
    /// A bucket has its new master.
    Moved {
        line: u32,
    },
    /// An instance has moved its checkpoint.
    Checkpointed {
        line: u32,
    },
    /// A control line found nothing to do.
    NotDone {
        line: u32,
    },
}

/// What happened in a run. Contracts see it as its past: the list of its entries, the newest first.
#[derive(Debug, Drop)]
pub struct Journal {
    entries: Vec<Entry>,
}

impl Model for Journal {
    ghost use Rattle.std.specs.Prelude.{List, reverse};
    ghost use Rattle.journal.specs.declared.entry.Entry.{Entry};

    ghost Value = { List Entry };

    ghost view = { λ it. reverse it.entries.items };
}

impl Journal {
    /// The journal of a run in which nothing happened yet. It takes no memory.
    pub fn new(alloc: Global) -> Journal
        ensures { result ≡ [] }
    {
        Journal {
            entries: Vec::new(alloc),
        }
    }

    /// Adds the newest entry. An `Err` leaves the journal as it was.
    pub fn push(&mut self, entry: Entry) -> Result<(), NoMemory>
        ensures ok { OnOk result (self.new ≡ entry ∷ self.old) }
        ensures err { OnErr result (self.new ≡ self.old) }
    {
        self.entries.push(entry)?;
        Ok(())
    }

    pub fn len(&self) -> usize
        ensures { result ≡ length self.now }
    {
        self.entries.len()
    }

    /// The entry at a place, counted from 0 at the oldest; `None` where there is none.
    pub fn get(&self, at: usize) -> Option<&Entry>
        ensures { option_copied result ≡ slice_get (reverse self.now) at }
    {
        self.entries.get(at)
    }

    /// The entries in the order in which they were made.
    pub fn as_slice(&self) -> &[Entry]
        ensures { result.now ≡ reverse self.now }
    {
        self.entries.as_slice()
    }
}
