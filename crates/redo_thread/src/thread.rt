ghost use Rattle.std.specs.Prelude.{◌≡◌, ◌^◌, ◌+◌, ◌<◌, ◌≤◌, [], length, IfOk, OnErr, OnOk};
ghost use Rattle.redo_record.specs.Redo.{IsRedo, length_of};
ghost use Rattle.redo_thread.specs.Thread.{Forces, HasRoom, appended, end_of};

use base_types::{InstNo, NoMemory, RedoAt, Scn};
use rac_disk::{Failed, SharedDisk};
use redo_record::write;
use redo_types::Redo;
use std::alloc::Global;
use std::marker::Model;

const ROOM: usize = 65_536;

/// The redo buffer is full: the record has no room in it.
#[derive(Clone, Copy, Debug, PartialEq, Eq)]
pub struct BufferFull;

/// The redo thread of an instance: a buffer of 65,536 bytes with the records that aren't on the disk
/// yet. Contracts see it as a `ThreadState`.
#[derive(Debug, Drop)]
pub struct RedoThread {
    number: InstNo,
    durable: u64,
    waiting: Vec<u8>,
    durable_scn: Scn,
    newest_scn: Scn,
}

impl Model for RedoThread {
    ghost use Rattle.std.specs.Prelude.{◌≤◌, vec_capacity};
    ghost use Rattle.redo_thread.specs.Thread.{IsThread, ThreadState};

    ghost Value = { ThreadState };

    ghost view = { λ it. record { number = it.number; durable = it.durable; waiting = it.waiting.items; durable_scn = it.durable_scn; newest_scn = it.newest_scn } };

    ghost invariant = { λ it. IsThread (record { number = it.number; durable = it.durable; waiting = it.waiting.items; durable_scn = it.durable_scn; newest_scn = it.newest_scn }) × (65536 ≤ vec_capacity it.waiting) };
}

impl RedoThread {
    /// The thread of an instance whose log ends at a place. It takes all memory that the thread needs.
    pub fn new(alloc: Global, number: InstNo, at: RedoAt) -> Result<RedoThread, NoMemory>
        requires { number < 8 }
        ensures { IfOk result (λ it. it ≡ record { number = number; durable = at; waiting = []; durable_scn = 0; newest_scn = 0 }) }
    {
        Ok(RedoThread {
            number,
            durable: at.0,
            waiting: Vec::with_capacity(alloc, ROOM)?,
            durable_scn: Scn(0),
            newest_scn: Scn(0),
        })
    }

    /// Adds a record, and gives the place where it begins. `Err` comes exactly where it has no room.
    pub fn append(&mut self, redo: &Redo) -> Result<RedoAt, BufferFull>
        requires is_redo { IsRedo redo.now }
        requires place { end_of self.old + length_of redo.now.kind < 2 ^ 64 }
        ensures ok { OnOk result (HasRoom self.old redo.now × (self.new ≡ appended self.old redo.now)) }
        ensures at { IfOk result (λ at. at ≡ end_of self.old) }
        ensures err { OnErr result ((HasRoom self.old redo.now → ⊥) × (self.new ≡ self.old)) }
    {
        let mut bytes = [0; 236];
        let len = usize::from(write(redo, &mut bytes));
        if ROOM - self.waiting.len() < len {
            return Err(BufferFull);
        }
        let at = self.end();
        self.waiting.extend_from_slice(&bytes[..len]).unwrap();
        self.newest_scn = redo.scn;
        Ok(at)
    }

    /// Appends all that waits to the log on the disk. An `Err` leaves the thread as it was, and on the
    /// disk some first bytes of what waits: none, a part or all.
    pub fn force<D: SharedDisk>(&mut self, disk: &mut D) -> Result<(), Failed>
        ensures { Forces result self.old self.new (D.state disk.old) (D.state disk.new) }
    {
        disk.append(self.number, &self.waiting)?;
        self.durable = self.end().0;
        self.waiting.clear();
        self.durable_scn = self.newest_scn;
        Ok(())
    }

    /// The bytes of the records that aren't on the disk yet.
    pub fn waiting(&self) -> &[u8]
        ensures bytes { result.now ≡ self.now.waiting }
        ensures few { length self.now.waiting ≤ 65536 }
    {
        self.waiting.as_slice()
    }

    /// The place up to which the redo is on the disk.
    pub fn durable(&self) -> RedoAt
        ensures { result ≡ self.now.durable }
    {
        RedoAt(self.durable)
    }

    /// The place behind all records.
    pub fn end(&self) -> RedoAt
        ensures { result ≡ end_of self.now }
    {
        RedoAt(self.durable + self.waiting.len() as u64)
    }

    /// The SCN of the newest record that is on the disk, 0 without one.
    pub fn durable_scn(&self) -> Scn
        ensures { result ≡ self.now.durable_scn }
    {
        self.durable_scn
    }
}
