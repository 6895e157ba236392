ghost use Rattle.std.specs.Prelude.{◌≡◌, ◌-◌, ◌+◌, ◌≤◌, ◌<◌, ◌++◌, [], length, take, drop, min, IfOk, nat_le};

use base_types::NoMemory;
use std::alloc::Global;
use std::marker::Model;

/// A log in memory, which has taken the memory for all that it has room for.
#[derive(Drop)]
pub struct MemLog {
    bytes: Vec<u8>,
    room: usize,
}

impl Model for MemLog {
    ghost use Rattle.std.specs.Prelude.{◌≤◌, vec_len, vec_capacity};
    ghost use Rattle.rac_disk.specs.Content.{LogState};

    ghost Value = { LogState };

    ghost view = { λ it. record { bytes = it.bytes.items; room = it.room } };

    ghost invariant = { λ it. (vec_len it.bytes ≤ it.room) × (it.room ≤ vec_capacity it.bytes) };
}

impl MemLog {
    /// An empty log with room for so many bytes.
    pub fn new(alloc: Global, room: usize) -> Result<MemLog, NoMemory>
        ensures { IfOk result (λ it. it ≡ record { bytes = []; room = room }) }
    {
        Ok(MemLog {
            bytes: Vec::with_capacity(alloc, room)?,
            room,
        })
    }

    /// Its bytes.
    pub fn bytes(&self) -> &[u8]
        ensures { result.now ≡ self.now.bytes }
    {
        self.bytes.as_slice()
    }

    /// How many bytes more it has room for.
    pub fn free(&self) -> usize
        ensures { result ≡ self.now.room - length self.now.bytes }
    {
        self.room - self.bytes.len()
    }

    /// Appends as many first bytes of a piece as there is room for; whether these are all.
    pub fn append(&mut self, piece: &[u8]) -> bool
        ensures whole { result ≡ nat_le (length piece.now) (self.old.room - length self.old.bytes) }
        ensures after { self.new ≡ record self.old { bytes = self.old.bytes ++ take (self.old.room - length self.old.bytes) piece.now } }
        ensures within { length self.new.bytes ≤ self.new.room }
    {
        let free = self.free();
        let count = free.min(piece.len());
        self.bytes.extend_from_slice(&piece[..count]).unwrap();
        piece.len() <= free
    }

    /// Keeps the first bytes, so many, where there are more.
    pub fn cut(&mut self, len: u64)
        ensures after { self.new ≡ record self.old { bytes = take len self.old.bytes } }
        ensures within { length self.new.bytes ≤ self.new.room }
    {
        self.bytes.truncate(len as usize);
    }
}
