ghost use Rattle.std.specs.Prelude.{◌≡◌, ◌-◌, Some, [], length, IfOk};
ghost use Rattle.rac_io.specs.Counts.{Counts};
ghost use Rattle.rac_io.specs.Write.{FitsPiece, WriteAppends, IsStall};

use crate::calls::CallLog;
use crate::sink::{Put, Sink};
use base_types::NoMemory;
use std::alloc::Global;
use std::marker::Model;

/// A sink in memory, which holds so many bytes and no more, and some of whose writes fail. A write that
/// finds no room for a byte of its piece fails too.
#[derive(Drop)]
pub struct MemSink {
    bytes: Vec<u8>,
    room: usize,
    calls: CallLog,
}

impl Model for MemSink {
    ghost use Rattle.std.specs.Prelude.{◌≤◌, vec_len, vec_capacity};
    ghost use Rattle.rac_io.specs.Memory.{SinkView};

    ghost Value = { SinkView };

    ghost view = { λ it. record { holds = it.bytes.items; room = it.room; calls = it.calls } };

    ghost invariant = { λ it. (vec_len it.bytes ≤ it.room) × (it.room ≤ vec_capacity it.bytes) };
}

impl MemSink {
    /// How many bytes it can hold, for which it takes the memory at once, and the numbers, from 1, of the
    /// writes that fail.
    pub fn new(alloc: Global, room: usize, fails: Vec<u32>) -> Result<MemSink, NoMemory>
        ensures { IfOk result (λ it. it ≡ record { holds = []; room = room; calls = record { fails = fails.items; made = 0; faults = 0 } }) }
    {
        Ok(MemSink {
            bytes: Vec::with_capacity(alloc, room)?,
            room,
            calls: CallLog::new(fails),
        })
    }

    /// The bytes that it holds.
    pub fn bytes(&self) -> &[u8]
        ensures { result.now ≡ self.now.holds }
    {
        &self.bytes
    }
}

impl Sink for MemSink {
    ghost use Rattle.rac_io.specs.Memory.{next_is_to_fail, write_answer, after_write};

    ghost holds = { λ it. Some it.holds };

    ghost faults = { λ it. it.calls.faults };

    ghost stalls = { λ _. 0 };

    fn write(&mut self, bytes: &[u8]) -> Put
        ensures bound { FitsPiece result bytes.now }
        ensures bytes { WriteAppends (Some self.old.holds) (Some self.new.holds) result bytes.now }
        ensures faults { Counts (result ≡ Put.Failed) self.old.calls.faults self.new.calls.faults }
        ensures stalls { Counts (IsStall result bytes.now) 0 0 }
        ensures answer { result ≡ write_answer (next_is_to_fail self.old.calls) (self.old.room - length self.old.holds) bytes.now }
        ensures after { self.new ≡ after_write self.old bytes.now result }
    {
        let fails = self.calls.call();
        let room = self.room - self.bytes.len();
        if fails || (room == 0 && !bytes.is_empty()) {
            self.calls.fail();
            return Put::Failed;
        }
        let count = room.min(bytes.len());
        self.bytes.extend_from_slice(&bytes[..count]).unwrap();
        Put::Bytes(count)
    }

    fn faults(&self) -> u64 {
        self.calls.faults()
    }
}
