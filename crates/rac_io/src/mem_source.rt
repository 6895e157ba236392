ghost use Rattle.std.specs.Prelude.{◌≡◌, Some, length};
ghost use Rattle.rac_io.specs.Counts.{Counts};
ghost use Rattle.rac_io.specs.Read.{FitsRoom, ReadTakes};

use crate::calls::CallLog;
use crate::source::{Got, Source};
use std::marker::Model;

/// A source of bytes in memory, some of whose reads fail.
#[derive(Drop)]
pub struct MemSource {
    bytes: Vec<u8>,
    at: usize,
    calls: CallLog,
}

impl Model for MemSource {
    ghost use Rattle.std.specs.Prelude.{◌≤◌, drop, vec_len};
    ghost use Rattle.rac_io.specs.Memory.{SourceView};

    ghost Value = { SourceView };

    ghost view = { λ it. record { left = drop it.at it.bytes.items; calls = it.calls } };

    ghost invariant = { λ it. it.at ≤ vec_len it.bytes };
}

impl MemSource {
    /// The bytes to give, and the numbers, from 1, of the reads that fail.
    pub fn new(bytes: Vec<u8>, fails: Vec<u32>) -> MemSource
        ensures { result ≡ record { left = bytes.items; calls = record { fails = fails.items; made = 0; faults = 0 } } }
    {
        MemSource {
            bytes,
            at: 0,
            calls: CallLog::new(fails),
        }
    }
}

impl Source for MemSource {
    ghost use Rattle.rac_io.specs.Memory.{next_is_to_fail, read_answer, after_read};

    ghost left = { λ it. Some it.left };

    ghost faults = { λ it. it.calls.faults };

    fn read(&mut self, out: &mut [u8]) -> Got
        ensures bound { FitsRoom result out.new }
        ensures bytes { ReadTakes (Some self.old.left) (Some self.new.left) result out.new }
        ensures faults { Counts (result ≡ Got.Failed) self.old.calls.faults self.new.calls.faults }
        ensures answer { result ≡ read_answer (next_is_to_fail self.old.calls) self.old.left (length out.old) }
        ensures after { self.new ≡ after_read self.old result }
    {
        if self.calls.call() {
            self.calls.fail();
            return Got::Failed;
        }
        let left = &self.bytes[self.at..];
        if left.is_empty() {
            return Got::End;
        }
        let count = left.len().min(out.len());
        out[..count].copy_from_slice(&left[..count]);
        self.at += count;
        Got::Bytes(count)
    }

    fn faults(&self) -> u64 {
        self.calls.faults()
    }
}
