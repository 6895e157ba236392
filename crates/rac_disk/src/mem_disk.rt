ghost use Rattle.std.specs.Prelude.{◌≡◌, ◌<◌, ◌≤◌, ◌-◌, ◌++◌, Some, length, take, drop, min, replicate, IfOk, IsErr, is_ok, is_none};
ghost use Rattle.rac_disk.specs.Calls.{ReadsBlock, WritesBlock, Appends, CutsLog, GivesLength, ReadsLog, ReadsControl, WritesControl};
ghost use Rattle.rac_disk.specs.Memory.{piece_of, empty_log, zero_entry};

use crate::mem_content::MemContent;
use crate::plan::{CallKind, CallLog, Planned};
use crate::shared_disk::{Failed, SharedDisk};
use base_types::{BlockNo, InstNo, NoMemory};
use std::alloc::Global;
use std::marker::Model;

/// A shared disk in memory, some of whose calls fail as planned. An append that isn't planned to fail and
/// has no room keeps the bytes that have room, and fails too.
#[derive(Drop)]
pub struct MemDisk {
    content: MemContent,
    calls: CallLog,
    full: u64,
}

impl Model for MemDisk {
    ghost use Rattle.rac_disk.specs.Content.{IsDisk};
    ghost use Rattle.rac_disk.specs.Memory.{MemState};

    ghost Value = { MemState };

    ghost view = { λ it. record { disk = it.content; calls = it.calls; full = it.full } };

    ghost invariant = { λ it. IsDisk it.content };
}

impl MemDisk {
    ghost use Rattle.rac_disk.specs.Memory.{new_disk};

    /// A disk of so many blocks, of zeros, with empty logs that have room for `log_bytes` bytes each and
    /// control entries of zeros. `plan` names the calls that fail: of several entries for one call the first
    /// counts. It takes all its memory here, and no call of it takes any. `NoMemory` where that is short.
    pub fn new(
        alloc: Global,
        blocks: u16,
        log_bytes: u64,
        plan: Vec<Planned>,
    ) -> Result<MemDisk, NoMemory>
        requires { 200 ≤ blocks }
        ensures { IfOk result (λ it. it ≡ new_disk log_bytes plan.items) }
    {
        Ok(MemDisk {
            content: MemContent::new(alloc, blocks, log_bytes)?,
            calls: CallLog::new(plan),
            full: 0,
        })
    }
}

impl SharedDisk for MemDisk {
    ghost use Rattle.rac_disk.specs.Content.{block_at, with_block, log_at, room_at, with_log, control_at, with_control};
    ghost use Rattle.rac_disk.specs.Memory.{state_of, planned, left_by_write, after_call, after_append, append_succeeds, free_at};

    ghost state = { state_of };

    fn read_block(&mut self, b: BlockNo, out: &mut [u8; 512]) -> Result<(), Failed>
        requires { b < 200 }
        ensures disk { ReadsBlock b out.new result (state_of self.old) (state_of self.new) }
        ensures answer { is_ok result ≡ is_none (planned self.old.calls CallKind.ReadBlock) }
        ensures err { IsErr result → out.new ≡ out.old }
        ensures after { self.new ≡ after_call self.old CallKind.ReadBlock self.old.disk }
    {
        if self.calls.count(CallKind::ReadBlock).is_some() {
            return Err(Failed);
        }
        *out = *self.content.block(b);
        Ok(())
    }

    fn write_block(&mut self, b: BlockNo, bytes: &[u8; 512]) -> Result<(), Failed>
        requires { b < 200 }
        ensures disk { WritesBlock b bytes.now result (state_of self.old) (state_of self.new) }
        ensures answer { is_ok result ≡ is_none (planned self.old.calls CallKind.WriteBlock) }
        ensures after { self.new ≡ after_call self.old CallKind.WriteBlock (left_by_write (planned self.old.calls CallKind.WriteBlock) self.old.disk (with_block self.old.disk b bytes.now)) }
    {
        let keep = self.calls.count(CallKind::WriteBlock);
        if keep == Some(0) {
            return Err(Failed);
        }
        self.content.write_block(b, bytes);
        answer(keep)
    }

    fn append(&mut self, t: InstNo, bytes: &[u8]) -> Result<(), Failed>
        requires { t < 8 }
        ensures disk { Appends t bytes.now result (state_of self.old) (state_of self.new) }
        ensures answer { is_ok result ≡ append_succeeds (planned self.old.calls CallKind.Append) (free_at self.old.disk t) bytes.now }
        ensures after { self.new ≡ after_append self.old t bytes.now }
    {
        let keep = self.calls.count(CallKind::Append);
        let whole = self.content.append(t, first(bytes, keep));
        if keep.is_some() {
            return Err(Failed);
        }
        if !whole {
            self.full = self.full.saturating_add(1);
            return Err(Failed);
        }
        Ok(())
    }

    fn cut_log(&mut self, t: InstNo, len: u64) -> Result<(), Failed>
        requires { t < 8 }
        ensures disk { CutsLog t len result (state_of self.old) (state_of self.new) }
        ensures answer { is_ok result ≡ is_none (planned self.old.calls CallKind.Cut) }
        ensures after { self.new ≡ after_call self.old CallKind.Cut (left_by_write (planned self.old.calls CallKind.Cut) self.old.disk (with_log self.old.disk t (take len (log_at self.old.disk t)))) }
    {
        let keep = self.calls.count(CallKind::Cut);
        if keep == Some(0) {
            return Err(Failed);
        }
        self.content.cut(t, len);
        answer(keep)
    }

    fn log_len(&mut self, t: InstNo) -> Result<u64, Failed>
        requires { t < 8 }
        ensures disk { GivesLength t result (state_of self.old) (state_of self.new) }
        ensures answer { is_ok result ≡ is_none (planned self.old.calls CallKind.LogLen) }
        ensures after { self.new ≡ after_call self.old CallKind.LogLen self.old.disk }
    {
        if self.calls.count(CallKind::LogLen).is_some() {
            return Err(Failed);
        }
        Ok(self.content.log(t).len() as u64)
    }

    fn read_log(&mut self, t: InstNo, at: u64, out: &mut [u8]) -> Result<usize, Failed>
        requires { t < 8 }
        ensures disk { ReadsLog t at out.new result (state_of self.old) (state_of self.new) }
        ensures answer { is_ok result ≡ is_none (planned self.old.calls CallKind.ReadLog) }
        ensures behind { IfOk result (λ count. drop count out.new ≡ drop count out.old) }
        ensures err { IsErr result → out.new ≡ out.old }
        ensures after { self.new ≡ after_call self.old CallKind.ReadLog self.old.disk }
    {
        if self.calls.count(CallKind::ReadLog).is_some() {
            return Err(Failed);
        }
        let log = self.content.log(t);
        let start = log.len().min(at as usize);
        Ok(copy_front(&log[start..], out))
    }

    fn read_control(&mut self, t: InstNo, out: &mut [u8; 32]) -> Result<(), Failed>
        requires { t < 8 }
        ensures disk { ReadsControl t out.new result (state_of self.old) (state_of self.new) }
        ensures answer { is_ok result ≡ is_none (planned self.old.calls CallKind.ReadControl) }
        ensures err { IsErr result → out.new ≡ out.old }
        ensures after { self.new ≡ after_call self.old CallKind.ReadControl self.old.disk }
    {
        if self.calls.count(CallKind::ReadControl).is_some() {
            return Err(Failed);
        }
        *out = *self.content.control(t);
        Ok(())
    }

    fn write_control(&mut self, t: InstNo, bytes: &[u8; 32]) -> Result<(), Failed>
        requires { t < 8 }
        ensures disk { WritesControl t bytes.now result (state_of self.old) (state_of self.new) }
        ensures answer { is_ok result ≡ is_none (planned self.old.calls CallKind.WriteControl) }
        ensures after { self.new ≡ after_call self.old CallKind.WriteControl (left_by_write (planned self.old.calls CallKind.WriteControl) self.old.disk (with_control self.old.disk t bytes.now)) }
    {
        let keep = self.calls.count(CallKind::WriteControl);
        if keep == Some(0) {
            return Err(Failed);
        }
        self.content.write_control(t, bytes);
        answer(keep)
    }

    fn full(&self) -> u64 {
        self.full
    }

    fn faults(&self) -> u64 {
        self.calls.faults()
    }
}

// A call that is planned to fail fails.
fn answer(keep: Option<u32>) -> Result<(), Failed>
    ensures { is_ok result ≡ is_none keep }
{
    match keep {
        Some(_) => Err(Failed),
        None => Ok(()),
    }
}

// The bytes that an append is to keep.
fn first(bytes: &[u8], keep: Option<u32>) -> &[u8]
    ensures { result.now ≡ piece_of keep bytes.now }
{
    match keep {
        Some(keep) => &bytes[..bytes.len().min(keep as usize)],
        None => bytes,
    }
}

// Copies as many first bytes of `bytes` to the front of `out` as fit; how many these are.
fn copy_front(bytes: &[u8], out: &mut [u8]) -> usize
    ensures count { result ≡ min (length bytes.now) (length out.old) }
    ensures copied { out.new ≡ take result bytes.now ++ drop result out.old }
{
    let count = bytes.len().min(out.len());
    out[..count].copy_from_slice(&bytes[..count]);
    count
}
