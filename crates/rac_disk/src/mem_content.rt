ghost use Rattle.std.specs.Prelude.{◌≡◌, ◌<◌, ◌≤◌, ◌++◌, length, take, replicate, nat_le, IfOk};
ghost use Rattle.rac_disk.specs.Memory.{empty_log, free_at, zero_entry};

use crate::mem_blocks::MemBlocks;
use crate::mem_log::MemLog;
use base_types::{BlockNo, InstNo, NoMemory};
use std::alloc::Global;
use std::marker::Model;

/// What a disk holds, in memory.
#[derive(Drop)]
pub struct MemContent {
    blocks: MemBlocks,
    logs: Vec<MemLog>,
    controls: [[u8; 32]; 8],
}

impl Model for MemContent {
    ghost use Rattle.rac_disk.specs.Content.{Content, IsDisk};

    ghost Value = { Content };

    ghost view = { λ it. record { blocks = it.blocks; logs = it.logs.items; controls = it.controls } };

    ghost invariant = { λ it. IsDisk (record { blocks = it.blocks; logs = it.logs.items; controls = it.controls }) };
}

impl MemContent {
    ghost use Rattle.rac_disk.specs.Content.{IsDisk, block_at, with_block, log_at, with_log, control_at, with_control};
    ghost use Rattle.rac_disk.specs.Memory.{new_content};

    /// Blocks of zeros, empty logs that have room for `log_bytes` bytes each, and control entries of zeros. It
    /// takes all its memory here. Blocks past the first 200 can't be reached.
    pub fn new(alloc: Global, blocks: u16, log_bytes: u64) -> Result<MemContent, NoMemory>
        requires { 200 ≤ blocks }
        ensures new { IfOk result (λ it. it ≡ new_content log_bytes) }
        ensures is_disk { IfOk result (λ it. IsDisk it) }
    {
        Ok(MemContent {
            blocks: MemBlocks::new(alloc, blocks)?,
            logs: empty_logs(alloc, log_bytes as usize)?,
            controls: empty_controls(),
        })
    }

    /// A block.
    pub fn block(&self, block: BlockNo) -> &[u8; 512]
        requires { block < 200 }
        ensures { result.now ≡ block_at self.now block }
    {
        self.blocks.read(block.0)
    }

    /// Puts bytes into a block.
    pub fn write_block(&mut self, block: BlockNo, bytes: &[u8; 512])
        requires { block < 200 }
        ensures after { self.new ≡ with_block self.old block bytes.now }
        ensures is_disk { IsDisk self.new }
    {
        self.blocks.write(block.0, bytes);
    }

    /// The bytes of a thread's log.
    pub fn log(&self, thread: InstNo) -> &[u8]
        requires { thread < 8 }
        ensures { result.now ≡ log_at self.now thread }
    {
        self.logs[usize::from(thread.0)].bytes()
    }

    /// How many bytes more a thread's log has room for.
    pub fn free(&self, thread: InstNo) -> usize
        requires { thread < 8 }
        ensures { result ≡ free_at self.now thread }
    {
        self.logs[usize::from(thread.0)].free()
    }

    /// Appends as many first bytes of a piece to a thread's log as there is room for; whether these are all.
    pub fn append(&mut self, thread: InstNo, piece: &[u8]) -> bool
        requires { thread < 8 }
        ensures whole { result ≡ nat_le (length piece.now) (free_at self.old thread) }
        ensures after { self.new ≡ with_log self.old thread (log_at self.old thread ++ take (free_at self.old thread) piece.now) }
        ensures is_disk { IsDisk self.new }
    {
        let log = &mut self.logs[usize::from(thread.0)];
        log.append(piece)
    }

    /// Keeps the first bytes of a thread's log, so many, where there are more.
    pub fn cut(&mut self, thread: InstNo, len: u64)
        requires { thread < 8 }
        ensures after { self.new ≡ with_log self.old thread (take len (log_at self.old thread)) }
        ensures is_disk { IsDisk self.new }
    {
        let log = &mut self.logs[usize::from(thread.0)];
        log.cut(len);
    }

    /// A thread's control entry.
    pub fn control(&self, thread: InstNo) -> &[u8; 32]
        requires { thread < 8 }
        ensures { result.now ≡ control_at self.now thread }
    {
        &self.controls[usize::from(thread.0)]
    }

    /// Puts bytes into a thread's control entry.
    pub fn write_control(&mut self, thread: InstNo, bytes: &[u8; 32])
        requires { thread < 8 }
        ensures after { self.new ≡ with_control self.old thread bytes.now }
        ensures is_disk { IsDisk self.new }
    {
        self.controls[usize::from(thread.0)] = *bytes;
    }
}

// A log for each thread.
fn empty_logs(alloc: Global, room: usize) -> Result<Vec<MemLog>, NoMemory>
    ensures { IfOk result (λ logs. logs.items ≡ replicate 8 (empty_log room)) }
{
    let mut logs = Vec::with_capacity(alloc, 8)?;
    for _thread in 0..8usize {
        logs.push(MemLog::new(alloc, room)?)?;
    }
    Ok(logs)
}

// A control entry for each thread.
fn empty_controls() -> [[u8; 32]; 8]
    ensures { result ≡ replicate 8 zero_entry }
{
    [[0; 32]; 8]
}
