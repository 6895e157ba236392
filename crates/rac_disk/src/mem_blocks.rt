ghost use Rattle.std.specs.Prelude.{◌≡◌, ◌<◌, ◌≤◌, [], length, replicate, slice_index_or, slice_set, IfOk};
ghost use Rattle.rac_disk.specs.Memory.{zero_block};

use base_types::NoMemory;
use std::alloc::Global;
use std::marker::Model;

/// The blocks of a disk in memory. Those past the first 200 can't be reached.
#[derive(Drop)]
pub struct MemBlocks {
    blocks: Vec<[u8; 512]>,
}

impl Model for MemBlocks {
    ghost use Rattle.std.specs.Prelude.{◌≤◌, List, ℕ, take, vec_len};

    ghost Value = { List (List ℕ) };

    ghost view = { λ it. take 200 it.blocks.items };

    ghost invariant = { λ it. 200 ≤ vec_len it.blocks };
}

impl MemBlocks {
    /// Blocks of zeros.
    pub fn new(alloc: Global, count: u16) -> Result<MemBlocks, NoMemory>
        requires { 200 ≤ count }
        ensures { IfOk result (λ it. it ≡ replicate 200 zero_block) }
    {
        let mut blocks = Vec::with_capacity(alloc, usize::from(count))?;
        for _made in 0..count {
            blocks.push([0; 512])?;
        }
        Ok(MemBlocks { blocks })
    }

    /// A block.
    pub fn read(&self, block: u16) -> &[u8; 512]
        requires { block < 200 }
        ensures { result.now ≡ slice_index_or self.now block [] }
    {
        &self.blocks[usize::from(block)]
    }

    /// Puts bytes into a block.
    pub fn write(&mut self, block: u16, bytes: &[u8; 512])
        requires { block < 200 }
        ensures { self.new ≡ slice_set self.old block bytes.now }
    {
        self.blocks[usize::from(block)] = *bytes;
    }
}
