ghost use Rattle.std.specs.Prelude.{◌≡◌, ◌≤◌, ◌<◌, ◌-◌, ◌^◌};
ghost use Rattle.block_image.specs.Block.{IsBlock};
ghost use Rattle.block_image.specs.Changes.{applied};

use base_types::Scn;
use block_image::{DataBlock, RowChange};
use std::marker::Model;

/// A current image of a data block. It moves from frame to frame and is never copied: it has no `Clone`. Contracts see it
/// as its block.
#[derive(Debug, Drop)]
pub struct CurrentImage {
    block: DataBlock,
}

impl Model for CurrentImage {
    ghost use Rattle.block_image.specs.Block.{BlockContent};

    ghost Value = { BlockContent };

    ghost view = { λ it. it.block };
}

impl CurrentImage {
    /// The current image with this content.
    pub fn new(block: DataBlock) -> CurrentImage
        ensures { result ≡ block }
    {
        CurrentImage { block }
    }

    /// Its block, to be read.
    pub fn image(&self) -> &DataBlock
        ensures { result.now ≡ self.now }
    {
        &self.block
    }

    /// Its block, which is no current image any more.
    pub fn into_block(self) -> DataBlock
        ensures { result ≡ self }
    {
        self.block
    }

    /// Makes a change of a row, by the redo record with this SCN. The version goes up by one.
    pub fn apply(&mut self, change: &RowChange, scn: Scn)
        requires row { change.now.row < 8 }
        requires some_itl { 1 ≤ change.now.itl }
        requires itl { change.now.itl ≤ 4 }
        requires version { self.old.front.version < 2 ^ 64 - 1 }
        requires scn { 1 ≤ scn }
        requires block { IsBlock (applied self.old change.now scn) }
        ensures { self.new ≡ applied self.old change.now scn }
    {
        self.block.apply(change, scn);
    }
}
