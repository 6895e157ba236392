ghost use Rattle.std.specs.Prelude.{◌≡◌, ◌==◌, [], ◌∷◌, find, option_copied, OnErr, OnOk};

use base_types::{BlockNo, InstNo, NoMemory};
use std::alloc::Global;
use std::marker::Model;
use undo_image::{UndoBlock, UndoHeader};

/// The headers and undo blocks of other segments that were handed in for a statement.
#[derive(Debug, Drop)]
pub struct Handed {
    heads: Vec<UndoHeader>,
    blocks: Vec<UndoBlock>,
}

impl Model for Handed {
    ghost use Rattle.undo_segment.specs.Handed.{HandedState};

    ghost Value = { HandedState };

    ghost view = { λ it. record { heads = it.heads.items; blocks = it.blocks.items } };
}

impl Handed {
    /// Nothing handed in yet. It takes no memory.
    pub fn new(alloc: Global) -> Handed
        ensures { result ≡ record { heads = []; blocks = [] } }
    {
        Handed {
            heads: Vec::new(alloc),
            blocks: Vec::new(alloc),
        }
    }

    /// Adds a header, which is then the one that is found of its segment.
    pub fn add_head(&mut self, head: UndoHeader) -> Result<(), NoMemory>
        ensures ok { OnOk result (self.new ≡ record self.old { heads = head ∷ self.old.heads }) }
        ensures err { OnErr result (self.new ≡ self.old) }
    {
        self.heads.insert(0, head)?;
        Ok(())
    }

    /// Adds an undo block, which is then the one that is found of its number.
    pub fn add_block(&mut self, block: UndoBlock) -> Result<(), NoMemory>
        ensures ok { OnOk result (self.new ≡ record self.old { blocks = block ∷ self.old.blocks }) }
        ensures err { OnErr result (self.new ≡ self.old) }
    {
        self.blocks.insert(0, block)?;
        Ok(())
    }

    /// The last header of a segment that was handed in.
    pub fn head_of(&self, seg: InstNo) -> Option<&UndoHeader>
        ensures { option_copied result ≡ find (λ h. h.front.seg == seg) self.now.heads }
    {
        self.heads.iter().find(|head| head.seg().get() == seg.get())
    }

    /// The last undo block with a number that was handed in.
    pub fn block_of(&self, number: BlockNo) -> Option<&UndoBlock>
        ensures { option_copied result ≡ find (λ b. b.front.number == number) self.now.blocks }
    {
        self.blocks
            .iter()
            .find(|block| block.number().get() == number.get())
    }
}
