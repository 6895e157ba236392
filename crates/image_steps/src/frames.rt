//! Dirty images in no use, and what becomes of begun checkpoints as a block leaves its frame.

ghost use Rattle.std.specs.Prelude.{◌≡◌, map};
ghost use Rattle.image_steps.specs.Frames.{has_idle_dirty, is_idle_dirty, left_frame, without_block};

use base_types::BlockNo;
use inst_state::{Begun, Inst, Table};

fn is_idle_dirty(inst: &Inst, block: BlockNo) -> bool
    ensures { result ≡ is_idle_dirty inst.now block }
{
    inst.cache.is_dirty(block) && !inst.is_used(block)
}

/// Whether some dirty current image is in no use.
pub fn has_idle_dirty(inst: &Inst) -> bool
    ensures { result ≡ has_idle_dirty inst.now }
{
    (0..inst.cache.blocks()).any(|block| is_idle_dirty(inst, BlockNo(block)))
}

fn leave(begun: &mut Begun, block: BlockNo)
    ensures { begun.new ≡ without_block block begun.old }
{
    let place = usize::from(block.get());
    if place < 64 {
        begun.blocks[place] = false;
    }
}

fn leave_each(checkpoints: &mut [Begun], block: BlockNo)
    ensures { checkpoints.new ≡ map (without_block block) checkpoints.old }
{
    for begun in checkpoints.iter_mut() {
        leave(begun, block);
    }
}

#[tactic(auto, using(inst_state::proofs::Mapped::mapped_whole))]
fn leave_all(checkpoints: &mut Table<Begun>, block: BlockNo)
    ensures { checkpoints.new ≡ map (without_block block) checkpoints.old }
{
    leave_each(checkpoints.as_mut_slice(), block);
}

/// A data block was written or has left its frame: the checkpoints that have begun wait for it no more.
pub fn left_frame(inst: &mut Inst, block: BlockNo)
    ensures { inst.new ≡ left_frame inst.old block }
{
    leave_all(&mut inst.wave.checkpoints, block);
}
