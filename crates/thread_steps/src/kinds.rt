//! What the blocks of the disk are laid out for.

ghost use Rattle.std.specs.Prelude.{◌≡◌, ◌<◌, ◌≤◌};
ghost use Rattle.thread_steps.specs.Kinds.{kind_of, segment_part};

use base_types::{BlockNo, InstNo, Layout};

/// What a block is laid out for.
#[derive(Clone, Copy, Debug, PartialEq, Eq)]
pub(crate) enum BlockKind {
    Data,
    /// The header of an undo segment.
    Head(InstNo),
    /// An undo block of a segment.
    Undo(InstNo),
}

// What the block is that stands so many blocks behind the data blocks, where each segment has so many.
fn segment_part(at: u16, len: u16) -> BlockKind
    requires some { 1 ≤ len }
    requires few { at < 200 }
    ensures { result ≡ segment_part at len }
{
    let seg = InstNo((at / len) as u8);
    if at % len == 0 {
        BlockKind::Head(seg)
    } else {
        BlockKind::Undo(seg)
    }
}

/// What a block is laid out for.
pub(crate) fn kind_of(layout: &Layout, block: BlockNo) -> BlockKind
    requires { block < 200 }
    ensures { result ≡ kind_of layout.now block }
{
    if block.get() < layout.blocks {
        BlockKind::Data
    } else {
        segment_part(block.get() - layout.blocks, 1 + layout.undo / 4)
    }
}
