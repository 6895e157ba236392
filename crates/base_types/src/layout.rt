ghost use Rattle.std.specs.Prelude.{◌≡◌, ◌≤◌, ◌<◌, ◌+◌};
ghost use Rattle.base_types.specs.Layout.{IsLayout, head_block_of, segment_blocks, segment_end_of, total_of, undo_block_of};

use crate::names::{BlockNo, InstNo, UndoAt};

/// How the disk is laid out: the data blocks come first, then for each instance its undo segment, a
/// header and its undo blocks.
#[derive(Clone, Copy, Debug, PartialEq, Eq, PartialOrd, Ord)]
pub struct Layout {
    /// How many instances there are, 1 to 8.
    pub instances: u8,
    /// How many data blocks there are, 1 to 64.
    pub blocks: u16,
    /// How many undo records each segment has room for, a multiple of 4 from 8 to 64.
    pub undo: u16,
}

impl Layout {
    /// The block of the header of an instance's undo segment.
    pub fn head_block(&self, instance: InstNo) -> BlockNo
        requires layout { IsLayout self.now }
        requires in_range { instance < self.now.instances }
        ensures block { result ≡ head_block_of self.now instance }
        ensures past_data { self.now.blocks ≤ result }
        ensures on_disk { result < total_of self.now }
    {
        BlockNo(self.blocks + u16::from(instance.0) * self.segment_len())
    }

    /// The block where an undo record stands.
    pub fn undo_block(&self, at: UndoAt) -> BlockNo
        requires layout { IsLayout self.now }
        requires in_range { at.seg < self.now.instances }
        requires numbered { 1 ≤ at.seq }
        ensures block { result ≡ undo_block_of self.now at }
        ensures past_data { self.now.blocks ≤ result }
        ensures on_disk { result < total_of self.now }
    {
        let place = (at.seq - 1) % u64::from(self.undo);
        BlockNo(self.head_block(at.seg).0 + 1 + (place / 4) as u16)
    }

    /// How many blocks the disk has: the data blocks and all undo segments.
    pub fn total(&self) -> u16
        requires { IsLayout self.now }
        ensures blocks { result ≡ total_of self.now }
        ensures few { result ≤ 200 }
    {
        self.blocks + u16::from(self.instances) * self.segment_len()
    }

    // How many blocks an undo segment has, its header too.
    fn segment_len(&self) -> u16
        requires { IsLayout self.now }
        ensures blocks { result ≡ segment_blocks self.now }
        ensures few { result ≤ 17 }
    {
        1 + self.undo / 4
    }

    /// A law: an undo block lies past the header of its segment and before the next segment.
    pub fn undo_lies_in_its_segment(&self, at: UndoAt)
        requires layout { IsLayout self.now }
        requires numbered { 1 ≤ at.seq }
        ensures past_header { head_block_of self.now at.seg < undo_block_of self.now at }
        ensures before_next { undo_block_of self.now at < segment_end_of self.now at.seg }
    {}

    /// A law: the segment of an instance ends before that of any later instance begins.
    pub fn segments_lie_in_order(&self, earlier: InstNo, later: InstNo)
        requires { earlier < later }
        ensures { segment_end_of self.now earlier ≤ head_block_of self.now later }
    {}
}
