ghost use Rattle.std.specs.Prelude.{◌≡◌, ◌+◌, ◌/◌, ◌<◌, ◌≤◌, length, None, IfOk, OnErr};
ghost use Rattle.base_types.specs.Layout.{IsLayout, head_block_of};
ghost use Rattle.rac_disk.specs.Content.{block_at};
ghost use Rattle.undo_image.specs.Header.{HeaderContent, header_bytes};
ghost use Rattle.undo_image.specs.UndoBlock.{UndoContent, undo_bytes};
ghost use Rattle.undo_segment.specs.Faults.{AreFaultless, IsTame, head_fault, undo_fault};
ghost use Rattle.undo_segment.specs.Load.{HoldsRing, HoldsSegment, IsBadBlock, IsBadHead, IsBadOne, IsBadUndo, IsGoodHead, IsGoodUndo, Loads};
ghost use Rattle.undo_segment.specs.New.{clean_segment, empty_ring, new_segment};

use crate::error::LoadError;
use crate::faults::{head_fault, undo_fault};
use crate::segment::Segment;
use base_types::{BlockNo, InstNo, Layout, NoMemory};
use rac_disk::SharedDisk;
use std::alloc::Global;
use undo_image::{BadBlock, UndoBlock, UndoHeader};

impl Segment {
    /// The segment of an instance that no transaction ever used, all clean: who makes a new database writes its blocks.
    pub fn new(alloc: Global, layout: &Layout, seg: InstNo) -> Result<Segment, NoMemory>
        requires layout { IsLayout layout.now }
        requires in_range { seg < layout.now.instances }
        ensures { IfOk result (λ it. it ≡ new_segment layout.now seg) }
    {
        let number = head_number(layout, seg);
        let blocks = empty_ring(alloc, number, seg, layout.undo / 4)?;
        Segment::clean(alloc, layout, UndoHeader::empty(number, seg), blocks)
    }

    /// Reads the segment of an instance from the disk, the header first and then the undo blocks as they stand.
    pub fn load<D: SharedDisk>(
        alloc: Global,
        layout: &Layout,
        seg: InstNo,
        disk: &mut D,
    ) -> Result<Segment, LoadError>
        requires layout { IsLayout layout.now }
        requires in_range { seg < layout.now.instances }
        ensures clean { IfOk result (λ it. it ≡ clean_segment layout.now it.head it.blocks) }
        ensures seg { IfOk result (λ it. it.head.front.seg ≡ seg) }
        ensures tame { IfOk result IsTame }
        ensures disk { Loads HoldsSegment (IsBadBlock layout.now seg) result (D.state disk.old) (D.state disk.new) }
    {
        let number = head_number(layout, seg);
        let head = load_head(number, seg, disk)?;
        let blocks = load_ring(alloc, number, seg, layout.undo / 4, disk)?;
        Ok(Segment::clean(alloc, layout, head, blocks)?)
    }
}

// The block of a segment's header.
fn head_number(layout: &Layout, seg: InstNo) -> BlockNo
    requires layout { IsLayout layout.now }
    requires in_range { seg < layout.now.instances }
    ensures number { result ≡ head_block_of layout.now seg }
    ensures ring_fits { result + layout.now.undo / 4 < 200 }
{
    layout.head_block(seg)
}

// So many empty undo blocks behind a header.
fn empty_ring(
    alloc: Global,
    head: BlockNo,
    seg: InstNo,
    count: u16,
) -> Result<Vec<UndoBlock>, NoMemory>
    requires { head + count < 200 }
    ensures { IfOk result (λ blocks. blocks.items ≡ empty_ring head seg count) }
{
    let mut blocks = Vec::new(alloc);
    for k in 0..count {
        blocks.push(UndoBlock::empty(BlockNo(head.get() + 1 + k), seg))?;
    }
    Ok(blocks)
}

// Reads a header that is to have this number and to be of this segment.
fn load_head<D: SharedDisk>(
    number: BlockNo,
    seg: InstNo,
    disk: &mut D,
) -> Result<UndoHeader, LoadError>
    requires { number < 200 }
    ensures faultless { IfOk result (λ head. head_fault number seg head ≡ None) }
    ensures disk { Loads (λ head it. block_at it number ≡ header_bytes head) (IsBadHead number seg) result (D.state disk.old) (D.state disk.new) }
{
    let mut bytes = [0; 512];
    disk.read_block(number, &mut bytes)?;
    match head_in(number, seg, &bytes) {
        Ok(head) => Ok(head),
        Err(bad) => Err(LoadError::Bad {
            block: number,
            field: bad.field,
        }),
    }
}

// The header in the bytes of a block that is to have this number and to be of this segment.
fn head_in(number: BlockNo, seg: InstNo, bytes: &[u8; 512]) -> Result<UndoHeader, BadBlock>
    ensures ok { IfOk result (IsGoodHead number seg bytes.now) }
    ensures err { OnErr result ((head : HeaderContent) → IsGoodHead number seg bytes.now head → ⊥) }
{
    let head = UndoHeader::read(bytes)?;
    match head_fault(number, seg, &head) {
        None => Ok(head),
        Some(field) => Err(BadBlock { field }),
    }
}

// Reads so many undo blocks behind a header of this segment.
fn load_ring<D: SharedDisk>(
    alloc: Global,
    head: BlockNo,
    seg: InstNo,
    count: u16,
    disk: &mut D,
) -> Result<Vec<UndoBlock>, LoadError>
    requires { head + count < 200 }
    ensures count { IfOk result (λ blocks. length blocks.items ≡ count) }
    ensures faultless { IfOk result (λ blocks. AreFaultless head seg blocks.items) }
    ensures disk { Loads (λ blocks. HoldsRing head blocks.items) (IsBadUndo head seg count) result (D.state disk.old) (D.state disk.new) }
{
    let mut blocks = Vec::new(alloc);
    for k in 0..count {
        let block = load_undo(BlockNo(head.get() + 1 + k), seg, disk)?;
        blocks.push(block)?;
    }
    Ok(blocks)
}

// Reads an undo block that is to have this number and to be of this segment.
fn load_undo<D: SharedDisk>(
    number: BlockNo,
    seg: InstNo,
    disk: &mut D,
) -> Result<UndoBlock, LoadError>
    requires { number < 200 }
    ensures faultless { IfOk result (λ undo. undo_fault number seg undo ≡ None) }
    ensures disk { Loads (λ undo it. block_at it number ≡ undo_bytes undo) (IsBadOne number seg) result (D.state disk.old) (D.state disk.new) }
{
    let mut bytes = [0; 512];
    disk.read_block(number, &mut bytes)?;
    match undo_in(number, seg, &bytes) {
        Ok(undo) => Ok(undo),
        Err(bad) => Err(LoadError::Bad {
            block: number,
            field: bad.field,
        }),
    }
}

// The undo block in the bytes of a block that is to have this number and to be of this segment.
fn undo_in(number: BlockNo, seg: InstNo, bytes: &[u8; 512]) -> Result<UndoBlock, BadBlock>
    ensures ok { IfOk result (IsGoodUndo number seg bytes.now) }
    ensures err { OnErr result ((undo : UndoContent) → IsGoodUndo number seg bytes.now undo → ⊥) }
{
    let undo = UndoBlock::read(bytes)?;
    match undo_fault(number, seg, &undo) {
        None => Ok(undo),
        Some(field) => Err(BadBlock { field }),
    }
}
