ghost use Rattle.std.specs.Prelude.{◌≡◌, ◌<◌, true, IfOk, OnErr};
ghost use Rattle.std.specs.List.{list_all};
ghost use Rattle.block_image.specs.Block.{BlockContent, block_bytes};
ghost use Rattle.undo_image.specs.Header.{HeaderContent, header_bytes};
ghost use Rattle.undo_image.specs.UndoBlock.{UndoContent, undo_bytes};
ghost use Rattle.rac_disk.specs.Content.{block_at};
ghost use Rattle.undo_segment.specs.Load.{Loads};
ghost use Rattle.disk_calls.specs.Images.{IsBadBy, IsData, IsHead, IsUndo, is_data_of, is_head_of, is_small, is_small_slot, is_undo_of};

use base_types::{BlockNo, InstNo};
use block_image::DataBlock;
use rac_disk::SharedDisk;
use redo_types::{BadBlock, ItlSlot};
use std::snapshot::Snapshot;
use undo_image::{UndoBlock, UndoHeader};
use undo_segment::LoadError;

/// How a read of a data block went.
#[derive(Drop)]
pub enum ReadData {
    /// It gave this image.
    Image(Snapshot<DataBlock>),
    /// What stands there is no block that a run leaves there.
    Bad,
    /// The call failed.
    Failed,
}

/// How a read of a header or of an undo block went.
#[derive(Drop)]
pub enum ReadUndo {
    Head(Snapshot<UndoHeader>),
    Block(Snapshot<UndoBlock>),
    /// What stands there is no block that a run leaves there.
    Bad,
    /// The call failed.
    Failed,
}

// The number that a refusal names where an image is one, but not of this block.
const OTHER: u8 = 255;

fn is_small(number: u64) -> bool
    ensures { result ≡ is_small number }
{
    number < 1 << 62
}

fn is_small_slot(slot: &ItlSlot) -> bool
    ensures { result ≡ is_small_slot slot.now }
{
    is_small(slot.seq) && slot.xid.wrap < 1 << 31
}

fn are_small(slots: &[ItlSlot]) -> bool
    ensures { result ≡ list_all is_small_slot slots.now }
{
    slots.iter().all(|slot| is_small_slot(slot))
}

fn slots_of(image: &DataBlock) -> [ItlSlot; 4]
    ensures { result ≡ image.now.itl }
{
    always_is_block(image);
    [image.itl(1), image.itl(2), image.itl(3), image.itl(4)]
}

// A data block is one.
fn always_is_block(image: &DataBlock)
    ensures { IsBlock image.now }
{
    let _ = image.copy();
}

ghost use Rattle.block_image.specs.Block.{IsBlock};

fn is_data_of(number: BlockNo, image: &DataBlock) -> bool
    ensures { result ≡ is_data_of number image.now }
{
    image.number() == number
        && is_small(image.version())
        && is_small(image.scn().get())
        && are_small(&slots_of(image))
}

fn is_head_of(number: BlockNo, seg: InstNo, head: &UndoHeader) -> bool
    ensures { result ≡ is_head_of number seg head.now }
{
    head.number() == number
        && head.seg() == seg
        && is_small(head.version())
        && is_small(head.next())
}

fn is_undo_of(number: BlockNo, seg: InstNo, block: &UndoBlock) -> bool
    ensures { result ≡ is_undo_of number seg block.now }
{
    block.number() == number && block.seg() == seg && is_small(block.version())
}

fn data_in(number: BlockNo, bytes: &[u8; 512]) -> Result<DataBlock, BadBlock>
    ensures ok { IfOk result (IsData number bytes.now) }
    ensures err { OnErr result ((b : BlockContent) → IsData number bytes.now b → ⊥) }
{
    let image = DataBlock::read(bytes)?;
    if is_data_of(number, &image) {
        Ok(image)
    } else {
        Err(BadBlock { field: OTHER })
    }
}

fn head_in(number: BlockNo, seg: InstNo, bytes: &[u8; 512]) -> Result<UndoHeader, BadBlock>
    ensures ok { IfOk result (IsHead number seg bytes.now) }
    ensures err { OnErr result ((b : HeaderContent) → IsHead number seg bytes.now b → ⊥) }
{
    let head = UndoHeader::read(bytes)?;
    if is_head_of(number, seg, &head) {
        Ok(head)
    } else {
        Err(BadBlock { field: OTHER })
    }
}

fn undo_in(number: BlockNo, seg: InstNo, bytes: &[u8; 512]) -> Result<UndoBlock, BadBlock>
    ensures ok { IfOk result (IsUndo number seg bytes.now) }
    ensures err { OnErr result ((b : UndoContent) → IsUndo number seg bytes.now b → ⊥) }
{
    let block = UndoBlock::read(bytes)?;
    if is_undo_of(number, seg, &block) {
        Ok(block)
    } else {
        Err(BadBlock { field: OTHER })
    }
}

/// Reads the data block with a number. What stands there is looked at: its number, and that no number in it is one that no
/// run comes near.
///
/// # Errors
///
/// The call failed, or what stands there is no such block.
pub fn load_data<D: SharedDisk>(number: BlockNo, disk: &mut D) -> Result<DataBlock, LoadError>
    requires { number < 200 }
    ensures fits { IfOk result (λ b. is_data_of number b ≡ true) }
    ensures disk { Loads (λ b it. block_at it number ≡ block_bytes b) (IsBadBy number (IsData number)) result (D.state disk.old) (D.state disk.new) }
{
    let mut bytes = [0; 512];
    disk.read_block(number, &mut bytes)?;
    match data_in(number, &bytes) {
        Ok(image) => Ok(image),
        Err(bad) => Err(LoadError::Bad {
            block: number,
            field: bad.field,
        }),
    }
}

/// Reads the header of an undo segment, which stands in this block.
///
/// # Errors
///
/// The call failed, or what stands there is no header of the segment.
pub fn load_head<D: SharedDisk>(
    number: BlockNo,
    seg: InstNo,
    disk: &mut D,
) -> Result<UndoHeader, LoadError>
    requires { number < 200 }
    ensures fits { IfOk result (λ b. is_head_of number seg b ≡ true) }
    ensures disk { Loads (λ b it. block_at it number ≡ header_bytes b) (IsBadBy number (IsHead number seg)) result (D.state disk.old) (D.state disk.new) }
{
    let mut bytes = [0; 512];
    disk.read_block(number, &mut bytes)?;
    match head_in(number, seg, &bytes) {
        Ok(head) => Ok(head),
        Err(bad) => Err(LoadError::Bad {
            block: number,
            field: bad.field,
        }),
    }
}

/// Reads an undo block of a segment.
///
/// # Errors
///
/// The call failed, or what stands there is no undo block of the segment.
pub fn load_undo<D: SharedDisk>(
    number: BlockNo,
    seg: InstNo,
    disk: &mut D,
) -> Result<UndoBlock, LoadError>
    requires { number < 200 }
    ensures fits { IfOk result (λ b. is_undo_of number seg b ≡ true) }
    ensures disk { Loads (λ b it. block_at it number ≡ undo_bytes b) (IsBadBy number (IsUndo number seg)) result (D.state disk.old) (D.state disk.new) }
{
    let mut bytes = [0; 512];
    disk.read_block(number, &mut bytes)?;
    match undo_in(number, seg, &bytes) {
        Ok(block) => Ok(block),
        Err(bad) => Err(LoadError::Bad {
            block: number,
            field: bad.field,
        }),
    }
}
