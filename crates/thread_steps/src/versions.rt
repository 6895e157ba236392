//! The versions that blocks have on the disk.

ghost use Rattle.std.specs.Prelude.{◌≡◌, ◌<◌, IfOk};
ghost use Rattle.std.specs.List.{All};
ghost use Rattle.block_image.specs.Block.{IsBlock};
ghost use Rattle.undo_image.specs.Header.{IsHeader};
ghost use Rattle.undo_image.specs.UndoBlock.{IsUndoBlock};
ghost use Rattle.thread_steps.specs.Observes.{Finds};
ghost use Rattle.thread_steps.specs.Versions.{HasBadOne, HasDataVersion, HasHeadVersion, HasNoData, HasNoHead, HasNoUndo, HasNoVersion, HasUndoVersion, HasVersion, HaveVersions, is_named, named_blocks, names, row_names, undo_names};

use crate::found::BlockVersion;
use crate::kinds::{BlockKind, kind_of};
use crate::read_error::ReadError;
use base_types::{BlockNo, InstNo, Layout, NoMemory, Sequence};
use block_image::DataBlock;
use disk_calls::{load_data, load_head, load_undo};
use inst_state::Table;
use rac_disk::SharedDisk;
use redo_types::{DataChange, Redo, UndoChange};
use std::alloc::Global;
use undo_image::{UndoBlock, UndoHeader};

fn undo_names(change: &Option<UndoChange>, block: BlockNo) -> bool
    ensures { result ≡ undo_names change.now block }
{
    match change {
        Some(change) => change.block == block,
        None => false,
    }
}

fn row_names(change: &Option<DataChange>, block: BlockNo) -> bool
    ensures { result ≡ row_names change.now block }
{
    match change {
        Some(change) => change.block == block,
        None => false,
    }
}

fn names(redo: &Redo, block: BlockNo) -> bool
    ensures { result ≡ names block redo.now }
{
    redo.head.block == block || undo_names(&redo.undo, block) || row_names(&redo.row, block)
}

fn is_named(records: &[Redo], block: BlockNo) -> bool
    ensures { result ≡ is_named records.now block }
{
    records.iter().any(|redo| names(redo, block))
}

/// The blocks that records name, ascending.
pub(crate) fn named_blocks(alloc: Global, records: &[Redo]) -> Result<Sequence<BlockNo>, NoMemory>
    ensures named { IfOk result (λ blocks. blocks ≡ named_blocks records.now) }
    ensures few { IfOk result (λ blocks. All (λ block. block < 200) blocks) }
{
    let mut blocks = Sequence::new(alloc);
    for number in 0..200u16 {
        let block = BlockNo(number);
        if is_named(records, block) {
            blocks.push(block)?;
        }
    }
    Ok(blocks)
}

fn data_version(image: &DataBlock) -> u64
    ensures version { result ≡ image.now.front.version }
    ensures is { IsBlock image.now }
{
    let _ = image.copy();
    image.version()
}

fn head_version(head: &UndoHeader) -> u64
    ensures version { result ≡ head.now.front.version }
    ensures is { IsHeader head.now }
{
    head.always_is_header();
    head.version()
}

fn undo_version(undo: &UndoBlock) -> u64
    ensures version { result ≡ undo.now.front.version }
    ensures is { IsUndoBlock undo.now }
{
    undo.always_is_undo_block();
    undo.version()
}

fn load_data_version<D: SharedDisk>(block: BlockNo, disk: &mut D) -> Result<u64, ReadError>
    requires { block < 200 }
    ensures { Finds (HasDataVersion block) (HasNoData block) result (D.state disk.old) (D.state disk.new) }
{
    let image = load_data(block, disk)?;
    Ok(data_version(&image))
}

fn load_head_version<D: SharedDisk>(
    block: BlockNo,
    seg: InstNo,
    disk: &mut D,
) -> Result<u64, ReadError>
    requires { block < 200 }
    ensures { Finds (HasHeadVersion block seg) (HasNoHead block seg) result (D.state disk.old) (D.state disk.new) }
{
    let head = load_head(block, seg, disk)?;
    Ok(head_version(&head))
}

fn load_undo_version<D: SharedDisk>(
    block: BlockNo,
    seg: InstNo,
    disk: &mut D,
) -> Result<u64, ReadError>
    requires { block < 200 }
    ensures { Finds (HasUndoVersion block seg) (HasNoUndo block seg) result (D.state disk.old) (D.state disk.new) }
{
    let undo = load_undo(block, seg, disk)?;
    Ok(undo_version(&undo))
}

/// The version that a block has on the disk.
fn load_version<D: SharedDisk>(
    layout: &Layout,
    block: BlockNo,
    disk: &mut D,
) -> Result<u64, ReadError>
    requires { block < 200 }
    ensures { Finds (HasVersion layout.now block) (HasNoVersion layout.now block) result (D.state disk.old) (D.state disk.new) }
{
    match kind_of(layout, block) {
        BlockKind::Data => load_data_version(block, disk),
        BlockKind::Head(seg) => load_head_version(block, seg, disk),
        BlockKind::Undo(seg) => load_undo_version(block, seg, disk),
    }
}

/// The versions that these blocks have on the disk.
pub(crate) fn read_versions<D: SharedDisk>(
    alloc: Global,
    layout: &Layout,
    blocks: &[BlockNo],
    disk: &mut D,
) -> Result<Table<BlockVersion>, ReadError>
    requires { All (λ block. block < 200) blocks.now }
    ensures { Finds (HaveVersions layout.now blocks.now) (HasBadOne layout.now blocks.now) result (D.state disk.old) (D.state disk.new) }
{
    let mut versions = Table::new(alloc);
    for block in blocks {
        let version = load_version(layout, *block, disk)?;
        versions.push(BlockVersion {
            block: *block,
            version,
        })?;
    }
    Ok(versions)
}
