//! Reading the files of a disk whole.

ghost use Rattle.std.specs.Prelude.{◌≡◌, ◌≢◌, ◌<◌, ◌*◌, ◌-◌, ◌++◌, ℕ, [], length, map, take, drop, min, IfOk, IfSome, OnOk};
ghost use Rattle.rac_disk.specs.Content.{IsDisk, log_at, with_block, with_control};
ghost use Rattle.file_disk.specs.Opening.{HasBlocks, HasControls, HasEmptyLogs, HasLogs};

use crate::disk_file::DiskFile;
use base_types::{BlockNo, InstNo};
use rac_disk::{Failed, MemContent};

/// The blocks of a disk.
pub const BLOCKS: u16 = 200;

/// The bytes of a block.
pub const BLOCK_BYTES: u64 = 512;

/// The threads of a disk.
pub const THREADS: u8 = 8;

/// The bytes of a control entry.
pub const ENTRY_BYTES: u64 = 32;

/// Where a block stands in the file of blocks.
pub fn block_place(block: BlockNo) -> u64
    ensures { result ≡ block * 512 }
{
    u64::from(block.0) * BLOCK_BYTES
}

/// Where a thread's entry stands in the file of control entries.
pub fn entry_place(thread: InstNo) -> u64
    ensures { result ≡ thread * 32 }
{
    u64::from(thread.0) * ENTRY_BYTES
}

/// Reads all blocks. It fails where the file has more or fewer.
pub fn read_blocks<F: DiskFile>(file: &mut F, content: &mut MemContent) -> Result<(), Failed>
    requires { IsDisk content.old }
    ensures blocks { OnOk result (IfSome (F.holds file.old) (λ bytes. HasBlocks 200 bytes content.new.blocks)) }
    ensures others { content.new ≡ record content.old { blocks = content.new.blocks } }
    ensures is_disk { IsDisk content.new }
{
    if file.len()? != u64::from(BLOCKS) * BLOCK_BYTES {
        return Err(Failed);
    }
    for block in 0..BLOCKS {
        read_block(file, content, BlockNo(block))?;
    }
    Ok(())
}

fn read_block<F: DiskFile>(
    file: &mut F,
    content: &mut MemContent,
    block: BlockNo,
) -> Result<(), Failed>
    requires block { block < 200 }
    requires is_disk { IsDisk content.old }
    ensures block { OnOk result (IfSome (F.holds file.old) (λ bytes. content.new ≡ with_block content.old block (take 512 (drop (block * 512) bytes)))) }
    ensures others { content.new ≡ record content.old { blocks = content.new.blocks } }
    ensures holds { F.holds file.new ≡ F.holds file.old }
    ensures is_disk { IsDisk content.new }
{
    let mut bytes = [0; 512];
    if file.read(block_place(block), &mut bytes)? < 512 {
        return Err(Failed);
    }
    content.write_block(block, &bytes);
    Ok(())
}

/// Reads all control entries. It fails where the file has more or fewer.
pub fn read_controls<F: DiskFile>(file: &mut F, content: &mut MemContent) -> Result<(), Failed>
    requires { IsDisk content.old }
    ensures controls { OnOk result (IfSome (F.holds file.old) (λ bytes. HasControls 8 bytes content.new.controls)) }
    ensures others { content.new ≡ record content.old { controls = content.new.controls } }
    ensures is_disk { IsDisk content.new }
{
    if file.len()? != u64::from(THREADS) * ENTRY_BYTES {
        return Err(Failed);
    }
    for thread in 0..THREADS {
        read_control(file, content, InstNo(thread))?;
    }
    Ok(())
}

fn read_control<F: DiskFile>(
    file: &mut F,
    content: &mut MemContent,
    thread: InstNo,
) -> Result<(), Failed>
    requires thread { thread < 8 }
    requires is_disk { IsDisk content.old }
    ensures control { OnOk result (IfSome (F.holds file.old) (λ bytes. content.new ≡ with_control content.old thread (take 32 (drop (thread * 32) bytes)))) }
    ensures others { content.new ≡ record content.old { controls = content.new.controls } }
    ensures holds { F.holds file.new ≡ F.holds file.old }
    ensures is_disk { IsDisk content.new }
{
    let mut bytes = [0; 32];
    if file.read(entry_place(thread), &mut bytes)? < 32 {
        return Err(Failed);
    }
    content.write_control(thread, &bytes);
    Ok(())
}

/// Reads all logs, where none was read yet. It fails where one is longer than its room.
pub fn read_logs<F: DiskFile>(files: &mut [F], content: &mut MemContent) -> Result<(), Failed>
    requires files { length files.old ≡ 8 }
    requires empty { HasEmptyLogs 0 content.old }
    requires is_disk { IsDisk content.old }
    ensures logs { OnOk result (HasLogs 8 (map F.holds files.old) content.new) }
    ensures others { content.new ≡ record content.old { logs = content.new.logs } }
    ensures is_disk { IsDisk content.new }
{
    for thread in 0..THREADS {
        read_log(&mut files[usize::from(thread)], content, InstNo(thread))?;
    }
    Ok(())
}

fn read_log<F: DiskFile>(
    file: &mut F,
    content: &mut MemContent,
    thread: InstNo,
) -> Result<(), Failed>
    requires thread { thread < 8 }
    requires empty { log_at content.old thread ≡ [] }
    requires is_disk { IsDisk content.old }
    ensures log { OnOk result (IfSome (F.holds file.old) (λ bytes. log_at content.new thread ≡ bytes)) }
    ensures other_logs { (k : ℕ) → k ≢ thread → log_at content.new k ≡ log_at content.old k }
    ensures others { content.new ≡ record content.old { logs = content.new.logs } }
    ensures holds { F.holds file.new ≡ F.holds file.old }
    ensures is_disk { IsDisk content.new }
{
    let len = file.len()?;
    let mut left = len;
    while left > 0 {
        let count = read_piece(file, content, thread, len - left)?;
        left = left.saturating_sub(count);
    }
    Ok(())
}

// Reads a piece of a log from a place on; how many bytes it has, at least one.
fn read_piece<F: DiskFile>(
    file: &mut F,
    content: &mut MemContent,
    thread: InstNo,
    at: u64,
) -> Result<u64, Failed>
    requires thread { thread < 8 }
    requires is_disk { IsDisk content.old }
    ensures some { IfOk result (λ count. 0 < count) }
    ensures count { IfOk result (λ count. IfSome (F.holds file.old) (λ bytes. count ≡ min 4096 (length bytes - at))) }
    ensures piece { OnOk result (IfSome (F.holds file.old) (λ bytes. log_at content.new thread ≡ log_at content.old thread ++ take 4096 (drop at bytes))) }
    ensures other_logs { (k : ℕ) → k ≢ thread → log_at content.new k ≡ log_at content.old k }
    ensures others { content.new ≡ record content.old { logs = content.new.logs } }
    ensures holds { F.holds file.new ≡ F.holds file.old }
    ensures is_disk { IsDisk content.new }
{
    let mut piece = [0; 4096];
    let count = file.read(at, &mut piece)?;
    if count == 0 || !content.append(thread, &piece[..count]) {
        return Err(Failed);
    }
    Ok(count as u64)
}
