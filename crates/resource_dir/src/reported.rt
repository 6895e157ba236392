//! The directory after a change of membership, made from what the instances report.

ghost use Rattle.std.specs.Prelude.{◌≡◌, fold, IfOk, OnOk};
ghost use Rattle.resource_dir.specs.Rebuilt.{held, kept, rebuilt, rebuilt_bucket, rebuilt_directory, with_frame, with_rebuilt, with_report};

use crate::directory::Directory;
use base_types::{BlockNo, InstNo, NoMemory};
use std::alloc::Global;
use wire_net::{DirEntries, Entry, Frame, Holder, Masters, Mode, Report};

// The numbers of all buckets.
const ALL_BUCKETS: [u8; 16] = [0, 1, 2, 3, 4, 5, 6, 7, 8, 9, 10, 11, 12, 13, 14, 15];

// Enters a holder, with the next grant.
fn hold(entry: &mut Entry, mode: Mode, inst: InstNo)
    ensures { entry.new ≡ held mode inst entry.old }
{
    let grant = entry.next_grant;
    match mode {
        Mode::Null => {}
        Mode::Shared => {
            entry.shared.set(inst, Some(grant));
            entry.next_grant = grant.saturating_add(1);
        }
        Mode::Exclusive => {
            entry.x = Some(Holder { inst, grant });
            entry.next_grant = grant.saturating_add(1);
        }
    }
}

// Enters a past image, if there is one.
fn keep(entry: &mut Entry, inst: InstNo, version: Option<u64>)
    ensures { entry.new ≡ kept version inst entry.old }
{
    if let Some(version) = version {
        entry.past.set(inst, Some(version));
    }
}

// Enters what a frame of an instance tells, if it is one of the block.
fn add_frame(entry: &mut Entry, block: BlockNo, inst: InstNo, frame: &Frame)
    ensures { entry.new ≡ with_frame block inst entry.old frame.now }
{
    if frame.block.get() == block.get() {
        hold(entry, frame.mode, inst);
        keep(entry, inst, frame.past);
    }
}

// Enters what the frames of an instance tell of the block.
fn add_frames(entry: &mut Entry, block: BlockNo, inst: InstNo, frames: &[Frame])
    ensures { entry.new ≡ fold (with_frame block inst) entry.old frames.now }
{
    for frame in frames {
        add_frame(entry, block, inst, frame);
    }
}

// Enters what an instance reports of the block.
fn add_report(entry: &mut Entry, block: BlockNo, reported: &(InstNo, Report))
    ensures { entry.new ≡ with_report block entry.old reported.now }
{
    let (inst, report) = reported;
    add_frames(entry, block, *inst, report.frames.as_slice());
}

/// The entry of a block as the reports tell it, which come in the order of their instances: the holders with new grants
/// from 1 on in that order, and the past images. So each instance learns its new grants too.
pub fn rebuilt(alloc: Global, block: BlockNo, reports: &[(InstNo, Report)]) -> Entry
    ensures { result ≡ rebuilt block reports.now }
{
    let mut entry = Entry::new(alloc);
    for reported in reports {
        add_report(&mut entry, block, reported);
    }
    entry
}

// The entries of a bucket as the reports tell them.
fn rebuilt_bucket(
    alloc: Global,
    bucket: u8,
    reports: &[(InstNo, Report)],
) -> Result<DirEntries, NoMemory>
    ensures { IfOk result (λ it. it ≡ rebuilt_bucket bucket reports.now) }
{
    let first = u16::from(bucket);
    let mut entries = Vec::new(alloc);
    entries.push(rebuilt(alloc, BlockNo(first), reports))?;
    entries.push(rebuilt(alloc, BlockNo(first + 16), reports))?;
    entries.push(rebuilt(alloc, BlockNo(first + 32), reports))?;
    entries.push(rebuilt(alloc, BlockNo(first + 48), reports))?;
    Ok(DirEntries::from_vec(entries))
}

// Gives an instance those of these buckets that it masters, as the reports tell them, and takes the others away.
fn rebuild_each(
    buckets: &[u8],
    alloc: Global,
    me: InstNo,
    masters: &Masters,
    reports: &[(InstNo, Report)],
    directory: &mut Directory,
) -> Result<(), NoMemory>
    ensures { OnOk result (directory.new ≡ fold (with_rebuilt me masters.now reports.now) directory.old buckets.now) }
{
    for bucket in buckets {
        if masters.of(BlockNo(u16::from(*bucket))).get() == me.get() {
            directory.take_bucket(*bucket, rebuilt_bucket(alloc, *bucket, reports)?);
        } else {
            directory.drop_bucket(*bucket);
        }
    }
    Ok(())
}

/// The directory of an instance after a change of membership: the buckets that it masters by the table, with the entries
/// as the reports tell them, which come in the order of their instances.
pub fn rebuild(
    alloc: Global,
    me: InstNo,
    masters: &Masters,
    reports: &[(InstNo, Report)],
) -> Result<Directory, NoMemory>
    ensures { IfOk result (λ it. it ≡ rebuilt_directory me masters.now reports.now) }
{
    let mut directory = Directory::new();
    rebuild_each(&ALL_BUCKETS, alloc, me, masters, reports, &mut directory)?;
    Ok(directory)
}
