//! What a master does with what it hears of past images and of writes.

ghost use Rattle.std.specs.Prelude.{◌≡◌, ◌++◌, OnOk};
ghost use Rattle.std.specs.List.{flat_map};
ghost use Rattle.wire_net.specs.Entry.{version_of};
ghost use Rattle.resource_dir.specs.Pasts.{answer_plea, drops_to, is_newer, is_superseded, keep, keep_any, keep_any_newer, plead, write_please, wrote};

use crate::Outbox;
use base_types::{BlockNo, InstNo, NoMemory};
use inst_set::ALL_INSTS;
use wire_net::{Entry, Message, PastHolder, PastVersions, Waiting};

// Whether a version is there and is above another one.
fn is_newer(version: Option<u64>, other: u64) -> bool
    ensures { result ≡ is_newer version other }
{
    match version {
        Some(version) => version > other,
        None => false,
    }
}

// Whether a past image isn't known to be written, and its instance is known to keep a newer one.
fn is_superseded(entry: &Entry, kept: &PastHolder) -> bool
    ensures { result ≡ is_superseded kept.now entry.now }
{
    kept.version > entry.written && is_newer(entry.past.get(kept.inst), kept.version)
}

// Enters a past image that is kept, or lets it go where its version was written.
fn keep(
    entry: &mut Entry,
    block: BlockNo,
    kept: &PastHolder,
    out: &mut Outbox,
) -> Result<(), NoMemory>
    ensures entry { OnOk result (entry.new ≡ (keep block kept.now entry.old).entry) }
    ensures sends { OnOk result (out.new ≡ out.old ++ (keep block kept.now entry.old).sends) }
{
    let version = kept.version;
    if version <= entry.written {
        return out.push((kept.inst, Message::DropPast { block, version }));
    }
    entry.past.set(kept.inst, Some(version));
    Ok(())
}

/// Deals with the past image of an operation's Done.
pub fn keep_any(
    entry: &mut Entry,
    block: BlockNo,
    kept: &Option<PastHolder>,
    out: &mut Outbox,
) -> Result<(), NoMemory>
    ensures entry { OnOk result (entry.new ≡ (keep_any block kept.now entry.old).entry) }
    ensures sends { OnOk result (out.new ≡ out.old ++ (keep_any block kept.now entry.old).sends) }
{
    match kept {
        Some(kept) => keep(entry, block, kept, out),
        None => Ok(()),
    }
}

/// Deals with the past image of any other Done.
pub fn keep_any_newer(
    entry: &mut Entry,
    block: BlockNo,
    kept: &Option<PastHolder>,
    out: &mut Outbox,
) -> Result<(), NoMemory>
    ensures entry { OnOk result (entry.new ≡ (keep_any_newer block kept.now entry.old).entry) }
    ensures sends { OnOk result (out.new ≡ out.old ++ (keep_any_newer block kept.now entry.old).sends) }
{
    let Some(kept) = kept else {
        return Ok(());
    };
    if is_superseded(entry, kept) {
        return Ok(());
    }
    keep(entry, block, kept, out)
}

// Sends a DropPast to each of these instances whose past image is at most at a version.
fn drop_each(
    insts: &[InstNo],
    block: BlockNo,
    limit: u64,
    past: &PastVersions,
    out: &mut Outbox,
) -> Result<(), NoMemory>
    ensures { OnOk result (out.new ≡ out.old ++ flat_map (λ inst. drops_to block limit (version_of past.now inst) inst) insts.now) }
{
    for inst in insts {
        if let Some(version) = past.get(*inst) {
            if version <= limit {
                out.push((*inst, Message::DropPast { block, version }))?;
            }
        }
    }
    Ok(())
}

/// Hears that the block was written at a version: past images up to it may go.
pub fn wrote(
    entry: &mut Entry,
    block: BlockNo,
    version: u64,
    out: &mut Outbox,
) -> Result<(), NoMemory>
    ensures entry { OnOk result (entry.new ≡ (wrote block version entry.old).entry) }
    ensures sends { OnOk result (out.new ≡ out.old ++ (wrote block version entry.old).sends) }
{
    drop_each(&ALL_INSTS, block, version, &entry.past, out)?;
    entry.written = entry.written.max(version);
    entry.past = entry.past.above(version);
    Ok(())
}

// Asks the exclusive holder to write the block, or learns that the disk has its newest version.
fn plead(
    entry: &mut Entry,
    block: BlockNo,
    version: u64,
    holder: InstNo,
    out: &mut Outbox,
) -> Result<(), NoMemory>
    ensures entry { OnOk result (entry.new ≡ (plead entry.old.x block version holder entry.old).entry) }
    ensures sends { OnOk result (out.new ≡ out.old ++ (plead entry.old.x block version holder entry.old).sends) }
{
    let Some(x) = &entry.x else {
        wrote(entry, block, version, out)?;
        return out.push((holder, Message::DropPast { block, version }));
    };
    let message = Message::WritePlease {
        block,
        version,
        holder,
        grant: Some(x.grant),
    };
    out.push((x.inst, message))
}

/// Answers the holder of a past image that wants the block written, no operation being under way.
pub fn answer_plea(
    entry: &mut Entry,
    block: BlockNo,
    version: u64,
    holder: InstNo,
    out: &mut Outbox,
) -> Result<(), NoMemory>
    ensures entry { OnOk result (entry.new ≡ (answer_plea block version holder entry.old).entry) }
    ensures sends { OnOk result (out.new ≡ out.old ++ (answer_plea block version holder entry.old).sends) }
{
    if version <= entry.written {
        return out.push((holder, Message::DropPast { block, version }));
    }
    plead(entry, block, version, holder, out)
}

/// Answers the holder of a past image that wants the block written, or lets it wait for the end of the operation that is
/// under way.
pub fn write_please(
    entry: &mut Entry,
    block: BlockNo,
    version: u64,
    holder: InstNo,
    out: &mut Outbox,
) -> Result<(), NoMemory>
    ensures entry { OnOk result (entry.new ≡ (write_please block version holder entry.old).entry) }
    ensures sends { OnOk result (out.new ≡ out.old ++ (write_please block version holder entry.old).sends) }
{
    if version <= entry.written {
        return out.push((holder, Message::DropPast { block, version }));
    }
    match entry.op {
        Some(_) => entry.queue.push(Waiting::WritePlease {
            block,
            version,
            holder,
        }),
        None => plead(entry, block, version, holder, out),
    }
}
