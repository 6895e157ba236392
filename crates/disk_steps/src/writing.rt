//! A dirty block is written.

ghost use Rattle.std.specs.Prelude.{◌≡◌, ◌<◌, ◌≤◌, ◌/◌, false, map, slice_get, slice_index_or, slice_set, IfOk, OnOk, true};
ghost use Rattle.std.specs.Option.{ForSome, option_copied};
ghost use Rattle.std.specs.List.{list_any, position};
ghost use Rattle.disk_calls.specs.Calls.{WritesBlockAs};
ghost use Rattle.buffer_cache.specs.Cache.{place_at};
ghost use Rattle.inst_state.specs.Hand.{current_image};
ghost use Rattle.image_steps.specs.ServeUndo.{place_in};
ghost use Rattle.disk_steps.specs.Write.{adopted_cleaned, adopted_is_durable, block_written, bytes_as, bytes_to_write, cleaned_in, gives_frame, goes_before_report, goes_on_adopted, goes_on_or_leads, has_block, image_bytes, is_data_due, is_dirty_at, is_dirty_in, is_due, is_due_as, is_global, is_global_role, is_own_due, is_undo_waited_for, is_waited_for, leads, may_write_block, no_bytes, redo_is_durable, redo_is_durable_as, scn_at, target, tells_of, undo_bytes_at, undo_bytes_in, undo_is_durable, undo_left, without_undo, write_told, write_told_as, written_as, wrote_sent};

use base_types::{BlockNo, InstNo, NoMemory};
use block_image::DataBlock;
use disk_calls::{Written, write_block};
use image_steps::{can_evict, left_frame, needs_frame, place_in};
use inst_loss::{Loss, lose};
use inst_state::{Begun, Core, Inst, OwnWave, Table};
use rac_disk::SharedDisk;
use std::alloc::Global;
use undo_segment::Segment;
use wire_net::{Message, Role};

/// What a block is that may be written.
#[derive(Clone, Copy, Debug, PartialEq, Eq)]
pub enum Target {
    /// A data block.
    Data,
    /// A block of the adopted segment at this place.
    Adopted(usize),
    /// A block of the own segment, or none.
    Own,
}

fn has_block(block: BlockNo, segment: &Segment) -> bool
    ensures { result ≡ has_block block segment.now }
{
    place_in(segment, block).is_some()
}

fn adopted_with(segments: &[Segment], block: BlockNo) -> Option<usize>
    ensures { result ≡ position (has_block block) segments.now }
{
    segments
        .iter()
        .position(|segment| has_block(block, segment))
}

fn target_of(inst: &Inst, block: BlockNo) -> Target
    ensures { result ≡ target inst.now block }
{
    if block.get() < inst.cache.blocks() {
        return Target::Data;
    }
    match adopted_with(inst.leading.adopted.as_slice(), block) {
        Some(at) => Target::Adopted(at),
        None => Target::Own,
    }
}

fn leads(inst: &Inst, core: &Core) -> bool
    ensures { result ≡ leads inst.now core.now }
{
    core.is_thawed() && core.is_led_by(inst.plan.me)
}

fn goes_on_or_leads(inst: &Inst, core: &Core) -> bool
    ensures { result ≡ goes_on_or_leads inst.now core.now }
{
    !inst.paused || leads(inst, core)
}

fn is_global_role(role: Role) -> bool
    ensures { result ≡ is_global_role role }
{
    matches!(role, Role::Global)
}

fn is_global(inst: &Inst, block: BlockNo) -> bool
    ensures { result ≡ is_global (place_at inst.now.cache block).current }
{
    match inst.cache.held(block) {
        Some(held) => is_global_role(held.role),
        None => false,
    }
}

fn waits_for_block(begun: &Begun, block: usize) -> bool
    ensures { result ≡ slice_index_or begun.now.blocks block false }
{
    match begun.blocks.as_slice().get(block) {
        Some(waits) => *waits,
        None => false,
    }
}

fn is_waited_for(inst: &Inst, block: BlockNo) -> bool
    ensures { result ≡ is_waited_for inst.now block }
{
    let place = usize::from(block.get());
    inst.wave
        .checkpoints
        .as_slice()
        .iter()
        .any(|begun| waits_for_block(begun, place))
}

fn goes_before_report(inst: &Inst, core: &Core, block: BlockNo) -> bool
    ensures { result ≡ goes_before_report inst.now core.now block }
{
    core.is_frozen() && !core.members.reported.has(inst.plan.me) && is_global(inst, block)
}

fn gives_frame(inst: &Inst, block: BlockNo) -> bool
    ensures { result ≡ gives_frame inst.now block }
{
    inst.cache.is_dirty(block) && !inst.is_used(block) && needs_frame(inst) && !can_evict(inst)
}

fn is_data_due(inst: &Inst, core: &Core, block: BlockNo) -> bool
    ensures { result ≡ is_data_due inst.now core.now block }
{
    inst.cache.is_dirty(block)
        && (inst.cache.is_wished(block)
            || goes_before_report(inst, core, block)
            || goes_on_or_leads(inst, core)
                && (is_waited_for(inst, block) || gives_frame(inst, block)))
}

fn waits_for_undo(begun: &Begun, k: usize) -> bool
    ensures { result ≡ slice_index_or begun.now.segment k false }
{
    match begun.segment.as_slice().get(k) {
        Some(waits) => *waits,
        None => false,
    }
}

fn is_undo_waited_for(inst: &Inst, k: u8) -> bool
    ensures { result ≡ is_undo_waited_for inst.now k }
{
    let place = usize::from(k);
    inst.wave
        .checkpoints
        .as_slice()
        .iter()
        .any(|begun| waits_for_undo(begun, place))
}

fn is_dirty_in(segment: &Segment, block: BlockNo) -> bool
    ensures { result ≡ is_dirty_in segment.now (place_in segment.now block) }
{
    match place_in(segment, block) {
        Some(k) => segment.is_dirty(k),
        None => false,
    }
}

fn is_dirty_at(segment: Option<&Segment>, block: BlockNo) -> bool
    ensures { result ≡ is_dirty_at (option_copied segment.entry) block }
{
    match segment {
        Some(segment) => is_dirty_in(segment, block),
        None => false,
    }
}

fn own_is_due(inst: &Inst, core: &Core, block: BlockNo) -> bool
    ensures { result ≡ is_own_due inst.now core.now (place_in inst.now.segment block) }
{
    match place_in(&inst.segment, block) {
        Some(k) => {
            goes_on_or_leads(inst, core)
                && !core.is_dark()
                && inst.segment.is_dirty(k)
                && is_undo_waited_for(inst, k)
        }
        None => false,
    }
}

fn goes_on_adopted(inst: &Inst, core: &Core) -> bool
    ensures { result ≡ goes_on_adopted inst.now core.now }
{
    leads(inst, core) || core.is_frozen()
}

/// Whether a dirty block is to be written, once its redo is on the disk.
pub fn is_due(inst: &Inst, core: &Core, block: BlockNo) -> bool
    ensures { result ≡ is_due inst.now core.now block }
{
    match target_of(inst, block) {
        Target::Data => is_data_due(inst, core, block),
        Target::Adopted(at) => {
            goes_on_adopted(inst, core) && is_dirty_at(inst.leading.adopted.get(at), block)
        }
        Target::Own => own_is_due(inst, core, block),
    }
}

fn scn_at(segment: &Segment, k: u8) -> u64
    requires { k ≤ segment.now.layout.undo / 4 }
    ensures { result ≡ scn_at segment.now k }
{
    if k == 0 {
        segment.header().scn().get()
    } else {
        segment.block(k - 1).scn().get()
    }
}

fn undo_is_durable(inst: &Inst, segment: &Segment, block: BlockNo) -> bool
    ensures { result ≡ undo_is_durable inst.now segment.now (place_in segment.now block) }
{
    match place_in(segment, block) {
        Some(k) => { inst.is_forced() || scn_at(segment, k) <= inst.thread.durable_scn().get() }
        None => false,
    }
}

fn adopted_is_durable(inst: &Inst, segment: Option<&Segment>, block: BlockNo) -> bool
    ensures { result ≡ adopted_is_durable inst.now (option_copied segment.entry) block }
{
    match segment {
        Some(segment) => undo_is_durable(inst, segment, block),
        None => false,
    }
}

/// Whether the redo of a block is on the disk.
pub fn redo_is_durable(inst: &Inst, block: BlockNo) -> bool
    ensures { result ≡ redo_is_durable inst.now block }
{
    match target_of(inst, block) {
        Target::Data => inst.is_durable(block),
        Target::Adopted(at) => adopted_is_durable(inst, inst.leading.adopted.get(at), block),
        Target::Own => undo_is_durable(inst, &inst.segment, block),
    }
}

/// Whether a block may be written: it is due, and its redo is on the disk.
pub fn may_write_block(inst: &Inst, core: &Core, block: BlockNo) -> bool
    ensures { result ≡ may_write_block inst.now core.now block }
{
    block.get() < 200 && is_due(inst, core, block) && redo_is_durable(inst, block)
}

#[tactic(auto, unfolding(crate::specs::Write::no_bytes))]
fn no_bytes() -> [u8; 512]
    ensures { result ≡ no_bytes }
{
    [0; 512]
}

fn image_bytes(image: Option<&DataBlock>) -> [u8; 512]
    ensures { result ≡ image_bytes (option_copied image.entry) }
{
    let mut bytes = no_bytes();
    if let Some(image) = image {
        image.write(&mut bytes);
    }
    bytes
}

fn undo_bytes_in(segment: &Segment, block: BlockNo) -> [u8; 512]
    ensures { result ≡ undo_bytes_in segment.now (place_in segment.now block) }
{
    let mut bytes = no_bytes();
    if let Some(k) = place_in(segment, block) {
        segment.bytes_of(k, &mut bytes);
    }
    bytes
}

fn undo_bytes_at(segment: Option<&Segment>, block: BlockNo) -> [u8; 512]
    ensures { result ≡ undo_bytes_at (option_copied segment.entry) block }
{
    match segment {
        Some(segment) => undo_bytes_in(segment, block),
        None => no_bytes(),
    }
}

fn bytes_to_write(inst: &Inst, block: BlockNo) -> [u8; 512]
    ensures { result ≡ bytes_to_write inst.now block }
{
    match target_of(inst, block) {
        Target::Data => image_bytes(inst.cache.image(block)),
        Target::Adopted(at) => undo_bytes_at(inst.leading.adopted.get(at), block),
        Target::Own => undo_bytes_in(&inst.segment, block),
    }
}

fn clean_in(segment: &mut Segment, block: BlockNo)
    ensures { segment.new ≡ cleaned_in segment.old (place_in segment.old block) }
{
    if let Some(k) = place_in(segment, block) {
        segment.wrote(k);
    }
}

fn clean_at(adopted: &mut Table<Segment>, at: usize, block: BlockNo)
    ensures { adopted.new ≡ adopted_cleaned adopted.old at block }
{
    if let Some(segment) = adopted.get_mut(at) {
        clean_in(segment, block);
    }
}

fn leave_undo(begun: &mut Begun, k: u8)
    ensures { begun.new ≡ without_undo k begun.old }
{
    let place = usize::from(k);
    if place < 17 {
        begun.segment[place] = false;
    }
}

fn leave_each(checkpoints: &mut [Begun], k: u8)
    ensures { checkpoints.new ≡ map (without_undo k) checkpoints.old }
{
    for begun in checkpoints.iter_mut() {
        leave_undo(begun, k);
    }
}

#[tactic(auto, using(inst_state::proofs::Mapped::mapped_whole))]
fn leave_all(checkpoints: &mut Table<Begun>, k: u8)
    ensures { checkpoints.new ≡ map (without_undo k) checkpoints.old }
{
    leave_each(checkpoints.as_mut_slice(), k);
}

fn leave_wave(wave: &mut OwnWave, k: Option<u8>)
    ensures { wave.new ≡ undo_left wave.old k }
{
    if let Some(k) = k {
        leave_all(&mut wave.checkpoints, k);
    }
}

fn note_write(inst: &mut Inst, block: BlockNo)
    ensures { inst.new ≡ written_as inst.old block (target inst.old block) }
{
    match target_of(inst, block) {
        Target::Data => {
            inst.cache.wrote(block);
            left_frame(inst, block);
        }
        Target::Adopted(at) => clean_at(&mut inst.leading.adopted, at, block),
        Target::Own => {
            let k = place_in(&inst.segment, block);
            clean_in(&mut inst.segment, block);
            leave_wave(&mut inst.wave, k);
        }
    }
}

fn tells_of(inst: &Inst, core: &Core, block: BlockNo) -> bool
    ensures { result ≡ tells_of inst.now core.now block }
{
    !core.is_frozen() && (is_global(inst, block) || inst.cache.is_wished(block))
}

fn send_wrote(inst: &Inst, core: &mut Core, block: BlockNo) -> Result<(), NoMemory>
    ensures { OnOk result (core.new ≡ wrote_sent inst.now core.old block (current_image inst.now block)) }
{
    match inst.cache.image(block) {
        Some(image) => {
            if tells_of(inst, core, block) {
                let version = image.version();
                core.send_to_master(
                    inst.plan.me,
                    inst.clock.scn,
                    block,
                    Message::Wrote { block, version },
                )
            } else {
                Ok(())
            }
        }
        None => Ok(()),
    }
}

fn tell_write(inst: &Inst, core: &mut Core, block: BlockNo) -> Result<(), NoMemory>
    ensures { OnOk result (core.new ≡ write_told_as inst.now core.old block (target inst.now block)) }
{
    match target_of(inst, block) {
        Target::Data => send_wrote(inst, core, block),
        _ => Ok(()),
    }
}

/// A block is written; how that went is returned. Where it failed the instance ends.
///
/// # Errors
///
/// There is no memory for a message or for the journal's entries.
pub fn write_due<D: SharedDisk>(
    alloc: Global,
    inst: &mut Inst,
    block: BlockNo,
    core: &mut Core,
    disk: &mut D,
) -> Result<Written, NoMemory>
    requires { block < 200 }
    ensures part { IfOk result (λ how. inst.new ≡ block_written inst.old block how) }
    ensures core { IfOk result (λ how. core.new ≡ write_told inst.old core.old block how) }
    ensures disk { IfOk result (λ how. WritesBlockAs block (bytes_to_write inst.old block) how (D.state disk.old) (D.state disk.new)) }
{
    let bytes = bytes_to_write(inst, block);
    let how = write_block(disk, block, &bytes);
    match how {
        Written::Done => {
            tell_write(inst, core, block)?;
            note_write(inst, block);
        }
        Written::Failed => lose(alloc, inst, core, Loss::Ended { bad: false }, Some(0))?,
    }
    Ok(how)
}
