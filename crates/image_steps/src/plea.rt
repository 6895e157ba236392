//! The holder of a past image asks that the block be written.

ghost use Rattle.std.specs.Prelude.{◌≡◌, true, OnOk, slice_index_or, None};
ghost use Rattle.image_steps.specs.AskWrite.{is_past_waited_for, is_to_go, is_version, may_ask_write, needs_past_frame, waits_for_past, write_asked, write_plea_sent};

use crate::asking::needs_frame;
use crate::evicting::can_evict;
use crate::frames::has_idle_dirty;
use crate::sends::send_to_master;
use base_types::{BlockNo, NoMemory};
use inst_state::{Begun, Core, Inst};
use wire_net::Message;

fn is_version(version: u64, other: Option<u64>) -> bool
    ensures { result ≡ is_version version other }
{
    match other {
        Some(other) => other == version,
        None => false,
    }
}

// Whether a begun checkpoint waits for the past image of a block at a version to go.
fn waits_for_past(begun: &Begun, block: BlockNo, version: u64) -> bool
    ensures { result ≡ waits_for_past block version begun.now }
{
    match begun.pasts.as_slice().get(usize::from(block.get())) {
        Some(past) => is_version(version, *past),
        None => false,
    }
}

fn is_past_waited_for(inst: &Inst, block: BlockNo, version: u64) -> bool
    ensures { result ≡ is_past_waited_for inst.now block version }
{
    inst.wave
        .checkpoints
        .as_slice()
        .iter()
        .any(|begun| waits_for_past(begun, block, version))
}

// Whether a frame is needed, and no current image can go for it, not even once it is written.
fn needs_past_frame(inst: &Inst) -> bool
    ensures { result ≡ needs_past_frame inst.now }
{
    needs_frame(inst) && !can_evict(inst) && !has_idle_dirty(inst)
}

fn is_to_go(inst: &Inst, block: BlockNo, version: Option<u64>) -> bool
    ensures { result ≡ is_to_go inst.now block version }
{
    match version {
        Some(version) => is_past_waited_for(inst, block, version) || needs_past_frame(inst),
        None => false,
    }
}

/// Whether a write of a block may be asked for: its past image is to go, for a checkpoint that has begun or for a frame,
/// and no write was asked for.
pub fn may_ask_write(inst: &Inst, block: BlockNo) -> bool
    ensures { result ≡ may_ask_write inst.now block }
{
    !inst.cache.is_past_asked(block) && is_to_go(inst, block, inst.cache.past_version(block))
}

/// The master of a block is asked that the block be written.
///
/// # Errors
///
/// There is no memory for the message.
pub fn ask_write(inst: &mut Inst, block: BlockNo, core: &mut Core) -> Result<(), NoMemory>
    ensures part { OnOk result (inst.new ≡ write_asked inst.old block) }
    ensures core { OnOk result (core.new ≡ write_plea_sent inst.old core.old block) }
{
    let version = inst.cache.past_version(block);
    inst.cache.ask_past(block);
    match version {
        Some(version) => {
            let message = Message::WritePlease {
                block,
                version,
                holder: inst.plan.me,
                grant: None,
            };
            send_to_master(inst, core, block, message)
        }
        None => Ok(()),
    }
}
