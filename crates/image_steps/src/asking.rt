//! A block is asked for.

ghost use Rattle.std.specs.Prelude.{◌≡◌, OnOk};
ghost use Rattle.std.specs.List.{list_any};
ghost use Rattle.buffer_cache.specs.Cache.{place_at};
ghost use Rattle.image_steps.specs.Ask.{ask_sent, asked, dead_lacks, has_frame, held_mode, is_lacked, is_need, lacked, lacks, may_ask, needs_frame, wants_frame};
ghost use Rattle.image_steps.specs.Frames.{all_blocks};

use crate::sends::send_to_master;
use base_types::{BlockNo, NoMemory};
use inst_state::{Core, Inst, Needed, serves};
use wire_net::{Message, Mode};

// Whether a block is the one that is needed, in this mode or a stronger one.
fn is_need(block: BlockNo, mode: Mode, needed: Option<Needed>) -> bool
    ensures { result ≡ is_need block mode needed }
{
    match needed {
        Some(need) => need.block == block && serves(need.mode, mode),
        None => false,
    }
}

fn lacks(inst: &Inst, block: BlockNo, mode: Mode, z: u16) -> bool
    ensures { result ≡ lacks inst.now block mode z }
{
    let z = usize::from(z);
    is_need(block, mode, inst.needed(z)) && inst.image_in_hand(z).is_none()
}

fn some_line_lacks(inst: &Inst, block: BlockNo, mode: Mode) -> bool
    ensures { result ≡ list_any (lacks inst.now block mode) inst.now.plan.mine }
{
    inst.plan
        .mine
        .as_slice()
        .iter()
        .any(|z| lacks(inst, block, mode, *z))
}

fn dead_lacks(inst: &Inst, block: BlockNo, mode: Mode) -> bool
    ensures { result ≡ dead_lacks inst.now block mode }
{
    is_need(block, mode, inst.dead_needed()) && !inst.holds(block, Mode::Exclusive)
}

fn is_lacked(inst: &Inst, block: BlockNo, mode: Mode) -> bool
    ensures { result ≡ is_lacked inst.now block mode }
{
    some_line_lacks(inst, block, mode) || dead_lacks(inst, block, mode)
}

/// In which mode a block is lacked: exclusively, where a line or the dead transaction needs it so and has it not.
pub fn lacked(inst: &Inst, block: BlockNo) -> Option<Mode>
    ensures { result ≡ lacked inst.now block }
{
    if is_lacked(inst, block, Mode::Exclusive) {
        Some(Mode::Exclusive)
    } else if is_lacked(inst, block, Mode::Shared) {
        Some(Mode::Shared)
    } else {
        None
    }
}

fn wants_frame(inst: &Inst, block: BlockNo) -> bool
    ensures { result ≡ wants_frame inst.now block }
{
    inst.cache.asked(block).is_none()
        && inst.cache.held(block).is_none()
        && lacked(inst, block).is_some()
}

fn some_block_wants_frame(inst: &Inst) -> bool
    ensures { result ≡ list_any (wants_frame inst.now) (all_blocks inst.now) }
{
    (0..inst.cache.blocks()).any(|block| wants_frame(inst, BlockNo(block)))
}

/// Whether a frame is needed: none is free, and an Ask that isn't an upgrade lacks nothing else.
pub fn needs_frame(inst: &Inst) -> bool
    ensures { result ≡ needs_frame inst.now }
{
    inst.cache.free() == 0 && some_block_wants_frame(inst)
}

fn has_frame(inst: &Inst, block: BlockNo) -> bool
    ensures { result ≡ has_frame inst.now block }
{
    inst.cache.held(block).is_some() || inst.cache.free() > 0
}

/// Whether a block may be asked for: it is lacked and isn't asked for, and there is a frame for it.
pub fn may_ask(inst: &Inst, block: BlockNo) -> bool
    ensures { result ≡ may_ask inst.now block }
{
    inst.cache.asked(block).is_none() && has_frame(inst, block) && lacked(inst, block).is_some()
}

fn held_mode(inst: &Inst, block: BlockNo) -> Mode
    ensures { result ≡ held_mode (place_at inst.now.cache block).current }
{
    match inst.cache.held(block) {
        Some(_) => Mode::Shared,
        None => Mode::Null,
    }
}

/// A block is asked for: a frame is reserved, that of its current image for an upgrade.
///
/// # Errors
///
/// There is no memory for the message.
pub fn ask(inst: &mut Inst, block: BlockNo, core: &mut Core) -> Result<(), NoMemory>
    ensures part { OnOk result (inst.new ≡ asked inst.old block) }
    ensures core { OnOk result (core.new ≡ ask_sent inst.old core.old block) }
{
    match lacked(inst, block) {
        Some(mode) => {
            let message = Message::Ask {
                block,
                mode,
                held: held_mode(inst, block),
                asker: inst.plan.me,
            };
            inst.cache.ask(block, mode);
            send_to_master(inst, core, block, message)
        }
        None => Ok(()),
    }
}
