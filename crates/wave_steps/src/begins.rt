//! Checkpoints begin.

ghost use Rattle.std.specs.Prelude.{◌≡◌, IfOk, map};
ghost use Rattle.std.specs.List.{range_with_len};
ghost use Rattle.wave_steps.specs.Begins.{begins_by, begun_in, begun_now, waits_for_block, waits_for_past, waits_for_undo};

use base_types::{BlockNo, NoMemory};
use inst_state::{Begun, Control, Inst, Table};
use std::alloc::Global;

fn waits_for_block(inst: &Inst, block: BlockNo) -> bool
    ensures { result ≡ waits_for_block inst.now block }
{
    !inst.life.is_down() && inst.cache.is_dirty(block)
}

fn waits_for_undo(inst: &Inst, k: u8) -> bool
    ensures { result ≡ waits_for_undo inst.now k }
{
    !inst.life.is_down() && u16::from(k) <= inst.segment.undo_len() / 4 && inst.segment.is_dirty(k)
}

fn waits_for_past(inst: &Inst, block: BlockNo) -> Option<u64>
    ensures { result ≡ waits_for_past inst.now block }
{
    if inst.life.is_down() {
        None
    } else {
        inst.cache.past_version(block)
    }
}

// The data blocks that are to be written, by their numbers.
fn awaited_blocks(inst: &Inst) -> [bool; 64]
    ensures { result ≡ map (waits_for_block inst.now) (range_with_len 0 64) }
{
    let mut blocks = [false; 64];
    for block in 0..64u16 {
        blocks[usize::from(block)] = waits_for_block(inst, BlockNo(block));
    }
    blocks
}

// The blocks of the own segment that are to be written, the header first.
fn awaited_undo(inst: &Inst) -> [bool; 17]
    ensures { result ≡ map (waits_for_undo inst.now) (range_with_len 0 17) }
{
    let mut blocks = [false; 17];
    for k in 0..17u8 {
        blocks[usize::from(k)] = waits_for_undo(inst, k);
    }
    blocks
}

// The versions of the past images that are to go, by the blocks' numbers.
fn awaited_pasts(inst: &Inst) -> [Option<u64>; 64]
    ensures { result ≡ map (waits_for_past inst.now) (range_with_len 0 64) }
{
    let mut pasts = [None; 64];
    for block in 0..64u16 {
        pasts[usize::from(block)] = waits_for_past(inst, BlockNo(block));
    }
    pasts
}

// What a checkpoint waits for that begins now: all that is dirty, and each past image.
#[tactic(auto, unfolding(crate::specs::Begins::begun_now))]
fn begun_now(inst: &Inst, line: u32) -> Begun
    ensures { result ≡ begun_now inst.now line }
{
    Begun {
        line,
        blocks: awaited_blocks(inst),
        segment: awaited_undo(inst),
        pasts: awaited_pasts(inst),
    }
}

// Whether a checkpoint begins by a control line.
fn begins_by(inst: &Inst, control: &Control) -> bool
    ensures { result ≡ begins_by inst.now control.now }
{
    !control.done && control.wanted.is_checkpoint_of(inst.plan.me)
}

// The checkpoints of an instance that begin by control lines.
pub(crate) fn begun_in(
    alloc: Global,
    inst: &Inst,
    controls: &[Control],
) -> Result<Table<Begun>, NoMemory>
    ensures { IfOk result (λ begun. begun ≡ begun_in inst.now controls.now) }
{
    let mut begun = Table::new(alloc);
    for control in controls {
        if begins_by(inst, control) {
            begun.push(begun_now(inst, control.line))?;
        }
    }
    Ok(begun)
}
