//! A checkpoint ends: the control entry moves.

ghost use Rattle.std.specs.Prelude.{◌≡◌, ◌==◌, not, nat_le, filter, fold, IfOk, OnOk, slice_index_or, None};
ghost use Rattle.std.specs.List.{list_any};
ghost use Rattle.std.specs.Option.{option_copied};
ghost use Rattle.disk_calls.specs.Calls.{WritesControlAs};
ghost use Rattle.inst_state.specs.declared.inst.Begun.{Begun};
ghost use Rattle.inst_state.specs.declared.inst.Made.{Made};
ghost use Rattle.image_steps.specs.AskWrite.{past_version};
ghost use Rattle.disk_steps.specs.Checkpoint.{bytes_of_entry, checkpoint_ended, checkpoint_told, checkpointed, entry_now, is_past_left, is_ready, is_ready_if, may_end_checkpoint, position_now, same_version, scns_now, waits_for_none, with_made, with_made_before};

use base_types::{BlockNo, InstNo, NoMemory, RedoAt, Scn};
use control_image::{ControlEntry, ThreadStatus};
use disk_calls::{Written, write_control};
use inst_loss::{Loss, lose};
use inst_state::{Begun, Core, Inst, Made, Table};
use journal::Entry;
use rac_disk::SharedDisk;
use scn_clock::Clock;
use std::alloc::Global;

fn some_waits(waits: &[bool]) -> bool
    ensures { result ≡ list_any (λ (waited : Bool). waited) waits.now }
{
    waits.iter().any(|waited| *waited)
}

fn waits_for_none(waits: &[bool]) -> bool
    ensures { result ≡ waits_for_none waits.now }
{
    !some_waits(waits)
}

ghost use Rattle.std.specs.Prelude.{Bool};

fn same_version(one: Option<u64>, other: Option<u64>) -> bool
    ensures { result ≡ same_version one other }
{
    match (one, other) {
        (Some(one), Some(other)) => one == other,
        _ => false,
    }
}

fn past_waited_for(begun: &Begun, block: u16) -> Option<u64>
    ensures { result ≡ slice_index_or begun.now.pasts block None }
{
    match begun.pasts.as_slice().get(usize::from(block)) {
        Some(version) => *version,
        None => None,
    }
}

fn is_past_left(inst: &Inst, begun: &Begun, block: u16) -> bool
    ensures { result ≡ is_past_left inst.now begun.now block }
{
    same_version(
        past_waited_for(begun, block),
        inst.cache.past_version(BlockNo(block)),
    )
}

fn some_past_left(inst: &Inst, begun: &Begun) -> bool
    ensures { result ≡ list_any (is_past_left inst.now begun.now) (range_with_len 0 64) }
{
    (0..64u16).any(|block| is_past_left(inst, begun, block))
}

ghost use Rattle.std.specs.List.{range_with_len};

fn is_ready(inst: &Inst, begun: &Begun) -> bool
    ensures { result ≡ is_ready inst.now begun.now }
{
    waits_for_none(&begun.blocks) && waits_for_none(&begun.segment) && !some_past_left(inst, begun)
}

fn begun_of(inst: &Inst, line: u32) -> Option<&Begun>
    ensures { option_copied result ≡ find (λ (begun : Begun). begun.line == line) inst.now.wave.checkpoints }
{
    inst.wave
        .checkpoints
        .as_slice()
        .iter()
        .find(|begun| begun.line == line)
}

ghost use Rattle.std.specs.Prelude.{find};

/// Whether a line's checkpoint may end: all that it waits for is done.
pub fn may_end_checkpoint(inst: &Inst, line: u32) -> bool
    ensures { result ≡ may_end_checkpoint inst.now line }
{
    match begun_of(inst, line) {
        Some(begun) => is_ready(inst, begun),
        None => false,
    }
}

fn position_now(inst: &Inst) -> RedoAt
    ensures { result ≡ position_now inst.now }
{
    inst.cache
        .position(inst.segment.first_dirty(), inst.thread.durable())
}

/// The highest SCNs, with those of a record more.
pub fn with_made(scns: Clock, made: &Made) -> Clock
    ensures { result ≡ with_made scns made.now }
{
    Clock {
        scn: Scn(scns.scn.get().max(made.scn.get())),
        known: if made.ends {
            Scn(scns.known.get().max(made.scn.get()))
        } else {
            scns.known
        },
    }
}

fn with_made_before(at: u64, scns: Clock, made: &Made) -> Clock
    ensures { result ≡ with_made_before at scns made.now }
{
    if made.at < at {
        with_made(scns, made)
    } else {
        scns
    }
}

fn scns_before(at: u64, entry_scns: Clock, made: &[Made]) -> Clock
    ensures { result ≡ fold (with_made_before at) entry_scns made.now }
{
    let mut scns = entry_scns;
    for record in made {
        scns = with_made_before(at, scns, record);
    }
    scns
}

fn scns_now(inst: &Inst) -> Clock
    ensures { result ≡ scns_now inst.now }
{
    scns_before(
        position_now(inst).get(),
        inst.entry_scns,
        inst.made.as_slice(),
    )
}

fn entry_now(inst: &Inst) -> ControlEntry
    ensures { result ≡ entry_now inst.now }
{
    let scns = scns_now(inst);
    ControlEntry {
        status: ThreadStatus::Running,
        position: position_now(inst),
        highest_scn: scns.scn,
        highest_end_scn: scns.known,
    }
}

fn made_from(alloc: Global, made: &[Made], at: u64) -> Result<Table<Made>, NoMemory>
    ensures { IfOk result (λ kept. kept ≡ filter (λ (made : Made). nat_le at made.at) made.now) }
{
    let mut kept = Table::new(alloc);
    for record in made {
        if at <= record.at {
            kept.push(*record)?;
        }
    }
    Ok(kept)
}

fn begun_but(alloc: Global, begun: &[Begun], line: u32) -> Result<Table<Begun>, NoMemory>
    ensures { IfOk result (λ kept. kept ≡ filter (λ (begun : Begun). not (begun.line == line)) begun.now) }
{
    let mut kept = Table::new(alloc);
    for checkpoint in begun {
        if checkpoint.line != line {
            kept.push(*checkpoint)?;
        }
    }
    Ok(kept)
}

fn note_end(alloc: Global, inst: &mut Inst, line: u32) -> Result<(), NoMemory>
    ensures { OnOk result (inst.new ≡ checkpoint_ended inst.old line) }
{
    let scns = scns_now(inst);
    let made = made_from(alloc, inst.made.as_slice(), position_now(inst).get())?;
    let checkpoints = begun_but(alloc, inst.wave.checkpoints.as_slice(), line)?;
    inst.entry_scns = scns;
    inst.made = made;
    inst.wave.checkpoints = checkpoints;
    Ok(())
}

#[tactic(auto, unfolding(crate::specs::Checkpoint::bytes_of_entry))]
fn write_entry<D: SharedDisk>(disk: &mut D, me: InstNo, entry: &ControlEntry) -> Written
    requires { me < 8 }
    ensures { WritesControlAs me (bytes_of_entry entry.now) result (D.state disk.old) (D.state disk.new) }
{
    write_control(disk, me, &entry.write())
}

ghost use Rattle.std.specs.Prelude.{◌<◌};

/// A line's checkpoint ends: the control entry is written, and how that went is returned. Where it failed the instance ends.
///
/// # Errors
///
/// There is no memory for what is noted of it or for the journal's entries.
pub fn end_checkpoint<D: SharedDisk>(
    alloc: Global,
    inst: &mut Inst,
    line: u32,
    core: &mut Core,
    disk: &mut D,
) -> Result<Written, NoMemory>
    ensures part { IfOk result (λ how. inst.new ≡ checkpointed inst.old line how) }
    ensures core { IfOk result (λ how. core.new ≡ checkpoint_told inst.old core.old line how) }
    ensures disk { IfOk result (λ how. WritesControlAs inst.old.plan.me (bytes_of_entry (entry_now inst.old)) how (D.state disk.old) (D.state disk.new)) }
{
    let entry = entry_now(inst);
    let how = write_entry(disk, inst.plan.me, &entry);
    match how {
        Written::Done => {
            note_end(alloc, inst, line)?;
            core.answer_control(line);
            core.tell(Entry::Checkpointed { line })?;
        }
        Written::Failed => lose(alloc, inst, core, Loss::Ended { bad: false }, Some(0))?,
    }
    Ok(how)
}
