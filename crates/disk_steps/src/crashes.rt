//! An instance crashes, as a line asks.

ghost use Rattle.std.specs.Prelude.{◌≡◌, ◌<◌, ◌≤◌, length, take, IfOk, OnOk};
ghost use Rattle.disk_steps.specs.Crash.{CrashesAs, KeepsAs, crash_bytes, crash_told, crash_told_by, crashed, kept_by, kept_count, kept_to};
ghost use Rattle.inst_loss.specs.Lost.{lost};

use base_types::{InstNo, NoMemory};
use disk_calls::{Appended, append};
use inst_loss::{Loss, lose};
use inst_state::{Control, Core, Inst, Wanted};
use rac_disk::SharedDisk;
use script_text::Keep;
use std::alloc::Global;

/// How a crash went: what of the redo that waits reached the disk.
#[derive(Clone, Copy, Debug, PartialEq, Eq)]
pub enum Kept {
    /// Nothing was to reach it: there was no call.
    Nothing,
    /// Some bytes were to reach it, and the append went so.
    Bytes(Appended),
}

fn kept_count(keep: Keep, waiting: usize) -> usize
    ensures count { result ≡ kept_count keep waiting }
    ensures within { result ≤ waiting }
{
    match keep {
        Keep::First(count) => (waiting as u64).min(count) as usize,
        Keep::All => waiting,
        Keep::AllBut(count) => (waiting as u64).saturating_sub(count) as usize,
    }
}

fn kept_by(wanted: Wanted, waiting: usize) -> usize
    ensures count { result ≡ kept_by wanted waiting }
    ensures within { result ≤ waiting }
{
    match wanted {
        Wanted::Crash { keep, .. } => kept_count(keep, waiting),
        _ => 0,
    }
}

fn crash_bytes<'i>(inst: &'i Inst, control: &Control) -> &'i [u8]
    ensures { result.now ≡ crash_bytes inst.now control.now }
{
    let waiting = inst.thread.waiting();
    let count = kept_by(control.wanted, waiting.len());
    &waiting[..count]
}

fn keep_bytes<D: SharedDisk>(disk: &mut D, me: InstNo, bytes: &[u8]) -> Kept
    requires { me < 8 }
    ensures { KeepsAs me bytes.now result (D.state disk.old) (D.state disk.new) }
{
    if bytes.is_empty() {
        Kept::Nothing
    } else {
        Kept::Bytes(append(disk, me, bytes))
    }
}

fn kept_to(inst: &Inst, control: &Control) -> u64
    ensures { result ≡ kept_to inst.now control.now }
{
    let count = crash_bytes(inst, control).len() as u64;
    inst.thread.durable().get().saturating_add(count)
}

fn tell_crash(
    alloc: Global,
    inst: &mut Inst,
    core: &mut Core,
    control: &Control,
    how: Kept,
) -> Result<(), NoMemory>
    ensures part { OnOk result (inst.new ≡ lost inst.old) }
    ensures core { OnOk result (core.new ≡ crash_told_by inst.old core.old control.now how) }
{
    let line = control.line;
    let crashed = Loss::Crashed { line };
    match how {
        Kept::Nothing => {
            let durable = inst.thread.durable().get();
            lose(alloc, inst, core, crashed, Some(durable))
        }
        Kept::Bytes(Appended::Whole) => {
            let to = kept_to(inst, control);
            lose(alloc, inst, core, crashed, Some(to))
        }
        Kept::Bytes(Appended::Cut(kept)) => {
            core.answer_control(line);
            lose(alloc, inst, core, Loss::Ended { bad: false }, kept)
        }
    }
}

/// An instance crashes by a line of the current wave: some of the redo that waits is appended to its log, as the line asks, and what it
/// had in memory is lost. How the append went is returned; a crash in which it failed is an end by a fault.
///
/// # Errors
///
/// There is no memory for the journal's entries.
pub fn crash<D: SharedDisk>(
    alloc: Global,
    inst: &mut Inst,
    line: u32,
    core: &mut Core,
    disk: &mut D,
) -> Result<Kept, NoMemory>
    ensures part { IfOk result (λ how. inst.new ≡ crashed inst.old core.old line) }
    ensures core { IfOk result (λ how. core.new ≡ crash_told inst.old core.old line how) }
    ensures disk { IfOk result (λ how. CrashesAs inst.old core.old line how (D.state disk.old) (D.state disk.new)) }
{
    match core.open_control(u64::from(line)) {
        Some(control) => {
            let how = keep_bytes(disk, inst.plan.me, crash_bytes(inst, &control));
            tell_crash(alloc, inst, core, &control, how)?;
            Ok(how)
        }
        None => Ok(Kept::Nothing),
    }
}
