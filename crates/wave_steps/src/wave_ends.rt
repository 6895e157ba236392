//! A control line finds nothing to do; an instance leaves the wave; the next wave rises.

ghost use Rattle.std.specs.Prelude.{◌≡◌, OnOk, is_none};
ghost use Rattle.std.specs.List.{list_all};
ghost use Rattle.inst_state.specs.State.{line_now};
ghost use Rattle.wave_steps.specs.WaveEnd.{finds_nothing, has_answered_all, is_last, is_settled, joins_by, left, may_leave, may_rise, may_skip, next_wave, risen, skipped};

use base_types::NoMemory;
use inst_set::InstSet;
use inst_state::{Control, Core, Inst, Life, Wanted, Waves};
use journal::Entry;

fn joins_by(line: u32, life: &Life) -> bool
    ensures { result ≡ joins_by line life.now }
{
    match life {
        Life::Joining(own) => *own == line,
        _ => false,
    }
}

// Whether a line finds nothing to do at its instance.
fn finds_nothing(inst: &Inst, core: &Core, control: &Control) -> bool
    ensures { result ≡ finds_nothing inst.now core.now control.now.line control.now.wanted }
{
    let live = core.is_live(inst.plan.me);
    match control.wanted {
        Wanted::Start { .. } => live && !joins_by(control.line, &inst.life),
        _ => !live,
    }
}

/// Whether an open control line of an instance finds nothing to do: a start line whose instance is live and not on its way
/// by that line, or any other one whose instance isn't live.
pub fn may_skip(inst: &Inst, core: &Core, line: u64) -> bool
    ensures { result ≡ may_skip inst.now core.now line }
{
    match core.open_control(line) {
        Some(control) => {
            control.wanted.maker() == inst.plan.me && finds_nothing(inst, core, &control)
        }
        None => false,
    }
}

/// An open control line is answered as one that found nothing to do.
///
/// # Errors
///
/// There is no memory for the journal's entry.
pub fn skip(line: u64, core: &mut Core) -> Result<(), NoMemory>
    ensures { OnOk result (core.new ≡ skipped core.old line) }
{
    match core.open_control(line) {
        Some(control) => {
            core.answer_control(control.line);
            core.tell(Entry::NotDone { line: control.line })
        }
        None => Ok(()),
    }
}

fn has_answered_all(inst: &Inst) -> bool
    ensures { result ≡ has_answered_all inst.now }
{
    inst.plan
        .mine
        .as_slice()
        .iter()
        .all(|z| inst.line_now(usize::from(*z)).is_none())
}

/// Whether an instance may leave the wave: it has entered it and hasn't left it, and its lines of the wave are answered.
pub fn may_leave(inst: &Inst, core: &Core) -> bool
    ensures { result ≡ may_leave inst.now core.now }
{
    inst.wave.entered == core.waves.wave
        && !core.waves.over
        && !core.waves.left.has(inst.plan.me)
        && has_answered_all(inst)
}

/// An instance leaves the wave.
pub fn leave(inst: &Inst, core: &mut Core)
    ensures { core.new ≡ left inst.now core.old }
{
    core.waves.left.insert(inst.plan.me);
}

fn is_settled(core: &Core) -> bool
    ensures { result ≡ is_settled core.now }
{
    core.is_running() || core.is_dark()
}

/// Whether an instance may let the next wave rise: it is the first one, each instance has left this wave, each control line
/// is answered, no recovery is under way, nobody is paused and no message is under way.
pub fn may_rise(inst: &Inst, core: &Core) -> bool
    ensures { result ≡ may_rise inst.now core.now }
{
    inst.plan.me.get() == 0
        && !core.waves.over
        && core.all_left()
        && core.are_answered()
        && is_settled(core)
        && core.paused.is_empty()
        && core.net.links.is_empty()
}

// The next wave, if there is one.
fn pass(waves: &mut Waves)
    ensures { waves.new ≡ next_wave waves.old }
{
    if waves.wave >= waves.count {
        waves.over = true;
    } else {
        waves.wave = waves.wave.saturating_add(1);
    }
    waves.left = InstSet::new();
    waves.marked = InstSet::new();
    waves.steps = 0;
}

/// The next wave rises; the last one is followed by none.
pub fn rise(core: &mut Core)
    ensures { core.new ≡ risen core.old }
{
    pass(&mut core.waves);
}
