//! What the leader needs for a Reopen, but for the force of its redo.

ghost use Rattle.std.specs.Prelude.{◌≡◌};
ghost use Rattle.std.specs.List.{list_all};
ghost use Rattle.disk_steps.specs.Ready.{is_done, is_ready_but_forced};

use inst_state::{Core, Inst};
use undo_segment::Segment;

fn is_done(segment: &Segment) -> bool
    ensures { result ≡ is_done segment.now }
{
    segment.active() == 0 && segment.first_dirty().is_none()
}

fn are_done(segments: &[Segment]) -> bool
    ensures { result ≡ list_all is_done segments.now }
{
    segments.iter().all(|segment| is_done(segment))
}

/// Whether the leader has rolled back and written what it adopted.
pub fn is_ready_but_forced(inst: &Inst, core: &Core) -> bool
    ensures { result ≡ is_ready_but_forced inst.now core.now }
{
    core.is_thawed() && core.is_led_by(inst.plan.me) && are_done(inst.leading.adopted.as_slice())
}
