//! An instance reports what it has, and hands a past image to the leader.

ghost use Rattle.std.specs.Prelude.{◌≡◌, ◌++◌, IfOk, OnOk, filter_map, is_none, map};
ghost use Rattle.std.specs.Option.{option_to_list};
ghost use Rattle.buffer_cache.specs.Cache.{place_at};
ghost use Rattle.inst_state.specs.Shared.{is_inst};
ghost use Rattle.report_steps.specs.Report.{all_blocks, frame_at, given, is_global, is_settled, is_unsettled, may_give, may_report, reported, reported_core, without_hand};

use base_types::{BlockNo, InstNo, NoMemory, Sequence};
use inst_state::{Core, Inst, Session, Table};
use std::alloc::Global;
use wire_net::{Frame, Mode, Report, Role};

fn is_global(role: Role) -> bool
    ensures { result ≡ is_global role }
{
    matches!(role, Role::Global)
}

// Whether the current image of a block is dirty with its role global.
fn is_unsettled(inst: &Inst, block: BlockNo) -> bool
    ensures { result ≡ is_unsettled (place_at inst.now.cache block).current }
{
    match inst.cache.held(block) {
        Some(held) => held.dirty && is_global(held.role),
        None => false,
    }
}

fn is_settled(inst: &Inst) -> bool
    ensures { result ≡ is_settled inst.now }
{
    (0..inst.cache.blocks()).all(|block| !is_unsettled(inst, BlockNo(block)))
}

/// Whether an instance may report: the phase is Frozen, it is live and hasn't reported yet, and none of its current images
/// is dirty with its role global.
pub fn may_report(inst: &Inst, core: &Core) -> bool
    ensures { result ≡ may_report inst.now core.now }
{
    core.is_live(inst.plan.me)
        && core.is_frozen()
        && !core.members.reported.has(inst.plan.me)
        && is_settled(inst)
}

// What an instance tells of a block, if it has an image of it.
fn frame_at(inst: &Inst, block: BlockNo) -> Option<Frame>
    ensures { result ≡ frame_at inst.now block }
{
    let past = inst.cache.past_version(block);
    match inst.cache.held(block) {
        Some(held) => Some(Frame {
            block,
            mode: held.mode,
            version: held.version,
            dirty: held.dirty,
            past,
        }),
        None => match past {
            Some(_) => Some(Frame {
                block,
                mode: Mode::Null,
                version: 0,
                dirty: false,
                past,
            }),
            None => None,
        },
    }
}

fn push_if(frames: &mut Sequence<Frame>, frame: Option<Frame>) -> Result<(), NoMemory>
    ensures { OnOk result (frames.new ≡ frames.old ++ option_to_list frame) }
{
    match frame {
        Some(frame) => frames.push(frame),
        None => Ok(()),
    }
}

#[tactic(auto, using(crate::proofs::Numbers::values_more))]
fn frames_of(alloc: Global, inst: &Inst) -> Result<Sequence<Frame>, NoMemory>
    ensures { IfOk result (λ frames. frames ≡ filter_map (frame_at inst.now) (all_blocks inst.now)) }
{
    let mut frames = Sequence::new(alloc);
    for block in 0..inst.cache.blocks() {
        push_if(&mut frames, frame_at(inst, BlockNo(block)))?;
    }
    Ok(frames)
}

fn forget_hand(session: &mut Session)
    ensures { session.new ≡ without_hand session.old }
{
    session.job.copy = None;
    session.job.handed_for = None;
    session.job.undo_out = None;
}

fn forget_each(sessions: &mut [Session])
    ensures { sessions.new ≡ map without_hand sessions.old }
{
    for session in sessions.iter_mut() {
        forget_hand(session);
    }
}

#[tactic(auto, using(inst_state::proofs::Mapped::mapped_whole))]
fn forget_hands(sessions: &mut Table<Session>)
    ensures { sessions.new ≡ map without_hand sessions.old }
{
    forget_each(sessions.as_mut_slice());
}

/// An instance reports its clocks and images and pauses. Its statements forget what they asked for and what came for them;
/// its reservations, wishes and kept copies go.
///
/// # Errors
///
/// There is no memory for the report.
pub fn report(alloc: Global, inst: &mut Inst, core: &mut Core) -> Result<(), NoMemory>
    ensures part { OnOk result (inst.new ≡ reported inst.old) }
    ensures core { OnOk result (core.new ≡ reported_core inst.old core.old) }
{
    let me = inst.plan.me;
    let frames = frames_of(alloc, inst)?;
    let report = Report {
        scn: inst.clock.scn,
        known: inst.clock.known,
        frames,
    };
    core.recovery.reports.add(me, report);
    core.members.reported.insert(me);
    core.paused.insert(me);
    forget_hands(&mut inst.sessions);
    inst.cache.forget();
    inst.paused = true;
    inst.leading.leads = false;
    Ok(())
}

fn is_inst(me: InstNo, inst: Option<InstNo>) -> bool
    ensures { result ≡ is_inst me inst }
{
    match inst {
        Some(inst) => inst == me,
        None => false,
    }
}

/// Whether an instance may hand its past image of a block to the leader: all have reported, nobody has a current image, its
/// own is the newest past one, and none was handed yet.
pub fn may_give(inst: &Inst, core: &Core, block: BlockNo) -> bool
    ensures { result ≡ may_give inst.now core.now block }
{
    core.is_live(inst.plan.me)
        && core.is_frozen()
        && core.members.all_reported()
        && !core.recovery.reports.is_held(block)
        && is_inst(inst.plan.me, core.recovery.reports.newest_past_of(block))
        && core.given_of(block).is_none()
}

/// An equal of an instance's past image of a block is handed to the leader.
///
/// # Errors
///
/// There is no memory for it.
pub fn give(inst: &Inst, core: &mut Core, block: BlockNo) -> Result<(), NoMemory>
    ensures { OnOk result (core.new ≡ given inst.now core.old block) }
{
    match inst.cache.past(block) {
        Some(image) => core.recovery.given.push(image.copy()),
        None => Ok(()),
    }
}
