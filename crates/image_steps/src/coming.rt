//! A copy or a block of undo has come.

ghost use Rattle.std.specs.Prelude.{◌≡◌, ◌++◌, OnOk, IfOk, map, slice_index_or, slice_set};
ghost use Rattle.std.specs.List.{filter};
ghost use Rattle.std.specs.Option.{option_copied};
ghost use Rattle.inst_state.specs.Sessions.{new_session};
ghost use Rattle.image_steps.specs.Hear.{heard};
ghost use Rattle.image_steps.specs.TakeCopy.{came_at, came_by, came_dropped, came_for, copy_came, copy_kept, copy_taken, handed_for, handed_in, handed_to, handing, has_come, is_copy_of, is_to_read, job_with_undo, may_take_copy, undo_came, undo_came_to, waiting, waits_for_copy, with_came, with_undo, without_came};

use crate::hearing::{first_message, hear};
use base_types::{BlockNo, InstNo, NoMemory, Scn, Sequence};
use block_image::DataBlock;
use buffer_cache::BufferCache;
use inst_state::{CameCopy, Core, ImageName, Inst, Job, Needed, Session, Table, same_name};
use std::alloc::Global;
use undo_segment::Handed;
use wire_net::{Lane, Message, Mode, UndoImage};

fn has_come(message: Option<&Message>) -> bool
    ensures { result ≡ has_come (option_copied message.entry) }
{
    matches!(
        message,
        Some(Message::Copy { .. }) | Some(Message::UndoIs { .. })
    )
}

/// Whether a copy or a block of undo is first on the link of a lane from an instance.
pub fn may_take_copy(inst: &Inst, core: &Core, from: InstNo, lane: Lane) -> bool
    ensures { result ≡ may_take_copy inst.now core.now from lane }
{
    has_come(first_message(inst, core, from, lane))
}

fn is_to_read(block: BlockNo, needed: Option<Needed>) -> bool
    ensures { result ≡ is_to_read block needed }
{
    match needed {
        Some(need) => matches!(need.mode, Mode::Shared) && need.block == block,
        None => false,
    }
}

// Whether a session's line waits to read a block, and what was changed up to an SCN is all that it sees.
fn waits_for_copy(inst: &Inst, block: BlockNo, upto: Scn, z: u16) -> bool
    ensures { result ≡ waits_for_copy inst.now block upto z }
{
    let z = usize::from(z);
    is_to_read(block, inst.needed(z))
        && inst.snapshot_or_zero(z).get() <= upto.get()
        && !inst.holds(block, Mode::Shared)
}

// Adds those of these sessions whose lines wait to read a block.
fn add_waiting(
    inst: &Inst,
    block: BlockNo,
    upto: Scn,
    sessions: &[u16],
    waiting: &mut Sequence<u16>,
) -> Result<(), NoMemory>
    ensures { OnOk result (waiting.new ≡ waiting.old ++ filter (waits_for_copy inst.now block upto) sessions.now) }
{
    for z in sessions {
        if waits_for_copy(inst, block, upto, *z) {
            waiting.push(*z)?;
        }
    }
    Ok(())
}

// The sessions whose lines wait to read a block and are served by a copy.
fn waiting(alloc: Global, inst: &Inst, block: BlockNo, upto: Scn) -> Result<Sequence<u16>, NoMemory>
    ensures { IfOk result (λ whose. whose ≡ waiting inst.now block upto) }
{
    let mut whose = Sequence::new(alloc);
    add_waiting(inst, block, upto, inst.plan.mine.as_slice(), &mut whose)?;
    Ok(whose)
}

fn get_copy(session: &mut Session, image: &DataBlock, upto: Scn)
    ensures { session.new ≡ with_came image.now upto session.old }
{
    session.job.copy = Some(CameCopy {
        image: image.copy(),
        upto,
    });
}

#[tactic(auto, using(std::proofs::lemmas::List::set_past))]
fn get_copy_at(sessions: &mut Table<Session>, z: usize, image: &DataBlock, upto: Scn)
    ensures { sessions.new ≡ came_at image.now upto sessions.old z }
{
    if let Some(session) = sessions.get_mut(z) {
        get_copy(session, image, upto);
    }
}

fn get_copies(sessions: &mut Table<Session>, whose: &[u16], image: &DataBlock, upto: Scn)
    ensures { sessions.new ≡ came_for image.now upto sessions.old whose.now }
{
    for z in whose {
        get_copy_at(sessions, usize::from(*z), image, upto);
    }
}

fn keep(cache: &mut BufferCache, image: DataBlock, upto: Scn) -> Result<(), NoMemory>
    ensures { OnOk result (cache.new ≡ copy_kept cache.old image upto) }
{
    cache.release(image.number());
    cache.keep_copy(image, upto)
}

// A copy came: each line gets it that waits for it, and it is kept.
fn take_image(alloc: Global, inst: &mut Inst, image: DataBlock, upto: Scn) -> Result<(), NoMemory>
    ensures { OnOk result (inst.new ≡ copy_came inst.old image upto) }
{
    let whose = waiting(alloc, inst, image.number(), upto)?;
    get_copies(&mut inst.sessions, whose.as_slice(), &image, upto);
    keep(&mut inst.cache, image, upto)
}

fn add_undo(handed: &mut Handed, image: UndoImage) -> Result<(), NoMemory>
    ensures { OnOk result (handed.new ≡ with_undo handed.old image) }
{
    match image {
        UndoImage::Head(head) => handed.add_head(head),
        UndoImage::Block(block) => handed.add_block(block),
    }
}

// What was handed in for another image goes.
fn keep_for(alloc: Global, job: &mut Job, name: &Option<ImageName>)
    ensures { job.new ≡ record job.old { handed = handed_for job.old name.now; handed_for = name.now } }
{
    if !same_name(job.handed_for, *name) {
        job.handed = Handed::new(alloc);
    }
    job.handed_for = *name;
}

fn hand(
    alloc: Global,
    job: &mut Job,
    name: &Option<ImageName>,
    image: UndoImage,
) -> Result<(), NoMemory>
    ensures { OnOk result (job.new ≡ handing name.now image job.old) }
{
    keep_for(alloc, job, name);
    add_undo(&mut job.handed, image)
}

#[tactic(auto, using(std::proofs::lemmas::List::set_past))]
fn hand_at(
    alloc: Global,
    sessions: &mut Table<Session>,
    z: usize,
    name: &Option<ImageName>,
    image: UndoImage,
) -> Result<(), NoMemory>
    ensures { OnOk result (sessions.new ≡ slice_set sessions.old z (handed_to name.now image (slice_index_or sessions.old z new_session))) }
{
    match sessions.get_mut(z) {
        Some(session) => hand(alloc, &mut session.job, name, image),
        None => Ok(()),
    }
}

/// A header or an undo block is handed in for the image that a session's line has in hand.
///
/// # Errors
///
/// There is no memory for it.
pub fn hand_in(alloc: Global, inst: &mut Inst, z: usize, image: UndoImage) -> Result<(), NoMemory>
    ensures { OnOk result (inst.new ≡ handed_in inst.old z image) }
{
    let name = inst.name_in_hand(z);
    hand_at(alloc, &mut inst.sessions, z, &name, image)
}

// Undo came: it is handed in where the image that it was asked for is in hand still.
fn take_undo(
    alloc: Global,
    job: &mut Job,
    name: &Option<ImageName>,
    image: UndoImage,
) -> Result<(), NoMemory>
    ensures { OnOk result (job.new ≡ job_with_undo name.now image job.old) }
{
    let fits = same_name(job.undo_out, *name);
    job.undo_out = None;
    if fits {
        hand(alloc, job, name, image)
    } else {
        Ok(())
    }
}

#[tactic(auto, using(std::proofs::lemmas::List::set_past))]
fn take_undo_at(
    alloc: Global,
    sessions: &mut Table<Session>,
    z: usize,
    name: &Option<ImageName>,
    image: UndoImage,
) -> Result<(), NoMemory>
    ensures { OnOk result (sessions.new ≡ slice_set sessions.old z (undo_came_to name.now image (slice_index_or sessions.old z new_session))) }
{
    match sessions.get_mut(z) {
        Some(session) => take_undo(alloc, &mut session.job, name, image),
        None => Ok(()),
    }
}

fn take_undo_for(alloc: Global, inst: &mut Inst, z: usize, image: UndoImage) -> Result<(), NoMemory>
    ensures { OnOk result (inst.new ≡ undo_came inst.old z image) }
{
    let name = inst.name_in_hand(z);
    take_undo_at(alloc, &mut inst.sessions, z, &name, image)
}

fn take_message(alloc: Global, inst: &mut Inst, message: Message) -> Result<(), NoMemory>
    ensures { OnOk result (inst.new ≡ came_by inst.old (Some message)) }
{
    let Message::Copy { image, upto } = message else {
        let Message::UndoIs { image, job } = message else {
            return Ok(());
        };
        return take_undo_for(alloc, inst, usize::from(job), image);
    };
    take_image(alloc, inst, image, upto)
}

ghost use Rattle.std.specs.Prelude.{Some};

/// A copy or a block of undo that is first on a link is taken: a copy is kept, also for each line that waits for it, and undo is
/// handed in where the image that it was asked for is in hand still.
///
/// # Errors
///
/// There is no memory for what is kept.
pub fn take_copy(
    alloc: Global,
    inst: &mut Inst,
    from: InstNo,
    lane: Lane,
    core: &mut Core,
) -> Result<(), NoMemory>
    ensures part { OnOk result (inst.new ≡ copy_taken inst.old core.old from lane) }
    ensures core { OnOk result (core.new ≡ heard inst.old core.old from lane) }
{
    match hear(inst, core, from, lane) {
        Some(packet) => take_message(alloc, inst, packet.message),
        None => Ok(()),
    }
}

fn is_copy_of(block: BlockNo, copy: &Option<CameCopy>) -> bool
    ensures { result ≡ is_copy_of block copy.now }
{
    match copy {
        Some(copy) => copy.image.number() == block,
        None => false,
    }
}

fn drop_copy(session: &mut Session, block: BlockNo)
    ensures { session.new ≡ without_came block session.old }
{
    if is_copy_of(block, &session.job.copy) {
        session.job.copy = None;
    }
}

fn drop_each(sessions: &mut [Session], block: BlockNo)
    ensures { sessions.new ≡ map (without_came block) sessions.old }
{
    for session in sessions.iter_mut() {
        drop_copy(session, block);
    }
}

#[tactic(auto, using(inst_state::proofs::Mapped::mapped_whole))]
fn drop_all(sessions: &mut Table<Session>, block: BlockNo)
    ensures { sessions.new ≡ map (without_came block) sessions.old }
{
    drop_each(sessions.as_mut_slice(), block);
}

/// Copies of a block that came for statements are dropped.
pub fn drop_came(inst: &mut Inst, block: BlockNo)
    ensures { inst.new ≡ came_dropped inst.old block }
{
    drop_all(&mut inst.sessions, block);
}
