//! A header or an undo block of another segment is asked for.

ghost use Rattle.std.specs.Prelude.{◌≡◌, ◌<◌, IfOk, OnOk, IfSome, slice_index_or, slice_set};
ghost use Rattle.base_types.specs.Layout.{IsLayout};
ghost use Rattle.inst_loss.specs.Lost.{lost};
ghost use Rattle.inst_loss.specs.LostCore.{lost_core};
ghost use Rattle.inst_state.specs.Sessions.{new_session};
ghost use Rattle.disk_steps.specs.AskUndo.{AsksAt, AsksUndoAs, ReadsAt, UndoGaveAs, asked_at, asked_core, asked_for, asked_undo, back_lacks, change_lacks, copy_lacks, first_lack, lacking, may_ask_undo, may_ask_undo_dead, place_of, undo_ask_told, undo_asked, undo_read, undo_read_core};

use base_types::{BlockNo, InstNo, Layout, NoMemory};
use cr_copy::Made;
use disk_calls::{ReadUndo, load_head, load_undo};
use image_steps::{hand_in, send};
use inst_loss::{Loss, lose};
use inst_state::{Core, ImageName, Inst, Session, Table};
use rac_disk::SharedDisk;
use redo_types::Redo;
use std::alloc::Global;
use std::snapshot::Snapshot;
use stmt_steps::{back_decided, change_decided, dead_back_decided, is_job, read_made};
use txn_engine::Decision;
use txn_slots::Wanted;
use undo_segment::LoadError;
use wire_net::{Message, UndoImage};

/// How an AskUndo went.
#[derive(Drop)]
pub enum AskedUndo {
    /// It made no call of the disk.
    Calm,
    /// It read the header or the undo block from the disk.
    Read(ReadUndo),
}

/// What a statement lacks.
#[derive(Clone, Copy, Debug, PartialEq, Eq)]
pub enum Lacking {
    /// This header or undo block.
    Undo(Wanted),
    /// Nothing that could come: what is at hand is such that no run leaves it.
    Sense,
}

/// Where a header or an undo block stands.
#[derive(Clone, Copy, Debug, PartialEq, Eq)]
pub struct Place {
    pub seg: InstNo,
    pub block: BlockNo,
    /// It is the segment's header.
    pub head: bool,
}

fn copy_lacks(made: Option<Made>) -> Option<Lacking>
    ensures { result ≡ copy_lacks made }
{
    match made {
        Some(Made::Need(wanted)) => Some(Lacking::Undo(wanted)),
        Some(Made::Bad) => Some(Lacking::Sense),
        _ => None,
    }
}

fn change_lacks(decision: Option<Decision>) -> Option<Lacking>
    ensures { result ≡ change_lacks decision }
{
    match decision {
        Some(Decision::Need(wanted)) => Some(Lacking::Undo(wanted)),
        Some(Decision::Bad) => Some(Lacking::Sense),
        _ => None,
    }
}

fn back_lacks(decided: Option<Option<Redo>>) -> Option<Lacking>
    ensures { result ≡ back_lacks decided }
{
    match decided {
        Some(None) => Some(Lacking::Sense),
        _ => None,
    }
}

fn first_lack(first: Option<Lacking>, later: Option<Lacking>) -> Option<Lacking>
    ensures { result ≡ first_lack first later }
{
    match first {
        Some(lack) => Some(lack),
        None => later,
    }
}

// What a session's line lacks.
fn lack_of(inst: &Inst, session: u16) -> Option<Lacking>
    ensures { result ≡ lacking inst.now session }
{
    let copy = copy_lacks(read_made(inst, session));
    let change = change_lacks(change_decided(inst, session));
    let back = back_lacks(back_decided(inst, session));
    first_lack(copy, first_lack(change, back))
}

fn is_asked(inst: &Inst, z: usize) -> bool
    ensures { result ≡ is_some (session_at inst.now z).job.undo_out }
{
    match inst.session(z) {
        Some(session) => session.job.undo_out.is_some(),
        None => false,
    }
}

ghost use Rattle.std.specs.Prelude.{is_some};
ghost use Rattle.inst_state.specs.State.{session_at};

/// Whether undo that a session's line lacks may be asked for: no ask of it is out.
pub fn may_ask_undo(inst: &Inst, session: u16) -> bool
    ensures { result ≡ may_ask_undo inst.now session }
{
    inst.works() && !is_asked(inst, usize::from(session)) && lack_of(inst, session).is_some()
}

/// Whether what is at hand of the dead transaction makes no sense, so that the instance ends.
pub fn may_ask_undo_dead(inst: &Inst, job: u64) -> bool
    ensures { result ≡ may_ask_undo_dead inst.now job }
{
    is_job(job, &inst.dead_txn()) && back_lacks(dead_back_decided(inst)).is_some()
}

// Where a header or an undo block stands that is wanted, if its segment is there.
fn place_of(layout: &Layout, wanted: Wanted) -> Option<Place>
    requires { IsLayout layout.now }
    ensures place { result ≡ place_of layout.now wanted }
    ensures on_disk { IfSome result (λ place. place.block < 200) }
{
    let _total = layout.total();
    match wanted {
        Wanted::Head(seg) => {
            if seg.get() < layout.instances {
                Some(Place {
                    seg,
                    block: layout.head_block(seg),
                    head: true,
                })
            } else {
                None
            }
        }
        Wanted::Undo(at) => {
            if at.seg.get() < layout.instances && 1 <= at.seq {
                Some(Place {
                    seg: at.seg,
                    block: layout.undo_block(at),
                    head: false,
                })
            } else {
                None
            }
        }
    }
}

#[tactic(auto, using(std::proofs::lemmas::List::set_past))]
fn ask_at(sessions: &mut Table<Session>, z: usize, name: Option<ImageName>)
    ensures { sessions.new ≡ slice_set sessions.old z (asked_for name (slice_index_or sessions.old z new_session)) }
{
    if let Some(session) = sessions.get_mut(z) {
        session.job.undo_out = name;
    }
}

fn note_ask(inst: &mut Inst, z: usize)
    ensures { inst.new ≡ undo_asked inst.old z }
{
    let name = inst.name_in_hand(z);
    ask_at(&mut inst.sessions, z, name);
}

// A header or an undo block is read from the disk.
fn read_at<D: SharedDisk>(place: Place, disk: &mut D) -> Result<UndoImage, LoadError>
    requires { place.block < 200 }
    ensures { ReadsAt place result (D.state disk.old) (D.state disk.new) }
{
    if place.head {
        Ok(UndoImage::Head(load_head(place.block, place.seg, disk)?))
    } else {
        Ok(UndoImage::Block(load_undo(place.block, place.seg, disk)?))
    }
}

fn hand_in_read(
    alloc: Global,
    inst: &mut Inst,
    z: usize,
    image: UndoImage,
) -> Result<AskedUndo, NoMemory>
    ensures how { IfOk result (λ how. IsReadOf image how) }
    ensures part { IfOk result (λ how. inst.new ≡ undo_read inst.old z how) }
{
    match image {
        UndoImage::Head(head) => {
            let seen = Snapshot::of(&head);
            hand_in(alloc, inst, z, UndoImage::Head(head))?;
            Ok(AskedUndo::Read(ReadUndo::Head(seen)))
        }
        UndoImage::Block(block) => {
            let seen = Snapshot::of(&block);
            hand_in(alloc, inst, z, UndoImage::Block(block))?;
            Ok(AskedUndo::Read(ReadUndo::Block(seen)))
        }
    }
}

ghost use Rattle.disk_steps.specs.AskUndo.{IsReadOf};

// Undo that a session lacks is read from the disk. Where it can't be read, or is nothing that a run leaves there, the instance
// ends.
fn read_for<D: SharedDisk>(
    alloc: Global,
    inst: &mut Inst,
    z: usize,
    place: Place,
    core: &mut Core,
    disk: &mut D,
) -> Result<AskedUndo, NoMemory>
    requires { place.block < 200 }
    ensures part { IfOk result (λ how. inst.new ≡ undo_read inst.old z how) }
    ensures core { IfOk result (λ how. core.new ≡ undo_read_core inst.old core.old how) }
    ensures disk { IfOk result (λ how. ReadsUndoAs place how (D.state disk.old) (D.state disk.new)) }
{
    match read_at(place, disk) {
        Ok(image) => hand_in_read(alloc, inst, z, image),
        Err(LoadError::Failed) => {
            lose(alloc, inst, core, Loss::Ended { bad: false }, Some(0))?;
            Ok(AskedUndo::Read(ReadUndo::Failed))
        }
        Err(LoadError::Bad { .. }) => {
            lose(alloc, inst, core, Loss::Ended { bad: true }, Some(0))?;
            Ok(AskedUndo::Read(ReadUndo::Bad))
        }
        Err(LoadError::NoMemory) => Err(NoMemory),
    }
}

ghost use Rattle.disk_steps.specs.AskUndo.{ReadsUndoAs};

fn ask_place<D: SharedDisk>(
    alloc: Global,
    inst: &mut Inst,
    session: u16,
    place: Option<Place>,
    core: &mut Core,
    disk: &mut D,
) -> Result<AskedUndo, NoMemory>
    requires { IfSome place (λ place. place.block < 200) }
    ensures part { IfOk result (λ how. inst.new ≡ asked_at inst.old core.old session place how) }
    ensures core { IfOk result (λ how. core.new ≡ asked_core inst.old core.old session place how) }
    ensures disk { IfOk result (λ how. AsksAt core.old place how (D.state disk.old) (D.state disk.new)) }
{
    let z = usize::from(session);
    let Some(place) = place else {
        lose(alloc, inst, core, Loss::Ended { bad: true }, Some(0))?;
        return Ok(AskedUndo::Calm);
    };
    if core.is_live(place.seg) {
        let message = Message::NeedUndo {
            block: place.block,
            job: session,
        };
        send(inst, core, place.seg, message)?;
        note_ask(inst, z);
        Ok(AskedUndo::Calm)
    } else {
        read_for(alloc, inst, z, place, core, disk)
    }
}

/// Undo that a session's line lacks is asked for: of its segment's instance where that is live, else of the disk. Where that
/// can't be read, or what is at hand makes no sense, the instance ends.
///
/// # Errors
///
/// There is no memory for what came, for a message or for the journal's entries.
pub fn ask_undo<D: SharedDisk>(
    alloc: Global,
    inst: &mut Inst,
    session: u16,
    core: &mut Core,
    disk: &mut D,
) -> Result<AskedUndo, NoMemory>
    ensures part { IfOk result (λ how. inst.new ≡ asked_undo inst.old core.old session how) }
    ensures core { IfOk result (λ how. core.new ≡ undo_ask_told inst.old core.old session how) }
    ensures disk { IfOk result (λ how. AsksUndoAs inst.old core.old session how (D.state disk.old) (D.state disk.new)) }
{
    match lack_of(inst, session) {
        Some(Lacking::Undo(wanted)) => {
            let place = place_of(&inst.plan.layout, wanted);
            ask_place(alloc, inst, session, place, core, disk)
        }
        Some(Lacking::Sense) => {
            lose(alloc, inst, core, Loss::Ended { bad: true }, Some(0))?;
            Ok(AskedUndo::Calm)
        }
        None => Ok(AskedUndo::Calm),
    }
}

/// What is at hand of the dead transaction makes no sense: the instance ends.
///
/// # Errors
///
/// There is no memory for the journal's entries.
pub fn ask_undo_dead(alloc: Global, inst: &mut Inst, core: &mut Core) -> Result<(), NoMemory>
    ensures part { OnOk result (inst.new ≡ lost inst.old) }
    ensures core { OnOk result (core.new ≡ lost_core inst.old core.old (Ended true) (Some 0)) }
{
    lose(alloc, inst, core, Loss::Ended { bad: true }, Some(0))
}

ghost use Rattle.std.specs.Prelude.{Some, true};
ghost use Rattle.inst_loss.specs.declared.ends.Loss.TheVariants.{Ended};
