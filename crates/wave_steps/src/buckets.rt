//! A bucket moves to another master.

ghost use Rattle.std.specs.Prelude.{◌≡◌, ◌&&◌, OnOk, Some, find, not, slice_set};
ghost use Rattle.std.specs.Option.{option_copied};
ghost use Rattle.inst_state.specs.Controls.{is_move_of};
ghost use Rattle.inst_state.specs.Shared.{wave_controls};
ghost use Rattle.resource_dir.specs.Directory.{bucket_of};
ghost use Rattle.wave_steps.specs.Buckets.{bears_bucket, bucket_kept, bucket_sent, bucket_sent_core, bucket_taken, bucket_taken_core, first_move, is_bucket, masters, mastering_with, mastering_without, may_keep_bucket, may_send_bucket, may_take_bucket, move_of, move_told, moved_by, naming, sending_bucket, with_sent};

use base_types::{InstNo, NoMemory, Scn};
use inst_state::{BucketsSent, Control, Core, Inst, Mastering, Wanted};
use journal::Entry;
use wire_net::{DirEntries, Lane, Message, Packet};

/// A bucket's move to a master.
#[derive(Clone, Copy, Debug, PartialEq, Eq)]
pub struct BucketMove {
    pub bucket: u8,
    pub to: InstNo,
}

fn move_of(wanted: Wanted) -> Option<BucketMove>
    ensures { result ≡ move_of wanted }
{
    match wanted {
        Wanted::Move { bucket, to } => Some(BucketMove { bucket, to }),
        _ => None,
    }
}

// The move that an open line asks for.
fn moved_by(core: &Core, line: u64) -> Option<BucketMove>
    ensures { result ≡ moved_by core.now line }
{
    match core.open_control(line) {
        Some(control) => move_of(control.wanted),
        None => None,
    }
}

fn masters(inst: &Inst, bucket: u8) -> bool
    ensures { result ≡ masters inst.now bucket }
{
    inst.mastering.directory.has(bucket)
}

/// Whether an open line moves a bucket that this instance masters to another live one.
pub fn may_send_bucket(inst: &Inst, core: &Core, line: u64) -> bool
    ensures { result ≡ may_send_bucket inst.now core.now line }
{
    match moved_by(core, line) {
        Some(it) => it.to != inst.plan.me && core.is_live(it.to) && masters(inst, it.bucket),
        None => false,
    }
}

#[tactic(auto, using(std::proofs::lemmas::List::set_past))]
fn set_at(items: &mut [Option<InstNo>], at: usize, to: Option<InstNo>)
    ensures { items.new ≡ slice_set items.old at to }
{
    if at < items.len() {
        items[at] = to;
    }
}

// Notes to whom a bucket was sent.
fn note_sent(sent: &mut BucketsSent, bucket: u8, to: Option<InstNo>)
    ensures { sent.new ≡ with_sent sent.old bucket to }
{
    set_at(&mut sent.by_bucket, usize::from(bucket), to);
}

// Gives away the entries of a bucket.
fn take_out(mastering: &mut Mastering, it: &BucketMove) -> Option<DirEntries>
    ensures entries { result ≡ bucket_of mastering.old.directory it.now.bucket }
    ensures mastering { mastering.new ≡ mastering_without mastering.old it.now }
{
    note_sent(&mut mastering.sent, it.bucket, Some(it.to));
    mastering.directory.send_bucket(it.bucket)
}

fn send_entries(
    core: &mut Core,
    me: InstNo,
    scn: Scn,
    it: &BucketMove,
    entries: Option<DirEntries>,
) -> Result<(), NoMemory>
    ensures { OnOk result (core.new ≡ sending_bucket core.old me scn it.now entries) }
{
    match entries {
        Some(entries) => core.send(
            me,
            scn,
            it.to,
            Message::Bucket {
                bucket: it.bucket,
                entries,
            },
        ),
        None => Ok(()),
    }
}

/// An instance sends the bucket that an open line moves, with its entries.
///
/// # Errors
///
/// There is no memory for the message.
pub fn send_bucket(inst: &mut Inst, line: u64, core: &mut Core) -> Result<(), NoMemory>
    ensures part { OnOk result (inst.new ≡ bucket_sent inst.old core.old line) }
    ensures core { OnOk result (core.new ≡ bucket_sent_core inst.old core.old line) }
{
    match moved_by(core, line) {
        Some(it) => {
            let entries = take_out(&mut inst.mastering, &it);
            send_entries(core, inst.plan.me, inst.clock.scn, &it, entries)
        }
        None => Ok(()),
    }
}

fn is_bucket(message: &Message) -> bool
    ensures { result ≡ is_bucket message.now }
{
    matches!(message, Message::Bucket { .. })
}

fn bears_bucket(packet: Option<&Packet>) -> bool
    ensures { result ≡ bears_bucket (option_copied packet.entry) }
{
    match packet {
        Some(packet) => is_bucket(&packet.message),
        None => false,
    }
}

/// Whether a bucket is first on the link from an instance.
pub fn may_take_bucket(inst: &Inst, core: &Core, from: InstNo) -> bool
    ensures { result ≡ may_take_bucket inst.now core.now from }
{
    bears_bucket(core.first_from(from, inst.plan.me, Lane::Main))
}

// Masters a bucket from now on.
fn take_over(mastering: &mut Mastering, bucket: u8, entries: DirEntries)
    ensures { mastering.new ≡ mastering_with mastering.old bucket entries }
{
    mastering.directory.take_bucket(bucket, entries);
    note_sent(&mut mastering.sent, bucket, None);
}

fn is_open_move(control: &Control, bucket: u8, me: InstNo) -> bool
    ensures { result ≡ not control.now.done && is_move_of bucket me control.now.wanted }
{
    !control.done && control.wanted.is_move_of(bucket, me)
}

// The first open line that moves a bucket to an instance.
fn first_move(core: &Core, bucket: u8, me: InstNo) -> Option<Control>
    ensures { result ≡ first_move core.now bucket me }
{
    core.waves
        .controls_now()
        .iter()
        .copied()
        .find(|control| is_open_move(control, bucket, me))
}

// Answers a line whose bucket has its new master.
fn tell_move(core: &mut Core, control: Option<Control>) -> Result<(), NoMemory>
    ensures { OnOk result (core.new ≡ move_told core.old control) }
{
    match control {
        Some(control) => {
            core.answer_control(control.line);
            core.tell(Entry::Moved { line: control.line })
        }
        None => Ok(()),
    }
}

fn name_master(core: &mut Core, bucket: u8, me: InstNo)
    ensures { core.new ≡ naming core.old bucket me }
{
    core.net.masters.set(bucket, me);
}

/// An instance takes a bucket from a link: its entries are its own, the table names it, and the first line that moves the
/// bucket to it is answered.
///
/// # Errors
///
/// There is no memory for the journal's entry.
pub fn take_bucket(inst: &mut Inst, from: InstNo, core: &mut Core) -> Result<(), NoMemory>
    ensures part { OnOk result (inst.new ≡ bucket_taken inst.old core.old from) }
    ensures core { OnOk result (core.new ≡ bucket_taken_core inst.old core.old from) }
{
    let me = inst.plan.me;
    match core.take_first(from, me, Lane::Main) {
        Some(packet) => {
            inst.clock.raise(packet.scn);
            match packet.message {
                Message::Bucket { bucket, entries } => {
                    take_over(&mut inst.mastering, bucket, entries);
                    name_master(core, bucket, me);
                    let moved = first_move(core, bucket, me);
                    tell_move(core, moved)
                }
                _ => Ok(()),
            }
        }
        None => Ok(()),
    }
}

/// Whether an open line moves a bucket to this instance, which masters it already.
pub fn may_keep_bucket(inst: &Inst, core: &Core, line: u64) -> bool
    ensures { result ≡ may_keep_bucket inst.now core.now line }
{
    match moved_by(core, line) {
        Some(it) => it.to == inst.plan.me && masters(inst, it.bucket),
        None => false,
    }
}

/// An open line is answered whose bucket had its new master already.
///
/// # Errors
///
/// There is no memory for the journal's entry.
pub fn keep_bucket(line: u64, core: &mut Core) -> Result<(), NoMemory>
    ensures { OnOk result (core.new ≡ bucket_kept core.old line) }
{
    let control = core.open_control(line);
    tell_move(core, control)
}
