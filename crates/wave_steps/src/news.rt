//! The end of a session's transaction is told to the other instances, and heard.

ghost use Rattle.std.specs.Prelude.{◌≡◌, OnOk, fold, map, slice_index_or, slice_set};
ghost use Rattle.std.specs.Option.{option_copied};
ghost use Rattle.inst_state.specs.Sessions.{new_session};
ghost use Rattle.wave_steps.specs.News.{answering_news, bears_news, broadcast, broadcast_core, durable_ending, ending_by, heard, heard_by, heard_core, heard_doing, heard_if, hearing, hearing_packet, if_on_disk, is_epoch, is_news, is_other_live, is_untold, may_broadcast, may_hear, sent_if, sent_to_others, told_in};

use base_types::{InstNo, NoMemory, Scn};
use inst_set::{ALL_INSTS, InstSet};
use inst_state::{Core, Doing, Ending, Inst, Session, Table};
use wire_net::{Lane, Message, Packet};

fn if_on_disk(ending: Option<Ending>) -> Option<Ending>
    ensures { result ≡ if_on_disk ending }
{
    match ending {
        Some(ending) if ending.on_disk => Some(ending),
        _ => None,
    }
}

// The end that a session waits for, once its record is on the disk.
pub(crate) fn durable_ending(inst: &Inst, session: u16) -> Option<Ending>
    ensures { result ≡ durable_ending inst.now session }
{
    if_on_disk(inst.doing(usize::from(session)).ending())
}

// Whether an epoch, if there is one, is this one.
pub(crate) fn is_epoch(epoch: u32, told: Option<u32>) -> bool
    ensures { result ≡ is_epoch epoch told }
{
    match told {
        Some(told) => told == epoch,
        None => false,
    }
}

// Whether there is an end that wasn't told in this epoch.
fn is_untold(epoch: u32, ending: Option<Ending>) -> bool
    ensures { result ≡ is_untold epoch ending }
{
    match ending {
        Some(ending) => !is_epoch(epoch, ending.told),
        None => false,
    }
}

/// Whether the end of a session may be told: it is on the disk, another instance is live, and it wasn't told in this epoch.
pub fn may_broadcast(inst: &Inst, core: &Core, session: u16) -> bool
    ensures { result ≡ may_broadcast inst.now core.now session }
{
    core.has_other_live(inst.plan.me)
        && is_untold(core.members.epoch, durable_ending(inst, session))
}

fn told_in(epoch: u32, ending: &Ending) -> Ending
    ensures { result ≡ told_in epoch ending.now }
{
    Ending {
        told: Some(epoch),
        heard: InstSet::new(),
        ..*ending
    }
}

#[tactic(auto, using(std::proofs::lemmas::List::set_past))]
fn end_at(sessions: &mut Table<Session>, z: usize, ending: Ending)
    ensures { sessions.new ≡ slice_set sessions.old z (ending_by ending (slice_index_or sessions.old z new_session)) }
{
    if let Some(session) = sessions.get_mut(z) {
        session.doing = Doing::Ends(ending);
    }
}

// Whether an instance is live, and another one than this.
pub(crate) fn is_other_live(core: &Core, me: InstNo, other: InstNo) -> bool
    ensures { result ≡ is_other_live core.now me other }
{
    other != me && core.is_live(other)
}

// Sends an end to an instance, if that is another live one.
fn send_if(core: &mut Core, me: InstNo, scn: Scn, end: Scn, to: InstNo) -> Result<(), NoMemory>
    ensures { OnOk result (core.new ≡ sent_if me scn end core.old to) }
{
    if is_other_live(core, me, to) {
        core.send(me, scn, to, Message::Commit { c: end })
    } else {
        Ok(())
    }
}

fn send_each(
    insts: &[InstNo],
    core: &mut Core,
    me: InstNo,
    scn: Scn,
    end: Scn,
) -> Result<(), NoMemory>
    ensures { OnOk result (core.new ≡ fold (sent_if me scn end) core.old insts.now) }
{
    for to in insts {
        send_if(core, me, scn, end, *to)?;
    }
    Ok(())
}

// Sends an end to each other live instance.
#[tactic(auto, unfolding(crate::specs::News::sent_to_others))]
fn send_to_others(core: &mut Core, me: InstNo, scn: Scn, end: Scn) -> Result<(), NoMemory>
    ensures { OnOk result (core.new ≡ sent_to_others me scn end core.old) }
{
    send_each(&ALL_INSTS, core, me, scn, end)
}

/// The end of a session is told to each other live instance.
///
/// # Errors
///
/// There is no memory for the messages.
pub fn broadcast(inst: &mut Inst, session: u16, core: &mut Core) -> Result<(), NoMemory>
    ensures part { OnOk result (inst.new ≡ broadcast inst.old core.old session) }
    ensures core { OnOk result (core.new ≡ broadcast_core inst.old core.old session) }
{
    match durable_ending(inst, session) {
        Some(ending) => {
            let told = told_in(core.members.epoch, &ending);
            end_at(&mut inst.sessions, usize::from(session), told);
            send_to_others(core, inst.plan.me, inst.clock.scn, ending.scn)
        }
        None => Ok(()),
    }
}

fn is_news(message: &Message) -> bool
    ensures { result ≡ is_news message.now }
{
    matches!(message, Message::Commit { .. } | Message::Heard { .. })
}

fn bears_news(packet: Option<&Packet>) -> bool
    ensures { result ≡ bears_news (option_copied packet.entry) }
{
    match packet {
        Some(packet) => is_news(&packet.message),
        None => false,
    }
}

/// Whether an end, or that one was heard of, is first on the link from an instance.
pub fn may_hear(inst: &Inst, core: &Core, from: InstNo) -> bool
    ensures { result ≡ may_hear inst.now core.now from }
{
    bears_news(core.first_from(from, inst.plan.me, Lane::Main))
}

fn hear_if(ending: &mut Ending, epoch: u32, from: InstNo, c: Scn)
    ensures { ending.new ≡ heard_if epoch from c ending.old }
{
    if ending.scn == c && is_epoch(epoch, ending.told) {
        ending.heard.insert(from);
    }
}

fn heard_doing(doing: &Doing, epoch: u32, from: InstNo, c: Scn) -> Doing
    ensures { result ≡ heard_doing epoch from c doing.now }
{
    match doing {
        Doing::Ends(ending) => {
            let mut ending = *ending;
            hear_if(&mut ending, epoch, from, c);
            Doing::Ends(ending)
        }
        other => *other,
    }
}

fn note_heard(session: &mut Session, epoch: u32, from: InstNo, c: Scn)
    ensures { session.new ≡ heard_by epoch from c session.old }
{
    session.doing = heard_doing(&session.doing, epoch, from, c);
}

fn note_each(sessions: &mut [Session], epoch: u32, from: InstNo, c: Scn)
    ensures { sessions.new ≡ map (heard_by epoch from c) sessions.old }
{
    for session in sessions.iter_mut() {
        note_heard(session, epoch, from, c);
    }
}

#[tactic(auto, using(inst_state::proofs::Mapped::mapped_whole))]
fn note_in(sessions: &mut Table<Session>, epoch: u32, from: InstNo, c: Scn)
    ensures { sessions.new ≡ map (heard_by epoch from c) sessions.old }
{
    note_each(sessions.as_mut_slice(), epoch, from, c);
}

// Learns an end, or notes who has heard of one.
fn take_in(inst: &mut Inst, epoch: u32, from: InstNo, message: &Message)
    ensures { inst.new ≡ hearing inst.old epoch from message.now }
{
    match message {
        Message::Commit { c } => inst.clock.learn(*c),
        Message::Heard { c } => note_in(&mut inst.sessions, epoch, from, *c),
        _ => {}
    }
}

// Says that an end was heard of.
fn answer(
    core: &mut Core,
    me: InstNo,
    scn: Scn,
    from: InstNo,
    message: &Message,
) -> Result<(), NoMemory>
    ensures { OnOk result (core.new ≡ answering_news core.old me scn from message.now) }
{
    match message {
        Message::Commit { c } => core.send(me, scn, from, Message::Heard { c: *c }),
        _ => Ok(()),
    }
}

/// An instance takes news from a link: it learns an end and says that it has heard of it, or notes who has heard of its own
/// one.
///
/// # Errors
///
/// There is no memory for the message.
pub fn hear(inst: &mut Inst, from: InstNo, core: &mut Core) -> Result<(), NoMemory>
    ensures part { OnOk result (inst.new ≡ heard inst.old core.old from) }
    ensures core { OnOk result (core.new ≡ heard_core inst.old core.old from) }
{
    let me = inst.plan.me;
    let epoch = core.members.epoch;
    match core.take_first(from, me, Lane::Main) {
        Some(packet) => {
            inst.clock.raise(packet.scn);
            take_in(inst, epoch, from, &packet.message);
            answer(core, me, inst.clock.scn, from, &packet.message)
        }
        None => Ok(()),
    }
}
