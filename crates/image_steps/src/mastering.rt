//! A master takes a message.

ghost use Rattle.std.specs.Prelude.{◌≡◌, OnOk};
ghost use Rattle.std.specs.Option.{option_copied};
ghost use Rattle.image_steps.specs.MasterTake.{is_master, mastering_at, master_block, master_sends_at, master_sent, master_taken, may_take_at_master, next_master, sends_all, unfound_block};

use crate::hearing::{first_message, hear};
use crate::sends::send;
use base_types::{BlockNo, InstNo, NoMemory};
use inst_state::{Core, Inst};
use resource_dir::Outbox;
use std::alloc::Global;
use wire_net::{Lane, Message, Unfound};

fn unfound_block(unfound: &Unfound) -> BlockNo
    ensures { result ≡ unfound_block unfound.now }
{
    match unfound {
        Unfound::CopyTo { block, .. } => *block,
        Unfound::ShareTo { block, .. } => *block,
        Unfound::ShipTo { block, .. } => *block,
        Unfound::WritePlease { block, .. } => *block,
    }
}

/// The block of a message to a master; `None` for any other message.
pub fn master_block(message: &Message) -> Option<BlockNo>
    ensures { result ≡ master_block message.now }
{
    match message {
        Message::Ask { block, .. } => Some(*block),
        Message::Gone { block, .. } => Some(*block),
        Message::Done { block, .. } => Some(*block),
        Message::GaveUp { block, .. } => Some(*block),
        Message::Wrote { block, .. } => Some(*block),
        Message::WritePlease {
            block,
            grant: None,
            ..
        } => Some(*block),
        Message::Back(unfound) => Some(unfound_block(unfound)),
        _ => None,
    }
}

/// Whether a message to a master is first on the link from an instance.
pub fn may_take_at_master(inst: &Inst, core: &Core, from: InstNo) -> bool
    ensures { result ≡ may_take_at_master inst.now core.now from }
{
    match first_message(inst, core, from, Lane::Main) {
        Some(message) => master_block(message).is_some(),
        None => false,
    }
}

fn is_master(inst: &Inst, block: BlockNo) -> bool
    ensures { result ≡ is_master inst.now block }
{
    inst.mastering.directory.has((block.get() % 16) as u8)
}

// To whom a message on a block goes that isn't mastered.
fn next_master(inst: &Inst, core: &Core, block: BlockNo) -> InstNo
    ensures { result ≡ next_master inst.now core.now block }
{
    match inst.mastering.sent.by_bucket[usize::from(block.get() % 16)] {
        Some(to) => to,
        None => core.net.masters.of(block),
    }
}

// Sends messages in their order.
#[tactic(auto, using(crate::proofs::Messages::first_sent, crate::proofs::Messages::none_sent))]
fn send_all(inst: &Inst, core: &mut Core, messages: &mut Outbox) -> Result<(), NoMemory>
    ensures { OnOk result (core.new ≡ sends_all inst.now core.old messages.old) }
{
    while let Some((to, message)) = messages.take() {
        send(inst, core, to, message)?;
    }
    Ok(())
}

// Takes a message on a block at the directory, or sends it on.
fn take(
    alloc: Global,
    inst: &mut Inst,
    core: &mut Core,
    block: BlockNo,
    message: Message,
) -> Result<(), NoMemory>
    ensures part { OnOk result (inst.new ≡ record inst.old { mastering = mastering_at inst.old.mastering message (Some block) }) }
    ensures core { OnOk result (core.new ≡ master_sends_at inst.old core.old message (Some block)) }
{
    if is_master(inst, block) {
        let mut messages = Outbox::new(alloc);
        inst.mastering
            .directory
            .take(block, &message, &mut messages)?;
        send_all(inst, core, &mut messages)
    } else {
        let to = next_master(inst, core, block);
        send(inst, core, to, message)
    }
}

ghost use Rattle.std.specs.Prelude.{Some};

/// A master takes the message that is first on the link from an instance, and sends what its directory sends. A message on a
/// block that it doesn't master goes on, to whom it sent the block's bucket, or else to whom the table of masters names.
///
/// # Errors
///
/// There is no memory for what the directory keeps or for the messages.
pub fn take_at_master(
    alloc: Global,
    inst: &mut Inst,
    from: InstNo,
    core: &mut Core,
) -> Result<(), NoMemory>
    ensures part { OnOk result (inst.new ≡ master_taken inst.old core.old from) }
    ensures core { OnOk result (core.new ≡ master_sent inst.old core.old from) }
{
    match hear(inst, core, from, Lane::Main) {
        Some(packet) => match master_block(&packet.message) {
            Some(block) => take(alloc, inst, core, block, packet.message),
            None => Ok(()),
        },
        None => Ok(()),
    }
}
