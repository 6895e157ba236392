//! What is to be seen of a step that is about to be made.

use base_types::{BlockNo, InstNo};
use inst_node::{Action, BlockStep, InstStep, LineStep, PlainStep, Step};
use inst_state::{Core, Inst};
use run_picture::Sign;
use wire_net::{Lane, Message};
use world_machine::World;

fn block_sign(kind: BlockStep, block: BlockNo) -> Sign {
    match kind {
        BlockStep::Ask => Sign::Asks { block },
        BlockStep::Evict => Sign::GivesUp { block },
        BlockStep::WriteBlock => Sign::Writes { block },
        BlockStep::AskWrite => Sign::AsksWrite { block },
        BlockStep::GivePast => Sign::GivesPast { block },
        BlockStep::RecoverBlock => Sign::Recovers { block },
    }
}

fn plain_sign(kind: PlainStep) -> Sign {
    match kind {
        PlainStep::Enter | PlainStep::Leave => Sign::Plain,
        PlainStep::Force => Sign::Forces,
        PlainStep::Report => Sign::Reports,
        PlainStep::Thaw => Sign::Thaws,
        PlainStep::Reopen => Sign::Reopens,
        PlainStep::Resume => Sign::Resumes,
        PlainStep::Wave => Sign::Wave,
    }
}

// The current image of a block goes to an instance.
fn shipping(inst: &Inst, block: BlockNo, to: InstNo, keeps_past: bool) -> Sign {
    match inst.cache.image(block) {
        Some(image) => Sign::Ships {
            block,
            version: image.version(),
            to,
            keeps_past,
        },
        None => Sign::Plain,
    }
}

// A copy of a block goes to an instance.
fn serving(inst: &Inst, block: BlockNo, to: InstNo) -> Sign {
    match inst.cache.image(block) {
        Some(image) => Sign::Serves {
            block,
            version: image.version(),
            to,
        },
        None => Sign::Plain,
    }
}

// What an instance does with a message.
fn message_sign(inst: &Inst, message: &Message, from: InstNo) -> Sign {
    match message {
        Message::ShipTo { block, asker, .. } => {
            shipping(inst, *block, *asker, inst.cache.is_dirty(*block))
        }
        Message::ShareTo { block, asker, .. } => shipping(inst, *block, *asker, false),
        Message::CopyTo { block, reader, .. } => serving(inst, *block, *reader),
        Message::Invalidate { block, .. } => Sign::GivesUp { block: *block },
        Message::DropPast { block, version } => Sign::DropsPast {
            block: *block,
            version: *version,
        },
        Message::Grant { block, .. } => Sign::Holds { block: *block },
        Message::Shipped(shipment) => Sign::Gets {
            block: shipment.block,
            version: shipment.image.image().version(),
            from,
        },
        Message::Copy { image, .. } => Sign::GetsCopy {
            block: image.number(),
            version: image.version(),
            from,
        },
        _ => Sign::Plain,
    }
}

// What an instance does with the message that is first on its link from another one.
fn first_sign(inst: &Inst, core: &Core, from: InstNo) -> Sign {
    match core.net.links.first(from, inst.plan.me, Lane::Main) {
        Some(packet) => message_sign(inst, &packet.message, from),
        None => Sign::Plain,
    }
}

fn inst_sign(inst: &Inst, core: &Core, kind: InstStep, from: InstNo) -> Sign {
    match kind {
        InstStep::Invalidate
        | InstStep::Ship
        | InstStep::ServeCopy
        | InstStep::DropPast
        | InstStep::Install
        | InstStep::TakeCopy => first_sign(inst, core, from),
        InstStep::ReadThread => Sign::ReadsThread { thread: from },
        InstStep::CloseThread => Sign::ClosesThread { thread: from },
        _ => Sign::Plain,
    }
}

/// What is to be seen of a step that is about to be made in this world.
pub fn sign_of(world: &World, step: &Step) -> Sign {
    match &step.action {
        Action::Block(kind, block) => block_sign(*kind, *block),
        Action::Inst(kind, from) => {
            let at = usize::from(step.inst.get());
            match world.insts.as_slice().get(at) {
                Some(inst) => inst_sign(inst, &world.core, *kind, *from),
                None => Sign::Plain,
            }
        }
        Action::Line(LineStep::Join, _) => Sign::Joins,
        Action::Plain(kind) => plain_sign(*kind),
        _ => Sign::Plain,
    }
}
