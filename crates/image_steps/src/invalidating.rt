//! A shared image has to go.

ghost use Rattle.std.specs.Prelude.{◌≡◌, true, OnOk};
ghost use Rattle.std.specs.Option.{option_copied};
ghost use Rattle.image_steps.specs.Invalidate.{bears, first_to_go, gone_sent, has_granted, image_to_go, invalidate_sent, invalidated, may_go, may_invalidate, without_image};

use crate::frames::left_frame;
use crate::hearing::{first_message, hear};
use crate::sends::send_to_master;
use base_types::{BlockNo, InstNo, NoMemory};
use inst_state::{Core, Inst};
use wire_net::{Lane, Message};

/// An image of a block, by the grant under which it is held.
#[derive(Clone, Copy, Debug, PartialEq, Eq)]
pub struct Granted {
    pub block: BlockNo,
    pub grant: u64,
}

fn image_to_go(message: Option<&Message>) -> Option<Granted>
    ensures { result ≡ image_to_go (option_copied message.entry) }
{
    match message {
        Some(Message::Invalidate { block, grant }) => Some(Granted {
            block: *block,
            grant: *grant,
        }),
        _ => None,
    }
}

fn first_to_go(inst: &Inst, core: &Core, from: InstNo) -> Option<Granted>
    ensures { result ≡ first_to_go inst.now core.now from }
{
    image_to_go(first_message(inst, core, from, Lane::Main))
}

fn has_granted(inst: &Inst, image: &Granted) -> bool
    ensures { result ≡ has_granted inst.now image.now }
{
    match inst.cache.held(image.block) {
        Some(held) => held.grant == image.grant,
        None => false,
    }
}

fn may_go(inst: &Inst, image: &Option<Granted>) -> bool
    ensures { result ≡ may_go inst.now image.now }
{
    match image {
        Some(image) => !(has_granted(inst, image) && inst.is_used(image.block)),
        None => false,
    }
}

/// Whether an Invalidate is first on the link from an instance, and no image that bears its grant is in use.
pub fn may_invalidate(inst: &Inst, core: &Core, from: InstNo) -> bool
    ensures { result ≡ may_invalidate inst.now core.now from }
{
    may_go(inst, &first_to_go(inst, core, from))
}

fn drop_image(inst: &mut Inst, image: &Granted)
    ensures { inst.new ≡ without_image inst.old (Some image.now) }
{
    let leaves = has_granted(inst, image);
    inst.cache.invalidate(image.block, image.grant);
    if leaves {
        left_frame(inst, image.block);
    }
}

ghost use Rattle.std.specs.Prelude.{Some};

/// An Invalidate is obeyed: the image is dropped where it bears the grant, and the master is told that it has gone.
///
/// # Errors
///
/// There is no memory for the message.
pub fn invalidate(inst: &mut Inst, from: InstNo, core: &mut Core) -> Result<(), NoMemory>
    ensures part { OnOk result (inst.new ≡ invalidated inst.old core.old from) }
    ensures core { OnOk result (core.new ≡ invalidate_sent inst.old core.old from) }
{
    let image = first_to_go(inst, core, from);
    hear(inst, core, from, Lane::Main);
    match image {
        Some(image) => {
            drop_image(inst, &image);
            send_to_master(
                inst,
                core,
                image.block,
                Message::Gone {
                    block: image.block,
                    grant: image.grant,
                },
            )
        }
        None => Ok(()),
    }
}
