//! A copy is served.

ghost use Rattle.std.specs.Prelude.{◌≡◌, true, OnOk};
ghost use Rattle.std.specs.Option.{option_copied};
ghost use Rattle.wire_net.specs.declared.message.Lane.TheVariants.{Main};
ghost use Rattle.image_steps.specs.Hear.{hears};
ghost use Rattle.image_steps.specs.ServeCopy.{copy_order_of, copy_sent, first_copy_order, may_serve_copy};

use crate::hearing::{first_message, hear};
use crate::sends::{send, send_to_master};
use base_types::{BlockNo, InstNo, NoMemory};
use block_image::DataBlock;
use inst_state::{Core, Inst};
use wire_net::{Lane, Message, Unfound};

/// What a CopyTo orders.
#[derive(Clone, Copy, Debug, PartialEq, Eq)]
pub struct CopyOrder {
    pub block: BlockNo,
    pub grant: u64,
    pub reader: InstNo,
}

fn copy_order_of(message: Option<&Message>) -> Option<CopyOrder>
    ensures { result ≡ copy_order_of (option_copied message.entry) }
{
    match message {
        Some(
            Message::CopyTo {
                block,
                grant,
                reader,
            },
        ) => Some(CopyOrder {
            block: *block,
            grant: *grant,
            reader: *reader,
        }),
        _ => None,
    }
}

fn first_copy_order(inst: &Inst, core: &Core, from: InstNo) -> Option<CopyOrder>
    ensures { result ≡ first_copy_order inst.now core.now from }
{
    copy_order_of(first_message(inst, core, from, Lane::Main))
}

/// Whether a CopyTo is first on the link from an instance, and no redo waits.
pub fn may_serve_copy(inst: &Inst, core: &Core, from: InstNo) -> bool
    ensures { result ≡ may_serve_copy inst.now core.now from }
{
    first_copy_order(inst, core, from).is_some() && inst.is_forced()
}

fn copy_of(inst: &Inst, block: BlockNo) -> Option<DataBlock>
    ensures { result ≡ current_image inst.now block }
{
    match inst.cache.image(block) {
        Some(image) => Some(image.copy()),
        None => None,
    }
}

ghost use Rattle.inst_state.specs.Hand.{current_image};

/// A copy of the current image goes to the reader, which shows all up to the own clock's SCN; without an image the order goes
/// back to the master.
///
/// # Errors
///
/// There is no memory for the message.
pub fn serve_copy(inst: &mut Inst, from: InstNo, core: &mut Core) -> Result<(), NoMemory>
    ensures part { OnOk result (inst.new ≡ hears inst.old core.old from Main) }
    ensures core { OnOk result (core.new ≡ copy_sent inst.old core.old from) }
{
    let order = first_copy_order(inst, core, from);
    hear(inst, core, from, Lane::Main);
    match order {
        Some(order) => match copy_of(inst, order.block) {
            Some(image) => {
                let upto = inst.clock.scn;
                send(inst, core, order.reader, Message::Copy { image, upto })
            }
            None => {
                let unfound = Unfound::CopyTo {
                    block: order.block,
                    grant: order.grant,
                    reader: order.reader,
                };
                send_to_master(inst, core, order.block, Message::Back(unfound))
            }
        },
        None => Ok(()),
    }
}
