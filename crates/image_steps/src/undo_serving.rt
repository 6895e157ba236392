//! A header or an undo block is served.

ghost use Rattle.std.specs.Prelude.{◌≡◌, ◌≤◌, ◌/◌, true, OnOk, OnSome};
ghost use Rattle.std.specs.Option.{option_copied};
ghost use Rattle.wire_net.specs.declared.message.Lane.TheVariants.{Undo};
ghost use Rattle.image_steps.specs.Hear.{hears};
ghost use Rattle.image_steps.specs.ServeUndo.{first_undo_order, may_serve_undo, place_in, undo_at, undo_image, undo_order_of, undo_sent};

use crate::hearing::{first_message, hear};
use crate::sends::send;
use base_types::{BlockNo, InstNo, NoMemory};
use inst_state::{Core, Inst};
use undo_segment::Segment;
use wire_net::{Lane, Message, UndoImage};

/// What a NeedUndo orders.
#[derive(Clone, Copy, Debug, PartialEq, Eq)]
pub struct UndoOrder {
    pub block: BlockNo,
    pub job: u16,
}

fn undo_order_of(message: Option<&Message>) -> Option<UndoOrder>
    ensures { result ≡ undo_order_of (option_copied message.entry) }
{
    match message {
        Some(Message::NeedUndo { block, job }) => Some(UndoOrder {
            block: *block,
            job: *job,
        }),
        _ => None,
    }
}

fn first_undo_order(inst: &Inst, core: &Core, from: InstNo) -> Option<UndoOrder>
    ensures { result ≡ first_undo_order inst.now core.now from }
{
    undo_order_of(first_message(inst, core, from, Lane::Undo))
}

/// Whether a NeedUndo is first on the link from an instance, and no redo waits.
pub fn may_serve_undo(inst: &Inst, core: &Core, from: InstNo) -> bool
    ensures { result ≡ may_serve_undo inst.now core.now from }
{
    first_undo_order(inst, core, from).is_some() && inst.is_forced()
}

/// The place of a block in a segment, 0 for the header; `None` where it is none of its blocks.
pub fn place_in(segment: &Segment, block: BlockNo) -> Option<u8>
    ensures place { result ≡ place_in segment.now block }
    ensures within { IfSome result (λ place. place ≤ segment.now.layout.undo / 4) }
{
    segment.always_is_segment();
    let head = segment.header().number().get();
    let number = block.get();
    if head <= number && number - head <= segment.undo_len() / 4 {
        Some((number - head) as u8)
    } else {
        None
    }
}

ghost use Rattle.std.specs.Prelude.{IfSome};

fn undo_at(segment: &Segment, place: u8) -> UndoImage
    requires { place ≤ segment.now.layout.undo / 4 }
    ensures { result ≡ undo_at segment.now place }
{
    if place == 0 {
        UndoImage::Head(segment.header().copy())
    } else {
        UndoImage::Block(segment.block(place - 1).copy())
    }
}

// The header or the undo block of a segment with a number.
fn undo_image(segment: &Segment, block: BlockNo) -> Option<UndoImage>
    ensures { result ≡ undo_image segment.now block }
{
    match place_in(segment, block) {
        Some(place) => Some(undo_at(segment, place)),
        None => None,
    }
}

/// A header or an undo block of the own segment goes to who asked for it.
///
/// # Errors
///
/// There is no memory for the message.
pub fn serve_undo(inst: &mut Inst, from: InstNo, core: &mut Core) -> Result<(), NoMemory>
    ensures part { OnOk result (inst.new ≡ hears inst.old core.old from Undo) }
    ensures core { OnOk result (core.new ≡ undo_sent inst.old core.old from) }
{
    let order = first_undo_order(inst, core, from);
    hear(inst, core, from, Lane::Undo);
    match order {
        Some(order) => match undo_image(&inst.segment, order.block) {
            Some(image) => {
                let job = order.job;
                send(inst, core, from, Message::UndoIs { image, job })
            }
            None => Ok(()),
        },
        None => Ok(()),
    }
}
