//! A current image is shipped.

ghost use Rattle.std.specs.Prelude.{◌≡◌, true, Some, OnOk};
ghost use Rattle.std.specs.Option.{option_copied, option_map};
ghost use Rattle.buffer_cache.specs.Cache.{place_at};
ghost use Rattle.buffer_cache.specs.Place.{shareable};
ghost use Rattle.image_steps.specs.Ship.{first_order, followed, is_shippable, kept_behind, may_ship, moving, order_of, sent_back, sharing, ship_sent, shipment, shipped};

use crate::frames::left_frame;
use crate::hearing::{first_message, hear};
use crate::sends::{send, send_to_master};
use base_types::{BlockNo, InstNo, NoMemory};
use buffer_cache::Current;
use inst_state::{Core, Inst};
use wire_net::{CurrentImage, Lane, Message, PastHolder, Shipment, Unfound};

/// What a ShipTo or a ShareTo orders.
#[derive(Clone, Copy, Debug, PartialEq, Eq)]
pub struct Order {
    pub block: BlockNo,
    pub grant: u64,
    pub new_grant: u64,
    pub asker: InstNo,
    /// The asker is to share the block; else it gets it alone.
    pub shared: bool,
}

fn order_of(message: Option<&Message>) -> Option<Order>
    ensures { result ≡ order_of (option_copied message.entry) }
{
    match message {
        Some(
            Message::ShipTo {
                block,
                grant,
                new_grant,
                asker,
            },
        ) => Some(Order {
            block: *block,
            grant: *grant,
            new_grant: *new_grant,
            asker: *asker,
            shared: false,
        }),
        Some(
            Message::ShareTo {
                block,
                grant,
                new_grant,
                asker,
            },
        ) => Some(Order {
            block: *block,
            grant: *grant,
            new_grant: *new_grant,
            asker: *asker,
            shared: true,
        }),
        _ => None,
    }
}

fn first_order(inst: &Inst, core: &Core, from: InstNo) -> Option<Order>
    ensures { result ≡ first_order inst.now core.now from }
{
    order_of(first_message(inst, core, from, Lane::Main))
}

fn is_shippable(inst: &Inst, order: &Option<Order>) -> bool
    ensures { result ≡ is_shippable inst.now order.now }
{
    match order {
        Some(order) => !inst.is_used(order.block) && !inst.cache.is_wished(order.block),
        None => false,
    }
}

/// Whether a ShipTo or a ShareTo is first on the link from an instance and can be followed: no redo waits, and the block is in
/// no use and isn't wished to be written.
pub fn may_ship(inst: &Inst, core: &Core, from: InstNo) -> bool
    ensures { result ≡ may_ship inst.now core.now from }
{
    inst.is_forced() && is_shippable(inst, &first_order(inst, core, from))
}

// The past image that the sender of a current image keeps.
fn kept_behind(me: InstNo, now: &Current) -> Option<PastHolder>
    ensures { result ≡ kept_behind me now.now }
{
    if now.dirty {
        Some(PastHolder {
            inst: me,
            version: now.held().version,
        })
    } else {
        None
    }
}

// A current image as it moves to an asker.
fn moving(me: InstNo, order: &Order, now: Current) -> Shipment
    ensures { result ≡ moving me order.now now }
{
    let past = kept_behind(me, &now);
    Shipment {
        block: order.block,
        grant: order.new_grant,
        dirty: now.dirty,
        image: now.image,
        shared: false,
        past,
    }
}

// An equal of the shared image, as it goes to an asker.
fn share(inst: &Inst, order: &Order) -> Option<Shipment>
    ensures { result ≡ option_map (sharing order.now) (shareable (place_at inst.now.cache order.now.block).current) }
{
    match inst.cache.share(order.block) {
        Some(image) => Some(Shipment {
            block: order.block,
            grant: order.new_grant,
            image: CurrentImage::new(image),
            shared: true,
            dirty: false,
            past: None,
        }),
        None => None,
    }
}

// What is shipped by an order; `None` where there is no image. An image that moves leaves its frame.
fn follow(inst: &mut Inst, order: &Order) -> Option<Shipment>
    ensures shipment { result ≡ shipment inst.old order.now }
    ensures part { inst.new ≡ followed inst.old (Some order.now) }
{
    if order.shared {
        return share(inst, order);
    }
    let me = inst.plan.me;
    match inst.cache.give_up(order.block) {
        Some(now) => {
            left_frame(inst, order.block);
            Some(moving(me, order, now))
        }
        None => None,
    }
}

fn sent_back(order: &Order) -> Message
    ensures { result ≡ sent_back order.now }
{
    if order.shared {
        Message::Back(Unfound::ShareTo {
            block: order.block,
            grant: order.grant,
            new_grant: order.new_grant,
            asker: order.asker,
        })
    } else {
        Message::Back(Unfound::ShipTo {
            block: order.block,
            grant: order.grant,
            new_grant: order.new_grant,
            asker: order.asker,
        })
    }
}

/// The image that is ordered moves to the asker, or its equal goes there; without an image the order goes back to the master.
///
/// # Errors
///
/// There is no memory for the message.
pub fn ship(inst: &mut Inst, from: InstNo, core: &mut Core) -> Result<(), NoMemory>
    ensures part { OnOk result (inst.new ≡ shipped inst.old core.old from) }
    ensures core { OnOk result (core.new ≡ ship_sent inst.old core.old from) }
{
    let order = first_order(inst, core, from);
    hear(inst, core, from, Lane::Main);
    match order {
        Some(order) => match follow(inst, &order) {
            Some(shipment) => send(inst, core, order.asker, Message::Shipped(shipment)),
            None => send_to_master(inst, core, order.block, sent_back(&order)),
        },
        None => Ok(()),
    }
}
