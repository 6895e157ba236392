//! A past image may go, or the current image is to be written.

ghost use Rattle.std.specs.Prelude.{◌≡◌, true, OnOk};
ghost use Rattle.std.specs.Option.{option_copied};
ghost use Rattle.buffer_cache.specs.Cache.{place_at};
ghost use Rattle.image_steps.specs.DropPast.{cache_ordered, first_past_order, may_drop_past, past_dropped, past_order_of, past_sent, plea_answered};

use crate::hearing::{first_message, hear};
use crate::sends::send_to_master;
use base_types::{BlockNo, InstNo, NoMemory};
use buffer_cache::BufferCache;
use inst_state::{Core, Inst};
use wire_net::{Lane, Message, Unfound};

/// A plea that the holder of a grant write its block.
#[derive(Clone, Copy, Debug, PartialEq, Eq)]
pub struct Plea {
    pub block: BlockNo,
    pub version: u64,
    /// Who keeps the past image of this version.
    pub holder: InstNo,
    pub grant: u64,
}

/// What is ordered of past images.
#[derive(Clone, Copy, Debug, PartialEq, Eq)]
pub enum PastOrder {
    /// Past images up to a version may go.
    Drop { block: BlockNo, version: u64 },
    /// The block is to be written, so that one can go.
    Write(Plea),
}

fn past_order_of(message: Option<&Message>) -> Option<PastOrder>
    ensures { result ≡ past_order_of (option_copied message.entry) }
{
    match message {
        Some(Message::DropPast { block, version }) => Some(PastOrder::Drop {
            block: *block,
            version: *version,
        }),
        Some(
            Message::WritePlease {
                block,
                version,
                holder,
                grant: Some(grant),
            },
        ) => Some(PastOrder::Write(Plea {
            block: *block,
            version: *version,
            holder: *holder,
            grant: *grant,
        })),
        _ => None,
    }
}

fn first_past_order(inst: &Inst, core: &Core, from: InstNo) -> Option<PastOrder>
    ensures { result ≡ first_past_order inst.now core.now from }
{
    past_order_of(first_message(inst, core, from, Lane::Main))
}

/// Whether a DropPast, or a WritePlease with a grant, is first on the link from an instance.
pub fn may_drop_past(inst: &Inst, core: &Core, from: InstNo) -> bool
    ensures { result ≡ may_drop_past inst.now core.now from }
{
    first_past_order(inst, core, from).is_some()
}

fn follow(cache: &mut BufferCache, order: &Option<PastOrder>)
    ensures { cache.new ≡ cache_ordered cache.old order.now }
{
    match order {
        Some(PastOrder::Drop { block, version }) => cache.drop_past(*block, *version),
        Some(PastOrder::Write(plea)) => {
            if cache.is_dirty(plea.block) {
                cache.wish(plea.block);
            }
        }
        None => {}
    }
}

fn answer_plea(inst: &Inst, plea: &Plea, core: &mut Core) -> Result<(), NoMemory>
    ensures { OnOk result (core.new ≡ plea_answered inst.now core.old plea.now (place_at inst.now.cache plea.now.block).current) }
{
    match inst.cache.held(plea.block) {
        Some(held) => {
            if held.dirty {
                Ok(())
            } else {
                let message = Message::Wrote {
                    block: plea.block,
                    version: held.version,
                };
                send_to_master(inst, core, plea.block, message)
            }
        }
        None => {
            let unfound = Unfound::WritePlease {
                block: plea.block,
                grant: plea.grant,
                version: plea.version,
                holder: plea.holder,
            };
            send_to_master(inst, core, plea.block, Message::Back(unfound))
        }
    }
}

/// Past images up to a version are dropped; or the wish to write a dirty image is noted, and where the image is clean the
/// master is told that it is written.
///
/// # Errors
///
/// There is no memory for the message.
pub fn drop_past(inst: &mut Inst, from: InstNo, core: &mut Core) -> Result<(), NoMemory>
    ensures part { OnOk result (inst.new ≡ past_dropped inst.old core.old from) }
    ensures core { OnOk result (core.new ≡ past_sent inst.old core.old from) }
{
    let order = first_past_order(inst, core, from);
    hear(inst, core, from, Lane::Main);
    let sent = match &order {
        Some(PastOrder::Write(plea)) => answer_plea(inst, plea, core),
        _ => Ok(()),
    };
    follow(&mut inst.cache, &order);
    sent
}
