//! A clean image is dropped for a frame.

ghost use Rattle.std.specs.Prelude.{◌≡◌, true, OnOk};
ghost use Rattle.image_steps.specs.Evict.{can_evict, evict_sent, evicted, is_free_to_go, may_evict};

use crate::asking::needs_frame;
use crate::frames::left_frame;
use crate::sends::send_to_master;
use base_types::{BlockNo, NoMemory};
use inst_state::{Core, Inst};
use wire_net::Message;

fn is_free_to_go(inst: &Inst, block: BlockNo) -> bool
    ensures { result ≡ is_free_to_go inst.now block }
{
    inst.cache.is_clean(block) && inst.cache.asked(block).is_none() && !inst.is_used(block)
}

/// Whether some current image may go for a frame: it is clean and in no use, and no Ask is out.
pub fn can_evict(inst: &Inst) -> bool
    ensures { result ≡ can_evict inst.now }
{
    (0..inst.cache.blocks()).any(|block| is_free_to_go(inst, BlockNo(block)))
}

/// Whether the image of a block may be dropped: it may go, and a frame is needed.
pub fn may_evict(inst: &Inst, block: BlockNo) -> bool
    ensures { result ≡ may_evict inst.now block }
{
    is_free_to_go(inst, block) && needs_frame(inst)
}

/// The clean image of a block is dropped, and the master is told.
///
/// # Errors
///
/// There is no memory for the message.
pub fn evict(inst: &mut Inst, block: BlockNo, core: &mut Core) -> Result<(), NoMemory>
    ensures part { OnOk result (inst.new ≡ evicted inst.old block) }
    ensures core { OnOk result (core.new ≡ evict_sent inst.old core.old block) }
{
    let grant = inst.cache.evict(block);
    left_frame(inst, block);
    match grant {
        Some(grant) => send_to_master(inst, core, block, Message::GaveUp { block, grant }),
        None => Ok(()),
    }
}
