ghost use Rattle.std.specs.Prelude.{◌≡◌, ◌<◌, IfSome, length};
ghost use Rattle.std.specs.List.{AllByRecursion};
ghost use Rattle.part_image.specs.Slots.{IsItl};
ghost use Rattle.txn_slots.specs.Lock.{locker};
ghost use Rattle.txn_slots.specs.Own.{is_own};

use base_types::Xid;
use block_image::{DataBlock, ItlSlot};

/// Whether a transaction is the one that asks.
pub fn is_own(me: &Option<Xid>, xid: &Xid) -> bool
    ensures { result ≡ is_own me.now xid.now }
{
    match me {
        Some(me) => me == xid,
        None => false,
    }
}

/// The four ITL slots of a block.
pub fn slots_of(image: &DataBlock) -> [ItlSlot; 4]
    ensures itl { result ≡ image.now.itl }
    ensures four { length result ≡ 4 }
    ensures each { AllByRecursion IsItl result }
{
    let block = image.copy();
    [block.itl(1), block.itl(2), block.itl(3), block.itl(4)]
}

/// The transaction whose slot the lock byte of a row names, by the row's number in the block, 0 to 7; `None` where
/// the byte is 0.
pub fn locker(image: &DataBlock, row: u8) -> Option<Xid>
    requires { row < 8 }
    ensures value { result ≡ locker image.now row }
    ensures slot { IfSome result (λ x. x.slot < 8) }
{
    let block = image.copy();
    match block.lock(row) {
        0 => None,
        lock => Some(block.itl(lock).xid),
    }
}
