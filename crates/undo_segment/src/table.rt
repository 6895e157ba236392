ghost use Rattle.std.specs.Prelude.{◌≡◌};

use undo_image::{TxnSlot, UndoBlock, UndoHeader, UndoRecord};

// The slots of the transaction table.
pub(crate) fn slots_of(head: &UndoHeader) -> [TxnSlot; 8]
    ensures { result ≡ head.now.slots }
{
    head.always_is_header();
    [
        head.slot(0),
        head.slot(1),
        head.slot(2),
        head.slot(3),
        head.slot(4),
        head.slot(5),
        head.slot(6),
        head.slot(7),
    ]
}

// What stands at the places of an undo block.
pub(crate) fn places_of(block: &UndoBlock) -> [Option<UndoRecord>; 4]
    ensures { result ≡ block.now.places }
{
    block.always_is_undo_block();
    [block.at(0), block.at(1), block.at(2), block.at(3)]
}
