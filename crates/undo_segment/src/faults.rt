ghost use Rattle.std.specs.Prelude.{◌≡◌};
ghost use Rattle.std.specs.List.{list_all};
ghost use Rattle.undo_segment.specs.Faults.{fault_of, head_fault, is_small, is_small_wrap, is_tame_place, is_tame_record, is_tame_slot, undo_fault};

use crate::table::{places_of, slots_of};
use base_types::{BlockNo, InstNo};
use part_image::BlockFront;
use undo_image::{TxnSlot, UndoBlock, UndoHeader, UndoRecord};

// The first field that is wrong of a header that is to have this number and to be of this segment.
pub(crate) fn head_fault(number: BlockNo, seg: InstNo, head: &UndoHeader) -> Option<u8>
    ensures { result ≡ head_fault number seg head.now }
{
    let front = BlockFront {
        number: head.number(),
        seg: head.seg(),
        version: head.version(),
        scn: head.scn(),
        next: head.next(),
    };
    fault_of(number, seg, &front, are_tame_slots(&slots_of(head)))
}

// The first field that is wrong of an undo block that is to have this number and to be of this segment.
pub(crate) fn undo_fault(number: BlockNo, seg: InstNo, block: &UndoBlock) -> Option<u8>
    ensures { result ≡ undo_fault number seg block.now }
{
    block.always_is_undo_block();
    let front = BlockFront {
        number: block.number(),
        seg: block.seg(),
        version: block.version(),
        scn: block.scn(),
        next: 0,
    };
    fault_of(number, seg, &front, are_tame_places(&places_of(block)))
}

// The first field that is wrong, by the front of a block and whether its body is tame.
fn fault_of(number: BlockNo, seg: InstNo, front: &BlockFront, tame: bool) -> Option<u8>
    ensures { result ≡ fault_of number seg front.now tame }
{
    if front.number.get() != number.get() {
        Some(3)
    } else if front.seg.get() != seg.get() {
        Some(4)
    } else if !is_small(front.version) {
        Some(5)
    } else if !is_small(front.scn.get()) {
        Some(6)
    } else if !is_small(front.next) {
        Some(7)
    } else if !tame {
        Some(8)
    } else {
        None
    }
}

// Whether no run comes near an SCN, a version or a sequence number.
fn is_small(number: u64) -> bool
    ensures { result ≡ is_small number }
{
    number < 1 << 62
}

// Whether no run takes a slot so often.
fn is_small_wrap(wrap: u32) -> bool
    ensures { result ≡ is_small_wrap wrap }
{
    wrap < 1 << 31
}

fn are_tame_slots(slots: &[TxnSlot]) -> bool
    ensures { result ≡ list_all is_tame_slot slots.now }
{
    slots.iter().all(is_tame_slot)
}

// Whether each number of a slot is small.
fn is_tame_slot(slot: &TxnSlot) -> bool
    ensures { result ≡ is_tame_slot slot.now }
{
    is_small_wrap(slot.wrap)
        && is_small(slot.first)
        && is_small(slot.last)
        && is_small(slot.scn.get())
        && is_small(slot.prev.get())
}

fn are_tame_places(places: &[Option<UndoRecord>]) -> bool
    ensures { result ≡ list_all is_tame_place places.now }
{
    places.iter().all(is_tame_place)
}

// Whether a place has no undo record, or one whose numbers are small.
fn is_tame_place(place: &Option<UndoRecord>) -> bool
    ensures { result ≡ is_tame_place place.now }
{
    match place {
        None => true,
        Some(undo) => is_tame_record(undo),
    }
}

// Whether each number of an undo record is small.
fn is_tame_record(undo: &UndoRecord) -> bool
    ensures { result ≡ is_tame_record undo.now }
{
    is_small(undo.seq)
        && is_small_wrap(undo.wrap)
        && is_small(undo.version)
        && is_small(undo.prev)
        && is_small_wrap(undo.old_itl.xid.wrap)
        && is_small(undo.old_itl.seq)
}
