ghost use Rattle.std.specs.Prelude.{◌≡◌, ◌<◌, ◌≤◌, ◌-◌, ◌^◌, drop, IfErr, IfOk};
ghost use Rattle.base_types.specs.Bytes.{Puts};
ghost use Rattle.part_image.specs.Cells.{IsFirstWrong, Reads, spelled};
ghost use Rattle.part_image.specs.Undo.{IsTxnSlot};
ghost use Rattle.undo_image.specs.Header.{AreSlots, HeaderContent, IsHeader, empty_header, header_bytes, header_fields, slot_at, slots_cells, with_slot};
ghost use Rattle.undo_image.specs.Status.{IsStatus};

use crate::status::Status;
use base_types::{BlockNo, InstNo, Scn, Xid};
use part_image::{
    BlockFront, BlockKind, are_zeros, put_front, put_txn_slot, put_zeros, read_front, read_txn_slot,
};
use redo_types::{BadBlock, TxnSlot, TxnState};
use std::marker::Model;

// The slot that no transaction ever took.
const NEVER: TxnSlot = TxnSlot {
    wrap: 0,
    state: TxnState::Never,
    first: 0,
    last: 0,
    scn: Scn(0),
    prev: Scn(0),
};

/// The header of an undo segment: its transaction table of eight slots, and the next sequence number of
/// an undo record in the segment.
#[derive(Debug, Drop)]
pub struct UndoHeader {
    front: BlockFront,
    slots: [TxnSlot; 8],
}

impl Model for UndoHeader {
    ghost use Rattle.undo_image.specs.Header.{HeaderContent, IsHeader};

    ghost Value = { HeaderContent };

    ghost view = { λ it. record { front = it.front; slots = it.slots } };

    ghost invariant = { λ it. IsHeader (record { front = it.front; slots = it.slots }) };
}

impl UndoHeader {
    /// The header of a segment that no transaction ever used.
    pub fn empty(number: BlockNo, seg: InstNo) -> Self
        ensures { result ≡ empty_header number seg }
    {
        UndoHeader {
            front: BlockFront {
                number,
                seg,
                version: 0,
                scn: Scn(0),
                next: 1,
            },
            slots: [NEVER; 8],
        }
    }

    /// The header in the bytes of a block. An `Err` has the first of the fields 1 to 9 that is wrong.
    pub fn read(bytes: &[u8; 512]) -> Result<Self, BadBlock>
        ensures ok { IfOk result (λ h. IsHeader h × (bytes.now ≡ header_bytes h)) }
        ensures only { (h : HeaderContent) → IsHeader h → bytes.now ≡ header_bytes h → result ≡ Ok h }
        ensures err { IfErr result (λ e. IsFirstWrong IsHeader header_fields bytes.now e.field) }
    {
        let front = read_front(BlockKind::Header, bytes)?;
        let Some(slots) = read_slots(bytes) else {
            return Err(BadBlock { field: 8 });
        };
        if !are_zeros(bytes, 352, 160) {
            return Err(BadBlock { field: 9 });
        }
        Ok(UndoHeader { front, slots })
    }

    /// Writes the header as the bytes of a block.
    pub fn write(&self, out: &mut [u8; 512])
        ensures { out.new ≡ header_bytes self.now }
    {
        put_front(out, BlockKind::Header, &self.front);
        put_slots(out, &self.slots);
        put_zeros(out, 352, 160);
    }

    /// What the header tells of a transaction of its segment that took its slot: its wrap is at least 1 and at
    /// most the slot's.
    pub fn status(&self, x: Xid) -> Status
        requires segment { x.seg ≡ self.now.front.seg }
        requires slot { x.slot < 8 }
        requires taken { 1 ≤ x.wrap }
        requires known { x.wrap ≤ (slot_at self.now x.slot).wrap }
        ensures { IsStatus (slot_at self.now x.slot) x result }
    {
        let slot = self.slots[usize::from(x.slot)];
        match slot.wrap - x.wrap {
            0 if slot.state == TxnState::Active => Status::Active,
            0 => Status::Ended(slot.scn),
            1 => Status::Ended(slot.prev),
            _ => Status::ReusedBelow(slot.prev),
        }
    }

    /// The slot with this number, 0 to 7.
    pub fn slot(&self, k: u8) -> TxnSlot
        requires { k < 8 }
        ensures { result ≡ slot_at self.now k }
    {
        self.slots[usize::from(k)]
    }

    /// The next sequence number of an undo record in the segment, at least 1.
    pub fn next(&self) -> u64
        ensures { result ≡ self.now.front.next }
    {
        self.front.next
    }

    /// The segment, which is that of the instance with this number.
    pub fn seg(&self) -> InstNo
        ensures { result ≡ self.now.front.seg }
    {
        self.front.seg
    }

    /// The number of the block.
    pub fn number(&self) -> BlockNo
        ensures { result ≡ self.now.front.number }
    {
        self.front.number
    }

    /// How many redo records touched the block.
    pub fn version(&self) -> u64
        ensures { result ≡ self.now.front.version }
    {
        self.front.version
    }

    /// The SCN of the last redo record that touched the block, 0 where none did.
    pub fn scn(&self) -> Scn
        ensures { result ≡ self.now.front.scn }
    {
        self.front.scn
    }

    /// A second header that is equal.
    pub fn copy(&self) -> Self
        ensures { result ≡ self.now }
    {
        let front = &self.front;
        let [a, b, c, d, e, f, g, h] = &self.slots;
        UndoHeader {
            front: *front,
            slots: [*a, *b, *c, *d, *e, *f, *g, *h],
        }
    }

    /// A law: a header always is one.
    pub fn always_is_header(&self)
        ensures { IsHeader self.now }
    {
        let _front = &self.front;
    }

    /// Puts a slot at its number, 0 to 7, with the next sequence number, at least 1, as the redo record with
    /// this SCN, at least 1, does. The version rises by one; it must not be the last `u64`.
    pub fn set(&mut self, k: u8, slot: &TxnSlot, next: u64, scn: Scn)
        requires number { k < 8 }
        requires slot { IsTxnSlot slot.now }
        requires next { 1 ≤ next }
        requires version { self.old.front.version < 2 ^ 64 - 1 }
        requires scn { 1 ≤ scn }
        ensures { self.new ≡ with_slot self.old k slot.now next scn }
    {
        self.front.version += 1;
        self.front.scn = scn;
        self.front.next = next;
        self.slots[usize::from(k)] = *slot;
    }
}

// The slots in the bytes of a header; `None` where they are none.
fn read_slots(bytes: &[u8; 512]) -> Option<[TxnSlot; 8]>
    ensures { Reads AreSlots slots_cells (drop 32 bytes.now) result }
{
    let mut slots = [NEVER; 8];
    for (k, slot) in slots.iter_mut().enumerate() {
        *slot = read_txn_slot(bytes, 32 + 40 * k)?;
    }
    Some(slots)
}

// Writes the slots into the bytes of a header.
fn put_slots(out: &mut [u8; 512], slots: &[TxnSlot; 8])
    ensures { Puts out.old out.new 32 (spelled (slots_cells slots.now)) }
{
    for (k, slot) in slots.iter().enumerate() {
        put_txn_slot(out, 32 + 40 * k, *slot);
    }
}
