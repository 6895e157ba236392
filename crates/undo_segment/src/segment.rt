ghost use Rattle.std.specs.Prelude.{◌≡◌, ◌<◌, ◌≤◌, ◌-◌, ◌/◌, ◌^◌, fold, option_copied, IfOk, IfSome};
ghost use Rattle.base_types.specs.Layout.{segment_blocks, undo_block_of};
ghost use Rattle.std.specs.List.{list_all, position};
ghost use Rattle.redo_record.specs.Redo.{IsHeadChange, IsRedo, IsUndoChange};
ghost use Rattle.undo_segment.specs.Apply.{applied, dirtied, head_applied, ring_place, undo_applied, version_of};
ghost use Rattle.undo_segment.specs.Dirty.{all_clean, bytes_of, cleaned, earlier, first_dirty, is_dirty};
ghost use Rattle.undo_segment.specs.Begin.{active_count, began_first, began_no_later, ended_first, ended_no_later, next_xid, oldest, room};
ghost use Rattle.undo_segment.specs.New.{clean_segment};
ghost use Rattle.undo_segment.specs.Segment.{IsSegment, fetch, fetch_own, header_for, look, own_block_for, ring_block, undo_block_for};

use crate::fetch::{Fetch, fetch_in};
use crate::handed::Handed;
use crate::look::{Look, is_active, look_in};
use crate::table::slots_of;
use base_types::{BlockNo, InstNo, Layout, NoMemory, RedoAt, Scn, Xid};
use redo_types::{HeadChange, Redo, UndoChange};
use std::alloc::Global;
use std::marker::Model;
use undo_image::{TxnSlot, UndoBlock, UndoHeader};

/// A segment has no room for an undo record: that with the number `next` would take the place of one from `first` on,
/// which an open transaction may need.
#[derive(Clone, Copy, Debug, PartialEq, Eq)]
pub struct UndoFull {
    /// The first sequence number that is needed.
    pub first: u64,
    /// The sequence number for which there is no place.
    pub next: u64,
}

/// The undo segment of an instance, whole in memory.
#[derive(Debug, Drop)]
pub struct Segment {
    layout: Layout,
    head: UndoHeader,
    blocks: Vec<UndoBlock>,
    since: Vec<Option<RedoAt>>,
}

impl Model for Segment {
    ghost use Rattle.undo_segment.specs.New.{clean_segment};
    ghost use Rattle.undo_segment.specs.Segment.{IsSegment, SegmentState};

    ghost Value = { SegmentState };

    ghost view = { λ it. record { layout = it.layout; head = it.head; blocks = it.blocks.items; since = it.since.items } };

    ghost invariant = { λ it. IsSegment (record { layout = it.layout; head = it.head; blocks = it.blocks.items; since = it.since.items }) };
}

impl Segment {
    // A segment of these blocks, all clean.
    pub(crate) fn clean(
        alloc: Global,
        layout: &Layout,
        head: UndoHeader,
        blocks: Vec<UndoBlock>,
    ) -> Result<Segment, NoMemory>
        requires { IsSegment (clean_segment layout.now head blocks.items) }
        ensures { IfOk result (λ it. it ≡ clean_segment layout.now head blocks.items) }
    {
        let since = vec![in alloc; None; 1 + blocks.len()]?;
        Ok(Segment {
            layout: *layout,
            head,
            blocks,
            since,
        })
    }

    /// A law: a segment always is one.
    pub fn always_is_segment(&self)
        ensures { IsSegment self.now }
    {
        let _layout = &self.layout;
    }

    /// The header.
    pub fn header(&self) -> &UndoHeader
        ensures { result.now ≡ self.now.head }
    {
        &self.head
    }

    /// The undo block at a place in the ring, below a quarter of the layout's undo records.
    pub fn block(&self, k: u8) -> &UndoBlock
        requires { k < self.now.layout.undo / 4 }
        ensures { result.now ≡ ring_block self.now k }
    {
        &self.blocks[usize::from(k)]
    }

    /// For how many undo records the segment has places, 8 to 64.
    pub fn undo_len(&self) -> u16
        ensures { result ≡ self.now.layout.undo }
    {
        self.layout.undo
    }

    /// What the header of its segment tells of a transaction, whose slot is from 0 to 7.
    pub fn look(&self, handed: &Handed, xid: &Xid) -> Look
        requires { xid.now.slot < 8 }
        ensures { result ≡ look self.now handed.now xid.now }
    {
        if self.head.seg().get() == xid.seg.get() {
            look_in(Some(&self.head), xid)
        } else {
            look_in(handed.head_of(xid.seg), xid)
        }
    }

    /// What stands in the place of an undo record of a transaction, by its sequence number, from 1.
    pub fn fetch(&self, handed: &Handed, xid: &Xid, seq: u64) -> Fetch
        requires segment { xid.now.seg < 8 }
        requires numbered { 1 ≤ seq }
        ensures { result ≡ fetch self.now handed.now xid.now seq }
    {
        if self.head.seg().get() == xid.seg.get() {
            self.fetch_own(seq)
        } else {
            fetch_in(seq, handed.block_of(self.undo_block(xid.seg, seq)))
        }
    }

    /// What stands in the place of an undo record of the segment itself, by its sequence number, from 1.
    pub fn fetch_own(&self, seq: u64) -> Fetch
        requires { 1 ≤ seq }
        ensures { result ≡ fetch_own self.now seq }
    {
        let place = (seq - 1) % u64::from(self.layout.undo);
        fetch_in(seq, self.blocks.get((place / 4) as usize))
    }

    // The block of an undo record of any segment, by its sequence number, from 1.
    fn undo_block(&self, seg: InstNo, seq: u64) -> BlockNo
        requires segment { seg < 8 }
        requires numbered { 1 ≤ seq }
        ensures { result ≡ undo_block_of self.now.layout (record { seg = seg; seq = seq }) }
    {
        let place = (seq - 1) % u64::from(self.layout.undo);
        let head = self.layout.blocks + u16::from(seg.get()) * self.segment_len();
        BlockNo(head + 1 + (place / 4) as u16)
    }

    // How many blocks a segment has, its header too.
    fn segment_len(&self) -> u16
        ensures blocks { result ≡ segment_blocks self.now.layout }
        ensures few { result ≤ 17 }
    {
        1 + self.layout.undo / 4
    }

    /// The name of the next transaction: `None` exactly where all eight slots are active. It takes the slot that isn't
    /// active and has the least end, 0 where it was never used, and of several the lowest. Its wrap is one above the
    /// slot's, and no more than the last `u32`.
    pub fn begin(&self) -> Option<Xid>
        ensures { result ≡ next_xid self.now }
    {
        let slots = slots_of(&self.head);
        let slot = next_slot(&slots)?;
        Some(Xid {
            seg: self.head.seg(),
            slot: slot as u8,
            wrap: slots[slot].wrap.saturating_add(1),
        })
    }

    /// The sequence number of the next undo record. An `Err` comes exactly where the undo records from the first one of
    /// the open transactions on fill the ring.
    pub fn room(&self) -> Result<u64, UndoFull>
        ensures { result ≡ room self.now }
    {
        let next = self.head.next();
        match oldest(&slots_of(&self.head)) {
            Some(slot) if next.saturating_sub(slot.first) >= u64::from(self.layout.undo) => {
                Err(UndoFull {
                    first: slot.first,
                    next,
                })
            }
            _ => Ok(next),
        }
    }

    /// How many slots are active.
    pub fn active(&self) -> u8
        ensures count { result ≡ active_count self.now }
        ensures few { result ≤ 8 }
    {
        slots_of(&self.head)
            .iter()
            .filter(|slot| is_active(slot.state))
            .count() as u8
    }

    /// Applies the redo record at this place to the header, and to the undo block that it writes to, if it writes to one
    /// of this segment. The versions of both must not be the last `u64`.
    pub fn apply(&mut self, redo: &Redo, at: RedoAt)
        requires is_redo { IsRedo redo.now }
        requires head { self.old.head.front.version < 2 ^ 64 - 1 }
        requires undo { IfSome redo.now.undo (λ change. version_of self.old change < 2 ^ 64 - 1) }
        ensures { self.new ≡ applied self.old redo.now at }
    {
        self.apply_head(&redo.head, redo.scn, at);
        if let Some(change) = &redo.undo {
            self.apply_undo(change, redo.scn, at);
        }
    }

    /// Applies the change of the header by the redo record at this place, with its SCN, at least 1. The header's version
    /// must not be the last `u64`.
    pub fn apply_head(&mut self, change: &HeadChange, scn: Scn, at: RedoAt)
        requires change { IsHeadChange change.now }
        requires scn { 1 ≤ scn }
        requires version { self.old.head.front.version < 2 ^ 64 - 1 }
        ensures { self.new ≡ head_applied self.old change.now scn at }
    {
        self.head.set(change.slot, &change.to, change.next, scn);
        self.since[0] = dirtied(self.since[0], at);
    }

    /// Applies the change of an undo block by the redo record at this place, with its SCN, at least 1: none where the
    /// segment has no block with that number. The block's version must not be the last `u64`.
    pub fn apply_undo(&mut self, change: &UndoChange, scn: Scn, at: RedoAt)
        requires change { IsUndoChange change.now }
        requires scn { 1 ≤ scn }
        requires version { version_of self.old change.now < 2 ^ 64 - 1 }
        ensures { self.new ≡ undo_applied self.old (Some change.now) scn at }
    {
        let k = self.ring_place(change.block);
        if k < self.blocks.len() {
            let block = &mut self.blocks[k];
            block.set(change.place, &change.to, scn);
            self.since[k + 1] = dirtied(self.since[k + 1], at);
        }
    }

    // The place in the ring of the undo block with a number; past the ring's end where there is none.
    fn ring_place(&self, number: BlockNo) -> usize
        ensures { result ≡ ring_place self.now number }
    {
        let head = self.head.number();
        if head.get() < number.get() {
            usize::from(number.get() - head.get() - 1)
        } else {
            self.blocks.len()
        }
    }

    /// The earliest place since when a block is dirty: redo from there on is needed if the segment is lost.
    pub fn first_dirty(&self) -> Option<RedoAt>
        ensures { result ≡ first_dirty self.now }
    {
        earliest(&self.since)
    }

    /// Whether the block with this place in the segment, 0 for the header, is dirty.
    pub fn is_dirty(&self, k: u8) -> bool
        requires { k ≤ self.now.layout.undo / 4 }
        ensures { result ≡ is_dirty self.now k }
    {
        self.since[usize::from(k)].is_some()
    }

    /// Notes that the block with this place in the segment, 0 for the header, was written as it is now.
    pub fn wrote(&mut self, k: u8)
        requires { k ≤ self.old.layout.undo / 4 }
        ensures { self.new ≡ cleaned self.old k }
    {
        self.since[usize::from(k)] = None;
    }

    /// Forgets which blocks are dirty, as the instance has ended whose segment it is: what is in memory is lost, and won't
    /// be written.
    pub fn forget_dirty(&mut self)
        ensures { self.new ≡ all_clean self.old }
    {
        self.since.fill(None);
    }

    /// Writes the bytes of the block with this place in the segment, 0 for the header.
    pub fn bytes_of(&self, k: u8, out: &mut [u8; 512])
        requires { k ≤ self.now.layout.undo / 4 }
        ensures { out.new ≡ bytes_of self.now k }
    {
        if k == 0 {
            self.head.write(out);
        } else {
            self.blocks[usize::from(k) - 1].write(out);
        }
    }
}

// The first slot that ended first.
fn next_slot(slots: &[TxnSlot]) -> Option<usize>
    ensures { result ≡ position (ended_first slots.now) slots.now }
{
    slots.iter().position(|slot| ended_first(slots, slot))
}

// Whether the slot is free, and no free slot ended before it.
fn ended_first(slots: &[TxnSlot], slot: &TxnSlot) -> bool
    ensures { result ≡ ended_first slots.now slot.now }
{
    !is_active(slot.state) && none_ended_before(slots, slot)
}

// Whether the slot ended no later than each free one.
fn none_ended_before(slots: &[TxnSlot], slot: &TxnSlot) -> bool
    ensures { result ≡ list_all (ended_no_later slot.now) slots.now }
{
    slots.iter().all(|other| ended_no_later(slot, other))
}

// Whether a slot ended no later than another one, or that one is active.
fn ended_no_later(slot: &TxnSlot, other: &TxnSlot) -> bool
    ensures { result ≡ ended_no_later slot.now other.now }
{
    is_active(other.state) || slot.scn.get() <= other.scn.get()
}

// The first slot that began first.
fn oldest(slots: &[TxnSlot]) -> Option<&TxnSlot>
    ensures { option_copied result ≡ oldest slots.now }
{
    slots.iter().find(|slot| began_first(slots, slot))
}

// Whether the slot is active, and no active slot has an earlier first undo record.
fn began_first(slots: &[TxnSlot], slot: &TxnSlot) -> bool
    ensures { result ≡ began_first slots.now slot.now }
{
    is_active(slot.state) && none_began_before(slots, slot)
}

// Whether the first undo record of the slot is no later than that of each active one.
fn none_began_before(slots: &[TxnSlot], slot: &TxnSlot) -> bool
    ensures { result ≡ list_all (began_no_later slot.now) slots.now }
{
    slots.iter().all(|other| began_no_later(slot, other))
}

// Whether a slot's first undo record is no later than another one's, or that one isn't active.
fn began_no_later(slot: &TxnSlot, other: &TxnSlot) -> bool
    ensures { result ≡ began_no_later slot.now other.now }
{
    !is_active(other.state) || slot.first <= other.first
}

// Since when a block is dirty that redo from a place on touches.
fn dirtied(first: Option<RedoAt>, at: RedoAt) -> Option<RedoAt>
    ensures { result ≡ dirtied first at }
{
    match first {
        None => Some(at),
        Some(first) => Some(first),
    }
}

// The earliest of these places.
fn earliest(since: &[Option<RedoAt>]) -> Option<RedoAt>
    ensures { result ≡ fold earlier None since.now }
{
    since
        .iter()
        .fold(None, |first, other| earlier(first, *other))
}

// The earlier of two places, as far as there are any.
fn earlier(at: Option<RedoAt>, other: Option<RedoAt>) -> Option<RedoAt>
    ensures { result ≡ earlier at other }
{
    match (at, other) {
        (None, other) => other,
        (Some(at), None) => Some(at),
        (Some(at), Some(other)) => Some(RedoAt(at.get().min(other.get()))),
    }
}
