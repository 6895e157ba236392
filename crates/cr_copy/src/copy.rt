ghost use Rattle.std.specs.Prelude.{◌≡◌, ◌<◌, ◌≤◌, true, IfOk, IfSome, Ok, suc};
ghost use Rattle.block_image.specs.Changes.{values_of};
ghost use Rattle.undo_segment.specs.Segment.{fetch, look};
ghost use Rattle.cr_copy.specs.Copy.{falling, fetched, first_halt, fits, halt_or, higher, is_named, joined, make, picked, round, row_shown, rounds, rows_shown, taken, work_of};
ghost use Rattle.cr_copy.specs.Named.{AreNamed, CanGoBack, IsNamed};

use crate::back::goes_back;
use crate::made::{Halt, Made};
use base_types::{BlockNo, Scn, UndoAt, Value, Xid};
use block_image::{DataBlock, ItlSlot};
use journal::Cause;
use txn_slots::{Wanted, is_own, locker, slots_of};
use undo_image::UndoRecord;
use undo_segment::{Fetch, Handed, Segment};

/// A consistent copy as far as it is made: what the rows hold, and the ITL slots.
#[derive(Debug, Drop)]
pub struct Work {
    pub rows: [Value; 8],
    pub itl: [ItlSlot; 4],
}

/// An ITL slot by its number, with its newest undo record.
#[derive(Clone, Copy, Debug, PartialEq, Eq)]
pub struct Pick {
    pub itl: u8,
    pub undo: UndoRecord,
}

/// The rows of a block as they stood at an SCN, with the changes of the reader's own transaction. A reader that began none
/// is `None`.
pub fn make(
    image: &DataBlock,
    snapshot: Scn,
    me: &Option<Xid>,
    segment: &Segment,
    handed: &Handed,
) -> Made
    ensures { result ≡ make snapshot me.now (look segment.now handed.now) (fetch segment.now handed.now) image.now }
{
    match undone(image, snapshot, me, segment, handed) {
        Ok(work) => Made::Rows(rows_shown(me, image, &work.rows)),
        Err(halt) => Made::halted(halt),
    }
}

// The block without the changes that go back.
fn undone(
    image: &DataBlock,
    snapshot: Scn,
    me: &Option<Xid>,
    segment: &Segment,
    handed: &Handed,
) -> Result<Work, Halt>
    ensures { result ≡ rounds (round snapshot me.now (look segment.now handed.now) (fetch segment.now handed.now) image.now.front.number) (suc image.now.front.version) image.now.front.version (work_of image.now) }
{
    let number = image.number();
    let mut work = work_of(image);
    let mut last = image.version();
    loop {
        match next_back(number, last, &work, snapshot, me, segment, handed) {
            Ok(Some(pick)) => {
                last = pick.undo.version - 1;
                take_back(&mut work, &pick);
            }
            Ok(None) => return Ok(work),
            Err(halt) => return Err(halt),
        }
    }
}

// The slot that the next round takes back, where its block version is at most the last one that may come.
fn next_back(
    number: BlockNo,
    last: u64,
    work: &Work,
    snapshot: Scn,
    me: &Option<Xid>,
    segment: &Segment,
    handed: &Handed,
) -> Result<Option<Pick>, Halt>
    requires { AreNamed work.now.itl }
    ensures value { result ≡ falling last (round snapshot me.now (look segment.now handed.now) (fetch segment.now handed.now) number work.now.itl) }
    ensures back { IfOk result (λ next. IfSome next (λ p. CanGoBack p × (1 ≤ p.undo.version) × (p.undo.version ≤ last))) }
{
    let next = round(number, &work.itl, snapshot, me, segment, handed);
    match &next {
        Ok(Some(pick)) if pick.undo.version == 0 || last < pick.undo.version => Err(Halt::Bad),
        _ => next,
    }
}

// The slot that a round takes back.
fn round(
    number: BlockNo,
    itl: &[ItlSlot; 4],
    snapshot: Scn,
    me: &Option<Xid>,
    segment: &Segment,
    handed: &Handed,
) -> Result<Option<Pick>, Halt>
    requires { AreNamed itl.now }
    ensures value { result ≡ round snapshot me.now (look segment.now handed.now) (fetch segment.now handed.now) number itl.now }
    ensures back { IfOk result (λ next. IfSome next CanGoBack) }
{
    let [first, second, third, fourth] = itl;
    let backs = [
        goes_back(first, snapshot, me, segment, handed),
        goes_back(second, snapshot, me, segment, handed),
        goes_back(third, snapshot, me, segment, handed),
        goes_back(fourth, snapshot, me, segment, handed),
    ];
    if let Some(halt) = first_halt(&backs) {
        return Err(halt);
    }
    let [first_back, second_back, third_back, fourth_back] = &backs;
    let last = pick_of(number, 4, fourth, fourth_back, segment, handed);
    let later = joined(
        pick_of(number, 3, third, third_back, segment, handed),
        joined(last, Ok(None)),
    );
    let late = joined(
        pick_of(number, 2, second, second_back, segment, handed),
        later,
    );
    joined(pick_of(number, 1, first, first_back, segment, handed), late)
}

fn first_halt(backs: &[Result<bool, Halt>; 4]) -> Option<Halt>
    ensures { result ≡ first_halt backs.now }
{
    let [first, second, third, fourth] = backs;
    let late = halt_or(third, halt_or(fourth, None));
    halt_or(first, halt_or(second, late))
}

fn halt_or(back: &Result<bool, Halt>, later: Option<Halt>) -> Option<Halt>
    ensures { result ≡ halt_or back.now later }
{
    match back {
        Err(halt) => Some(*halt),
        Ok(_) => later,
    }
}

// The first halt of two, or the higher one.
fn joined(
    a: Result<Option<Pick>, Halt>,
    b: Result<Option<Pick>, Halt>,
) -> Result<Option<Pick>, Halt>
    ensures value { result ≡ joined a b }
    ensures back { IfOk a (λ o. IfSome o CanGoBack) → IfOk b (λ o. IfSome o CanGoBack) → IfOk result (λ o. IfSome o CanGoBack) }
{
    match (a, b) {
        (Err(halt), _) => Err(halt),
        (Ok(_), Err(halt)) => Err(halt),
        (Ok(first), Ok(second)) => Ok(higher(first, second)),
    }
}

// The newest undo record of the ITL slot with a number, where it goes back.
fn pick_of(
    number: BlockNo,
    itl: u8,
    slot: &ItlSlot,
    back: &Result<bool, Halt>,
    segment: &Segment,
    handed: &Handed,
) -> Result<Option<Pick>, Halt>
    requires some_itl { 1 ≤ itl }
    requires last_itl { itl ≤ 4 }
    requires named { IsNamed slot.now }
    requires used { back.now ≡ Ok true → 1 ≤ slot.now.xid.wrap }
    ensures value { result ≡ picked back.now (fetched number itl slot.now (fetch segment.now handed.now slot.now.xid slot.now.seq)) }
    ensures named { IfOk result (λ o. IfSome o CanGoBack) }
{
    match back {
        Ok(true) => {
            let undo = segment.fetch(handed, &slot.xid, slot.seq);
            match fetched(number, itl, slot, &undo) {
                Ok(pick) => Ok(Some(pick)),
                Err(halt) => Err(halt),
            }
        }
        _ => Ok(None),
    }
}

fn fetched(number: BlockNo, itl: u8, slot: &ItlSlot, fetch: &Fetch) -> Result<Pick, Halt>
    requires some_itl { 1 ≤ itl }
    requires last_itl { itl ≤ 4 }
    ensures value { result ≡ fetched number itl slot.now fetch.now }
    ensures named { IfOk result CanGoBack }
{
    match fetch {
        Fetch::Unfetched => Err(Halt::Need(Wanted::Undo(UndoAt {
            seg: slot.xid.seg,
            seq: slot.seq,
        }))),
        Fetch::Never => Err(Halt::Bad),
        Fetch::Reused(found) => Err(Halt::TooOld(Cause::OldUndo {
            xid: slot.xid,
            wanted: slot.seq,
            found: *found,
        })),
        Fetch::Has(undo) => {
            if fits(number, itl, slot, undo) {
                Ok(Pick { itl, undo: *undo })
            } else {
                Err(Halt::Bad)
            }
        }
    }
}

fn fits(number: BlockNo, itl: u8, slot: &ItlSlot, undo: &UndoRecord) -> bool
    ensures value { result ≡ fits number itl slot.now undo.now }
    ensures row { result ≡ true → undo.now.row < 8 }
    ensures named { result ≡ true → IsNamed undo.now.old_itl }
{
    undo.block.get() == number.get()
        && undo.itl == itl
        && undo.slot == slot.xid.slot
        && undo.wrap == slot.xid.wrap
        && undo.row < 8
        && is_named(&undo.old_itl)
}

fn is_named(slot: &ItlSlot) -> bool
    ensures value { result ≡ is_named slot.now }
    ensures named { result ≡ true → IsNamed slot.now }
{
    slot.xid.seg.get() < 8 && slot.xid.slot < 8 && (slot.xid.wrap == 0 || 1 <= slot.seq)
}

// The one with the higher block version, of two with one the former.
fn higher(a: Option<Pick>, b: Option<Pick>) -> Option<Pick>
    ensures value { result ≡ higher a b }
    ensures back { IfSome a CanGoBack → IfSome b CanGoBack → IfSome result CanGoBack }
{
    match (&a, &b) {
        (Some(first), Some(second)) if first.undo.version < second.undo.version => b,
        (Some(_), _) => a,
        (None, _) => b,
    }
}

fn take_back(work: &mut Work, pick: &Pick)
    requires { CanGoBack pick.now }
    ensures { work.new ≡ taken pick.now work.old }
{
    work.rows[usize::from(pick.undo.row)] = pick.undo.old;
    work.itl[usize::from(pick.itl) - 1] = pick.undo.old_itl;
}

// The values and the ITL slots of a block.
fn work_of(image: &DataBlock) -> Work
    ensures value { result ≡ work_of image.now }
    ensures named { AreNamed result.itl }
{
    Work {
        rows: values_of(image),
        itl: slots_of(image),
    }
}

fn values_of(image: &DataBlock) -> [Value; 8]
    ensures { result ≡ values_of image.now.rows }
{
    let block = image.copy();
    [
        block.row(0),
        block.row(1),
        block.row(2),
        block.row(3),
        block.row(4),
        block.row(5),
        block.row(6),
        block.row(7),
    ]
}

// The rows that are shown: a row that the reader holds is shown as the block has it.
fn rows_shown(me: &Option<Xid>, image: &DataBlock, values: &[Value; 8]) -> [Value; 8]
    ensures { result ≡ rows_shown me.now image.now 0 values.now }
{
    let [a, b, c, d, e, f, g, h] = *values;
    [
        row_shown(me, image, 0, a),
        row_shown(me, image, 1, b),
        row_shown(me, image, 2, c),
        row_shown(me, image, 3, d),
        row_shown(me, image, 4, e),
        row_shown(me, image, 5, f),
        row_shown(me, image, 6, g),
        row_shown(me, image, 7, h),
    ]
}

fn row_shown(me: &Option<Xid>, image: &DataBlock, r: u8, value: Value) -> Value
    requires { r < 8 }
    ensures { result ≡ row_shown me.now image.now r value }
{
    match locker(image, r) {
        Some(xid) if is_own(me, &xid) => image.row(r),
        _ => value,
    }
}
