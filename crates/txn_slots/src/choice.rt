ghost use Rattle.std.specs.Prelude.{◌≡◌, ◌<◌, IfSome, map};
ghost use Rattle.std.specs.List.{AllByRecursion, position};
ghost use Rattle.part_image.specs.Slots.{IsItl};
ghost use Rattle.undo_segment.specs.Segment.{look};
ghost use Rattle.txn_slots.specs.Choice.{TakesWhatItMay, choose_slot, earlier, end_of, ending_of, is_own_slot, is_unlooked, is_unused, least, take_ended};

use crate::slots::{is_own, slots_of};
use crate::wanted::Wanted;
use base_types::{Scn, Xid};
use block_image::{DataBlock, ItlSlot};
use undo_segment::{Handed, Look, Segment};

/// Which ITL slot a transaction takes.
#[derive(Clone, Copy, Debug, PartialEq, Eq)]
pub enum SlotAnswer {
    /// The slot with this number, 1 to 4. A fresh one isn't the transaction's own yet.
    Take { itl: u8, fresh: bool },
    /// None: these other transactions, which are active, have the four slots.
    NoItl([Xid; 4]),
    /// It can't be told before this is at hand.
    Need(Wanted),
}

/// A slot by its number, with the end of its transaction or a bound of it.
#[derive(Clone, Copy, Debug, PartialEq, Eq)]
pub struct Ending {
    pub itl: u8,
    pub end: Scn,
}

/// The ITL slot that a transaction takes in a block, as it asks, or a session that began none.
pub fn choose_slot(
    image: &DataBlock,
    me: &Option<Xid>,
    segment: &Segment,
    handed: &Handed,
) -> SlotAnswer
    ensures answer { result ≡ choose_slot me.now (look segment.now handed.now) image.now.itl }
    ensures taken { TakesWhatItMay me.now (look segment.now handed.now) image.now.itl result }
{
    let slots = slots_of(image);
    if let Some(at) = own_place(&slots, me) {
        return SlotAnswer::Take {
            itl: at as u8 + 1,
            fresh: false,
        };
    }
    if let Some(at) = unused_place(&slots) {
        return SlotAnswer::Take {
            itl: at as u8 + 1,
            fresh: true,
        };
    }
    take_ended(&slots, &looks_at(&slots, segment, handed))
}

fn own_place(slots: &[ItlSlot; 4], me: &Option<Xid>) -> Option<usize>
    ensures value { result ≡ position (is_own_slot me.now) slots.now }
    ensures few { IfSome result (λ at. at < 4) }
{
    slots.iter().position(|slot| is_own(me, &slot.xid))
}

fn unused_place(slots: &[ItlSlot; 4]) -> Option<usize>
    ensures value { result ≡ position is_unused slots.now }
    ensures few { IfSome result (λ at. at < 4) }
{
    slots.iter().position(|slot| slot.xid.wrap == 0)
}

fn unlooked_place(looks: &[Look; 4]) -> Option<usize>
    ensures value { result ≡ position is_unlooked looks.now }
    ensures few { IfSome result (λ at. at < 4) }
{
    looks.iter().position(|look| is_unlooked(look))
}

// What the headers tell of the transactions that have the slots.
fn looks_at(slots: &[ItlSlot; 4], segment: &Segment, handed: &Handed) -> [Look; 4]
    requires { AllByRecursion IsItl slots.now }
    ensures { result ≡ map (λ slot. look segment.now handed.now slot.xid) slots.now }
{
    let [first, second, third, fourth] = slots;
    [
        segment.look(handed, &first.xid),
        segment.look(handed, &second.xid),
        segment.look(handed, &third.xid),
        segment.look(handed, &fourth.xid),
    ]
}

fn take_ended(slots: &[ItlSlot; 4], looks: &[Look; 4]) -> SlotAnswer
    ensures { result ≡ take_ended slots.now looks.now }
{
    if let Some(at) = unlooked_place(looks) {
        return SlotAnswer::Need(Wanted::Head(slots[at].xid.seg));
    }
    match least(looks) {
        Some(ended) => SlotAnswer::Take {
            itl: ended.itl,
            fresh: true,
        },
        None => SlotAnswer::NoItl(xids_of(slots)),
    }
}

fn is_unlooked(look: &Look) -> bool
    ensures { result ≡ is_unlooked look.now }
{
    match look {
        Look::Unlooked => true,
        Look::Active | Look::Ended(_) | Look::ReusedBelow { .. } => false,
    }
}

fn xids_of(slots: &[ItlSlot; 4]) -> [Xid; 4]
    ensures { result ≡ map (λ slot. slot.xid) slots.now }
{
    let [first, second, third, fourth] = slots;
    [first.xid, second.xid, third.xid, fourth.xid]
}

// Of the four slots, by what the headers tell, the one whose transaction ended first.
fn least(looks: &[Look; 4]) -> Option<Ending>
    ensures { result ≡ least 1 looks.now }
{
    let mut first = None;
    for (at, look) in looks.iter().enumerate() {
        first = earlier(first, ending_of(at as u8 + 1, look));
    }
    first
}

fn ending_of(itl: u8, look: &Look) -> Option<Ending>
    ensures { result ≡ ending_of itl (end_of look.now) }
{
    match look {
        Look::Ended(end) | Look::ReusedBelow { end, .. } => Some(Ending { itl, end: *end }),
        Look::Unlooked | Look::Active => None,
    }
}

fn earlier(a: Option<Ending>, b: Option<Ending>) -> Option<Ending>
    ensures { result ≡ earlier a b }
{
    match (a, b) {
        (Some(first), Some(second)) if second.end.get() < first.end.get() => b,
        (Some(_), _) => a,
        (None, _) => b,
    }
}
