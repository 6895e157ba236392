ghost use Rattle.std.specs.Prelude.{◌≡◌, ℕ, ◌-◌, ◌^◌, ◌<◌, true, IfSome, is_some};
ghost use Rattle.redo_types.specs.declared.redo.Redo.{Redo};
ghost use Rattle.block_image.specs.Block.{row_at};
ghost use Rattle.block_image.specs.Changes.{values_of};
ghost use Rattle.undo_image.specs.Header.{slot_at};
ghost use Rattle.scn_clock.specs.declared.clock.Clock.{Clock};
ghost use Rattle.txn_engine.specs.Back.{locks_of};
ghost use Rattle.txn_engine.specs.Change.{holds, stood_last};
ghost use Rattle.txn_laws.specs.TakenBack.{HasOneSlot, IsTakenBack, MayTakeBack, OnHand, block_after, decided_back, locks_left, segment_after};

/// A law: a change or a lock that was decided, and then was taken back, leaves the block and the transaction's last
/// standing undo record as they were.
pub fn a_decided_change_is_taken_back()
    ensures values { (hand : OnHand) (change back : Redo) (at : ℕ) (later : Clock) → IsTakenBack hand change at later back → values_of (block_after hand change back).rows ≡ values_of hand.image.rows }
    ensures slots { (hand : OnHand) (change back : Redo) (at : ℕ) (later : Clock) → IsTakenBack hand change at later back → (block_after hand change back).itl ≡ hand.image.itl }
    ensures locks { (hand : OnHand) (change back : Redo) (at : ℕ) (later : Clock) → IsTakenBack hand change at later back → IfSome change.row (λ made. locks_of (block_after hand change back) ≡ locks_left change.xid hand.image made.to) }
    ensures comes { (hand : OnHand) (change : Redo) (at : ℕ) (later : Clock) → MayTakeBack hand change later → is_some (decided_back hand change at later) ≡ true }
    ensures held { (hand : OnHand) (change back : Redo) (at : ℕ) (later : Clock) → IsTakenBack hand change at later back → HasOneSlot hand.image change.xid → change.xid.wrap < 2 ^ 32 - 1 → IfSome change.row (λ made. holds change.xid hand.image made.to.row ≡ true → (row_at (block_after hand change back).rows made.to.row).lock ≡ (row_at hand.image.rows made.to.row).lock) }
    ensures last { (hand : OnHand) (change back : Redo) (at back_at : ℕ) (later : Clock) → IsTakenBack hand change at later back → (slot_at (segment_after hand change at back back_at).head change.xid.slot).last ≡ stood_last hand.ask.own (slot_at hand.segment.head change.xid.slot) }
{}
