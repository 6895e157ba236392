ghost use Rattle.std.specs.Prelude.{ℕ, ◌≡◌, ◌<◌, ◌≤◌, ◌-◌, ◌^◌, List, ◌∷◌, None, Option, Some, IsSomeAnd};
ghost use Rattle.std.specs.List.{Contains};
ghost use Rattle.base_types.specs.declared.names.Scn.{Scn};
ghost use Rattle.base_types.specs.declared.names.Xid.{Xid};
ghost use Rattle.redo_types.specs.declared.redo.Redo.{Redo};
ghost use Rattle.redo_types.specs.declared.redo.UndoChange.{UndoChange};
ghost use Rattle.redo_types.specs.declared.undo.UndoRecord.{UndoRecord};
ghost use Rattle.block_image.specs.Block.{BlockContent};
ghost use Rattle.undo_image.specs.Header.{slot_at};
ghost use Rattle.undo_image.specs.UndoBlock.{IsUndoBlock};
ghost use Rattle.undo_segment.specs.Apply.{applied};
ghost use Rattle.undo_segment.specs.Handed.{HandedState};
ghost use Rattle.undo_segment.specs.Segment.{IsSegment, look, SegmentState};
ghost use Rattle.scn_clock.specs.declared.clock.Clock.{Clock};
ghost use Rattle.redo_record.specs.Redo.{IsRedo};
ghost use Rattle.txn_engine.specs.declared.ask.ChangeAsk.{ChangeAsk};
ghost use Rattle.txn_engine.specs.declared.ask.Decision.TheVariants.{Do};
ghost use Rattle.txn_engine.specs.declared.back.NextBack.TheVariants.{Undo};
ghost use Rattle.txn_engine.specs.Back.{back_decision, next_back};
ghost use Rattle.txn_engine.specs.Change.{change_decision};
ghost use Rattle.txn_engine.specs.declared.end.EndKind.{EndKind};
ghost use Rattle.txn_engine.specs.End.{end_decision};
ghost use Rattle.board_slots.specs.Block.{by, content, Deed, newest, Open, Record, stage, stands};
ghost use Rattle.board_slots.specs.Decide.{MayDecide, NewestIsFree};
ghost use Rattle.board_slots.specs.Hand.{IsAtHand};
ghost use Rattle.board_slots.specs.Header.{Begins, end_in, Ends, table_slot, Turn};
ghost use Rattle.board_slots.specs.Images.{IsSeen};
ghost use Rattle.board_slots.specs.Records.{MayBack, MayDo, Sound};
ghost use Rattle.board_slots.specs.Views.{undo_of};
ghost use Rattle.deed_laws.specs.Deeds.{IsRedoOf, TakesBackBy};
ghost use Rattle.txn_engine.specs.Parts.{undo_block_at};
ghost use Rattle.deed_laws.specs.Rings.{HoldsUndo};
ghost use Rattle.deed_laws.specs.Turns.{IsTurned, LeavesTurned};

/// A law: the record of a change or a lock that is decided over a block of sound records is that of a deed that the
/// rules make, on a row whose newest deed is the transaction's own or has committed up to the statement's start.
pub fn decided_records_are_deeds()
    ensures { (records : List Record) (ask : ChangeAsk) (image : BlockContent) (segment : SegmentState)
        (handed : HandedState) (clock : Clock) (on_disk : Scn) (redo : Redo) → Sound records →
        IsSeen image (content records) → change_decision ask image segment handed clock on_disk ≡ Do redo →
        IsRedo redo → MayDecide records ask.own redo.xid (look segment handed) ask.snapshot redo.scn → (deed : Deed)
        × IsRedoOf image.front.number deed redo × MayDo records deed × NewestIsFree records redo.xid ask.snapshot deed.row }
{}

/// A law: the record of a step back that is decided, of the newest deed of an open transaction in the block, is one that
/// the rules make.
pub fn decided_steps_back_are_made_by_the_rules()
    ensures { (records : List Record) (xid : Xid) (deed : Deed) (image : BlockContent) (segment : SegmentState)
        (clock : Clock) (redo : Redo) → Sound records → IsSeen image (content records) → stage xid records ≡ Open →
        newest (by xid) (stands records) ≡ Some deed →
        next_back xid segment ≡ Undo (undo_of image.front.number deed) → image.front.scn < redo.scn →
        back_decision xid segment image clock ≡ Some redo →
        TakesBackBy (λ change. MayBack records xid redo.seq redo.scn change) redo }
{}

/// A law: a record that is decided leaves its transaction's slot as one more turn of it does: it begins by its first
/// deed and ends by its end. By a deed after the first, and by a step back, the slot stays as its turns left it.
pub fn decided_records_take_turns()
    ensures begins { (ask : ChangeAsk) (image : BlockContent) (segment : SegmentState) (handed : HandedState)
        (clock : Clock) (on_disk : Scn) (turns : List Turn) (redo : Redo) →
        change_decision ask image segment handed clock on_disk ≡ Do redo → ask.own ≡ None →
        IsTurned (slot_at segment.head redo.xid.slot) turns → (table_slot turns).wrap < 2 ^ 32 - 1 →
        LeavesTurned redo (Begins ∷ turns) }
    ensures goes_on { (ask : ChangeAsk) (image : BlockContent) (segment : SegmentState) (handed : HandedState)
        (clock : Clock) (on_disk : Scn) (turns : List Turn) (redo : Redo) (own : Xid) →
        change_decision ask image segment handed clock on_disk ≡ Do redo → ask.own ≡ Some own →
        IsTurned (slot_at segment.head redo.xid.slot) turns → LeavesTurned redo turns }
    ensures steps_back { (xid : Xid) (segment : SegmentState) (clock : Clock) (turns : List Turn) →
        IsTurned (slot_at segment.head xid.slot) turns → (image : BlockContent) (redo : Redo) →
        back_decision xid segment image clock ≡ Some redo → LeavesTurned redo turns }
    ensures ends { (xid : Xid) (segment : SegmentState) (clock : Clock) (turns : List Turn) →
        IsTurned (slot_at segment.head xid.slot) turns → (kind : EndKind) (redo : Redo) →
        end_decision xid kind segment clock ≡ Some redo → (table_slot turns).prev ≤ redo.scn →
        LeavesTurned redo (Ends redo.scn ∷ turns) }
{}

/// A law: where a segment's ring holds the undo that was written, it does after each record that is decided: a deed's own
/// undo record is the newest then, and a record without undo leaves the ring.
pub fn decided_records_write_their_undo()
    ensures writes { (ask : ChangeAsk) (image : BlockContent) (segment : SegmentState) (handed : HandedState)
        (clock : Clock) (on_disk : Scn) (redo : Redo) (at : ℕ) (written : List UndoRecord) →
        change_decision ask image segment handed clock on_disk ≡ Do redo → IsSegment segment →
        IsUndoBlock (undo_block_at segment segment.head.front.next) → HoldsUndo segment written →
        IsSomeAnd redo.undo (λ (change : UndoChange). HoldsUndo (applied segment redo at) (change.to ∷ written)) }
    ensures keeps { (segment : SegmentState) (redo : Redo) (at : ℕ) (written : List UndoRecord) → redo.undo ≡ None →
        redo.head.next ≡ segment.head.front.next → HoldsUndo segment written →
        HoldsUndo (applied segment redo at) written }
{}

/// A law: where a segment's ring holds the undo that was written, and a slot what its turns left, they are at hand of
/// each own deed whose undo was written, to whom has the segment.
pub fn own_segments_are_at_hand()
    ensures { (own : SegmentState) (handed : HandedState) (number : ℕ) (ended : Xid → Option ℕ) (deed : Deed)
        (written : List UndoRecord) (turns : List Turn) → own.head.front.seg ≡ deed.xid.seg →
        IsTurned (slot_at own.head deed.xid.slot) turns → end_in deed.xid.wrap turns ≡ ended deed.xid →
        HoldsUndo own written → Contains written (undo_of number deed) → IsAtHand own handed number ended deed }
{}
