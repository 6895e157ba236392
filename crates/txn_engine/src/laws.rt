ghost use Rattle.std.specs.Prelude.{◌≡◌, ℕ, Option, IfSome};
ghost use Rattle.base_types.specs.declared.names.Xid.{Xid};
ghost use Rattle.undo_image.specs.Header.{IsHeader};
ghost use Rattle.undo_segment.specs.declared.look.Look.TheVariants.{Ended};
ghost use Rattle.undo_segment.specs.Apply.{applied};
ghost use Rattle.undo_segment.specs.Handed.{HandedState};
ghost use Rattle.undo_segment.specs.Segment.{SegmentState, look};
ghost use Rattle.scn_clock.specs.declared.clock.Clock.{Clock};
ghost use Rattle.txn_engine.specs.declared.end.EndKind.{EndKind};
ghost use Rattle.txn_engine.specs.End.{end_decision};

/// A law: once the record of its end is applied, a transaction ended at the record's SCN, as its segment tells.
pub fn an_end_is_told()
    ensures { (x : Xid) (end : EndKind) (segment : SegmentState) (clock : Clock) (handed : HandedState) (at : ℕ) → IsHeader segment.head → IfSome (end_decision x end segment clock) (λ r. look (applied segment r at) handed x ≡ Ended r.scn) }
{}
