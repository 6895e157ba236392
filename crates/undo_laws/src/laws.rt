ghost use Rattle.std.specs.Prelude.{◌↔◌, IsErr};
ghost use Rattle.undo_image.specs.Header.{IsHeader};
ghost use Rattle.undo_segment.specs.Begin.{room};
ghost use Rattle.undo_segment.specs.Segment.{IsSegment, SegmentState};
ghost use Rattle.undo_laws.specs.Room.{OverwritesOpenUndo};

/// A law: a segment has no room for its next undo record exactly where that would take the place of one from the first of
/// an open transaction on.
pub fn room_is_refused_to_save_open_undo()
    ensures { (own : SegmentState) → IsSegment own → IsHeader own.head → (IsErr (room own) ↔ OverwritesOpenUndo own) }
{}
