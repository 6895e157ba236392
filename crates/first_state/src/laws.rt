//! Laws on the state before the first step.

ghost use Rattle.std.specs.Prelude.{◌<◌, ℕ};
ghost use Rattle.base_types.specs.declared.layout.Layout.{Layout};
ghost use Rattle.rac_disk.specs.Content.{Content};
ghost use Rattle.undo_segment.specs.Load.{HoldsSegment};
ghost use Rattle.undo_segment.specs.New.{new_segment};
ghost use Rattle.first_state.specs.Create.{IsNew};

/// A law: a disk that holds a new database holds the undo segment of each instance as the instance has it before the first
/// step.
pub fn a_new_database_holds_the_segments()
    ensures { (layout : Layout) (it : Content) (seg : ℕ) → seg < layout.instances → IsNew layout it → HoldsSegment (new_segment layout seg) it }
{}
