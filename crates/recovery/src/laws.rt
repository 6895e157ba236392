ghost use Rattle.std.specs.Prelude.{◌≡◌, ◌++◌, List, Some, option_and_then};
ghost use Rattle.redo_merge.specs.declared.tagged.Tagged.{Tagged};
ghost use Rattle.block_image.specs.Block.{BlockContent};
ghost use Rattle.undo_image.specs.Header.{HeaderContent};
ghost use Rattle.undo_image.specs.UndoBlock.{UndoContent};
ghost use Rattle.recovery.specs.Roll.{AreNext, IsNextData, IsNextHead, IsNextUndo, all_applied, block_applied, block_rolled_by, header_applied, header_rolled_by, rolled, undo_applied, undo_rolled_by};

/// A law: rolling forward over records and then over others gives what rolling forward over all of them gives.
pub fn rolling_goes_on()
    ensures block { (b : BlockContent) → (first then : List Tagged) → rolled block_rolled_by (first ++ then) b ≡ option_and_then (rolled block_rolled_by then) (rolled block_rolled_by first b) }
    ensures header { (h : HeaderContent) → (first then : List Tagged) → rolled header_rolled_by (first ++ then) h ≡ option_and_then (rolled header_rolled_by then) (rolled header_rolled_by first h) }
    ensures undo { (u : UndoContent) → (first then : List Tagged) → rolled undo_rolled_by (first ++ then) u ≡ option_and_then (rolled undo_rolled_by then) (rolled undo_rolled_by first u) }
{}

/// A law: rolling a block forward over records gives the block with each change of it applied, one after the other, where
/// each of these is of the next version and can be made. Changes of other blocks leave it.
pub fn rolling_applies_each()
    ensures block { (its : List Tagged) → (b : BlockContent) → AreNext IsNextData block_applied its b → rolled block_rolled_by its b ≡ Some (all_applied block_applied its b) }
    ensures header { (its : List Tagged) → (h : HeaderContent) → AreNext IsNextHead header_applied its h → rolled header_rolled_by its h ≡ Some (all_applied header_applied its h) }
    ensures undo { (its : List Tagged) → (u : UndoContent) → AreNext IsNextUndo undo_applied its u → rolled undo_rolled_by its u ≡ Some (all_applied undo_applied its u) }
{}
