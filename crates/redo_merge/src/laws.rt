ghost use Rattle.std.specs.Prelude.{◌≡◌, ℕ, List, IsPermutation};
ghost use Rattle.redo_merge.specs.declared.tagged.Tagged.{Tagged};
ghost use Rattle.redo_merge.specs.declared.tagged.ThreadRedo.{ThreadRedo};
ghost use Rattle.redo_merge.specs.Merge.{IsInOrder, RisesIn, all_records, merged, only_of};

/// A law: a merge is in the order of SCNs, and where those are equal in the order of threads.
pub fn a_merge_is_in_order()
    ensures { (threads : List ThreadRedo) → IsInOrder (merged threads) }
{}

/// A law: a merge has each record of the threads once.
pub fn a_merge_has_each_record_once()
    ensures { (threads : List ThreadRedo) → IsPermutation (all_records threads) (merged threads) }
{}

/// A law: the records of a thread whose SCNs don't fall stand in a merge as they stand in the thread.
pub fn a_merge_keeps_the_order_of_a_thread()
    ensures { (threads : List ThreadRedo) → (thread : ℕ) → RisesIn thread (all_records threads) → only_of thread (merged threads) ≡ only_of thread (all_records threads) }
{}
