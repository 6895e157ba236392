ghost use Rattle.std.specs.Prelude.{ℕ, List};
ghost use Rattle.std.specs.List.{AllByRecursion};
ghost use Rattle.redo_types.specs.declared.redo.Redo.{Redo};
ghost use Rattle.redo_record.specs.Front.{CutReadsBack};
ghost use Rattle.redo_record.specs.Redo.{IsRedo};

/// A law: a log of written records, cut at any place, reads back as those that are whole, and then as its
/// end or a record cut short.
pub fn a_cut_log_reads_back()
    ensures { (records : List Redo) (cut : ℕ) → AllByRecursion IsRedo records → CutReadsBack records cut }
{}
