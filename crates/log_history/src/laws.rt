ghost use Rattle.std.specs.Prelude.{◌≡◌, ℕ, List};
ghost use Rattle.redo_types.specs.declared.redo.Redo.{Redo};
ghost use Rattle.log_history.specs.LogHistory.{IsLog};

/// Bytes have their whole records and the rest behind them in one way only.
pub fn a_log_reads_one_way()
    ensures { (bytes : List ℕ) (r1 r2 : List Redo) (t1 t2 : List ℕ) →
        IsLog bytes r1 t1 → IsLog bytes r2 t2 → (r1 ≡ r2) × (t1 ≡ t2) }
{}
