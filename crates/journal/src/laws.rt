ghost use Rattle.std.specs.Prelude.{◌≡◌, ℕ, Option, List, ◌∷◌, ◌++◌, ◌↔◌};
ghost use Rattle.journal.specs.declared.deeds.Commit.{Commit};
ghost use Rattle.journal.specs.declared.entry.Entry.{Entry};
ghost use Rattle.journal.specs.Past.{Past, Each};
ghost use Rattle.journal.specs.Good.{Range, RowsAreSeen, FoundIsSeen, CommitIsProper, AckIsProper, StartIsProper, RowIsFree};

/// A law: what holds of each entry and its past holds at each place of the journal, and the other way round.
pub fn clauses_hold_at_each_place()
    ensures rows { (asked : ℕ → Option Range) (commits : List Commit) (past : Past) →
        Each (RowsAreSeen asked commits) past ↔
        ((newer older : Past) (e : Entry) → past ≡ newer ++ e ∷ older → RowsAreSeen asked commits older e) }
    ensures found { (commits : List Commit) (past : Past) → Each (FoundIsSeen commits) past ↔
        ((newer older : Past) (e : Entry) → past ≡ newer ++ e ∷ older → FoundIsSeen commits older e) }
    ensures commits { (past : Past) → Each CommitIsProper past ↔
        ((newer older : Past) (e : Entry) → past ≡ newer ++ e ∷ older → CommitIsProper older e) }
    ensures acknowledgements { (past : Past) → Each AckIsProper past ↔
        ((newer older : Past) (e : Entry) → past ≡ newer ++ e ∷ older → AckIsProper older e) }
    ensures starts { (past : Past) → Each StartIsProper past ↔
        ((newer older : Past) (e : Entry) → past ≡ newer ++ e ∷ older → StartIsProper older e) }
    ensures row_locks { (past : Past) → Each RowIsFree past ↔
        ((newer older : Past) (e : Entry) → past ≡ newer ++ e ∷ older → RowIsFree older e) }
{}
