ghost use Rattle.std.specs.Prelude.{◌≡◌, ◌↔◌, ℕ, Bool, true, ◌∷◌, ◌++◌};
ghost use Rattle.std.specs.List.{AllByRecursion, list_any};
ghost use Rattle.journal.specs.declared.entry.Entry.{Entry};
ghost use Rattle.base_types.specs.declared.names.Xid.{Xid};
ghost use Rattle.journal.specs.Past.{Past, same_xid};
ghost use Rattle.journal.specs.Standing.{is_open};
ghost use Rattle.script_text.specs.ScriptParts.{ScriptParts};
ghost use Rattle.script_text.specs.Reading.{items_of};
ghost use Rattle.run_report.specs.Ends.{answers_any};
ghost use Rattle.good_run.specs.Waves.{wave_at, each_passes, may_end};
ghost use Rattle.good_run.specs.Turns.{is_in_turn};
ghost use Rattle.good_run.specs.ControlLines.{is_controlled};
ghost use Rattle.good_run.specs.Refusals.{xids_in};
ghost use Rattle.good_run.specs.Hold.{holds_are_kept};

/// A law: an entry that has no new line number changes the wave of no earlier place, and what is promised of no
/// earlier place.
pub fn only_a_new_number_moves_a_wave()
    ensures wave { (parts : ScriptParts) (e : Entry) (journal past : Past) →
        ((line : ℕ) → answers_any (e ∷ journal) line ≡ answers_any journal line) →
        wave_at (answers_any (e ∷ journal)) parts past ≡ wave_at (answers_any journal) parts past }
    ensures turns { (parts : ScriptParts) (e : Entry) (journal past : Past) →
        ((line : ℕ) → answers_any (e ∷ journal) line ≡ answers_any journal line) →
        each_passes (is_in_turn (answers_any (e ∷ journal)) parts) past
        ≡ each_passes (is_in_turn (answers_any journal) parts) past }
    ensures control_lines { (parts : ScriptParts) (e : Entry) (journal past : Past) →
        ((line : ℕ) → answers_any (e ∷ journal) line ≡ answers_any journal line) →
        each_passes (is_controlled (answers_any (e ∷ journal)) parts) past
        ≡ each_passes (is_controlled (answers_any journal) parts) past }
    ensures hold { (parts : ScriptParts) (e : Entry) (journal past : Past) →
        ((line : ℕ) → answers_any (e ∷ journal) line ≡ answers_any journal line) →
        each_passes (holds_are_kept (answers_any (e ∷ journal)) parts) past
        ≡ each_passes (holds_are_kept (answers_any journal) parts) past }
{}

/// A law: whether an entry of the whole journal answers a line matters to the waves at crash and start lines alone,
/// the lines that an end may answer. An entry that answers another line moves no wave at an earlier place.
pub fn only_a_crash_or_a_start_moves_a_wave()
    ensures { (parts : ScriptParts) (ever more : ℕ → Bool) (past : Past) →
        AllByRecursion (λ line. may_end line.1 ≡ true → ever line.0 ≡ more line.0) (items_of parts) →
        wave_at ever parts past ≡ wave_at more parts past }
{}

/// A law: a test that each entry passes with the entries before it is passed at each place of the journal, and the
/// other way round.
pub fn tests_pass_at_each_place()
    ensures { (test : Past → Entry → Bool) (past : Past) → (each_passes test past ≡ true) ↔
        ((newer older : Past) (e : Entry) → past ≡ newer ++ e ∷ older → test older e ≡ true) }
{}

/// A law: each open transaction is one of those that the journal's change entries name, of which causes are asked.
pub fn open_transactions_are_named()
    ensures { (x : Xid) (past : Past) → is_open x past ≡ true → list_any (same_xid x) (xids_in past) ≡ true }
{}
