ghost use Rattle.std.specs.Prelude.{◌≡◌, true, false};
ghost use Rattle.journal.specs.Good.{GoodRows, GoodJournal};
ghost use Rattle.script_text.specs.Asked.{asked};
ghost use Rattle.script_text.specs.GoodLines.{GoodLines};
ghost use Rattle.good_run.specs.Good.{turns_are_kept, refusals_are_good, controls_are_good, holds_are_good, is_whole};
ghost use Rattle.good_run.specs.Examples.{one_change, one_by_one, all_at_once, put_again, commit_again, unasked_rollback};
ghost use Rattle.good_run.specs.Examples.{crash_and_start, opened_once, opened_twice};
ghost use Rattle.good_run.specs.Examples.{crash_before_get, get_after_crash, get_after_end, get_before_crash};
ghost use Rattle.good_run.specs.Examples.{held, reader_around, writer_first, reader_first, held_while_down, both_refused};
ghost use Rattle.good_run.specs.Examples.{crash_at_mark, mark_lost, early_mark, early_loss, untold_loss};
ghost use Rattle.good_run.specs.Examples.{two_writers, row_is_held, row_is_free, instance_is_up};
ghost use Rattle.good_run.specs.Examples.{largest, sum_is_outside, wrong_cause};
ghost use Rattle.good_run.specs.Examples.{nothing_to_do, all_not_done, one_twice, other_crashes};
ghost use Rattle.good_run.specs.Examples.{little_undo, undo_is_old, undo_is_there, lost_row_is_read, answered_twice};
ghost use Rattle.good_run.specs.Examples.{held_scan, old_rows_are_read, three_crashes, rolled_row_is_read};
ghost use Rattle.good_run.specs.Examples.{transfers, half_is_read, acked_too_early};
ghost use Rattle.good_run.specs.Examples.{crash_behind_mark, kept_row_is_missed, scan_beside, scan_between, scan_below};

/// Examples of journals in which each line has its turn, and of ones in which one hasn't.
pub fn lines_have_their_turns()
    ensures one_by_one { turns_are_kept one_change one_by_one ≡ true }
    ensures all_at_once { turns_are_kept one_change all_at_once ≡ false }
    ensures put_again { turns_are_kept one_change put_again ≡ true }
    ensures undo_is_old { turns_are_kept little_undo undo_is_old ≡ true }
    ensures commit_again { turns_are_kept one_change commit_again ≡ false }
    ensures opened_once { turns_are_kept crash_and_start opened_once ≡ true }
    ensures opened_twice { turns_are_kept crash_and_start opened_twice ≡ false }
    ensures get_after_crash { turns_are_kept crash_before_get get_after_crash ≡ true }
    ensures get_after_end { turns_are_kept crash_before_get get_after_end ≡ true }
    ensures get_before_crash { turns_are_kept crash_before_get get_before_crash ≡ false }
{}

/// Examples of journals in which a hold is kept, and of ones in which it isn't.
pub fn holds_are_kept()
    ensures reader_around { holds_are_good held reader_around ≡ true }
    ensures writer_first { holds_are_good held writer_first ≡ false }
    ensures reader_first { holds_are_good held reader_first ≡ false }
    ensures both_refused { holds_are_good held_while_down both_refused ≡ true }
    ensures undo_is_old { holds_are_good little_undo undo_is_old ≡ true }
    ensures undo_is_there { holds_are_good little_undo undo_is_there ≡ false }
{}

/// Examples of journals in which control lines, marks and rollbacks stand where they are asked, and of others.
pub fn controls_are_asked()
    ensures one_by_one { controls_are_good one_change one_by_one ≡ true }
    ensures unasked_rollback { controls_are_good one_change unasked_rollback ≡ false }
    ensures mark_lost { controls_are_good crash_at_mark mark_lost ≡ true }
    ensures early_mark { controls_are_good crash_at_mark early_mark ≡ false }
    ensures undo_is_old { controls_are_good little_undo undo_is_old ≡ true }
    ensures all_not_done { controls_are_good nothing_to_do all_not_done ≡ true }
    ensures one_twice { controls_are_good nothing_to_do one_twice ≡ false }
    ensures other_crashes { controls_are_good nothing_to_do other_crashes ≡ false }
{}

/// Examples of journals in which all lines are answered, and of ones in which one isn't.
pub fn all_lines_are_answered()
    ensures one_by_one { is_whole one_change one_by_one ≡ true }
    ensures get_after_end { is_whole crash_before_get get_after_end ≡ true }
    ensures mark_lost { is_whole crash_at_mark mark_lost ≡ true }
    ensures undo_is_old { is_whole little_undo undo_is_old ≡ true }
    ensures undo_is_there { is_whole little_undo undo_is_there ≡ false }
    ensures all_not_done { is_whole nothing_to_do all_not_done ≡ true }
    ensures other_crashes { is_whole nothing_to_do other_crashes ≡ false }
{}

/// Examples of journals in which refusals have their causes, and of others.
pub fn refusals_have_causes()
    ensures one_by_one { refusals_are_good one_change one_by_one ≡ true }
    ensures opened_once { refusals_are_good crash_and_start opened_once ≡ true }
    ensures both_refused { refusals_are_good held_while_down both_refused ≡ true }
    ensures mark_lost { refusals_are_good crash_at_mark mark_lost ≡ true }
    ensures early_loss { refusals_are_good crash_at_mark early_loss ≡ false }
    ensures untold_loss { refusals_are_good crash_at_mark untold_loss ≡ false }
    ensures row_is_held { refusals_are_good two_writers row_is_held ≡ true }
    ensures row_is_free { refusals_are_good two_writers row_is_free ≡ false }
    ensures instance_is_up { refusals_are_good two_writers instance_is_up ≡ false }
    ensures sum_is_outside { refusals_are_good largest sum_is_outside ≡ true }
    ensures wrong_cause { refusals_are_good largest wrong_cause ≡ false }
    ensures undo_is_old { refusals_are_good little_undo undo_is_old ≡ true }
    ensures undo_is_there { refusals_are_good little_undo undo_is_there ≡ false }
{}

/// Examples of journals in which rows are wrong, a line is answered twice, a commit is answered too early, or a
/// statement starts below a commit that was answered.
pub fn wrong_rows_and_answers_are_refused()
    ensures lost_row_is_read { GoodRows (asked crash_at_mark) lost_row_is_read → ⊥ }
    ensures kept_row_is_missed { GoodRows (asked crash_behind_mark) kept_row_is_missed → ⊥ }
    ensures scan_between { GoodRows (asked scan_beside) scan_between → ⊥ }
    ensures scan_below { GoodJournal scan_below → ⊥ }
    ensures old_rows_are_read { GoodRows (asked held_scan) old_rows_are_read → ⊥ }
    ensures rolled_row_is_read { GoodRows (asked three_crashes) rolled_row_is_read → ⊥ }
    ensures half_is_read { GoodRows (asked transfers) half_is_read → ⊥ }
    ensures acked_too_early { GoodJournal acked_too_early → ⊥ }
    ensures answered_twice { GoodLines crash_before_get answered_twice → ⊥ }
{}
