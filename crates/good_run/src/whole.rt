ghost use Rattle.std.specs.Prelude.{◌==◌};
ghost use Rattle.good_run.specs.Good.{Good};
ghost use Rattle.good_run.specs.Examples.{one_change, one_by_one, crash_and_start, opened_once};
ghost use Rattle.good_run.specs.Examples.{crash_before_get, get_after_crash, held, reader_around};
ghost use Rattle.good_run.specs.Examples.{held_while_down, both_refused, crash_at_mark, mark_lost};
ghost use Rattle.good_run.specs.Examples.{nothing_to_do, all_not_done, two_writers, row_is_held};
ghost use Rattle.good_run.specs.Examples.{largest, sum_is_outside, held_scan, scan_as_started};
ghost use Rattle.good_run.specs.Examples.{three_crashes, all_crash, transfers, sum_stays};
ghost use Rattle.good_run.specs.Examples.{crash_behind_mark, mark_kept, scan_beside, scan_before, scan_after};
ghost use Rattle.good_run.specs.Examples.{get_after_end};

/// Examples of runs that are good by all clauses.
pub fn whole_runs_are_good()
    ensures one_by_one { Good (λ status. status == 0) one_change 0 one_by_one }
    ensures opened_once { Good (λ status. status == 0) crash_and_start 0 opened_once }
    ensures get_after_crash { Good (λ status. status == 0) crash_before_get 0 get_after_crash }
    ensures reader_around { Good (λ status. status == 0) held 0 reader_around }
    ensures both_refused { Good (λ status. status == 0) held_while_down 0 both_refused }
    ensures mark_lost { Good (λ status. status == 0) crash_at_mark 0 mark_lost }
    ensures all_not_done { Good (λ status. status == 0) nothing_to_do 0 all_not_done }
    ensures row_is_held { Good (λ status. status == 0) two_writers 0 row_is_held }
    ensures sum_is_outside { Good (λ status. status == 0) largest 0 sum_is_outside }
    ensures scan_as_started { Good (λ status. status == 0) held_scan 0 scan_as_started }
    ensures all_crash { Good (λ status. status == 0) three_crashes 0 all_crash }
    ensures sum_stays { Good (λ status. status == 0) transfers 0 sum_stays }
    ensures mark_kept { Good (λ status. status == 0) crash_behind_mark 0 mark_kept }
    ensures scan_before { Good (λ status. status == 0) scan_beside 0 scan_before }
    ensures scan_after { Good (λ status. status == 0) scan_beside 0 scan_after }
    ensures get_after_end { Good (λ status. status == 6) crash_before_get 6 get_after_end }
{}
