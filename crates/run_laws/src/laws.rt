ghost use Rattle.run_laws.specs.Ends.{CalmRunsEndNobody, RunsCountTheirEnds, StepsCountTheirEnds};
ghost use Rattle.run_laws.specs.Runs.{RunsAddEntries, StepsAddWhatTheyTell};
ghost use Rattle.run_laws.specs.Sessions.{FirstWorldsArePlanned, RunsKeepPlans, RunsNameSessions};

/// A law: what each kind of step tells is what it adds to the journal, the newest entry first.
pub fn a_step_adds_what_it_tells()
    ensures { StepsAddWhatTheyTell }
{}

/// A law: a run only adds entries to the journal.
pub fn a_run_only_adds_entries()
    ensures { RunsAddEntries }
{}

/// A law: by a step one instance ends at most; where it ended by a fault of the disk, one of the disk's counts rose or
/// stands at its last value, and neither fell.
pub fn an_end_is_counted()
    ensures { StepsCountTheirEnds }
{}

/// A law: in a run the disk's counts rise by at least as much as instances end by faults, or one of them stands at its last
/// value; neither falls.
pub fn ends_are_counted()
    ensures { RunsCountTheirEnds }
{}

/// A law: in a run in which neither count rose, no instance ends by a fault of the disk.
pub fn a_calm_run_ends_nobody()
    ensures { CalmRunsEndNobody }
{}

/// A law: the instances begin with what the script lays down for them, and a run changes nothing of it.
pub fn a_run_changes_no_plan()
    ensures first { FirstWorldsArePlanned }
    ensures keeps { RunsKeepPlans }
{}

/// A law: in a run of a script each session that is opened, and each whose line starts, is one of the script.
pub fn sessions_are_of_the_script()
    ensures { RunsNameSessions }
{}
