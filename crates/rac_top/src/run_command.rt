ghost use Rattle.std.specs.Prelude.{◌≡◌, ◌⊎◌, [], true, false};
ghost use Rattle.std.specs.List.{list_any};
ghost use Rattle.journal_check.specs.Checked.{IsChecked};
ghost use Rattle.rac_io.specs.Counts.{Counts, Rose};
ghost use Rattle.rac_io.specs.Read.{TakesUpTo};
ghost use Rattle.script_text.specs.Limits.{text_bytes};
ghost use Rattle.script_text.specs.WellFormed.{IsWellFormed};
ghost use Rattle.cluster_run.specs.Runs.{step_limit};
ghost use Rattle.rac_top.specs.Ends.{RunEndsFor, Stayed, is_before_disk, is_faultless, is_told};
ghost use Rattle.rac_top.specs.RunEnds.{end_of_run, is_bad_end, is_whole};
ghost use Rattle.rac_top.specs.RunTexts.{IsUntold, rows_of};
ghost use Rattle.rac_top.specs.Runs.{IsNotGood, IsUncreated, IsWell, RanScript, TellsRun};
ghost use Rattle.rac_top.specs.Scripts.{IsScript};

use crate::exit::{End, Exit};
use crate::failures::{failures_of, have_risen};
use crate::reading::read;
use crate::run_end::{end_of_run, has_bad_end};
use crate::run_text::text_of;
use crate::writing::write_told;
use base_types::NoMemory;
use cli_words::RunOptions;
use cluster_run::{ClusterRun, ScriptRun, run_script, step_limit};
use rac_disk::SharedDisk;
use rac_io::{Sink, Source};
use script_text::Script;
use std::alloc::Global;
use world_machine::Observer;

/// The exit of a run that ends so.
fn exit_of(run: ClusterRun, end: End) -> Exit
    ensures { result ≡ record { end = end; journal = run.world.core.journal; book = run.ran.book } }
{
    let world = run.world;
    let ran = run.ran;
    let core = world.core;
    Exit {
        end,
        journal: core.journal,
        book: ran.book,
    }
}

/// How a run went, by whether the disk failed in it.
#[tactic(auto, using(crate::proofs::WholeLemmas::went_whole))]
fn went_of(script: &Script, run: &ClusterRun, failed: bool) -> End
    ensures went { result ≡ end_of_run run.now.finish (step_limit script.now.lines) failed (list_any is_bad_end run.now.world.core.journal) }
    ensures whole { is_whole result ≡ true }
{
    let bad = has_bad_end(&run.world.core.journal);
    end_of_run(run.finish, step_limit(script), failed, bad)
}

/// Tells of a run, where its journal passes: writes its text, and gives the exit. `failed` says whether the disk failed
/// in the run.
fn tell_run<K: Sink>(
    alloc: Global,
    options: RunOptions,
    script: &Script,
    run: ClusterRun,
    failed: bool,
    sink: &mut K,
) -> Exit
    requires { IsWellFormed script.now }
    ensures told { is_told result.end ≡ true → TellsRun options script.now run failed (K.holds sink.old) (K.holds sink.new) result }
    ensures untold { is_told result.end ≡ false → IsUntold options.check (IsChecked (rows_of script.now) run.world.core.journal) result.end }
    ensures silent { is_told result.end ≡ false → (result.journal ≡ []) × (result.book ≡ []) × (sink.new ≡ sink.old) }
    ensures fault { result.end ≡ End.WriteFault → Rose (K.faults sink.old) (K.faults sink.new) ⊎ Rose (K.stalls sink.old) (K.stalls sink.new) }
{
    match text_of(alloc, options, script, &run) {
        Ok(text) => {
            let went = went_of(script, &run, failed);
            let end = write_told(went, text.as_slice(), sink);
            exit_of(run, end)
        }
        Err(end) => Exit::without_run(alloc, end),
    }
}

/// Reads the script from the source, makes the database anew on the disk, runs the script over it by all its instances,
/// and writes the report: with the journal's own lines and the steps where they are asked for, and also where the run
/// did not come to its end. Where the check is asked for and the journal isn't good, it writes nothing.
///
/// Where the source, the sink or the disk doesn't tell what it holds, the clauses that speak of that claim nothing. The
/// observer looks on at each step, and changes nothing of the run; where it has no memory, the run ends for want of it.
pub fn run<S: Source, K: Sink, D: SharedDisk, O: Observer>(
    alloc: Global,
    options: RunOptions,
    source: &mut S,
    sink: &mut K,
    disk: &mut D,
    observer: &mut O,
) -> Exit
    // Why it ends as it does.
    ensures cause { RunEndsFor result.end options.check result.journal (S.left source.old) (Rose (S.faults source.old) (S.faults source.new))
        (Rose (K.faults sink.old) (K.faults sink.new) ⊎ Rose (K.stalls sink.old) (K.stalls sink.new)) (D.state disk.old) (D.state disk.new) }
    ensures read_fault { Counts (result.end ≡ End.ReadFault) (S.faults source.old) (S.faults source.new) }
    // What was read, run and written.
    ensures reads { TakesUpTo text_bytes (S.left source.old) (S.left source.new) }
    ensures ran { is_told result.end ≡ true →
        RanScript options (S.left source.old) (S.left source.new) (K.holds sink.old) (K.holds sink.new) (D.state disk.old) (D.state disk.new) result }
    ensures not_good { result.end ≡ End.NotGood → IsNotGood (S.left source.old) (S.left source.new) (D.state disk.old) (D.state disk.new) }
    ensures silent { is_told result.end ≡ false → (result.journal ≡ []) × (result.book ≡ []) × (sink.new ≡ sink.old) }
    // What the disk has.
    ensures untouched { is_before_disk result.end ≡ true → disk.new ≡ disk.old }
    ensures uncreated { result.end ≡ End.NotCreated → IsUncreated (S.left source.old) (S.left source.new) (D.state disk.old) (D.state disk.new) }
    ensures calm { result.end ≡ End.Done → IsWell result.journal (D.state disk.old) (D.state disk.new) }
    // Where nothing goes wrong all is done, unless memory, the limit of steps or what the instances met ended it.
    ensures completes { IsScript (S.left source.old) → Stayed (S.faults source.old) (S.faults source.new) →
        Stayed (K.faults sink.old) (K.faults sink.new) → Stayed (K.stalls sink.old) (K.stalls sink.new) →
        Stayed (D.state disk.old).faults (D.state disk.new).faults → Stayed (D.state disk.old).full (D.state disk.new).full →
        is_faultless options.check result.end ≡ true }
{
    let script = match read(alloc, source) {
        Ok(script) => script,
        Err(end) => return Exit::without_run(alloc, end),
    };
    let before = failures_of(disk);
    match run_script(alloc, &script, disk, observer) {
        Ok(ScriptRun::Ran(run)) => {
            let failed = have_risen(before, failures_of(disk));
            tell_run(alloc, options, &script, run, failed, sink)
        }
        Ok(ScriptRun::NotCreated) => Exit::without_run(alloc, End::NotCreated),
        Err(NoMemory) => Exit::without_run(alloc, End::NoMemory),
    }
}
