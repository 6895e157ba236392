ghost use Rattle.std.specs.Prelude.{◌≡◌, IfOk, IfErr, IsTrue, true, false};
ghost use Rattle.journal_check.specs.Checked.{IsChecked};
ghost use Rattle.script_text.specs.WellFormed.{IsWellFormed};
ghost use Rattle.rac_top.specs.RunTexts.{IsUntold, rows_of, run_text};

use crate::exit::End;
use base_types::NoMemory;
use book_report::book_text;
use cli_words::RunOptions;
use cluster_run::ClusterRun;
use journal::Journal;
use journal_check::check;
use run_report::report;
use script_text::Script;
use std::alloc::Global;

/// Whether a run's journal passes: where its check is asked for, whether it is good.
fn passes(
    alloc: Global,
    options: RunOptions,
    script: &Script,
    journal: &Journal,
) -> Result<bool, NoMemory>
    requires { IsWellFormed script.now }
    ensures good { IfOk result (λ yes. yes ≡ true → options.check ≡ true → IsChecked (rows_of script.now) journal.now) }
    ensures bad { IfOk result (λ yes. yes ≡ false → (options.check ≡ true) × (IsChecked (rows_of script.now) journal.now → ⊥)) }
{
    if options.check {
        check(alloc, 8 * script.settings().blocks, journal)
    } else {
        Ok(true)
    }
}

/// What is told of a run: its report, with the journal's own lines and the steps where they are asked for.
fn spell(
    alloc: Global,
    options: RunOptions,
    script: &Script,
    run: &ClusterRun,
) -> Result<Vec<u8>, NoMemory>
    ensures { IfOk result (λ text. text.items ≡ run_text script.now run.now.world.core.journal run.now.ran.book options) }
{
    let mut text = report(alloc, script, &run.world.core.journal, options.journal)?;
    if options.steps {
        let steps = book_text(alloc, run.ran.book.as_slice())?;
        text.extend_from_slice(steps.as_bytes())?;
    }
    Ok(text)
}

/// What is told of a run whose journal passes; or how the call ends at which nothing is told.
pub fn text_of(
    alloc: Global,
    options: RunOptions,
    script: &Script,
    run: &ClusterRun,
) -> Result<Vec<u8>, End>
    requires { IsWellFormed script.now }
    ensures text { IfOk result (λ text. text.items ≡ run_text script.now run.now.world.core.journal run.now.ran.book options) }
    ensures checked { IfOk result (λ text. options.check ≡ true → IsChecked (rows_of script.now) run.now.world.core.journal) }
    ensures untold { IfErr result (λ end. IsUntold options.check (IsChecked (rows_of script.now) run.now.world.core.journal) end) }
{
    match passes(alloc, options, script, &run.world.core.journal) {
        Ok(true) => {}
        Ok(false) => return Err(End::NotGood),
        Err(NoMemory) => return Err(End::NoMemory),
    }
    match spell(alloc, options, script, run) {
        Ok(text) => Ok(text),
        Err(NoMemory) => Err(End::NoMemory),
    }
}
