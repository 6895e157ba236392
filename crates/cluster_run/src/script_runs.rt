//! A script is run over a database that is made anew.

ghost use Rattle.std.specs.Prelude.{◌≡◌, ◌⊎◌, IfOk, length};
ghost use Rattle.script_text.specs.WellFormed.{IsWellFormed};
ghost use Rattle.first_state.specs.Plan.{layout_of};
ghost use Rattle.world_machine.specs.Runs.{IsStuck};
ghost use Rattle.cluster_run.specs.First.{IsFirstWorld};
ghost use Rattle.cluster_run.specs.Runs.{IsCreated, IsFinish, IsRunOf, RunsScript, step_limit};

use crate::first_worlds::first_world;
use base_types::NoMemory;
use first_state::{Created, create, layout_of};
use rac_disk::SharedDisk;
use script_text::Script;
use std::alloc::Global;
use world_machine::{Book, Observer, Ran, World, run};

/// How a run came to its end.
#[derive(Clone, Copy, Debug, PartialEq, Eq)]
pub enum Finish {
    /// The last wave is over.
    Over,
    /// As many steps were made as a run of the script may have, and the last wave isn't over.
    AtLimit,
    /// No step may be made, and the last wave isn't over.
    Stuck,
}

/// What a run left: the world after it, its steps with the words behind them, and how it came to its end.
#[derive(Drop)]
pub struct ClusterRun {
    pub world: World,
    pub ran: Ran,
    pub finish: Finish,
}

/// How a script was run.
#[derive(Drop)]
pub enum ScriptRun {
    /// A call of the disk failed as the database was made anew.
    NotCreated,
    Ran(ClusterRun),
}

/// The most steps of a run: 1,000,000 and 2,000 for each line of the script.
pub fn step_limit(script: &Script) -> u64
    ensures { result ≡ step_limit script.now.lines }
{
    1_000_000 + 2_000 * u64::from(script.lines())
}

// How a run with this limit came to its end.
fn finish_of(limit: u64, world: &World, book: &Book) -> Finish
    requires { IsStuck world.now ⊎ (length book.now ≡ limit) }
    ensures { IsFinish result limit world.now book.now }
{
    if world.core.waves.over {
        Finish::Over
    } else if book.len() as u64 == limit {
        Finish::AtLimit
    } else {
        Finish::Stuck
    }
}

// Runs a script from its first world on.
fn run_world<D: SharedDisk, O: Observer>(
    alloc: Global,
    script: &Script,
    first: World,
    disk: &mut D,
    observer: &mut O,
) -> Result<ClusterRun, NoMemory>
    requires { IsFirstWorld script.now first }
    ensures { IfOk result (λ it. IsRunOf script.now it (D.state disk.old) (D.state disk.new)) }
{
    let limit = step_limit(script);
    let seed = script.settings().seed;
    let mut world = first;
    let ran = run(alloc, &mut world, seed, limit, disk, observer)?;
    observer.end(script, &world)?;
    let finish = finish_of(limit, &world, &ran.book);
    Ok(ClusterRun { world, ran, finish })
}

// Makes the database of a script anew.
fn create_for<D: SharedDisk>(script: &Script, disk: &mut D) -> Created
    requires { IsWellFormed script.now }
    ensures { IsCreated (layout_of script.now) result (D.state disk.old) (D.state disk.new) }
{
    create(&layout_of(script), disk)
}

/// Makes the database anew and runs the script over it, to the end of its last wave, until no step may be made, or for the
/// most steps of a run, each of which the observer sees before it is made. The disk is touched only once there is memory
/// for the first world.
///
/// # Errors
///
/// There is no memory for the first world, or for what a step notes, sends or tells, for the book, or for what the observer
/// notes.
pub fn run_script<D: SharedDisk, O: Observer>(
    alloc: Global,
    script: &Script,
    disk: &mut D,
    observer: &mut O,
) -> Result<ScriptRun, NoMemory>
    requires { IsWellFormed script.now }
    ensures { IfOk result (λ it. RunsScript script.now it (D.state disk.old) (D.state disk.new)) }
{
    let first = first_world(alloc, script)?;
    match create_for(script, disk) {
        Created::Whole => Ok(ScriptRun::Ran(run_world(alloc, script, first, disk, observer)?)),
        Created::Failed => Ok(ScriptRun::NotCreated),
    }
}
