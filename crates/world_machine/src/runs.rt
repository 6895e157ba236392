ghost use Rattle.std.specs.Prelude.{◌≡◌, ◌≤◌, ◌⊎◌, [], length, IfOk, IfSome, IfNone};
ghost use Rattle.world_machine.specs.Machine.{W};
ghost use Rattle.world_machine.specs.Runs.{IsPicked, IsRun, IsStuck, words};

use crate::observers::Observer;
use crate::worlds::World;
use base_types::{NoMemory, Sequence};
use inst_node::Step;
use rac_disk::SharedDisk;
use rand_core::utils::NextWord;
use rand_pcg::Lcg64Xsh32;
use std::alloc::Global;

/// The steps of a run.
pub type Book = Sequence<Step>;

// The first due crash, or else the step that the next word picks among those that may be made; `None` where there is none.
fn pick(alloc: Global, world: &World, words: &mut Lcg64Xsh32) -> Result<Option<Step>, NoMemory>
    ensures picked { IfOk result (λ step. IfSome step (λ step. IsPicked words.old world.now step words.new)) }
    ensures none { IfOk result (λ step. IfNone step (IsStuck world.now × (words.new ≡ words.old))) }
{
    if let Some(crash) = world.due() {
        return Ok(Some(crash));
    }
    let mut choices = Sequence::new(alloc);
    world.add_enabled(&mut choices)?;
    let steps = choices.as_slice();
    if steps.is_empty() {
        return Ok(None);
    }
    let word = words.next_word() as usize;
    Ok(Some(steps[word % steps.len()]))
}

// Makes the step that is picked, which the observer sees before; `None` where none may be made.
fn turn<D: SharedDisk, O: Observer>(
    alloc: Global,
    world: &mut World,
    words: &mut Lcg64Xsh32,
    disk: &mut D,
    observer: &mut O,
) -> Result<Option<Step>, NoMemory>
    ensures turns { IfOk result (λ step. IfSome step (λ step. IsPicked words.old world.old step words.new × W world.old (D.state disk.old) step world.new (D.state disk.new))) }
    ensures none { IfOk result (λ step. IfNone step (IsStuck world.old × (words.new ≡ words.old) × (world.new ≡ world.old) × (D.state disk.new ≡ D.state disk.old))) }
{
    let Some(step) = pick(alloc, world, words)? else {
        return Ok(None);
    };
    observer.see(world, &step)?;
    world.step(alloc, &step, disk)?;
    Ok(Some(step))
}

/// What a run left: its steps, and the words behind them.
#[derive(Drop)]
pub struct Ran {
    pub book: Book,
    pub words: Lcg64Xsh32,
}

/// Makes steps, each the first due crash or else the one that the next word picks, until none may be made or so many were
/// made. The observer sees each before it is made.
///
/// # Errors
///
/// There is no memory for what a step notes, sends or tells, for the book, or for what the observer notes.
pub fn run<D: SharedDisk, O: Observer>(
    alloc: Global,
    world: &mut World,
    seed: u64,
    limit: u64,
    disk: &mut D,
    observer: &mut O,
) -> Result<Ran, NoMemory>
    ensures run { IfOk result (λ ran. IsRun (words seed) world.old (D.state disk.old) ran.book ran.words world.new (D.state disk.new)) }
    ensures ends { IfOk result (λ ran. IsStuck world.new ⊎ (length ran.book ≡ limit)) }
    ensures few { IfOk result (λ ran. length ran.book ≤ limit) }
{
    let mut words = Lcg64Xsh32::new(seed, 1);
    let mut book = Sequence::new(alloc);
    for _made in 0..limit {
        match turn(alloc, world, &mut words, disk, observer)? {
            Some(step) => book.push(step)?,
            None => return Ok(Ran { book, words }),
        }
    }
    Ok(Ran { book, words })
}
