//! Who looks on at a run.

use crate::worlds::World;
use base_types::NoMemory;
use inst_node::Step;
use script_text::Script;

/// Looks on at a run of a script, and changes nothing of it.
pub trait Observer {
    /// A step is about to be made in this world.
    ///
    /// # Errors
    ///
    /// There is no memory for what is noted of it; the run ends then.
    fn see(&mut self, world: &World, step: &Step) -> Result<(), NoMemory>;

    /// The run of the script has come to its end in this world.
    ///
    /// # Errors
    ///
    /// There is no memory for what is made of it.
    fn end(&mut self, script: &Script, world: &World) -> Result<(), NoMemory>;
}

/// Nobody looks on.
#[derive(Clone, Copy, Debug, PartialEq, Eq)]
pub struct Nobody;

impl Observer for Nobody {
    fn see(&mut self, _world: &World, _step: &Step) -> Result<(), NoMemory> {
        Ok(())
    }

    fn end(&mut self, _script: &Script, _world: &World) -> Result<(), NoMemory> {
        Ok(())
    }
}
