//! The world: all instances and what they share, and runs of it. Each step of a run is a due crash, or is picked by the next
//! random word among those that may be made.
#![tactic(auto)]

mod insts;
mod observers;
mod runs;
mod worlds;

pub use insts::Insts;
pub use observers::{Nobody, Observer};
pub use runs::{Book, Ran, run};
pub use worlds::World;
