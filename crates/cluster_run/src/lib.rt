//! The database is made anew, and the script of a run is run over it by all its instances.
#![tactic(auto)]

mod first_worlds;
mod script_runs;

pub use first_worlds::first_world;
pub use script_runs::{ClusterRun, Finish, ScriptRun, run_script, step_limit};
