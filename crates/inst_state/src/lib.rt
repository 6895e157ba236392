//! An instance of the cluster and what the instances share: the state of the machine, and how its steps read it.
#![tactic(auto)]

mod control;
mod hand;
mod inst;
mod line;
mod moments;
mod needs;
mod plan;
mod records;
mod sending;
mod session;
mod shared;
mod table;
mod tells;

pub use control::{Control, Wanted, When};
pub use hand::{name_of, same_name};
pub use inst::{
    Begun, BucketsSent, Inst, Leading, Life, Made, Mastering, OwnWave, ReadThread, Recovering,
    WaitingEnd,
};
pub use line::{Asks, Line};
pub use needs::{Needed, serves};
pub use plan::{Opening, Plan};
pub use records::{append, note_newest};
pub use session::{CameCopy, Doing, Ending, ImageName, Job, Session};
pub use shared::{Core, Net, Rebuilt, Recovery, Waves};
pub use table::Table;
pub use tells::insts_below;
