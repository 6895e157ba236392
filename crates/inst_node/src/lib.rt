//! The steps of one instance, all kinds together: which may be made, making one, and the choices that an instance has.
#![tactic(auto)]

mod actions;
mod allowed;
mod choosing;
mod hows;
mod making;
mod needing;
mod preparing;

pub use actions::{Action, BlockStep, DeadStep, InstStep, LineStep, PlainStep, SessionStep, Step};
pub use choosing::add_choices;
pub use hows::How;
pub use making::make;
pub use needing::needs;
