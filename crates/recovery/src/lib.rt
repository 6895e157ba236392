//! What recovery does after a change of membership: which image a block is rebuilt from, and what its redo makes of that.
#![tactic(auto)]

mod base;
mod dead;
mod fitting;
mod laws;
mod members;
mod parts;
mod recovery_set;
mod reports;
mod roll;
#[cfg(test)]
mod tests;

pub use base::{Base, choose_base, newest_past};
pub use dead::{NextBack, next_back};
pub use laws::{rolling_applies_each, rolling_goes_on};
pub use members::{Membership, Phase};
pub use recovery_set::{blocks_to_recover, is_to_recover};
pub use reports::Reports;
pub use roll::{roll_block, roll_header, roll_undo_block};
