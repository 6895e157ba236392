//! The disk that the instances share: blocks, redo logs and control entries, with what each call does to
//! them and what a failed one may leave, and a disk in memory that fails as planned.
#![tactic(auto)]

mod mem_blocks;
mod mem_content;
mod mem_disk;
mod mem_log;
mod plan;
mod shared_disk;
#[cfg(test)]
mod tests;

pub use mem_content::MemContent;
pub use mem_disk::MemDisk;
pub use plan::{CallKind, Planned};
pub use shared_disk::{Failed, SharedDisk};
