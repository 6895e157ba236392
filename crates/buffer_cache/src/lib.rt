//! An instance's images of data blocks: current and past ones, asks, and copies that are kept.
#![tactic(auto)]

mod cache;
mod copy;
mod place;
#[cfg(test)]
mod tests;

pub use block_image::{DataBlock, RowChange};
pub use cache::BufferCache;
pub use copy::KeptCopy;
pub use place::{Current, Held, PastImage, Place};
pub use wire_net::{CurrentImage, Mode, Role, Shipment};
