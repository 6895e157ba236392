//! Slots, undo records and the fronts of blocks as bytes, once for all formats.
#![tactic(auto)]

mod bit;
mod bytes;
mod front;
mod itl;
#[cfg(test)]
mod tests;
mod txn_slot;
mod undo_record;
mod value;

pub use bit::{bit_of, fact_of};
pub use bytes::{are_zeros, put_u8, put_zeros};
pub use front::{BlockFront, BlockKind, put_front, read_front};
pub use itl::{put_itl, read_itl};
pub use txn_slot::{put_txn_slot, read_txn_slot};
pub use undo_record::{put_undo_place, put_undo_record, read_undo_place, read_undo_record};
pub use value::{bits_of, flag_of, value_of};
