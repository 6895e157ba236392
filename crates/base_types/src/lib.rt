//! The base types of the cluster: its numbers and names, values, the disk's layout, a list that contracts see as a
//! list, and how numbers stand in bytes.
#![tactic(auto)]

mod bytes;
mod layout;
mod memory;
mod names;
mod sequence;
#[cfg(test)]
mod tests;
mod value;

pub use bytes::{
    get_u16, get_u32, get_u64, get_xid, number_stands_where_put, put_leaves_others, put_u16,
    put_u32, put_u64, put_xid, xid_stands_where_put,
};
pub use layout::Layout;
pub use memory::NoMemory;
pub use names::{BlockNo, InstNo, RedoAt, RowNo, Scn, UndoAt, Xid};
pub use sequence::Sequence;
pub use value::Value;
