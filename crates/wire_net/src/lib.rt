//! What instances tell each other: current images as they are shipped, messages, the entries of the directory, the links
//! on which packets wait, and the table of masters.
#![tactic(auto)]

mod entry;
mod fifo;
mod image;
mod links;
mod masters;
mod message;
mod report;
#[cfg(test)]
mod tests;

pub use entry::{DirEntries, Entry, Grants, Holder, Operation, PastHolder, PastVersions};
pub use fifo::Fifo;
pub use image::CurrentImage;
pub use links::Links;
pub use masters::Masters;
pub use message::{Lane, Message, Mode, Packet, Role, Shipment, UndoImage, Unfound, Waiting};
pub use report::{Frame, Report};
