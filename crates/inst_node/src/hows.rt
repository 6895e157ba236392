//! How the disk's calls of a step went.

use disk_calls::{Appended, Written};
use disk_steps::{AskedUndo, Installed, Kept};
use rebuild_steps::{Joined, Recovered, Thawed};
use std::snapshot::Snapshot;
use thread_steps::{Closing, Found};

/// How the disk's calls of a step went, by its kind.
#[derive(Drop)]
pub enum How {
    /// The step makes no call.
    Calm,
    Forced(Appended),
    Crashed(Kept),
    Written(Written),
    Installed(Installed),
    AskedUndo(AskedUndo),
    Joined(Joined),
    ReadThread(Snapshot<Found>),
    Recovered(Recovered),
    Closed(Closing),
    Thawed(Thawed),
}
