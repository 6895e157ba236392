use crate::control::Control;
use crate::table::Table;
use base_types::{BlockNo, Layout};
use block_image::DataBlock;
use inst_set::InstSet;
use journal::Journal;
use recovery::{Membership, Reports};
use scn_clock::Clock;
use wire_net::{Links, Masters};

/// How instances reach each other.
#[derive(Debug, Drop)]
pub struct Net {
    pub links: Links,
    /// The masters of the buckets.
    pub masters: Masters,
}

/// A block that recovery wrote, with its version.
#[derive(Clone, Copy, Debug, PartialEq, Eq)]
pub struct Rebuilt {
    pub block: BlockNo,
    pub version: u64,
}

/// What recovery has come to.
#[derive(Debug, Drop)]
pub struct Recovery {
    pub reports: Reports,
    /// The past images that were handed to the leader since the last change of membership.
    pub given: Table<DataBlock>,
    /// What recovery wrote since then.
    pub rebuilt: Table<Rebuilt>,
    /// The clocks after recovery.
    pub bound: Clock,
    /// The threads that are known to be closed, by instance, with the SCNs of their control entries.
    pub closed: [Option<Clock>; 8],
    /// The instances that have joined and whose former threads are to be closed first.
    pub former: InstSet,
    /// The threads that were closed since the phase was last Running.
    pub closed_since: InstSet,
    /// The place in each thread up to which the Committed of its commit records have entered the journal, by instance.
    pub counted: [u64; 8],
}

/// The waves of the script.
#[derive(Debug, Drop)]
pub struct Waves {
    /// The current wave, counted from 1.
    pub wave: u32,
    /// How many waves there are.
    pub count: u32,
    /// The last wave is over.
    pub over: bool,
    /// The instances that have left the wave.
    pub left: InstSet,
    /// How many steps were made since the wave rose.
    pub steps: u64,
    /// The instances that have made a Mark in the wave.
    pub marked: InstSet,
    /// The control lines of each wave, in the order of their lines.
    pub controls: Table<Table<Control>>,
}

/// What the instances share.
#[derive(Debug, Drop)]
pub struct Core {
    pub layout: Layout,
    pub net: Net,
    pub members: Membership,
    /// The instances that have reported and haven't resumed.
    pub paused: InstSet,
    pub recovery: Recovery,
    pub waves: Waves,
    pub journal: Journal,
}
