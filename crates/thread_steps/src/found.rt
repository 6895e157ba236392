use base_types::BlockNo;
use inst_state::{ReadThread, Table};
use scn_clock::Clock;

/// The version that a block has on the disk.
#[derive(Clone, Copy, Debug, PartialEq, Eq)]
pub struct BlockVersion {
    pub block: BlockNo,
    pub version: u64,
}

/// The log of a dead thread, as it was read.
#[derive(Debug, Drop)]
pub struct FoundLog {
    /// The position of its control entry: the place of the first record that was read.
    pub position: u64,
    pub read: ReadThread,
}

/// How a read of a dead thread went.
#[derive(Debug, Drop)]
pub enum Found {
    /// The thread is closed, by its control entry, with these SCNs.
    Closed(Clock),
    /// Nothing of its log was read: a call failed, or its control entry is none that a run leaves (`bad`).
    Unread {
        bad: bool,
    },
    /// Its records were read; then a call failed, or what stands behind them or a block that they name is no content that
    /// a run leaves (`bad`).
    Stopped {
        log: FoundLog,
        bad: bool,
    },
    /// Its records were read, and the versions on the disk of the blocks that they name, ascending.
    Whole {
        log: FoundLog,
        versions: Table<BlockVersion>,
    },
}
