use crate::plan::Plan;
use crate::session::Session;
use crate::table::Table;
use base_types::{BlockNo, InstNo, Scn, Xid};
use buffer_cache::BufferCache;
use redo_thread::RedoThread;
use redo_types::Redo;
use resource_dir::Directory;
use scn_clock::Clock;
use undo_segment::Segment;

/// Whether an instance is there.
#[derive(Clone, Copy, Debug, PartialEq, Eq)]
pub enum Life {
    Down,
    /// It has joined by the start line with this number, and isn't up yet.
    Joining(u32),
    Up,
}

/// An end record that waits for the disk.
#[derive(Clone, Copy, Debug, PartialEq, Eq)]
pub struct WaitingEnd {
    pub xid: Xid,
    pub scn: Scn,
    /// The place behind its record.
    pub behind: u64,
    /// It is a commit; else the end of a rollback.
    pub commit: bool,
    /// The session that waits for it; none for a transaction of a down segment.
    pub session: Option<u16>,
}

/// A redo record, by its place in the thread.
#[derive(Clone, Copy, Debug, PartialEq, Eq)]
pub struct Made {
    /// The place where it begins.
    pub at: u64,
    pub scn: Scn,
    /// It is the end of a transaction.
    pub ends: bool,
}

/// A checkpoint that has begun: what it waits for.
#[derive(Clone, Copy, Debug, PartialEq, Eq)]
pub struct Begun {
    /// The number of the line that asks for it.
    pub line: u32,
    /// The data blocks that are to be written or to leave, by their numbers.
    pub blocks: [bool; 64],
    /// The blocks of the own segment that are to be written, the header first.
    pub segment: [bool; 17],
    /// The versions of the past images that are to go, by the blocks' numbers.
    pub pasts: [Option<u64>; 64],
}

/// To whom each bucket was sent that went away, by the bucket's number.
#[derive(Clone, Copy, Debug, PartialEq, Eq)]
pub struct BucketsSent {
    pub by_bucket: [Option<InstNo>; 16],
}

/// The blocks of which an instance is the master.
#[derive(Debug, Drop)]
pub struct Mastering {
    pub directory: Directory,
    pub sent: BucketsSent,
    /// The epoch of the Thaw that it has taken over.
    pub taken: u32,
}

/// The wave as an instance sees it.
#[derive(Debug, Drop)]
pub struct OwnWave {
    /// The wave that it has entered last; 0 for none.
    pub entered: u32,
    /// The checkpoints that it has begun in it.
    pub checkpoints: Table<Begun>,
}

/// A dead thread as it was read.
#[derive(Debug, Drop)]
pub struct ReadThread {
    pub thread: InstNo,
    pub records: Table<Redo>,
    /// The place behind its last whole record.
    pub behind: u64,
    /// Its highest SCN and its highest SCN of an end, those of its control entry counted.
    pub scns: Clock,
}

/// What the leader has read and done since the last change of membership.
#[derive(Debug, Drop)]
pub struct Recovering {
    /// The epoch to which all else belongs.
    pub epoch: u32,
    /// The threads that were read.
    pub threads: Table<ReadThread>,
    /// The versions on the disk of the blocks that dead records name, by block.
    pub versions: Table<Option<u64>>,
    /// The blocks that were rebuilt.
    pub rebuilt: Table<BlockNo>,
}

/// What an instance has as the leader of a recovery.
#[derive(Debug, Drop)]
pub struct Leading {
    /// It rolls back transactions of down segments: from its Thaw to its next Report.
    pub leads: bool,
    /// The segments that it has adopted, ascending.
    pub adopted: Table<Segment>,
    pub recovering: Recovering,
}

/// An instance's own part.
#[derive(Drop)]
pub struct Inst {
    pub plan: Plan,
    pub life: Life,
    /// It has reported after a change of membership, and hasn't resumed.
    pub paused: bool,
    pub clock: Clock,
    pub thread: RedoThread,
    /// The SCNs of the control entry that it wrote last.
    pub entry_scns: Clock,
    /// The records behind the position of that entry.
    pub made: Table<Made>,
    /// The ends that wait for the disk, in the order of their records.
    pub ends: Table<WaitingEnd>,
    pub segment: Segment,
    pub cache: BufferCache,
    /// The place behind the last own record on each data block, by the block's number.
    pub newest: [u64; 64],
    pub mastering: Mastering,
    pub sessions: Table<Session>,
    pub wave: OwnWave,
    pub leading: Leading,
}
