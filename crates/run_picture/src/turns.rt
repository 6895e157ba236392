//! What a picture shows of a step.

use base_types::{BlockNo, InstNo};

/// What is to be seen of a step, beside what it tells.
#[derive(Clone, Copy, Debug, PartialEq, Eq)]
pub enum Sign {
    /// Nothing: a step that only passes a message on, or whose entries say all.
    Plain,
    /// The block is asked for.
    Asks {
        block: BlockNo,
    },
    /// The block is held, with the disk's image or the one that was there.
    Holds {
        block: BlockNo,
    },
    /// The current image of the block goes to an instance, and a past image of it may stay.
    Ships {
        block: BlockNo,
        version: u64,
        to: InstNo,
        keeps_past: bool,
    },
    /// The current image of the block comes from an instance.
    Gets {
        block: BlockNo,
        version: u64,
        from: InstNo,
    },
    /// A copy of the block goes to an instance.
    Serves {
        block: BlockNo,
        version: u64,
        to: InstNo,
    },
    /// A copy of the block comes from an instance.
    GetsCopy {
        block: BlockNo,
        version: u64,
        from: InstNo,
    },
    /// A past image of the block goes to the leader.
    GivesPast {
        block: BlockNo,
    },
    /// Past images of the block up to the version are dropped.
    DropsPast {
        block: BlockNo,
        version: u64,
    },
    /// The block's image is given up.
    GivesUp {
        block: BlockNo,
    },
    /// The block is written to the disk.
    Writes {
        block: BlockNo,
    },
    /// The block is to be written by the one that holds it.
    AsksWrite {
        block: BlockNo,
    },
    /// All redo is forced to the disk.
    Forces,
    /// Recovery waits: the instance tells what it holds, and pauses.
    Reports,
    /// The redo of a dead thread is read.
    ReadsThread {
        thread: InstNo,
    },
    /// The block is rolled forward and written.
    Recovers {
        block: BlockNo,
    },
    /// A dead thread is closed.
    ClosesThread {
        thread: InstNo,
    },
    /// Masters and directories are made anew.
    Thaws,
    /// Recovery is over.
    Reopens,
    /// The instance goes on.
    Resumes,
    /// The instance joins.
    Joins,
    /// The next wave begins, or the run ends.
    Wave,
}

/// A step of a run: an instance did this, and told so many entries of the journal.
#[derive(Clone, Copy, Debug, PartialEq, Eq)]
pub struct Turn {
    pub inst: InstNo,
    pub sign: Sign,
    pub entries: u32,
}
