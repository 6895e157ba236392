ghost use Rattle.std.specs.Prelude.{◌≡◌};
ghost use Rattle.inst_state.specs.Sessions.{answered, ending_of, is_idle, new_job, new_session, snapshot_of};

use base_types::{BlockNo, Scn, Sequence, Xid};
use block_image::DataBlock;
use inst_set::InstSet;
use journal::RowList;
use savepoints::Marks;
use std::alloc::Global;
use undo_segment::Handed;

/// The end of a transaction that a session waits for.
#[derive(Clone, Copy, Debug, PartialEq, Eq)]
pub struct Ending {
    pub xid: Xid,
    pub scn: Scn,
    /// It committed; else it was rolled back.
    pub commit: bool,
    /// Its record is on the disk.
    pub on_disk: bool,
    /// The epoch in which it was told to all live instances.
    pub told: Option<u32>,
    /// Who has heard it in that epoch.
    pub heard: InstSet,
}

/// What a session does with its next line.
#[derive(Clone, Copy, Debug, PartialEq, Eq)]
pub enum Doing {
    /// It hasn't started yet.
    Idle,
    /// It is under way, and sees what was committed up to this SCN.
    Runs(Scn),
    /// Its transaction has its end record.
    Ends(Ending),
}

impl Doing {
    pub fn is_idle(&self) -> bool
        ensures { result ≡ is_idle self.now }
    {
        matches!(self, Doing::Idle)
    }

    /// The SCN up to which its line sees, where it is under way.
    pub fn snapshot(&self) -> Option<Scn>
        ensures { result ≡ snapshot_of self.now }
    {
        match self {
            Doing::Runs(snapshot) => Some(*snapshot),
            _ => None,
        }
    }

    /// The end that it waits for.
    pub fn ending(&self) -> Option<Ending>
        ensures { result ≡ ending_of self.now }
    {
        match self {
            Doing::Ends(ending) => Some(*ending),
            _ => None,
        }
    }
}

/// An image of a data block, by the block and its version.
#[derive(Clone, Copy, Debug, PartialEq, Eq)]
pub struct ImageName {
    pub block: BlockNo,
    pub version: u64,
}

/// A copy of a data block that came for a statement.
#[derive(Debug, Drop)]
pub struct CameCopy {
    pub image: DataBlock,
    /// It shows all that was changed up to this SCN.
    pub upto: Scn,
}

/// What a statement has at hand.
#[derive(Debug, Drop)]
pub struct Job {
    /// The next block that a read comes to.
    pub block: BlockNo,
    /// The rows of the blocks before it.
    pub rows: RowList,
    pub copy: Option<CameCopy>,
    /// Headers and undo blocks of other segments.
    pub handed: Handed,
    /// The image for which they were handed in.
    pub handed_for: Option<ImageName>,
    /// The image for which a header or an undo block is asked for.
    pub undo_out: Option<ImageName>,
}

impl Job {
    /// Nothing is at hand. It takes no memory.
    pub fn new(alloc: Global) -> Job
        ensures { result ≡ new_job }
    {
        Job {
            block: BlockNo(0),
            rows: Sequence::new(alloc),
            copy: None,
            handed: Handed::new(alloc),
            handed_for: None,
            undo_out: None,
        }
    }
}

/// A session as its instance keeps it.
#[derive(Debug, Drop)]
pub struct Session {
    /// It was opened, and its instance has been up since.
    pub connected: bool,
    /// The place of its next line among its lines.
    pub next: usize,
    pub doing: Doing,
    /// Its open transaction.
    pub own: Option<Xid>,
    /// How many changes and locks of it stand.
    pub standing: u32,
    pub marks: Marks,
    pub job: Job,
}

impl Session {
    /// A session that wasn't opened yet. It takes no memory.
    pub fn new(alloc: Global) -> Session
        ensures { result ≡ new_session }
    {
        Session {
            connected: false,
            next: 0,
            doing: Doing::Idle,
            own: None,
            standing: 0,
            marks: Marks::new(alloc),
            job: Job::new(alloc),
        }
    }

    /// Its line is answered: the next one hasn't started yet.
    pub fn answer(&mut self)
        ensures { self.new ≡ answered self.old }
    {
        self.next = self.next.saturating_add(1);
        self.doing = Doing::Idle;
    }
}
