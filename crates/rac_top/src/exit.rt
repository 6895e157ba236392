ghost use Rattle.std.specs.Prelude.{◌≡◌, []};
ghost use Rattle.rac_top.specs.Ends.{status_of};

use base_types::InstNo;
use journal::Journal;
use script_text::Rule;
use std::alloc::Global;
use world_machine::Book;

/// How a call of the program ended.
#[derive(Clone, Copy, Debug, PartialEq, Eq)]
pub enum End {
    /// All was read to its end, run or audited, and written.
    Done,
    /// The words are none that the program knows.
    WrongWords,
    /// This line of the script, counted from 1, is the first that breaks a rule, and this the first that it breaks.
    Refused { line: u32, rule: Rule },
    /// The source failed.
    ReadFault,
    /// The sink failed, or took nothing of what was to be written.
    WriteFault,
    /// The disk failed before the first step, as the database was made anew.
    NotCreated,
    /// The disk failed in the run. The whole run is reported.
    DiskFault,
    /// The disk failed as its logs were read for an audit.
    LogsUnread,
    /// Memory ran out.
    NoMemory,
    /// The run made so many steps, and wasn't over. It is reported as far as it went.
    StepLimit { limit: u64 },
    /// An audit met a log that no run left: what stands in the log of this thread from this place on, in bytes from
    /// its beginning, is neither whole records nor one cut short. The logs of all lower threads are right.
    BadLog { thread: InstNo, place: u64 },
    /// An instance met content on the disk that no run left, and ended. The whole run is reported.
    BadDisk,
    /// No step could be made, and the run wasn't over. It is reported as far as it went.
    Stuck,
    /// The journal of the run isn't good. Nothing was written.
    NotGood,
}

impl End {
    /// The exit status of the program.
    pub fn status(&self) -> u8
        ensures { result ≡ status_of self.now }
    {
        match self {
            End::Done => 0,
            End::WrongWords => 2,
            End::Refused { .. } => 3,
            End::ReadFault => 4,
            End::WriteFault => 5,
            End::NotCreated | End::DiskFault | End::LogsUnread => 6,
            End::NoMemory => 7,
            End::StepLimit { .. } => 8,
            End::BadLog { .. } => 9,
            End::BadDisk => 13,
            End::Stuck => 14,
            End::NotGood => 15,
        }
    }
}

/// How a call of the program ended, and what it ran.
#[derive(Debug, Drop)]
pub struct Exit {
    pub end: End,
    /// The journal of the run, as far as it went; empty where there was none, as in an audit.
    pub journal: Journal,
    /// The steps of the run, likewise.
    pub book: Book,
}

impl Exit {
    /// An exit at which nothing was run.
    pub fn without_run(alloc: Global, end: End) -> Exit
        ensures { result ≡ record { end = end; journal = []; book = [] } }
    {
        Exit {
            end,
            journal: Journal::new(alloc),
            book: Book::new(alloc),
        }
    }
}
