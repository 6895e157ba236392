ghost use Rattle.std.specs.Prelude.{◌≡◌};
ghost use Rattle.inst_state.specs.Lines.{is_commit, is_read};

use base_types::RowNo;
use script_text::Name;
use txn_engine::Wish;

/// What a statement line asks.
#[derive(Debug, Drop)]
pub enum Asks {
    /// A get or a scan of the rows from the first to the last, both included.
    Read { first: RowNo, last: RowNo },
    Change { row: RowNo, wish: Wish },
    Commit,
    Rollback,
    Savepoint(Name),
    RollbackTo(Name),
}

impl Asks {
    pub fn is_read(&self) -> bool
        ensures { result ≡ is_read self.now }
    {
        matches!(self, Asks::Read { .. })
    }

    pub fn is_commit(&self) -> bool
        ensures { result ≡ is_commit self.now }
    {
        matches!(self, Asks::Commit)
    }
}

/// A statement line of a session.
#[derive(Debug, Drop)]
pub struct Line {
    /// Its number in the script.
    pub stmt: u32,
    /// Its wave, counted from 1.
    pub wave: u32,
    pub asks: Asks,
    /// The session for which it waits once it has started: it is its session's first line of the wave, and a `hold` line
    /// keeps it until all lines of that session in the wave are answered.
    pub until: Option<u16>,
    /// The session behind whose start it waits: a `hold` line lets it start only once the first line of that session in
    /// the wave has started.
    pub behind: Option<u16>,
}
