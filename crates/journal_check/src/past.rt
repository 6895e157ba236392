ghost use Rattle.std.specs.Prelude.{◌≡◌, reverse};
ghost use Rattle.journal.specs.Past.{same_xid, start_after, start_of, home_after, home_of, is_loss_of, up_after, is_up};

use base_types::{InstNo, Xid};
use journal::{Entry, Start};

/// Whether two names of transactions are one.
pub fn is_same(x: &Xid, y: &Xid) -> bool
    ensures { result ≡ same_xid x.now y.now }
{
    x == y
}

fn start_after(stmt: u32, entry: &Entry, before: Option<Start>) -> Option<Start>
    ensures { result ≡ start_after stmt entry.now before }
{
    match entry {
        Entry::Started {
            stmt: started,
            session,
            snapshot,
        } if stmt == *started => Some(Start {
            session: *session,
            snapshot: *snapshot,
        }),
        _ => before,
    }
}

/// The last start of a statement.
pub fn start_of(stmt: u32, past: &[Entry]) -> Option<Start>
    ensures { result ≡ start_of stmt (reverse past.now) }
{
    let mut start = None;
    for entry in past {
        start = start_after(stmt, entry, start);
    }
    start
}

fn home_after(session: u16, entry: &Entry, before: Option<InstNo>) -> Option<InstNo>
    ensures { result ≡ home_after session entry.now before }
{
    match entry {
        Entry::Opened {
            session: opened,
            inst,
        } if session == *opened => Some(*inst),
        _ => before,
    }
}

/// The instance that a session was last opened on.
pub fn home_of(session: u16, past: &[Entry]) -> Option<InstNo>
    ensures { result ≡ home_of session (reverse past.now) }
{
    let mut home = None;
    for entry in past {
        home = home_after(session, entry, home);
    }
    home
}

/// Whether an entry is a loss of an instance.
pub fn is_loss_of(inst: InstNo, entry: &Entry) -> bool
    ensures { result ≡ is_loss_of inst entry.now }
{
    match entry {
        Entry::Crashed { inst: lost, .. } | Entry::Ended { inst: lost, .. } => inst == *lost,
        _ => false,
    }
}

fn up_after(inst: InstNo, entry: &Entry, before: bool) -> bool
    ensures { result ≡ up_after inst entry.now before }
{
    match entry {
        Entry::Up { inst: started, .. } => before || inst == *started,
        _ => before && !is_loss_of(inst, entry),
    }
}

/// Whether an instance is up.
pub fn is_up(inst: InstNo, past: &[Entry]) -> bool
    ensures { result ≡ is_up inst (reverse past.now) }
{
    let mut up = true;
    for entry in past {
        up = up_after(inst, entry, up);
    }
    up
}
