//! A session's next line starts.

ghost use Rattle.std.specs.Prelude.{◌≡◌, ◌∷◌, true, slice_set, slice_index_or, OnOk};
ghost use Rattle.std.specs.Option.{option_copied};
ghost use Rattle.inst_state.specs.Sessions.{new_session};
ghost use Rattle.inst_state.specs.State.{asks_at};
ghost use Rattle.stmt_steps.specs.Start.{begun, first_block, may_start, start_tells, started};

use base_types::{BlockNo, NoMemory, Scn, Sequence};
use inst_state::{Asks, Doing, Inst, Session, Table};
use journal::{Entry, Journal};
use std::alloc::Global;

/// Whether a session's next line may start: the session is connected and nothing holds the line, and each own end up to
/// what is known is on the disk.
pub fn may_start(inst: &Inst, session: u16) -> bool
    ensures { result ≡ may_start inst.now session }
{
    let z = usize::from(session);
    inst.works()
        && inst.is_connected(z)
        && inst.doing(z).is_idle()
        && inst.may_begin(z)
        && !inst.end_waits()
}

// The block with which a line begins.
fn first_block(asks: Option<&Asks>) -> BlockNo
    ensures { result ≡ first_block (option_copied asks.entry) }
{
    match asks {
        Some(Asks::Read { first, .. }) => BlockNo(first.get() / 8),
        _ => BlockNo(0),
    }
}

fn begin(alloc: Global, session: &mut Session, snapshot: Scn, block: BlockNo)
    ensures { session.new ≡ begun snapshot block session.old }
{
    session.doing = Doing::Runs(snapshot);
    session.job.block = block;
    session.job.rows = Sequence::new(alloc);
    session.job.copy = None;
    session.job.handed_for = None;
}

#[tactic(auto, using(std::proofs::lemmas::List::set_past))]
fn begin_at(alloc: Global, sessions: &mut Table<Session>, z: usize, snapshot: Scn, block: BlockNo)
    ensures { sessions.new ≡ slice_set sessions.old z (begun snapshot block (slice_index_or sessions.old z new_session)) }
{
    if let Some(session) = sessions.get_mut(z) {
        begin(alloc, session, snapshot, block);
    }
}

/// A session's next line starts: it sees what is known.
///
/// # Errors
///
/// There is no memory for the journal's entry.
pub fn start(
    alloc: Global,
    inst: &mut Inst,
    session: u16,
    journal: &mut Journal,
) -> Result<(), NoMemory>
    requires { may_start inst.old session ≡ true }
    ensures part { OnOk result (inst.new ≡ started inst.old session) }
    ensures tells { OnOk result (journal.new ≡ start_tells inst.old session ∷ journal.old) }
{
    let z = usize::from(session);
    let stmt = inst.stmt(z);
    let snapshot = inst.clock.known;
    let block = first_block(inst.asks(z));
    begin_at(alloc, &mut inst.sessions, z, snapshot, block);
    journal.push(Entry::Started {
        stmt,
        session,
        snapshot,
    })
}
