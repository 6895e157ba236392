//! The end record of a transaction is made.

ghost use Rattle.std.specs.Prelude.{◌≡◌, ◌∷◌, ◌++◌, ◌+◌, ◌*◌, [], true, false, None, Some, IfSome, OnOk, slice_get, slice_index_or, slice_set};
ghost use Rattle.std.specs.Option.{ForSome, option_copied};
ghost use Rattle.redo_record.specs.Redo.{IsRedo};
ghost use Rattle.redo_thread.specs.Thread.{end_of};
ghost use Rattle.txn_engine.specs.Parts.{FitsSegment};
ghost use Rattle.inst_state.specs.Needs.{dead_place, dead_segment, dead_txn};
ghost use Rattle.inst_state.specs.Sessions.{new_session};
ghost use Rattle.inst_state.specs.State.{asks_at, has_room, session_at, stmt_at};
ghost use Rattle.stmt_steps.specs.Mark.{adopted_applied, commits, dead_end_decided, dead_end_made, dead_end_of, dead_job, dead_mark_tells, dead_marked, end_decided, end_kind, end_made, end_of_txn, end_tells, ending, is_job, kind_of, leading_applied, mark_tells, marked, may_mark, may_mark_dead};

use base_types::{InstNo, NoMemory, RedoAt, Xid};
use inst_set::InstSet;
use inst_state::{Asks, Doing, Ending, Inst, Session, Table, WaitingEnd, append};
use journal::{Entry, Journal};
use redo_types::Redo;
use txn_engine::{EndKind, decide_end};
use undo_segment::Segment;

// How a line ends its session's transaction: a rollback only once nothing of it stands.
fn kind_of(standing: u32, asks: Option<&Asks>) -> Option<EndKind>
    ensures { (s : Session) → s.standing ≡ standing → result ≡ kind_of s (option_copied asks.entry) }
{
    match asks {
        Some(Asks::Commit) => Some(EndKind::Commit),
        Some(Asks::Rollback) => {
            if standing == 0 {
                Some(EndKind::RollbackEnd)
            } else {
                None
            }
        }
        _ => None,
    }
}

ghost use Rattle.inst_state.specs.declared.session.Session.{Session};

fn end_kind(inst: &Inst, z: usize) -> Option<EndKind>
    ensures { result ≡ end_kind inst.now z }
{
    if inst.snapshot(z).is_some() {
        kind_of(inst.standing(z), inst.asks(z))
    } else {
        None
    }
}

fn end_of_txn(inst: &Inst, xid: Option<Xid>, kind: Option<EndKind>) -> Option<Redo>
    ensures decided { result ≡ end_of_txn inst.now xid kind }
    ensures fits { IfSome result (FitsSegment inst.now.segment) }
{
    match (xid, kind) {
        (Some(xid), Some(kind)) => decide_end(&xid, kind, &inst.segment, &inst.clock),
        _ => None,
    }
}

// The record of the end to which a session's line comes.
fn end_decided(inst: &Inst, z: usize) -> Option<Redo>
    ensures decided { result ≡ end_decided inst.now z }
    ensures fits { IfSome result (FitsSegment inst.now.segment) }
{
    end_of_txn(inst, inst.own(z), end_kind(inst, z))
}

/// Whether the end record of a session's transaction may be made: its line asks for it, nothing of a rollback is left, and
/// there is room for a record.
pub fn may_mark(inst: &Inst, session: u16) -> bool
    ensures { result ≡ may_mark inst.now session }
{
    let z = usize::from(session);
    inst.works() && inst.has_room() && !inst.is_stopped(z) && end_decided(inst, z).is_some()
}

fn commits(kind: &Option<EndKind>) -> bool
    ensures { result ≡ commits kind.now }
{
    matches!(kind, Some(EndKind::Commit))
}

fn end_session(session: &mut Session, redo: &Redo, commit: bool)
    ensures { session.new ≡ ending redo.now commit session.old }
{
    session.own = None;
    session.standing = 0;
    session.doing = Doing::Ends(Ending {
        xid: redo.xid,
        scn: redo.scn,
        commit,
        on_disk: false,
        told: None,
        heard: InstSet::new(),
    });
}

#[tactic(auto, using(std::proofs::lemmas::List::set_past))]
fn end_session_at(sessions: &mut Table<Session>, z: usize, redo: &Redo, commit: bool)
    ensures { sessions.new ≡ slice_set sessions.old z (ending redo.now commit (slice_index_or sessions.old z new_session)) }
{
    if let Some(session) = sessions.get_mut(z) {
        end_session(session, redo, commit);
    }
}

fn end_tells(stmt: u32, redo: &Redo, commit: bool) -> Entry
    ensures { result ≡ end_tells stmt redo.now commit }
{
    if commit {
        Entry::Marked {
            stmt,
            xid: redo.xid,
            commit_scn: redo.scn,
        }
    } else {
        Entry::Rolled { xid: redo.xid }
    }
}

fn make_end(
    inst: &mut Inst,
    session: u16,
    redo: &Redo,
    commit: bool,
    journal: &mut Journal,
) -> Result<(), NoMemory>
    requires fits { FitsSegment inst.old.segment redo.now }
    requires room { has_room inst.old ≡ true }
    ensures part { OnOk result (inst.new ≡ end_made inst.old session redo.now commit) }
    ensures tells { OnOk result (journal.new ≡ end_tells (stmt_at inst.old session) redo.now commit ∷ journal.old) }
{
    let z = usize::from(session);
    let entry = end_tells(inst.stmt(z), redo, commit);
    let at = append(inst, redo, true)?;
    inst.segment.apply(redo, at);
    inst.ends.push(WaitingEnd {
        xid: redo.xid,
        scn: redo.scn,
        behind: inst.thread.end().get(),
        commit,
        session: Some(session),
    })?;
    end_session_at(&mut inst.sessions, z, redo, commit);
    journal.push(entry)
}

/// The end record of a session's transaction is made.
///
/// # Errors
///
/// There is no memory for what is noted of it or for the journal's entry.
pub fn mark(inst: &mut Inst, session: u16, journal: &mut Journal) -> Result<(), NoMemory>
    requires { may_mark inst.old session ≡ true }
    ensures part { OnOk result (inst.new ≡ marked inst.old session) }
    ensures tells { OnOk result (journal.new ≡ mark_tells inst.old session ++ journal.old) }
    ensures record { OnOk result (IfSome (end_decided inst.old session) IsRedo) }
{
    let z = usize::from(session);
    let commit = commits(&end_kind(inst, z));
    match end_decided(inst, z) {
        Some(redo) => make_end(inst, session, &redo, commit, journal),
        None => Ok(()),
    }
}

// The number of the job of the dead transaction in a slot.
fn job_of(seg: InstNo, slot: u8) -> u64
    ensures { result ≡ 1024 + 8 * seg + slot }
{
    1024 + 8 * u64::from(seg.get()) + u64::from(slot)
}

/// The number of the job of a dead transaction: 1,024 and more, behind the numbers of all sessions.
pub fn dead_job(xid: &Xid) -> u64
    ensures { result ≡ dead_job xid.now }
{
    job_of(xid.seg, xid.slot)
}

/// Whether a job, if there is a transaction, is this one.
pub fn is_job(job: u64, xid: &Option<Xid>) -> bool
    ensures { result ≡ is_job job xid.now }
{
    match xid {
        Some(xid) => dead_job(xid) == job,
        None => false,
    }
}

fn dead_end_decided(inst: &Inst) -> Option<Redo>
    ensures decided { result ≡ dead_end_decided inst.now }
    ensures is { IfSome result IsRedo }
    ensures fits { IfSome result (λ redo. ForSome (dead_segment inst.now) (λ segment. FitsSegment segment redo)) }
{
    match (inst.dead_txn(), inst.dead_segment()) {
        (Some(xid), Some(segment)) => {
            decide_end(&xid, EndKind::RollbackEnd, segment, &inst.clock)
        }
        _ => None,
    }
}

/// Whether the end record of the dead transaction may be made: nothing of it is left, and there is room for a record.
pub fn may_mark_dead(inst: &Inst, job: u64) -> bool
    ensures { result ≡ may_mark_dead inst.now job }
{
    inst.has_room() && is_job(job, &inst.dead_txn()) && dead_end_decided(inst).is_some()
}

#[tactic(auto, using(std::proofs::lemmas::List::set_past))]
pub(crate) fn apply_adopted(
    adopted: &mut Table<Segment>,
    place: Option<usize>,
    redo: &Redo,
    at: RedoAt,
)
    requires is_redo { IsRedo redo.now }
    requires fits { ForSome (adopted_at adopted.old place) (λ segment. FitsSegment segment redo.now) }
    ensures { adopted.new ≡ adopted_applied adopted.old place redo.now at }
{
    if let Some(place) = place {
        if let Some(segment) = adopted.get_mut(place) {
            segment.apply(redo, at);
        }
    }
}

ghost use Rattle.inst_state.specs.Needs.{adopted_at};

fn make_dead_end(inst: &mut Inst, redo: &Redo, journal: &mut Journal) -> Result<(), NoMemory>
    requires is_redo { IsRedo redo.now }
    requires fits { ForSome (dead_segment inst.old) (λ segment. FitsSegment segment redo.now) }
    requires room { has_room inst.old ≡ true }
    ensures part { OnOk result (inst.new ≡ dead_end_made inst.old redo.now) }
    ensures tells { OnOk result (journal.new ≡ Rolled redo.now.xid ∷ journal.old) }
{
    let at = inst.thread.end();
    let place = inst.dead_place();
    apply_adopted(&mut inst.leading.adopted, place, redo, at);
    append(inst, redo, true)?;
    inst.ends.push(WaitingEnd {
        xid: redo.xid,
        scn: redo.scn,
        behind: inst.thread.end().get(),
        commit: false,
        session: None,
    })?;
    journal.push(Entry::Rolled { xid: redo.xid })
}

ghost use Rattle.journal.specs.declared.entry.Entry.TheVariants.{Rolled};

/// The end record of the dead transaction is made.
///
/// # Errors
///
/// There is no memory for what is noted of it or for the journal's entry.
pub fn mark_dead(inst: &mut Inst, _job: u64, journal: &mut Journal) -> Result<(), NoMemory>
    requires { may_mark_dead inst.old _job ≡ true }
    ensures part { OnOk result (inst.new ≡ dead_marked inst.old) }
    ensures tells { OnOk result (journal.new ≡ dead_mark_tells inst.old ++ journal.old) }
    ensures record { OnOk result (IfSome (dead_end_decided inst.old) IsRedo) }
{
    match dead_end_decided(inst) {
        Some(redo) => make_dead_end(inst, &redo, journal),
        None => Ok(()),
    }
}
