//! A row is changed or locked.

ghost use Rattle.std.specs.Prelude.{◌≡◌, ◌∷◌, ◌++◌, [], true, slice_set, slice_index_or, OnOk, IfOk};
ghost use Rattle.std.specs.Option.{ForSome, option_copied};
ghost use Rattle.redo_record.specs.Redo.{IsRedo};
ghost use Rattle.redo_thread.specs.Thread.{end_of};
ghost use Rattle.txn_engine.specs.Parts.{FitsImage, FitsSegment};
ghost use Rattle.buffer_cache.specs.Cache.{place_at};
ghost use Rattle.inst_state.specs.Sessions.{new_session};
ghost use Rattle.inst_state.specs.State.{asks_at, has_room, session_at, stmt_at};
ghost use Rattle.stmt_steps.specs.Change.{FitsInst, IfFits, applying, ask_of, block_at, cache_changed, change_decided, change_tells, changed, changed_by, decided_of, decided_on, found_by, is_decided, line_restarted, lock_found, may_change, new_by, record_in, record_tells, restarted, row_changed, row_of};

use crate::visits::refuse;
use base_types::{BlockNo, NoMemory, RedoAt, RowNo, Scn, Value, Xid};
use block_image::DataBlock;
use buffer_cache::BufferCache;
use inst_state::{Asks, Doing, Inst, Session, Table, append, note_newest};
use journal::{Entry, Journal};
use redo_types::{DataChange, Redo, RedoKind, UndoChange};
use txn_engine::{ChangeAsk, Decision, Wish, decide_change};

fn ask_of(inst: &Inst, z: usize, row: RowNo, wish: Wish) -> ChangeAsk
    ensures { result ≡ ask_of inst.now z row wish }
{
    ChangeAsk {
        wish,
        row,
        snapshot: inst.snapshot_or_zero(z),
        own: inst.own(z),
    }
}

// What is decided of a session's change on an image.
fn decided_on(inst: &Inst, z: usize, row: RowNo, wish: Wish, image: &DataBlock) -> Decision
    ensures decided { result ≡ decided_on inst.now z row wish image.now }
    ensures fits { IfDo result (FitsBoth inst.now.segment image.now) }
{
    decide_change(
        &ask_of(inst, z, row, wish),
        image,
        &inst.segment,
        inst.handed_at(z),
        &inst.clock,
        inst.on_disk(),
    )
}

ghost use Rattle.txn_engine.specs.Change.{IfDo};
ghost use Rattle.txn_engine.specs.Parts.{FitsBoth};

/// What is decided of a session's change; `None` where its line changes nothing, or its block isn't held exclusively.
pub fn change_decided(inst: &Inst, session: u16) -> Option<Decision>
    ensures decided { result ≡ change_decided inst.now session }
    ensures fits { IfFits inst.now (block_at inst.now session) result }
{
    let z = usize::from(session);
    match inst.asks(z) {
        Some(Asks::Change { row, wish }) => match inst.image_in_hand(z) {
            Some(image) => Some(decided_on(inst, z, *row, *wish, image)),
            None => None,
        },
        _ => None,
    }
}

fn is_decided(decision: &Option<Decision>) -> bool
    ensures { result ≡ is_decided decision.now }
{
    match decision {
        Some(Decision::Do(_)) => true,
        Some(Decision::Refuse(_)) => true,
        Some(Decision::Restart(_)) => true,
        Some(Decision::AlreadyMine) => true,
        _ => false,
    }
}

/// Whether a session's change may be made, refused or started again: that is decided, and there is room for a record.
pub fn may_change(inst: &Inst, session: u16) -> bool
    ensures { result ≡ may_change inst.now session }
{
    inst.works() && inst.has_room() && is_decided(&change_decided(inst, session))
}

// The block that a session's line needs, 0 without one.
pub(crate) fn block_at(inst: &Inst, z: usize) -> BlockNo
    ensures { result ≡ block_at inst.now z }
{
    match inst.needed(z) {
        Some(need) => need.block,
        None => BlockNo(0),
    }
}

pub(crate) fn change_cache(
    cache: &mut BufferCache,
    block: BlockNo,
    change: &Option<DataChange>,
    scn: Scn,
    at: RedoAt,
)
    requires { IfSome change.now (λ it. ForSome (place_at cache.old block).current (CanChange it.to scn)) }
    ensures { cache.new ≡ cache_changed cache.old block change.now scn at }
{
    if let Some(change) = change {
        cache.change(block, &change.to, scn, at);
    }
}

ghost use Rattle.std.specs.Prelude.{IfSome};
ghost use Rattle.buffer_cache.specs.Place.{CanChange};

/// Makes a record, and applies it to the own segment and to a block.
#[tactic(auto, using(crate::proofs::Fits::can_change))]
pub(crate) fn apply(inst: &mut Inst, block: BlockNo, redo: &Redo) -> Result<(), NoMemory>
    requires fits { FitsInst inst.old block redo.now }
    requires room { has_room inst.old ≡ true }
    ensures { OnOk result (inst.new ≡ applying inst.old block redo.now) }
{
    let at = inst.thread.end();
    change_cache(&mut inst.cache, block, &redo.row, redo.scn, at);
    inst.segment.apply(redo, at);
    append(inst, redo, false)?;
    note_newest(inst, block);
    Ok(())
}

fn note_change(session: &mut Session, xid: Xid)
    ensures { session.new ≡ changed_by xid session.old }
{
    session.own = Some(xid);
    session.standing = session.standing.saturating_add(1);
    session.job.handed_for = None;
    session.answer();
}

#[tactic(auto, using(std::proofs::lemmas::List::set_past))]
fn note_change_at(sessions: &mut Table<Session>, z: usize, xid: Xid)
    ensures { sessions.new ≡ slice_set sessions.old z (changed_by xid (slice_index_or sessions.old z new_session)) }
{
    if let Some(session) = sessions.get_mut(z) {
        note_change(session, xid);
    }
}

fn found_by(undo: &Option<UndoChange>) -> Value
    ensures { result ≡ found_by undo.now }
{
    match undo {
        Some(undo) => undo.to.old,
        None => Value::Absent,
    }
}

fn new_by(change: &Option<DataChange>) -> Value
    ensures { result ≡ new_by change.now }
{
    match change {
        Some(change) => change.to.value,
        None => Value::Absent,
    }
}

// The row that a line changes.
fn row_of(asks: Option<&Asks>) -> RowNo
    ensures { result ≡ row_of (option_copied asks.entry) }
{
    match asks {
        Some(Asks::Change { row, .. }) => *row,
        _ => RowNo(0),
    }
}

fn record_tells(stmt: u32, row: RowNo, redo: &Redo) -> Entry
    ensures { result ≡ record_tells stmt row redo.now redo.now.kind }
{
    match redo.kind {
        RedoKind::Lock => Entry::Locked {
            stmt,
            xid: redo.xid,
            row,
        },
        _ => Entry::Changed {
            stmt,
            xid: redo.xid,
            row,
            found: found_by(&redo.undo),
            new: new_by(&redo.row),
        },
    }
}

fn change_row(
    inst: &mut Inst,
    session: u16,
    redo: &Redo,
    journal: &mut Journal,
) -> Result<(), NoMemory>
    requires fits { FitsInst inst.old (block_at inst.old session) redo.now }
    requires room { has_room inst.old ≡ true }
    ensures part { OnOk result (inst.new ≡ row_changed inst.old session redo.now) }
    ensures tells { OnOk result (journal.new ≡ record_tells (stmt_at inst.old session) (row_of (asks_at inst.old session)) redo.now redo.now.kind ∷ journal.old) }
{
    let z = usize::from(session);
    let entry = record_tells(inst.stmt(z), row_of(inst.asks(z)), redo);
    let block = block_at(inst, z);
    apply(inst, block, redo)?;
    note_change_at(&mut inst.sessions, z, redo.xid);
    journal.push(entry)
}

#[tactic(auto, using(std::proofs::lemmas::List::set_past))]
fn restart_at(sessions: &mut Table<Session>, z: usize, snapshot: Scn)
    ensures { sessions.new ≡ slice_set sessions.old z (restarted snapshot (slice_index_or sessions.old z new_session)) }
{
    if let Some(session) = sessions.get_mut(z) {
        session.doing = Doing::Runs(snapshot);
    }
}

fn restart(inst: &mut Inst, session: u16, end: Scn, journal: &mut Journal) -> Result<(), NoMemory>
    ensures part { OnOk result (inst.new ≡ line_restarted inst.old session end) }
    ensures tells { OnOk result (journal.new ≡ Started (stmt_at inst.old session) session (learnt inst.old.clock end).known ∷ journal.old) }
{
    let z = usize::from(session);
    let stmt = inst.stmt(z);
    inst.clock.learn(end);
    let snapshot = inst.clock.known;
    restart_at(&mut inst.sessions, z, snapshot);
    journal.push(Entry::Started {
        stmt,
        session,
        snapshot,
    })
}

ghost use Rattle.scn_clock.specs.Clock.{learnt};
ghost use Rattle.journal.specs.declared.entry.Entry.TheVariants.{Plain, Started};

fn note_lock_found(session: &mut Session)
    ensures { session.new ≡ answered (record session.old { job = record session.old.job { handed_for = None } }) }
{
    session.job.handed_for = None;
    session.answer();
}

ghost use Rattle.std.specs.Prelude.{None};
ghost use Rattle.inst_state.specs.Sessions.{answered};

#[tactic(auto, using(std::proofs::lemmas::List::set_past))]
fn find_lock_at(sessions: &mut Table<Session>, z: usize)
    ensures { sessions.new ≡ slice_set sessions.old z (answered (record (slice_index_or sessions.old z new_session) { job = record (slice_index_or sessions.old z new_session).job { handed_for = None } })) }
{
    if let Some(session) = sessions.get_mut(z) {
        note_lock_found(session);
    }
}

fn find_lock(inst: &mut Inst, session: u16, journal: &mut Journal) -> Result<(), NoMemory>
    ensures part { OnOk result (inst.new ≡ lock_found inst.old session) }
    ensures tells { OnOk result (journal.new ≡ Plain (stmt_at inst.old session) ∷ journal.old) }
{
    let z = usize::from(session);
    let stmt = inst.stmt(z);
    find_lock_at(&mut inst.sessions, z);
    journal.push(Entry::Plain { stmt })
}

/// A session's change or lock is made, refused, or started again, as it is decided.
///
/// # Errors
///
/// There is no memory for the journal's entry.
pub fn change(inst: &mut Inst, session: u16, journal: &mut Journal) -> Result<(), NoMemory>
    requires { may_change inst.old session ≡ true }
    ensures part { OnOk result (inst.new ≡ changed inst.old session) }
    ensures tells { OnOk result (journal.new ≡ change_tells inst.old session ++ journal.old) }
    ensures record { OnOk result (IfSome (record_in (change_decided inst.old session)) IsRedo) }
{
    let Some(decision) = change_decided(inst, session) else {
        return Ok(());
    };
    match &decision {
        Decision::Do(redo) => change_row(inst, session, redo, journal),
        Decision::Refuse(cause) => refuse(inst, session, *cause, journal),
        Decision::Restart(end) => restart(inst, session, *end, journal),
        Decision::AlreadyMine => find_lock(inst, session, journal),
        _ => Ok(()),
    }
}
