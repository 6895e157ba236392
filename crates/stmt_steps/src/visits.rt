//! A read takes the rows of its next block.

ghost use Rattle.std.specs.Prelude.{◌≡◌, ◌≤◌, ◌<◌, ◌+◌, ◌*◌, ◌∷◌, ◌++◌, true, Some, slice_set, slice_index_or, length, OnOk, IfOk};
ghost use Rattle.std.specs.List.{flat_map};
ghost use Rattle.std.specs.Option.{option_copied, option_to_list};
ghost use Rattle.base_types.specs.declared.value.Value.TheVariants.{Absent};
ghost use Rattle.journal.specs.declared.entry.Entry.TheVariants.{Refused};
ghost use Rattle.inst_state.specs.Sessions.{new_session};
ghost use Rattle.inst_state.specs.State.{session_at, stmt_at};
ghost use Rattle.inst_state.specs.Needs.{needed};
ghost use Rattle.stmt_steps.specs.Visit.{cache_used, is_last, is_there, is_told, line_refused, made_of, may_visit, range_of, read_made, read_on, reads, refused, row_if, rows_of, rows_so_far, rows_told, visit_tells, visited};

use base_types::{BlockNo, NoMemory, RowNo, Sequence, Value};
use block_image::DataBlock;
use cr_copy::{Made, make};
use inst_state::{Asks, Inst, Needed, Session, Table};
use journal::{Cause, Entry, Journal, RowList};
use std::alloc::Global;

/// The rows that a line reads, from the first to the last, both included.
#[derive(Clone, Copy, Debug, PartialEq, Eq)]
pub struct RowRange {
    pub first: RowNo,
    pub last: RowNo,
}

const PLACES: [u8; 8] = [0, 1, 2, 3, 4, 5, 6, 7];

fn made_of(inst: &Inst, z: usize, image: &DataBlock) -> Made
    ensures { result ≡ made_of inst.now z image.now }
{
    make(
        image,
        inst.snapshot_or_zero(z),
        &inst.own(z),
        &inst.segment,
        inst.handed_at(z),
    )
}

fn reads(asks: Option<&Asks>) -> bool
    ensures { result ≡ reads (option_copied asks.entry) }
{
    match asks {
        Some(asks) => asks.is_read(),
        None => false,
    }
}

/// What a session's read makes of the image that it has in hand; `None` where its line doesn't read, or has none in hand.
pub fn read_made(inst: &Inst, session: u16) -> Option<Made>
    ensures { result ≡ read_made inst.now session }
{
    let z = usize::from(session);
    if !reads(inst.asks(z)) {
        return None;
    }
    match inst.image_in_hand(z) {
        Some(image) => Some(made_of(inst, z, image)),
        None => None,
    }
}

fn is_told(made: &Option<Made>) -> bool
    ensures { result ≡ is_told made.now }
{
    matches!(made, Some(Made::Rows(_)) | Some(Made::TooOld(_)))
}

/// Whether a session's read may go on: the image in hand and the undo show its rows, or that they are gone.
pub fn may_visit(inst: &Inst, session: u16) -> bool
    ensures { result ≡ may_visit inst.now session }
{
    inst.works() && is_told(&read_made(inst, session))
}

fn range_of(asks: Option<&Asks>) -> RowRange
    ensures { result ≡ range_of (option_copied asks.entry) }
{
    match asks {
        Some(Asks::Read { first, last }) => RowRange {
            first: *first,
            last: *last,
        },
        _ => RowRange {
            first: RowNo(0),
            last: RowNo(0),
        },
    }
}

fn is_there(value: Value) -> bool
    ensures { result ≡ is_there value }
{
    matches!(value, Value::Num(_))
}

// Adds a row, if it is asked for and there.
fn add_row(rows: &mut RowList, range: &RowRange, row: u32, value: Value) -> Result<(), NoMemory>
    ensures { OnOk result (rows.new ≡ rows.old ++ row_if range.now row value) }
{
    if u32::from(range.first.get()) <= row
        && row <= u32::from(range.last.get())
        && is_there(value)
    {
        rows.push((RowNo(row as u16), value))
    } else {
        Ok(())
    }
}

fn value_at(values: &[Value; 8], place: u8) -> Value
    ensures { result ≡ slice_index_or values.now place Absent }
{
    let place = usize::from(place);
    if place < 8 {
        values[place]
    } else {
        Value::Absent
    }
}

// Adds the rows at these places of a block that are asked for and there.
fn add_each(
    rows: &mut RowList,
    range: &RowRange,
    block: BlockNo,
    values: &[Value; 8],
    places: &[u8],
) -> Result<(), NoMemory>
    ensures { OnOk result (rows.new ≡ rows.old ++ flat_map (λ place. row_if range.now (8 * block + place) (slice_index_or values.now place Absent)) places.now) }
{
    for place in places {
        let row = 8 * u32::from(block.get()) + u32::from(*place);
        add_row(rows, range, row, value_at(values, *place))?;
    }
    Ok(())
}

fn add_rows(
    rows: &mut RowList,
    range: &RowRange,
    block: BlockNo,
    values: &[Value; 8],
) -> Result<(), NoMemory>
    ensures { OnOk result (rows.new ≡ rows.old ++ rows_of range.now block values.now) }
{
    add_each(rows, range, block, values, &PLACES)
}

// Whether a block is the last one of a read.
fn is_last(range: &RowRange, block: BlockNo) -> bool
    ensures last { result ≡ nat_le (range.now.last / 8) block }
    ensures next { result ≡ false → block + 1 < 2 ^ 16 }
{
    let last = range.last.get();
    last / 8 <= block.get()
}

ghost use Rattle.std.specs.Prelude.{◌/◌, ◌^◌, false, nat_le};

// Takes the rows of a block. Where it was the last one, the line is answered by all rows.
fn read_on(
    alloc: Global,
    session: &mut Session,
    range: &RowRange,
    values: &[Value; 8],
) -> Result<Option<RowList>, NoMemory>
    ensures session { OnOk result (session.new ≡ read_on range.now values.now session.old) }
    ensures answer { IfOk result (λ rows. rows ≡ (if is_last range.now session.old then Some (rows_so_far range.now values.now session.old) else None)) }
{
    let block = session.job.block;
    add_rows(&mut session.job.rows, range, block, values)?;
    session.job.copy = None;
    session.job.handed_for = None;
    if is_last(range, block) {
        let rows = std::mem::replace(&mut session.job.rows, Sequence::new(alloc));
        session.answer();
        Ok(Some(rows))
    } else {
        session.job.block = BlockNo(block.get() + 1);
        Ok(None)
    }
}

ghost use Rattle.std.specs.Prelude.{if◌then◌else◌, None};

#[tactic(auto, using(std::proofs::lemmas::List::set_past))]
fn read_on_at(
    alloc: Global,
    sessions: &mut Table<Session>,
    z: usize,
    range: &RowRange,
    values: &[Value; 8],
) -> Result<Option<RowList>, NoMemory>
    requires { z < length sessions.old }
    ensures sessions { OnOk result (sessions.new ≡ slice_set sessions.old z (read_on range.now values.now (slice_index_or sessions.old z new_session))) }
    ensures answer { IfOk result (λ rows. rows ≡ (if is_last range.now (slice_index_or sessions.old z new_session) then Some (rows_so_far range.now values.now (slice_index_or sessions.old z new_session)) else None)) }
{
    match sessions.get_mut(z) {
        Some(session) => read_on(alloc, session, range, values),
        None => Ok(None),
    }
}

fn refuse_session(session: &mut Session)
    ensures { session.new ≡ refused session.old }
{
    session.job.copy = None;
    session.job.handed_for = None;
    session.answer();
}

#[tactic(auto, using(std::proofs::lemmas::List::set_past))]
fn refuse_at(sessions: &mut Table<Session>, z: usize)
    ensures { sessions.new ≡ slice_set sessions.old z (refused (slice_index_or sessions.old z new_session)) }
{
    if let Some(session) = sessions.get_mut(z) {
        refuse_session(session);
    }
}

/// A session's line is refused.
///
/// # Errors
///
/// There is no memory for the journal's entry.
pub fn refuse(
    inst: &mut Inst,
    session: u16,
    cause: Cause,
    journal: &mut Journal,
) -> Result<(), NoMemory>
    ensures part { OnOk result (inst.new ≡ line_refused inst.old session) }
    ensures tells { OnOk result (journal.new ≡ Refused (stmt_at inst.old session) cause ∷ journal.old) }
{
    let z = usize::from(session);
    let stmt = inst.stmt(z);
    refuse_at(&mut inst.sessions, z);
    journal.push(Entry::Refused { stmt, cause })
}

// A kept copy that is used goes first.
fn use_kept(inst: &mut Inst, z: usize, needed: Option<Needed>)
    ensures { inst.new ≡ record inst.old { cache = cache_used inst.old z needed } }
{
    if let Some(need) = needed {
        let block = need.block;
        if inst.reads_kept(z, need) {
            let snapshot = inst.snapshot_or_zero(z);
            inst.cache.use_copy(block, snapshot);
        }
    }
}

/// A session's read takes the rows of its block and goes on with the next one, is answered, or is refused.
///
/// # Errors
///
/// There is no memory for the rows or for the journal's entry.
pub fn visit(
    alloc: Global,
    inst: &mut Inst,
    session: u16,
    journal: &mut Journal,
) -> Result<(), NoMemory>
    requires { may_visit inst.old session ≡ true }
    ensures part { OnOk result (inst.new ≡ visited inst.old session) }
    ensures tells { OnOk result (journal.new ≡ visit_tells inst.old session ++ journal.old) }
{
    let z = usize::from(session);
    let stmt = inst.stmt(z);
    let range = range_of(inst.asks(z));
    let made = read_made(inst, session);
    let needed = inst.needed(z);
    use_kept(inst, z, needed);
    match made {
        Some(Made::Rows(values)) => {
            match read_on_at(alloc, &mut inst.sessions, z, &range, &values)? {
                Some(rows) => journal.push(Entry::Rows { stmt, rows }),
                None => Ok(()),
            }
        }
        Some(Made::TooOld(cause)) => {
            refuse_at(&mut inst.sessions, z);
            journal.push(Entry::Refused { stmt, cause })
        }
        _ => Ok(()),
    }
}
