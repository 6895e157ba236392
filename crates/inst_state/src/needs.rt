//! Which block a statement or a rollback needs next.

ghost use Rattle.std.specs.Prelude.{◌≡◌, ◌==◌, if◌then◌else◌, None};
ghost use Rattle.std.specs.Option.{option_copied};
ghost use Rattle.std.specs.List.{list_any, position};
ghost use Rattle.inst_state.specs.Needs.{adopted_place, back_block, dead, dead_needed, dead_place, dead_segment, dead_txn, exclusively, goes_back, goes_on, holds, is_used, needed, needed_by, serves, stands_above, target_of, txn_of, uses};
ghost use Rattle.inst_state.specs.State.{asks_at, session_at};

use crate::inst::Inst;
use crate::line::Asks;
use base_types::{BlockNo, Xid};
use recovery::{NextBack, next_back};
use savepoints::Marks;
use txn_engine::{BackTo, block_to_take_back};
use undo_segment::Segment;
use wire_net::Mode;

/// Which block is needed, and how.
#[derive(Clone, Copy, Debug, PartialEq, Eq)]
pub struct Needed {
    pub block: BlockNo,
    pub mode: Mode,
}

// A block that is needed exclusively.
fn exclusively(block: BlockNo) -> Needed
    ensures { result ≡ exclusively block }
{
    Needed {
        block,
        mode: Mode::Exclusive,
    }
}

fn is_exclusive(mode: Mode) -> bool
    ensures { result ≡ is_exclusive mode }
{
    matches!(mode, Mode::Exclusive)
}

fn is_shared(mode: Mode) -> bool
    ensures { result ≡ is_shared mode }
{
    matches!(mode, Mode::Shared)
}

ghost use Rattle.buffer_cache.specs.Place.{is_exclusive, is_shared};

/// Whether an image that is held in the first mode serves who needs the second one.
pub fn serves(held: Mode, wanted: Mode) -> bool
    ensures { result ≡ serves held wanted }
{
    is_exclusive(held) || is_shared(held) && is_shared(wanted)
}

// The block that the next step back of a transaction needs.
fn back_block(segment: &Segment, xid: Option<Xid>) -> Option<Needed>
    ensures { result ≡ back_block segment.now xid }
{
    match xid {
        Some(xid) => match block_to_take_back(&xid, segment) {
            BackTo::Block(block) => Some(exclusively(block)),
            _ => None,
        },
        None => None,
    }
}

// How many changes and locks are to stand once a rollback is done.
fn target_of(marks: &Marks, asks: Option<&Asks>) -> Option<u32>
    ensures { result ≡ target_of marks.now (option_copied asks.entry) }
{
    match asks {
        Some(Asks::Rollback) => Some(0),
        Some(Asks::RollbackTo(name)) => marks.count_of(name),
        _ => None,
    }
}

// The transaction of which something is rolled back next.
fn txn_of(next: &NextBack) -> Option<Xid>
    ensures { result ≡ txn_of next.now }
{
    match next {
        NextBack::Nothing => None,
        NextBack::Change(xid, _) => Some(*xid),
        NextBack::End(xid) => Some(*xid),
        NextBack::Bad(xid) => Some(*xid),
    }
}

// The place of a transaction's segment among the adopted ones.
fn adopted_place(adopted: &[Segment], xid: Xid) -> Option<usize>
    ensures { result ≡ adopted_place adopted.now xid }
{
    adopted
        .iter()
        .position(|segment| segment.header().seg() == xid.seg)
}

impl Inst {
    /// Whether a rollback of a session is under way and has something left to take back.
    pub fn goes_back(&self, z: usize) -> bool
        ensures { result ≡ goes_back self.now z }
    {
        let target = match self.session(z) {
            Some(session) => target_of(&session.marks, self.asks(z)),
            None => None,
        };
        match target {
            Some(target) => {
                self.snapshot(z).is_some() && self.own(z).is_some() && self.standing(z) > target
            }
            None => false,
        }
    }

    fn needed_back(&self, z: usize) -> Option<Needed>
        ensures { result ≡ (if goes_back self.now z then back_block self.now.segment (session_at self.now z).own else None) }
    {
        if self.goes_back(z) {
            back_block(&self.segment, self.own(z))
        } else {
            None
        }
    }

    fn block_to_read(&self, z: usize) -> BlockNo
        ensures { result ≡ (session_at self.now z).job.block }
    {
        match self.session(z) {
            Some(session) => session.job.block,
            None => BlockNo(0),
        }
    }

    fn needed_by(&self, z: usize, asks: Option<&Asks>) -> Option<Needed>
        ensures { result ≡ needed_by self.now z (option_copied asks.entry) }
    {
        match asks {
            Some(Asks::Read { .. }) => Some(Needed {
                block: self.block_to_read(z),
                mode: Mode::Shared,
            }),
            Some(Asks::Change { row, .. }) => Some(exclusively(BlockNo(row.get() / 8))),
            Some(Asks::Rollback) => self.needed_back(z),
            Some(Asks::RollbackTo(_)) => self.needed_back(z),
            _ => None,
        }
    }

    // Whether a session's line is under way, and neither a `hold` line nor a change of membership stops it.
    fn goes_on(&self, z: usize) -> bool
        ensures { result ≡ goes_on self.now z }
    {
        if self.paused || self.is_stopped(z) {
            false
        } else {
            self.snapshot(z).is_some()
        }
    }

    /// The block that a session's line needs next.
    pub fn needed(&self, z: usize) -> Option<Needed>
        ensures { result ≡ needed self.now z }
    {
        if self.goes_on(z) {
            self.needed_by(z, self.asks(z))
        } else {
            None
        }
    }

    /// What is rolled back next of the transactions of down segments, while the instance leads.
    pub fn dead(&self) -> NextBack
        ensures { result ≡ dead self.now }
    {
        if self.leading.leads {
            next_back(self.leading.adopted.as_slice())
        } else {
            NextBack::Nothing
        }
    }

    /// The dead transaction that is rolled back next.
    pub fn dead_txn(&self) -> Option<Xid>
        ensures { result ≡ dead_txn self.now }
    {
        txn_of(&self.dead())
    }

    /// The place of the dead transaction's segment among the adopted ones.
    pub fn dead_place(&self) -> Option<usize>
        ensures { result ≡ dead_place self.now }
    {
        match self.dead_txn() {
            Some(xid) => adopted_place(self.leading.adopted.as_slice(), xid),
            None => None,
        }
    }

    /// The segment of the dead transaction.
    pub fn dead_segment(&self) -> Option<&Segment>
        ensures { option_copied result ≡ dead_segment self.now }
    {
        match self.dead_place() {
            Some(place) => self.leading.adopted.get(place),
            None => None,
        }
    }

    /// The block that the dead transaction needs.
    pub fn dead_needed(&self) -> Option<Needed>
        ensures { result ≡ dead_needed self.now }
    {
        match self.dead() {
            NextBack::Change(_, block) => Some(exclusively(block)),
            _ => None,
        }
    }

    /// Whether a block is held in a mode that serves this one.
    pub fn holds(&self, block: BlockNo, mode: Mode) -> bool
        ensures { result ≡ holds self.now block mode }
    {
        match self.cache.held(block) {
            Some(held) => serves(held.mode, mode),
            None => false,
        }
    }

    // Whether a block is the one that is needed, and is held so.
    fn uses(&self, block: BlockNo, needed: Option<Needed>) -> bool
        ensures { result ≡ uses self.now block needed }
    {
        match needed {
            Some(needed) => needed.block == block && self.holds(needed.block, needed.mode),
            None => false,
        }
    }

    // Whether some session's line uses a block.
    fn is_used_by_lines(&self, block: BlockNo) -> bool
        ensures { result ≡ list_any (λ z. uses self.now block (needed self.now z)) self.now.plan.mine }
    {
        self.plan
            .mine
            .as_slice()
            .iter()
            .any(|z| self.uses(block, self.needed(usize::from(*z))))
    }

    /// Whether a statement or a rollback uses a block.
    pub fn is_used(&self, block: BlockNo) -> bool
        ensures { result ≡ is_used self.now block }
    {
        self.is_used_by_lines(block) || self.uses(block, self.dead_needed())
    }
}
