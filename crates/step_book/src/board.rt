//! The table that all seats share. Word 0 counts the tickets drawn, word 1 the tickets served, and the
//! one slot holds the shared value with the book.
use crate::machine::Machine;
use atomic_table::{Seat, Shared, Table, TableRule};
use base_types::Sequence;
use std::alloc::Global;
use std::marker::PhantomData;
use std::snapshot::Snapshot;

/// What lies in the slot.
#[derive(Drop)]
pub struct Board<P, H: Drop, S: Drop> {
    pub shared: H,
    pub steps: Sequence<S>,
    /// Whether memory ran out in a turn.
    pub spoilt: bool,
    /// Whether the last turn found that the run has ended.
    pub finished: bool,
    /// The part as the last turn left it.
    pub left: Snapshot<P>,
}

/// What a book was opened with.
#[derive(Drop)]
pub struct Start<P, H> {
    pub parts: Snapshot<Vec<P>>,
    pub shared: Snapshot<H>,
}

/// What a seat has to do with the slot. No value of it is made.
pub enum Stage<P, H: Drop, S: Drop> {
    Idle,
    /// It has this ticket.
    Waiting(u64),
    /// Its ticket is served, and it took this board.
    Holding(u64, Board<P, H, S>),
}

/// What a seat has that wasn't joined into another. No value of it is made.
pub struct Own<P, H> {
    /// The actor's part as its last turn left it, or its first part.
    pub part: P,
    pub start: Start<P, H>,
}

/// What a seat knows. No value of it is made.
pub struct Known<P, H: Drop, S: Drop> {
    /// The number of the seat's actor.
    pub number: u64,
    /// How many seats were made, in the seat that makes them, else 0.
    pub made: u64,
    /// How many seats were joined into it, itself too.
    pub joined: u64,
    /// The book as it was after the seat's last turn.
    pub seen: Sequence<S>,
    /// The shorter of the two books as they were seen at its last join.
    pub met: Sequence<S>,
    /// Whether it was told that the run has ended.
    pub ended: bool,
    /// Whether it was told that memory ran out.
    pub spoilt: bool,
    pub stage: Stage<P, H, S>,
    pub own: Option<Own<P, H>>,
}

/// The rule of the table.
pub struct Turns<M> {
    machine: PhantomData<M>,
}

impl<M: Machine> TableRule<
    Option<Board<M::Part, M::Shared, M::Step>>,
    Known<M::Part, M::Shared, M::Step>,
    Start<M::Part, M::Shared>,
> for Turns<M> {
    ghost use Rattle.step_book.specs.Turns.{InTurn, first_known};

    ghost holds = { InTurn M.rules };

    ghost first = { first_known };
}

/// A seat at the table.
pub type Place<M> = Seat<
    Option<Board<<M as Machine>::Part, <M as Machine>::Shared, <M as Machine>::Step>>,
    Known<<M as Machine>::Part, <M as Machine>::Shared, <M as Machine>::Step>,
>;

/// The table as seats step on it.
pub type Top<M> = Shared<
    Option<Board<<M as Machine>::Part, <M as Machine>::Shared, <M as Machine>::Step>>,
    Known<<M as Machine>::Part, <M as Machine>::Shared, <M as Machine>::Step>,
    Start<<M as Machine>::Part, <M as Machine>::Shared>,
    Turns<M>,
>;

/// The table with its memory.
pub type TurnTable<M> = Table<
    Option<Board<<M as Machine>::Part, <M as Machine>::Shared, <M as Machine>::Step>>,
    Known<<M as Machine>::Part, <M as Machine>::Shared, <M as Machine>::Step>,
    Start<<M as Machine>::Part, <M as Machine>::Shared>,
    Turns<M>,
    Global,
>;
