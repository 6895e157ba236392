ghost use Rattle.std.specs.Prelude.{◌≡◌, ◌≢◌, ℕ, ◌<◌, ◌^◌, true, false, [], ◌∷◌, slice_get, vec_len, All, IfOk, IfErr, OnOk, Some};
ghost use Rattle.step_book.specs.Actors.{IsBare, MayWork, Reaches, StartsWith};
ghost use Rattle.step_book.specs.Seats.{Closing, IsIdle, IsOf, IsSized};
ghost use Rattle.step_book.specs.Turns.{first_known};

use crate::board::{Board, Place, Start, TurnTable};
use crate::machine::Machine;
use crate::seat::Seat;
use atomic_table::Table;
use base_types::{NoMemory, Sequence};
use std::alloc::Global;
use std::snapshot::Snapshot;

/// The book of all turns, with the shared value.
pub struct Book<M: Machine> {
    pub table: TurnTable<M>,
    ghost sized: { IsSized table.shared.table_id table.shared.key },
}

/// What a book leaves.
#[derive(Drop)]
pub struct Closed<M: Machine> {
    /// The shared value as the last turn left it.
    pub shared: M::Shared,
    /// All steps, in the order of the turns.
    pub steps: Sequence<M::Step>,
    /// Whether memory ran out in a turn. Then nothing is claimed of the other two.
    pub spoilt: bool,
}

impl<M: Machine> Book<M> {
    /// Opens a book with the shared value and the first parts of all actors. The seat is that of
    /// actor 0. `NoMemory` gives the shared value back.
    pub fn new(
        alloc: Global,
        shared: M::Shared,
        parts: &Vec<M::Part>,
    ) -> Result<(Book<M>, Seat<M>), (M::Shared, NoMemory)>
        requires some { 0 < vec_len parts.now }
        requires few { vec_len parts.now < 2 ^ 32 }
        requires bare { All (IsBare M.rules) parts.now.items }
        requires sound { M.rules.sound parts.now.items shared }
        ensures start { IfOk result (λ r. (r.0.table.shared.key.parts.value ≡ parts.now) × (r.0.table.shared.key.shared.value ≡ shared)) }
        ensures seat { IfOk result (λ r. IsOf r.0.table.shared.table_id r.0.table.shared.key r.1.place × (r.1.place.me.0 ≡ first_known r.0.table.shared.key)) }
        ensures ready { OnOk result ((actor : ℕ) (part : _) → slice_get parts.now.items actor ≡ Some part → MayWork M.rules actor part) }
        ensures err { IfErr result (λ r. r.0 ≡ shared) }
    {
        let start = Start {
            parts: Snapshot::of(parts),
            shared: Snapshot::of(&shared),
        };
        let mut slots = Vec::new(alloc);
        if slots.reserve(1).is_err() {
            return Err((shared, NoMemory));
        }
        let board = Board {
            shared,
            steps: Sequence::new(alloc),
            spoilt: false,
            finished: false,
            left: Snapshot::of(&parts[0]),
        };
        slots.push_reserved(Some(board));
        match Table::new(alloc, &[0, 0], slots, &start) {
            Ok((table, place)) => Ok((Book { table }, Seat::first(place))),
            Err(refused) => Err((shared_of(refused.slots), NoMemory)),
        }
    }

    /// Ends the book, once all other seats that were made are joined into this one.
    pub fn close(self, seat: Seat<M>) -> Closed<M>
        requires seat { IsOf self.table.shared.table_id self.table.shared.key seat.place }
        requires all { seat.place.me.0.joined ≡ seat.place.me.0.made }
        ensures spoilt { result.spoilt ≡ seat.place.me.0.spoilt }
        ensures seen { result.spoilt ≡ false → StartsWith result.steps seat.place.me.0.seen }
        ensures reaches { result.spoilt ≡ false → Reaches M.rules self.table.shared.key.parts.value.items self.table.shared.key.shared.value result.steps result.shared }
        ensures over { result.spoilt ≡ false → seat.place.me.0.ended ≡ true → M.rules.over result.shared }
    {
        let Book { table } = self;
        let Board {
            shared,
            steps,
            spoilt,
            ..
        } = last_board::<M>(table, seat.into_place());
        Closed {
            shared,
            steps,
            spoilt,
        }
    }
}

// What lies in the slot once all other seats are joined into this one.
fn last_board<M: Machine>(
    table: TurnTable<M>,
    place: Place<M>,
) -> Board<M::Part, M::Shared, M::Step>
    requires table { IsOf table.shared.table_id table.shared.key place × IsSized table.shared.table_id table.shared.key }
    requires idle { IsIdle place }
    requires all { place.me.0.joined ≡ place.me.0.made }
    ensures { Closing M.rules table.shared.key place.me.0 result }
{
    let mut closed = table.close_with(place);
    let board = closed.take(0);
    closed.free();
    let Some(board) = board else { unreachable!() };
    board
}

// The shared value of a board that found no place.
fn shared_of<P, H: Drop, S: Drop>(mut slots: Vec<Option<Board<P, H, S>>>) -> H
    requires { (board : _) × (slots.items ≡ Some board ∷ []) }
    ensures { (board : _) → slots.items ≡ Some board ∷ [] → result ≡ board.shared }
{
    let Some(Some(board)) = slots.pop() else {
        unreachable!()
    };
    let Board { shared, .. } = board;
    shared
}
