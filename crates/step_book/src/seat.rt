ghost use Rattle.std.specs.Prelude.{◌≡◌, ◌≢◌, ◌⊎◌, ℕ, ◌+◌, ◌%◌, ◌^◌, ◌<◌, ◌||◌, [], ◌∷◌, ◌++◌, length, true, false, Some};
ghost use Rattle.step_book.specs.Actors.{Follows, Ready, StartsWith, Turns as IsTurn};
ghost use Rattle.step_book.specs.Seats.{Advanced, Comes, HasPart, IsSameActor, IsIdle, IsOf, IsSameSeat, IsSized, Took, Turned, is_exhausted, is_finished};
ghost use Rattle.step_book.specs.Turns.{Found, Gives, after_turn, both_of_join, left_of_split, seat_of};
ghost use Rattle.step_book.specs.declared.answer.Turn.TheVariants.{NoMemory as Exhausted};
ghost use Rattle.step_book.specs.declared.board.Stage.TheVariants.{Holding, Waiting};

use crate::answer::Turn;
use crate::board::{Board, Place, Top};
use crate::book::Book;
use crate::machine::Machine;
use crate::plays::{Compare, Cut, Draw, Glue, Look, Serve};
use std::snapshot::Snapshot;
use std::sync::Wait;

const DRAWN: usize = 0;

const SERVED: usize = 1;

const SLOT: usize = 0;

/// An actor's seat at a book: it takes the actor's turns.
#[derive(Drop)]
pub struct Seat<M: Machine> {
    pub place: Place<M>,
    number: u32,
    made: u32,
    ghost seated: { IsIdle place },
    ghost numbered: { (place.me.0.number ≡ number) × (place.me.0.made ≡ made) },
}

fn draw<M: Machine>(top: &Top<M>, place: &mut Place<M>) -> u64
    requires table { IsOf top.now.table_id top.now.key place.old × IsSized top.now.table_id top.now.key }
    requires idle { IsIdle place.old }
    ensures same { IsSameSeat place.old place.new }
    ensures drew { (t : ℕ) × (result ≡ t % 2 ^ 64) × (place.new.me ≡ (record place.old.me.0 { stage = Waiting t }, [])) }
{
    top.fetch_add::<Draw>(place, DRAWN, 1)
}

// Waits until the ticket is served, and takes the slot.
fn wait_turn<M: Machine, R: Wait>(rt: &R, top: &Top<M>, place: &mut Place<M>, ticket: u64)
    requires table { IsOf top.now.table_id top.now.key place.old × IsSized top.now.table_id top.now.key }
    requires drew { (t : ℕ) × (ticket ≡ t % 2 ^ 64) × (place.old.me.0.stage ≡ Waiting t) × (place.old.me.1 ≡ []) }
    ensures same { IsSameSeat place.old place.new }
    ensures found { (t : ℕ) → place.old.me.0.stage ≡ Waiting t → Found M.rules t place.old.me place.new.me }
{
    for _ in rt.forever() {
        let served = top.load::<Look<M>>(place, SERVED);
        if served == ticket {
            return;
        }
        top.park(rt, SERVED, (served % (1 << 32)) as u32);
    }
    unreachable!()
}

fn exhausted(answer: Turn) -> bool
    ensures { result ≡ is_exhausted answer }
{
    match answer {
        Turn::NoMemory => true,
        _ => false,
    }
}

fn finished(answer: Turn) -> bool
    ensures { result ≡ is_finished answer }
{
    match answer {
        Turn::Finished => true,
        _ => false,
    }
}

// A turn on the board that a seat holds.
fn advance<M: Machine>(
    board: &mut Board<M::Part, M::Shared, M::Step>,
    me: u32,
    part: &mut M::Part,
) -> Turn
    requires ready { board.old.spoilt ≡ false → Ready M.rules me part.old board.old.shared }
    ensures { Advanced M.rules me part.old part.new board.old board.new result }
{
    if board.spoilt {
        board.finished = false;
        board.left = Snapshot::of(part);
        return Turn::NoMemory;
    }
    let answer = M::turn(me, part, &mut board.shared, &mut board.steps);
    board.spoilt = exhausted(answer);
    board.finished = finished(answer);
    board.left = Snapshot::of(part);
    answer
}

// Takes a turn on the board in the slot that the seat holds.
fn advance_held<M: Machine>(top: &Top<M>, place: &mut Place<M>, me: u32, part: &mut M::Part) -> Turn
    requires table { (place.old.table_id ≡ top.now.table_id) × (top.now.table_id.slots ≡ 1) }
    requires held { (t : ℕ) × (b : _) × (place.old.me.0.stage ≡ Holding t b) × (place.old.me.1 ≡ (0, Some b) ∷ []) × (b.spoilt ≡ false → Ready M.rules me part.old b.shared) }
    ensures same { IsSameSeat place.old place.new × (place.new.me.0 ≡ place.old.me.0) }
    ensures turned { (t : ℕ) (b : _) → place.old.me.0.stage ≡ Holding t b → (c : _) × (place.new.me.1 ≡ (0, Some c) ∷ []) × Advanced M.rules me part.old part.new b c result }
{
    let Some(mut board) = top.exchange(place, SLOT, None) else {
        unreachable!()
    };
    let answer = advance::<M>(&mut board, me, part);
    top.exchange(place, SLOT, Some(board));
    answer
}

// A whole turn: a ticket is drawn, the board is taken out of its slot, the machine's turn is made on it,
// the board is put back and the next ticket is served.
fn take_turn<M: Machine, R: Wait>(
    rt: &R,
    top: &Top<M>,
    place: &mut Place<M>,
    me: u32,
    part: &mut M::Part,
) -> Turn
    requires table { IsOf top.now.table_id top.now.key place.old × IsSized top.now.table_id top.now.key }
    requires idle { IsIdle place.old }
    requires number { place.old.me.0.number ≡ me }
    requires part { Comes M.rules place.old.me.0.own me part.old }
    ensures same { IsSameSeat place.old place.new }
    ensures hand { place.new.me.1 ≡ [] }
    ensures took { Took M.rules place.old.me.0 place.new.me.0 part.old part.new result }
{
    let ticket = draw(top, place);
    wait_turn(rt, top, place, ticket);
    let answer = advance_held(top, place, me, part);
    top.fetch_add::<Serve<M>>(place, SERVED, 1);
    top.wake_all(SERVED);
    answer
}

impl<M: Machine> Seat<M> {
    // The seat of actor 0.
    pub(crate) fn first(place: Place<M>) -> Seat<M>
        requires idle { IsIdle place }
        requires first { (place.me.0.number ≡ 0) × (place.me.0.made ≡ 1) }
        ensures { result.place ≡ place }
    {
        Seat {
            place,
            number: 0,
            made: 1,
        }
    }

    pub(crate) fn into_place(self) -> Place<M>
        ensures { (result ≡ self.place) × IsIdle result }
    {
        let Seat {
            place,
            number: _,
            made: _,
        } = self;
        place
    }

    /// The number of the seat's actor, which is the `me` of its machine calls.
    pub fn number(&self) -> u32
        ensures { result ≡ self.now.place.me.0.number }
    {
        self.number
    }

    /// Takes a turn of the seat's actor, once it is the actor's turn. After `NoMemory` nothing is
    /// claimed of the shared value any more, and each later turn answers `NoMemory` too.
    pub fn turn<R: Wait>(&mut self, rt: &R, book: &Book<M>, part: &mut M::Part) -> Turn
        requires seat { IsOf book.now.table.shared.table_id book.now.table.shared.key self.old.place }
        requires part { Comes M.rules self.old.place.me.0.own self.old.place.me.0.number part.old }
        ensures seat { IsOf book.now.table.shared.table_id book.now.table.shared.key self.new.place }
        ensures counts { IsSameActor self.old.place.me.0 self.new.place.me.0 }
        ensures part { HasPart self.new.place.me.0.own part.new }
        ensures turned { result ≢ Exhausted → Turned M.rules result self.old.place.me.0 self.new.place.me.0 part.old part.new }
        ensures ended { self.new.place.me.0.ended ≡ self.old.place.me.0.ended || is_finished result }
        ensures spoilt { self.new.place.me.0.spoilt ≡ is_exhausted result }
        ensures stays_spoilt { self.old.place.me.0.spoilt ≡ true → result ≡ Exhausted }
        ensures later { StartsWith self.new.place.me.0.seen self.old.place.me.0.seen }
    {
        take_turn(rt, &book.table.shared, &mut self.place, self.number, part)
    }

    /// Makes a seat for the next actor, before its first turn. It knows what this one does.
    pub fn split(&mut self, book: &Book<M>) -> Seat<M>
        requires seat { IsOf book.now.table.shared.table_id book.now.table.shared.key self.old.place }
        requires first { self.old.place.me.0.number ≡ 0 }
        requires left { self.old.place.me.0.made < length book.now.table.shared.key.parts.value.items }
        ensures seat { IsOf book.now.table.shared.table_id book.now.table.shared.key self.new.place }
        ensures made { self.new.place.me.0 ≡ left_of_split self.old.place.me.0 }
        ensures new { IsOf book.now.table.shared.table_id book.now.table.shared.key result.place }
        ensures new_knows { result.place.me.0 ≡ seat_of self.old.place.me.0.made self.old.place.me.0.seen self.old.place.me.0.ended self.old.place.me.0.spoilt book.now.table.shared.key }
    {
        let number = self.made;
        let place = book.table.shared.split_seat::<Cut>(&mut self.place);
        self.made += 1;
        Seat {
            place,
            number,
            made: 0,
        }
    }

    /// Takes in what another seat knows, and ends that seat.
    pub fn join(&mut self, book: &Book<M>, other: Seat<M>)
        requires seat { IsOf book.now.table.shared.table_id book.now.table.shared.key self.old.place }
        requires other { IsOf book.now.table.shared.table_id book.now.table.shared.key other.place }
        ensures seat { IsOf book.now.table.shared.table_id book.now.table.shared.key self.new.place }
        ensures counts { (self.new.place.me.0.number ≡ self.old.place.me.0.number) × (self.new.place.me.0.made ≡ self.old.place.me.0.made + other.place.me.0.made) × (self.new.place.me.0.joined ≡ self.old.place.me.0.joined + other.place.me.0.joined) }
        ensures own { self.new.place.me.0.own ≡ self.old.place.me.0.own }
        ensures longer { (self.new.place.me.0.seen ≡ self.old.place.me.0.seen) ⊎ (self.new.place.me.0.seen ≡ other.place.me.0.seen) }
        ensures one_book { StartsWith self.new.place.me.0.seen self.old.place.me.0.seen × StartsWith self.new.place.me.0.seen other.place.me.0.seen }
        ensures ended { self.new.place.me.0.ended ≡ self.old.place.me.0.ended || other.place.me.0.ended }
        ensures spoilt { self.new.place.me.0.spoilt ≡ self.old.place.me.0.spoilt || other.place.me.0.spoilt }
    {
        let top = &book.table.shared;
        let Seat {
            place,
            number: _,
            made,
        } = other;
        top.join_seat::<Glue>(&mut self.place, place);
        top.load::<Compare>(&mut self.place, DRAWN);
        self.made += made;
    }
}
