ghost use Rattle.std.specs.Prelude.{◌≡◌, IfSome, IfNone, Some};
ghost use Rattle.node_threads.specs.Ends.{Tells};
ghost use Rattle.node_threads.specs.declared.end.End.TheVariants.{Failed};
ghost use Rattle.node_threads.specs.Players.{Plays};
ghost use Rattle.step_book.specs.Seats.{IsOf, IsSameActor};

use crate::end::{End, WhyStopped};
use crate::gate::Gate;
use std::sync::Wait;
use std::sync::atomic::{AtomicBool, Ordering};
use std::thread;
use step_book::{Book, Machine, Seat, Turn};

// Raises the flag that stops the other actors.
fn fail<N: Drop>(stop: &AtomicBool, why: WhyStopped<N>) -> Option<End<N>>
    ensures { result ≡ Some (Failed why) }
{
    stop.store(true, Ordering::SeqCst);
    Some(End::Failed(why))
}

// One round of an actor: it works, asks the gate and takes a turn, unless the flag is raised. `None`: it
// goes on.
fn round<M: Machine, G: Gate, R: Wait>(
    rt: &R,
    book: &Book<M>,
    gate: &G,
    stop: &AtomicBool,
    seat: &mut Seat<M>,
    part: &mut M::Part,
) -> Option<End<G::No>>
    requires { Plays M.rules book.now.table.shared.table_id book.now.table.shared.key seat.old.place.me.0.number seat.old.place part.old }
    ensures seat { IsOf book.now.table.shared.table_id book.now.table.shared.key seat.new.place }
    ensures counts { IsSameActor seat.old.place.me.0 seat.new.place.me.0 }
    ensures goes_on { IfNone result (Plays M.rules book.now.table.shared.table_id book.now.table.shared.key seat.old.place.me.0.number seat.new.place part.new) }
    ensures end { IfSome result (λ end. Tells (λ actor refusal. G.gave gate.now actor refusal) seat.new.place.me.0.ended end) }
{
    let actor = seat.number();
    if M::work(actor, part).is_err() {
        return fail(stop, WhyStopped::NoMemory);
    }
    if let Err(no) = gate.pass(actor) {
        return fail(stop, WhyStopped::Gate(actor, no));
    }
    if stop.load(Ordering::SeqCst) {
        return Some(End::Stopped);
    }
    match seat.turn(rt, book, part) {
        Turn::Did | Turn::Nothing => None,
        Turn::Finished => Some(End::Finished),
        Turn::NoMemory => fail(stop, WhyStopped::NoMemory),
    }
}

// Takes an actor's turns until it ends.
pub(crate) fn act<M: Machine, G: Gate, R: Wait>(
    rt: &R,
    book: &Book<M>,
    gate: &G,
    stop: &AtomicBool,
    seat: &mut Seat<M>,
    part: &mut M::Part,
) -> End<G::No>
    requires { Plays M.rules book.now.table.shared.table_id book.now.table.shared.key seat.old.place.me.0.number seat.old.place part.old }
    ensures seat { IsOf book.now.table.shared.table_id book.now.table.shared.key seat.new.place }
    ensures counts { IsSameActor seat.old.place.me.0 seat.new.place.me.0 }
    ensures end { Tells (λ actor refusal. G.gave gate.now actor refusal) seat.new.place.me.0.ended result }
{
    for _ in rt.forever() {
        if let Some(end) = round(rt, book, gate, stop, seat, part) {
            return end;
        }
        thread::yield_now();
    }
    unreachable!()
}
