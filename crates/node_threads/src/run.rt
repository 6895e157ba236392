ghost use Rattle.std.specs.Prelude.{◌≡◌, ◌<◌, ℕ, true, slice_get, vec_len, IfOk, IfErr, Some};
ghost use Rattle.node_threads.specs.Ends.{Caused};
ghost use Rattle.node_threads.specs.Players.{IsWhole};
ghost use Rattle.step_book.specs.Actors.{MayWork};
ghost use Rattle.step_book.specs.Seats.{IsOf};
ghost use Rattle.step_book.specs.Turns.{first_known};

use crate::end::{End, WhyStopped};
use crate::gate::Gate;
use crate::threads::{Player, gather, play_all, seat_others};
use std::alloc::Global;
use std::sync::Wait;
use std::thread::Threads;
use step_book::{Book, Machine, Seat};

/// The actors stopped before the run had ended.
#[derive(Drop)]
pub struct ActorsError<M: Machine, N> {
    /// The seat of actor 0, into which all others are joined.
    pub seat: Seat<M>,
    pub why: WhyStopped<N>,
}

/// Runs all actors, each on a thread of its own: each works, asks the gate and takes a turn, again and
/// again, until the run has ended. Of several refusals of the gate the one of the lowest actor is told.
pub fn run_actors<'a, R: Threads + Wait + Sync, M: Machine + Send + Sync, G: Gate + Sync>(
    rt: &'a R,
    alloc: Global,
    book: &'a Book<M>,
    seat: Seat<M>,
    parts: Vec<M::Part>,
    gate: &'a G,
) -> Result<(Seat<M>, Vec<M::Part>), ActorsError<M, G::No>>
    requires seat { IsOf book.now.table.shared.table_id book.now.table.shared.key seat.place × (seat.place.me.0 ≡ first_known book.now.table.shared.key) }
    requires parts { parts.items ≡ book.now.table.shared.key.parts.value.items }
    requires some { 0 < vec_len parts }
    requires work { (actor : ℕ) (part : _) → slice_get parts.items actor ≡ Some part → MayWork M.rules actor part }
    ensures ok { IfOk result (λ r. IsWhole M.rules book.now.table.shared.table_id book.now.table.shared.key r.0.place) }
    ensures ended { IfOk result (λ r. r.0.place.me.0.ended ≡ true) }
    ensures err { IfErr result (λ e. IsWhole M.rules book.now.table.shared.table_id book.now.table.shared.key e.seat.place) }
    ensures why { IfErr result (λ e. Caused (λ actor refusal. G.gave gate.now actor refusal) e.why) }
{
    let mut seat = seat;
    let mut parts = parts;
    let mut players = Vec::new(alloc);
    if players.reserve(parts.len()).is_err() {
        return Err(ActorsError {
            seat,
            why: WhyStopped::NoMemory,
        });
    }
    parts.reverse();
    let Some(part) = parts.pop() else {
        unreachable!()
    };
    let players = seat_others(book, &mut seat, &mut parts, players);
    let first = Player {
        seat,
        part,
        end: End::Stopped,
    };
    let (first, others) = play_all(rt, book, gate, first, players);
    let Player {
        mut seat,
        part,
        end,
    } = first;
    let end = gather(book, gate, &mut seat, &mut parts, others, end);
    if parts.push(part).is_err() {
        return Err(ActorsError {
            seat,
            why: WhyStopped::NoMemory,
        });
    }
    parts.reverse();
    match end {
        End::Finished => Ok((seat, parts)),
        End::Stopped => Err(ActorsError {
            seat,
            why: WhyStopped::NoMemory,
        }),
        End::Failed(why) => Err(ActorsError { seat, why }),
    }
}
