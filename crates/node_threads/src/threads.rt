ghost use Rattle.std.specs.Prelude.{◌≡◌, ◌+◌, ◌≤◌, ◌||◌, ℕ, [], All, vec_len, vec_capacity, length, reverse, slice_get, Some};
ghost use Rattle.node_threads.specs.Ends.{Tells};
ghost use Rattle.node_threads.specs.Players.{IsAlone, Plays};
ghost use Rattle.step_book.specs.Actors.{MayWork};
ghost use Rattle.step_book.specs.Seats.{IsOf, IsSameActor};
ghost use Rattle.step_book.specs.Turns.{left_of_split};

use crate::actor::act;
use crate::choice::first_of;
use crate::end::{End, WhyStopped};
use crate::gate::Gate;
use std::sync::Wait;
use std::sync::atomic::AtomicBool;
use std::thread;
use std::thread::{Threads, join};
use step_book::{Book, Machine, Seat};

// An actor with its seat and its part, and how it ended.
#[derive(Drop)]
pub(crate) struct Player<M: Machine, N> {
    pub(crate) seat: Seat<M>,
    pub(crate) part: M::Part,
    pub(crate) end: End<N>,
}

// What all actors have in common.
#[derive(Drop)]
struct Crew<'a, M: Machine, G, R> {
    rt: &'a R,
    book: &'a Book<M>,
    gate: &'a G,
    // Raised once an actor fails, so that the others stop.
    stop: &'a AtomicBool,
}

// Takes an actor's turns until it ends.
fn play<M: Machine, G: Gate, R: Wait>(crew: &Crew<'_, M, G, R>, player: &mut Player<M, G::No>)
    requires { Plays M.rules crew.now.book.now.table.shared.table_id crew.now.book.now.table.shared.key player.old.seat.place.me.0.number player.old.seat.place player.old.part }
    ensures seat { IsOf crew.now.book.now.table.shared.table_id crew.now.book.now.table.shared.key player.new.seat.place }
    ensures counts { IsSameActor player.old.seat.place.me.0 player.new.seat.place.me.0 }
    ensures end { Tells (λ actor refusal. G.gave crew.now.gate.now actor refusal) player.new.seat.place.me.0.ended player.new.end }
{
    player.end = act(
        crew.rt,
        crew.book,
        crew.gate,
        crew.stop,
        &mut player.seat,
        &mut player.part,
    );
}

// Takes the turns of these actors, each on a thread of its own.
fn play_each<M: Machine + Send + Sync, G: Gate + Sync, R: Threads + Wait + Sync>(
    crew: &Crew<'_, M, G, R>,
    mut players: Vec<Player<M, G::No>>,
) -> Vec<Player<M, G::No>>
    requires plays { All (λ x. Plays M.rules crew.now.book.now.table.shared.table_id crew.now.book.now.table.shared.key x.seat.place.me.0.number x.seat.place x.part) players.items }
    requires alone { All (λ x. IsAlone x.seat.place.me.0) players.items }
    ensures count { vec_len result ≡ vec_len players }
    ensures seats { All (λ x. IsOf crew.now.book.now.table.shared.table_id crew.now.book.now.table.shared.key x.seat.place) result.items }
    ensures alone { All (λ x. IsAlone x.seat.place.me.0) result.items }
    ensures ends { All (λ x. Tells (λ actor refusal. G.gave crew.now.gate.now actor refusal) x.seat.place.me.0.ended x.end) result.items }
{
    let count = players.len();
    if count > 0 {
        thread::for_each_mut(
            crew.rt,
            players.as_mut_slice(),
            count,
            &move |_: usize, player: &mut Player<M, G::No>|
                requires { Plays M.rules crew.now.book.now.table.shared.table_id crew.now.book.now.table.shared.key player.now.seat.place.me.0.number player.now.seat.place player.now.part }
                ensures { IsOf crew.entry.now.book.now.table.shared.table_id crew.entry.now.book.now.table.shared.key player.exit.now.seat.place × IsSameActor player.entry.now.seat.place.me.0 player.exit.now.seat.place.me.0 × Tells (λ actor refusal. G.gave crew.entry.now.gate.now actor refusal) player.exit.now.seat.place.me.0.ended player.exit.now.end }
            { play(crew, player) },
        );
    }
    players
}

// Takes the turns of one actor.
fn play_one<M: Machine, G: Gate, R: Wait>(
    crew: &Crew<'_, M, G, R>,
    mut player: Player<M, G::No>,
) -> Player<M, G::No>
    requires { Plays M.rules crew.now.book.now.table.shared.table_id crew.now.book.now.table.shared.key player.seat.place.me.0.number player.seat.place player.part }
    ensures seat { IsOf crew.now.book.now.table.shared.table_id crew.now.book.now.table.shared.key result.seat.place }
    ensures counts { IsSameActor player.seat.place.me.0 result.seat.place.me.0 }
    ensures end { Tells (λ actor refusal. G.gave crew.now.gate.now actor refusal) result.seat.place.me.0.ended result.end }
{
    play(crew, &mut player);
    player
}

// Takes the turns of all actors: the first one here, and each of the others on a thread of its own.
pub(crate) fn play_all<'a, M: Machine + Send + Sync, G: Gate + Sync, R: Threads + Wait + Sync>(
    rt: &'a R,
    book: &'a Book<M>,
    gate: &'a G,
    first: Player<M, G::No>,
    others: Vec<Player<M, G::No>>,
) -> (Player<M, G::No>, Vec<Player<M, G::No>>)
    requires first { Plays M.rules book.now.table.shared.table_id book.now.table.shared.key first.seat.place.me.0.number first.seat.place first.part }
    requires plays { All (λ x. Plays M.rules book.now.table.shared.table_id book.now.table.shared.key x.seat.place.me.0.number x.seat.place x.part) others.items }
    requires alone { All (λ x. IsAlone x.seat.place.me.0) others.items }
    ensures first { IsOf book.now.table.shared.table_id book.now.table.shared.key result.0.seat.place × IsSameActor first.seat.place.me.0 result.0.seat.place.me.0 × Tells (λ actor refusal. G.gave gate.now actor refusal) result.0.seat.place.me.0.ended result.0.end }
    ensures count { vec_len result.1 ≡ vec_len others }
    ensures seats { All (λ x. IsOf book.now.table.shared.table_id book.now.table.shared.key x.seat.place) result.1.items }
    ensures alone { All (λ x. IsAlone x.seat.place.me.0) result.1.items }
    ensures ends { All (λ x. Tells (λ actor refusal. G.gave gate.now actor refusal) x.seat.place.me.0.ended x.end) result.1.items }
{
    let stop = AtomicBool::new(false);
    let crew = Crew {
        rt,
        book,
        gate,
        stop: &stop,
    };
    let crew = &crew;
    let theirs = move || -> Vec<Player<M, G::No>>
        requires plays { All (λ x. Plays M.rules crew.now.book.now.table.shared.table_id crew.now.book.now.table.shared.key x.seat.place.me.0.number x.seat.place x.part) others.items }
        requires alone { All (λ x. IsAlone x.seat.place.me.0) others.items }
        ensures count { vec_len result ≡ vec_len others }
        ensures seats { All (λ x. IsOf crew.entry.now.book.now.table.shared.table_id crew.entry.now.book.now.table.shared.key x.seat.place) result.items }
        ensures alone { All (λ x. IsAlone x.seat.place.me.0) result.items }
        ensures ends { All (λ x. Tells (λ actor refusal. G.gave crew.entry.now.gate.now actor refusal) x.seat.place.me.0.ended x.end) result.items }
    { play_each(crew, others) };
    let mine = move || -> Player<M, G::No>
        requires { Plays M.rules crew.now.book.now.table.shared.table_id crew.now.book.now.table.shared.key first.seat.place.me.0.number first.seat.place first.part }
        ensures { IsOf crew.entry.now.book.now.table.shared.table_id crew.entry.now.book.now.table.shared.key result.seat.place × IsSameActor first.seat.place.me.0 result.seat.place.me.0 × Tells (λ actor refusal. G.gave crew.entry.now.gate.now actor refusal) result.seat.place.me.0.ended result.end }
    { play_one(crew, first) };
    let (others, first) = join(rt, theirs, mine);
    (first, others)
}

// The seat of the next actor, with its part.
fn next_player<M: Machine, N>(book: &Book<M>, whole: &mut Seat<M>, part: M::Part) -> Player<M, N>
    requires whole { IsOf book.now.table.shared.table_id book.now.table.shared.key whole.old.place × (whole.old.place.me.0.number ≡ 0) }
    requires part { slice_get book.now.table.shared.key.parts.value.items whole.old.place.me.0.made ≡ Some part }
    requires work { MayWork M.rules whole.old.place.me.0.made part }
    ensures whole { IsOf book.now.table.shared.table_id book.now.table.shared.key whole.new.place × (whole.new.place.me.0 ≡ left_of_split whole.old.place.me.0) }
    ensures plays { Plays M.rules book.now.table.shared.table_id book.now.table.shared.key result.seat.place.me.0.number result.seat.place result.part }
    ensures alone { IsAlone result.seat.place.me.0 }
{
    let seat = whole.split(book);
    Player {
        seat,
        part,
        end: End::Stopped,
    }
}

// The seats of the other actors, with their parts, which come in reverse order.
pub(crate) fn seat_others<M: Machine, N: Drop>(
    book: &Book<M>,
    whole: &mut Seat<M>,
    parts: &mut Vec<M::Part>,
    mut players: Vec<Player<M, N>>,
) -> Vec<Player<M, N>>
    requires whole { IsOf book.now.table.shared.table_id book.now.table.shared.key whole.old.place × (whole.old.place.me.0.number ≡ 0) }
    requires none { players.items ≡ [] }
    requires room { vec_len parts.old ≤ vec_capacity players }
    requires parts { (i : ℕ) (part : _) → slice_get (reverse parts.old.items) i ≡ Some part → (slice_get book.now.table.shared.key.parts.value.items (whole.old.place.me.0.made + i) ≡ Some part) × MayWork M.rules (whole.old.place.me.0.made + i) part }
    ensures whole { IsOf book.now.table.shared.table_id book.now.table.shared.key whole.new.place × (whole.new.place.me.0.number ≡ 0) }
    ensures same { (whole.new.place.me.0.own ≡ whole.old.place.me.0.own) × (whole.new.place.me.0.joined ≡ whole.old.place.me.0.joined) }
    ensures made { whole.new.place.me.0.made ≡ whole.old.place.me.0.made + vec_len result }
    ensures plays { All (λ x. Plays M.rules book.now.table.shared.table_id book.now.table.shared.key x.seat.place.me.0.number x.seat.place x.part) result.items }
    ensures alone { All (λ x. IsAlone x.seat.place.me.0) result.items }
{
    while let Some(part) = parts.pop() {
        let player = next_player(book, whole, part);
        players.push_reserved(player);
    }
    players
}

// Joins an actor's seat into that of actor 0, keeps its part, and says how the actors ended.
fn take_in<M: Machine, G: Gate>(
    book: &Book<M>,
    gate: &G,
    whole: &mut Seat<M>,
    parts: &mut Vec<M::Part>,
    player: Player<M, G::No>,
    end: End<G::No>,
) -> End<G::No>
    requires whole { IsOf book.now.table.shared.table_id book.now.table.shared.key whole.old.place }
    requires seat { IsOf book.now.table.shared.table_id book.now.table.shared.key player.seat.place }
    requires ended { Tells (λ actor refusal. G.gave gate.now actor refusal) player.seat.place.me.0.ended player.end }
    requires end { Tells (λ actor refusal. G.gave gate.now actor refusal) whole.old.place.me.0.ended end }
    ensures whole { IsOf book.now.table.shared.table_id book.now.table.shared.key whole.new.place }
    ensures counts { (whole.new.place.me.0.made ≡ whole.old.place.me.0.made + player.seat.place.me.0.made) × (whole.new.place.me.0.joined ≡ whole.old.place.me.0.joined + player.seat.place.me.0.joined) }
    ensures ended { whole.new.place.me.0.ended ≡ whole.old.place.me.0.ended || player.seat.place.me.0.ended }
    ensures end { Tells (λ actor refusal. G.gave gate.now actor refusal) whole.new.place.me.0.ended result }
{
    let Player {
        seat,
        part,
        end: ended,
    } = player;
    whole.join(book, seat);
    if parts.push(part).is_err() {
        return End::Failed(WhyStopped::NoMemory);
    }
    first_of(ended, end)
}

// Joins the seats of all actors, keeps their parts, and says how they ended.
pub(crate) fn gather<M: Machine, G: Gate>(
    book: &Book<M>,
    gate: &G,
    whole: &mut Seat<M>,
    parts: &mut Vec<M::Part>,
    mut others: Vec<Player<M, G::No>>,
    first_end: End<G::No>,
) -> End<G::No>
    requires whole { IsOf book.now.table.shared.table_id book.now.table.shared.key whole.old.place }
    requires seats { All (λ x. IsOf book.now.table.shared.table_id book.now.table.shared.key x.seat.place) others.items }
    requires alone { All (λ x. IsAlone x.seat.place.me.0) others.items }
    requires ends { All (λ x. Tells (λ actor refusal. G.gave gate.now actor refusal) x.seat.place.me.0.ended x.end) others.items }
    requires first { Tells (λ actor refusal. G.gave gate.now actor refusal) whole.old.place.me.0.ended first_end }
    ensures whole { IsOf book.now.table.shared.table_id book.now.table.shared.key whole.new.place }
    ensures counts { (whole.new.place.me.0.made ≡ whole.old.place.me.0.made) × (whole.new.place.me.0.joined ≡ whole.old.place.me.0.joined + vec_len others) }
    ensures end { Tells (λ actor refusal. G.gave gate.now actor refusal) whole.new.place.me.0.ended result }
{
    let mut end = End::Stopped;
    while let Some(player) = others.pop() {
        end = take_in(book, gate, whole, parts, player, end);
    }
    first_of(first_end, end)
}
