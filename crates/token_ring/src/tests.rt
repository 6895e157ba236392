ghost use Rattle.std.specs.Prelude.{◌≡◌, ◌^◌, ◌<◌, All, IfOk, vec_len};
ghost use Rattle.step_book.specs.Actors.{IsBare};
ghost use Rattle.token_ring.specs.Ring.{ring};

use crate::{Counter, Ring, Step, Token};
use base_types::NoMemory;
use node_threads::{ActorsError, FreeGate, Gate, WhyStopped, run_actors};
use std::alloc::{AllocError, Global};
use std::process::Abort;
use std::sync::Wait;
use std::sync::atomic::{AtomicU64, Ordering};
use std::test::Fail;
use std::thread;
use std::thread::Threads;
use step_book::{Book, Closed};

const ACTORS: u32 = 4;

// How often an actor looks whether another one has asked.
const PATIENCE: u32 = 5_000_000;

// What the steps of the book make of the token.
fn replayed(steps: &[Step]) -> Token {
    let mut token = first_token(ACTORS);
    for step in steps {
        match step {
            Step::Counted(_) => token.counts = token.counts.wrapping_add(1),
            Step::Passed(actor) => {
                token.holder = if *actor < ACTORS - 1 { *actor + 1 } else { 0 };
                token.passes = token.passes.wrapping_add(1);
            }
        }
    }
    token
}

fn first_token(actors: u32) -> Token {
    Token {
        actors,
        holder: 0,
        passes: 0,
        counts: 0,
    }
}

const START: Counter = Counter {
    count: 0,
    mark: None,
};

// So many counters, which count from 0.
fn counters(alloc: Global, actors: u32) -> Result<Vec<Counter>, AllocError>
    ensures { IfOk result (λ v. (vec_len v ≡ actors) × All (IsBare ring) v.items) }
{
    Vec::from_elem(alloc, START, actors as usize)
}

// A gate that holds an actor's first call until a second actor has asked.
#[derive(Drop)]
struct Meeting {
    asked: AtomicU64,
}

// No other actor had asked after so many looks.
#[derive(Clone, Copy, Debug, PartialEq, Eq)]
struct Alone {
    looks: u32,
}

impl Gate for Meeting {
    type No = Alone;

    ghost gave = { λ gate actor refusal. refusal.looks ≡ 5000000 };

    fn pass(&self, _actor: u32) -> Result<(), Alone> {
        self.asked.fetch_add(1, Ordering::SeqCst);
        for _ in 0..PATIENCE {
            if self.asked.load(Ordering::SeqCst) > 1 {
                return Ok(());
            }
            thread::yield_now();
        }
        Err(Alone { looks: PATIENCE })
    }
}

// Whom the gate refuses where so many actors run.
fn refused<R: Threads + Wait + Sync>(
    rt: &R,
    alloc: Global,
    actors: u32,
) -> Result<Option<(u32, Alone)>, NoMemory>
    requires { 0 < actors }
{
    let Ok(parts) = counters(alloc, actors) else {
        return Err(NoMemory);
    };
    let Ok((book, seat)) = Book::<Ring>::new(alloc, first_token(actors), &parts) else {
        return Err(NoMemory);
    };
    let gate = Meeting {
        asked: AtomicU64::new(0),
    };
    match run_actors(rt, alloc, &book, seat, parts, &gate) {
        Ok((seat, _)) => {
            book.close(seat);
            Ok(None)
        }
        Err(ActorsError { seat, why }) => {
            book.close(seat);
            match why {
                WhyStopped::Gate(actor, alone) => Ok(Some((actor, alone))),
                WhyStopped::NoMemory => Err(NoMemory),
            }
        }
    }
}

#[test]
fn four_threads_reach_what_their_book_says(rt: HostRuntime) -> Result<(), Fail> {
    let parts = counters(rt.alloc(), ACTORS)?;
    let Ok((book, seat)) = Book::<Ring>::new(rt.alloc(), first_token(ACTORS), &parts) else {
        panic!(rt; "there is memory")
    };
    let Ok((seat, left)) = run_actors(&rt, rt.alloc(), &book, seat, parts, &FreeGate) else {
        panic!(rt; "there is memory")
    };
    let Closed {
        shared,
        steps,
        spoilt,
    } = book.close(seat);
    assert!(rt; !spoilt);
    assert_eq!(rt; shared, replayed(steps.as_slice()));
    assert_eq!(rt; (shared.passes, shared.holder), (100, 0));
    assert_eq!(rt; left.len(), 4);
    Ok(())
}

// Actors that ran on one thread, or that asked under one lock, would never meet.
#[test]
fn two_actors_ask_at_the_same_time_and_one_waits_in_vain(rt: HostRuntime) {
    assert_eq!(rt; refused(&rt, rt.alloc(), 2), Ok(None));
    assert_eq!(rt;
        refused(&rt, rt.alloc(), 1),
        Ok(Some((0, Alone { looks: PATIENCE })))
    );
}
