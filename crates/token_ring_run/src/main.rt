//! Runs actors that count for themselves and hand a token on, on four threads, and prints where the token ended.
#![tactic(auto)]

ghost use Rattle.std.specs.Prelude.{◌≡◌, ◌≤◌, All, IfOk, vec_len};
ghost use Rattle.step_book.specs.Actors.{IsBare};
ghost use Rattle.token_ring.specs.Ring.{ring};

use base_types::NoMemory;
use node_threads::{ActorsError, FreeGate, run_actors};
use std::alloc::{AllocError, Global};
use std::io;
use std::sync::Wait;
use std::thread::Threads;
use step_book::{Book, Closed};
use token_ring::{Counter, Ring, Token};

const FIRST: Token = Token {
    actors: 4,
    holder: 0,
    passes: 0,
    counts: 0,
};

const START: Counter = Counter {
    count: 0,
    mark: None,
};

/// A counter for each actor, which counts from 0.
fn counters(alloc: Global) -> Result<Vec<Counter>, AllocError>
    ensures { IfOk result (λ v. (vec_len v ≡ 4) × All (IsBare ring) v.items) }
{
    Vec::from_elem(alloc, START, 4)
}

/// Runs the actors to their end, and gives the token as they left it.
fn last_token<R: Threads + Wait + Sync>(rt: &R, alloc: Global) -> Result<Token, NoMemory>
    ensures { IfOk result (λ token. 100 ≤ token.passes) }
{
    let parts = counters(alloc)?;
    let Ok((book, seat)) = Book::<Ring>::new(alloc, FIRST, &parts) else {
        return Err(NoMemory);
    };
    match run_actors(rt, alloc, &book, seat, parts, &FreeGate) {
        Ok((seat, _)) => {
            let Closed { shared, spoilt, .. } = book.close(seat);
            if spoilt { Err(NoMemory) } else { Ok(shared) }
        }
        Err(ActorsError { seat, .. }) => {
            book.close(seat);
            Err(NoMemory)
        }
    }
}

fn main(rt: HostRuntime) -> io::Result<()> {
    match last_token(&rt, rt.alloc()) {
        Ok(token) => println!(rt;
            "{} passes, and actor {} holds the token",
            token.passes, token.holder
        ),
        Err(NoMemory) => println!(rt; "memory ran out"),
    }
}
