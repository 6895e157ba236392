//! What each step on the table tells.
ghost use Rattle.step_book.specs.Turns.{compared, drew, looked, served, left_of_split, right_of_split, both_of_join, spent};

use crate::board::{Board, Known};
use crate::machine::Machine;
use atomic_table::{Join, Play, Split};
use std::marker::PhantomData;

pub(crate) struct Draw;

impl<P, H: Drop, S: Drop> Play<Option<Board<P, H, S>>, Known<P, H, S>> for Draw {
    ghost then = { drew };
}

pub(crate) struct Look<M> {
    machine: PhantomData<M>,
}

impl<M: Machine> Play<
    Option<Board<M::Part, M::Shared, M::Step>>,
    Known<M::Part, M::Shared, M::Step>,
> for Look<M> {
    ghost then = { looked M.rules };
}

pub(crate) struct Serve<M> {
    machine: PhantomData<M>,
}

impl<M: Machine> Play<
    Option<Board<M::Part, M::Shared, M::Step>>,
    Known<M::Part, M::Shared, M::Step>,
> for Serve<M> {
    ghost then = { served M.rules };
}

pub(crate) struct Compare;

impl<P, H: Drop, S: Drop> Play<Option<Board<P, H, S>>, Known<P, H, S>> for Compare {
    ghost then = { compared };
}

pub(crate) struct Cut;

impl<P, H: Drop, S: Drop> Split<Known<P, H, S>> for Cut {
    ghost left = { left_of_split };

    ghost right = { right_of_split };
}

pub(crate) struct Glue;

impl<P, H: Drop, S: Drop> Join<Known<P, H, S>> for Glue {
    ghost both = { both_of_join };

    ghost spent = { spent };
}
