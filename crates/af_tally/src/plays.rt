// What each step tells the seat that takes it.
use crate::view::View;
use atomic_table::{Join, Play, Split};
use std::marker::{Brand, PhantomData};

/// Names the entries that a step adds.
pub trait Writes<E> {
    ghost use Rattle.std.specs.Prelude.{List};

    ghost entries: { List E };
}

impl<E> Writes<E> for Brand {
    ghost use Rattle.std.specs.Prelude.{[]};

    ghost entries = { [] };
}

/// A step that adds the entries that `N` names.
pub struct Add<N> {
    of: PhantomData<N>,
}

impl<E, N: Writes<E>> Play<u8, View<E>> for Add<N> {
    ghost use Rattle.af_tally.specs.Tells.{Adds};

    ghost then = { Adds N.entries };
}

/// A load that compares what the seat was told of with what it has seen.
pub struct Compare;

impl<E> Play<u8, View<E>> for Compare {
    ghost use Rattle.af_tally.specs.Tells.{Compares};

    ghost then = { Compares };
}

/// A split: a witness has seen what the seat has, which is the keeper's or the spare one.
pub struct Copied;

impl<E> Split<View<E>> for Copied {
    ghost use Rattle.af_tally.specs.Steps.{copied};

    ghost left = { λ v. v };

    ghost right = { copied };
}

/// A join: a seat is told of what a witness has seen, and that one is spent.
pub struct Inform;

impl<E> Join<View<E>> for Inform {
    ghost use Rattle.af_tally.specs.Steps.{informed, nobody};

    ghost both = { informed };

    ghost spent = { nobody };
}
