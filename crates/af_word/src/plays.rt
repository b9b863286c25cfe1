// What each step tells the seat that takes it.
use crate::view::View;
use atomic_table::{Join, Play, Split};

/// A step that looks.
pub struct Look;

impl Play<u8, View> for Look {
    ghost use Rattle.af_word.specs.Tells.{Looks};

    ghost then = { Looks };
}

/// A step that adds a place, or finds that the list is longer.
pub struct Publish;

impl Play<u8, View> for Publish {
    ghost use Rattle.af_word.specs.Tells.{Publishes};

    ghost then = { Publishes };
}

/// A split: both seats have the same view.
pub struct Same;

impl Split<View> for Same {
    ghost use Rattle.af_word.specs.Steps.{parts};

    ghost left = { parts };

    ghost right = { parts };
}

/// A join: one seat is told of what another has seen, and that one is spent.
pub struct Inform;

impl Join<View> for Inform {
    ghost use Rattle.af_word.specs.Steps.{informed, nobody};

    ghost both = { informed };

    ghost spent = { nobody };
}
