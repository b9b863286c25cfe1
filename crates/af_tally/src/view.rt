// What a seat of the word's table knows, and the rule of that table.
use atomic_table::TableRule;
use std::collections::LinkedList;

/// What a seat knows. It exists in proofs alone: no value of it is made.
pub struct View<E> {
    /// Whether it is the keeper's.
    pub keeps: bool,
    /// The entries that were seen.
    pub seen: LinkedList<E>,
    /// The entries that another seat had seen, from a join up to the load that follows it.
    pub told: LinkedList<E>,
}

/// The word and the views are those that some run of the five kinds of step leads to.
pub struct Law;

impl<E> TableRule<u8, View<E>, ()> for Law {
    ghost use Rattle.std.specs.Prelude.{[]};
    ghost use Rattle.af_tally.specs.Steps.{Ruled, keeping};

    ghost holds = { λ key s. Ruled s.words s.views };

    ghost first = { λ key. keeping [] };
}
