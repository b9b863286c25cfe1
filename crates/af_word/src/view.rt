// What a seat of the word's table knows, and the rule of that table.
use atomic_table::TableRule;
use std::collections::LinkedList;

/// What a seat knows. It exists in proofs alone: no value of it is made.
pub struct View {
    /// The place at version 0.
    pub first: u32,
    /// The last version that the word takes.
    pub last: u32,
    /// The places that were seen, by version.
    pub seen: LinkedList<u32>,
    /// The places that another seat had seen, from a join up to the look that follows it.
    pub told: LinkedList<u32>,
    /// How many looks and exchanges it took, those of the seat that it was split from before that among them.
    pub steps: u64,
    /// How many places it has published and how many splits it has been through, on either side, those of the seat that it was split
    /// from before that and of the seats that it has taken in among them.
    pub deeds: u64,
}

/// The word and the views are those that some run of the six kinds of step leads to. The key is the first place and the last version.
pub struct Law;

impl TableRule<u8, View, (u32, u32)> for Law {
    ghost use Rattle.std.specs.Prelude.{[], ◌∷◌};
    ghost use Rattle.af_word.specs.Steps.{Ruled, sight};

    ghost holds = { λ key s. Ruled key.0 key.1 s.words s.views };

    ghost first = { λ key. sight key.0 key.1 (key.0 ∷ []) [] 0 0 };
}
