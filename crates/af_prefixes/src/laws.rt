// The laws of lists that only grow. Each is the contract of a function that does nothing.
ghost use Rattle.std.specs.Prelude.{◌≡◌, ℕ, ◌≤◌, ◌⊎◌, List, length, slice_get};
ghost use mathlib.Core.List.{IsPrefix};
ghost use Rattle.af_prefixes.specs.Beginnings.{Agree};

/// A beginning of a beginning is a beginning of the whole.
pub fn beginnings_carry_on<T>()
    ensures { (earlier later whole : List T) → IsPrefix earlier later → IsPrefix later whole → IsPrefix earlier whole }
{}

/// What stands in a beginning stands in the whole, at the same place.
pub fn what_was_seen_stays<T>()
    ensures { (earlier later : List T) (at : ℕ) (entry : T) → IsPrefix earlier later → slice_get earlier at ≡ Some entry → slice_get later at ≡ Some entry }
{}

/// Two beginnings of one list have one entry at each place that both have.
pub fn beginnings_agree<T>()
    ensures { (one other whole : List T) → IsPrefix one whole → IsPrefix other whole → Agree one other }
{}

/// Of two beginnings of one list one begins the other.
pub fn beginnings_are_in_a_row<T>()
    ensures { (one other whole : List T) → IsPrefix one whole → IsPrefix other whole → IsPrefix one other ⊎ IsPrefix other one }
{}

/// A beginning as long as the whole list is that list.
pub fn full_beginnings_are_all<T>()
    ensures { (earlier whole : List T) → IsPrefix earlier whole → length whole ≤ length earlier → earlier ≡ whole }
{}
