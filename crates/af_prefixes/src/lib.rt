//! Lists that only grow: whoever has seen a beginning of one of them agrees with whoever has seen another.
#![tactic(auto)]

pub mod laws;
