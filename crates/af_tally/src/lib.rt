//! A list of entries that exists in the proofs alone, and a word that counts them: one keeper adds, and witnesses have seen beginnings. No call waits.
#![tactic(auto)]

mod fault;
mod keeper;
pub mod laws;
mod plays;
mod view;
mod witness;

pub use fault::OutOfMemory;
pub use keeper::Keeper;
pub use witness::Witness;
