//! Compiled policies: what is decided under them is tested by the masks of the roles, which all versions of a policy share.
#![tactic(auto)]

mod compiled;

pub use af_policy::{NamedDag, Reader, View};
pub use compiled::Compiled;
