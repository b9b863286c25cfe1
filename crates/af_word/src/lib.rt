//! A version word that threads share: which version is current, and at which place of a table it stands. No call waits.
#![tactic(auto)]

mod fault;
pub mod laws;
mod pass;
mod plays;
mod seen;
mod view;
mod word;

pub use fault::{OutOfMemory, PublishFault};
pub use pass::Pass;
pub use seen::Seen;
pub use word::VersionWord;
