//! The published versions of a policy, shared by threads: each version has one policy, and only `draft` and `submit` may wait for another thread.
#![tactic(auto)]

mod board;
mod draft;
mod drafting;
mod fault;
mod mark;
mod publishing;
mod push_fault;
mod reading;
mod receipt;
mod spent;
mod submit_fault;
mod told;

pub use board::Board;
pub use draft::Draft;
pub use fault::{NotFound, OutOfMemory};
pub use mark::Mark;
pub use receipt::Receipt;
pub use spent::Spent;
pub use submit_fault::SubmitFault;
pub use told::Told;
