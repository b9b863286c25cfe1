//! The lines of a server in a journal: its opening, its entries and its changes of the policy, in order, chained.
#![tactic(auto)]

mod book;
mod book_fault;
mod group;
mod group_fault;
pub mod laws;
mod next_line;
mod place;
mod reading;
mod record;
mod restart;

pub use book::Book;
pub use book_fault::BookFault;
pub use group::Group;
pub use group_fault::GroupFault;
pub use record::Record;
pub use restart::append_crash_and_take;
