//! A journal in a SQLite file: lines with the numbers 1, 2, 3 and on, which are only ever added.
#![tactic(auto)]

mod journal;
mod line;
mod log_header;
mod opening;
mod refusal;
mod restart;
mod table;

pub use journal::Journal;
pub use line::Line;
pub use opening::open;
pub use refusal::Refusal;
pub use restart::append_crash_and_read;
