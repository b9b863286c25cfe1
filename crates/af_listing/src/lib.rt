//! Pages of listings: which rows of a list a reader is shown, and how many there are.
#![tactic(auto)]

mod decoding;
pub mod laws;
mod listed;
mod listed_page;
mod paging;
mod window;
pub mod worked;

pub use listed::Listed;
pub use listed_page::Page;
pub use paging::page;
pub use window::Window;
