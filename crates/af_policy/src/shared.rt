//! Tables of rows that share what did not change.
mod balance;
mod building;
mod change;
mod fronts;
mod listing;
pub(crate) mod node;
mod rest;
mod row;
mod run;
mod search;
mod sought;
mod table;

pub use fronts::front;
pub(crate) use fronts::order;
pub use row::Row;
pub use table::Table;
