//! What several crates stand on, below their own subjects: rows in order of a key, found by binary search; lists that are shown as
//! their items; and JSON values over the text that they are read from, with the members of their objects, read one after another.
#![tactic(auto)]

mod again;
mod items;
mod json_value;
mod keyed;
mod ordered;
mod searching;
pub mod worked;

pub use again::Again;
pub use items::Items;
pub use json_value::{
    Json, Numeric, json_in, member, optional_list, optional_text, optional_truth, required_list,
    required_object, required_text, required_truth,
};
pub use keyed::{Change, Keyed};
pub use ordered::Ordered;
pub use searching::{is_there, place_in};
