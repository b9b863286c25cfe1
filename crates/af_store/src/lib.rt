//! Lines of a store: a line reads back as what it was written for, and no other text reads as one.
#![tactic(auto)]

mod body_text;
mod chain;
mod change_facts;
mod change_line;
mod change_pieces;
mod change_reading;
mod change_telling;
mod deed;
mod entry_facts;
mod entry_line;
mod entry_reading;
mod entry_telling;
mod event;
mod facts;
pub mod laws;
mod line;
mod line_fault;
mod line_kind;
mod members;
mod op_event;
mod op_reading;
mod op_telling;
mod opening;
mod piece;
mod row;
mod told;
pub mod worked;

pub use chain::Chain;
pub use change_line::{ChangeLine, change_body};
pub use entry_line::{entry_body, read_entry};
pub use line::Line;
pub use line_fault::LineFault;
pub use line_kind::LineKind;
pub use opening::{Opening, opening_body};
