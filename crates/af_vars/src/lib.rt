//! Variables: texts by key, no two of one key; an addition for which memory is reserved wants none.
#![tactic(auto)]

mod copying;
mod fault;
pub mod laws;
mod var_text;
mod variable;
mod variables;

pub use fault::VariableFault;
pub use var_text::VarText;
pub use variable::Variable;
pub use variables::{MOST_VARIABLES, Variables};
