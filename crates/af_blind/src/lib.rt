//! A user can't tell a DAG that is hidden from one that is not there, nor hidden runs from none.
#![tactic(auto)]

pub mod laws;
