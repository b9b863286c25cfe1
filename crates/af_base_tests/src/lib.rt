//! What names and moments are, and what JSON texts hold, told as rows.
#![tactic(auto)]

#[cfg(test)]
mod tests;
