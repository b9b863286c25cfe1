//! What roles and permissions are, who brings a token, how tables share rows, and which rows of a list a reader is shown, told as rows that
//! one loop plays.
#![tactic(auto)]

#[cfg(test)]
mod tests;
