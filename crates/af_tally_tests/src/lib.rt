//! What a keeper counts, alone and shared by two threads.
#![tactic(auto)]

#[cfg(test)]
mod tests;
