//! What the calls of a board return, as rows of two passes that one loop plays, and what two threads make of one board.
#![tactic(auto)]

#[cfg(test)]
mod tests;
