//! What calls of a version word answer, told as steps of two passes and of two threads.
#![tactic(auto)]

#[cfg(test)]
mod tests;
