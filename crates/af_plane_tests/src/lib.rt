//! What stands after a request for which there may be no memory.
#![tactic(auto)]

#[cfg(test)]
mod tests;
